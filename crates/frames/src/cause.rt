// Why a file is refused.
ghost use Rattle.std.specs.Prelude.{◌≡◌};
ghost use Rattle.frames.specs.Causes.{of_set, number};

use faults::FaultSetError;

// The documents' causes, of those that a line has or the file as a whole. Unknown is a frame that the
// program lacks, or one that is barred by the form of the start or on a shared channel.
#[derive(Clone, Copy)]
pub enum Cause {
    Foreign,
    Unknown,
    OutOfPlace,
    WrongRange,
    WrongLink,
    LinkTwice,
    WrongMember,
    OverBound,
    WrongNotice,
    WrongWord,
    WordTwice,
    WrongRoom,
    TooMany,
    Deaf,
    WrongEdition,
    WrongGroups,
}

// The library's causes against a bad set are the documents' too.
impl From<FaultSetError> for Cause {
    ghost from_gives = { λ e c. c ≡ of_set e };

    fn from(e: FaultSetError) -> Cause {
        match e {
            FaultSetError::WrongRange => Cause::WrongRange,
            FaultSetError::WrongLink => Cause::WrongLink,
            FaultSetError::WrongGroups => Cause::WrongGroups,
            FaultSetError::WrongMember => Cause::WrongMember,
            FaultSetError::OverBound => Cause::OverBound,
        }
    }
}

// Its number there.
impl From<Cause> for u8 {
    ghost from_gives = { λ c n. n ≡ number c };

    fn from(cause: Cause) -> u8 {
        match cause {
            Cause::Foreign => 1,
            Cause::Unknown => 2,
            Cause::OutOfPlace => 3,
            Cause::WrongRange => 4,
            Cause::WrongLink => 5,
            Cause::LinkTwice => 6,
            Cause::WrongMember => 7,
            Cause::OverBound => 8,
            Cause::WrongNotice => 9,
            Cause::WrongWord => 10,
            Cause::WordTwice => 11,
            Cause::WrongRoom => 12,
            Cause::TooMany => 14,
            Cause::Deaf => 15,
            Cause::WrongEdition => 16,
            Cause::WrongGroups => 17,
        }
    }
}
