// What C calls of the firmware, each by one call of firmware's function of the same name. The archive is
// made of this crate, since a library of Rattle exports nothing.
#![tactic(auto)]

ghost use Rattle.std.specs.Prelude.{◌≡◌};
ghost use Rattle.terminal.specs.Rule.{start, source_start};
ghost use Rattle.terminal.specs.Shown.{shown};
ghost use Rattle.firmware.specs.Board.{board_of, bound_of, board_answer, board_shared, board_issued, board_says, layout_version};

use firmware::{BoardAnswer, BoardGroups, BoardRecord};

// The record of a terminal that is switched on.
#[unsafe(no_mangle)]
pub extern "C" fn hulmayek_start() -> BoardRecord
    ensures { result ≡ board_of (shown start) }
{
    firmware::hulmayek_start()
}

// The same of the source, which has taken its own notice.
#[unsafe(no_mangle)]
pub extern "C" fn hulmayek_source_start(notice: u32) -> BoardRecord
    ensures { result ≡ board_of (shown (source_start notice)) }
{
    firmware::hulmayek_source_start(notice)
}

// One round of a terminal. C lends the list by its address and its length.
#[unsafe(no_mangle)]
pub extern "C" fn hulmayek_bound_step(
    n: usize,
    source: usize,
    kind: usize,
    told: BoardGroups,
    own: usize,
    heard: u32,
    before: BoardRecord,
    said: &[u32],
) -> BoardAnswer
    ensures { result ≡ board_answer n source (bound_of kind told) own heard before said.now }
{
    firmware::hulmayek_bound_step(n, source, kind, told, own, heard, before, said)
}

// One round on a shared channel.
#[unsafe(no_mangle)]
pub extern "C" fn hulmayek_bound_shared_step(
    n: usize,
    source: usize,
    kind: usize,
    told: BoardGroups,
    own: usize,
    heard: u32,
    default: u16,
    before: BoardRecord,
    said: &[u16],
) -> BoardAnswer
    ensures { result ≡ board_shared n source (bound_of kind told) own heard default before said.now }
{
    firmware::hulmayek_bound_shared_step(n, source, kind, told, own, heard, default, before, said)
}

// The source's board takes a later notice of its office.
#[unsafe(no_mangle)]
pub extern "C" fn hulmayek_issue(before: BoardRecord, notice: u32) -> BoardAnswer
    ensures { result ≡ board_issued before notice }
{
    firmware::hulmayek_issue(before, notice)
}

// What the terminal says in the round after the one that its record shows.
#[unsafe(no_mangle)]
pub extern "C" fn hulmayek_says(record: BoardRecord) -> u32
    ensures { result ≡ board_says «record» }
{
    firmware::hulmayek_says(record)
}

// The version of the layout of a board's record and answer, and of the functions.
#[unsafe(no_mangle)]
pub extern "C" fn hulmayek_layout() -> u32
    ensures { result ≡ layout_version }
{
    firmware::hulmayek_layout()
}
