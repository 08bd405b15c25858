// The step for C, by value, and the office's notice to its own board. include/terminal.h has the same in
// C's words.
#![tactic(auto)]

ghost use Rattle.std.specs.Prelude.{◌≡◌};
ghost use Rattle.terminal.specs.Rule.{start, source_start};
ghost use Rattle.terminal.specs.Shown.{shown};
ghost use Rattle.terminal.specs.Answer.{number_of};
ghost use Rattle.firmware.specs.Board.{state_of, record_of, board_of, kind_of, bound_of, answer_of, board_answer, board_shared, board_issued, board_says, layout_version};

use quorum::{Bound, BoundKind};
use terminal::{Note, Record, State, Stepped};

// A record as a board keeps it. taken is 0 for a terminal that waits, with at and notice 0 too, and
// 1 for one that took `notice` in round `at`. Any other bytes are a record that no step takes. A notice
// is one number, its edition times 65,536 and its layout.
#[repr(C)]
#[derive(Clone, Copy)]
pub struct BoardRecord {
    pub taken: u8,
    pub at: u8,
    pub round: u8,
    pub notice: u32,
    pub notes: [Note; 20],
}

// The number of a refusal, 0 for none, and the record after the call. A refused one comes back as
// it went in.
#[repr(C)]
#[derive(Clone, Copy)]
pub struct BoardAnswer {
    pub number: u8,
    pub after: BoardRecord,
}

// The groups of boards that fail together: the first `count` of them; the others are 0. Bit j of a
// group is terminal j. Of a site without groups the count is f, and all sixteen are 0.
#[repr(C)]
#[derive(Clone, Copy)]
pub struct BoardGroups {
    pub count: usize,
    pub groups: [u32; 16],
}

// Bytes that are no state stand for one that no step takes: taken with notice 0.
fn state_of(taken: u8, at: u8, notice: u32) -> State
    ensures { result ≡ state_of taken at notice }
{
    if taken == 1 {
        return State::Taken(at, notice);
    }
    if taken == 0 && at == 0 && notice == 0 {
        return State::Waiting;
    }
    State::Taken(0, 0)
}

fn record_of(b: &BoardRecord) -> Record
    ensures { result ≡ record_of b.now }
{
    let notes = b.notes;
    Record {
        state: state_of(b.taken, b.at, b.notice),
        round: b.round,
        notes,
    }
}

fn board_of(r: &Record) -> BoardRecord
    ensures { result ≡ board_of r.now }
{
    let (taken, at, notice) = match r.state {
        State::Waiting => (0, 0, 0),
        State::Taken(at, notice) => (1, at, notice),
    };
    let notes = r.notes;
    BoardRecord {
        taken,
        at,
        round: r.round,
        notice,
        notes,
    }
}

// A kind that is neither 0 nor 1 stands for a bound that no site has: f is below n, and n is at most 20.
fn kind_of(kind: usize, number: usize) -> BoundKind
    ensures { result ≡ kind_of kind number }
{
    // Tests in place of a match: of the last arm of a match on numbers the proof knows no test.
    if kind == 0 {
        return BoundKind::Most(number);
    }
    if kind == 1 {
        return BoundKind::Groups(number);
    }
    BoundKind::Most(20)
}

fn bound_of(kind: usize, told: &BoardGroups) -> Bound
    ensures { result ≡ bound_of kind told.now }
{
    let groups = told.groups;
    Bound {
        kind: kind_of(kind, told.count),
        groups,
    }
}

// What a board is told of what a terminal answered. A refused record has come back as it went in, but bytes that were
// no state have not: those are put back. Its notes come from one place in both cases, so the compiler copies them less.
fn answer_of(before: &BoardRecord, stepped: &Stepped) -> BoardAnswer
    requires { (number_of stepped.now.outcome ≡ 0 → ⊥) → stepped.now.after ≡ record_of before.now }
    ensures { result ≡ answer_of before.now (number_of stepped.now.outcome) stepped.now.after }
{
    let number = terminal::number(stepped.outcome);
    let mut after = board_of(&stepped.after);
    if number != 0 {
        after.taken = before.taken;
        after.at = before.at;
        after.notice = before.notice;
    }
    BoardAnswer { number, after }
}

// The record of a terminal that is switched on.
#[unsafe(no_mangle)]
pub extern "C" fn hulmayek_start() -> BoardRecord
    ensures { result ≡ board_of (shown start) }
{
    board_of(&terminal::start())
}

// The same of the source, which has taken its own notice.
#[unsafe(no_mangle)]
pub extern "C" fn hulmayek_source_start(notice: u32) -> BoardRecord
    ensures { result ≡ board_of (shown (source_start notice)) }
{
    board_of(&terminal::source_start(notice))
}

// One round of terminal `own`, which hears the set `heard`; said[j] is what terminal j said, 0 for
// nothing. C lends the list by its address and its length. Kind 0 has at most told.count bad ones among
// those that a terminal hears, kind 1 some of one of told.count groups.
#[unsafe(no_mangle)]
pub extern "C" fn hulmayek_bound_step(
    n: usize,
    source: usize,
    kind: usize,
    told: BoardGroups,
    own: usize,
    heard: u32,
    before: BoardRecord,
    said: &[u32],
) -> BoardAnswer
    ensures { result ≡ board_answer n source (bound_of kind told) own heard before said.now }
{
    let bound = bound_of(kind, &told);
    let stepped = terminal::step(n, source, bound, own, heard, record_of(&before), said);
    answer_of(&before, &stepped)
}

// One round on a shared channel: said[j] is the layout that terminal j said to all who hear it, 0 for nothing.
#[unsafe(no_mangle)]
pub extern "C" fn hulmayek_bound_shared_step(
    n: usize,
    source: usize,
    kind: usize,
    told: BoardGroups,
    own: usize,
    heard: u32,
    default: u16,
    before: BoardRecord,
    said: &[u16],
) -> BoardAnswer
    ensures { result ≡ board_shared n source (bound_of kind told) own heard default before said.now }
{
    let bound = bound_of(kind, &told);
    let record = record_of(&before);
    let stepped = terminal::shared_step(n, source, bound, own, heard, default, record, said);
    answer_of(&before, &stepped)
}

// The source's board takes a later notice of its office, in the round that its record shows. No note changes, so they
// are copied from the record that went in, once.
#[unsafe(no_mangle)]
pub extern "C" fn hulmayek_issue(before: BoardRecord, notice: u32) -> BoardAnswer
    ensures { result ≡ board_issued before notice }
{
    let answer = answer_of(&before, &terminal::issue(record_of(&before), notice));
    let notes = before.notes;
    BoardAnswer {
        number: answer.number,
        after: BoardRecord {
            notes,
            ..answer.after
        },
    }
}

// What the terminal says in the round after the one that its record shows: its notice if it took in
// that round, else 0. Bytes that are no state say 0.
#[unsafe(no_mangle)]
pub extern "C" fn hulmayek_says(record: BoardRecord) -> u32
    ensures { result ≡ board_says «record» }
{
    terminal::says(record_of(&record))
}

// The version of this layout, so that a board can compare it with its header's.
#[unsafe(no_mangle)]
pub extern "C" fn hulmayek_layout() -> u32
    ensures { result ≡ layout_version }
{
    5
}
