// The run of a site against scripted liars, with a word for each hearer or on a shared channel.
#![tactic(auto)]

mod channel;
mod playing;

ghost use Rattle.std.specs.Prelude.{◌≡◌, ◌+◌, ◌*◌, ◌≤◌, [], length, Err};
ghost use Rattle.faults.specs.Check.{fault_number_of};
ghost use Rattle.simulation.specs.Turns.{Maker, Plays, Playable, carried, record_of, shared_record_of, first_turn, left_after};
ghost use Rattle.quorum.specs.Notice.{notice_of};
ghost use Rattle.simulation.specs.Channel.{shared_start_sound, shared_lists_fit, shared_run_cause, shared_turns_of, shared_records_after, shared_array_after, AgreementHolds};
ghost use Rattle.simulation.specs.Answer.{number_of, office_sound, lists_fit, given_cause, run_cause, turns_of, records_after, array_after, Demand3Holds};

use faults::FaultSetError;
use plan::Plan;
use std::array;
use terminal::Record;

// Why a run is refused.
#[derive(Clone, Copy, Debug, PartialEq, Eq)]
pub enum RunError {
    WrongRange,
    WrongLink,
    WrongGroups,
    WrongMember,
    OverBound,
    WrongStart,
    WrongEdition,
    WrongLength,
}

impl From<FaultSetError> for RunError {
    ghost from_gives = { λ e r. number_of (Err r) ≡ fault_number_of (Err e) };

    fn from(e: FaultSetError) -> RunError {
        match e {
            FaultSetError::WrongRange => RunError::WrongRange,
            FaultSetError::WrongLink => RunError::WrongLink,
            FaultSetError::WrongGroups => RunError::WrongGroups,
            FaultSetError::WrongMember => RunError::WrongMember,
            FaultSetError::OverBound => RunError::OverBound,
        }
    }
}

// The documents' number.
impl From<RunError> for u8 {
    ghost from_gives = { λ e n. n ≡ number_of (Err e) };

    fn from(e: RunError) -> u8 {
        match e {
            RunError::WrongRange => 4,
            RunError::WrongLink => 5,
            RunError::WrongGroups => 17,
            RunError::WrongMember => 7,
            RunError::OverBound => 8,
            RunError::WrongStart => 9,
            RunError::WrongEdition => 16,
            RunError::WrongLength => 12,
        }
    }
}

// The number of the outcome, 0 where nothing is refused.
pub fn number(outcome: Result<(), RunError>) -> u8
    ensures { result ≡ number_of outcome }
{
    match outcome {
        Ok(()) => 0,
        Err(e) => u8::from(e),
    }
}

// Whose turn it is: terminal `at` in a round. The office issues `first` at the start and later[r - 1]
// in round r, if that is no silence. `spoken` is what each good terminal says to all this round, fixed
// before its first step; `next` collects what they say in the next. `default` is the default layout of a
// shared channel, 0 where each hearer has its word.
#[derive(Clone, Copy)]
pub(crate) struct Turn {
    pub plan: Plan,
    pub faulty: u32,
    pub first: u32,
    pub later: [u32; 40],
    pub round: u8,
    pub at: usize,
    pub spoken: [u32; 20],
    pub next: [u32; 20],
    pub default: u16,
}

// The outcome of the run, and terminal b's record after the last round at place b. A refused run
// leaves start records.
#[derive(Clone, Copy)]
pub struct Ran {
    pub outcome: Result<(), RunError>,
    pub records: [Record; 20],
}

// What the office issues in each of forty rounds: silence past the list's end.
fn carried(later: &[u32]) -> [u32; 40]
    ensures { result ≡ carried later.now }
{
    array::from_fn(|i| later.get(i).copied().unwrap_or(0))
}

// The default is that of a shared channel, 0 where each hearer has its word.
fn first_turn(p: Plan, faulty: u32, first: u32, later: &[u32], default: u16) -> Turn
    ensures { result ≡ first_turn p faulty first later.now default }
{
    Turn {
        plan: p,
        faulty,
        first,
        later: carried(later),
        round: 0,
        at: 0,
        spoken: [0; 20],
        next: [0; 20],
        default,
    }
}

// The office's first notice has an edition, and those of the later ones rise above it.
fn office_sound(first: u32, later: &[u32]) -> bool
    ensures { result ≡ office_sound first later.now }
{
    let edition = quorum::edition_of(first);
    edition != 0 && quorum::rising(edition, later)
}

// The lists fit: a word for each round, sender and hearer, a later notice for each round, and a record
// for each terminal.
fn lists_fit(p: Plan, rounds: u8, words: usize, issues: usize, places: usize) -> bool
    requires { (p.n ≤ 20) × (rounds ≤ 40) }
    ensures { result ≡ lists_fit p rounds words issues places }
{
    words == (rounds as usize) * (p.n * p.n) && issues == rounds as usize && places == p.n
}

// The first cause that applies where plan and fault set are sound.
fn judge_given(
    p: Plan,
    first: u32,
    later: &[u32],
    rounds: u8,
    words: usize,
    places: usize,
) -> Result<(), RunError>
    requires { p.n ≤ 20 }
    ensures { number_of result ≡ given_cause p first later.now rounds words places }
{
    if !quorum::start_sound(quorum::layout_of(first), rounds) {
        return Err(RunError::WrongStart);
    }
    if !office_sound(first, later) {
        return Err(RunError::WrongEdition);
    }
    if !lists_fit(p, rounds, words, later.len(), places) {
        return Err(RunError::WrongLength);
    }
    Ok(())
}

// Judges a run, before a record is touched.
fn judge(
    p: Plan,
    faulty: u32,
    first: u32,
    later: &[u32],
    rounds: u8,
    words: usize,
    places: usize,
) -> Result<(), RunError>
    ensures { number_of result ≡ run_cause p faulty first later.now rounds words places }
{
    faults::check_fault_set(p, faulty)?;
    judge_given(p, first, later, rounds, words, places)
}

// Plays round 0 and the rounds after it, terminal by terminal, one record a turn, in place. The player makes the
// record of a turn from the one before.
fn play<F: Fn(Turn, Record) -> Record>(first: Turn, rounds: u8, player: F, records: &mut [Record])
    requires small { (first.plan.n ≤ 20) × (rounds ≤ 40) }
    requires ready { Playable (F.pre player) (F.post player) first records.old ((rounds + 1) * first.plan.n) }
    ensures { (make : Maker) → Plays (F.pre player) (F.post player) make → records.new ≡ left_after make first records.old ((rounds + 1) * first.plan.n) }
{
    let mut t = first;
    for _ in 0..((rounds as usize) + 1) * first.plan.n {
        let after = player(t, records[t.at]);
        records[t.at] = after;
        t = playing::next_turn(t, after.state);
    }
}

// The run over records of which `places` are counted, changed in place. A refused run changes none.
fn run_over(
    p: Plan,
    faulty: u32,
    first: u32,
    later: &[u32],
    rounds: u8,
    words: &[u32],
    places: usize,
    records: &mut [Record],
) -> Result<(), RunError>
    requires { run_cause p faulty first later.now rounds (length words.now) places ≡ 0 → p.n ≤ length records.old }
    ensures outcome { number_of result ≡ run_cause p faulty first later.now rounds (length words.now) places }
    ensures left { records.new ≡ left_after (record_of words.now) (first_turn p faulty first later.now 0) records.old (turns_of p faulty first later.now rounds (length words.now) places) }
{
    judge(p, faulty, first, later, rounds, words.len(), places)?;
    let player = |t: Turn, before: Record| playing::record_of(t, words, before);
    play(
        first_turn(p, faulty, first, later, 0),
        rounds,
        player,
        records,
    );
    Ok(())
}

// The run by value. later[r - 1] is what the office issues in round r; a zero in either half of it is
// silence.
pub fn run_site(p: Plan, faulty: u32, first: u32, later: &[u32], rounds: u8, words: &[u32]) -> Ran
    ensures outcome { number_of result.outcome ≡ run_cause p faulty first later.now rounds (length words.now) p.n }
    ensures records_after { result.records ≡ array_after p faulty first later.now rounds words.now }
    ensures demand3 { number_of result.outcome ≡ 0 → Demand3Holds p faulty first later.now rounds words.now result.records }
{
    let mut records = [terminal::start(); 20];
    let outcome = run_over(p, faulty, first, later, rounds, words, p.n, &mut records);
    Ran { outcome, records }
}

// The run over records that are lent, changed in place. A refused run changes none.
pub fn run(
    p: Plan,
    faulty: u32,
    first: u32,
    later: &[u32],
    rounds: u8,
    words: &[u32],
    records: &mut [Record],
) -> Result<(), RunError>
    ensures outcome { number_of result ≡ run_cause p faulty first later.now rounds (length words.now) (length records.old) }
    ensures records_after { records.new ≡ records_after p faulty first later.now rounds words.now records.old }
    ensures demand3 { number_of result ≡ 0 → Demand3Holds p faulty first later.now rounds words.now records.new }
{
    let places = records.len();
    run_over(p, faulty, first, later, rounds, words, places, records)
}

// ---- On a shared channel, where every word reaches all who hear its sender and the source may be bad. Words,
// the source's value and the default are layouts. Causes, lists and lengths are others than above, so each function that
// asks for them has its own here; the loop over the turns and the first of them are one for both.

fn shared_start_sound(value: u16, default: u16, rounds: u8) -> bool
    ensures { result ≡ shared_start_sound value default rounds }
{
    quorum::start_sound(value, rounds) && default != 0
}

// The lists fit: a word for each round and sender, and a record for each terminal.
fn shared_lists_fit(p: Plan, rounds: u8, words: usize, places: usize) -> bool
    requires { (p.n ≤ 20) × (rounds ≤ 40) }
    ensures { result ≡ shared_lists_fit p rounds words places }
{
    words == (rounds as usize) * p.n && places == p.n
}

// Judges a run, before a record is touched.
fn judge_shared(
    p: Plan,
    faulty: u32,
    value: u16,
    default: u16,
    rounds: u8,
    words: usize,
    places: usize,
) -> Result<(), RunError>
    ensures { number_of result ≡ shared_run_cause p faulty value default rounds words places }
{
    faults::check_shared_fault_set(p, faulty)?;
    if !shared_start_sound(value, default, rounds) {
        return Err(RunError::WrongStart);
    }
    if !shared_lists_fit(p, rounds, words, places) {
        return Err(RunError::WrongLength);
    }
    Ok(())
}

// The run over records of which `places` are counted, changed in place. A refused run changes none. It is judged by
// other causes and of other arguments than run_over, so the two are not one function.
fn run_shared_over(
    p: Plan,
    faulty: u32,
    value: u16,
    default: u16,
    rounds: u8,
    words: &[u16],
    places: usize,
    records: &mut [Record],
) -> Result<(), RunError>
    requires { shared_run_cause p faulty value default rounds (length words.now) places ≡ 0 → p.n ≤ length records.old }
    ensures outcome { number_of result ≡ shared_run_cause p faulty value default rounds (length words.now) places }
    ensures left { records.new ≡ left_after (shared_record_of words.now) (first_turn p faulty (notice_of 1 value) [] default) records.old (shared_turns_of p faulty value default rounds (length words.now) places) }
{
    judge_shared(p, faulty, value, default, rounds, words.len(), places)?;
    let first = quorum::notice_of(1, value);
    let player = |t: Turn, before: Record| channel::record_of(t, words, before);
    play(
        first_turn(p, faulty, first, &[], default),
        rounds,
        player,
        records,
    );
    Ok(())
}

// The run by value.
pub fn run_shared_site(
    p: Plan,
    faulty: u32,
    value: u16,
    default: u16,
    rounds: u8,
    words: &[u16],
) -> Ran
    ensures outcome { number_of result.outcome ≡ shared_run_cause p faulty value default rounds (length words.now) p.n }
    ensures records_after { result.records ≡ shared_array_after p faulty value default rounds words.now }
    ensures agreement { number_of result.outcome ≡ 0 → AgreementHolds p faulty value default rounds words.now result.records }
{
    let mut records = [terminal::start(); 20];
    let outcome = run_shared_over(p, faulty, value, default, rounds, words, p.n, &mut records);
    Ran { outcome, records }
}

// The run over records that are lent, changed in place. A refused run changes none.
pub fn run_shared(
    p: Plan,
    faulty: u32,
    value: u16,
    default: u16,
    rounds: u8,
    words: &[u16],
    records: &mut [Record],
) -> Result<(), RunError>
    ensures outcome { number_of result ≡ shared_run_cause p faulty value default rounds (length words.now) (length records.old) }
    ensures records_after { records.new ≡ shared_records_after p faulty value default rounds words.now records.old }
    ensures agreement { number_of result ≡ 0 → AgreementHolds p faulty value default rounds words.now records.new }
{
    let places = records.len();
    run_shared_over(p, faulty, value, default, rounds, words, places, records)
}
