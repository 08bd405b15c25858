// One terminal: its record, the step that plays one round of it, and what its office issues. All that the
// firmware ships.
#![tactic(auto)]

pub mod channel;
mod choice;
mod choosing;

ghost use Rattle.std.specs.Prelude.{◌≡◌, true, not, map, ◌+◌, ◌<◌, ◌≤◌, leb, length, get_or, set};
ghost use Rattle.sets.specs.Tests.{◌and◌, ◌implies◌};
ghost use Rattle.sets.specs.Sets.{mem};
ghost use Rattle.terminal.specs.Rule.{start, source_start, among, in_edition, is_new, with_new, noted, held_by, chosen, taking, step};
ghost use Rattle.terminal.specs.Shown.{values_in, spoken_in, Whole, view_of, written_over, no_note, notes_over, shown_over, shown, says};
ghost use Rattle.terminal.specs.Votes.{HavePlaces, HaveRoom, site_cause_of, record_cause_of};
ghost use Rattle.terminal.specs.Answer.{number_of, state_sound, counts_sound, record_sound, cause_of, record_after, issue_cause, record_issued};
ghost use Rattle.terminal.specs.Channel.{shared_cause_of, shared_record_after};

use quorum::Bound;

// A terminal waits, or it has taken a notice in a round and keeps both. A notice is one number, its
// edition times 65,536 and its layout.
#[derive(Clone, Copy)]
pub enum State {
    Waiting,
    Taken(u8, u32),
}

// What a neighbour has said: the highest edition, and in the first `count` places its different
// layouts in that edition, in the order in which they were first said. The places after them are not
// looked at. Laid out as C has it, for boards.
#[repr(C)]
#[derive(Clone, Copy)]
pub struct Note {
    pub edition: u16,
    pub count: u8,
    pub values: [u16; 40],
}

// notes[j] is what terminal j has said to this one.
#[derive(Clone, Copy)]
pub struct Record {
    pub state: State,
    pub round: u8,
    pub notes: [Note; 20],
}

// Why a step, or a later notice of the office, is refused.
#[derive(Clone, Copy, Debug, PartialEq, Eq)]
pub enum StepError {
    WrongRange,
    WrongLink,
    WrongGroups,
    WrongLayout,
    WrongEdition,
    WrongLength,
    WrongRecord,
}

// The documents' number of the outcome, 0 where nothing is refused.
pub fn number(outcome: Result<(), StepError>) -> u8
    ensures { result ≡ number_of outcome }
{
    match outcome {
        Ok(()) => 0,
        Err(StepError::WrongRange) => 4,
        Err(StepError::WrongLink) => 5,
        Err(StepError::WrongGroups) => 17,
        Err(StepError::WrongLayout) => 9,
        Err(StepError::WrongEdition) => 16,
        Err(StepError::WrongLength) => 12,
        Err(StepError::WrongRecord) => 13,
    }
}

// The record after the step; where it is refused, the record that went in.
#[derive(Clone, Copy)]
pub struct Stepped {
    pub outcome: Result<(), StepError>,
    pub after: Record,
}

fn no_note() -> Note
    ensures { result ≡ no_note }
{
    Note {
        edition: 0,
        count: 0,
        values: [0u16; 40],
    }
}

pub fn start() -> Record
    ensures { result ≡ shown start }
{
    Record {
        state: State::Waiting,
        round: 0,
        notes: [no_note(); 20],
    }
}

pub fn source_start(notice: u32) -> Record
    ensures { result ≡ shown (source_start notice) }
{
    Record {
        state: State::Taken(0, notice),
        round: 0,
        notes: [no_note(); 20],
    }
}

impl Note {
    // The layouts that the neighbour has said in its edition.
    pub(crate) fn said(&self) -> &[u16]
        requires { self.now.count ≤ 40 }
        ensures { result.now ≡ values_in self.now }
    {
        &self.values[..self.count as usize]
    }

    // The neighbour has said the layout in its edition. The loop has no early end, so that the compiler
    // can compare several places at once.
    pub(crate) fn has(&self, value: u16) -> bool
        requires { self.now.count ≤ 40 }
        ensures { result ≡ among value (values_in self.now) }
    {
        let mut found = false;
        for &layout in self.said() {
            found |= layout == value;
        }
        found
    }

    // A word of a higher edition is new, one of a lower edition is not, and one of its own if the
    // layout is.
    fn lacks(&self, edition: u16, layout: u16) -> bool
        requires { self.now.count ≤ 40 }
        ensures { result ≡ leb self.now.edition edition and not (among layout (in_edition edition (spoken_in self.now))) }
    {
        self.edition < edition || (self.edition == edition && !self.has(layout))
    }

    // The layout comes after those that are there.
    fn add(&mut self, layout: u16)
        requires { self.old.count < 40 }
        ensures { self.new ≡ record { edition = self.old.edition; count = self.old.count + 1; values = set self.old.values self.old.count layout } }
    {
        self.values[self.count as usize] = layout;
        self.count += 1;
    }

    // The note after a word that is new: a higher edition wipes the lower one.
    fn write(&mut self, said: u32)
        requires { (self.old.count < 40) × (length self.old.values ≡ 40) }
        ensures { self.new ≡ written_over self.old (with_new (spoken_in self.old) said) }
    {
        let edition = quorum::edition_of(said);
        if self.edition != edition {
            *self = Note {
                edition,
                ..no_note()
            };
        }
        self.add(quorum::layout_of(said));
    }
}

// A word that is new of a neighbour: it is heard, the word is no silence, and its note lacks it.
fn is_new(hears: bool, note: &Note, said: u32) -> bool
    requires { «hears» ≡ true → note.now.count ≤ 40 }
    ensures { result ≡ is_new «hears» (spoken_in note.now) said }
{
    if !hears || quorum::silent(said) {
        return false;
    }
    note.lacks(quorum::edition_of(said), quorum::layout_of(said))
}

impl Record {
    // What is new of each neighbour it hears.
    fn note(mut self, n: usize, heard: u32, said: &[u32]) -> Record
        requires { (n ≤ 20) × (n ≤ length said.now) × Whole self.notes × HaveRoom heard self.notes }
        ensures { result ≡ record { state = self.state; round = self.round; notes = notes_over (λ j. mem j heard) self.notes (noted n (λ j. mem j heard) (λ j. get_or said.now j 0) (map spoken_in self.notes)) } }
    {
        for j in 0..n {
            let word = said[j];
            if is_new(sets::member(heard, j), &self.notes[j], word) {
                self.notes[j].write(word);
            }
        }
        self
    }

    // It takes what it chose, in the round that its record shows; where it chose nothing its state stays.
    // Compiled into its caller, as `play` and `step` are: a call of a function that takes a record and gives one copies
    // all notes, more than once.
    #[inline(always)]
    fn decide(mut self, n: usize, source: usize, bound: Bound, heard: u32) -> Record
        requires { (n ≤ 20) × (source < n) × Whole self.notes × HavePlaces heard self.notes }
        ensures { result ≡ record { state = taking self.round self.state (chosen n source bound heard (map spoken_in self.notes) (held_by self.state)); round = self.round; notes = self.notes } }
    {
        let notice = choosing::chosen(&self.notes, n, source, bound, heard, held(self.state));
        if notice != 0 {
            self.state = State::Taken(self.round, notice);
        }
        self
    }

    fn advance(mut self) -> Record
        requires { self.round < 40 }
        ensures { result ≡ record { state = self.state; round = self.round + 1; notes = self.notes } }
    {
        self.round += 1;
        self
    }
}

// The edition that a terminal holds, 0 while it waits.
fn held(state: State) -> u16
    ensures { result ≡ held_by state }
{
    match state {
        State::Waiting => 0,
        State::Taken(_, notice) => quorum::edition_of(notice),
    }
}

fn state_sound(state: State, is_source: bool, round: u8) -> bool
    ensures { result ≡ state_sound state is_source round }
{
    match state {
        State::Waiting => !is_source,
        State::Taken(at, notice) => at <= round && !quorum::silent(notice),
    }
}

// A heard neighbour's count is at most the round number. The promise also hands on that a note has
// forty places, which only a function that is handed the note knows.
fn count_sound(hears: bool, note: &Note, round: u8) -> bool
    ensures { (result ≡ «hears» implies leb note.now.count round) × (length note.now.values ≡ 40) }
{
    !hears || note.count <= round
}

// No neighbour that it hears has said more values than there were rounds.
fn counts_sound(heard: u32, notes: &[Note; 20], round: u8) -> bool
    ensures { (result ≡ counts_sound heard notes.now round) × (result ≡ true → Whole notes.now) }
{
    for (j, note) in notes.iter().enumerate() {
        if !count_sound(sets::member(heard, j), note, round) {
            return false;
        }
    }
    true
}

fn record_sound(n: usize, source: usize, own: usize, heard: u32, before: &Record) -> bool
    ensures { (result ≡ record_sound n source own heard before.now) × (result ≡ true → Whole before.now.notes) }
{
    if 40 <= before.round || n <= own || !state_sound(before.state, own == source, before.round) {
        return false;
    }
    counts_sound(heard, &before.notes, before.round)
}

// The first cause that the site gives.
pub(crate) fn site_cause(
    n: usize,
    source: usize,
    bound: Bound,
    own: usize,
    heard: u32,
) -> Result<(), StepError>
    ensures { number_of result ≡ site_cause_of n source bound own heard }
{
    if !quorum::in_range(n, source, bound.kind) {
        return Err(StepError::WrongRange);
    }
    if !quorum::others(n, own, heard) {
        return Err(StepError::WrongLink);
    }
    if !quorum::groups_sound(n, source, bound) {
        return Err(StepError::WrongGroups);
    }
    Ok(())
}

// The first cause that the record and the list give. A record that cannot be stepped comes before a wrong
// length.
pub(crate) fn record_cause(
    n: usize,
    source: usize,
    own: usize,
    heard: u32,
    before: &Record,
    words: usize,
) -> Result<(), StepError>
    ensures { (number_of result ≡ record_cause_of n source own heard before.now words) × (number_of result ≡ 0 → Whole before.now.notes) }
{
    if !record_sound(n, source, own, heard, before) {
        return Err(StepError::WrongRecord);
    }
    if words != n {
        return Err(StepError::WrongLength);
    }
    Ok(())
}

// The first cause that applies.
fn first_cause(
    n: usize,
    source: usize,
    bound: Bound,
    own: usize,
    heard: u32,
    before: &Record,
    words: usize,
) -> Result<(), StepError>
    ensures { (number_of result ≡ cause_of n source bound own heard before.now words) × (number_of result ≡ 0 → Whole before.now.notes) }
{
    site_cause(n, source, bound, own, heard)?;
    record_cause(n, source, own, heard, before, words)
}

// The round of a record that can be stepped. It is raised first: a take keeps the raised number. The
// source takes only what its office issues.
#[inline(always)]
pub(crate) fn play(
    n: usize,
    source: usize,
    bound: Bound,
    own: usize,
    heard: u32,
    before: Record,
    said: &[u32],
) -> Record
    requires { (n ≤ 20) × (source < n) × (n ≤ length said.now) × (before.round < 40) × Whole before.notes × HaveRoom heard before.notes }
    ensures { result ≡ shown_over (λ j. mem j heard) before (step n source bound own heard (λ j. get_or said.now j 0) (view_of before)) }
{
    let heard_all = before.advance().note(n, heard, said);
    if own == source {
        return heard_all;
    }
    heard_all.decide(n, source, bound, heard)
}

// One round of terminal `own`, which hears the set `heard`; said[j] is what terminal j said, 0 for
// nothing. `bound` is the plan's f or its groups. A refused step gives the record back as it went in. The arguments
// are document 01's, each by itself: a struct of them would be one thing more for a board to fill in.
#[inline(always)]
pub fn step(
    n: usize,
    source: usize,
    bound: Bound,
    own: usize,
    heard: u32,
    before: Record,
    said: &[u32],
) -> Stepped
    ensures { (number_of result.outcome ≡ cause_of n source bound own heard before (length said.now)) × (result.after ≡ record_after n source bound own heard before said.now) }
{
    let outcome = first_cause(n, source, bound, own, heard, &before, said.len());
    let after = match outcome {
        Ok(()) => play(n, source, bound, own, heard, before, said),
        Err(_) => before,
    };
    Stepped { outcome, after }
}

// The same on a shared channel, where the source may be bad too: said[j] is the layout that terminal j said
// to all who hear it, 0 for nothing. Who waits in round 1 and hears the source takes its word, or the default
// if it said none.
pub fn shared_step(
    n: usize,
    source: usize,
    bound: Bound,
    own: usize,
    heard: u32,
    default: u16,
    before: Record,
    said: &[u16],
) -> Stepped
    ensures { (number_of result.outcome ≡ shared_cause_of n source bound own heard default before (length said.now)) × (result.after ≡ shared_record_after n source bound own heard default before said.now) }
{
    let words = said.len();
    let outcome = channel::first_cause(n, source, bound, own, heard, default, &before, words);
    let after = match outcome {
        Ok(()) => channel::play_shared(n, source, bound, own, heard, default, before, said),
        Err(_) => before,
    };
    Stepped { outcome, after }
}

// The record is that of an office's terminal, at most at round 40.
fn office_sound(before: &Record) -> bool
    ensures { result ≡ leb before.now.round 40 and state_sound before.now.state true before.now.round }
{
    before.round <= 40 && state_sound(before.state, true, before.round)
}

// The first cause that refuses a later notice.
fn issue_cause(before: &Record, notice: u32) -> Result<(), StepError>
    ensures { number_of result ≡ issue_cause before.now notice }
{
    if quorum::layout_of(notice) == 0 {
        return Err(StepError::WrongLayout);
    }
    if quorum::edition_of(notice) <= held(before.state) {
        return Err(StepError::WrongEdition);
    }
    if !office_sound(before) {
        return Err(StepError::WrongRecord);
    }
    Ok(())
}

// The source takes a later notice of its office, in the round that its record shows. A refused one
// leaves the record as it went in.
pub fn issue(before: Record, notice: u32) -> Stepped
    ensures { (number_of result.outcome ≡ issue_cause before notice) × (result.after ≡ record_issued before notice) }
{
    let outcome = issue_cause(&before, notice);
    let after = match outcome {
        Ok(()) => Record {
            state: State::Taken(before.round, notice),
            ..before
        },
        Err(_) => before,
    };
    Stepped { outcome, after }
}

// What the terminal says in the round after the one that its record shows: its notice if it took in
// that round, else 0. Any record has an answer.
pub fn says(record: Record) -> u32
    ensures { result ≡ says «record» }
{
    match record.state {
        State::Waiting => 0,
        State::Taken(at, notice) => { if at == record.round { notice } else { 0 } }
    }
}
