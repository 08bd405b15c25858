// One round on a shared channel, where the source itself may be bad.
ghost use Rattle.std.specs.Prelude.{◌≡◌, ◌<◌, ◌≤◌, length, get_or};
ghost use Rattle.sets.specs.Tables.{table};
ghost use Rattle.sets.specs.Sets.{mem};
ghost use Rattle.quorum.specs.Notice.{first_edition};
ghost use Rattle.terminal.specs.Shown.{Whole, view_of, shown_over};
ghost use Rattle.terminal.specs.Votes.{HaveRoom};
ghost use Rattle.terminal.specs.Answer.{number_of};
ghost use Rattle.terminal.specs.Channel.{first_hearing, word_or, shared_step, shared_cause_of};

use super::{Record, State, StepError, play, record_cause, site_cause};
use quorum::Bound;
use std::array;

// What terminal j said, as a notice; silence past the list's end.
fn notice_at(said: &[u16], j: usize) -> u32
    ensures { result ≡ first_edition (get_or said.now j 0) }
{
    match said.get(j) {
        Some(layout) => quorum::first_edition(*layout),
        None => 0,
    }
}

// All that was said.
pub fn notices(said: &[u16]) -> [u32; 20]
    ensures { result ≡ table 20 (λ j. first_edition (get_or said.now j 0)) }
{
    array::from_fn(|j| notice_at(said, j))
}

// Round 1 of a terminal that waits and hears the source.
pub fn first_hearing(state: State, round: u8, hears_source: bool) -> bool
    ensures { result ≡ first_hearing state round hears_source }
{
    match state {
        State::Waiting => round == 0 && hears_source,
        State::Taken(_, _) => false,
    }
}

pub fn word_or(default: u16, word: u16) -> u16
    ensures { result ≡ word_or default word }
{
    if word == 0 { default } else { word }
}

// The round of a record that can be stepped: the old rules, but for whoever hears the source in round 1.
pub(crate) fn play_shared(
    n: usize,
    source: usize,
    bound: Bound,
    own: usize,
    heard: u32,
    default: u16,
    before: Record,
    said: &[u16],
) -> Record
    requires { (n ≤ 20) × (source < n) × (length said.now ≡ n) × (before.round < 40) × Whole before.notes × HaveRoom heard before.notes }
    ensures { result ≡ shown_over (λ j. mem j heard) before (shared_step n source bound own heard default (λ j. get_or said.now j 0) (view_of before)) }
{
    let all = notices(said);
    let mut after = play(n, source, bound, own, heard, before, &all[..n]);
    if first_hearing(before.state, before.round, sets::member(heard, source)) {
        let layout = word_or(default, said[source]);
        after.state = State::Taken(after.round, quorum::notice_of(1, layout));
    }
    after
}

// The first cause that applies: a default that is 0 comes after the site's causes and before those of the
// record and the list.
pub(crate) fn first_cause(
    n: usize,
    source: usize,
    bound: Bound,
    own: usize,
    heard: u32,
    default: u16,
    before: &Record,
    words: usize,
) -> Result<(), StepError>
    ensures { (number_of result ≡ shared_cause_of n source bound own heard default before.now words) × (number_of result ≡ 0 → Whole before.now.notes) }
{
    site_cause(n, source, bound, own, heard)?;
    if default == 0 {
        return Err(StepError::WrongLayout);
    }
    record_cause(n, source, own, heard, before, words)
}
