// One turn on a shared channel: a terminal's record, by value, and the turn that follows.
ghost use Rattle.std.specs.Prelude.{◌≡◌, ◌<◌, ◌≤◌, get_or};
ghost use Rattle.quorum.specs.Words.{shared_place_of};
ghost use Rattle.simulation.specs.Turns.{shared_record_of};

use super::{Turn, playing};
use std::array;
use terminal::Record;

// The word of a round and a sender; 0 past the list's end.
fn word(words: &[u16], n: usize, round: u8, sender: usize) -> u16
    requires { (n ≤ 20) × (1 ≤ round) × (round ≤ 40) × (sender < 20) }
    ensures { result ≡ get_or words.now (shared_place_of n round sender) 0 }
{
    let k = ((round as usize) - 1) * n + sender;
    words.get(k).copied().unwrap_or(0)
}

// The record after the turn. A bad terminal is not played, the source neither: it may be bad here, so the tests
// stand in another order than in playing, and the step is another. The two are not one function.
pub(crate) fn record_of(t: Turn, words: &[u16], before: Record) -> Record
    requires { (t.plan.n ≤ 20) × (t.at < t.plan.n) × (t.round ≤ 40) }
    ensures { result ≡ shared_record_of words.now t before }
{
    if sets::member(t.faulty, t.at) {
        return terminal::start();
    }
    if t.round == 0 {
        return playing::start_record(t);
    }
    let p = t.plan;
    // An entry of the list has two bytes, so it is its layout; that nothing need be known of the list for it, it is
    // cut to its layout as what a good terminal says is.
    let said: [u16; 20] = array::from_fn(|j| {
        let word = word(words, p.n, t.round, j) as u32;
        quorum::layout_of(playing::heard_from(t, j, word))
    });
    let stepped = terminal::shared_step(
        p.n,
        p.source,
        p.bound,
        t.at,
        p.rows[t.at],
        t.default,
        before,
        &said[..p.n],
    );
    stepped.after
}
