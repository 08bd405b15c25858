// One turn: a terminal's record, by value, and the turn that follows.
ghost use Rattle.std.specs.Prelude.{◌≡◌, ◌+◌, ◌<◌, ◌≤◌};
ghost use Rattle.propagation.specs.Run.{start_record, script_of};
ghost use Rattle.terminal.specs.Rule.{says_in};
ghost use Rattle.terminal.specs.Shown.{shown};
ghost use Rattle.simulation.specs.Turns.{heard_where, issued_in, record_of, next_turn};

use super::Turn;
use std::array;
use terminal::{Record, State};

// The word of a round, a sender and a hearer; 0 past the list's end.
fn word(words: &[u32], n: usize, round: u8, sender: usize, hearer: usize) -> u32
    requires { (n ≤ 20) × (1 ≤ round) × (round ≤ 40) × (sender < 20) × (hearer < n) }
    ensures { result ≡ script_of n words.now round sender hearer }
{
    let k = ((round as usize) - 1) * (n * n) + sender * n + hearer;
    words.get(k).copied().unwrap_or(0)
}

// What the terminal whose turn it is hears from terminal j, where `word` is the script's: a bad one says it.
pub(crate) fn heard_from(t: Turn, j: usize, word: u32) -> u32
    requires { (t.plan.n ≤ 20) × (t.at < t.plan.n) × (j < 20) }
    ensures { result ≡ heard_where t j word }
{
    if !sets::member(t.plan.rows[t.at], j) {
        0
    } else if sets::member(t.faulty, j) {
        word
    } else {
        t.spoken[j]
    }
}

pub(crate) fn start_record(t: Turn) -> Record
    ensures { result ≡ shown (start_record t.plan t.first t.at) }
{
    if t.at == t.plan.source {
        return terminal::source_start(t.first);
    }
    terminal::start()
}

// What the office issues this round is written into the source's record after its step, as on its board.
fn issued(t: Turn, stepped: Record) -> Record
    requires { (1 ≤ t.round) × (t.round ≤ 40) }
    ensures { result ≡ issued_in t stepped }
{
    let notice = t.later[(t.round - 1) as usize];
    if t.at == t.plan.source && !quorum::silent(notice) {
        return terminal::issue(stepped, notice).after;
    }
    stepped
}

// The record after the turn. A bad terminal is not played.
pub(crate) fn record_of(t: Turn, words: &[u32], before: Record) -> Record
    requires { (t.plan.n ≤ 20) × (t.at < t.plan.n) × (t.round ≤ 40) }
    ensures { result ≡ record_of words.now t before }
{
    if t.round == 0 {
        return start_record(t);
    }
    if sets::member(t.faulty, t.at) {
        return terminal::start();
    }
    let p = t.plan;
    let said: [u32; 20] = array::from_fn(|j| heard_from(t, j, word(words, p.n, t.round, j, t.at)));
    let stepped = terminal::step(
        p.n,
        p.source,
        p.bound,
        t.at,
        p.rows[t.at],
        before,
        &said[..p.n],
    );
    issued(t, stepped.after)
}

// What a terminal says in a round: its notice in the round after it took.
fn says_in(round: u8, state: State) -> u32
    requires { round ≤ 41 }
    ensures { result ≡ says_in round state }
{
    match state {
        State::Waiting => 0,
        State::Taken(at, notice) => if (at as u16) + 1 == round as u16 {
            notice
        } else {
            0
        },
    }
}

// The turn after one that left its terminal in a state.
pub(crate) fn next_turn(t: Turn, state: State) -> Turn
    requires { (t.plan.n ≤ 20) × (t.at < t.plan.n) × (t.round ≤ 40) }
    ensures { result ≡ next_turn t (says_in (t.round + 1) state) }
{
    let mut next = t.next;
    next[t.at] = says_in(t.round + 1, state);
    if t.at + 1 < t.plan.n {
        return Turn {
            at: t.at + 1,
            next,
            ..t
        };
    }
    Turn {
        round: t.round + 1,
        at: 0,
        spoken: next,
        next: [0; 20],
        ..t
    }
}
