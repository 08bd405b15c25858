// Which value a waiting terminal takes, from what it has noted; 0 for none, since 0 is no layout in the
// documents either.
//
// A value that enough neighbours have said has a voter outside any set that is not enough. So where
// those who have said more than one value are not enough, as in every run, only what the others have
// said can be taken: one value each. Where they are, every value of every neighbour is looked at.
ghost use Rattle.std.specs.Prelude.{◌≡◌, map, ℕ, ◌<◌, ◌≤◌, get_or};
ghost use Rattle.std.specs.Int.Bits.{bit_or};
ghost use Rattle.terminal.specs.Rule.{lesser, least, least_of, least_from, candidate, choice};
ghost use Rattle.terminal.specs.Shown.{values_in, Whole};
ghost use Rattle.terminal.specs.Votes.{HavePlaces, voters_in, single_in, fickle_in, first_place, same_in, if_enough, from_first};

use super::Note;
use quorum::Bound;
use std::array;

// Who has said one value, who has said more, and the first place of each note.
#[derive(Clone, Copy)]
pub(crate) struct FirstValues {
    pub single: u32,
    pub fickle: u32,
    pub values: [u16; 20],
}

// Those of a set who have said the value.
fn voters(notes: &[Note; 20], n: usize, neighbours: u32, value: u16) -> u32
    requires { (n ≤ 20) × HavePlaces neighbours notes.now }
    ensures { result ≡ voters_in n notes.now neighbours value }
{
    sets::those(n, |j| sets::member(neighbours, j) && notes[j].has(value))
}

// Those of a set whose first place has the value.
fn same(firsts: &[u16; 20], n: usize, neighbours: u32, value: u16) -> u32
    requires { n ≤ 20 }
    ensures { result ≡ same_in n firsts.now neighbours value }
{
    sets::those(n, |j| firsts[j] == value) & neighbours
}

// The value, if enough have said it.
fn if_enough(bound: Bound, who: u32, value: u16) -> u16
    ensures { result ≡ if_enough bound who value }
{
    if quorum::enough(bound, who) {
        return value;
    }
    0
}

fn lesser(a: u16, b: u16) -> u16
    ensures { result ≡ lesser a b }
{
    if a == 0 {
        return b;
    }
    if b == 0 {
        return a;
    }
    a.min(b)
}

// The least certified value of one neighbour.
fn least_of(notes: &[Note; 20], n: usize, bound: Bound, heard: u32, note: &Note) -> u16
    requires { (n ≤ 20) × HavePlaces heard notes.now × (note.now.count ≤ 40) }
    ensures { result ≡ least_of (candidate n bound heard (map values_in notes.now)) (values_in note.now) }
{
    let mut best: u16 = 0;
    for &value in note.said() {
        let who = voters(notes, n, heard, value);
        best = lesser(best, if_enough(bound, who, value));
    }
    best
}

// The same of neighbour j, if it is heard.
fn least_from(notes: &[Note; 20], n: usize, bound: Bound, heard: u32, j: usize) -> u16
    requires { (n ≤ 20) × (j < n) × HavePlaces heard notes.now }
    ensures { result ≡ least_from n bound heard (map values_in notes.now) j }
{
    if sets::member(heard, j) {
        return least_of(notes, n, bound, heard, &notes[j]);
    }
    0
}

// The least certified value, by every value of every neighbour.
fn least_of_all(notes: &[Note; 20], n: usize, bound: Bound, heard: u32) -> u16
    requires { (n ≤ 20) × HavePlaces heard notes.now }
    ensures { result ≡ least n (least_from n bound heard (map values_in notes.now)) }
{
    let mut best: u16 = 0;
    for j in 0..n {
        best = lesser(best, least_from(notes, n, bound, heard, j));
    }
    best
}

// The value, if enough have said it, where `who` has and of `fickle` each may have.
fn judged(notes: &[Note; 20], n: usize, bound: Bound, who: u32, fickle: u32, value: u16) -> u16
    requires { (n ≤ 20) × HavePlaces fickle notes.now }
    ensures { result ≡ if_enough bound (bit_or who (voters_in n notes.now fickle value)) value }
{
    if quorum::enough(bound, who | fickle) {
        return if_enough(bound, who | voters(notes, n, fickle, value), value);
    }
    0
}

// The least certified value of those who have said one. Each value is looked at once: whoever
// said the same has been looked at with it.
fn least_of_firsts(notes: &[Note; 20], n: usize, bound: Bound, first: &FirstValues) -> u16
    requires { (n ≤ 20) × HavePlaces first.now.fickle notes.now }
    ensures { result ≡ least n (from_first n bound notes.now first.now.values first.now.single first.now.fickle) }
{
    let mut best: u16 = 0;
    let mut rest = first.single;
    for j in 0..n {
        if !sets::member(rest, j) {
            continue;
        }
        let value = first.values[j];
        let who = same(&first.values, n, first.single, value);
        best = lesser(best, judged(notes, n, bound, who, first.fickle, value));
        rest &= !who;
    }
    best
}

// What is known of each heard neighbour without looking at all its values.
fn first_values(notes: &[Note; 20], n: usize, heard: u32) -> FirstValues
    requires { n ≤ 20 }
    ensures { (result.single ≡ single_in n notes.now heard) × (result.fickle ≡ fickle_in n notes.now heard) × ((j : ℕ) → j < n → get_or result.values j 0 ≡ first_place notes.now j) }
{
    FirstValues {
        single: sets::those(n, |j| notes[j].count == 1) & heard,
        fickle: sets::those(n, |j| 1 < notes[j].count) & heard,
        values: array::from_fn(|j| notes[j].values[0]),
    }
}

// The least certified value: by the single values, where those who have said more are not enough.
fn least_certified(
    notes: &[Note; 20],
    n: usize,
    bound: Bound,
    heard: u32,
    first: &FirstValues,
) -> u16
    requires { (n ≤ 20) × Whole notes.now × HavePlaces heard notes.now × (first.now.single ≡ single_in n notes.now heard) × (first.now.fickle ≡ fickle_in n notes.now heard) × ((j : ℕ) → j < n → get_or first.now.values j 0 ≡ first_place notes.now j) }
    ensures { result ≡ least n (least_from n bound heard (map values_in notes.now)) }
{
    if quorum::enough(bound, first.fickle) {
        return least_of_all(notes, n, bound, heard);
    }
    least_of_firsts(notes, n, bound, first)
}

// The source's first value is taken before any other.
pub(crate) fn choice(notes: &[Note; 20], n: usize, source: usize, bound: Bound, heard: u32) -> u16
    requires { (n ≤ 20) × (source < n) × Whole notes.now × HavePlaces heard notes.now }
    ensures { result ≡ choice n source bound heard (map values_in notes.now) }
{
    let first = first_values(notes, n, heard);
    let word = first.values[source];
    if sets::member(first.single | first.fickle, source) && word != 0 {
        return word;
    }
    least_certified(notes, n, bound, heard, &first)
}
