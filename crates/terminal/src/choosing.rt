// Which notice a terminal takes: of the editions above the one it holds in which something qualifies, the
// highest, and in it the layout that the old rules choose. 0 for none.
//
// Each edition is looked at once: whoever has said the same edition has been looked at with it.
ghost use Rattle.std.specs.Prelude.{◌≡◌, map, not, ◌^◌, ◌<◌, ◌≤◌, eqb, ltb};
ghost use Rattle.sets.specs.Tests.{◌and◌, pick};
ghost use Rattle.terminal.specs.Rule.{choice, layout_in, newest, chosen};
ghost use Rattle.terminal.specs.Shown.{values_in, spoken_in, Whole};
ghost use Rattle.terminal.specs.Votes.{HavePlaces, speakers_in, above_in};

use super::{Note, choice};
use quorum::Bound;

// Those of a set whose note has this edition.
fn speakers(notes: &[Note; 20], n: usize, heard: u32, edition: u16) -> u32
    requires { n ≤ 20 }
    ensures { result ≡ speakers_in n notes.now heard edition }
{
    sets::those(n, |j| notes[j].edition == edition) & heard
}

// Those of a set whose note has a higher edition.
fn above(notes: &[Note; 20], n: usize, heard: u32, held: u16) -> u32
    requires { n ≤ 20 }
    ensures { result ≡ above_in n notes.now heard held }
{
    sets::those(n, |j| held < notes[j].edition) & heard
}

// The layout that is chosen in an edition, where `who` has said something in it. The source's word
// qualifies by itself; without it nothing does where they are not enough.
fn layout_in(notes: &[Note; 20], n: usize, source: usize, bound: Bound, who: u32) -> u16
    requires { (n ≤ 20) × (source < n) × (who < 2 ^ n) × Whole notes.now × HavePlaces who notes.now }
    ensures { result ≡ choice n source bound who (map values_in notes.now) }
{
    if !sets::member(who, source) && !quorum::enough(bound, who) {
        return 0;
    }
    choice::choice(notes, n, source, bound, who)
}

// An edition in which something qualifies, and the layout; 0 and 0 for none. No Option, since edition 0 is none in
// the documents too, and every edition is above it.
#[derive(Clone, Copy)]
pub(crate) struct Best {
    pub edition: u16,
    pub layout: u16,
}

// The better of what was found and what is found in an edition.
fn better(best: Best, edition: u16, layout: u16) -> Best
    ensures { result ≡ pick (ltb best.edition edition and not (eqb layout 0)) (record { edition = edition; layout = layout }) best }
{
    if best.edition < edition && layout != 0 {
        return Best { edition, layout };
    }
    best
}

// The highest edition above the one that is held in which something qualifies.
fn newest(notes: &[Note; 20], n: usize, source: usize, bound: Bound, heard: u32, held: u16) -> Best
    requires { (n ≤ 20) × (source < n) × Whole notes.now × HavePlaces heard notes.now }
    ensures { (result.edition ≡ newest n source bound heard (map spoken_in notes.now) held) × ((result.edition ≡ 0 → ⊥) → result.layout ≡ layout_in n source bound heard (map spoken_in notes.now) result.edition) }
{
    let mut best = Best {
        edition: 0,
        layout: 0,
    };
    let mut rest = above(notes, n, heard, held);
    for j in 0..n {
        if !sets::member(rest, j) {
            continue;
        }
        let edition = notes[j].edition;
        let who = speakers(notes, n, heard, edition);
        best = better(best, edition, layout_in(notes, n, source, bound, who));
        rest &= !who;
    }
    best
}

pub(crate) fn chosen(
    notes: &[Note; 20],
    n: usize,
    source: usize,
    bound: Bound,
    heard: u32,
    held: u16,
) -> u32
    requires { (n ≤ 20) × (source < n) × Whole notes.now × HavePlaces heard notes.now }
    ensures { result ≡ chosen n source bound heard (map spoken_in notes.now) held }
{
    let best = newest(notes, n, source, bound, heard, held);
    if best.edition == 0 {
        return 0;
    }
    quorum::notice_of(best.edition, best.layout)
}
