// The fewest members of L that each terminal hears, over all fault sets that leave it good, for a sound plan with a
// bound f: one search for all terminals, by branch and bound. A part of it is the sets that have all of inn and none
// of out. A terminal is sought while a set of the part may bring it below what was found for it.
ghost use Rattle.std.specs.Prelude.{◌≡◌, true, ℕ, ◌<◌, ◌^◌, get_or};
ghost use Rattle.sets.specs.Sets.{mem};
ghost use Rattle.quorum.specs.declared.BoundKind.TheVariants.{Most};
ghost use Rattle.closure.specs.Margin.{fewest, has_margin};
ghost use Rattle.partition.specs.Search.{Between, Part, Barred, lesser, surely, hopeful, Seen, Lower};

use super::site::Site;
use super::{bound, branch, search};
use std::array;

// The lesser of what a terminal had and what it hears of l, if it is sought.
fn lesser(row: u32, sought: bool, l: u32, before: u32) -> u32
    ensures { result ≡ lesser row sought l before }
{
    let now = u32::count_ones(row & l);
    if sought && now < before {
        return now;
    }
    before
}

// The same of all.
fn lowered(rows: [u32; 20], sought: u32, l: u32, before: [u32; 20]) -> [u32; 20]
    ensures { (b : ℕ) → b < 20 → get_or result b 0 ≡ lesser (get_or rows b 0) (mem b sought) l (get_or before b 0) }
{
    array::from_fn(|b| lesser(rows[b], sets::member(sought, b), l, before[b]))
}

// So many of L does a good terminal hear at the least: those of sure that are out, and of all of sure that it
// hears all but f.
fn surely(row: u32, f: u32, out: u32, sure: u32) -> u32
    ensures { result ≡ surely row f out sure }
{
    let all = u32::count_ones(row & sure);
    let good = u32::count_ones(row & (sure & out));
    good.max(all.saturating_sub(f))
}

// The terminals that a set of the part may bring below what was found for them.
fn hopeful(rows: [u32; 20], f: u32, out: u32, sure: u32, counts: [u32; 20]) -> u32
    ensures { result ≡ hopeful rows f out sure counts }
{
    sets::those(20, |b| surely(rows[b], f, out, sure) < counts[b])
}

// Out, and whoever else is in no fault set of the part: one who is out hears f of inn already, and it.
fn barred(site: &Site, f: u32, inn: u32, out: u32) -> u32
    requires { (site.now.plan.bound.kind ≡ Most f) × (inn < 2 ^ site.now.plan.n) × (out < 2 ^ site.now.plan.n) }
    ensures { Barred site.now.plan inn out result }
{
    if f == 0 {
        return out;
    }
    let full = out & faults::over(site.plan.rows, f - 1, inn);
    out | (bound::heard(site.plan.rows, full) & search::outside(site, inn, out))
}

// The rows of the terminals of s; the others are empty.
fn rows_of(rows: [u32; 20], s: u32) -> [u32; 20] {
    array::from_fn(|b| if sets::member(s, b) { rows[b] } else { 0 })
}

// One of the free terminals. Any choice is right: one that those who are not settled hear, and the highest sought
// terminal, and of these one that many hear who are not settled or sought, makes the two parts small.
fn chosen(rows: [u32; 20], rest: u32, sure: u32, sought: u32, free: u32) -> usize
    requires { (sought ≡ 0 → ⊥) × (free ≡ 0 → ⊥) }
    ensures { mem result free ≡ true }
{
    let near = branch::narrowed(free, bound::heard(rows, rest) & sure);
    let first = sets::singleton(branch::highest(sought));
    let nearest = branch::narrowed(near, bound::heard(rows, first));
    branch::highest(branch::widest(rows_of(rows, rest | sought), nearest))
}

// What is found with the sets of the part, where inn itself is done with: first those with one of the free terminals,
// then those without it.
#[cycle(inside_split)]
fn split(
    site: &Site,
    f: u32,
    inn: u32,
    out: u32,
    known: u32,
    sought: u32,
    counts: [u32; 20],
) -> [u32; 20]
    requires { Part site.now.plan f inn out known × (sought < 2 ^ site.now.plan.n) × Seen site.now.plan inn sought counts }
    ensures { Lower site.now.plan (Between inn out) sought counts result }
{
    let shut = barred(site, f, inn, out);
    let sure = bound::settled(site, f, shut, known);
    let left = sought & hopeful(site.plan.rows, f, shut, sure, counts);
    let free = search::outside(site, inn, shut);
    if left == 0 {
        return counts;
    }
    if free == 0 {
        return counts;
    }
    let b = chosen(
        site.plan.rows,
        search::outside(site, inn, sure),
        sure,
        left,
        free,
    );
    let first = inside(site, f, sets::with(inn, b), shut, sure, left, counts);
    split(site, f, inn, sets::with(shut, b), sure, left, first)
}

// The same where inn is new: what it forces joins it, and is looked at.
#[cycle(inside_split)]
fn inside(
    site: &Site,
    f: u32,
    inn: u32,
    out: u32,
    known: u32,
    sought: u32,
    counts: [u32; 20],
) -> [u32; 20]
    requires { Part site.now.plan f inn out known × (sought < 2 ^ site.now.plan.n) }
    ensures { Lower site.now.plan (Between inn out) sought counts result }
{
    let all = search::spread(site, inn, 0);
    if all & out != 0 {
        return counts;
    }
    let good = sought & !all;
    let l = search::reach(site, all);
    let now = lowered(site.plan.rows, good, l, counts);
    split(site, f, all, out, known | all, good, now)
}

// The fewest for each terminal that has a margin. Nobody hears more than twenty.
pub(crate) fn fewest(site: &Site, f: u32) -> [u32; 20]
    requires { site.now.plan.bound.kind ≡ Most f }
    ensures { (b : ℕ) → b < site.now.plan.n → has_margin site.now.plan b ≡ true → get_or result b 0 ≡ fewest site.now.plan b }
{
    let source = sets::singleton(site.plan.source);
    let sought = search::outside(site, source, site.hearers);
    inside(
        site,
        f,
        0,
        source,
        source | site.hearers,
        sought,
        [20u32; 20],
    )
}
