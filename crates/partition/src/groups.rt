// The least set that defeats a sound plan with groups, group by group, by branch and bound. A part of the
// search is the sets that have all of inn and none of out.
//
// The more are bad, the fewer does a notice reach. So a terminal that is reached although all others that
// may be bad are bad together is cut off by no set of the part, and where this holds of every terminal
// the part has no set that defeats the plan.
ghost use Rattle.std.specs.Prelude.{◌≡◌, true, false, ℕ, ◌<◌, ◌≤◌, ◌^◌, get_or};
ghost use Rattle.sets.specs.Sets.{mem};
ghost use Rattle.quorum.specs.declared.BoundKind.TheVariants.{Groups};
ghost use Rattle.closure.specs.Closure.{reached};
ghost use Rattle.closure.specs.Verdict.{defeats};
ghost use Rattle.partition.specs.Search.{less, Inside, Between, Least, Cutting, Hopeful, Together, Earlier, Any};

use super::site::Site;
use super::{branch, search};

// A notice reaches b although all others of the set are bad.
fn reaches(site: &Site, all: u32, b: usize) -> bool
    requires { all < 2 ^ site.now.plan.n }
    ensures { result ≡ mem b (reached site.now.plan (less all b)) }
{
    let rest = all & !sets::singleton(b);
    sets::member(search::reach(site, rest), b)
}

// Those that a set within `all` may cut off: the first of them that are found to be reached are left out,
// up to one that is not.
fn still_hopeful(site: &Site, all: u32, hopeful: u32) -> u32
    requires { (all < 2 ^ site.now.plan.n) × (hopeful < 2 ^ site.now.plan.n) }
    ensures { Hopeful site.now.plan all hopeful result }
{
    let mut rest = hopeful;
    while rest != 0 {
        let b = branch::highest(rest);
        if !reaches(site, all, b) {
            return rest;
        }
        rest &= !sets::singleton(b);
    }
    0
}

// The bad ones and c, if c is free and b is reached all the same.
fn with_one(site: &Site, bad: u32, free: u32, c: usize, b: usize) -> u32
    requires { (bad < 2 ^ site.now.plan.n) × (c < site.now.plan.n) }
    ensures { result < 2 ^ site.now.plan.n }
{
    let more = sets::with(bad, c);
    if sets::member(free, c) && reaches(site, more, b) {
        return more;
    }
    bad
}

// Free terminals of which one at least has to be bad before b is cut off: all the others of the free ones
// together leave it reached.
fn decisive(site: &Site, inn: u32, free: u32, b: usize) -> u32
    requires { inn < 2 ^ site.now.plan.n }
{
    let mut bad = inn;
    for c in 0..site.plan.n {
        bad = with_one(site, bad, free, c, b);
    }
    free & !bad
}

// What is left of the terminals that were decisive, or those that are now.
fn wanted_now(site: &Site, inn: u32, free: u32, wanted: u32, b: usize) -> u32
    requires { inn < 2 ^ site.now.plan.n }
{
    if wanted & free != 0 {
        return wanted & free;
    }
    decisive(site, inn, free, b)
}

// The set is part of one of the first i groups.
fn part_of_earlier(groups: [u32; 16], i: usize, s: u32) -> bool
    requires { i ≤ 16 }
    ensures { result ≡ true → (j : ℕ) × (j < i) × Inside s (get_or groups j 0) }
{
    for j in 0..i {
        if s & !groups[j] == 0 {
            return true;
        }
    }
    false
}

// The lesser of best and the part's least key, where inn itself does not defeat the plan: every other set
// has a member more (2^20 = 1048576). The parts of the first i groups are done with. First the sets
// without one of the free terminals, then those with it; any choice of it is right, and a decisive one
// makes the first part small.
// The searches for a bound (branch.rt) and for margins (margin.rt) are cut in two likewise, but by other facts, each with a
// promise of its own, so that one function for all would take each part's tests as closures.
#[cycle(inside_split)]
fn split(site: &Site, i: usize, inn: u32, out: u32, hopeful: u32, wanted: u32, best: u32) -> u32
    requires { Cutting site.now.plan inn out hopeful × (defeats site.now.plan inn ≡ false) × Earlier site.now.plan i best × (i ≤ 16) }
    ensures { Least site.now.plan (Between inn out) best result }
{
    if best <= branch::key(inn) + 1048576 {
        return best;
    }
    let free = search::outside(site, inn, out);
    if free == 0 {
        return best;
    }
    if part_of_earlier(site.plan.bound.groups, i, inn | free) {
        return best;
    }
    let left = still_hopeful(site, inn | free, hopeful);
    if left == 0 {
        return best;
    }
    let now = wanted_now(site, inn, free, wanted, branch::highest(left));
    let c = branch::highest(branch::narrowed(free, now));
    let first = split(site, i, inn, sets::with(out, c), left, now, best);
    inside(site, i, sets::with(inn, c), out, left, first)
}

// The same where inn is new.
#[cycle(inside_split)]
fn inside(site: &Site, i: usize, inn: u32, out: u32, hopeful: u32, best: u32) -> u32
    requires { Cutting site.now.plan inn out hopeful × Earlier site.now.plan i best × (i ≤ 16) }
    ensures { Least site.now.plan (Between inn out) best result }
{
    let own = branch::key(inn);
    if best <= own {
        return best;
    }
    if branch::defeats(site, inn) {
        return own;
    }
    split(site, i, inn, out, hopeful, 0, best)
}

// The lesser of best and the least key of the parts of group i.
fn of_group(site: &Site, i: usize, group: u32, best: u32) -> u32
    requires { Together site.now.plan group × Earlier site.now.plan i best × (i ≤ 16) }
    ensures { Least site.now.plan (λ s. Inside s group) best result }
{
    let out = search::outside(site, group, 0);
    let hopeful = search::outside(site, site.hearers, 0);
    inside(site, i, 0, out, hopeful, best)
}

// The same of all groups.
fn of_all(site: &Site, best: u32) -> u32
    requires { (count : ℕ) × (site.now.plan.bound.kind ≡ Groups count) }
    ensures { Least site.now.plan Any best result }
{
    let mut least = best;
    for i in 0..16 {
        least = of_group(site, i, site.plan.bound.groups[i], least);
    }
    least
}

// First the sets of at most two members (3 · 2^20 = 3145728), which are soon looked at, and only where
// none of them defeats the plan all of them.
pub(crate) fn least(site: &Site) -> u32
    requires { (count : ℕ) × (site.now.plan.bound.kind ≡ Groups count) }
    ensures { Least site.now.plan Any 22020096 result }
{
    let small = of_all(site, 3145728);
    if small < 3145728 {
        return small;
    }
    of_all(site, 22020096)
}
