// The words that the search computes from a sound plan, and its answer.
ghost use Rattle.std.specs.Prelude.{◌≡◌, ℕ, ◌<◌, ◌^◌};
ghost use Rattle.sets.specs.Sets.{outside};
ghost use Rattle.quorum.specs.declared.BoundKind.TheVariants.{Most};
ghost use Rattle.closure.specs.Closure.{reached};
ghost use Rattle.closure.specs.Verdict.{best_below};
ghost use Rattle.partition.specs.Search.{Swept, Spread, StandsFor, Least, Any};

use super::site::Site;
use super::{branch, groups};
use quorum::BoundKind;

// A turn by a bound f: all join at once who hear enough.
fn at_once(site: &Site, f: usize, l: u32, wall: u32) -> u32
    requires { (site.now.plan.bound.kind ≡ Most f) × (l < 2 ^ site.now.plan.n) }
    ensures { Swept site.now.plan wall l result }
{
    l | (faults::over(site.plan.rows, f as u32, l) & !wall)
}

// A turn by groups: of those outside l and the wall, one after the other, whoever hears enough that are in
// by then. To look at these alone saves more than to compare many at once.
fn sweep(site: &Site, l: u32, wall: u32) -> u32
    requires { l < 2 ^ site.now.plan.n }
    ensures { Swept site.now.plan wall l result }
{
    let mut r = l;
    let mut rest = outside(site, wall, l);
    while rest != 0 {
        let b = branch::highest(rest);
        if quorum::enough(site.plan.bound, site.plan.rows[b] & r) {
            r = sets::with(r, b);
        }
        rest &= !sets::singleton(b);
    }
    r
}

// S with whoever joins it turn by turn, until a turn adds nobody.
fn turns<F: Fn(u32) -> u32>(site: &Site, s: u32, wall: u32, turn: F) -> u32
    requires small { s < 2 ^ site.now.plan.n }
    requires takes { (l : ℕ) → l < 2 ^ site.now.plan.n → F.pre turn l }
    requires sweeps { (l r : ℕ) → l < 2 ^ site.now.plan.n → F.post turn l r → Swept site.now.plan wall l r }
    ensures { Spread site.now.plan s wall result }
{
    let mut l = s;
    loop {
        let next = turn(l);
        if next == l {
            return l;
        }
        l = next;
    }
}

// S with whoever joins it: outside the wall, and hearing enough that are in.
pub(crate) fn spread(site: &Site, s: u32, wall: u32) -> u32
    requires { s < 2 ^ site.now.plan.n }
    ensures { Spread site.now.plan s wall result }
{
    match site.plan.bound.kind {
        BoundKind::Most(f) => turns(site, s, wall, |l| at_once(site, f, l, wall)),
        BoundKind::Groups(_) => turns(site, s, wall, |l| sweep(site, l, wall)),
    }
}

// What a notice reaches in spite of the fault set, from the source and those that hear it.
pub(crate) fn reach(site: &Site, faulty: u32) -> u32
    requires { faulty < 2 ^ site.now.plan.n }
    ensures { result ≡ reached site.now.plan faulty }
{
    let source = sets::singleton(site.plan.source);
    spread(site, source | (site.hearers & !faulty), faulty)
}

// The terminals outside both sets.
pub(crate) fn outside(site: &Site, a: u32, b: u32) -> u32
    ensures { result ≡ outside site.now.plan.n a b }
{
    sets::outside(site.plan.n, a, b)
}

// The least key of all sets that defeat the plan, or 21 members (21 · 2^20 = 22020096), above every key,
// for none.
fn least(site: &Site) -> u32
    ensures { Least site.now.plan Any 22020096 result }
{
    match site.plan.bound.kind {
        BoundKind::Most(f) => {
            let source = sets::singleton(site.plan.source);
            branch::inside(site, f as u32, 0, source, source | site.hearers, 22020096)
        }
        BoundKind::Groups(_) => groups::least(site),
    }
}

// The least of all sets that defeat the plan.
pub(crate) fn search(site: &Site) -> Option<u32>
    ensures { StandsFor result (best_below site.now.plan (2 ^ site.now.plan.n)) }
{
    let best = least(site);
    if best < 22020096 {
        return Some(best & 1048575);
    }
    None
}
