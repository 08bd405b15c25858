// What holds of every fault set of a part of the search for a bound f, whichever it is.
ghost use Rattle.std.specs.Prelude.{◌≡◌, ◌<◌, ◌^◌};
ghost use Rattle.quorum.specs.declared.BoundKind.TheVariants.{Most};
ghost use Rattle.partition.specs.Search.{Grown, Heard};

use super::search;
use super::site::Site;

// Known, with all others that are faulty or reached wherever known are and none of out is faulty: a
// good terminal joins that hears more than f who are reached, and it hears at most f who are faulty.
pub(crate) fn settled(site: &Site, f: u32, out: u32, known: u32) -> u32
    requires { (site.now.plan.bound.kind ≡ Most f) × (known < 2 ^ site.now.plan.n) }
    ensures { Grown site.now.plan out known result }
{
    // Copied once: to count in the lent rows takes one and a half times the instructions.
    let rows = site.plan.rows;
    let mut s = known;
    loop {
        let next = s | faults::over(rows, f, s & out) | faults::over(rows, 2 * f, s);
        if next == s {
            return s;
        }
        s = next;
    }
}

// The terminals that somebody of s hears.
pub(crate) fn heard(rows: [u32; 20], s: u32) -> u32
    ensures { Heard rows s result }
{
    let mut found: u32 = 0;
    for b in 0..20 {
        if sets::member(s, b) {
            found |= rows[b];
        }
    }
    found
}
