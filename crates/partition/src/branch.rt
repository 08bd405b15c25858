// The least set that defeats a sound plan with a bound f, by branch and bound. A part of the search is the sets that
// have all of inn and none of out.
ghost use Rattle.std.specs.Prelude.{◌≡◌, true, false, ◌<◌, ◌^◌};
ghost use Rattle.sets.specs.Sets.{mem, outside};
ghost use Rattle.quorum.specs.declared.BoundKind.TheVariants.{Most};
ghost use Rattle.closure.specs.FaultSet.{is_fault_set};
ghost use Rattle.closure.specs.Verdict.{defeats};
ghost use Rattle.partition.specs.Search.{SomeOf, key, Hopeless, Between, Part, Least};

use super::site::Site;
use super::{bound, search};

// Fewer members come first, then the smaller number: the members above the twenty bits of the set.
pub(crate) fn key(s: u32) -> u32
    requires { s < 2 ^ 20 }
    ensures { result ≡ key s }
{
    u32::count_ones(s) * 1048576 + s
}

// A fault set defeats the plan where it leaves somebody cut off.
pub(crate) fn defeats(site: &Site, s: u32) -> bool
    requires { is_fault_set site.now.plan s ≡ true }
    ensures { result ≡ defeats site.now.plan s }
{
    search::outside(site, s, search::reach(site, s)) != 0
}

// The highest terminal of s.
pub(crate) fn highest(s: u32) -> usize
    requires { s ≡ 0 → ⊥ }
    ensures { mem result s ≡ true }
{
    31 - u32::leading_zeros(s) as usize
}

// Those of s that are in `of`, or all of s where none is.
pub(crate) fn narrowed(s: u32, of: u32) -> u32
    requires { s ≡ 0 → ⊥ }
    ensures { SomeOf s result }
{
    if of & s != 0 {
        return of & s;
    }
    s
}

// Those of s that the most terminals hear. Every word has one binary digit of each terminal's count.
pub(crate) fn widest(rows: [u32; 20], s: u32) -> u32
    requires { s ≡ 0 → ⊥ }
    ensures { SomeOf s result }
{
    let mut ones: u32 = 0;
    let mut twos: u32 = 0;
    let mut fours: u32 = 0;
    let mut eights: u32 = 0;
    let mut sixteens: u32 = 0;
    for one in rows {
        let two = ones & one;
        let four = twos & two;
        let eight = fours & four;
        sixteens |= eights & eight;
        eights ^= eight;
        fours ^= four;
        twos ^= two;
        ones ^= one;
    }
    let many = narrowed(narrowed(s, sixteens), eights);
    narrowed(narrowed(narrowed(many, fours), twos), ones)
}

// One of the free terminals. Any choice is right: one that the rest hears, and of these one that many
// hear, makes the two parts small.
fn chosen(rows: [u32; 20], heard: u32, free: u32) -> usize
    requires { free ≡ 0 → ⊥ }
    ensures { mem result free ≡ true }
{
    highest(widest(rows, narrowed(free, heard)))
}

// No set of the part comes before best. Whoever is cut off is one of the rest, and hears at most f
// who are reached: all others of known that it hears are in the set, beside those of inn.
fn hopeless(site: &Site, f: u32, inn: u32, known: u32, rest: u32, best: u32) -> bool
    requires { (site.now.plan.bound.kind ≡ Most f) × (inn < 2 ^ site.now.plan.n) × (known < 2 ^ site.now.plan.n) × (rest ≡ outside site.now.plan.n inn known) }
    ensures { result ≡ true → Hopeless site.now.plan inn known best }
{
    let more = (inn < best & 1048575) as u32;
    let need = f + (best >> 20) + more;
    let own = u32::count_ones(inn);
    if need <= own {
        return true;
    }
    rest & !faults::over(site.plan.rows, need - own - 1, known & !inn) == 0
}

// The lesser of best and the part's least key, where inn itself does not defeat the plan: first the
// sets without one of the free terminals, then those with it.
#[cycle(inside_split)]
fn split(site: &Site, f: u32, inn: u32, out: u32, known: u32, best: u32) -> u32
    requires { Part site.now.plan f inn out known × (defeats site.now.plan inn ≡ false) }
    ensures { Least site.now.plan (Between inn out) best result }
{
    let sure = bound::settled(site, f, out, known);
    let rest = search::outside(site, inn, sure);
    if hopeless(site, f, inn, sure, rest, best) {
        return best;
    }
    let free = search::outside(site, inn, out);
    if free == 0 {
        return best;
    }
    let b = chosen(
        site.plan.rows,
        bound::heard(site.plan.rows, rest) & sure,
        free,
    );
    let first = split(site, f, inn, sets::with(out, b), sure, best);
    inside(site, f, sets::with(inn, b), out, sure, first)
}

// The same where inn is new: what it forces joins it, and is the part's least if it defeats the plan.
#[cycle(inside_split)]
pub(crate) fn inside(site: &Site, f: u32, inn: u32, out: u32, known: u32, best: u32) -> u32
    requires { Part site.now.plan f inn out known }
    ensures { Least site.now.plan (Between inn out) best result }
{
    let all = search::spread(site, inn, 0);
    if all & out != 0 {
        return best;
    }
    let own = key(all);
    if best <= own {
        return best;
    }
    if defeats(site, all) {
        return own;
    }
    split(site, f, all, out, known | all, best)
}
