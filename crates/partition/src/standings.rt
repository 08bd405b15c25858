// How each terminal of a plan with a bound f stands.
ghost use Rattle.std.specs.Prelude.{◌≡◌, true, ◌+◌, ◌<◌, ◌≤◌, eqb, pos, ◌-ℤ◌, get_or};
ghost use Rattle.sets.specs.Sets.{all};
ghost use Rattle.sets.specs.Tables.{table};
ghost use Rattle.quorum.specs.declared.BoundKind.TheVariants.{Most};
ghost use Rattle.closure.specs.Margin.{fewest, has_margin};
ghost use Rattle.partition.specs.Margins.{standing_of};

use super::site::Site;
use super::{Standing, margin};
use std::array;

// No place lists a group.
pub(crate) fn no_groups(groups: [u32; 16]) -> bool
    ensures { result ≡ all 16 (λ i. eqb (get_or groups i 0) 0) }
{
    groups == [0u32; 16]
}

// May be negative: less than f + 1 are heard.
fn difference(f: u32, heard: u32) -> i32
    requires { (f < 20) × (heard ≤ 20) }
    ensures { result ≡ pos heard -ℤ pos (f + 1) }
{
    let needs = (f + 1) as i32;
    heard as i32 - needs
}

fn standing(site: &Site, f: u32, heard: u32, b: usize) -> Standing
    requires { (site.now.plan.bound.kind ≡ Most f) × (b < site.now.plan.n → has_margin site.now.plan b ≡ true → heard ≡ fewest site.now.plan b) }
    ensures { result ≡ standing_of site.now.plan b }
{
    if site.plan.n <= b {
        return Standing::Absent;
    }
    if b == site.plan.source {
        return Standing::Source;
    }
    if sets::member(site.hearers, b) {
        return Standing::Direct;
    }
    Standing::Margin(difference(f, heard))
}

// places[b] is how terminal b stands.
pub(crate) fn standings(site: &Site, f: u32) -> [Standing; 20]
    requires { site.now.plan.bound.kind ≡ Most f }
    ensures { result ≡ table 20 (standing_of site.now.plan) }
{
    let fewest = margin::fewest(site, f);
    array::from_fn(|b| standing(site, f, fewest[b], b))
}
