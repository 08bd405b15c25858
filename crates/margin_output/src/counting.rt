// How many stand direct, below, at and above zero.
ghost use Rattle.std.specs.Prelude.{◌≡◌, ◌<◌};
ghost use Rattle.partition.specs.declared.Standing.TheVariants.{Margin};
ghost use Rattle.margin_output.specs.Counts.{standing_in, tallied, tally_of};

use super::Tally;
use partition::Standing;

fn with_margin(t: Tally, m: i32) -> Tally
    requires { (t.direct < 255) × (t.below < 255) × (t.level < 255) × (t.above < 255) }
    ensures { result ≡ tallied t (Margin m) }
{
    if m < 0 {
        return Tally {
            below: t.below + 1,
            ..t
        };
    }
    if 0 < m {
        return Tally {
            above: t.above + 1,
            ..t
        };
    }
    Tally {
        level: t.level + 1,
        ..t
    }
}

fn with_one(t: Tally, s: Standing) -> Tally
    requires { (t.direct < 255) × (t.below < 255) × (t.level < 255) × (t.above < 255) }
    ensures { result ≡ tallied t s }
{
    match s {
        Standing::Direct => Tally {
            direct: t.direct + 1,
            ..t
        },
        Standing::Margin(m) => with_margin(t, m),
        Standing::Source | Standing::Absent => t,
    }
}

pub(crate) fn counted(places: [Standing; 20]) -> Tally
    ensures { result ≡ tally_of 20 (standing_in places) }
{
    let mut t = Tally {
        direct: 0,
        below: 0,
        level: 0,
        above: 0,
    };
    for standing in places {
        t = with_one(t, standing);
    }
    t
}
