// The table as text: a line for each terminal, then the counts.
ghost use Rattle.std.specs.Prelude.{◌≡◌, ℕ, ◌<◌, ◌≤◌, length};
ghost use Rattle.std.specs.Int.Signed.{mag};
ghost use Rattle.text.specs.Texts.{held, joined};
ghost use Rattle.margin_output.specs.Margins.{signed, standing_line, standing_lines, counts_line};
ghost use Rattle.margin_output.specs.Counts.{standing_in, Small};

use super::Tally;
use partition::Standing;
use text::Text;

// A minus sign, where it is below zero, and its size.
fn with_margin(t: Text, m: i32) -> Text
    requires { mag m ≤ 20 }
    ensures { held result ≡ joined (held t) (signed m) }
{
    let size = m.unsigned_abs() as u8;
    if m < 0 {
        return t.raw(b'-').decimal(size);
    }
    t.decimal(size)
}

// A terminal's line; the source has none.
fn with_line(t: Text, b: u8, s: Standing) -> Text
    requires { Small s × (length (held t) ≤ 344) }
    ensures { held result ≡ joined (held t) (standing_line b s) }
{
    match s {
        Standing::Direct => t.decimal(b).phrase(b" direct\n"),
        Standing::Margin(m) => with_margin(t.decimal(b).raw(32), m).raw(10),
        Standing::Source | Standing::Absent => t,
    }
}

pub(crate) fn lines(places: [Standing; 20]) -> Text
    requires { (b : ℕ) → b < 20 → Small (standing_in places b) }
    ensures { held result ≡ standing_lines 20 (standing_in places) }
{
    let mut t = text::empty();
    for (b, standing) in places.iter().enumerate() {
        t = with_line(t, b as u8, *standing);
    }
    t
}

// The last line.
pub(crate) fn with_counts(t: Text, counts: Tally) -> Text
    ensures { held result ≡ joined (held t) (counts_line counts.direct counts.below counts.level counts.above) }
{
    t.decimal(counts.direct)
        .raw(32)
        .decimal(counts.below)
        .raw(32)
        .decimal(counts.level)
        .raw(32)
        .decimal(counts.above)
        .raw(10)
}
