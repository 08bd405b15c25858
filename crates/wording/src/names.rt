// The numbers of a set's terminals, as they are said.
ghost use Rattle.std.specs.Prelude.{◌≡◌, ◌≤◌, ◌<◌, ◌^◌, length};
ghost use Rattle.text.specs.Texts.{held, joined};
ghost use Rattle.wording.specs.Sentence.{members, between, listing};
ghost use Rattle.wording.specs.Turn.{named};

use text::Text;

// What stands after a number where so many follow.
fn with_between(t: Text, more: u32) -> Text
    requires { length (held t) ≤ 344 }
    ensures { held result ≡ joined (held t) (between more) }
{
    match more {
        0 => t,
        1 => t.phrase(b" and "),
        _ => t.phrase(b", "),
    }
}

// Terminal i, if it is a member, and what stands after it.
fn with_one(t: Text, s: u32, i: usize) -> Text
    requires { (i < 20) × (length (held t) ≤ 344) }
    ensures { held result ≡ joined (held t) (named s i) }
{
    if sets::member(s, i) {
        return with_between(t.decimal(i as u8), (s >> (i + 1)).count_ones());
    }
    t
}

// All members, ascending.
pub(crate) fn with_names(mut t: Text, n: usize, s: u32) -> Text
    requires { (n ≤ 20) × (s < 2 ^ n) × (length (held t) ≤ 344) }
    ensures { held result ≡ joined (held t) (listing (members n s)) }
{
    for i in 0..n {
        t = with_one(t, s, i);
    }
    t
}
