// The greatest bound for which a drawing passes, from its links alone.
#![tactic(auto)]

ghost use Rattle.std.specs.Prelude.{◌≡◌, ◌<◌, Err};
ghost use Rattle.plan.specs.Plan.{cause_of};
ghost use Rattle.tolerance.specs.Greatest.{with_bound, passes_with, greatest, height};
ghost use Rattle.tolerance.specs.Answer.{of_plan, told, greatest_of};

use plan::{Plan, Unsound};
use quorum::{Bound, BoundKind};

// Who hears whom: rows[b] is the set that terminal b hears. A plan without its bound.
#[derive(Clone, Copy)]
pub struct Drawing {
    pub n: usize,
    pub source: usize,
    pub rows: [u32; 20],
}

// Why a record is no drawing.
#[derive(Clone, Copy)]
pub enum DrawingError {
    WrongRange,
    WrongLink,
}

// A drawing lists no group, so that none is wrong.
impl From<Unsound> for DrawingError {
    ghost from_gives = { λ e r. r ≡ of_plan e };

    fn from(e: Unsound) -> DrawingError {
        match e {
            Unsound::WrongRange => DrawingError::WrongRange,
            Unsound::WrongLink | Unsound::WrongGroups => DrawingError::WrongLink,
        }
    }
}

// The documents' number.
impl From<DrawingError> for u8 {
    ghost from_gives = { λ e n. n ≡ (told (Err e)).number };

    fn from(e: DrawingError) -> u8 {
        match e {
            DrawingError::WrongRange => 4,
            DrawingError::WrongLink => 5,
        }
    }
}

// The plan with this bound.
fn with_bound(d: Drawing, f: usize) -> Plan
    ensures { result ≡ with_bound d f }
{
    // Rattle takes an array into a literal from a variable only.
    let rows = d.rows;
    Plan {
        n: d.n,
        source: d.source,
        bound: Bound {
            kind: BoundKind::Most(f),
            groups: [0u32; 16],
        },
        rows,
    }
}

// The verdict's answer alone.
fn passes(d: Drawing, f: usize) -> bool
    requires { (cause_of (with_bound d 0) ≡ 0) × (f < d.n) }
    ensures { result ≡ passes_with d f }
{
    partition::verdict(with_bound(d, f)).is_ok_and(|witness| witness.is_none())
}

// How many bounds it passes, from 0 upwards to the first that it fails: it fails for every greater one too.
fn passed(d: Drawing) -> usize
    requires { cause_of (with_bound d 0) ≡ 0 }
    ensures { result ≡ height (greatest d) }
{
    for f in 0..d.n {
        if !passes(d, f) {
            return f;
        }
    }
    d.n
}

// The greatest bound for which the drawing passes; none, if it fails for 0 already. For any record: the drawing with
// the bound 0 is a plan, or is refused as that is.
pub fn greatest_bound(d: Drawing) -> Result<Option<usize>, DrawingError>
    ensures { told result ≡ greatest_of d }
{
    plan::check(with_bound(d, 0))?;
    Ok(passed(d).checked_sub(1))
}
