// Whether a set of terminals can be the liars' of a plan: one answer for the run, the reader and the
// witness check.
#![tactic(auto)]

ghost use Rattle.std.specs.Prelude.{◌≡◌, not, ℕ, ◌<◌, ◌^◌, get_or, Err};
ghost use Rattle.sets.specs.Tests.{◌and◌, ◌implies◌};
ghost use Rattle.sets.specs.Sets.{mem, all, some, mask};
ghost use Rattle.plan.specs.Plan.{cause_of};
ghost use Rattle.closure.specs.FaultSet.{is_bounded};
ghost use Rattle.faults.specs.Rows.{over, hearing};
ghost use Rattle.faults.specs.Check.{of_plan, fault_number_of, fault_cause_of, shared_fault_cause_of};

use plan::{Plan, Unsound};
use quorum::{Bound, BoundKind};

// Why a set can't be the liars' of a plan.
#[derive(Clone, Copy)]
pub enum FaultSetError {
    WrongRange,
    WrongLink,
    WrongGroups,
    WrongMember,
    OverBound,
}

impl From<Unsound> for FaultSetError {
    ghost from_gives = { λ e r. r ≡ of_plan e };

    fn from(e: Unsound) -> FaultSetError {
        match e {
            Unsound::WrongRange => FaultSetError::WrongRange,
            Unsound::WrongLink => FaultSetError::WrongLink,
            Unsound::WrongGroups => FaultSetError::WrongGroups,
        }
    }
}

// The documents' number.
impl From<FaultSetError> for u8 {
    ghost from_gives = { λ e n. n ≡ fault_number_of (Err e) };

    fn from(e: FaultSetError) -> u8 {
        match e {
            FaultSetError::WrongRange => 4,
            FaultSetError::WrongLink => 5,
            FaultSetError::WrongGroups => 17,
            FaultSetError::WrongMember => 7,
            FaultSetError::OverBound => 8,
        }
    }
}

// The number of the answer, 0 where nothing is refused.
pub fn number(c: Result<(), FaultSetError>) -> u8
    ensures { result ≡ fault_number_of c }
{
    match c {
        Ok(()) => 0,
        Err(e) => u8::from(e),
    }
}

// The terminals that hear more than f members of a. Every row is counted without a branch.
pub fn over(rows: [u32; 20], f: u32, a: u32) -> u32
    ensures { result ≡ over rows f a }
{
    sets::those(20, |b| f < u32::count_ones(rows[b] & a))
}

// The members of a outside each group.
fn outside_groups(groups: [u32; 16], a: u32) -> [u32; 16]
    ensures { (i : ℕ) → i < 16 → (j : ℕ) → j < 32 → mem j (get_or result i 0) ≡ mem j a and not (mem j (get_or groups i 0)) }
{
    let mut masks = [0u32; 16];
    for i in 0..16 {
        masks[i] = a & !groups[i];
    }
    masks
}

// A row that has one of each set.
fn meets_all(others: [u32; 16], row: u32) -> bool
    ensures { result ≡ not (some 16 (λ i. all 32 (λ j. not (mem j row and mem j (get_or others i 0))))) }
{
    let mut missed = false;
    for other in &others {
        missed = missed | (row & *other == 0);
    }
    !missed
}

// The terminals that hear members of a who fit in no group: of those outside each group they hear one.
fn fitting_none(rows: [u32; 20], groups: [u32; 16], a: u32) -> u32
    ensures { result ≡ mask 20 (λ b. not (some 16 (λ i. all 32 (λ j. (mem j (get_or rows b 0) and mem j a) implies mem j (get_or groups i 0))))) }
{
    let others = outside_groups(groups, a);
    sets::those(20, |b| meets_all(others, rows[b]))
}

// The terminals that hear enough members of a.
pub fn hearing(rows: [u32; 20], bound: Bound, a: u32) -> u32
    ensures { result ≡ hearing rows bound a }
{
    match bound.kind {
        BoundKind::Most(f) if f < 32 => over(rows, f as u32, a),
        BoundKind::Most(_) => 0,
        BoundKind::Groups(_) => fitting_none(rows, bound.groups, a),
    }
}

// Everyone outside s hears at most f of its members; or s is part of one group.
fn bounded(p: Plan, s: u32) -> bool
    requires { (cause_of p ≡ 0) × (s < 2 ^ p.n) }
    ensures { result ≡ is_bounded p s }
{
    match p.bound.kind {
        BoundKind::Most(_) => hearing(p.rows, p.bound, s) & !s == 0,
        BoundKind::Groups(_) => !quorum::enough(p.bound, s),
    }
}

// Whether the set can be the liars' of the plan.
pub fn check_fault_set(p: Plan, s: u32) -> Result<(), FaultSetError>
    ensures { fault_number_of result ≡ fault_cause_of p s }
{
    plan::check(p)?;
    if !quorum::others(p.n, p.source, s) {
        return Err(FaultSetError::WrongMember);
    }
    if !bounded(p, s) {
        return Err(FaultSetError::OverBound);
    }
    Ok(())
}

// The same on a shared channel, where the source may be bad too: what counts is the set without it.
pub fn check_shared_fault_set(p: Plan, s: u32) -> Result<(), FaultSetError>
    ensures { fault_number_of result ≡ shared_fault_cause_of p s }
{
    if sets::within(s, p.n) {
        check_fault_set(p, sets::without(s, p.source))
    } else {
        check_fault_set(p, s)
    }
}
