// The verdict on a plan, the check of a witness that anybody proposes, and how far each terminal is from trouble.
#![tactic(auto)]

mod bound;
mod branch;
mod check;
mod groups;
mod margin;
mod search;
mod site;
mod standings;

ghost use Rattle.std.specs.Prelude.{◌≡◌, true, Ok, Err};
ghost use Rattle.closure.specs.Verdict.{verdict, accepts};
ghost use Rattle.partition.specs.Answer.{of_plan, answered, replied, reply_of};
ghost use Rattle.partition.specs.Margins.{of_bounded_plan, told, margins_of};
ghost use Rattle.closure.specs.Answer.{judged, answer_within, answer_of, quote_of};

use plan::{Plan, Unsound};
use quorum::BoundKind;
use site::Site;

// The fault set f, the terminals l that a notice reaches in spite of it, and the terminals r that
// it cuts off.
#[derive(Clone, Copy)]
pub struct Witness {
    pub f: u32,
    pub l: u32,
    pub r: u32,
}

// Why a record is no plan that its sender may send.
#[derive(Clone, Copy)]
pub enum VerdictError {
    WrongRange,
    TooMany,
    WrongLink,
    WrongGroups,
}

impl From<Unsound> for VerdictError {
    ghost from_gives = { λ e r. r ≡ of_plan e };

    fn from(e: Unsound) -> VerdictError {
        match e {
            Unsound::WrongRange => VerdictError::WrongRange,
            Unsound::WrongLink => VerdictError::WrongLink,
            Unsound::WrongGroups => VerdictError::WrongGroups,
        }
    }
}

// The documents' number.
impl From<VerdictError> for u8 {
    ghost from_gives = { λ e n. n ≡ (answered (Err e)).number };

    fn from(e: VerdictError) -> u8 {
        match e {
            VerdictError::WrongRange => 4,
            VerdictError::TooMany => 14,
            VerdictError::WrongLink => 5,
            VerdictError::WrongGroups => 17,
        }
    }
}

// How one terminal stands: it is the source, it hears the source, or it has a margin. Absent: the plan has no
// terminal of that number.
#[derive(Clone, Copy)]
pub enum Standing {
    Source,
    Direct,
    Margin(i32),
    Absent,
}

// Why a record is no plan with a bound f.
#[derive(Clone, Copy)]
pub enum MarginsError {
    WrongRange,
    WrongLink,
}

impl From<Unsound> for MarginsError {
    ghost from_gives = { λ e r. r ≡ of_bounded_plan e };

    fn from(e: Unsound) -> MarginsError {
        match e {
            Unsound::WrongLink => MarginsError::WrongLink,
            Unsound::WrongRange | Unsound::WrongGroups => MarginsError::WrongRange,
        }
    }
}

// The documents' number.
impl From<MarginsError> for u8 {
    ghost from_gives = { λ e n. n ≡ (told (Err e)).number };

    fn from(e: MarginsError) -> u8 {
        match e {
            MarginsError::WrongRange => 4,
            MarginsError::WrongLink => 5,
        }
    }
}

// The least witness against a sound plan, none where it passes.
fn judge(site: &Site) -> Option<Witness>
    ensures { answered (Ok result) ≡ judged (verdict site.now.plan) }
{
    let f = search::search(site)?;
    let l = search::reach(site, f);
    let r = search::outside(site, f, l);
    Some(Witness { f, l, r })
}

// The same for whoever may send at most so many terminals, or why the record is no plan that he may
// send. The witness check accepts what a fail lists.
fn judge_within(most: usize, p: Plan) -> Result<Option<Witness>, VerdictError>
    ensures answer { answered result ≡ answer_within most p }
    ensures accepted { (answered result).failed ≡ 1 → accepts p (answered result).f (answered result).l (answered result).r ≡ true }
{
    if plan::too_many(most, p) {
        return Err(VerdictError::TooMany);
    }
    let site = site::of(p)?;
    Ok(judge(&site))
}

// A pass, which is none, or a fail with the least witness, or why the record is no plan: for the planner,
// who may send every plan.
pub fn verdict(p: Plan) -> Result<Option<Witness>, VerdictError>
    ensures answer { answered result ≡ answer_of p }
    ensures accepted { (answered result).failed ≡ 1 → accepts p (answered result).f (answered result).l (answered result).r ≡ true }
{
    judge_within(20, p)
}

// The same for the quoting desk, which may send at most twelve terminals.
pub fn quote(p: Plan) -> Result<Option<Witness>, VerdictError>
    ensures answer { answered result ≡ quote_of p }
    ensures accepted { (answered result).failed ≡ 1 → accepts p (answered result).f (answered result).l (answered result).r ≡ true }
{
    judge_within(12, p)
}

// Whether three sets are a witness against the plan. Who proposed them does not matter.
pub fn check_witness(p: Plan, f: u32, l: u32, r: u32) -> Result<bool, Unsound>
    ensures { replied result ≡ reply_of p f l r }
{
    plan::check(p)?;
    Ok(check::accepts(&p, f, l, r))
}

// How each terminal stands, or why the record is no plan with a bound f; one that lists a group has none.
pub fn margins(p: Plan) -> Result<[Standing; 20], MarginsError>
    ensures { told result ≡ margins_of p }
{
    let BoundKind::Most(f) = p.bound.kind else {
        return Err(MarginsError::WrongRange);
    };
    if !standings::no_groups(p.bound.groups) {
        return Err(MarginsError::WrongRange);
    }
    let site = site::of(p)?;
    Ok(standings::standings(&site, f as u32))
}
