// The plan of a site: who hears whom, who issues the notice, and who may be bad together.
#![tactic(auto)]

ghost use Rattle.std.specs.Prelude.{◌≡◌, get_or, Err};
ghost use Rattle.sets.specs.Sets.{all};
ghost use Rattle.plan.specs.Plan.{number_of, row_sound, cause_of, too_many};

use quorum::Bound;

// rows[b] is the set of terminals that b hears.
#[derive(Clone, Copy)]
pub struct Plan {
    pub n: usize,
    pub source: usize,
    pub bound: Bound,
    pub rows: [u32; 20],
}

// Why a record is no plan.
#[derive(Clone, Copy)]
pub enum Unsound {
    WrongRange,
    WrongLink,
    WrongGroups,
}

// The documents' number.
impl From<Unsound> for u8 {
    ghost from_gives = { λ e n. n ≡ number_of (Err e) };

    fn from(e: Unsound) -> u8 {
        match e {
            Unsound::WrongRange => 4,
            Unsound::WrongLink => 5,
            Unsound::WrongGroups => 17,
        }
    }
}

fn row_sound(n: usize, b: usize, row: u32) -> bool
    ensures { result ≡ row_sound n b row }
{
    if b < n {
        quorum::others(n, b, row)
    } else {
        row == 0
    }
}

fn links_sound(n: usize, rows: [u32; 20]) -> bool
    ensures { result ≡ all 20 (λ b. row_sound n b (get_or rows b 0)) }
{
    for b in 0..20 {
        if !row_sound(n, b, rows[b]) {
            return false;
        }
    }
    true
}

// The first cause for which the record is no plan.
pub fn check(p: Plan) -> Result<(), Unsound>
    ensures { number_of result ≡ cause_of p }
{
    if !quorum::in_range(p.n, p.source, p.bound.kind) {
        return Err(Unsound::WrongRange);
    }
    if !links_sound(p.n, p.rows) {
        return Err(Unsound::WrongLink);
    }
    if !quorum::groups_sound(p.n, p.source, p.bound) {
        return Err(Unsound::WrongGroups);
    }
    Ok(())
}

// The range is sound, and the plan has more terminals than may be sent.
pub fn too_many(most: usize, p: Plan) -> bool
    ensures { result ≡ too_many most p }
{
    quorum::in_range(p.n, p.source, p.bound.kind) && most < p.n
}
