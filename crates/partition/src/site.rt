// What every part of the search is given.
ghost use Rattle.std.specs.Prelude.{◌≡◌, MatchResult, Err};
ghost use Rattle.plan.specs.Plan.{number_of, cause_of};
ghost use Rattle.partition.specs.Search.{direct};

use plan::{Plan, Unsound};

// A sound plan, and the terminals that hear its source.
#[derive(Clone, Copy)]
pub(crate) struct Site {
    pub plan: Plan,
    pub hearers: u32,
    ghost sound: { cause_of plan ≡ 0 },
    ghost hearers_are: { hearers ≡ direct plan.rows plan.source },
}

pub(crate) fn of(p: Plan) -> Result<Site, Unsound>
    ensures { MatchResult result (λ site. site.plan ≡ p) (λ e. number_of (Err e) ≡ cause_of p) }
{
    plan::check(p)?;
    let hearers = faults::over(p.rows, 0, sets::singleton(p.source));
    Ok(Site { plan: p, hearers })
}
