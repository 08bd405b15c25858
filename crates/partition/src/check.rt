// The witness check on a sound plan.
ghost use Rattle.std.specs.Prelude.{◌≡◌, not};
ghost use Rattle.sets.specs.Tests.{◌and◌, ◌implies◌};
ghost use Rattle.sets.specs.Sets.{mem, all};
ghost use Rattle.plan.specs.Plan.{hears, cause_of};
ghost use Rattle.closure.specs.FaultSet.{hears_enough, is_fault_set};
ghost use Rattle.closure.specs.Verdict.{accepts};

use plan::Plan;

// Each asks for a sound plan, and no Site: who hears the source is counted last, of sets that pass all other tests.
fn is_fault_set(p: &Plan, f: u32) -> bool
    requires { cause_of p.now ≡ 0 }
    ensures { result ≡ is_fault_set p.now f }
{
    faults::check_fault_set(*p, f).is_ok()
}

// No member of R hears the source, and none hears enough members of L.
fn cut_off(p: &Plan, l: u32, r: u32) -> bool
    requires { cause_of p.now ≡ 0 }
    ensures { result ≡ all p.now.n (λ b. mem b r implies (not (hears p.now b p.now.source) and not (hears_enough p.now b l))) }
{
    let hearers = faults::over(p.rows, 0, sets::singleton(p.source));
    (hearers | faults::hearing(p.rows, p.bound, l)) & r == 0
}

pub(crate) fn accepts(p: &Plan, f: u32, l: u32, r: u32) -> bool
    requires { cause_of p.now ≡ 0 }
    ensures { result ≡ accepts p.now f l r }
{
    sets::is_partition(p.n, f, l, r)
        && sets::member(l, p.source)
        && r != 0
        && is_fault_set(p, f)
        && cut_off(p, l, r)
}
