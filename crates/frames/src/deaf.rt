// Who hears nobody.
ghost use Rattle.std.specs.Prelude.{◌≡◌, ◌≤◌, ◌<◌};
ghost use Rattle.quorum.specs.Quorum.{most_terminals};
ghost use Rattle.plan.specs.Deaf.{is_deaf, deaf_set};

use plan::Plan;

// The source never is deaf.
fn is_deaf(p: Plan, b: usize) -> bool
    requires { b < most_terminals }
    ensures { result ≡ is_deaf p b }
{
    b != p.source && p.rows[b] == 0
}

pub(crate) fn deaf_set(p: Plan) -> u32
    requires { p.n ≤ most_terminals }
    ensures { result ≡ deaf_set p }
{
    sets::those(p.n, |b| is_deaf(p, b))
}
