// On a shared channel: the step, the check of a set, the run by value and over records that are lent. Each reads
// other numbers and asks another function than the call of the same kind in calls.rt or lent.rt, so it is written out;
// what is the same in both stands there.
use super::calls::Before;
use super::said::Call;
use super::say::Line;
use super::{calls, lent};
use plan::Plan;

// What a terminal holds and hears, the default, and what was said; `count` of it.
pub(crate) fn step(count: usize, call: &mut Call, line: &mut Line) {
    let mut said = [0u16; 64];
    let Some(said) = said.get_mut(..count) else {
        return;
    };
    let b = Before::of(call);
    let default = call.pair();
    call.fill(said, Call::pair);
    let after = terminal::shared_step(
        b.n, b.source, b.bound, b.own, b.heard, default, b.record, said,
    );
    calls::stepped(&after, line)
}

// A plan and a set.
pub(crate) fn fault_set(call: &mut Call, line: &mut Line) {
    let p = call.plan();
    line.byte(faults::number(faults::check_shared_fault_set(p, call.quad())))
}

// A plan, the fault set, the source's value, the default and the rounds.
#[derive(Clone, Copy)]
struct Run {
    plan: Plan,
    faulty: u32,
    value: u16,
    default: u16,
    rounds: u8,
}

impl Run {
    fn of(call: &mut Call) -> Run {
        Run {
            plan: call.plan(),
            faulty: call.quad(),
            value: call.pair(),
            default: call.pair(),
            rounds: call.byte(),
        }
    }
}

// A run, and the words, `count` of them.
pub(crate) fn site(count: usize, call: &mut Call, line: &mut Line) {
    let mut words = [0u16; 1000];
    let Some(words) = words.get_mut(..count) else {
        return;
    };
    let r = Run::of(call);
    call.fill(words, Call::pair);
    let after = simulation::run_shared_site(r.plan, r.faulty, r.value, r.default, r.rounds, words);
    calls::ran(r.plan.n, &after, line)
}

// A run, what the five places hold before, and the words, `count` of them.
pub(crate) fn lent(count: usize, call: &mut Call, line: &mut Line) {
    let mut words = [0u16; 1000];
    let Some(words) = words.get_mut(..count) else {
        return;
    };
    let r = Run::of(call);
    let before = lent::records(call);
    call.fill(words, Call::pair);
    lent::lend(before, line, |records| {
        simulation::run_shared(
            r.plan, r.faulty, r.value, r.default, r.rounds, words, records,
        )
    })
}
