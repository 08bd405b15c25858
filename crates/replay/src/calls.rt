// The calls on values: the step, a later notice of the office, the two checks of sets, the run.
ghost use Rattle.std.specs.Prelude.{◌≤◌};

use super::said::Call;
use super::say::Line;
use plan::Plan;
use quorum::Bound;
use simulation::Ran;
use terminal::{Record, Stepped};

// n, source, the bound, own number, heard set and record.
#[derive(Clone, Copy)]
pub(crate) struct Before {
    pub n: usize,
    pub source: usize,
    pub bound: Bound,
    pub own: usize,
    pub heard: u32,
    pub record: Record,
}

impl Before {
    pub(crate) fn of(call: &mut Call) -> Before {
        Before {
            n: call.count(),
            source: call.count(),
            bound: call.bound(),
            own: call.count(),
            heard: call.quad(),
            record: call.record(),
        }
    }
}

pub(crate) fn stepped(after: &Stepped, line: &mut Line) {
    line.byte(terminal::number(after.outcome));
    line.record(&after.after);
}

// What a terminal holds and hears, then what was said; `count` of it.
pub(crate) fn step(count: usize, call: &mut Call, line: &mut Line) {
    let mut said = [0u32; 64];
    let Some(said) = said.get_mut(..count) else {
        return;
    };
    let b = Before::of(call);
    call.fill(said, Call::quad);
    let after = terminal::step(b.n, b.source, b.bound, b.own, b.heard, b.record, said);
    stepped(&after, line)
}

// A record and a notice.
pub(crate) fn issue(call: &mut Call, line: &mut Line) {
    let record = call.record();
    stepped(&terminal::issue(record, call.quad()), line)
}

// A plan and three sets.
pub(crate) fn witness(call: &mut Call, line: &mut Line) {
    let p = call.plan();
    let number = match partition::check_witness(p, call.quad(), call.quad(), call.quad()) {
        Ok(true) => 0,
        Ok(false) => 1,
        Err(e) => u8::from(e),
    };
    line.byte(number)
}

// A plan and a set.
pub(crate) fn fault_set(call: &mut Call, line: &mut Line) {
    let p = call.plan();
    line.byte(faults::number(faults::check_fault_set(p, call.quad())))
}

// A plan, the fault set, the start's notice, the rounds, how many later notices, at most 64, and these.
#[derive(Clone, Copy)]
pub(crate) struct Run {
    pub plan: Plan,
    pub faulty: u32,
    pub first: u32,
    pub rounds: u8,
    issues: usize,
    later: [u32; 64],
    ghost in_room: { issues ≤ 64 },
}

impl Run {
    pub(crate) fn of(call: &mut Call) -> Run {
        let plan = call.plan();
        let faulty = call.quad();
        let first = call.quad();
        let rounds = call.byte();
        let issues = usize::from(call.pair()).min(64);
        let mut later = [0u32; 64];
        call.fill(&mut later[..issues], Call::quad);
        Run {
            plan,
            faulty,
            first,
            rounds,
            issues,
            later,
        }
    }

    pub(crate) fn later(&self) -> &[u32] {
        &self.later[..self.issues]
    }
}

// The outcome, and the records of the n terminals.
pub(crate) fn ran(n: usize, after: &Ran, line: &mut Line) {
    line.byte(simulation::number(after.outcome));
    for record in after.records.iter().take(n) {
        line.record(record);
    }
}

// A run, and the words, `count` of them.
pub(crate) fn site(count: usize, call: &mut Call, line: &mut Line) {
    let mut words = [0u32; 12000];
    let Some(words) = words.get_mut(..count) else {
        return;
    };
    let r = Run::of(call);
    call.fill(words, Call::quad);
    let after = simulation::run_site(r.plan, r.faulty, r.first, r.later(), r.rounds, words);
    ran(r.plan.n, &after, line)
}
