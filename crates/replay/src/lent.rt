// The run over records that are lent: five places, so that a plan of four terminals, of five and of
// six lends one too many, as many as it should, and one too few.
use super::calls::Run;
use super::said::Call;
use super::say::Line;
use simulation::RunError;
use terminal::Record;

// What the places hold before.
pub(crate) fn records(call: &mut Call) -> [Record; 5] {
    std::array::from_fn(|_| call.record())
}

// What the run answers, and what it leaves in the records.
pub(crate) fn lend<F: FnOnce(&mut [Record]) -> Result<(), RunError>>(
    before: [Record; 5],
    line: &mut Line,
    run: F,
)
    requires { F.IsAlwaysCallable run }
{
    let mut records = before;
    let outcome = run(&mut records);
    line.byte(simulation::number(outcome));
    for record in &records {
        line.record(record);
    }
}

// A run, what the five places hold before, and the words, `count` of them.
pub(crate) fn run(count: usize, call: &mut Call, line: &mut Line) {
    let mut words = [0u32; 12000];
    let Some(words) = words.get_mut(..count) else {
        return;
    };
    let r = Run::of(call);
    let before = records(call);
    call.fill(words, Call::quad);
    lend(before, line, |records| {
        simulation::run(
            r.plan,
            r.faulty,
            r.first,
            r.later(),
            r.rounds,
            words,
            records,
        )
    })
}
