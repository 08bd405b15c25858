// The calls that have a text: a file in, or a plan out. A lent list holds a mark at each place before
// the call, so that a place that was not to be touched shows.
use super::said::Call;
use super::say::Line;
use frames::{Archived, Progress, Refusal, Stage};
use lines::Form;
use plan::Plan;
use quorum::{Bound, BoundKind};
use text::Written;

pub(crate) const MARK: u8 = 0x5a;

// Four marks.
const MARKED: u32 = 0x5a5a5a5a;

// A text into the list, of which so much is lent: the number, the text's length, and all of what was lent.
pub(crate) fn text<F: FnOnce(&mut [u8]) -> Written>(
    list: &mut [u8],
    room: usize,
    line: &mut Line,
    write: F,
)
    requires { F.IsAlwaysCallable write }
{
    let Some(lent) = list.get_mut(..room) else {
        return;
    };
    let written = write(lent);
    line.byte(written.number);
    line.size(written.len);
    line.bytes(lent);
}

// A program's text on a file.
pub(crate) fn on_file<F: FnOnce(&mut [u8]) -> output::Written>(
    room: usize,
    line: &mut Line,
    program: F,
)
    requires { F.IsAlwaysCallable program }
{
    text(&mut [MARK; 400], room, line, |out| {
        let written = program(out);
        Written {
            number: written.number,
            len: written.len,
        }
    })
}

// A plan in frames.
pub(crate) fn plan(room: usize, call: &mut Call, line: &mut Line) {
    let p = call.plan();
    let mut list = [MARK; 3000];
    text(&mut list, room, line, |out| writer::write_plan(p, out))
}

// What is shown of a refused file beside its number and line.
fn nothing_read() -> Progress {
    Progress {
        stage: Stage::Nothing,
        plan: Plan {
            n: 0,
            source: 0,
            bound: Bound {
                kind: BoundKind::Most(0),
                groups: [0; 16],
            },
            rows: [0; 20],
        },
        faulty: 0,
        form: Form::Old,
        notice: 0,
        rounds: 0,
        issued: 0,
        edition: 0,
        default: 0,
    }
}

// What a reader gives of a file, or of a refused one `nothing`, after the number and the line, 0 and 0 where the file
// is read.
fn shown<T: Copy>(read: Result<T, Refusal>, nothing: T, line: &mut Line) -> T {
    match read {
        Ok(given) => {
            line.byte(0);
            line.pair(0);
            given
        }
        Err(refusal) => {
            line.byte(u8::from(refusal.cause));
            line.pair(refusal.line);
            nothing
        }
    }
}

fn plan_read(plan: &Plan, line: &mut Line) {
    line.size(plan.n);
    line.size(plan.source);
    line.bound(&plan.bound);
    line.quads(&plan.rows);
}

// What the archive's reader answers: the deaf set too.
pub(crate) fn archive(text: &[u8], line: &mut Line) {
    let nothing = Archived {
        progress: nothing_read(),
        deaf: 0,
    };
    let read = shown(frames::read_archive(text), nothing, line);
    plan_read(&read.progress.plan, line);
    line.quad(read.deaf);
}

// How many places of a list hold the mark, then each other place that holds a notice, and the notice.
fn list(words: &[u32], line: &mut Line) {
    let marked = words.iter().filter(|word| **word == MARKED).count();
    line.quad(u32::try_from(marked).unwrap_or(u32::MAX));
    for (place, word) in words.iter().enumerate() {
        if *word != 0 && *word != MARKED {
            line.size(place);
            line.quad(*word);
        }
    }
}

// What the reader of run files answers, and both lent lists: that of the words, of which `room` is the room, and
// that of later notices, whose room, at most 41, stands in a byte before the file.
pub(crate) fn run(room: usize, body: &[u8], line: &mut Line) {
    let mut words = [MARKED; 16001];
    let mut later = [MARKED; 41];
    let Some((room_later, text)) = body.split_first() else {
        return;
    };
    let Some(words) = words.get_mut(..room) else {
        return;
    };
    let later = &mut later[..usize::from(*room_later).min(41)];
    let progress = shown(frames::read_run(text, words, later), nothing_read(), line);
    plan_read(&progress.plan, line);
    line.quad(progress.faulty);
    line.byte(match progress.form {
        Form::Old => 0,
        Form::New => 1,
    });
    line.pair(progress.default);
    line.quad(progress.notice);
    line.byte(progress.rounds);
    list(words, line);
    list(later, line);
}
