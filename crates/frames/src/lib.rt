// Hexadecimal lines: the readers of plan files, new ones, those of the archive, of the quoting desk, of
// margins and of drawings, and of run files.
#![tactic(auto, using(crate::proofs::Rules::tests), unfolding(plan::specs::Plan::heard_by, plan::specs::Deaf::is_deaf, plan::specs::Deaf::deaf_set, crate::specs::Reading::plan_reading, crate::specs::Reading::archive_reading, crate::specs::Reading::quote_reading, crate::specs::Reading::margins_reading, crate::specs::Reading::drawing_reading, crate::specs::Reading::is_at, crate::specs::Reading::in_plan, crate::specs::Reading::is_started, crate::specs::Reading::other_form, crate::specs::Reading::is_shared, crate::specs::Reading::wrong_form, crate::specs::Reading::ends_links, crate::specs::Reading::links_cause, crate::specs::Reading::end_cause))]

mod cause;
mod deaf;
mod ends;
mod told;

ghost use Rattle.std.specs.Prelude.{◌≡◌, ◌+◌, ◌<◌, ◌≤◌, length, get_or, MatchResult};
ghost use Rattle.frames.specs.Reading.{most_bytes, plan_kinds, has_edition, is_at, in_plan, is_started, other_form, is_shared, wrong_form, unstarted, planned, nothing_read, both, nothing_said, refusal, reading, plan_reading, archive_reading, quote_reading, margins_reading, drawing_reading, file_read, archive_read, run_file, words_read, later_read};
ghost use Rattle.frames.specs.Causes.{number, answer, archive_answer};
ghost use Rattle.frames.specs.Pass.{Going, reading_of};

pub use cause::Cause;
use lines::Form;
use plan::Plan;
use quorum::{Bound, BoundKind};

// The bytes of a file, and the words and the rounds of a run.
const MOST_BYTES: usize = 24576;

const MOST_WORDS: usize = 16000;

const MOST_ROUNDS: usize = 40;

// The kinds of a plan file, 01, 02 and 07, and of a run file, 01 to 05 and 07 to 09: bit i for kind i.
const PLAN_KINDS: u32 = 134;

const RUN_KINDS: u32 = 958;

// The terminals of a plan, and those that the quoting desk may send.
const MOST_TERMINALS: u8 = 20;

const MOST_QUOTED: u8 = 12;

// The heads that a reader takes: with how many terminals at most, and whether with groups too.
#[derive(Clone, Copy)]
pub struct Heads {
    pub most: u8,
    pub groups: bool,
}

// What a reader opens: the kinds of frame that it knows, whether plans with a deaf terminal too, as
// that of the archive does, and the heads that it takes.
#[derive(Clone, Copy)]
pub struct Reader {
    pub kinds: u32,
    pub archive: bool,
    pub heads: Heads,
}

// How far a file was read: nothing; the head and perhaps links; groups too; the default layout of a
// shared channel too; the fault set too; the start too and perhaps later notices; words too.
#[derive(Clone, Copy, Debug, PartialEq, Eq)]
pub enum Stage {
    Nothing,
    Links,
    Grouped,
    Shared,
    Faults,
    Started,
    Words,
}

// What is known after some lines: beside the plan and the fault set the form of the start, its notice
// (edition and layout in one number) and its rounds, of the office's last notice the round in which it is
// issued, 0 for the start, and its edition, and the default layout of a shared channel, 0 where the
// channel is not shared.
#[derive(Clone, Copy)]
pub struct Progress {
    pub stage: Stage,
    pub plan: Plan,
    pub faulty: u32,
    pub form: Form,
    pub notice: u32,
    pub rounds: u8,
    pub issued: u8,
    pub edition: u16,
    pub default: u16,
}

// Why a file is refused, and its line: 0 for the whole file, as where the links are refused.
#[derive(Clone, Copy)]
pub struct Refusal {
    pub cause: Cause,
    pub line: u16,
}

// What the reader of the archive gives of a file: the deaf terminals too.
#[derive(Clone, Copy)]
pub struct Archived {
    pub progress: Progress,
    pub deaf: u32,
}

pub(crate) fn is_at(stage: Stage, p: &Progress) -> bool
    ensures { result ≡ is_at stage p.now }
{
    p.stage == stage
}

// After the head, and while nothing but links and groups has followed.
pub(crate) fn in_plan(p: &Progress) -> bool
    ensures { result ≡ in_plan p.now }
{
    is_at(Stage::Links, p) || is_at(Stage::Grouped, p)
}

// From the start on.
pub(crate) fn is_started(p: &Progress) -> bool
    ensures { result ≡ is_started p.now }
{
    is_at(Stage::Started, p) || is_at(Stage::Words, p)
}

// The start was of the other form.
fn other_form(p: &Progress, form: Form) -> bool
    ensures { result ≡ other_form p.now form }
{
    is_started(p) && form != p.form
}

pub(crate) fn has_edition(form: Form) -> bool
    ensures { result ≡ has_edition form }
{
    form == Form::New
}

// One channel is shared by all: a default layout was given.
pub fn is_shared(p: Progress) -> bool
    ensures { result ≡ is_shared p }
{
    p.default != 0
}

// The start was of the other form, or the channel is shared and the frame is barred from such a one.
pub(crate) fn wrong_form(p: &Progress, form: Form, barred: bool) -> bool
    ensures { result ≡ wrong_form p.now form barred }
{
    other_form(p, form) || (is_shared(*p) && barred)
}

// What is known before the start, on a channel with this default layout.
pub(crate) fn unstarted(stage: Stage, plan: Plan, faulty: u32, default: u16) -> Progress
    ensures { result ≡ unstarted stage plan faulty default }
{
    Progress {
        stage,
        plan,
        faulty,
        form: Form::Old,
        notice: 0,
        rounds: 0,
        issued: 0,
        edition: 0,
        default,
    }
}

// The same where the channel is not shared.
pub(crate) fn planned(stage: Stage, plan: Plan, faulty: u32) -> Progress
    ensures { result ≡ planned stage plan faulty }
{
    unstarted(stage, plan, faulty, 0)
}

fn nothing_read() -> Progress
    ensures { result ≡ nothing_read }
{
    let plan = Plan {
        n: 0,
        source: 0,
        bound: Bound {
            kind: BoundKind::Most(0),
            groups: [0u32; 16],
        },
        rows: [0u32; 20],
    };
    planned(Stage::Nothing, plan, 0)
}

// Where the pass over a file's bytes stands: what is known, the line's number and its first byte.
#[derive(Clone, Copy)]
struct Cursor {
    progress: Progress,
    line: u16,
    from: usize,
}

// The line that ends at i: the links may end before it, and its frame is told.
fn pass(
    reader: Reader,
    text: &[u8],
    words: &mut [u32],
    later: &mut [u32],
    at: &mut Cursor,
    i: usize,
) -> Result<(), Refusal>
    requires { Going reader text.now (both words.old later.old) at.old i × (i < length text.now) × (length text.now ≤ most_bytes) × (get_or text.now i 0 ≡ 10) }
    ensures { MatchResult result (λ _. Going reader text.now (both words.new later.new) at.new (i + 1)) (λ e. reading reader text.now ≡ refusal (number e.cause) e.line) }
{
    let frame = lines::frame_of(reader.kinds, &text[at.from..i]);
    if let Err(cause) = ends::end_cause(reader, &at.progress, frame) {
        return Err(Refusal { cause, line: 0 });
    }
    match told::tell(reader.heads, &mut at.progress, words, later, frame) {
        Ok(()) => {
            at.line += 1;
            at.from = i + 1;
            Ok(())
        }
        Err(cause) => Err(Refusal {
            cause,
            line: at.line,
        }),
    }
}

// The lines of a file of fitting length, from the first: each is told as its end is met.
fn read_lines(
    reader: Reader,
    text: &[u8],
    words: &mut [u32],
    later: &mut [u32],
) -> Result<Progress, Refusal>
    requires { (1 ≤ length text.now) × (length text.now ≤ most_bytes) × (both words.old later.old ≡ nothing_said) }
    ensures { reading reader text.now ≡ reading_of result (both words.new later.new) }
{
    let mut at = Cursor {
        progress: nothing_read(),
        line: 1,
        from: 0,
    };
    for i in 0..text.len() {
        if text[i] != 10 {
            continue;
        }
        pass(reader, text, words, later, &mut at, i)?;
    }
    if at.from < text.len() {
        return Err(Refusal {
            cause: Cause::Foreign,
            line: at.line,
        });
    }
    match ends::links_cause(reader, &at.progress) {
        Ok(()) => Ok(at.progress),
        Err(cause) => Err(Refusal { cause, line: 0 }),
    }
}

// The file's own length is looked at first of all.
fn read(
    reader: Reader,
    text: &[u8],
    words: &mut [u32],
    later: &mut [u32],
) -> Result<Progress, Refusal>
    requires { both words.old later.old ≡ nothing_said }
    ensures { reading reader text.now ≡ reading_of result (both words.new later.new) }
{
    if text.is_empty() || MOST_BYTES < text.len() {
        return Err(Refusal {
            cause: Cause::Foreign,
            line: 0,
        });
    }
    read_lines(reader, text, words, later)
}

// A plan file, by a reader that opens plans with a deaf terminal too or does not (`archive`), and takes
// the heads with so many terminals at most, with groups too or not.
fn read_plan_file(archive: bool, most: u8, groups: bool, text: &[u8]) -> Result<Progress, Refusal>
    ensures { answer result ≡ file_read (reading (record { kinds = plan_kinds; archive = archive; heads = record { most = most; groups = groups } }) text.now) }
{
    let mut words = [0u32; MOST_WORDS];
    let mut later = [0u32; MOST_ROUNDS];
    let reader = Reader {
        kinds: PLAN_KINDS,
        archive,
        heads: Heads { most, groups },
    };
    read(reader, text, &mut words, &mut later)
}

// The plan of a file with head, links and groups only, of which every terminal but the source hears
// somebody.
pub fn read_plan(text: &[u8]) -> Result<Progress, Refusal>
    ensures { answer result ≡ file_read (plan_reading text.now) }
{
    read_plan_file(false, MOST_TERMINALS, true, text)
}

// The same for the quoting desk: the plan has at most twelve terminals.
pub fn read_quote(text: &[u8]) -> Result<Progress, Refusal>
    ensures { answer result ≡ file_read (quote_reading text.now) }
{
    read_plan_file(false, MOST_QUOTED, true, text)
}

// The same for margins: the plan has a bound f, and lists no groups.
pub fn read_margins(text: &[u8]) -> Result<Progress, Refusal>
    ensures { answer result ≡ file_read (margins_reading text.now) }
{
    read_plan_file(false, MOST_TERMINALS, false, text)
}

// The plan of a plan file, whoever is deaf, and the deaf terminals.
pub fn read_archive(text: &[u8]) -> Result<Archived, Refusal>
    ensures { archive_answer result ≡ archive_read (archive_reading text.now) }
{
    let progress = read_plan_file(true, MOST_TERMINALS, true, text)?;
    Ok(Archived {
        progress,
        deaf: deaf::deaf_set(progress.plan),
    })
}

// The plan of a plan file for drawings, whoever is deaf: it has a bound f, and lists no groups.
pub fn read_drawing(text: &[u8]) -> Result<Progress, Refusal>
    ensures { answer result ≡ file_read (drawing_reading text.now) }
{
    read_plan_file(true, MOST_TERMINALS, false, text)
}

// A run file: what it holds; the liars' words in the lent list of 16,000 places, of which those of a
// shared channel need the first 800, and the office's later notices in that of 40, entry r - 1 being what
// it issues in round r.
pub fn read_run(text: &[u8], words: &mut [u32], later: &mut [u32]) -> Result<Progress, Refusal>
    ensures value { answer result ≡ file_read (run_file text.now (length words.old) (length later.old)) }
    ensures words_after { words.new ≡ words_read (run_file text.now (length words.old) (length later.old)) words.old }
    ensures later_after { later.new ≡ later_read (run_file text.now (length words.old) (length later.old)) later.old }
{
    let mut said = [0u32; MOST_WORDS];
    let mut issued = [0u32; MOST_ROUNDS];
    let reader = Reader {
        kinds: RUN_KINDS,
        archive: false,
        heads: Heads {
            most: MOST_TERMINALS,
            groups: true,
        },
    };
    let progress = read(reader, text, &mut said, &mut issued)?;
    if !is_started(&progress) {
        return Err(Refusal {
            cause: Cause::OutOfPlace,
            line: 0,
        });
    }
    if words.len() != MOST_WORDS || later.len() != MOST_ROUNDS {
        return Err(Refusal {
            cause: Cause::WrongRoom,
            line: 0,
        });
    }
    words.copy_from_slice(&said);
    later.copy_from_slice(&issued);
    Ok(progress)
}
