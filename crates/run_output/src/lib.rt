// What `run` prints: from a run file's bytes to a line for each terminal.
#![tactic(auto)]

ghost use Rattle.std.specs.Prelude.{◌≡◌, true, false, ◌≤◌, length, get_or, take};
ghost use Rattle.sets.specs.Tables.{table};
ghost use Rattle.quorum.specs.Notice.{layout_of};
ghost use Rattle.simulation.specs.Answer.{state_of};
ghost use Rattle.text.specs.Texts.{held, joined, put_into};
ghost use Rattle.frames.specs.Reading.{is_shared, both, run_reading, file_read};
ghost use Rattle.output.specs.OnFile.{answer_on};
ghost use Rattle.run_output.specs.Site.{notice_text, terminal_line, good_line, state_line, site_lines, state_shared, state_linked, ran_text, run_text, SharedPlayable, Playable};
ghost use Rattle.run_output.specs.RoundsLeftOut.{RoundsLeftOut};

use frames::Progress;
use lines::Form;
use output::Written;
use std::array;
use terminal::{Record, State};
use text::Text;

// A notice as it is printed: the edition only in the new form.
fn with_notice(t: Text, form: Form, notice: u32) -> Text
    ensures { held result ≡ joined (held t) (notice_text form notice) }
{
    match form {
        Form::Old => t.pair(quorum::layout_of(notice)),
        Form::New => t
            .pair(quorum::edition_of(notice))
            .pair(quorum::layout_of(notice)),
    }
}

// 82: a terminal's number and state, the round in which it took, and the notice.
fn with_line(t: Text, form: Form, b: u8, state: u8, round: u8, notice: u32) -> Text
    ensures { held result ≡ joined (held t) (terminal_line form b state round notice) }
{
    let front = t.byte(130).byte(b).byte(state).byte(round);
    with_notice(front, form, notice).raw(10)
}

// The line of a terminal that is not bad.
fn with_good(t: Text, form: Form, b: u8, state: State) -> Text
    ensures { held result ≡ joined (held t) (good_line form b state) }
{
    match state {
        State::Waiting => with_line(t, form, b, 0, 0, 0),
        State::Taken(round, notice) => with_line(t, form, b, 1, round, notice),
    }
}

fn with_terminal(t: Text, form: Form, b: u8, bad: bool, state: State) -> Text
    ensures { held result ≡ joined (held t) (state_line form b bad state) }
{
    if bad {
        return with_line(t, form, b, 2, 0, 0);
    }
    with_good(t, form, b, state)
}

// The terminals in ascending order.
fn of_site(form: Form, n: usize, faulty: u32, records: [Record; 20]) -> Text
    requires { n ≤ 20 }
    ensures { held result ≡ site_lines form n faulty (state_of records) }
{
    let mut t = text::empty();
    for b in 0..n {
        let bad = sets::member(faulty, b);
        t = with_terminal(t, form, b as u8, bad, records[b].state);
    }
    t
}

// The layouts of the words of a shared channel, of which there are at most 800.
fn layouts(words: &[u32]) -> [u16; 800]
    requires { length words.now ≡ 16000 }
    ensures { result ≡ table 800 (λ i. layout_of (get_or words.now i 0)) }
{
    array::from_fn(|i| quorum::layout_of(words[i]))
}

// The lines of the run on a shared channel.
fn ran_shared(p: Progress, words: &[u32]) -> Text
    requires { SharedPlayable p × (length words.now ≡ 16000) }
    ensures { held result ≡ site_lines p.form p.plan.n p.faulty (state_shared p words.now) }
{
    let end = (p.rounds as usize) * p.plan.n;
    let list = layouts(words);
    let ran = simulation::run_shared_site(
        p.plan,
        p.faulty,
        quorum::layout_of(p.notice),
        p.default,
        p.rounds,
        &list[..end],
    );
    of_site(p.form, p.plan.n, p.faulty, ran.records)
}

// The lines of the run with a word for each hearer.
fn ran_linked(p: Progress, words: &[u32], later: &[u32]) -> Text
    requires { Playable p later.now × (length words.now ≡ 16000) × (length later.now ≡ 40) }
    ensures { held result ≡ site_lines p.form p.plan.n p.faulty (state_linked p (both words.now later.now)) }
{
    let rounds = p.rounds as usize;
    let end = rounds * (p.plan.n * p.plan.n);
    let ran = simulation::run_site(
        p.plan,
        p.faulty,
        p.notice,
        &later[..rounds],
        p.rounds,
        &words[..end],
    );
    of_site(p.form, p.plan.n, p.faulty, ran.records)
}

// The lines of the run that was asked for.
fn ran(p: Progress, words: &[u32], later: &[u32]) -> Text
    requires { (is_shared p ≡ true → SharedPlayable p) × (is_shared p ≡ false → Playable p later.now) × (length words.now ≡ 16000) × (length later.now ≡ 40) }
    ensures { held result ≡ ran_text p (both words.now later.now) }
{
    if frames::is_shared(p) {
        return ran_shared(p, words);
    }
    ran_linked(p, words, later)
}

// What `run` prints on a run file, into the lent buffer.
pub fn run_text(text: &[u8], out: &mut [u8]) -> Written
    ensures value { result ≡ answer_on (file_read (run_reading text.now)) (run_text text.now) (length out.old) }
    ensures out_after { out.new ≡ put_into (run_text text.now) out.old }
    ensures rounds_left_out { result.number ≡ 0 → RoundsLeftOut text.now (take result.len out.new) }
{
    let mut words = [0u32; 16000];
    let mut later = [0u32; 40];
    match frames::read_run(text, &mut words, &mut later) {
        Ok(p) => output::accepted(ran(p, &words, &later), out),
        Err(e) => output::refused(e, out),
    }
}
