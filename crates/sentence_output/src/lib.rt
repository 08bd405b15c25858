// What `sentence` prints, from a plan file's bytes to the fail in a sentence, and what `heard` prints, from n and a
// sentence to the verdict's line.
#![tactic(auto)]

mod entry;

ghost use Rattle.std.specs.Prelude.{◌≡◌, length};
ghost use Rattle.partition.specs.Answer.{answered};
ghost use Rattle.text.specs.Texts.{held, written_of, put_into};
ghost use Rattle.wording.specs.Sentence.{sentence_cause};
ghost use Rattle.frames.specs.Reading.{plan_reading, file_read};
ghost use Rattle.output.specs.OnFile.{on_line, answer_on};
ghost use Rattle.sentence_output.specs.Sentence.{pass_line, fail_line, sentence_answer, sentence_text};
ghost use Rattle.sentence_output.specs.Heard.{line_of, heard_in, heard_text};

use output::Written;
use partition::{VerdictError, Witness};
use text::Text;

fn pass_line() -> Text
    ensures { held result ≡ pass_line }
{
    text::empty().phrase(b"pass\n")
}

fn fail_line(n: usize, f: u32, l: u32, r: u32) -> Text
    requires { sentence_cause n f l r ≡ 0 }
    ensures { held result ≡ fail_line n f r }
{
    wording::sentence(n, f, l, r).unwrap().raw(10)
}

// The verdict on n terminals in words, or the refusal of a record that is no plan.
fn answer(n: usize, j: Result<Option<Witness>, VerdictError>) -> Text
    requires { (answered j).failed ≡ 1 → sentence_cause n (answered j).f (answered j).l (answered j).r ≡ 0 }
    ensures { held result ≡ sentence_answer n (answered j) }
{
    match j {
        Ok(None) => pass_line(),
        Ok(Some(w)) => fail_line(n, w.f, w.l, w.r),
        Err(e) => output::refusal(u8::from(e), 0),
    }
}

// What `sentence` prints on a plan file, into the lent buffer.
pub fn sentence_text(text: &[u8], out: &mut [u8]) -> Written
    ensures value { result ≡ answer_on (file_read (plan_reading text.now)) (sentence_text text.now) (length out.old) }
    ensures out_after { out.new ≡ put_into (sentence_text text.now) out.old }
{
    match frames::read_plan(text) {
        Ok(p) => output::accepted(answer(p.plan.n, partition::verdict(p.plan)), out),
        Err(e) => output::refused(e, out),
    }
}

// What `heard` prints on a file of n and a sentence, into the lent buffer.
pub fn heard_text(text: &[u8], out: &mut [u8]) -> Written
    ensures value { result ≡ on_line (line_of (heard_in text.now).number) (written_of (heard_in text.now).number (length (heard_text text.now)) (length out.old)) }
    ensures out_after { out.new ≡ put_into (heard_text text.now) out.old }
{
    match entry::on_file(text) {
        Ok(s) => output::accepted(verdict_output::line(1, s.f, s.l, s.r), out),
        Err(e) => {
            let (number, line) = (u8::from(e), entry::line_of(e));
            output::on_line(line, output::refusal(number, line).put(number, out))
        }
    }
}
