// What `verdict`, `archive` and `quote` print: from a plan file's bytes to the verdict's line.
#![tactic(auto)]

ghost use Rattle.std.specs.Prelude.{◌≡◌, ◌%◌, ◌<◌, Err, length};
ghost use Rattle.partition.specs.Answer.{answered};
ghost use Rattle.text.specs.Texts.{held, put_into};
ghost use Rattle.frames.specs.Reading.{plan_reading, archive_reading, quote_reading, file_read};
ghost use Rattle.output.specs.OnFile.{answer_on};
ghost use Rattle.verdict_output.specs.Verdict.{verdict_line, answer_text, verdict_text, archive_text, quote_text};

use output::Written;
use partition::{VerdictError, Witness};
use text::Text;

// 81: pass or fail, and the witness, of which three bytes a set are written.
pub fn line(failed: u8, f: u32, l: u32, r: u32) -> Text
    ensures { held result ≡ verdict_line failed (f % 16777216) (l % 16777216) (r % 16777216) }
{
    text::empty()
        .byte(129)
        .byte(failed)
        .triple(f)
        .triple(l)
        .triple(r)
        .raw(10)
}

// The verdict's line, or the refusal of a record that is no plan.
fn answer(j: Result<Option<Witness>, VerdictError>) -> Text
    requires { ((answered j).f < 16777216) × ((answered j).l < 16777216) × ((answered j).r < 16777216) }
    ensures { held result ≡ answer_text (answered j) }
{
    match j {
        Ok(None) => line(0, 0, 0, 0),
        Ok(Some(w)) => line(1, w.f, w.l, w.r),
        Err(e) => output::refusal(u8::from(e), 0),
    }
}

// The three texts differ in who reads the file and who judges its plan: two calls, which as closures would ask more of
// the contract than they spare.

// What `verdict` prints on a plan file, into the lent buffer.
pub fn verdict_text(text: &[u8], out: &mut [u8]) -> Written
    ensures value { result ≡ answer_on (file_read (plan_reading text.now)) (verdict_text text.now) (length out.old) }
    ensures out_after { out.new ≡ put_into (verdict_text text.now) out.old }
{
    match frames::read_plan(text) {
        Ok(p) => output::accepted(answer(partition::verdict(p.plan)), out),
        Err(e) => output::refused(e, out),
    }
}

// What `archive` prints on a plan file, whoever is deaf, into the lent buffer.
pub fn archive_text(text: &[u8], out: &mut [u8]) -> Written
    ensures value { result ≡ answer_on (file_read (archive_reading text.now)) (archive_text text.now) (length out.old) }
    ensures out_after { out.new ≡ put_into (archive_text text.now) out.old }
{
    match frames::read_archive(text) {
        Ok(a) => output::accepted(answer(partition::verdict(a.progress.plan)), out),
        Err(e) => output::refused(e, out),
    }
}

// What `quote` prints on a plan file, of at most twelve terminals, into the lent buffer.
pub fn quote_text(text: &[u8], out: &mut [u8]) -> Written
    ensures value { result ≡ answer_on (file_read (quote_reading text.now)) (quote_text text.now) (length out.old) }
    ensures out_after { out.new ≡ put_into (quote_text text.now) out.old }
{
    match frames::read_quote(text) {
        Ok(p) => output::accepted(answer(partition::quote(p.plan)), out),
        Err(e) => output::refused(e, out),
    }
}
