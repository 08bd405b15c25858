// What `greatest` prints: from a plan file's bytes to the greatest bound in decimal, or `none`.
#![tactic(auto)]

ghost use Rattle.std.specs.Prelude.{◌≡◌, ◌≤◌, ◌<◌, Err, length};
ghost use Rattle.tolerance.specs.Greatest.{drawing_of, none, up_to, height};
ghost use Rattle.tolerance.specs.Answer.{told};
ghost use Rattle.text.specs.Texts.{held, put_into};
ghost use Rattle.frames.specs.Reading.{drawing_reading, file_read};
ghost use Rattle.output.specs.OnFile.{answer_on};
ghost use Rattle.greatest_output.specs.Greatest.{tolerance_line, greatest_answer, greatest_text};

use output::Written;
use plan::Plan;
use text::Text;
use tolerance::{Drawing, DrawingError};

// The plan's bound is left out.
fn drawing_of(p: Plan) -> Drawing
    ensures { result ≡ drawing_of p }
{
    // Rattle takes an array into a literal from a variable only.
    let rows = p.rows;
    Drawing {
        n: p.n,
        source: p.source,
        rows,
    }
}

// The word none.
fn none_line() -> Text
    ensures { held result ≡ tolerance_line none }
{
    text::empty().phrase(b"none\n")
}

fn bound_line(f: usize) -> Text
    requires { f < 20 }
    ensures { held result ≡ tolerance_line (up_to f) }
{
    text::empty().decimal(f as u8).raw(10)
}

// The greatest bound's line, or the refusal of a record that is no drawing.
fn answer(g: Result<Option<usize>, DrawingError>) -> Text
    requires { height (told g).passed ≤ 20 }
    ensures { held result ≡ greatest_answer (told g) }
{
    match g {
        Ok(None) => none_line(),
        Ok(Some(f)) => bound_line(f),
        Err(e) => output::refusal(u8::from(e), 0),
    }
}

// What `greatest` prints on a plan file, into the lent buffer.
pub fn greatest_text(text: &[u8], out: &mut [u8]) -> Written
    ensures value { result ≡ answer_on (file_read (drawing_reading text.now)) (greatest_text text.now) (length out.old) }
    ensures out_after { out.new ≡ put_into (greatest_text text.now) out.old }
{
    match frames::read_drawing(text) {
        Ok(p) => output::accepted(answer(tolerance::greatest_bound(drawing_of(p.plan))), out),
        Err(e) => output::refused(e, out),
    }
}
