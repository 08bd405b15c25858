// What `margins` prints: from a plan file's bytes to a line for each terminal and the line of counts.
#![tactic(auto)]

mod counting;
mod table;

ghost use Rattle.std.specs.Prelude.{◌≡◌, Err, length};
ghost use Rattle.partition.specs.Margins.{told};
ghost use Rattle.text.specs.Texts.{held, put_into};
ghost use Rattle.frames.specs.Reading.{margins_reading, file_read};
ghost use Rattle.output.specs.OnFile.{answer_on};
ghost use Rattle.margin_output.specs.Margins.{margins_answer, margins_text};

use output::Written;
use partition::MarginsError;
use plan::Plan;
use text::Text;

// The four counts of the last line.
#[derive(Clone, Copy)]
pub(crate) struct Tally {
    pub direct: u8,
    pub below: u8,
    pub level: u8,
    pub above: u8,
}

// The table of a plan, or the refusal of a record that is none with a bound f.
fn answer(p: Plan) -> Text
    ensures { held result ≡ margins_answer p }
{
    match partition::margins(p) {
        Ok(places) => table::with_counts(table::lines(places), counting::counted(places)),
        Err(e) => output::refusal(u8::from(e), 0),
    }
}

// What `margins` prints on a plan file, into the lent buffer.
pub fn margins_text(text: &[u8], out: &mut [u8]) -> Written
    ensures value { result ≡ answer_on (file_read (margins_reading text.now)) (margins_text text.now) (length out.old) }
    ensures out_after { out.new ≡ put_into (margins_text text.now) out.old }
{
    match frames::read_margins(text) {
        Ok(p) => output::accepted(answer(p.plan), out),
        Err(e) => output::refused(e, out),
    }
}
