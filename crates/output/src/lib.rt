// What the programs' texts share: the line that refuses a file, and what is put of a text on a file.
#![tactic(auto)]

ghost use Rattle.std.specs.Prelude.{◌≡◌, Err, length};
ghost use Rattle.text.specs.Texts.{held, written_of, put_into};
ghost use Rattle.frames.specs.Causes.{number, answer};
ghost use Rattle.output.specs.OnFile.{refusal_line, on_line, answer_on};

use frames::Refusal;
use text::Text;

// The number and line of a refused file, whose text says the same, or 12 where an accepted file's
// text has no room; and the length of the text that was put: no Result, since beside a number a text may stand.
#[derive(Clone, Copy)]
pub struct Written {
    pub number: u8,
    pub line: u16,
    pub len: usize,
}

// What was written on a file, with the file's line.
pub fn on_line(line: u16, w: text::Written) -> Written
    ensures { result ≡ on_line line w }
{
    Written {
        number: w.number,
        line,
        len: w.len,
    }
}

// ff: why a file or a plan is refused.
pub fn refusal(number: u8, line: u16) -> Text
    ensures { held result ≡ refusal_line number line }
{
    text::empty().byte(255).byte(number).pair(line).raw(10)
}

// Any text beside a file's number and line, at the front of the list, if it has room.
pub fn put(number: u8, line: u16, said: Text, out: &mut [u8]) -> Written
    ensures value { result ≡ on_line line (written_of number (length (held said)) (length out.old)) }
    ensures out_after { out.new ≡ put_into (held said) out.old }
{
    on_line(line, said.put(number, out))
}

// What is said of an accepted file.
pub fn accepted(said: Text, out: &mut [u8]) -> Written
    ensures value { result ≡ on_line 0 (written_of 0 (length (held said)) (length out.old)) }
    ensures out_after { out.new ≡ put_into (held said) out.old }
{
    put(0, 0, said, out)
}

// Why a file is refused.
pub fn refused(e: Refusal, out: &mut [u8]) -> Written
    ensures value { result ≡ answer_on (answer (Err e)) (refusal_line (number e.cause) e.line) (length out.old) }
    ensures out_after { out.new ≡ put_into (refusal_line (number e.cause) e.line) out.old }
{
    let number = u8::from(e.cause);
    put(number, e.line, refusal(number, e.line), out)
}
