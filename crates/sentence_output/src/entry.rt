// What was heard on the phone, entered as a file: n in decimal on a line, and the sentence on the next.
ghost use Rattle.std.specs.Prelude.{◌≡◌, ◌<◌, length};
ghost use Rattle.text.specs.Texts.{held};
ghost use Rattle.wording.specs.Heard.{told};
ghost use Rattle.sentence_output.specs.Heard.{number_line, terminals_in, heard_on, heard_in, line_of};
ghost use Rattle.sentence_output.specs.Entered.{number_of, entered_instead, entry, numbered};

use text::Text;
use wording::{HeardError, Sets};

const MOST_BYTES: usize = 24576;

// Why no sets are entered.
#[derive(Clone, Copy, Debug, PartialEq, Eq)]
pub(crate) enum EntryError {
    WrongFile,
    WrongRange,
    OtherText,
}

impl From<HeardError> for EntryError {
    ghost from_gives = { λ h e. e ≡ entered_instead h };

    fn from(h: HeardError) -> EntryError {
        match h {
            HeardError::WrongRange => EntryError::WrongRange,
            HeardError::OtherText => EntryError::OtherText,
        }
    }
}

// The documents' number.
impl From<EntryError> for u8 {
    ghost from_gives = { λ e n. n ≡ number_of e };

    fn from(e: EntryError) -> u8 {
        match e {
            EntryError::WrongFile => 1,
            EntryError::WrongRange => 4,
            EntryError::OtherText => 2,
        }
    }
}

// The line of the file that a refusal names; 0 for the whole file.
pub(crate) fn line_of(e: EntryError) -> u16
    ensures { result ≡ line_of (number_of e) }
{
    match e {
        EntryError::WrongFile => 0,
        EntryError::WrongRange => 1,
        EntryError::OtherText => 2,
    }
}

// A number's line.
fn number_line(n: usize) -> Text
    requires { n < 100 }
    ensures { held result ≡ number_line n }
{
    text::empty().decimal(n as u8).raw(10)
}

// The bytes of that line.
fn line_len(n: usize) -> usize
    requires { n < 100 }
    ensures { result ≡ length (number_line n) }
{
    if n < 10 { 2 } else { 3 }
}

// The number of terminals in the first line.
fn terminals(file: &[u8]) -> Option<usize>
    ensures { result ≡ numbered (terminals_in file.now) }
{
    for n in (2..21).rev() {
        if number_line(n).begins(file) {
            return Some(n);
        }
    }
    None
}

// The sets of a sentence and its line end.
fn heard_on(n: usize, bytes: &[u8]) -> Result<Sets, HeardError>
    ensures { told result ≡ heard_on n bytes.now }
{
    let Some(sentence) = bytes.strip_suffix(b"\n") else {
        return Err(HeardError::OtherText);
    };
    wording::read_sentence(n, sentence)
}

pub(crate) fn on_file(file: &[u8]) -> Result<Sets, EntryError>
    ensures { entry result ≡ heard_in file.now }
{
    if file.is_empty() || MOST_BYTES < file.len() {
        return Err(EntryError::WrongFile);
    }
    let Some(n) = terminals(file) else {
        return Err(EntryError::WrongRange);
    };
    Ok(heard_on(n, &file[line_len(n)..])?)
}
