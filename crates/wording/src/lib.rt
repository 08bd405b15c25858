// The fail in a sentence, for the phone: composed of the sets, and read back.
#![tactic(auto)]

mod ear;
mod names;

ghost use Rattle.std.specs.Prelude.{◌≡◌, [], ◌++◌, ◌≤◌, ◌<◌, ◌^◌, eqb, length};
ghost use Rattle.sets.specs.Tests.{pick};
ghost use Rattle.sets.specs.Sets.{size};
ghost use Rattle.text.specs.Texts.{held, joined, written_of, put_into};
ghost use Rattle.wording.specs.Sentence.{members, listing, opening, closing, sentence_cause, composed};
ghost use Rattle.wording.specs.Answers.{number_of, cause_of, words_of, heard_instead};
ghost use Rattle.wording.specs.Heard.{told, heard_of};

use text::{Text, Written};

// Why there is no sentence of some sets.
#[derive(Clone, Copy, Debug, PartialEq, Eq)]
pub enum SentenceError {
    WrongRange,
    NoPartition,
}

// The sets F, L and R that a text speaks of.
#[derive(Clone, Copy, Debug, PartialEq, Eq)]
pub struct Sets {
    pub f: u32,
    pub l: u32,
    pub r: u32,
}

// Why a text speaks of no sets.
#[derive(Clone, Copy, Debug, PartialEq, Eq)]
pub enum HeardError {
    WrongRange,
    OtherText,
}

// A text of which some sets could be heard, but not a witness, is none of the sentences.
impl From<SentenceError> for HeardError {
    ghost from_gives = { λ e h. h ≡ heard_instead e };

    fn from(e: SentenceError) -> HeardError {
        match e {
            SentenceError::WrongRange => HeardError::WrongRange,
            SentenceError::NoPartition => HeardError::OtherText,
        }
    }
}

// The documents' number.
impl From<SentenceError> for u8 {
    ghost from_gives = { λ e n. n ≡ number_of e };

    fn from(e: SentenceError) -> u8 {
        match e {
            SentenceError::WrongRange => 4,
            SentenceError::NoPartition => 2,
        }
    }
}

// There is a sentence of these sets.
fn check(n: usize, f: u32, l: u32, r: u32) -> Result<(), SentenceError>
    ensures { cause_of result ≡ sentence_cause n f l r }
{
    if n < 2 || 20 < n {
        return Err(SentenceError::WrongRange);
    }
    if l == 0 || r == 0 || !sets::is_partition(n, f, l, r) {
        return Err(SentenceError::NoPartition);
    }
    Ok(())
}

// A set's numbers, and what is said of them: one phrase of one terminal, the other of several.
fn said_of(t: Text, n: usize, s: u32, one: &[u8], several: &[u8]) -> Text
    requires { (n ≤ 20) × (s < 2 ^ n) × (length (held t) ≤ 344) }
    ensures { held result ≡ joined (held t) (listing (members n s) ++ pick (eqb (size n s) 1) one.now several.now) }
{
    let named = names::with_names(t, n, s);
    if s.count_ones() == 1 {
        return named.phrase(one);
    }
    named.phrase(several)
}

// Who stays silent.
fn opened(n: usize, f: u32) -> Text
    requires { (n ≤ 20) × (f < 2 ^ n) }
    ensures { held result ≡ joined [] (opening n f) }
{
    if f == 0 {
        return text::empty().phrase(b"Even if all work, ");
    }
    said_of(
        text::empty().phrase(b"If "),
        n,
        f,
        b" stays silent, ",
        b" stay silent, ",
    )
}

// Who never gets the notice.
fn closed(t: Text, n: usize, r: u32) -> Text
    requires { (n ≤ 20) × (r < 2 ^ n) × (length (held t) ≤ 344) }
    ensures { held result ≡ joined (held t) (closing n r) }
{
    said_of(
        t,
        n,
        r,
        b" never gets the notice.",
        b" never get the notice.",
    )
}

// The sentence of a witness, by value.
pub fn sentence(n: usize, f: u32, l: u32, r: u32) -> Result<Text, SentenceError>
    ensures cause { cause_of result ≡ sentence_cause n f l r }
    ensures sentence { words_of result ≡ composed n f l r }
{
    check(n, f, l, r)?;
    Ok(closed(opened(n, f), n, r))
}

// The sentence of a witness, into the lent list.
pub fn compose(n: usize, f: u32, l: u32, r: u32, out: &mut [u8]) -> Written
    ensures value { result ≡ written_of (sentence_cause n f l r) (length (composed n f l r)) (length out.old) }
    ensures out_after { out.new ≡ put_into (composed n f l r) out.old }
{
    match sentence(n, f, l, r) {
        Ok(t) => t.put(0, out),
        Err(e) => text::empty().put(u8::from(e), out),
    }
}

// The sets of which the text is the sentence.
pub fn read_sentence(n: usize, text: &[u8]) -> Result<Sets, HeardError>
    ensures { told result ≡ heard_of n text.now }
{
    let e = ear::heard(text);
    let l = sets::outside(n, e.f, e.r);
    if !sentence(n, e.f, l, e.r)?.is(text) {
        return Err(HeardError::OtherText);
    }
    Ok(Sets { f: e.f, l, r: e.r })
}
