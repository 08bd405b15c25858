// The fail in a sentence: composed of sets, and read back.
use super::said::Call;
use super::say::Line;
use super::texts;
use wording::{HeardError, Sets};

// n in a byte, then F, L and R in four each.
pub(crate) fn compose(room: usize, call: &mut Call, line: &mut Line) {
    let n = call.count();
    let f = call.quad();
    let l = call.quad();
    let r = call.quad();
    let mut list = [texts::MARK; 400];
    texts::text(&mut list, room, line, |out| {
        wording::compose(n, f, l, r, out)
    })
}

// n in a byte, then the text; the number, then F, L and R.
pub(crate) fn read(body: &[u8], line: &mut Line) {
    let Some((n, text)) = body.split_first() else {
        return;
    };
    let none = Sets { f: 0, l: 0, r: 0 };
    let (number, sets) = match wording::read_sentence(usize::from(*n), text) {
        Ok(sets) => (0, sets),
        Err(HeardError::WrongRange) => (4, none),
        Err(HeardError::OtherText) => (2, none),
    };
    line.byte(number);
    line.quads(&[sets.f, sets.l, sets.r]);
}
