// Digits into a line, high byte first; a line that is full takes no more.
ghost use Rattle.std.specs.Prelude.{◌≤◌, length};

use quorum::{Bound, BoundKind};
use terminal::{Note, Record, State};

const ROOM: usize = 65536;

#[derive(Drop)]
pub(crate) struct Line {
    digits: [u8; ROOM],
    len: usize,
    ghost in_room: { len ≤ 65536 },
}

impl Line {
    pub(crate) fn empty() -> Line {
        Line {
            digits: [0; ROOM],
            len: 0,
        }
    }

    pub(crate) fn digits(&self) -> &[u8] {
        &self.digits[..self.len]
    }

    fn digit(&mut self, digit: u8) {
        if self.len < ROOM {
            self.digits[self.len] = digit;
            self.len += 1;
        }
    }

    pub(crate) fn end(&mut self) {
        self.digit(b'\n')
    }

    pub(crate) fn byte(&mut self, b: u8) {
        self.digit(text::high_digit(b));
        self.digit(text::low_digit(b));
    }

    pub(crate) fn bytes(&mut self, list: &[u8]) {
        for b in list {
            self.byte(*b);
        }
    }

    pub(crate) fn pair(&mut self, v: u16) {
        self.bytes(&v.to_be_bytes())
    }

    pub(crate) fn quad(&mut self, v: u32) {
        self.bytes(&v.to_be_bytes())
    }

    pub(crate) fn quads(&mut self, list: &[u32]) {
        for v in list {
            self.quad(*v);
        }
    }

    // A number below 65,536; nothing for a larger one.
    pub(crate) fn size(&mut self, v: usize) {
        if let Ok(v) = u16::try_from(v) {
            self.pair(v);
        }
    }

    // The kind and its number, how many places are listed, and these: all up to the last that is not 0.
    pub(crate) fn bound(&mut self, bound: &Bound) {
        let (kind, number) = match bound.kind {
            BoundKind::Most(f) => (0, f),
            BoundKind::Groups(count) => (1, count),
        };
        let groups = up_to_last(&bound.groups, 0);
        self.byte(kind);
        self.size(number);
        self.byte(groups.len() as u8);
        self.quads(groups);
    }

    fn state(&mut self, state: State) {
        let (taken, round, notice) = match state {
            State::Waiting => (0, 0, 0),
            State::Taken(round, notice) => (1, round, notice),
        };
        self.byte(taken);
        self.byte(round);
        self.quad(notice);
    }

    // The edition, the count, how many places are listed, and these: all up to the last that is not 0.
    fn note(&mut self, note: &Note) {
        let values = up_to_last(&note.values, 0);
        self.pair(note.edition);
        self.byte(note.count);
        self.byte(values.len() as u8);
        for value in values {
            self.pair(*value);
        }
    }

    pub(crate) fn record(&mut self, record: &Record) {
        self.state(record.state);
        self.byte(record.round);
        for note in &record.notes {
            self.note(note);
        }
    }
}

// The list up to its last place that is not `none`.
fn up_to_last<T: Copy + PartialEq>(list: &[T], none: T) -> &[T]
    ensures { length result.now ≤ length list.now }
{
    let len = list
        .iter()
        .rposition(|place| *place != none)
        .map_or(0, |last| last + 1);
    &list[..len]
}
