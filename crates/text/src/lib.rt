// Text out: bytes as hexadecimal digits and in decimal, a text that is put together by value, and a text put into a
// lent list once it is whole.
#![tactic(auto)]

ghost use Rattle.std.specs.Prelude.{◌≡◌, [], ◌∷◌, ◌/◌, ◌%◌, length};
ghost use Rattle.digits.specs.Digits.{character_of};
ghost use Rattle.text.specs.Digits.{hex_byte, hex_pair, hex_triple, decimal};
ghost use Rattle.text.specs.Texts.{held, joined, written_of, put_into};
ghost use Rattle.text.specs.Phrases.{same, begins};

// The bytes that a text has room for.
const ROOM: usize = 344;

// A fixed buffer, since there is no heap. No ghost field ties the length to the room: both fields are public, and a
// length past the room is taken as all of it.
#[derive(Clone, Copy)]
pub struct Text {
    pub bytes: [u8; ROOM],
    pub len: usize,
}

// The number of a refusal, 0 for none, and the length of the text that was put. It is no Result, since a text
// may be put beside a refusal's number: the line that tells it (`written_of`).
#[derive(Clone, Copy)]
pub struct Written {
    pub number: u8,
    pub len: usize,
}

// The high digit of a byte.
pub fn high_digit(b: u8) -> u8
    ensures { result ≡ character_of (b / 16) }
{
    digits::character_of(b / 16)
}

// The low digit of a byte.
pub fn low_digit(b: u8) -> u8
    ensures { result ≡ character_of (b % 16) }
{
    digits::character_of(b % 16)
}

// What is answered of a text that is put into a list, where `number` refuses what was asked.
pub fn answer(number: u8, len: usize, room: usize) -> Written
    ensures { result ≡ written_of number len room }
{
    if len <= room {
        return Written { number, len };
    }
    if number == 0 {
        return Written { number: 12, len: 0 };
    }
    Written { number, len: 0 }
}

// A text without a byte.
pub fn empty() -> Text
    ensures { held result ≡ [] }
{
    Text {
        bytes: [0u8; ROOM],
        len: 0,
    }
}

impl Text {
    // One byte more, as it is. A text that is full takes no more.
    pub fn raw(mut self, b: u8) -> Text
        ensures { held result ≡ joined (held self) (b ∷ []) }
    {
        if self.len < ROOM {
            self.bytes[self.len] = b;
            self.len += 1;
        }
        self
    }

    // A byte as two digits.
    pub fn byte(self, b: u8) -> Text
        ensures { held result ≡ joined (held self) (hex_byte b) }
    {
        self.raw(high_digit(b)).raw(low_digit(b))
    }

    // Two bytes as four digits.
    pub fn pair(self, v: u16) -> Text
        ensures { held result ≡ joined (held self) (hex_pair v) }
    {
        self.byte((v / 256) as u8).byte((v % 256) as u8)
    }

    // The low three bytes as six digits.
    pub fn triple(self, v: u32) -> Text
        ensures { held result ≡ joined (held self) (hex_triple (v % 16777216)) }
    {
        let low = v % 16777216;
        self.byte((low / 65536) as u8).pair((low % 65536) as u16)
    }

    // A byte in decimal: 48 is the character 0.
    pub fn decimal(self, v: u8) -> Text
        ensures { held result ≡ joined (held self) (decimal v) }
    {
        if v < 10 {
            return self.raw(48 + v);
        }
        if v < 100 {
            return self.raw(48 + v / 10).raw(48 + v % 10);
        }
        self.raw(48 + v / 100)
            .raw(48 + v / 10 % 10)
            .raw(48 + v % 10)
    }

    // The bytes of a phrase, as they are.
    pub fn phrase(mut self, bytes: &[u8]) -> Text
        ensures { held result ≡ joined (held self) bytes.now }
    {
        for b in bytes {
            self = self.raw(*b);
        }
        self
    }

    // The bytes begin with those that it holds.
    pub fn begins(self, bytes: &[u8]) -> bool
        ensures { result ≡ begins (held self) bytes.now }
    {
        bytes.starts_with(self.held())
    }

    // It holds just these bytes.
    pub fn is(self, bytes: &[u8]) -> bool
        ensures { result ≡ same (held self) bytes.now }
    {
        self.held() == bytes
    }

    // The bytes that it holds; where its length is past its room, all of them.
    fn held(&self) -> &[u8]
        ensures { result.now ≡ held self.now }
    {
        &self.bytes[..self.len.min(ROOM)]
    }

    // The text at the front of the list, if it has room.
    pub fn put(self, number: u8, out: &mut [u8]) -> Written
        ensures value { result ≡ written_of number (length (held self)) (length out.old) }
        ensures out_after { out.new ≡ put_into (held self) out.old }
    {
        let held = self.held();
        let w = answer(number, held.len(), out.len());
        if held.len() <= out.len() {
            out[..held.len()].copy_from_slice(held);
        }
        w
    }
}
