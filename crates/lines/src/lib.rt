// One line's frame. A line is hexadecimal digits, two a byte, the high one first.
#![tactic(auto, using(crate::proofs::Cases::picked, crate::proofs::Cases::passed), unfolding(crate::specs::Frames::pair_at, crate::specs::Frames::triple_at, crate::specs::Frames::head_of, crate::specs::Frames::link_of, crate::specs::Frames::group_of, crate::specs::Frames::channel_of, crate::specs::Frames::fault_set_of, crate::specs::Frames::start_of, crate::specs::Frames::later_of, crate::specs::Frames::message_of, crate::specs::Frames::kind_of))]

ghost use Rattle.std.specs.Prelude.{◌≡◌, true, false, ℕ, ◌+◌, ◌*◌, ◌<◌, length, get_or, MatchOption};
ghost use Rattle.lines.specs.Bytes.{byte_at, well_formed};
ghost use Rattle.lines.specs.Frames.{head_of, link_of, group_of, fault_set_of, start_of, later_of, message_of, channel_of, kind_of, known_frame, frame_of};

// What a line says. Foreign is no whole number of hexadecimal bytes; Unknown is a kind that the
// program lacks, or one of the wrong length. A start frame may leave its rounds out.
#[derive(Clone, Copy)]
pub enum Frame {
    Foreign,
    Unknown,
    Head(u8, u8, u8),
    Link(u8, u8),
    Group(u32),
    Channel(u16),
    FaultSet(u32),
    Start(Form, u16, u16, Option<u8>),
    Later(u8, u16, u16),
    Message(Form, u8, u8, u8, u16, u16),
    Broadcast(u8, u8, u16),
}

// Whether a start and words have an edition. In the old form they have none, which counts as edition 1.
#[derive(Clone, Copy, Debug, PartialEq, Eq)]
pub enum Form {
    Old,
    New,
}

// No frame has more bytes than this.
const MOST: usize = 8;

// A line's first bytes, 0 past its end; none if the line is not bytes and nothing else. Each digit goes
// into its byte from the right, so that the first one becomes the high one.
fn bytes_of(line: &[u8]) -> Option<[u8; MOST]>
    ensures { MatchOption result (well_formed line.now ≡ false) (λ first. (well_formed line.now ≡ true) × ((k : ℕ) → k < 8 → get_or first k 0 ≡ byte_at line.now k)) }
{
    if line.is_empty() || line.len() % 2 == 1 {
        return None;
    }
    let mut first = [0u8; MOST];
    for (i, character) in line.iter().enumerate() {
        let value = digits::digit_of(*character)?;
        let at = i / 2;
        if at < MOST {
            first[at] = 16 * (first[at] % 16) + value;
        }
    }
    Some(first)
}

// Larger numbers have their high byte first.
fn pair(high: u8, low: u8) -> u16
    ensures { result ≡ 256 * high + low }
{
    u16::from_be_bytes([high, low])
}

fn triple(high: u8, middle: u8, low: u8) -> u32
    ensures { result ≡ 65536 * high + (256 * middle + low) }
{
    u32::from_be_bytes([0, high, middle, low])
}

fn head_of(bytes: &[u8]) -> Frame
    ensures { result ≡ head_of bytes.now }
{
    match *bytes {
        [_, n, source, f] => Frame::Head(n, source, f),
        _ => Frame::Unknown,
    }
}

fn link_of(bytes: &[u8]) -> Frame
    ensures { result ≡ link_of bytes.now }
{
    match *bytes {
        [_, from, to] => Frame::Link(from, to),
        _ => Frame::Unknown,
    }
}

fn group_of(bytes: &[u8]) -> Frame
    ensures { result ≡ group_of bytes.now }
{
    match *bytes {
        [_, a, b, c] => Frame::Group(triple(a, b, c)),
        _ => Frame::Unknown,
    }
}

fn channel_of(bytes: &[u8]) -> Frame
    ensures { result ≡ channel_of bytes.now }
{
    match *bytes {
        [_, a, b] => Frame::Channel(pair(a, b)),
        _ => Frame::Unknown,
    }
}

// As a group is read: each kind has its own line of the table, which is plainer than a constructor
// passed along.
fn fault_set_of(bytes: &[u8]) -> Frame
    ensures { result ≡ fault_set_of bytes.now }
{
    match *bytes {
        [_, a, b, c] => Frame::FaultSet(triple(a, b, c)),
        _ => Frame::Unknown,
    }
}

// The rounds byte may be left out, in both forms.
fn start_of(bytes: &[u8]) -> Frame
    ensures { result ≡ start_of bytes.now }
{
    match *bytes {
        [_, a, b, rounds] => Frame::Start(Form::Old, 1, pair(a, b), Some(rounds)),
        [_, a, b] => Frame::Start(Form::Old, 1, pair(a, b), None),
        [_, a, b, c, d, rounds] => Frame::Start(Form::New, pair(a, b), pair(c, d), Some(rounds)),
        [_, a, b, c, d] => Frame::Start(Form::New, pair(a, b), pair(c, d), None),
        _ => Frame::Unknown,
    }
}

fn later_of(bytes: &[u8]) -> Frame
    ensures { result ≡ later_of bytes.now }
{
    match *bytes {
        [_, round, a, b, c, d] => Frame::Later(round, pair(a, b), pair(c, d)),
        _ => Frame::Unknown,
    }
}

// The shortest has no hearer: on a shared channel all hear it alike.
fn message_of(bytes: &[u8]) -> Frame
    ensures { result ≡ message_of bytes.now }
{
    match *bytes {
        [_, round, from, to, a, b] => Frame::Message(Form::Old, round, from, to, 1, pair(a, b)),
        [_, round, from, to, a, b, c, d] => Frame::Message(
            Form::New,
            round,
            from,
            to,
            pair(a, b),
            pair(c, d),
        ),
        [_, round, from, a, b] => Frame::Broadcast(round, from, pair(a, b)),
        _ => Frame::Unknown,
    }
}

fn kind_of(kind: u8, bytes: &[u8]) -> Frame
    ensures { result ≡ kind_of kind bytes.now }
{
    match kind {
        1 => head_of(bytes),
        2 => link_of(bytes),
        3 => fault_set_of(bytes),
        4 => start_of(bytes),
        5 => message_of(bytes),
        7 => group_of(bytes),
        8 => later_of(bytes),
        9 => channel_of(bytes),
        _ => Frame::Unknown,
    }
}

// The frame that bytes are, for a program that knows this set of kinds.
fn known_frame(kinds: u32, bytes: &[u8]) -> Frame
    requires { 0 < length bytes.now }
    ensures { result ≡ known_frame kinds bytes.now }
{
    let kind = bytes[0];
    if sets::member(kinds, kind as usize) {
        return kind_of(kind, bytes);
    }
    Frame::Unknown
}

// The frame of a line, for a program that knows this set of kinds.
pub fn frame_of(kinds: u32, line: &[u8]) -> Frame
    ensures { result ≡ frame_of kinds line.now }
{
    let Some(first) = bytes_of(line) else {
        return Frame::Foreign;
    };
    let n = line.len() / 2;
    if MOST < n {
        return Frame::Unknown;
    }
    known_frame(kinds, &first[..n])
}
