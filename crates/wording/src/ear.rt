// Which sets a text could speak of. Whether it is their sentence is asked afterwards.
ghost use Rattle.std.specs.Prelude.{◌≡◌, true};
ghost use Rattle.wording.specs.Ear.{attentive, placed, turned, is_figure, figured, after_byte, after_all};

// Whether those are told who wait, the number that is read, and the sets so far.
#[derive(Clone, Copy)]
pub(crate) struct Ear {
    pub waiting: bool,
    pub number: Option<u32>,
    pub f: u32,
    pub r: u32,
}

// The number that was read goes to its set.
fn placed(e: Ear) -> Ear
    ensures { result ≡ placed e }
{
    let Some(i) = e.number else {
        return e;
    };
    if e.waiting {
        return Ear {
            number: None,
            r: sets::with(e.r, i as usize),
            ..e
        };
    }
    Ear {
        number: None,
        f: sets::with(e.f, i as usize),
        ..e
    }
}

// "Even" and "stay" come before those who wait.
fn turned(e: Ear, byte: u8) -> Ear
    ensures { result ≡ turned e byte }
{
    if byte == b'E' || byte == b's' {
        return Ear { waiting: true, ..e };
    }
    e
}

// A figure more of the number, which grows no larger than it must.
fn figured(e: Ear, byte: u8) -> Ear
    requires { is_figure byte ≡ true }
    ensures { result ≡ figured e byte }
{
    let before = e.number.unwrap_or(0);
    if 99 < before {
        return e;
    }
    Ear {
        number: Some(before * 10 + (byte - b'0') as u32),
        ..e
    }
}

fn after_byte(e: Ear, byte: u8) -> Ear
    ensures { result ≡ after_byte e byte }
{
    if byte.is_ascii_digit() {
        return figured(e, byte);
    }
    turned(placed(e), byte)
}

pub(crate) fn heard(text: &[u8]) -> Ear
    ensures { result ≡ after_all attentive text.now }
{
    let mut e = Ear {
        waiting: false,
        number: None,
        f: 0,
        r: 0,
    };
    for byte in text {
        e = after_byte(e, *byte);
    }
    e
}
