// Hexadecimal digits by the table of characters (ISO 646): sixteen cases in, sixteen cases out, and
// no arithmetic on characters.
#![tactic(auto)]

ghost use Rattle.std.specs.Prelude.{◌≡◌};
ghost use Rattle.digits.specs.Digits.{digit_of, character_of};

// The value of a character that is a digit; none of any other, which is foreign.
pub fn digit_of(character: u8) -> Option<u8>
    ensures { result ≡ digit_of character }
{
    match character {
        b'0' => Some(0),
        b'1' => Some(1),
        b'2' => Some(2),
        b'3' => Some(3),
        b'4' => Some(4),
        b'5' => Some(5),
        b'6' => Some(6),
        b'7' => Some(7),
        b'8' => Some(8),
        b'9' => Some(9),
        b'a' => Some(10),
        b'b' => Some(11),
        b'c' => Some(12),
        b'd' => Some(13),
        b'e' => Some(14),
        b'f' => Some(15),
        _ => None,
    }
}

// The character of a value below 16; 0, which is no digit, for any other.
pub fn character_of(value: u8) -> u8
    ensures { result ≡ character_of value }
{
    match value {
        0 => b'0',
        1 => b'1',
        2 => b'2',
        3 => b'3',
        4 => b'4',
        5 => b'5',
        6 => b'6',
        7 => b'7',
        8 => b'8',
        9 => b'9',
        10 => b'a',
        11 => b'b',
        12 => b'c',
        13 => b'd',
        14 => b'e',
        15 => b'f',
        _ => 0,
    }
}
