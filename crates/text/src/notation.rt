// How an item of a line is written: a byte in hexadecimal, a word in decimal.
ghost use Rattle.std.specs.Prelude.{◌≡◌, ℕ, ◌≤◌, Option};
ghost use Rattle.text.specs.Bytes.{blank, digit_of};
ghost use Rattle.text.specs.declared.step.Step.{Step};

use crate::step::Step;

// A notation tells what each byte does after an item that is begun, or after none.
pub trait Notation: Copy {
    ghost stepped: { Option Self → ℕ → Step Self };

    fn step(begun: Option<Self>, byte: u8) -> Step<Self>
        ensures { result ≡ stepped begun byte };
}

// Whether a byte is a blank.
pub fn is_blank(byte: u8) -> bool
    ensures { result ≡ blank byte }
{
    matches!(byte, b' ' | b'\t' | b'\r')
}

// The digit that a byte writes, below the radix, its letters in either case.
pub fn digit(byte: u8, radix: u8) -> Option<u8>
    requires { radix ≤ 36 }
    ensures { result ≡ digit_of radix byte }
{
    let value = match byte {
        b'0'..=b'9' => byte - b'0',
        b'A'..=b'Z' => byte - b'A' + 10,
        b'a'..=b'z' => byte - b'a' + 10,
        _ => 36,
    };
    if value < radix { Some(value) } else { None }
}
