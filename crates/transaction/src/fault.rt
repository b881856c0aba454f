// Why an image is refused.
ghost use Rattle.std.specs.Prelude.{◌≡◌};
ghost use Rattle.transaction.specs.Faults.{read_refusal};

use crate::refusal::Refusal;

// Each case holds the byte offset that the refusal tells.
#[derive(Clone, Copy, Debug, PartialEq, Eq)]
pub enum ReadFault {
    // A number is absent, unended, too long, too big or not in its shortest form.
    Malformed(usize),
    // The version or a count is out of its range.
    OutOfRange(usize),
    // There is no such kind, target or operand place.
    Undefined(usize),
    // An else or an end without its if, a second else, an if at the fourth depth, or an if left open.
    Misnested(usize),
    // Bytes are left over.
    Trailing(usize),
}

// The fault's number and place.
impl From<ReadFault> for Refusal {
    ghost from_gives = { λ f r. r ≡ read_refusal f };

    fn from(f: ReadFault) -> Refusal {
        match f {
            ReadFault::Malformed(place) => Refusal { number: 3, place },
            ReadFault::OutOfRange(place) => Refusal { number: 4, place },
            ReadFault::Undefined(place) => Refusal { number: 5, place },
            ReadFault::Misnested(place) => Refusal { number: 6, place },
            ReadFault::Trailing(place) => Refusal { number: 7, place },
        }
    }
}
