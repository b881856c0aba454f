// What every refusal comes down to.
ghost use Rattle.std.specs.Prelude.{Some};
ghost use Rattle.transaction.specs.Shown.{refusal_text};

use std::fmt;

// A refusal's number in the table of refusals, and the place that it tells: an offset, a length, a state or a count.
#[derive(Clone, Copy, PartialEq, Eq, Debug)]
pub struct Refusal {
    pub number: u8,
    pub place: usize,
}

// As a program prints it: `refused`, the number and the place.
impl fmt::Display for Refusal {
    ghost output = { λ r. Some (refusal_text r.number r.place) };

    fn fmt<W: fmt::Write>(&self, f: &mut fmt::Formatter<W>) -> fmt::Result {
        let number = self.number;
        let place = self.place;
        write!(f, "refused {number} {place}")
    }
}
