// Why a run alone is refused.
ghost use Rattle.std.specs.Prelude.{◌≡◌};
ghost use Rattle.meaning.specs.Alone.{length_refusal, alone_refusal};
ghost use Rattle.meaning.specs.declared.fault.AloneFault.TheVariants.{Image, Length};

use transaction::{ReadFault, Refusal};

// A buffer does not have as many words as the transaction has fields or states: its length.
#[derive(Clone, Copy, Debug, PartialEq, Eq)]
pub enum LengthFault {
    Fields(usize),
    States(usize),
}

#[derive(Clone, Copy, Debug, PartialEq, Eq)]
pub enum AloneFault {
    Image(ReadFault),
    Length(LengthFault),
}

impl From<ReadFault> for AloneFault {
    ghost from_gives = { λ f r. r ≡ Image f };

    fn from(f: ReadFault) -> AloneFault {
        AloneFault::Image(f)
    }
}

impl From<LengthFault> for AloneFault {
    ghost from_gives = { λ f r. r ≡ Length f };

    fn from(f: LengthFault) -> AloneFault {
        AloneFault::Length(f)
    }
}

// The fault's number and place.
impl From<LengthFault> for Refusal {
    ghost from_gives = { λ f r. r ≡ length_refusal f };

    fn from(f: LengthFault) -> Refusal {
        match f {
            LengthFault::Fields(place) => Refusal { number: 11, place },
            LengthFault::States(place) => Refusal { number: 11, place },
        }
    }
}

impl From<AloneFault> for Refusal {
    ghost from_gives = { λ f r. r ≡ alone_refusal f };

    fn from(f: AloneFault) -> Refusal {
        match f {
            AloneFault::Image(f) => Refusal::from(f),
            AloneFault::Length(f) => Refusal::from(f),
        }
    }
}
