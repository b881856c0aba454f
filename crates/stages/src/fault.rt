// Why there are no limits or no stages.
ghost use Rattle.std.specs.Prelude.{◌≡◌};
ghost use Rattle.stages.specs.Faults.{limit_refusal, stage_refusal};

use transaction::Refusal;

// The first limit that is out of its range.
#[derive(Clone, Copy, Debug, PartialEq, Eq)]
pub enum LimitFault {
    Stages,
    Lines,
    Atoms,
}

// More stages are needed than there are: how many.
#[derive(Clone, Copy, Debug, PartialEq, Eq)]
pub struct StageFault {
    pub needed: usize,
}

// The fault's number and place.
impl From<LimitFault> for Refusal {
    ghost from_gives = { λ f r. r ≡ limit_refusal f };

    fn from(f: LimitFault) -> Refusal {
        let place = match f {
            LimitFault::Stages => 0,
            LimitFault::Lines => 1,
            LimitFault::Atoms => 2,
        };
        Refusal { number: 1, place }
    }
}

// The fault's number and place.
impl From<StageFault> for Refusal {
    ghost from_gives = { λ f r. r ≡ stage_refusal f };

    fn from(f: StageFault) -> Refusal {
        Refusal {
            number: 10,
            place: f.needed,
        }
    }
}
