// Why lines have no placement.
ghost use Rattle.std.specs.Prelude.{◌≡◌};
ghost use Rattle.placement.specs.Faults.{place_refusal};
ghost use Rattle.placement.specs.declared.fault.PlaceFault.TheVariants.{Codelets, Stages};

use codelets::CodeletFault;
use stages::StageFault;
use transaction::Refusal;

#[derive(Clone, Copy, Debug, PartialEq, Eq)]
pub enum PlaceFault {
    Codelets(CodeletFault),
    Stages(StageFault),
}

impl From<CodeletFault> for PlaceFault {
    ghost from_gives = { λ f r. r ≡ Codelets f };

    fn from(f: CodeletFault) -> PlaceFault {
        PlaceFault::Codelets(f)
    }
}

impl From<StageFault> for PlaceFault {
    ghost from_gives = { λ f r. r ≡ Stages f };

    fn from(f: StageFault) -> PlaceFault {
        PlaceFault::Stages(f)
    }
}

// The fault's number and place.
impl From<PlaceFault> for Refusal {
    ghost from_gives = { λ f r. r ≡ place_refusal f };

    fn from(f: PlaceFault) -> Refusal {
        match f {
            PlaceFault::Codelets(f) => Refusal::from(f),
            PlaceFault::Stages(f) => Refusal::from(f),
        }
    }
}
