// Why there is no plan.
ghost use Rattle.std.specs.Prelude.{◌≡◌};
ghost use Rattle.compiler.specs.Faults.{atom_refusal, compile_refusal};
ghost use Rattle.compiler.specs.declared.fault.CompileFault.TheVariants.{Limits, Atoms, Image, Codelets, Stages};

use codelets::CodeletFault;
use stages::{LimitFault, StageFault};
use transaction::{ReadFault, Refusal};

// What the chosen atoms cannot do.
#[derive(Clone, Copy, Debug, PartialEq, Eq)]
pub enum AtomFault {
    // Their setting takes so many numbers, and there is room for 64.
    Setting(u32),
    // An update is outside their class; the smallest such state.
    Update(usize),
}

#[derive(Clone, Copy, Debug, PartialEq, Eq)]
pub enum CompileFault {
    Limits(LimitFault),
    Atoms(AtomFault),
    Image(ReadFault),
    Codelets(CodeletFault),
    Stages(StageFault),
}

impl From<LimitFault> for CompileFault {
    ghost from_gives = { λ f r. r ≡ Limits f };

    fn from(f: LimitFault) -> CompileFault {
        CompileFault::Limits(f)
    }
}

impl From<AtomFault> for CompileFault {
    ghost from_gives = { λ f r. r ≡ Atoms f };

    fn from(f: AtomFault) -> CompileFault {
        CompileFault::Atoms(f)
    }
}

impl From<ReadFault> for CompileFault {
    ghost from_gives = { λ f r. r ≡ Image f };

    fn from(f: ReadFault) -> CompileFault {
        CompileFault::Image(f)
    }
}

impl From<CodeletFault> for CompileFault {
    ghost from_gives = { λ f r. r ≡ Codelets f };

    fn from(f: CodeletFault) -> CompileFault {
        CompileFault::Codelets(f)
    }
}

impl From<StageFault> for CompileFault {
    ghost from_gives = { λ f r. r ≡ Stages f };

    fn from(f: StageFault) -> CompileFault {
        CompileFault::Stages(f)
    }
}

// The fault's number and place.
impl From<AtomFault> for Refusal {
    ghost from_gives = { λ f r. r ≡ atom_refusal f };

    fn from(f: AtomFault) -> Refusal {
        match f {
            AtomFault::Setting(length) => Refusal {
                number: 2,
                place: length as usize,
            },
            AtomFault::Update(place) => Refusal { number: 9, place },
        }
    }
}

// The fault's number and place.
impl From<CompileFault> for Refusal {
    ghost from_gives = { λ f r. r ≡ compile_refusal f };

    fn from(f: CompileFault) -> Refusal {
        match f {
            CompileFault::Limits(f) => Refusal::from(f),
            CompileFault::Atoms(f) => Refusal::from(f),
            CompileFault::Image(f) => Refusal::from(f),
            CompileFault::Codelets(f) => Refusal::from(f),
            CompileFault::Stages(f) => Refusal::from(f),
        }
    }
}
