// Why a call is refused.
ghost use Rattle.std.specs.Prelude.{◌≡◌};
ghost use Rattle.machine.specs.Faults.{machine_refusal, start_refusal};

use compiler::CompileFault;
use transaction::Refusal;

#[derive(Clone, Copy, Debug, PartialEq, Eq)]
pub enum MachineFault {
    // a buffer's length, which is not the number of a packet's fields
    Length(usize),
    EntryFull,
    // as many packets were fed as there are numbers for them
    Exhausted,
    // the exit's place
    ExitFull(usize),
    ExitEmpty(usize),
    // the state that is not there
    NoState(usize),
}

// The fault's number and place.
impl From<MachineFault> for Refusal {
    ghost from_gives = { λ f r. r ≡ machine_refusal f };

    fn from(f: MachineFault) -> Refusal {
        match f {
            MachineFault::Length(place) => Refusal { number: 11, place },
            MachineFault::EntryFull => Refusal {
                number: 12,
                place: 0,
            },
            MachineFault::Exhausted => Refusal {
                number: 13,
                place: 0,
            },
            MachineFault::ExitFull(place) => Refusal { number: 14, place },
            MachineFault::ExitEmpty(place) => Refusal { number: 15, place },
            MachineFault::NoState(place) => Refusal { number: 16, place },
        }
    }
}

// Why a machine was not started: what the compiler refused.
#[derive(Clone, Copy, Debug, PartialEq, Eq)]
pub struct StartFault {
    pub compile: CompileFault,
}

impl From<CompileFault> for StartFault {
    ghost from_gives = { λ f r. r.compile ≡ f };

    fn from(f: CompileFault) -> StartFault {
        StartFault { compile: f }
    }
}

// The fault's number and place.
impl From<StartFault> for Refusal {
    ghost from_gives = { λ f r. r ≡ start_refusal f };

    fn from(f: StartFault) -> Refusal {
        Refusal::from(f.compile)
    }
}
