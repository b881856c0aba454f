// Why lines have no codelets of one state each.
ghost use Rattle.std.specs.Prelude.{◌≡◌};
ghost use Rattle.codelets.specs.Faults.{codelet_refusal};

use transaction::Refusal;

#[derive(Clone, Copy, Debug, PartialEq, Eq)]
pub enum CodeletFault {
    // Two states are in one codelet; the smallest such state.
    TwoStates(usize),
}

// The fault's number and place.
impl From<CodeletFault> for Refusal {
    ghost from_gives = { λ f r. r ≡ codelet_refusal f };

    fn from(f: CodeletFault) -> Refusal {
        match f {
            CodeletFault::TwoStates(place) => Refusal { number: 8, place },
        }
    }
}
