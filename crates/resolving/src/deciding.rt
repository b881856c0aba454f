// Deciding conditions, and asking which are decided.
ghost use Rattle.std.specs.Prelude.{◌≡◌, true};
ghost use Rattle.resolving.specs.Sameness.{decided_as, undecided, decide, is_open, Decides, HoldsOfAll};

use crate::decided::Decided;
use lines::Source;
use word::{at, is_true, put};

impl Decided {
    // No condition is decided.
    pub fn none() -> Decided
        ensures nothing { result ≡ undecided }
        ensures holds { HoldsOfAll result }
    {
        Decided {
            lines: [None; 208],
            fields: [None; 16],
        }
    }

    // What a resolved condition is decided as; a constant decides itself.
    pub fn of(&self, condition: Source) -> Option<bool>
        ensures { result ≡ decided_as self.now condition }
    {
        match condition {
            Source::Field(i) => at(&self.fields, i as usize, None),
            Source::Line(n) => at(&self.lines, n as usize, None),
            Source::Constant(w) => Some(is_true(w)),
        }
    }

    // The same, and one condition more: every value that is the same as it is decided with it.
    pub fn with(mut self, condition: Source, holds: bool) -> Decided
        ensures decided { result ≡ decide self condition holds }
        ensures same { is_open self condition ≡ true → Decides self condition holds result }
    {
        match condition {
            Source::Field(i) => put(&mut self.fields, i as usize, Some(holds)),
            Source::Line(n) => put(&mut self.lines, n as usize, Some(holds)),
            Source::Constant(_) => {}
        }
        self
    }
}
