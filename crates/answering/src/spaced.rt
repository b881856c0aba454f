// Numbers as programs print them.
ghost use Rattle.std.specs.Prelude.{Some};
ghost use Rattle.answering.specs.Spaced.{spaced_text};

use std::fmt;

// Numbers in decimal, a space before each.
#[derive(Clone, Copy)]
pub struct Spaced<'a>(pub &'a [u32]);

impl<'a> fmt::Display for Spaced<'a> {
    ghost output = { λ numbers. Some (spaced_text numbers.0.now) };

    fn fmt<W: fmt::Write>(&self, f: &mut fmt::Formatter<W>) -> fmt::Result {
        for number in self.0 {
            write!(f, " {number}")?;
        }
        Ok(())
    }
}
