// A line decoded by any notation.
ghost use Rattle.text.specs.Decoding.{Adds, Answers, CarriedOut, decoding, reading};

use crate::fault::TextFault;
use crate::notation::Notation;
use crate::step::Step;

// Carries out the step of the byte at a column, and gives what is begun then.
fn carry_out<T: Copy>(
    step: Step<T>,
    column: usize,
    items: &mut Vec<T>,
) -> Result<Option<T>, TextFault>
    ensures { CarriedOut step column items.old.items result items.new.items }
{
    match step {
        Step::Onward(begun) => Ok(begun),
        Step::Whole(item) => {
            items.push(item)?;
            Ok(None)
        }
        Step::Stuck => Err(TextFault::Malformed(column)),
    }
}

// Adds the line's items to the Vec, as far as they can be read.
fn add_items<T: Notation>(line: &[u8], items: &mut Vec<T>) -> Result<(), TextFault>
    ensures { Adds (reading T.Notation.stepped items.old.items line.now) result items.new.items }
{
    // a fold would have to hand on the Vec as well, and to end at a fault
    let mut begun = None;
    for (column, byte) in line.iter().enumerate() {
        begun = carry_out(T::step(begun, *byte), column, items)?;
    }
    // The end of a line is to an item what a blank is.
    carry_out(T::step(begun, b' '), line.len(), items)?;
    Ok(())
}

// Replaces what the Vec holds by the line's items, or by nothing where they are refused.
pub fn decode<T: Notation>(line: &[u8], items: &mut Vec<T>) -> Result<(), TextFault>
    ensures { Answers (decoding T.Notation.stepped line.now) result items.new.items }
{
    items.clear();
    let answer = add_items(line, items);
    if answer.is_err() {
        items.clear();
    }
    answer
}
