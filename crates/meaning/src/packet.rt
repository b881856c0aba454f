// A packet run alone.
ghost use Rattle.std.specs.Prelude.{◌≡◌};
ghost use Rattle.transaction.specs.Programs.{program_of};
ghost use Rattle.meaning.specs.Serial.{values};
ghost use Rattle.meaning.specs.Alone.{refusal_in, refused_run, refused_alone, sized, lengths, verdict, left};

use crate::fault::{AloneFault, LengthFault};
use crate::serial::perform;
use image::read_image;
use transaction::{Nest, Transaction};
use word::Arithmetic;

// Whether buffers of these lengths hold the fields and the words of a transaction.
fn check_lengths(t: &Transaction, fields: usize, words: usize) -> Result<(), LengthFault>
    ensures { refused_run result ≡ refusal_in (sized (program_of t.now) fields words) }
{
    if fields != usize::from(t.fields) {
        return Err(LengthFault::Fields(fields));
    }
    if words != usize::from(t.states) {
        return Err(LengthFault::States(words));
    }
    Ok(())
}

// Runs a transaction on a packet's fields and the kept words; on a refusal both stay as they were.
pub fn run<M: Arithmetic>(
    t: &Transaction,
    fields: &mut [u32],
    words: &mut [u32],
) -> Result<(), LengthFault>
    ensures answer { refused_run result ≡ refusal_in (lengths (program_of t.now) (values fields.old words.old)) }
    ensures leaves { values fields.new words.new ≡ left M.Arithmetic.plus M.Arithmetic.minus (lengths (program_of t.now) (values fields.old words.old)) (values fields.old words.old) }
{
    check_lengths(t, fields.len(), words.len())?;
    let mut nest = Nest::new(false);
    for x in t.body() {
        perform::<M>(*x, fields, words, &mut nest);
    }
    Ok(())
}

// Reads an image and runs its transaction on a packet's fields and the kept words; on a refusal both stay as they were.
pub fn alone<M: Arithmetic>(
    image: &[u8],
    fields: &mut [u32],
    words: &mut [u32],
) -> Result<(), AloneFault>
    ensures answer { refused_alone result ≡ refusal_in (verdict image.now (values fields.old words.old)) }
    ensures leaves { values fields.new words.new ≡ left M.Arithmetic.plus M.Arithmetic.minus (verdict image.now (values fields.old words.old)) (values fields.old words.old) }
{
    let t = read_image(image)?;
    run::<M>(&t, fields, words)?;
    Ok(())
}
