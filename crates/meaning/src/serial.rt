// Statements acting on a packet's fields and the kept words.
ghost use Rattle.std.specs.Prelude.{◌≡◌, true};
ghost use Rattle.transaction.specs.Frames.{frames_of, elses};
ghost use Rattle.transaction.specs.Statements.{kind_of};
ghost use Rattle.transaction.specs.WellFormed.{fits};
ghost use Rattle.meaning.specs.Serial.{values, context, operand_in, made, stored, taken, live, nest_after, step};

use transaction::{Frame, Nest, Operand, Statement, Target};
use word::{Arithmetic, at, equal, is_true, less, put};

// What a statement reads: a packet's fields and the kept words.
#[derive(Clone, Copy)]
struct Inputs<'a> {
    fields: &'a [u32],
    words: &'a [u32],
}

impl Inputs<'_> {
    // What an operand stands for now.
    fn value(&self, a: Operand) -> u32
        ensures { result ≡ operand_in (values self.now.fields.now self.now.words.now) a }
    {
        match a {
            Operand::Field(i) => at(self.fields, usize::from(i), 0),
            Operand::State(s) => at(self.words, usize::from(s), 0),
            Operand::Constant(c) => c,
        }
    }

    // What an assignment makes, and where it goes; none for a part of a branch.
    fn make<M: Arithmetic>(&self, x: Statement) -> Option<(Target, u32)>
        ensures { result ≡ made M.Arithmetic.plus M.Arithmetic.minus x (values self.now.fields.now self.now.words.now) }
    {
        match x {
            Statement::Copy(t, a) => Some((t, self.value(a))),
            Statement::Add(t, a, b) => Some((t, M::sum(self.value(a), self.value(b)))),
            Statement::Sub(t, a, b) => Some((t, M::difference(self.value(a), self.value(b)))),
            Statement::Less(t, a, b) => Some((t, less(self.value(a), self.value(b)))),
            Statement::Equal(t, a, b) => Some((t, equal(self.value(a), self.value(b)))),
            Statement::Choose(t, c, a, b) => {
                let picked = if is_true(self.value(c)) { a } else { b };
                Some((t, self.value(picked)))
            }
            Statement::If(_) | Statement::Else | Statement::End => None,
        }
    }
}

// The two slices stay apart where they are written: a struct that holds two `&mut` would promise in every contract that
// it still holds the same ones.
fn store(t: Target, x: u32, fields: &mut [u32], words: &mut [u32])
    ensures { values fields.new words.new ≡ stored t x (values fields.old words.old) }
{
    match t {
        Target::Field(i) => put(fields, usize::from(i), x),
        Target::State(s) => put(words, usize::from(s), x),
    }
}

// Whether the part of an if that is written here is the one that runs.
fn is_taken(frame: Frame<bool>) -> bool
    ensures { result ≡ taken frame }
{
    if frame.second { !frame.on } else { frame.on }
}

// Whether that holds of every open if.
fn is_live(nest: &Nest<bool>) -> bool
    ensures { result ≡ live (frames_of nest.now) }
{
    nest.open_ifs().iter().all(|frame| is_taken(*frame))
}

// What a statement does to the open ifs.
fn enter(x: Statement, inputs: &Inputs<'_>, nest: &mut Nest<bool>)
    requires { fits (kind_of x) (elses (frames_of nest.old)) ≡ true }
    ensures { frames_of nest.new ≡ nest_after x (values inputs.now.fields.now inputs.now.words.now) (frames_of nest.old) }
{
    match x {
        Statement::If(c) => {
            let on = is_true(inputs.value(c));
            nest.open_if(on);
        }
        Statement::Else => {
            nest.turn();
        }
        Statement::End => {
            nest.close();
        }
        _ => {}
    }
}

// One statement.
pub fn perform<M: Arithmetic>(
    x: Statement,
    fields: &mut [u32],
    words: &mut [u32],
    nest: &mut Nest<bool>,
)
    requires { fits (kind_of x) (elses (frames_of nest.old)) ≡ true }
    ensures { context (values fields.new words.new) (frames_of nest.new) ≡ step M.Arithmetic.plus M.Arithmetic.minus x (context (values fields.old words.old) (frames_of nest.old)) }
{
    let inputs = Inputs { fields, words };
    match inputs.make::<M>(x) {
        Some((t, made)) if is_live(nest) => store(t, made, fields, words),
        Some(_) => {}
        None => enter(x, &inputs, nest),
    }
}
