// The states that a transaction names.
ghost use Rattle.std.specs.Prelude.{◌≡◌};
ghost use Rattle.transaction.specs.Programs.{statements_of};
ghost use Rattle.lines.specs.Named.{names, some_names, named_of};

use std::array;
use transaction::{Operand, Statement, Transaction};

// Whether a statement names a state: as its target, as an operand or as its condition.
fn names_state(x: Statement, s: u8) -> bool
    ensures { result ≡ names s x }
{
    let state = Operand::State(s);
    match x {
        Statement::Copy(t, a) => [t.into(), a].contains(&state),
        Statement::Add(t, a, b)
        | Statement::Sub(t, a, b)
        | Statement::Less(t, a, b)
        | Statement::Equal(t, a, b) => [t.into(), a, b].contains(&state),
        Statement::Choose(t, c, a, b) => [t.into(), c, a, b].contains(&state),
        Statement::If(c) => c == state,
        Statement::Else | Statement::End => false,
    }
}

// Whether a statement of the transaction names a state.
fn is_named(t: &Transaction, s: u8) -> bool
    ensures { result ≡ some_names s (statements_of t.now) }
{
    t.body().iter().any(|&x| names_state(x, s))
}

// For each state whether it is named.
pub fn named_states(t: &Transaction) -> [bool; 8]
    ensures { result ≡ named_of (statements_of t.now) }
{
    array::from_fn(|s| is_named(t, s as u8))
}
