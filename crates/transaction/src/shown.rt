// Statements as they are printed.
ghost use Rattle.std.specs.Prelude.{Some};
ghost use Rattle.transaction.specs.Shown.{operand_text, target_text, statement_text};

use crate::statement::{Operand, Statement, Target};
use std::fmt;

// A field as `f0`, a state as `s0`, a constant as its number.
impl fmt::Display for Operand {
    ghost output = { λ a. Some (operand_text a) };

    fn fmt<W: fmt::Write>(&self, f: &mut fmt::Formatter<W>) -> fmt::Result {
        match *self {
            Operand::Field(i) => write!(f, "f{i}"),
            Operand::State(s) => write!(f, "s{s}"),
            Operand::Constant(c) => write!(f, "{c}"),
        }
    }
}

impl fmt::Display for Target {
    ghost output = { λ t. Some (target_text t) };

    fn fmt<W: fmt::Write>(&self, f: &mut fmt::Formatter<W>) -> fmt::Result {
        match *self {
            Target::Field(i) => write!(f, "f{i}"),
            Target::State(s) => write!(f, "s{s}"),
        }
    }
}

// An assignment as `f0 := s0 + 1`; a part of a branch as `if f0`, `else` or `end`.
impl fmt::Display for Statement {
    ghost output = { λ x. Some (statement_text x) };

    fn fmt<W: fmt::Write>(&self, f: &mut fmt::Formatter<W>) -> fmt::Result {
        match *self {
            Statement::Copy(t, a) => write!(f, "{t} := {a}"),
            Statement::Add(t, a, b) => write!(f, "{t} := {a} + {b}"),
            Statement::Sub(t, a, b) => write!(f, "{t} := {a} - {b}"),
            Statement::Less(t, a, b) => write!(f, "{t} := {a} < {b}"),
            Statement::Equal(t, a, b) => write!(f, "{t} := {a} == {b}"),
            Statement::Choose(t, c, a, b) => write!(f, "{t} := {c} ? {a} : {b}"),
            Statement::If(c) => write!(f, "if {c}"),
            Statement::Else => write!(f, "else"),
            Statement::End => write!(f, "end"),
        }
    }
}
