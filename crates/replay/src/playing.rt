// A machine over the chosen atoms.
use crate::choices::{Base, Choices, Sums};
use crate::session::Session;
use atoms::{Add, Atom, ReadWrite, Subtract};
use choice::Choice;
use std::alloc::Global;
use std::io::Write;
use text::InputLines;
use word::{Arithmetic, Clamp, Wrap};

// Calls as text, and what they are made on.
#[derive(Clone, Copy)]
pub struct Script<'a> {
    pub heap: Global,
    pub choices: Choices,
    pub input: &'a [u8],
}

impl Script<'_> {
    // Answers the lines of the input on one machine, which was never started.
    pub fn play<W: Write>(self, out: &mut W) -> anyhow::Result<()> {
        match self.choices.sums {
            Sums::Wrap => self.play_in(Wrap, out),
            Sums::Clamp => self.play_in(Clamp, out),
        }
    }

    // The arithmetic and the base are types too, so each has a call of its own.
    fn play_in<M: Arithmetic + Copy + Drop, W: Write>(
        self,
        arithmetic: M,
        out: &mut W,
    ) -> anyhow::Result<()> {
        match self.choices.base {
            Base::ReadWrite => self.play_over(ReadWrite(arithmetic), out),
            Base::Add => self.play_over(Add(arithmetic), out),
            Base::Subtract => self.play_over(Subtract(arithmetic), out),
        }
    }

    // The atoms of a machine are a type, so each number of layers has a call of its own.
    fn play_over<A: Atom + Copy + Drop, W: Write>(
        self,
        atom: A,
        out: &mut W,
    ) -> anyhow::Result<()> {
        match self.choices.layers() {
            0 => self.play_on(atom, out),
            1 => self.play_on(Choice(atom), out),
            2 => self.play_on(Choice(Choice(atom)), out),
            3 => self.play_on(Choice(Choice(Choice(atom))), out),
            _ => self.play_on(Choice(Choice(Choice(Choice(atom)))), out),
        }
    }

    fn play_on<A: Atom + Drop, W: Write>(self, atom: A, out: &mut W) -> anyhow::Result<()> {
        let mut session = Session::new(self.heap, atom, self.choices.trace);
        for line in InputLines::new(self.input) {
            session.answer(line, out)?;
        }
        Ok(())
    }
}
