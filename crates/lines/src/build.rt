// Turns statements into lines.
ghost use Rattle.std.specs.Prelude.{◌≡◌, ◌+◌, ◌<◌, ◌≤◌, true, [], ◌++◌, map, take};
ghost use Rattle.transaction.specs.Frames.{frames_of, elses};
ghost use Rattle.transaction.specs.Programs.{statements_of};
ghost use Rattle.transaction.specs.Statements.{kind_of};
ghost use Rattle.transaction.specs.WellFormed.{fits};
ghost use Rattle.lines.specs.Build.{source_of, last as last_of, choose_for, assigned, adds, adds_all, read_lines, firsts, start, write_line, write_lines, numbered};
ghost use Rattle.lines.specs.declared.line.Line.TheVariants.{Read};
ghost use Rattle.lines.specs.declared.line.Source.TheVariants.{Field as Incoming, Line as Made};
ghost use Rattle.lines.specs.Named.{up_from};
ghost use Rattle.lines.specs.Exact.{Exactly, NamedThere, InOrder};
ghost use Rattle.lines.specs.Unique.{IsBlankPast};
ghost use Rattle.lines.specs.Meaning.{KeepsMeaning, EachMakes, MakesWords};
ghost use Rattle.lines.specs.View.{draft_of, Pushed, Guarded};

use crate::builder::Builder;
use crate::line::{Line, Source};
use crate::lines::Lines;
use crate::named::named_states;
use std::array;
use transaction::{Frame, Nest, Operand, Statement, Target, Transaction};
use word::{at, put};

// An open if's choose line: the new value in the first branch, else the old one; after else the two are swapped.
fn choose_for(f: Frame<Source>, new: Source, old: Source) -> Line
    ensures { result ≡ choose_for f new old }
{
    if f.second {
        Line::Choose(f.on, old, new)
    } else {
        Line::Choose(f.on, new, old)
    }
}

impl Builder {
    // What an operand stands for: its latest value.
    fn source(&self, a: Operand) -> Source
        ensures { result ≡ source_of (draft_of self.now).latest a }
    {
        match a {
            Operand::Field(i) => at(&self.fields, i as usize, Source::Constant(0)),
            Operand::State(s) => at(&self.states, s as usize, Source::Constant(0)),
            Operand::Constant(c) => Source::Constant(c),
        }
    }

    // The value of the last line.
    fn last(&self) -> Source
        requires { 0 < self.now.count }
        ensures { result ≡ last_of (draft_of self.now).lines }
    {
        Source::Line((self.count - 1) as u8)
    }

    // One line more. Room for it is asked of each method, and is no fact of the type: a builder may be full.
    fn push(&mut self, l: Line)
        requires { self.old.count < 208 }
        ensures { Pushed l self.old self.new }
    {
        self.lines[self.count] = l;
        self.count += 1;
    }

    // A choose line for each open if, innermost first.
    fn guard(&mut self, old: Source)
        requires { (0 < self.old.count) × (self.old.count + self.old.nest.depth ≤ 208) }
        ensures { Guarded old self.old self.new }
    {
        // a copy of the open ifs, since each line changes the builder
        let frames = self.nest.frames;
        for &frame in frames[..self.nest.depth].iter().rev() {
            let new = self.last();
            self.push(choose_for(frame, new, old));
        }
    }

    // An assignment, its own line given.
    fn assign(&mut self, t: Target, l: Line)
        requires { self.old.count + 1 + self.old.nest.depth ≤ 208 }
        ensures made { draft_of self.new ≡ assigned t l (draft_of self.old) }
        ensures count { self.new.count ≡ self.old.count + 1 + self.old.nest.depth }
    {
        let old = self.source(t.into());
        self.push(l);
        self.guard(old);
        let new = self.last();
        match t {
            Target::Field(i) => put(&mut self.fields, i as usize, new),
            Target::State(s) => put(&mut self.states, s as usize, new),
        }
    }

    // One statement more.
    fn add(&mut self, x: Statement)
        requires room { self.old.count + 4 ≤ 208 }
        requires fitting { fits (kind_of x) (elses (frames_of self.old.nest)) ≡ true }
        ensures made { draft_of self.new ≡ adds x (draft_of self.old) }
        ensures count { self.new.count ≤ self.old.count + 4 }
    {
        match x {
            Statement::Copy(t, a) => self.assign(t, Line::Copy(self.source(a))),
            Statement::Add(t, a, b) => self.assign(t, Line::Add(self.source(a), self.source(b))),
            Statement::Sub(t, a, b) => self.assign(t, Line::Sub(self.source(a), self.source(b))),
            Statement::Less(t, a, b) => self.assign(t, Line::Less(self.source(a), self.source(b))),
            Statement::Equal(t, a, b) => {
                self.assign(t, Line::Equal(self.source(a), self.source(b)))
            }
            Statement::Choose(t, c, a, b) => self.assign(
                t,
                Line::Choose(self.source(c), self.source(a), self.source(b)),
            ),
            Statement::If(c) => {
                let on = self.source(c);
                self.nest.open_if(on);
            }
            Statement::Else => {
                self.nest.turn();
            }
            Statement::End => {
                self.nest.close();
            }
        }
    }

    // The lines of the statements.
    fn add_all(&mut self, t: &Transaction)
        requires shallow { frames_of self.old.nest ≡ [] }
        requires few { self.old.count ≤ 8 }
        ensures made { draft_of self.new ≡ adds_all (statements_of t.now) (draft_of self.old) }
        ensures count { self.new.count ≤ 200 }
    {
        for &x in t.body() {
            self.add(x);
        }
    }

    // A state's read line, and its value.
    fn read_state(&mut self, s: u8) -> Source
        requires { self.old.count < 208 }
        ensures pushed { Pushed (Read s) self.old self.new }
        ensures value { result ≡ Made self.old.count }
    {
        let value = Source::Line(self.count as u8);
        self.push(Line::Read(s));
        value
    }

    // A state's write line, which takes its latest value.
    fn write_state(&mut self, s: u8)
        requires { self.old.count < 208 }
        ensures { Pushed (write_line self.old.states s) self.old self.new }
    {
        let update = self.source(Operand::State(s));
        self.push(Line::Write(s, update));
    }

    // No line yet; a state has no value before its read line.
    fn new() -> Builder
        ensures fields { result.fields ≡ map Incoming (up_from 16 0) }
        ensures nest { frames_of result.nest ≡ [] }
        ensures count { result.count ≡ 0 }
    {
        Builder {
            lines: [Line::Read(0); 208],
            count: 0,
            fields: array::from_fn(|i| Source::Field(i as u8)),
            states: [Source::Constant(0); 8],
            nest: Nest::new(Source::Constant(0)),
        }
    }

    // A read line for each named state, which is its first latest value.
    fn read_states(&mut self, named: &[bool; 8])
        requires { self.old.count ≡ 0 }
        ensures lines { take self.new.count self.new.lines ≡ read_lines named.now }
        ensures states { self.new.states ≡ firsts 0 named.now }
        ensures fields { self.new.fields ≡ self.old.fields }
        ensures nest { self.new.nest ≡ self.old.nest }
        ensures count { self.new.count ≤ 8 }
    {
        for (s, &is_named) in named.iter().enumerate() {
            self.states[s] = if is_named {
                self.read_state(s as u8)
            } else {
                Source::Constant(0)
            };
        }
    }

    // All but the write lines.
    fn body(t: &Transaction, named: &[bool; 8]) -> Builder
        ensures made { draft_of result ≡ adds_all (statements_of t.now) (start named.now) }
        ensures count { result.count ≤ 200 }
    {
        let mut b = Builder::new();
        b.read_states(named);
        b.add_all(t);
        b
    }

    // A write line for each named state.
    fn write_states(&mut self, named: &[bool; 8])
        requires { self.old.count ≤ 200 }
        ensures lines { take self.new.count self.new.lines ≡ take self.old.count self.old.lines ++ write_lines named.now self.old.states }
        ensures fields { self.new.fields ≡ self.old.fields }
        ensures states { self.new.states ≡ self.old.states }
    {
        for (s, &is_named) in named.iter().enumerate() {
            if is_named {
                self.write_state(s as u8);
            }
        }
    }
}

// The numbers of the states' read lines, or of their write lines, of which the first is line `first`.
fn number_states(named: &[bool; 8], first: usize) -> [usize; 8]
    requires { first ≤ 208 }
    ensures { result ≡ numbered first named.now }
{
    let mut numbers = [first; 8];
    let mut next = first;
    for (s, &is_named) in named.iter().enumerate() {
        numbers[s] = next;
        next += usize::from(is_named);
    }
    numbers
}

// A transaction's lines: without branches, and with the same meaning.
pub fn lines_of(t: &Transaction) -> Lines
    ensures exact { Exactly (statements_of t.now) result }
    ensures there { NamedThere t.now result }
    ensures order { InOrder result }
    ensures meaning { KeepsMeaning t.now result }
    ensures makes { EachMakes result }
    ensures words { MakesWords result }
    ensures blank { IsBlankPast result }
{
    let named = named_states(t);
    let mut b = Builder::body(t, &named);
    let first_write = b.count;
    b.write_states(&named);
    Lines {
        lines: b.lines,
        count: b.count,
        named,
        finals: b.fields,
        updates: b.states,
        reads: number_states(&named, 0),
        writes: number_states(&named, first_write),
    }
}
