// The values of the lines.
ghost use Rattle.std.specs.Prelude.{◌≡◌, ℕ, ◌≤◌, take, slice_index};
ghost use Rattle.meaning.specs.Serial.{values};
ghost use Rattle.lines.specs.Work.{value_of, makes, worked, Satisfied};

use crate::line::{Line, Source};
use crate::lines::Lines;
use word::{Arithmetic, at, equal, is_true, less};

impl Source {
    // What a source stands for, by the incoming fields and the values of the lines.
    pub fn value(self, fields: &[u32], made: &[u32]) -> u32
        ensures { result ≡ value_of fields.now made.now self }
    {
        match self {
            Source::Field(i) => at(fields, i as usize, 0),
            Source::Line(n) => at(made, n as usize, 0),
            Source::Constant(c) => c,
        }
    }
}

impl Line {
    // What a line makes of the values of what it reads, a read line the old word.
    // The slices come apart, for their owners keep them apart: a struct of them would be made anew at each line.
    pub fn make<M: Arithmetic>(self, fields: &[u32], words: &[u32], made: &[u32]) -> u32
        ensures { result ≡ makes M.Arithmetic.plus M.Arithmetic.minus (values fields.now words.now) made.now self }
    {
        let value = |a: Source| a.value(fields, made);
        match self {
            Line::Read(s) => at(words, s as usize, 0),
            Line::Copy(a) | Line::Write(_, a) => value(a),
            Line::Add(a, b) => M::sum(value(a), value(b)),
            Line::Sub(a, b) => M::difference(value(a), value(b)),
            Line::Less(a, b) => less(value(a), value(b)),
            Line::Equal(a, b) => equal(value(a), value(b)),
            Line::Choose(c, a, b) => value(if is_true(value(c)) { a } else { b }),
        }
    }
}

impl Lines {
    // The values of the lines, one after another, and 0 past the last.
    pub fn work_out<M: Arithmetic>(&self, fields: &[u32], words: &[u32]) -> [u32; 208]
        ensures worked { take self.now.count result ≡ worked M.Arithmetic.plus M.Arithmetic.minus (values fields.now words.now) (take self.now.count self.now.lines) }
        ensures satisfied { Satisfied M.Arithmetic.plus M.Arithmetic.minus (values fields.now words.now) (take self.now.count self.now.lines) result }
        ensures past { (n : ℕ) → self.now.count ≤ n → slice_index result n ≡ 0 }
    {
        let mut made = [0; 208];
        for (n, line) in self.body().iter().enumerate() {
            made[n] = line.make::<M>(fields, words, &made[..n]);
        }
        made
    }
}
