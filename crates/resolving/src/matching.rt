// What an update is: a leaf, an operation on the old word, or a choice on a predicate.
ghost use Rattle.std.specs.Prelude.{◌≡◌};
ghost use Rattle.resolving.specs.Classes.{sum_of, difference_of, operation_of, leaves_of, predicate_at, fork_of};
ghost use Rattle.resolving.specs.Leaves.{is_old, is_leaf, is_other, leaf_of, NamesWord, OperatesOnWord};
ghost use Rattle.resolving.specs.Resolving.{found};

use crate::codelet::Codelet;
use crate::fork::Fork;
use crate::leaf::{Leaf, Operation, Predicate};
use crate::resolved::Resolved;
use crate::source::are_same;
use crate::update::Update;
use lines::{Line, Source};

impl Codelet {
    // Whether a source is the old word.
    pub fn is_old(&self, a: Source) -> bool
        ensures { result ≡ is_old self.now a }
    {
        are_same(a, Source::Line(self.read))
    }

    // Whether a source is a leaf: the old word, a value from outside the codelet, or a constant.
    pub fn is_leaf(&self, a: Source) -> bool
        ensures { result ≡ is_leaf self.now a }
    {
        match a {
            Source::Line(n) => self.is_old(a) || !self.is_inner(n),
            Source::Field(_) | Source::Constant(_) => true,
        }
    }

    // Whether a source is a leaf other than the old word.
    pub fn is_other(&self, a: Source) -> bool
        ensures { result ≡ is_other self.now a }
    {
        self.is_leaf(a) && !self.is_old(a)
    }

    // A leaf's name.
    pub fn leaf(&self, a: Source) -> Leaf
        ensures name { result ≡ leaf_of self.now a }
        ensures word { NamesWord result }
    {
        match a {
            Source::Line(_) if self.is_old(a) => Leaf::Old,
            Source::Line(n) => Leaf::Line(n as u32),
            Source::Field(i) => Leaf::Field(i as u32),
            Source::Constant(w) => Leaf::Constant(w),
        }
    }

    // That an operation names words is said by each function that makes one, since an enum has no ghost field.

    // x + y as an operation: one is the old word, and the other a leaf that is not.
    fn sum(&self, x: Source, y: Source) -> Option<Operation>
        ensures operation { result ≡ sum_of self.now x y }
        ensures word { OperatesOnWord result }
    {
        if self.is_old(x) && self.is_other(y) {
            Some(Operation::Add(self.leaf(y)))
        } else if self.is_other(x) && self.is_old(y) {
            Some(Operation::Add(self.leaf(x)))
        } else {
            None
        }
    }

    // x - y as an operation.
    fn difference(&self, x: Source, y: Source) -> Option<Operation>
        ensures operation { result ≡ difference_of self.now x y }
        ensures word { OperatesOnWord result }
    {
        (self.is_old(x) && self.is_other(y)).then(|| Operation::Subtract(self.leaf(y)))
    }

    // The names of what two sources resolve to, where both are leaves.
    fn leaves(&self, resolved: &Resolved, a: Source, b: Source) -> Option<(Leaf, Leaf)>
        ensures { result ≡ leaves_of self.now (found resolved.now.sources a) (found resolved.now.sources b) }
    {
        let x = resolved.of(a);
        let y = resolved.of(b);
        (self.is_leaf(x) && self.is_leaf(y)).then(|| (self.leaf(x), self.leaf(y)))
    }

    // The predicate that a resolved condition is, where it is one.
    fn predicate(&self, resolved: &Resolved, condition: Source) -> Option<Predicate>
        ensures { result ≡ predicate_at self.now resolved.now.sources condition }
    {
        if self.is_leaf(condition) {
            return Some(Predicate::True(self.leaf(condition)));
        }
        match self.inner_line(condition)? {
            Line::Less(a, b) => self
                .leaves(resolved, a, b)
                .map(|(x, y)| Predicate::Less(x, y)),
            Line::Equal(a, b) => self
                .leaves(resolved, a, b)
                .map(|(x, y)| Predicate::Equal(x, y)),
            _ => None,
        }
    }
}

impl Update<'_> {
    // The operation on the old word that the update is, where it is one.
    pub fn operation(&self) -> Option<Operation>
        ensures operation { result ≡ operation_of self.now.codelet.now self.now.decided self.now.source }
        ensures word { OperatesOnWord result }
    {
        let codelet = self.codelet;
        let resolved = codelet.resolve(&self.decided);
        let source = resolved.of(self.source);
        if codelet.is_leaf(source) {
            return Some(Operation::Set(codelet.leaf(source)));
        }
        match codelet.inner_line(source)? {
            Line::Add(a, b) => codelet.sum(resolved.of(a), resolved.of(b)),
            Line::Sub(a, b) => codelet.difference(resolved.of(a), resolved.of(b)),
            _ => None,
        }
    }

    // The fork that the update is, where it resolves to an inner choose on a predicate.
    pub fn fork(&self) -> Option<Fork>
        ensures { result ≡ fork_of self.now.codelet.now self.now.decided self.now.source }
    {
        let codelet = self.codelet;
        let resolved = codelet.resolve(&self.decided);
        let Line::Choose(c, first, second) = codelet.inner_line(resolved.of(self.source))? else {
            return None;
        };
        let condition = resolved.of(c);
        let predicate = codelet.predicate(&resolved, condition)?;
        Some(Fork {
            condition,
            predicate,
            first,
            second,
        })
    }
}
