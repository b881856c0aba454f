// What a setting can name: leaves, and what is done with them.
ghost use Rattle.std.specs.Prelude.{◌≡◌};
ghost use Rattle.resolving.specs.Leaves.{leaf_value, holds_at};

use crate::packet::Packet;
use word::{at, equal, is_true, less};

// A value that an atom can take as it stands. The numbers come from a setting and may be too large: a field or a line
// that the packet does not have counts as 0.
#[derive(Clone, Copy, Debug, PartialEq, Eq)]
pub enum Leaf {
    // the word of the state as the packet meets it
    Old,
    // an incoming field, by its number
    Field(u32),
    // the value of a line outside the codelet, by its number
    Line(u32),
    Constant(u32),
}

// What an atom without a layer makes of the old word.
#[derive(Clone, Copy, Debug, PartialEq, Eq)]
pub enum Operation {
    // v
    Set(Leaf),
    // old + v
    Add(Leaf),
    // old - v
    Subtract(Leaf),
}

// A condition that an atom can test by itself.
#[derive(Clone, Copy, Debug, PartialEq, Eq)]
pub enum Predicate {
    // true of every packet
    Always,
    // a is true
    True(Leaf),
    // a is less than b
    Less(Leaf, Leaf),
    // a equals b
    Equal(Leaf, Leaf),
}

impl Leaf {
    // The leaf's value for a packet that meets the old word.
    pub fn value(self, old: u32, packet: &Packet) -> u32
        ensures { result ≡ leaf_value self old packet.now }
    {
        match self {
            Leaf::Old => old,
            Leaf::Field(i) => at(&packet.fields, i as usize, 0),
            Leaf::Line(n) => at(&packet.lines, n as usize, 0),
            Leaf::Constant(w) => w,
        }
    }
}

impl Predicate {
    // Whether the predicate is true of a packet that meets the old word.
    pub fn holds(self, old: u32, packet: &Packet) -> bool
        ensures { result ≡ holds_at self old packet.now }
    {
        match self {
            Predicate::Always => true,
            Predicate::True(a) => is_true(a.value(old, packet)),
            Predicate::Less(a, b) => is_true(less(a.value(old, packet), b.value(old, packet))),
            Predicate::Equal(a, b) => is_true(equal(a.value(old, packet), b.value(old, packet))),
        }
    }
}
