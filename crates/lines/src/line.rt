// A line and what it reads.

// What a line reads: an incoming field of the packet, the value of a line, by the line's number, or a constant.
#[derive(Clone, Copy, Debug, PartialEq, Eq)]
pub enum Source {
    Field(u8),
    Line(u8),
    Constant(u32),
}

// A line makes one value; lines are numbered from 0, and none depends on a branch.
#[derive(Clone, Copy, Debug, PartialEq, Eq)]
pub enum Line {
    // the word of a state as the packet meets it
    Read(u8),
    // a
    Copy(Source),
    // a + b
    Add(Source, Source),
    // a - b
    Sub(Source, Source),
    // 1 where a is less than b, else 0
    Less(Source, Source),
    // 1 where a equals b, else 0
    Equal(Source, Source),
    // a where the condition, the first source, is true, else b
    Choose(Source, Source, Source),
    // what becomes the word of a state
    Write(u8, Source),
}
