// The statements of a transaction and what they name.
ghost use Rattle.std.specs.Prelude.{◌≡◌, ok_or};
ghost use Rattle.transaction.specs.Statements.{placed, kinded, unknown, kind_of, target_operand};

// What a statement reads: a field of the packet, a state (a word kept in the switch) or a constant.
#[derive(Clone, Copy, Debug, PartialEq, Eq)]
pub enum Operand {
    Field(u8),
    State(u8),
    Constant(u32),
}

// What a statement assigns to.
#[derive(Clone, Copy, Debug, PartialEq, Eq)]
pub enum Target {
    Field(u8),
    State(u8),
}

// A statement: an assignment of one of six kinds, or a part of a branch.
#[derive(Clone, Copy, Debug, PartialEq, Eq)]
pub enum Statement {
    // target := a
    Copy(Target, Operand),
    // target := a + b
    Add(Target, Operand, Operand),
    // target := a - b
    Sub(Target, Operand, Operand),
    // target := 1 where a is less than b, else 0
    Less(Target, Operand, Operand),
    // target := 1 where a equals b, else 0
    Equal(Target, Operand, Operand),
    // target := a where the condition, the first operand, is true, else b
    Choose(Target, Operand, Operand, Operand),
    If(Operand),
    Else,
    End,
}

// What the first number of a statement says.
#[derive(Clone, Copy, Debug, PartialEq, Eq)]
pub enum Kind {
    Copy,
    Add,
    Sub,
    Less,
    Equal,
    Choose,
    If,
    Else,
    End,
}

// A number that is no kind's.
#[derive(Clone, Copy, Debug, PartialEq, Eq)]
pub struct UnknownKind {
    pub number: u32,
}

// What the first number of an operand says: which field or state it is, or that a constant's number follows.
#[derive(Clone, Copy, Debug, PartialEq, Eq)]
pub enum Place {
    Field(u8),
    State(u8),
    Constant,
}

impl Place {
    // The place of a number, where the fields are those below `fields` and the states those below `states`. No `TryFrom`,
    // since the counts come beside the number.
    pub fn from_number(n: u32, fields: u8, states: u8) -> Option<Place>
        ensures { result ≡ placed fields states n }
    {
        match n {
            0..=15 if n < fields as u32 => Some(Place::Field(n as u8)),
            16..=23 if n - 16 < states as u32 => Some(Place::State((n - 16) as u8)),
            24 => Some(Place::Constant),
            _ => None,
        }
    }
}

// The kind of a number.
impl TryFrom<u32> for Kind {
    type Error = UnknownKind;

    ghost try_from_gives = { λ n r. r ≡ ok_or (kinded n) (unknown n) };

    fn try_from(n: u32) -> Result<Kind, UnknownKind> {
        match n {
            0 => Ok(Kind::Copy),
            1 => Ok(Kind::Add),
            2 => Ok(Kind::Sub),
            3 => Ok(Kind::Less),
            4 => Ok(Kind::Equal),
            5 => Ok(Kind::Choose),
            6 => Ok(Kind::If),
            7 => Ok(Kind::Else),
            8 => Ok(Kind::End),
            _ => Err(UnknownKind { number: n }),
        }
    }
}

// The target, read.
impl From<Target> for Operand {
    ghost from_gives = { λ t r. r ≡ target_operand t };

    fn from(t: Target) -> Operand {
        match t {
            Target::Field(i) => Operand::Field(i),
            Target::State(s) => Operand::State(s),
        }
    }
}

impl Statement {
    pub fn kind(self) -> Kind
        ensures { result ≡ kind_of self }
    {
        match self {
            Statement::Copy(_, _) => Kind::Copy,
            Statement::Add(_, _, _) => Kind::Add,
            Statement::Sub(_, _, _) => Kind::Sub,
            Statement::Less(_, _, _) => Kind::Less,
            Statement::Equal(_, _, _) => Kind::Equal,
            Statement::Choose(_, _, _, _) => Kind::Choose,
            Statement::If(_) => Kind::If,
            Statement::Else => Kind::Else,
            Statement::End => Kind::End,
        }
    }
}
