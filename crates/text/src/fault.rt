// Why a line is not decoded.
ghost use Rattle.std.specs.Prelude.{◌≡◌, Some};
ghost use Rattle.text.specs.Told.{fault_behind, fault_text};
ghost use Rattle.text.specs.declared.fault.TextFault.TheVariants.{Memory};

use std::alloc::{AllocError, AllocFailed};
use std::error::Error;
use std::fmt;

#[derive(Clone, Copy, Debug, PartialEq, Eq)]
pub enum TextFault {
    // The column, from 0, of the first byte that cannot stand where it does, or the line's length where something is missing at its end.
    Malformed(usize),
    // There is no memory for what was decoded.
    Memory,
}

impl TextFault {
    // The fault of a line whose part from column `from` on has this one.
    pub fn behind(self, from: usize) -> TextFault
        ensures { result ≡ fault_behind from self }
    {
        match self {
            TextFault::Malformed(column) => TextFault::Malformed(column.saturating_add(from)),
            TextFault::Memory => TextFault::Memory,
        }
    }
}

// As a program prints it: `malformed` and the column.
impl fmt::Display for TextFault {
    ghost output = { λ fault. Some (fault_text fault) };

    fn fmt<W: fmt::Write>(&self, f: &mut fmt::Formatter<W>) -> fmt::Result {
        match self {
            TextFault::Malformed(column) => write!(f, "malformed {column}"),
            TextFault::Memory => write!(f, "out of memory"),
        }
    }
}

impl Error for TextFault {}

impl From<AllocError> for TextFault {
    ghost from_gives = { λ _ r. r ≡ Memory };

    fn from(_e: AllocError) -> TextFault {
        TextFault::Memory
    }
}

impl<T: Drop> From<AllocFailed<T>> for TextFault {
    ghost from_gives = { λ _ r. r ≡ Memory };

    fn from(_e: AllocFailed<T>) -> TextFault {
        TextFault::Memory
    }
}
