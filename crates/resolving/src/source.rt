// Sameness of values.
ghost use Rattle.std.specs.Prelude.{◌≡◌};
ghost use Rattle.resolving.specs.Sameness.{same};

use lines::Source;

// Whether two values are the same: the same line, the same incoming field or equal constants. A name over `==`, since
// sameness is a term of its own.
pub fn are_same(a: Source, b: Source) -> bool
    ensures { result ≡ same a b }
{
    a == b
}
