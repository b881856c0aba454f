// The lines of statements are one table.
ghost use Rattle.lines.specs.Unique.{LinesUnique};

// The lines of statements are one table, and no other.
pub fn lines_are_unique()
    ensures { LinesUnique }
{}
