// The table of open ifs.
ghost use Rattle.std.specs.Prelude.{◌≡◌, ◌≤◌, length};

// An open if: what is kept of its condition, and whether its else has come.
#[derive(Clone, Copy)]
pub struct Frame<C> {
    pub on: C,
    pub second: bool,
}

// The open ifs: the first `depth` of a table, outermost first.
// A plain table and its depth: an `ArrayVec` would ask a default of `C`, which callers need not have.
#[derive(Drop)]
pub struct Nest<C> {
    pub depth: usize,
    pub frames: [Frame<C>; 3],
    ghost shallow: { depth ≤ 3 },
    ghost long: { length frames ≡ 3 },
}
