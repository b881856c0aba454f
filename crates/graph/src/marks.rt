// Marks on nodes.
ghost use Rattle.std.specs.Prelude.{◌≡◌, true, false, length, set, replicate, slice_index_or, slice_set};

// The most nodes that a graph has.
pub const ROOM: usize = 208;

// A set of nodes: those that are on.
#[derive(Clone, Copy)]
pub struct Marks {
    pub on: [bool; ROOM],
    ghost long: { length on ≡ 208 },
}

impl Marks {
    // No marks.
    pub fn new() -> Marks
        ensures { result.on ≡ replicate 208 false }
    {
        Marks { on: [false; ROOM] }
    }

    // Whether n is marked; a number past the room is not.
    pub fn has(&self, n: usize) -> bool
        ensures { result ≡ slice_index_or self.now.on n false }
    {
        self.on.get(n).copied().unwrap_or(false)
    }

    // Marks n; nothing changes for a number past the room.
    pub fn add(&mut self, n: usize)
        ensures { self.new.on ≡ slice_set self.old.on n true }
    {
        // by index: over `get_mut` the proof didn't close
        if n < ROOM {
            self.on[n] = true;
        }
    }
}
