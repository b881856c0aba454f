// The open ifs.
ghost use Rattle.std.specs.Prelude.{◌≡◌, ◌+◌, ◌-◌, ◌<◌, true, false, [], ◌∷◌, length, reverse, if◌then◌else◌, nat_lt, slice_set};
ghost use Rattle.transaction.specs.Frames.{frames_of, begun, turned, outer, elses};
ghost use Rattle.transaction.specs.WellFormed.{opened, awaits};

use crate::frame::{Frame, Nest};

impl<C> Frame<C> {
    // An if that begins.
    pub fn new(on: C) -> Frame<C>
        ensures { result ≡ record { on = on; second = false } }
    {
        Frame { on, second: false }
    }

    // The same if, once its else has come.
    pub fn crossed(self) -> Frame<C>
        ensures { result ≡ record { on = self.on; second = true } }
    {
        Frame {
            second: true,
            ..self
        }
    }
}

impl<C: Copy> Nest<C> {
    // No open if; `blank` fills the table and has no meaning.
    pub fn new(blank: C) -> Nest<C>
        ensures { frames_of result ≡ [] }
    {
        Nest {
            depth: 0,
            frames: [Frame::new(blank); 3],
        }
    }

    // The open ifs, outermost first.
    pub fn open_ifs(&self) -> &[Frame<C>]
        ensures { reverse result.now ≡ frames_of self.now }
    {
        &self.frames[..self.depth]
    }

    // One if more in the table.
    fn push(&mut self, frame: Frame<C>)
        requires { self.old.depth < 3 }
        ensures depth { self.new.depth ≡ self.old.depth + 1 }
        ensures frames { self.new.frames ≡ slice_set self.old.frames self.old.depth frame }
    {
        let d = self.depth;
        self.frames[d] = frame;
        self.depth = d + 1;
    }

    // Another frame in the place of the innermost.
    fn replace(&mut self, frame: Frame<C>)
        requires { 0 < self.old.depth }
        ensures depth { self.new.depth ≡ self.old.depth }
        ensures frames { self.new.frames ≡ slice_set self.old.frames (self.old.depth - 1) frame }
    {
        let last = self.depth - 1;
        self.frames[last] = frame;
    }

    // One if less in the table.
    fn pop(&mut self)
        requires { 0 < self.old.depth }
        ensures depth { self.new.depth ≡ self.old.depth - 1 }
        ensures frames { self.new.frames ≡ self.old.frames }
    {
        self.depth -= 1;
    }

    // Opens an if; false, and nothing changes, at the fourth depth.
    pub fn open_if(&mut self, on: C) -> bool
        ensures answer { result ≡ nat_lt (length (elses (frames_of self.old))) 3 }
        ensures frames { frames_of self.new ≡ (if result then begun on (frames_of self.old) else frames_of self.old) }
        ensures elses { elses (frames_of self.new) ≡ (if result then false ∷ elses (frames_of self.old) else elses (frames_of self.old)) }
    {
        if self.depth >= 3 {
            return false;
        }
        self.push(Frame::new(on));
        true
    }

    // Turns to the innermost if's else; false, and nothing changes, where no if is open or its else has come.
    pub fn turn(&mut self) -> bool
        ensures answer { result ≡ awaits (elses (frames_of self.old)) }
        ensures frames { frames_of self.new ≡ (if result then turned (frames_of self.old) else frames_of self.old) }
    {
        if self.depth == 0 {
            return false;
        }
        let frame = self.frames[self.depth - 1];
        if frame.second {
            return false;
        }
        self.replace(frame.crossed());
        true
    }

    // Closes the innermost if; false, and nothing changes, where none is open.
    pub fn close(&mut self) -> bool
        ensures answer { result ≡ opened (elses (frames_of self.old)) }
        ensures frames { frames_of self.new ≡ outer (frames_of self.old) }
    {
        if self.depth == 0 {
            return false;
        }
        self.pop();
        true
    }
}
