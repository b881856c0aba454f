// Calls on a machine, with their answers.
use machine::MachineFault;

// A call, with its buffer.
#[derive(Drop)]
pub enum Call {
    Feed(Vec<u32>),
    Tick,
    Take(Vec<u32>),
    Peek(usize),
}

// What came of a call that was not refused; the fields of a packet that left are in the call's buffer.
#[derive(Clone, Copy, Debug, PartialEq, Eq)]
pub enum Reply {
    Done,
    // a state's word, and how many packets have reached its atom
    Shown(u32, u32),
}

// A call and the place of its answer.
#[derive(Drop)]
pub struct Asked {
    pub call: Call,
    pub answer: Result<Reply, MachineFault>,
}
