// A call of a history with the memory that it brings, and its answer once it is made.
use refusals::Refusal;

#[derive(Clone, Copy, PartialEq, Eq, Debug)]
pub enum Call {
    Grow(usize),
    Tally,
    Find,
    Leader(usize),
}

#[derive(Clone, Copy, PartialEq, Eq, Debug)]
pub enum Answer {
    Grown,
    Tally(usize, bool),
    Found(usize),
    Leader(u64),
}

// A call uses of the memory what it needs: find the mark and both buffers, grow the scratch.
#[derive(Drop)]
pub struct Entry {
    pub call: Call,
    pub mark: Vec<u8>,
    pub first: Vec<u8>,
    pub second: Vec<u8>,
    pub scratch: Vec<u64>,
    pub answer: Option<Result<Answer, Refusal>>,
}
