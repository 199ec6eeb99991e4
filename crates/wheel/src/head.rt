// The wheel's head, and what an advance answers. Every other call answers with a value of its own, or with the cause of its refusal.

pub use dial::state::Dial;

// The first and the last cell of each of 384 slots, 4096 where there is none, a word of marks for each level, and the numbers. Arrays beside
// each other, of fixed length, since nothing here is on a heap.
#[derive(Clone, Copy)]
pub struct Head {
    pub first: [u16; 384],
    pub last: [u16; 384],
    pub marks: [u64; 6],
    pub dial: Dial,
}

// An advance is done, or more is due than the output has room for. The records stand in the output. Two cases with their numbers, and no
// flag beside them: the project's scope asks that an answer is an enum of done and more with their numbers.
#[derive(Clone, Copy, PartialEq, Eq)]
pub enum Advanced {
    Done { fired: u64, clock: u64, moves: u64 },
    More { fired: u64, clock: u64, moves: u64 },
}
