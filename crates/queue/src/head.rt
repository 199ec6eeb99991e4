// The ready queue's head, and what its calls answer beside a refusal.

use cells::store::{Handle, Store};

// The arity, the number of entries, and the cell store's head.
#[derive(Clone, Copy)]
pub struct Head {
    pub arity: u64,
    pub count: u64,
    pub store: Store,
}

// What first and take hand out: the entry's key, its handle and its load.
#[derive(Clone, Copy)]
pub struct Found {
    pub key: u64,
    pub at: Handle,
    pub load: u64,
}

// What a put answers: the new entry's handle, and the moves.
#[derive(Clone, Copy)]
pub struct Entered {
    pub at: Handle,
    pub moves: u64,
}

// What a take answers: the entry, and the moves.
#[derive(Clone, Copy)]
pub struct Taken {
    pub found: Found,
    pub moves: u64,
}

// What a remove answers: the load, and the moves.
#[derive(Clone, Copy)]
pub struct Removed {
    pub load: u64,
    pub moves: u64,
}
