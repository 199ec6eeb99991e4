// The ready queue's answers as plain numbers, the same for its checked and its quick calls.

use crate::lent::{Told, answer};
use queue::head::{Entered, Found, Removed, Taken};

// An entry that was found: key, cell, ticket, load, and the moves.
fn found(entry: Found, moves: u64) -> Told {
    Told {
        kind: 1,
        a: entry.key,
        b: entry.at.cell,
        c: entry.at.ticket,
        d: entry.load,
        e: moves,
    }
}

// Put: cell, ticket and moves.
impl From<Entered> for Told {
    fn from(done: Entered) -> Told {
        answer(1, done.at.cell, done.at.ticket, done.moves)
    }
}

// First: the entry.
impl From<Found> for Told {
    fn from(entry: Found) -> Told {
        found(entry, 0)
    }
}

// Take: the entry and the moves.
impl From<Taken> for Told {
    fn from(done: Taken) -> Told {
        found(done.found, done.moves)
    }
}

// Remove: the load and the moves.
impl From<Removed> for Told {
    fn from(done: Removed) -> Told {
        answer(1, done.load, done.moves, 0)
    }
}
