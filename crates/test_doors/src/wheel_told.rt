// The wheel's answers as plain numbers, the same for its checked and its quick calls.

use crate::lent::{Told, answer};
use cells::store::Handle;
use wheel::head::Advanced;

// Arm: cell and ticket.
impl From<Handle> for Told {
    fn from(at: Handle) -> Told {
        answer(1, at.cell, at.ticket, 0)
    }
}

// Advance: the number fired, the clock and the moves; done is kind 1, more kind 2.
impl From<Advanced> for Told {
    fn from(advanced: Advanced) -> Told {
        match advanced {
            Advanced::Done {
                fired,
                clock,
                moves,
            } => answer(1, fired, clock, moves),
            Advanced::More {
                fired,
                clock,
                moves,
            } => answer(2, fired, clock, moves),
        }
    }
}

// Next wake: none is kind 1, a tick kind 2.
impl From<Option<u64>> for Told {
    fn from(wake: Option<u64>) -> Told {
        match wake {
            None => answer(1, 0, 0, 0),
            Some(tick) => answer(2, tick, 0, 0),
        }
    }
}
