// What the wheel's head and an advance have by value, beside the slices that are lent.

ghost use Rattle.std.specs.Prelude.{◌≡◌};

use cells::store::Store;
use slots::ring::Ends;

// The numbers of a wheel's head: the clock, the due list's ends, and the cell store's head.
#[derive(Clone, Copy)]
pub struct Dial {
    pub clock: u64,
    pub due: Ends,
    pub store: Store,
}

// The numbers of the head as far as an advance has come, the records in the output, and the moves made.
#[derive(Clone, Copy)]
pub struct Turn {
    pub dial: Dial,
    pub fired: u64,
    pub moves: u64,
}

// The target is reached, or more is due than there is room for.
#[derive(Clone, Copy, PartialEq, Eq)]
pub enum HowEnded {
    Done,
    More,
}

// No ending: the turns go on or, where all are over, the memory is no wheel's and they ran out.
#[derive(Clone, Copy)]
pub struct TurnsEnded {
    pub turn: Turn,
    pub ending: Option<HowEnded>,
}

// The turn at another clock.
pub fn at_clock(t: Turn, clock: u64) -> Turn
    ensures { result
        ≡ record { dial = record { clock = clock; due = t.dial.due; store = t.dial.store }; fired = t.fired; moves = t.moves } }
{
    Turn {
        dial: Dial { clock, ..t.dial },
        ..t
    }
}
