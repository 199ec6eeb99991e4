// Why a call is refused: each cause has one number, and the numbers stand in the order of the causes.

ghost use Rattle.std.specs.Prelude.{◌≡◌};
ghost use Rattle.cells.specs.Causes.{number_of};

// The causes of both engines.
#[derive(Clone, Copy, PartialEq, Eq)]
pub enum Refusal {
    // Set-up: no cell, or more than 4,096.
    BadSize = 1,
    // Set-up of a queue: an arity that is not 2 to 8.
    BadArity = 2,
    // Arm, move: a deadline at or below the clock.
    NotAfter = 3,
    // Advance: a target below the clock.
    Behind = 4,
    // A start, a deadline or a target above the last tick.
    Beyond = 5,
    // Arm, put: no free cell.
    Full = 6,
    // The handle names nothing.
    Stale = 7,
    // The counter is spent.
    Spent = 8,
    // Head and memory do not pass the audit.
    Unsound = 9,
    // First, take: the queue is empty.
    Empty = 10,
}

impl From<Refusal> for u64 {
    ghost from_gives = { λ refusal number. number ≡ number_of refusal };

    fn from(refusal: Refusal) -> u64 {
        refusal as u64
    }
}
