// Reading and writing of lent slices, and answers as plain numbers.

ghost use Rattle.std.specs.Prelude.{◌≡◌, ◌++◌, cond, eqb, length, min, take, drop};

use cells::refusal::Refusal;

// An answer as C reads it, six plain numbers: its kind, 0 where it is refused, and its data; the number of a refusal is the first.
#[derive(Clone, Copy)]
pub struct Told {
    pub kind: u64,
    pub a: u64,
    pub b: u64,
    pub c: u64,
    pub d: u64,
    pub e: u64,
}

// An answer of at most three numbers.
pub fn answer(kind: u64, a: u64, b: u64, c: u64) -> Told {
    Told {
        kind,
        a,
        b,
        c,
        d: 0,
        e: 0,
    }
}

// A refusal by its number.
pub fn refused(i: u64) -> Told {
    answer(0, i, 0, 0)
}

impl From<Refusal> for Told {
    fn from(why: Refusal) -> Told {
        refused(u64::from(why))
    }
}

// A set-up, and a wheel's move: no number.
impl From<()> for Told {
    fn from(_done: ()) -> Told {
        answer(1, 0, 0, 0)
    }
}

// A wheel's cancel: the load. A queue's rekey: the moves.
impl From<u64> for Told {
    fn from(number: u64) -> Told {
        answer(1, number, 0, 0)
    }
}

// The answer of a call that may be refused.
impl<T: Into<Told>> From<Result<T, Refusal>> for Told {
    fn from(answer: Result<T, Refusal>) -> Told {
        match answer {
            Ok(x) => x.into(),
            Err(why) => Told::from(why),
        }
    }
}

// Word j, or 0 where there is none.
pub fn read(w: &[u64], j: usize) -> u64 {
    w.get(j).copied().unwrap_or(0)
}

// Writes numbers into the first words, as far as there are words for them. Where there are, their count is one that the compiler knows
// at each call, so that an answer goes there from registers: put side by side first and copied then, it takes longer than a short call.
#[inline(always)]
pub fn write_numbers(w: &mut [u64], numbers: &[u64])
    ensures { w.new
        ≡ take (min (length w.old) (length numbers.now)) numbers.now ++ drop (min (length w.old) (length numbers.now)) w.old }
{
    let n = w.len().min(numbers.len());
    if n == numbers.len() {
        w[..numbers.len()].copy_from_slice(numbers);
    } else {
        w[..n].copy_from_slice(&numbers[..n]);
    }
}

// Writes the six numbers of an answer.
pub fn write_six(w: &mut [u64], x: Told) {
    write_numbers(w, &[x.kind, x.a, x.b, x.c, x.d, x.e]);
}

// Copies all, where both are as long.
pub fn copy<T: Copy>(to: &mut [T], from: &[T])
    ensures { to.new ≡ cond (eqb (length to.old) (length from.now)) from.now to.old }
{
    if to.len() == from.len() {
        to.copy_from_slice(from);
    }
}
