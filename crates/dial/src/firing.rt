// What is due is handed out: a record of four words for each entry, behind those before it, and its cell is freed.

ghost use Rattle.std.specs.Prelude.{ℕ, ◌/◌, ◌≤◌, ◌<◌, List, ◌∷◌, ◌≡◌, length, drop};
ghost use Rattle.cells.specs.Words.{word};
ghost use Rattle.dial.specs.Turns.{recorded, fire as fire_of};
ghost use Rattle.dial.specs.Lent.{state_of, handed_out};

use crate::state::{Dial, Turn};
use cells::words::get;
use slots::ring::leave;

// Writes a record at the start of what is left of the output.
fn fill_record(rest: &mut [u64], c: u64, k: u64, e: u64, x: u64)
    requires { 4 ≤ length rest.old }
    ensures { rest.new ≡ c ∷ k ∷ e ∷ x ∷ drop 4 rest.old }
{
    rest[..4].copy_from_slice(&[c, k, e, x]);
}

// Writes the record of the entry in cell c behind n records.
fn add_record(w: &[u64], out: &mut [u64], n: u64, c: u64)
    requires { n < length out.old / 4 }
    ensures { out.new
        ≡ recorded out.old n c (word w.now c 0) (word w.now c 2) (word w.now c 3) }
{
    let k = get(w, c, 0);
    let e = get(w, c, 2);
    let x = get(w, c, 3);
    fill_record(&mut out[(n * 4) as usize..], c, k, e, x);
}

// The first of the due list is handed out and freed.
#[tactic(auto, unfolding(crate::specs::Turns::fire, crate::specs::Turns::with_words, slots::specs::Rings::leave_due, slots::specs::Rings::with_due))]
fn fire(w: &mut [u64], out: &mut [u64], t: Turn) -> Turn
    requires { t.fired < length out.old / 4 }
    ensures { (first last marks : List ℕ) → state_of w.new first last marks out.new result
        ≡ fire_of (state_of w.old first last marks out.old t) }
{
    let c = t.dial.due.first;
    add_record(w, out, t.fired, c);
    let due = leave(w, t.dial.due, c);
    let mut store = t.dial.store;
    store.release(w, c);
    Turn {
        dial: Dial {
            due,
            store,
            ..t.dial
        },
        fired: t.fired + 1,
        ..t
    }
}

// All that is due is handed out, as far as there is room. No range: what is counted are the records, and `fire` counts them.
pub fn hand_out(w: &mut [u64], out: &mut [u64], t: Turn) -> Turn
    ensures { (first last marks : List ℕ) → state_of w.new first last marks out.new result
        ≡ handed_out (state_of w.old first last marks out.old t) }
{
    let room = (out.len() / 4) as u64;
    let mut turn = t;
    while turn.fired < room && turn.dial.due.first != 4096 {
        turn = fire(w, out, turn);
    }
    turn
}
