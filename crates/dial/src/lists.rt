// A wheel's lists by number: 384 slots, level by level, and the due list as number 384. No enum: `list_of`, `join_at` and `Stand` of the
// specs count them.

ghost use Rattle.std.specs.Prelude.{◌≡◌};
ghost use Rattle.slots.specs.Stand.{join_at, leave_at};
ghost use Rattle.slots.specs.Held.{same_slices};
ghost use Rattle.dial.specs.Turns.{list_of};
ghost use Rattle.dial.specs.Lent.{lists_in};

use places::{level, slot};
use slots::ring::{Ends, join, leave};
use slots::slots::Lists;

// The number of the list in which an entry stands.
pub fn list_of(clock: u64, deadline: u64) -> u64
    ensures { result ≡ list_of clock deadline }
{
    if deadline == clock {
        return 384;
    }
    let p = level(clock, deadline);
    p * 64 + slot(deadline, p)
}

// Cell c joins list i at the tail, and says the ends of the due list then.
pub fn join_at(lists: &mut Lists, due: Ends, i: u64, c: u64) -> Ends
    ensures slices { same_slices lists.old lists.new }
    ensures lists { lists_in lists.new result ≡ join_at (lists_in lists.old due) i c }
{
    if i == 384 {
        return join(lists.words, due, c);
    }
    lists.join_slot(i, c);
    due
}

// Cell c leaves list i, and says the ends of the due list then. With `join_at` it shares the frame alone: a step that is handed in would need
// the contract of both.
pub fn leave_at(lists: &mut Lists, due: Ends, i: u64, c: u64) -> Ends
    ensures slices { same_slices lists.old lists.new }
    ensures lists { lists_in lists.new result ≡ leave_at (lists_in lists.old due) i c }
{
    if i == 384 {
        return leave(lists.words, due, c);
    }
    lists.leave_slot(i, c);
    due
}
