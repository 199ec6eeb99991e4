// The quick calls: they audit nothing. On audited state they answer as the checked calls do; on any other they stay in bounds and end.
// Each lends the head's parts to the call in place.
#![tactic(auto, unfolding(crate::specs::Promise::head_lists))]

ghost use Rattle.std.specs.Prelude.{ℕ, List, ◌≡◌};
ghost use Rattle.meaning.specs.Calls.{Arm, Move, Cancel, NextWake};
ghost use Rattle.slots.specs.Held.{same_slices};
ghost use Rattle.dial.specs.Lent.{lists_in};
ghost use Rattle.wheel.specs.Answers.{told_arm, told_move, told_cancel, wakes_at};
ghost use Rattle.wheel.specs.Promise.{head_lists, Promise, Advances};

use crate::head::{Advanced, Dial, Head};
use crate::in_place;
use cells::refusal::Refusal;
use cells::store::Handle;
use slots::slots::Lists;

// Lends the words and the head's parts to a call in place, which leaves the slices what they are.
fn in_lists<T, F: FnOnce(&mut Lists, &mut Dial) -> T>(w: &mut [u64], h: &mut Head, call: F) -> T
    requires callable { F.IsAlwaysCallable call }
    requires slices { (l : _) (d : _) (r : _) (m : _) (e : _) → F.post call l d r m e → same_slices l.now m.now }
    ensures { (l : _) × (d : _) × (m : _) × (e : _) × F.post call l d result m e × (lists_in l.now d.now.due ≡ head_lists h.old w.old)
        × (d.now ≡ h.old.dial) × (lists_in m.now e.now.due ≡ head_lists h.new w.new) × (e.now ≡ h.new.dial) }
{
    let mut lists = Lists {
        words: w,
        first: &mut h.first[..],
        last: &mut h.last[..],
        marks: &mut h.marks[..],
    };
    call(&mut lists, &mut h.dial)
}

// Arms a timer.
pub fn arm(w: &mut [u64], h: &mut Head, deadline: u64, load: u64) -> Result<Handle, Refusal>
    ensures { Promise (Arm deadline load) (head_lists h.old w.old) h.old.dial (told_arm result) (head_lists h.new w.new) h.new.dial }
{
    in_lists(
        w,
        h,
        |lists, dial| in_place::arm(lists, dial, deadline, load),
    )
}

// Moves the timer that the handle names.
pub fn move_to(w: &mut [u64], h: &mut Head, at: Handle, deadline: u64) -> Result<(), Refusal>
    ensures { Promise (Move at.cell at.ticket deadline) (head_lists h.old w.old) h.old.dial (told_move result)
        (head_lists h.new w.new) h.new.dial }
{
    in_lists(
        w,
        h,
        |lists, dial| in_place::move_to(lists, dial, at, deadline),
    )
}

// Cancels the timer that the handle names.
pub fn cancel(w: &mut [u64], h: &mut Head, at: Handle) -> Result<u64, Refusal>
    ensures { Promise (Cancel at.cell at.ticket) (head_lists h.old w.old) h.old.dial (told_cancel result)
        (head_lists h.new w.new) h.new.dial }
{
    in_lists(w, h, |lists, dial| in_place::cancel(lists, dial, at))
}

// Says when something is to be done next.
pub fn next_wake(h: &Head) -> Option<u64>
    ensures { (w : List ℕ) → Promise NextWake (head_lists h.now w) h.now.dial (wakes_at result) (head_lists h.now w) h.now.dial }
{
    in_place::next_wake(&h.marks, &h.dial)
}

// Advances the clock, and writes what fires into the lent output. Not by `in_lists`, which was tried: what a closure leaves behind the
// output that it captures is not known after its call.
pub fn advance(
    w: &mut [u64],
    h: &mut Head,
    target: u64,
    out: &mut [u64],
) -> Result<Advanced, Refusal>
    ensures { Advances target (head_lists h.old w.old) h.old.dial out.old result (head_lists h.new w.new) h.new.dial out.new }
{
    let mut lists = Lists {
        words: w,
        first: &mut h.first[..],
        last: &mut h.last[..],
        marks: &mut h.marks[..],
    };
    in_place::advance(&mut lists, &mut h.dial, target, out)
}
