// The checked calls: each audits first, and refuses as unsound what breaks the written rules.

ghost use Rattle.std.specs.Prelude.{◌≡◌, Ok};
ghost use Rattle.meaning.specs.Calls.{Arm, Move, Cancel, NextWake};
ghost use Rattle.wheel.specs.Answers.{told_arm, told_move, told_cancel, told_wake};
ghost use Rattle.wheel.specs.Promise.{Checked, CheckedAdvance, Audited};

use crate::audit::audit;
use crate::head::{Advanced, Head};
use crate::quick;
use cells::refusal::Refusal;
use cells::store::Handle;

// Audits before a call. The queue's `sound` asks another head of other rules.
fn audited(w: &[u64], h: &Head) -> Result<(), Refusal>
    ensures { Audited h.now w.now result }
{
    if !audit(w, h) {
        return Err(Refusal::Unsound);
    }
    Ok(())
}

// Arms a timer.
pub fn arm(w: &mut [u64], h: &mut Head, deadline: u64, load: u64) -> Result<Handle, Refusal>
    ensures { Checked (Arm deadline load) h.old w.old (told_arm result) h.new w.new }
{
    audited(w, h)?;
    quick::arm(w, h, deadline, load)
}

// Moves the timer that the handle names.
pub fn move_to(w: &mut [u64], h: &mut Head, at: Handle, deadline: u64) -> Result<(), Refusal>
    ensures { Checked (Move at.cell at.ticket deadline) h.old w.old (told_move result) h.new w.new }
{
    audited(w, h)?;
    quick::move_to(w, h, at, deadline)
}

// Cancels the timer that the handle names.
pub fn cancel(w: &mut [u64], h: &mut Head, at: Handle) -> Result<u64, Refusal>
    ensures { Checked (Cancel at.cell at.ticket) h.old w.old (told_cancel result) h.new w.new }
{
    audited(w, h)?;
    quick::cancel(w, h, at)
}

// Says when something is to be done next.
pub fn next_wake(w: &[u64], h: &Head) -> Result<Option<u64>, Refusal>
    ensures { Checked NextWake h.now w.now (told_wake result) h.now w.now }
{
    audited(w, h)?;
    Ok(quick::next_wake(h))
}

// Advances the clock, and writes what fires into the lent output.
pub fn advance(
    w: &mut [u64],
    h: &mut Head,
    target: u64,
    out: &mut [u64],
) -> Result<Advanced, Refusal>
    ensures { CheckedAdvance target h.old w.old out.old result h.new w.new out.new }
{
    audited(w, h)?;
    quick::advance(w, h, target, out)
}
