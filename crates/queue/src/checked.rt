// The checked calls: each audits first, and refuses as unsound what breaks the written rules.

ghost use Rattle.std.specs.Prelude.{◌≡◌, ◌↔◌, IsOk, IfErr};
ghost use Rattle.meaning.specs.Calls.{Put, First, Take, Rekey, Remove};
ghost use Rattle.queue.specs.Answers.{told_put, told_first, told_take, told_rekey, told_remove};
ghost use Rattle.queue.specs.Promise.{Checked};
ghost use Rattle.queue.specs.Rules.{QueueSound};

use crate::audit::audit;
use crate::head::{Entered, Found, Head, Removed, Taken};
use crate::quick;
use cells::refusal::Refusal;
use cells::store::Handle;

// Passes what keeps to the written rules. The wheel's `audited` asks another head of other rules.
fn sound(w: &[u64], h: &Head) -> Result<(), Refusal>
    ensures passed { IsOk result ↔ QueueSound w.now h.now }
    ensures refused { IfErr result (λ cause. cause ≡ Refusal.Unsound) }
{
    if audit(w, h) {
        Ok(())
    } else {
        Err(Refusal::Unsound)
    }
}

// Puts an entry in.
pub fn put(w: &mut [u64], h: &mut Head, key: u64, load: u64) -> Result<Entered, Refusal>
    ensures { Checked (Put key load) h.old w.old (told_put result) h.new w.new }
{
    sound(w, h)?;
    quick::put(w, h, key, load)
}

// Looks at the entry before all others.
pub fn first(w: &[u64], h: &Head) -> Result<Found, Refusal>
    ensures { Checked First h.now w.now (told_first result) h.now w.now }
{
    sound(w, h)?;
    quick::first(w, h)
}

// Takes the entry before all others out.
pub fn take(w: &mut [u64], h: &mut Head) -> Result<Taken, Refusal>
    ensures { Checked Take h.old w.old (told_take result) h.new w.new }
{
    sound(w, h)?;
    quick::take(w, h)
}

// Gives the entry that the handle names another key.
pub fn rekey(w: &mut [u64], h: &mut Head, at: Handle, key: u64) -> Result<u64, Refusal>
    ensures { Checked (Rekey at.cell at.ticket key) h.old w.old (told_rekey result) h.new w.new }
{
    sound(w, h)?;
    quick::rekey(w, h, at, key)
}

// Takes the entry that the handle names out.
pub fn remove(w: &mut [u64], h: &mut Head, at: Handle) -> Result<Removed, Refusal>
    ensures { Checked (Remove at.cell at.ticket) h.old w.old (told_remove result) h.new w.new }
{
    sound(w, h)?;
    quick::remove(w, h, at)
}
