// The quick calls: they audit nothing. On audited state they answer as the checked calls do; on any other they stay in bounds and end.
// Memory that was never audited may hold anything: a head that no audit passes is refused as unsound where a sum could overflow.

ghost use Rattle.std.specs.Prelude.{◌≡◌};
ghost use Rattle.cells.specs.Words.{word, put_word};
ghost use Rattle.heap.specs.Seats.{resettle_walk};
ghost use Rattle.meaning.specs.Calls.{Put, First, Take, Rekey, Remove};
ghost use Rattle.queue.specs.Answers.{told_put, told_first, told_take, told_rekey, told_remove};
ghost use Rattle.queue.specs.Promise.{Promise};
ghost use Rattle.queue.specs.Cells.{found_in};

use crate::head::{Entered, Found, Head, Removed, Taken};
use cells::refusal::Refusal;
use cells::store::Handle;
use cells::words::{get, put as put_word};
use heap::seats::{enter, resettle, vacate};

// What the entry in cell c carries.
#[tactic(auto, unfolding(crate::specs::Cells::found_in))]
fn found(w: &[u64], c: u64) -> Found
    ensures { result ≡ found_in w.now c }
{
    Found {
        key: get(w, c, 2),
        at: Handle {
            cell: c,
            ticket: get(w, c, 0),
        },
        load: get(w, c, 3),
    }
}

// Puts an entry in, refused where no cell is free, then once the counter is spent.
pub fn put(w: &mut [u64], h: &mut Head, key: u64, load: u64) -> Result<Entered, Refusal>
    ensures { Promise (Put key load) h.old w.old (told_put result) h.new w.new }
{
    if h.count > 4096 {
        return Err(Refusal::Unsound);
    }
    let at = h.store.claim(w, key, load)?;
    let moves = enter(w, h.arity, h.count, at.cell);
    h.count += 1;
    Ok(Entered { at, moves })
}

// Looks at the entry before all others, refused where there is none.
pub fn first(w: &[u64], h: &Head) -> Result<Found, Refusal>
    ensures { Promise First h.now w.now (told_first result) h.now w.now }
{
    if h.count == 0 {
        return Err(Refusal::Empty);
    }
    Ok(found(w, get(w, 0, 6)))
}

// Takes the entry before all others out, refused where there is none.
pub fn take(w: &mut [u64], h: &mut Head) -> Result<Taken, Refusal>
    ensures { Promise Take h.old w.old (told_take result) h.new w.new }
{
    if h.count == 0 {
        return Err(Refusal::Empty);
    }
    let c = get(w, 0, 6);
    let found = found(w, c);
    let moves = vacate(w, h.arity, h.count, 0);
    h.store.release(w, c);
    h.count -= 1;
    Ok(Taken { found, moves })
}

// Gives the entry in cell c another key and order number, and says how many entries moved.
fn renumber(w: &mut [u64], h: &Head, c: u64, order: u64, key: u64) -> u64
    ensures words { w.new ≡ (resettle_walk h.now.arity h.now.count (word w.old c 5) c (put_word (put_word w.old c 1 order) c 2 key)).words }
    ensures steps { result ≡ (resettle_walk h.now.arity h.now.count (word w.old c 5) c (put_word (put_word w.old c 1 order) c 2 key)).steps }
{
    let p = get(w, c, 5);
    put_word(w, c, 1, order);
    put_word(w, c, 2, key);
    resettle(w, h.arity, h.count, p, c)
}

// Gives the entry that the handle names another key, and says how many entries moved: refused where it names none, then once the counter
// is spent.
pub fn rekey(w: &mut [u64], h: &mut Head, at: Handle, key: u64) -> Result<u64, Refusal>
    ensures { Promise (Rekey at.cell at.ticket key) h.old w.old (told_rekey result) h.new w.new }
{
    if !h.store.names(w, at) {
        return Err(Refusal::Stale);
    }
    let order = h.store.draw()?;
    Ok(renumber(w, h, at.cell, order, key))
}

// Takes the entry that the handle names out, refused where it names none.
pub fn remove(w: &mut [u64], h: &mut Head, at: Handle) -> Result<Removed, Refusal>
    ensures { Promise (Remove at.cell at.ticket) h.old w.old (told_remove result) h.new w.new }
{
    if !h.store.names(w, at) {
        return Err(Refusal::Stale);
    }
    if h.count == 0 {
        return Err(Refusal::Unsound);
    }
    let load = get(w, at.cell, 3);
    let moves = vacate(w, h.arity, h.count, get(w, at.cell, 5));
    h.store.release(w, at.cell);
    h.count -= 1;
    Ok(Removed { load, moves })
}
