// The calls themselves, over lent words and arrays and the head's numbers: nothing here copies an array.
// Memory that was never audited may hold anything; an advance whose turns run out there is refused as unsound.

ghost use Rattle.std.specs.Prelude.{ℕ, List, ◌≡◌};
ghost use Rattle.meaning.specs.Calls.{Arm, Move, Cancel, NextWake};
ghost use Rattle.slots.specs.Held.{same_slices};
ghost use Rattle.dial.specs.Lent.{lists_of, lists_in};
ghost use Rattle.wheel.specs.Answers.{told_arm, told_move, told_cancel, wakes_at};
ghost use Rattle.wheel.specs.Promise.{Promise, Advances};
ghost use Rattle.wheel.specs.Refiled.{timely, refiled_lists, ended_answer};

use crate::head::{Advanced, Dial};
use cells::refusal::Refusal;
use cells::store::Handle;
use cells::words::{get, put};
use dial::lists::{join_at, leave_at, list_of};
use dial::state::{HowEnded, Turn, TurnsEnded};
use dial::turns::advance_turns;
use places::wake_tick;
use slots::slots::{Lists, first_marked};

// Whether a timer may get this deadline: refused above the last tick, and at or below the clock.
#[tactic(auto, unfolding(crate::specs::Refiled::timely, places::specs::Ticks::last_tick))]
fn in_time(clock: u64, deadline: u64) -> Result<(), Refusal>
    ensures { result ≡ timely clock deadline }
{
    if deadline > 68719476735 {
        return Err(Refusal::Beyond);
    }
    if deadline <= clock {
        return Err(Refusal::NotAfter);
    }
    Ok(())
}

// Arms a timer: refused above the last tick, at or below the clock, where no cell is free, and once the counter is spent.
pub fn arm(lists: &mut Lists, d: &mut Dial, deadline: u64, load: u64) -> Result<Handle, Refusal>
    ensures slices { same_slices lists.old lists.new }
    ensures promise { Promise (Arm deadline load) (lists_in lists.old d.old.due) d.old (told_arm result)
        (lists_in lists.new d.new.due) d.new }
{
    in_time(d.clock, deadline)?;
    let at = d.store.claim(lists.words, deadline, load)?;
    d.due = join_at(lists, d.due, list_of(d.clock, deadline), at.cell);
    Ok(at)
}

// Cancels the timer that the handle names, and hands its load back: refused as stale where it names none.
pub fn cancel(lists: &mut Lists, d: &mut Dial, at: Handle) -> Result<u64, Refusal>
    ensures slices { same_slices lists.old lists.new }
    ensures promise { Promise (Cancel at.cell at.ticket) (lists_in lists.old d.old.due) d.old (told_cancel result)
        (lists_in lists.new d.new.due) d.new }
{
    let words = &mut *lists.words;
    if !d.store.names(words, at) {
        return Err(Refusal::Stale);
    }
    let load = get(words, at.cell, 3);
    let i = list_of(d.clock, get(words, at.cell, 2));
    d.due = leave_at(lists, d.due, i, at.cell);
    d.store.release(lists.words, at.cell);
    Ok(load)
}

// Cell c leaves its list for that of another deadline, with a fresh order number.
#[tactic(auto, unfolding(crate::specs::Refiled::refiled_lists, dial::specs::Turns::with_words))]
fn refile(lists: &mut Lists, d: &mut Dial, c: u64, order: u64, deadline: u64)
    ensures slices { same_slices lists.old lists.new }
    ensures lists { lists_in lists.new d.new.due
        ≡ refiled_lists (lists_in lists.old d.old.due) d.old.clock c order deadline }
    ensures clock { d.new.clock ≡ d.old.clock }
    ensures store { d.new.store ≡ d.old.store }
{
    let words = &mut *lists.words;
    let i = list_of(d.clock, get(words, c, 2));
    let left = leave_at(lists, d.due, i, c);
    put(lists.words, c, 1, order);
    put(lists.words, c, 2, deadline);
    d.due = join_at(lists, left, list_of(d.clock, deadline), c);
}

// Moves the timer that the handle names: refused as stale where it names none, then above the last tick, at or below the clock,
// and once the counter is spent.
pub fn move_to(lists: &mut Lists, d: &mut Dial, at: Handle, deadline: u64) -> Result<(), Refusal>
    ensures slices { same_slices lists.old lists.new }
    ensures promise { Promise (Move at.cell at.ticket deadline) (lists_in lists.old d.old.due) d.old (told_move result)
        (lists_in lists.new d.new.due) d.new }
{
    let words = &mut *lists.words;
    if !d.store.names(words, at) {
        return Err(Refusal::Stale);
    }
    in_time(d.clock, deadline)?;
    let order = d.store.draw()?;
    refile(lists, d, at.cell, order, deadline);
    Ok(())
}

// When something is to be done next: the clock where something is due, else the first wake tick, if there is one.
pub fn next_wake(marks: &[u64], d: &Dial) -> Option<u64>
    ensures { (w first last : List ℕ) → Promise NextWake (lists_of w first last marks.now d.now.due) d.now (wakes_at result)
        (lists_of w first last marks.now d.now.due) d.now }
{
    if d.due.first != 4096 {
        return Some(d.clock);
    }
    let i = first_marked(marks)?;
    Some(wake_tick(d.clock, i / 64, i % 64))
}

// What an advance answers at its end.
#[tactic(auto, unfolding(crate::specs::Refiled::ended_answer, crate::specs::Refiled::ended_with))]
fn told(ended: TurnsEnded) -> Result<Advanced, Refusal>
    ensures { result ≡ ended_answer ended }
{
    let Turn { dial, fired, moves } = ended.turn;
    match ended.ending {
        Some(HowEnded::Done) => Ok(Advanced::Done {
            fired,
            clock: dial.clock,
            moves,
        }),
        Some(HowEnded::More) => Ok(Advanced::More {
            fired,
            clock: dial.clock,
            moves,
        }),
        None => Err(Refusal::Unsound),
    }
}

// Advances the clock to the target, or to where the output is full and more is due: refused above the last tick, and below the clock.
pub fn advance(
    lists: &mut Lists,
    d: &mut Dial,
    target: u64,
    out: &mut [u64],
) -> Result<Advanced, Refusal>
    ensures slices { same_slices lists.old lists.new }
    ensures promise { Advances target (lists_in lists.old d.old.due) d.old out.old result
        (lists_in lists.new d.new.due) d.new out.new }
{
    if target > 68719476735 {
        return Err(Refusal::Beyond);
    }
    if target < d.clock {
        return Err(Refusal::Behind);
    }
    let start = Turn {
        dial: *d,
        fired: 0,
        moves: 0,
    };
    let ended = advance_turns(lists, out, start, target);
    *d = ended.turn.dial;
    told(ended)
}
