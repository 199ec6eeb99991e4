// An advance in lent words: what is due is handed out, the next wake tick is entered, and so on. Where a wake tick is entered its slot is
// emptied, and each of its cells goes to the list of its deadline. What the private functions require of the moves is about their own turn;
// `advance_turns` tests it. A slice of the lists is read through a reborrow of its own: only so is
// it known that the read leaves it as it was.

ghost use Rattle.std.specs.Prelude.{ℕ, ◌+◌, ◌≤◌, ◌<◌, cond, List, ◌≡◌, eqb};
ghost use Rattle.slots.specs.Stand.{due_list};
ghost use Rattle.slots.specs.Held.{same_slices};
ghost use Rattle.dial.specs.Turns.{refile as refile_of, walk as walk_of, enter as enter_of, turns as turns_of, turns_for};
ghost use Rattle.dial.specs.Lent.{state_in, ended_in, onward as onward_of, once as once_of, advance_turns};

use crate::firing::hand_out;
use crate::lists::{join_at, list_of};
use crate::state::{Dial, HowEnded, Turn, TurnsEnded, at_clock};
use cells::words::get;
use places::wake_tick;
use slots::slots::{Lists, first_marked};

// Going to the due list is no move.
fn counted(moves: u64, i: u64) -> u64
    requires { moves < 18446744073709551615 }
    ensures { result ≡ moves + cond (eqb i due_list) 0 1 }
{
    if i == 384 {
        return moves;
    }
    moves + 1
}

// Cell c goes to the list of its deadline.
#[tactic(auto, unfolding(crate::specs::Turns::refile))]
fn refile(lists: &mut Lists, t: Turn, c: u64) -> Turn
    requires { t.moves < 18446744073709551615 }
    ensures slices { same_slices lists.old lists.new }
    ensures state { (out : List ℕ) → state_in lists.new out result ≡ refile_of c (state_in lists.old out t) }
{
    let words = &mut *lists.words;
    let i = list_of(t.dial.clock, get(words, c, 2));
    Turn {
        dial: Dial {
            due: join_at(lists, t.dial.due, i, c),
            ..t.dial
        },
        moves: counted(t.moves, i),
        ..t
    }
}

// The slot whose first cell is c is walked, for at most as many cells as there are.
fn walk(lists: &mut Lists, t: Turn, c: u64) -> Turn
    requires { t.moves + t.dial.store.cells < 18446744073709551615 }
    ensures slices { same_slices lists.old lists.new }
    ensures state { (out : List ℕ) → state_in lists.new out result ≡ walk_of t.dial.store.cells c (state_in lists.old out t) }
{
    let mut turn = t;
    let mut at = c;
    for _ in 0..t.dial.store.cells {
        if at == 4096 {
            return turn;
        }
        let words = &mut *lists.words;
        let next = get(words, at, 4);
        turn = refile(lists, turn, at);
        at = next;
    }
    turn
}

// Wake tick tick of slot i is entered: the slot is emptied, and walked. Its first cell is not the answer of `empty_slot`: that is 4096 where
// one of the arrays is too short for slot i, and the definition `enter` reads the ends also there.
fn enter(lists: &mut Lists, t: Turn, tick: u64, i: u64) -> Turn
    requires { (i < due_list) × (t.moves + t.dial.store.cells < 18446744073709551615) }
    ensures slices { same_slices lists.old lists.new }
    ensures state { (out : List ℕ) → state_in lists.new out result ≡ enter_of tick i (state_in lists.old out t) }
{
    let e = lists.ends(i);
    lists.empty_slot(i);
    walk(lists, at_clock(t, tick), e.first)
}

// Nothing is due: the next wake tick is entered, or none is left up to the target.
fn onward(lists: &mut Lists, t: Turn, target: u64) -> TurnsEnded
    requires { t.moves + t.dial.store.cells < 18446744073709551615 }
    ensures slices { same_slices lists.old lists.new }
    ensures ended { (out : List ℕ) → ended_in lists.new out result ≡ onward_of target (state_in lists.old out t) }
{
    let marks = &mut *lists.marks;
    if let Some(i) = first_marked(marks) {
        let tick = wake_tick(t.dial.clock, i / 64, i % 64);
        if tick <= target {
            return TurnsEnded {
                turn: enter(lists, t, tick, i),
                ending: None,
            };
        }
    }
    TurnsEnded {
        turn: at_clock(t, target),
        ending: Some(HowEnded::Done),
    }
}

// One turn.
fn once(lists: &mut Lists, out: &mut [u64], t: Turn, target: u64) -> TurnsEnded
    requires { t.moves + t.dial.store.cells < 18446744073709551615 }
    ensures slices { same_slices lists.old lists.new }
    ensures ended { ended_in lists.new out.new result ≡ once_of target (state_in lists.old out.old t) }
{
    let handed = hand_out(lists.words, out, t);
    if handed.dial.due.first == 4096 {
        return onward(lists, handed, target);
    }
    TurnsEnded {
        turn: handed,
        ending: Some(HowEnded::More),
    }
}

// As many turns as can be needed.
fn run(lists: &mut Lists, out: &mut [u64], t: Turn, target: u64) -> TurnsEnded
    requires { (t.dial.store.cells ≤ 4096) × (t.moves ≤ 4294967295) }
    ensures slices { same_slices lists.old lists.new }
    ensures ended { ended_in lists.new out.new result
        ≡ turns_of (turns_for (state_in lists.old out.old t)) target
        (state_in lists.old out.old t) }
{
    let mut turn = t;
    for _ in 0..t.dial.store.cells * 6 + 1 {
        let ended = once(lists, out, turn, target);
        if ended.ending.is_some() {
            return ended;
        }
        turn = ended.turn;
    }
    TurnsEnded { turn, ending: None }
}

// An advance to a target. Nothing is done where the numbers are out of bounds.
#[tactic(auto, unfolding(crate::specs::Lent::advance_turns, crate::specs::Lent::countable, crate::specs::Lent::ending_of))]
pub fn advance_turns(lists: &mut Lists, out: &mut [u64], t: Turn, target: u64) -> TurnsEnded
    ensures slices { same_slices lists.old lists.new }
    ensures ended { ended_in lists.new out.new result ≡ advance_turns target (state_in lists.old out.old t) }
{
    if t.dial.store.cells > 4096 || t.moves > 4294967295 {
        return TurnsEnded {
            turn: t,
            ending: None,
        };
    }
    run(lists, out, t, target)
}
