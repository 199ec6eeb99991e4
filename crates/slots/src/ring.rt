// One list of cells, linked both ways: word 4 is the next cell, word 5 the one before. No cell, 4096, stands for the list itself: what
// follows it is the first cell, what precedes it the last. So front, middle, back and only cell are one case.

ghost use Rattle.std.specs.Prelude.{cond, ◌≡◌, eqb};
ghost use Rattle.cells.specs.Stack.{no_cell};
ghost use Rattle.cells.specs.Words.{put_word};
ghost use Rattle.slots.specs.Rings.{relinked, joined, left};

use cells::words::{get, put};

// The first and the last cell, 4096 for both where the list is empty. No Option: so they stand in the lent words and in the wheel's head.
#[derive(Clone, Copy)]
pub struct Ends {
    pub first: u64,
    pub last: u64,
}

// Lets d stand beside c, on the side that word f tells, and says which cell is the list's own end on that side, where `end` was.
fn link(w: &mut [u64], end: u64, f: u64, c: u64, d: u64) -> u64
    ensures words { w.new ≡ cond (eqb c no_cell) w.old (put_word w.old c f d) }
    ensures end { result ≡ cond (eqb c no_cell) d end }
{
    if c == 4096 {
        return d;
    }
    put(w, c, f, d);
    end
}

// Lets b follow a.
#[tactic(auto, unfolding(crate::specs::Rings::relinked))]
fn relink(w: &mut [u64], e: Ends, a: u64, b: u64) -> Ends
    ensures words { w.new ≡ (relinked w.old e a b).words }
    ensures ends { result ≡ (relinked w.old e a b).ends }
{
    let first = link(w, e.first, 4, a, b);
    let last = link(w, e.last, 5, b, a);
    Ends { first, last }
}

// Cell c joins at the tail.
#[tactic(auto, unfolding(crate::specs::Rings::joined))]
pub fn join(w: &mut [u64], e: Ends, c: u64) -> Ends
    ensures words { w.new ≡ (joined w.old e c).words }
    ensures ends { result ≡ (joined w.old e c).ends }
{
    let behind = relink(w, e, e.last, c);
    relink(w, behind, c, 4096)
}

// Cell c leaves the list, wherever it stands in it. Its own words stay.
#[tactic(auto, unfolding(crate::specs::Rings::left))]
pub fn leave(w: &mut [u64], e: Ends, c: u64) -> Ends
    ensures words { w.new ≡ (left w.old e c).words }
    ensures ends { result ≡ (left w.old e c).ends }
{
    let before = get(w, c, 5);
    let after = get(w, c, 4);
    relink(w, e, before, after)
}
