// The slots' lists, by number: their ends in two arrays of 16 bits, and a mark for each slot whose list is not empty, 64 to a word. Total:
// where there is no slot i nothing is done.

ghost use Rattle.std.specs.Prelude.{◌/◌, ◌%◌, ◌<◌, cond, [], ◌≡◌, eqb, length, get_or, set};
ghost use Rattle.cells.specs.Stack.{no_cell};
ghost use Rattle.slots.specs.Rings.{
  is_marked,
  marked,
  unmarked,
  lent,
  has_slot,
  ends_of,
  join_slot,
  leave_slot,
  empty_slot,
  first_cell,
  scan,
  first_marked,
  slot_found,
};
ghost use Rattle.slots.specs.Held.{held, same_slices};

use crate::ring::{Ends, join, leave};

// The cell at i, 4096 behind the end.
fn end_at(ends: &[u16], i: u64) -> u64
    ensures { result ≡ get_or ends.now i no_cell }
{
    match ends.get(i as usize) {
        Some(&cell) => u64::from(cell),
        None => 4096,
    }
}

// The ends of slot i.
#[tactic(auto, unfolding(crate::specs::Rings::ends_of))]
pub fn ends_of(first: &[u16], last: &[u16], i: u64) -> Ends
    ensures { result ≡ ends_of (lent [] first.now last.now []) i }
{
    Ends {
        first: end_at(first, i),
        last: end_at(last, i),
    }
}

// Writes the ends of slot i. No TryFrom: what is no cell's number is cut to 16 bits, as `with_ring` has it.
fn set_ends(first: &mut [u16], last: &mut [u16], i: u64, e: Ends)
    requires { (i < length first.old) × (i < length last.old) }
    ensures first { first.new ≡ set first.old i (e.first % 65536) }
    ensures last { last.new ≡ set last.old i (e.last % 65536) }
{
    first[i as usize] = (e.first % 65536) as u16;
    last[i as usize] = (e.last % 65536) as u16;
}

// The number m with 1 for its digit s.
fn with_mark(m: u64, s: u64) -> u64
    requires { s < 64 }
    ensures { result ≡ marked m s }
{
    m | (1 << s)
}

// The number m with 0 for its digit s.
fn without_mark(m: u64, s: u64) -> u64
    requires { s < 64 }
    ensures { result ≡ unmarked m s }
{
    m & !(1 << s)
}

// Marks slot i.
fn set_mark(marks: &mut [u64], i: u64)
    requires { i / 64 < length marks.old }
    ensures { marks.new ≡ set marks.old (i / 64) (marked (get_or marks.old (i / 64) 0) (i % 64)) }
{
    let p = (i / 64) as usize;
    marks[p] = with_mark(marks[p], i % 64);
}

// Takes the mark from slot i.
fn clear_mark(marks: &mut [u64], i: u64)
    requires { i / 64 < length marks.old }
    ensures { marks.new ≡ set marks.old (i / 64) (unmarked (get_or marks.old (i / 64) 0) (i % 64)) }
{
    let p = (i / 64) as usize;
    marks[p] = without_mark(marks[p], i % 64);
}

// Takes the mark from slot i if its first cell is none.
fn clear_empty(marks: &mut [u64], i: u64, first: u64)
    requires { i / 64 < length marks.old }
    ensures { marks.new
        ≡ set marks.old (i / 64)
        (cond (eqb first no_cell) (unmarked (get_or marks.old (i / 64) 0) (i % 64)) (get_or marks.old (i / 64) 0)) }
{
    if first == 4096 {
        clear_mark(marks, i);
    }
}

// The marks of level p, none behind the last.
pub fn marks_at(marks: &[u64], p: u64) -> u64
    ensures { result ≡ get_or marks.now p 0 }
{
    marks.get(p as usize).copied().unwrap_or(0)
}

// The lowest digit 1 of x.
fn lowest(x: u64) -> u64
    requires { 0 < x }
    ensures value { result ≡ scan (is_marked x) 64 0 }
    ensures small { result < 64 }
{
    u64::from(x.trailing_zeros())
}

// The first marked slot, if one is.
pub fn first_marked(marks: &[u64]) -> Option<u64>
    ensures { result ≡ slot_found (first_marked marks.now) }
{
    for p in 0..6 {
        let m = marks_at(marks, p);
        if m > 0 {
            return Some(p * 64 + lowest(m));
        }
    }
    None
}

// All lists of the slots in lent slices: the cells' words, the first and the last cell of each slot, and a word of marks for each level.
// Arrays beside each other and cells by number, since so a wheel's memory is lent, without a heap. Each contract over them says
// `same_slices`, since no type can say that a lent slice is still the one that was lent.
#[derive(Drop)]
pub struct Lists<'a> {
    pub words: &'a mut [u64],
    pub first: &'a mut [u16],
    pub last: &'a mut [u16],
    pub marks: &'a mut [u64],
}

impl Lists<'_> {
    // Whether there are arrays for slot i.
    #[tactic(auto, unfolding(crate::specs::Rings::has_slot))]
    fn has_slot(&self, i: u64) -> bool
        ensures { result ≡ has_slot (held self.now) i }
    {
        (i as usize) < self.first.len()
            && (i as usize) < self.last.len()
            && ((i / 64) as usize) < self.marks.len()
    }

    // The ends of slot i.
    #[tactic(auto, unfolding(crate::specs::Rings::ends_of))]
    pub fn ends(&self, i: u64) -> Ends
        ensures { result ≡ ends_of (held self.now) i }
    {
        ends_of(self.first, self.last, i)
    }

    // Cell c joins slot i at the tail, and the slot is marked. Not one with `leave_slot`: only the ends are set alike, by `set_ends`; what
    // the list does and what becomes of the mark differ.
    #[tactic(auto, unfolding(crate::specs::Rings::join_slot, crate::specs::Rings::has_slot, crate::specs::Rings::ends_of, crate::specs::Rings::with_ring))]
    pub fn join_slot(&mut self, i: u64, c: u64)
        ensures slices { same_slices self.old self.new }
        ensures lists { held self.new ≡ join_slot (held self.old) i c }
    {
        if self.has_slot(i) {
            let before = self.ends(i);
            let e = join(self.words, before, c);
            set_ends(self.first, self.last, i, e);
            set_mark(self.marks, i);
        }
    }

    // Cell c leaves slot i; the mark goes with the last cell.
    #[tactic(auto, unfolding(crate::specs::Rings::leave_slot, crate::specs::Rings::has_slot, crate::specs::Rings::ends_of, crate::specs::Rings::with_ring))]
    pub fn leave_slot(&mut self, i: u64, c: u64)
        ensures slices { same_slices self.old self.new }
        ensures lists { held self.new ≡ leave_slot (held self.old) i c }
    {
        if self.has_slot(i) {
            let before = self.ends(i);
            let e = leave(self.words, before, c);
            set_ends(self.first, self.last, i, e);
            clear_empty(self.marks, i, e.first);
        }
    }

    // Empties slot i, whose cells keep their words, and says which was its first.
    #[tactic(auto, unfolding(crate::specs::Rings::empty_slot, crate::specs::Rings::has_slot, crate::specs::Rings::ends_of, crate::specs::Rings::with_ring, crate::specs::Rings::first_cell))]
    pub fn empty_slot(&mut self, i: u64) -> u64
        ensures slices { same_slices self.old self.new }
        ensures lists { held self.new ≡ empty_slot (held self.old) i }
        ensures cell { result ≡ first_cell (held self.old) i }
    {
        if self.has_slot(i) {
            let e = self.ends(i);
            set_ends(
                self.first,
                self.last,
                i,
                Ends {
                    first: 4096,
                    last: 4096,
                },
            );
            clear_mark(self.marks, i);
            return e.first;
        }
        4096
    }
}
