// The cell store: set-up, the handle test, the counter, and the free stack. Total, so that nothing here has a `requires`.

ghost use Rattle.std.specs.Prelude.{◌≡◌, ◌/◌, ◌%◌};
ghost use Rattle.cells.specs.Store.{
  fresh_word,
  fresh_words,
  cells_answer,
  set_up_words,
  set_up_answer,
  holds_ticket,
  draw_answer,
  draw_store,
  claim_answer,
  claim_store,
  claim_words,
  entered,
  wiped,
  release_words,
  release_store,
};

use crate::refusal::Refusal;
use crate::words::{get, put};

// The number of cells, the top of the free stack or 4096 where it is empty, and the counter.
#[derive(Clone, Copy)]
pub struct Store {
    pub cells: u64,
    pub free: u64,
    pub counter: u64,
}

// What names an entry: its cell and its ticket.
#[derive(Clone, Copy, PartialEq, Eq)]
pub struct Handle {
    pub cell: u64,
    pub ticket: u64,
}

// Word j of fresh memory of n cells: each cell links to the next, the last to none.
#[tactic(auto, unfolding(crate::specs::Store::fresh_word, crate::specs::Store::fresh_link))]
fn fresh_word(n: u64, j: u64) -> u64
    ensures { result ≡ fresh_word n (j / 8) (j % 8) }
{
    if j % 8 == 4 {
        let next = j / 8 + 1;
        if next == n {
            return 4096;
        }
        return next;
    }
    0
}

// Writes every whole cell anew: all are free.
fn write_fresh(w: &mut [u64])
    ensures { w.new ≡ fresh_words w.old }
{
    let n = w.len() / 8;
    for j in 0..n * 8 {
        w[j] = fresh_word(n as u64, j as u64);
    }
}

// How many whole cells the lent words have, refused unless there are 1 to 4096. Each set-up asks it first.
#[tactic(auto, unfolding(crate::specs::Store::cells_answer, crate::specs::Store::wrong_size))]
pub fn cells_in(w: &[u64]) -> Result<u64, Refusal>
    ensures { result ≡ cells_answer w.now }
{
    let n = w.len() / 8;
    if n == 0 || n > 4096 {
        return Err(Refusal::BadSize);
    }
    Ok(n as u64)
}

// Sets a store up in the lent words, refused unless there are 1 to 4096 cells.
#[tactic(auto, unfolding(crate::specs::Store::set_up_answer, crate::specs::Store::set_up_words, crate::specs::Store::cells_answer))]
pub fn set_up(w: &mut [u64]) -> Result<Store, Refusal>
    ensures answer { result ≡ set_up_answer w.old }
    ensures words { w.new ≡ set_up_words w.old }
{
    let cells = cells_in(w)?;
    write_fresh(w);
    Ok(Store {
        cells,
        free: 0,
        counter: 1,
    })
}

// Writes a new entry's words into cell c; its link word is 0 until an engine puts it into a list.
#[tactic(auto, unfolding(crate::specs::Store::entered))]
fn enter(w: &mut [u64], c: u64, k: u64, key: u64, load: u64)
    ensures { w.new ≡ entered w.old c k key load }
{
    put(w, c, 0, k);
    put(w, c, 1, k);
    put(w, c, 2, key);
    put(w, c, 3, load);
    put(w, c, 4, 0);
}

// Clears the words that told of the entry of cell c.
#[tactic(auto, unfolding(crate::specs::Store::wiped))]
fn wipe(w: &mut [u64], c: u64)
    ensures { w.new ≡ wiped w.old c }
{
    put(w, c, 0, 0);
    put(w, c, 1, 0);
    put(w, c, 2, 0);
    put(w, c, 3, 0);
}

impl Store {
    // Whether the handle names an entry.
    #[tactic(auto, unfolding(crate::specs::Store::holds_ticket))]
    pub fn names(&self, w: &[u64], at: Handle) -> bool
        ensures { result ≡ holds_ticket w.now self.now at.cell at.ticket }
    {
        let ticket = get(w, at.cell, 0);
        at.cell < self.cells && ticket != 0 && ticket == at.ticket
    }

    // Takes a number from the counter, refused once the counter is spent.
    #[tactic(auto, unfolding(crate::specs::Store::draw_answer, crate::specs::Store::draw_store, crate::specs::Store::spent))]
    pub fn draw(&mut self) -> Result<u64, Refusal>
        ensures answer { result ≡ draw_answer self.old }
        ensures store { self.new ≡ draw_store self.old }
    {
        let number = self.counter;
        if number == u64::MAX {
            return Err(Refusal::Spent);
        }
        self.counter = number + 1;
        Ok(number)
    }

    // Takes the top free cell for an entry, refused where none is free, then once the counter is spent.
    #[tactic(auto, unfolding(crate::specs::Store::claim_answer, crate::specs::Store::claim_store, crate::specs::Store::claim_words, crate::specs::Store::no_free, crate::specs::Store::draw_answer, crate::specs::Store::draw_store, crate::specs::Store::spent))]
    pub fn claim(&mut self, w: &mut [u64], key: u64, load: u64) -> Result<Handle, Refusal>
        ensures answer { result ≡ claim_answer self.old }
        ensures store { self.new ≡ claim_store w.old self.old }
        ensures words { w.new ≡ claim_words w.old self.old key load }
    {
        let top = self.free;
        if top >= self.cells {
            return Err(Refusal::Full);
        }
        let ticket = self.draw()?;
        self.free = get(w, top, 4);
        enter(w, top, ticket, key, load);
        Ok(Handle { cell: top, ticket })
    }

    // Puts cell c on top of the free stack. Word 6 is left: it is the queue's position table, and none of the cell's own.
    #[tactic(auto, unfolding(crate::specs::Store::release_store, crate::specs::Store::release_words))]
    pub fn release(&mut self, w: &mut [u64], c: u64)
        ensures store { self.new ≡ release_store self.old c }
        ensures words { w.new ≡ release_words w.old self.old c }
    {
        wipe(w, c);
        put(w, c, 5, 0);
        put(w, c, 7, 0);
        put(w, c, 4, self.free);
        self.free = c;
    }
}
