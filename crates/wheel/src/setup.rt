// Set-up of a wheel in lent words: size and start are tested before anything is written.

ghost use Rattle.std.specs.Prelude.{◌≡◌};
ghost use Rattle.wheel.specs.SetUps.{empty_head, set_up_answer, set_up_words};

use crate::head::{Dial, Head};
use cells::refusal::Refusal;
use cells::store::{Store, cells_in, set_up as set_up_cells};
use slots::ring::Ends;

// A head with empty lists.
#[tactic(auto, unfolding(crate::specs::SetUps::empty_head))]
fn empty_head(clock: u64, store: Store) -> Head
    ensures { result ≡ empty_head clock store }
{
    Head {
        first: [4096u16; 384],
        last: [4096u16; 384],
        marks: [0u64; 6],
        dial: Dial {
            clock,
            due: Ends {
                first: 4096,
                last: 4096,
            },
            store,
        },
    }
}

// Sets a wheel up in the lent words, with the clock at start: refused for its size unless there are 1 to 4096 cells, then for a start
// above the last tick.
#[tactic(auto, unfolding(crate::specs::SetUps::set_up_answer, crate::specs::SetUps::set_up_words, crate::specs::SetUps::set_up_causes, meaning::specs::Refusals::first_of, meaning::specs::Refusals::bad_size, meaning::specs::Refusals::beyond, cells::specs::Store::cells_answer, cells::specs::Store::set_up_answer, cells::specs::Store::set_up_words, places::specs::Ticks::last_tick, cells::specs::Causes::refusal_of))]
pub fn set_up(w: &mut [u64], start: u64) -> Result<Head, Refusal>
    ensures answer { result ≡ set_up_answer w.old start }
    ensures words { w.new ≡ set_up_words w.old start }
{
    cells_in(w)?;
    if start > 68719476735 {
        return Err(Refusal::Beyond);
    }
    let store = set_up_cells(w)?;
    Ok(empty_head(start, store))
}
