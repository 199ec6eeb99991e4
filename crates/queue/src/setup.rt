// The ready queue's set-up. Total, so that it has no `requires`.

ghost use Rattle.std.specs.Prelude.{◌≡◌};
ghost use Rattle.queue.specs.SetUps.{set_up_answer, set_up_words};

use crate::head::Head;
use cells::refusal::Refusal;
use cells::store::{cells_in, set_up as set_up_cells};

// Sets an empty queue of arity d up in the lent words, refused unless there are 1 to 4096 cells, then unless d is 2 to 8.
#[tactic(auto, unfolding(crate::specs::SetUps::set_up_answer, crate::specs::SetUps::set_up_words, crate::specs::SetUps::set_up_causes, meaning::specs::Refusals::first_of, meaning::specs::Refusals::bad_size, meaning::specs::Refusals::bad_arity, cells::specs::Store::cells_answer, cells::specs::Store::set_up_answer, cells::specs::Store::set_up_words, cells::specs::Causes::refusal_of))]
pub fn set_up(w: &mut [u64], d: u64) -> Result<Head, Refusal>
    ensures answer { result ≡ set_up_answer w.old d }
    ensures words { w.new ≡ set_up_words w.old d }
{
    cells_in(w)?;
    if !(2..=8).contains(&d) {
        return Err(Refusal::BadArity);
    }
    let store = set_up_cells(w)?;
    Ok(Head {
        arity: d,
        count: 0,
        store,
    })
}
