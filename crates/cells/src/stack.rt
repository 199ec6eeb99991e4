// The free stack: which cells are free.

ghost use Rattle.std.specs.Prelude.{◌≡◌};
ghost use Rattle.cells.specs.Stack.{is_free};

use crate::words::get;

// Whether cell c is free: its ticket is 0.
#[tactic(auto, unfolding(crate::specs::Stack::is_free))]
pub fn is_free(w: &[u64], c: u64) -> bool
    ensures { result ≡ is_free w.now c }
{
    get(w, c, 0) == 0
}
