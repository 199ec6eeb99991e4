// The free stack, followed from its top. Memory is any words whatever, so the walk takes no more links than it is told.

ghost use Rattle.std.specs.Prelude.{◌≡◌};
ghost use Rattle.cells.specs.Stack.{stands_as, walks};
ghost use Rattle.audits.specs.AuditTests.{blank_test};

use crate::cell::blank;
use cells::stack::is_free;
use cells::words::get;

// Whether cell c may stand in the stack of the first n cells: it is one of them, free, and zero in the fields of the mask `free`.
#[tactic(auto, unfolding(cells::specs::Stack::stands_as, cells::specs::Stack::stands))]
fn stands(w: &[u64], n: u64, free: u64, c: u64) -> bool
    ensures { result ≡ stands_as w.now n (blank_test w.now free) c }
{
    c < n && is_free(w, c) && blank(w, free, c)
}

// Whether it is exactly so many links from the top to no cell, each of a cell that may stand in the stack.
pub fn stack_sound(w: &[u64], n: u64, free: u64, top: u64, links: u64) -> bool
    ensures { result ≡ walks w.now (stands_as w.now n (blank_test w.now free)) top links }
{
    let mut c = top;
    for _ in 0..links {
        if !stands(w, n, free, c) {
            return false;
        }
        c = get(w, c, 4);
    }
    c == 4096
}
