// The ready queue's audit: the rules that every engine shares, then the heap's positions, each looked at once. Memory and head are any
// words whatever, so that nothing public here has a `requires`.

ghost use Rattle.std.specs.Prelude.{◌≤◌, ◌<◌, true, ◌↔◌, ◌≡◌};
ghost use Rattle.audits.specs.AuditTests.{all_below};
ghost use Rattle.queue.specs.Rules.{QueueSound};
ghost use Rattle.queue.specs.AuditTests.{head_test, family_of, held_test, seat_test, beyond_test};

use crate::head::Head;
use audits::audit::audit_and_count;
use cells::stack::is_free;
use cells::words::get;
use heap::seats::{is_before, look};

// Whose children the positions in turn are: the next parent's position, how many children of the one before are left, and that one's key
// and order number. Kept from position to position, so that no parent's place is divided out and none is read twice.
#[derive(Clone, Copy)]
pub struct Family {
    pub next: u64,
    pub left: u64,
    pub key: u64,
    pub order: u64,
}

// The family of the position in turn: the next parent's where no child of this one is left.
#[tactic(auto, unfolding(crate::specs::AuditTests::family_of))]
fn family_of(w: &[u64], d: u64, f: Family) -> Family
    requires { f.next < 18446744073709551615 }
    ensures { result ≡ family_of w.now d f }
{
    if f.left != 0 {
        return f;
    }
    let parent = look(w, f.next);
    Family {
        next: f.next + 1,
        left: d,
        key: parent.key,
        order: parent.order,
    }
}

// Whether position p, a filled one, holds a cell in use of the first n that knows it and is not before a parent of this key and order
// number.
#[tactic(auto, unfolding(crate::specs::AuditTests::held_test))]
fn seat_sound(w: &[u64], n: u64, p: u64, key: u64, order: u64) -> bool
    ensures { result ≡ held_test w.now n p key order }
{
    let c = get(w, p, 6);
    c < n
        && !is_free(w, c)
        && get(w, c, 5) == p
        && !is_before(get(w, c, 2), get(w, c, 1), key, order)
}

// Whether each of the filled positions keeps to the rules. The root's family has one child, and a parent that nothing is before.
fn seats_sound(w: &[u64], d: u64, n: u64, count: u64) -> bool
    requires { 1 ≤ d }
    ensures { result ≡ all_below count (seat_test w.now d n) }
{
    let mut f = Family {
        next: 0,
        left: 1,
        key: 0,
        order: 0,
    };
    for p in 0..count {
        f = family_of(w, d, f);
        if !seat_sound(w, n, p, f.key, f.order) {
            return false;
        }
        f.left -= 1;
    }
    true
}

// Whether the table is zero from position count up to n.
fn rest_blank(w: &[u64], count: u64, n: u64) -> bool
    ensures { result ≡ all_below n (beyond_test w.now count) }
{
    (count..n).all(|p| get(w, p, 6) == 0)
}

// Whether the arity is 2 to 8, and there are no more entries than cells.
#[tactic(auto, unfolding(crate::specs::AuditTests::head_test))]
fn head_sound(h: &Head) -> bool
    ensures { result ≡ head_test h.now }
{
    let Head {
        arity,
        count,
        store,
    } = *h;
    (2..=8).contains(&arity) && count <= store.cells
}

// Whether head and memory keep to the rules. As many cells are in use as positions are filled, and each of these holds a cell in use that
// knows it: so each entry stands at one of them.
pub fn audit(w: &[u64], h: &Head) -> bool
    ensures { (result ≡ true) ↔ QueueSound w.now h.now }
{
    if !head_sound(h) {
        return false;
    }
    let Some(free) = audit_and_count(w, h.store, 144, 175) else {
        return false;
    };
    h.store.cells - h.count == free
        && seats_sound(w, h.arity, h.store.cells, h.count)
        && rest_blank(w, h.count, h.store.cells)
}
