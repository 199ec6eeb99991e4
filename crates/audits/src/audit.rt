// The part of the audit that every engine shares: sizes, entries, the free stack, tickets and order numbers that differ.

ghost use Rattle.std.specs.Prelude.{true, ◌↔◌, ◌≡◌, length};
ghost use Rattle.cells.specs.Rules.{Sound};
ghost use Rattle.audits.specs.AuditTests.{size_test};
ghost use Rattle.audits.specs.Verdicts.{Judged, TellsApart};

use crate::differ::sorted_differ;
use crate::stack::stack_sound;
use crate::sweep::swept;
use cells::store::Store;

// Whether N is the number of whole cells, 1 to 4,096, and the counter at least 1.
#[tactic(auto, unfolding(crate::specs::AuditTests::size_test))]
fn size_sound(w: &[u64], s: Store) -> bool
    ensures { result ≡ size_test (length w.now) s }
{
    let cells = (w.len() / 8) as u64;
    s.cells == cells && 1 <= s.cells && s.cells <= 4096 && 1 <= s.counter
}

// Whether tickets and order numbers differ, where tables of evenly spread numbers gave up: by tables of scattered ones, else by sorting.
fn numbers_differ(w: &[u64], s: Store, used: u64) -> bool
    ensures { TellsApart w.now s result }
{
    if let Some(again) = swept(w, s.cells, s.counter, used, true)
        && again.left > 0
    {
        return true;
    }
    sorted_differ(w, s.cells)
}

// How many cells are free, where the memory keeps to the rules that every engine shares: for engines that count their entries. An engine
// leaves the fields of the mask `used` unused in a cell in use, those of `free` in a free one.
pub fn audit_and_count(w: &[u64], s: Store, used: u64, free: u64) -> Option<u64>
    ensures { Judged w.now s used free result }
{
    if !size_sound(w, s) {
        return None;
    }
    let seen = swept(w, s.cells, s.counter, used, false)?;
    if !stack_sound(w, s.cells, free, s.free, seen.free) {
        return None;
    }
    let told = seen.left > 0;
    if told || numbers_differ(w, s, used) {
        return Some(seen.free);
    }
    None
}

// Whether the memory keeps to the rules that every engine shares.
pub fn audit(w: &[u64], s: Store, used: u64, free: u64) -> bool
    ensures { (result ≡ true) ↔ Sound w.now s used free }
{
    audit_and_count(w, s, used, free).is_some()
}
