// The wheel's audit: the rules that every engine shares, then the marks and the lists. Memory and arrays are any words whatever, so that
// nothing public here has a `requires`.

ghost use Rattle.std.specs.Prelude.{◌≤◌, true, ◌↔◌, ◌≡◌};
ghost use Rattle.cells.specs.Stack.{frees};
ghost use Rattle.audits.specs.AuditTests.{all_below};
ghost use Rattle.dial.specs.Lent.{lists_of};
ghost use Rattle.wheel_rules.specs.Rules.{WheelSound};
ghost use Rattle.wheel_rules.specs.AuditTests.{dial_test, arrays_test, mark_test, ends_in, lists_test};

use crate::walk::{sorted_rise, walked};
use audits::audit::audit_and_count;
use dial::state::Dial;
use slots::slots::{ends_of, marks_at};

// Whether the clock is a tick.
#[tactic(auto, unfolding(crate::specs::AuditTests::dial_test, places::specs::Ticks::last_tick))]
fn dial_sound(d: Dial) -> bool
    ensures { result ≡ dial_test d }
{
    d.clock <= 68719476735
}

// Whether there are arrays for 384 slots and 6 words of marks.
#[tactic(auto, unfolding(crate::specs::AuditTests::arrays_test))]
fn arrays_sound(first: &[u16], last: &[u16], marks: &[u64]) -> bool
    ensures { result ≡ arrays_test first.now last.now marks.now }
{
    first.len() == 384 && last.len() == 384 && marks.len() == 6
}

// Whether slot i is marked exactly if it has a first cell.
fn mark_sound(first: &[u16], marks: &[u64], i: u64) -> bool
    ensures { result ≡ mark_test first.now marks.now i }
{
    let e = ends_of(first, first, i);
    let marked = (marks_at(marks, i / 64) >> (i % 64)) % 2 == 1;
    marked == (e.first != 4096)
}

// Whether every slot's mark is sound.
fn marks_sound(first: &[u16], marks: &[u64]) -> bool
    ensures { result ≡ all_below 384 (mark_test first.now marks.now) }
{
    (0..384).all(|i| mark_sound(first, marks, i))
}

// Whether the lists are sound, of cells of which so many are free: each by itself, all cells in use in them, and equal deadlines by rising
// order number. Where order numbers rise along each list, as they do on a wheel that was used, nothing is sorted.
fn lists_sound(w: &[u64], first: &[u16], last: &[u16], d: Dial, free: u64) -> bool
    requires { (d.store.cells ≤ 4096) × (free ≡ frees w.now d.store.cells) }
    ensures { result ≡ lists_test w.now d.store.cells d.clock
        (ends_in first.now last.now d.due) }
{
    let Some(got) = walked(w, first, last, d) else {
        return false;
    };
    d.store.cells - got.count == free && (got.rise || sorted_rise(w, first, last, d))
}

// Whether head and memory keep to the rules, the arrays lent: the slices apart, as the wheel's audit has them from a head. The walk's
// `Lent` holds them together below.
pub fn lent_sound(w: &[u64], first: &[u16], last: &[u16], marks: &[u64], d: Dial) -> bool
    ensures { (result ≡ true) ↔ WheelSound (lists_of w.now first.now last.now marks.now d.due) d }
{
    if !dial_sound(d) {
        return false;
    }
    let Some(free) = audit_and_count(w, d.store, 192, 239) else {
        return false;
    };
    arrays_sound(first, last, marks)
        && marks_sound(first, marks)
        && lists_sound(w, first, last, d, free)
}
