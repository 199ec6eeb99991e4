// The order of equal deadlines: sorted by deadline they are neighbours, and a stable sort keeps their order.

ghost use Rattle.std.specs.Prelude.{◌≡◌};
ghost use Rattle.cell_sort.specs.Sorted.{sorted_list};
ghost use Rattle.wheel_rules.specs.AuditTests.{rise_test, neighbours_rise};

use cell_sort::sort::{sort, word_of};

// Whether cells a and b, if of equal deadline, rise in order number.
#[tactic(auto, unfolding(crate::specs::AuditTests::rise_test))]
fn pair_rises(w: &[u64], a: u16, b: u16) -> bool
    ensures { result ≡ rise_test w.now a b }
{
    word_of(w, a, 2) != word_of(w, b, 2) || word_of(w, a, 1) < word_of(w, b, 1)
}

// Whether each two neighbours in a rise.
fn all_rise(w: &[u64], a: &[u16]) -> bool
    ensures { result ≡ neighbours_rise w.now a.now }
{
    a.is_empty() || a.iter().zip(&a[1..]).all(|(x, y)| pair_rises(w, *x, *y))
}

// Whether neighbours rise once the cells a are sorted by deadline, with spare room of the same length.
pub fn order_sound(w: &[u64], a: &mut [u16], spare: &mut [u16]) -> bool
    ensures { result ≡ neighbours_rise w.now (sorted_list w.now 2 2 a.old spare.old) }
{
    sort(w, 2, 2, a, spare);
    all_rise(w, a)
}
