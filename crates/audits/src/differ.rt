// Whether tickets and order numbers differ, by sorting: the answer where the tables gave up. What the private functions require of sizes
// and rooms, each of its own call, `sorted_differ` tests or makes.

ghost use Rattle.std.specs.Prelude.{◌+◌, ◌≤◌, ◌<◌, cond, ◌&&◌, ◌++◌, ◌≡◌, leb, length, drop, set};
ghost use Rattle.cells.specs.Rules.{in_use};
ghost use Rattle.audits.specs.AuditTests.{used_below, differ_test};
ghost use Rattle.cell_sort.specs.Sorted.{sort_by, cell_leq, neighbours_differ};

use cell_sort::sort::{all_differ, sort};
use cells::words::get;

// Notes cell c at m if it is in use, and says where the next goes. The cell is cast and not converted: its bound is at hand, and `TryFrom`
// would have an arm that cannot happen.
#[tactic(auto, unfolding(cells::specs::Rules::in_use, cells::specs::Stack::is_free))]
fn note(w: &[u64], c: u64, m: usize, a: &mut [u16]) -> usize
    requires { (c < 65536) × (m < length a.old) }
    ensures next { result ≡ cond (in_use w.now c) (m + 1) m }
    ensures list { a.new ≡ cond (in_use w.now c) (set a.old m c) a.old }
{
    if get(w, c, 0) == 0 {
        return m;
    }
    a[m] = c as u16;
    m + 1
}

// Notes the cells in use among the first n at the front of a, and says how many they are: room that is lent, and how many, since memory is
// fixed and nothing is on a heap.
fn gather(w: &[u64], n: u64, a: &mut [u16]) -> usize
    requires { (n ≤ length a.old) × (n ≤ 4096) }
    ensures count { result ≡ length (used_below w.now n) }
    ensures list { a.new ≡ used_below w.now n ++ drop result a.old }
{
    let mut m = 0;
    for c in 0..n {
        m = note(w, c, m, a);
    }
    m
}

// Sorts the cells a by their words at f, and says whether these differ.
fn distinct(w: &[u64], f: u64, a: &mut [u16], spare: &mut [u16]) -> bool
    requires { length a.old ≡ length spare.old }
    ensures differ { result ≡ neighbours_differ w.now f (sort_by (cell_leq w.now f f) a.old) }
    ensures list { a.new ≡ sort_by (cell_leq w.now f f) a.old }
{
    sort(w, f, f, a, spare);
    all_differ(w, f, a)
}

// Whether the cells a differ in their tickets, and in their order numbers.
fn both_distinct(w: &[u64], a: &mut [u16], spare: &mut [u16]) -> bool
    requires { length a.old ≡ length spare.old }
    ensures { result ≡ differ_test w.now a.old }
{
    distinct(w, 0, a, spare) && distinct(w, 1, a, spare)
}

// Whether the cells in use among the first n, noted in room for them, differ in both numbers.
fn used_distinct(w: &[u64], n: u64, a: &mut [u16], spare: &mut [u16]) -> bool
    requires { (n ≤ 4096) × (length a.old ≡ 4096) × (length spare.old ≡ 4096) }
    ensures { result ≡ differ_test w.now (used_below w.now n) }
{
    let m = gather(w, n, a);
    both_distinct(w, &mut a[..m], &mut spare[..m])
}

// Whether the cells in use among the first n differ in both numbers, noted in room made here.
fn few_differ(w: &[u64], n: u64) -> bool
    requires { n ≤ 4096 }
    ensures { result ≡ differ_test w.now (used_below w.now n) }
{
    let mut a = [0u16; 4096];
    let mut spare = [0u16; 4096];
    used_distinct(w, n, &mut a, &mut spare)
}

// Whether the cells in use among the first n differ in their tickets, and in their order numbers, by sorting them. Of more than 4,096 cells
// it says no.
pub fn sorted_differ(w: &[u64], n: u64) -> bool
    ensures { result ≡ leb n 4096 && differ_test w.now (used_below w.now n) }
{
    n <= 4096 && few_differ(w, n)
}
