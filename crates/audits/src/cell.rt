// The rules of one cell: unused words are zero, and the numbers of an entry stand in order.

ghost use Rattle.std.specs.Prelude.{◌<◌, ◌≤◌, true, ◌&&◌, ◌≡◌};
ghost use Rattle.audits.specs.AuditTests.{all_below, field_test, blank_test, numbered_test};

use cells::words::get;

// Whether field f of cell c is zero, if it is in the mask m.
#[tactic(auto, unfolding(crate::specs::AuditTests::field_test, cells::specs::Rules::in_mask))]
fn clean(w: &[u64], m: u64, c: u64, f: u64) -> bool
    requires { f < 8 }
    ensures { result ≡ field_test w.now m c f }
{
    (m >> f) % 2 == 0 || get(w, c, f) == 0
}

// Whether those of the fields from `low` up to `high` that are in the mask m are zero in cell c, where those before are.
#[inline(always)]
fn fields_blank(w: &[u64], m: u64, c: u64, low: u64, high: u64) -> bool
    requires { (low ≤ high) × (high ≤ 8) × (all_below low (field_test w.now m c) ≡ true) }
    ensures { result ≡ all_below high (field_test w.now m c) }
{
    (low..high).all(|f| clean(w, m, c, f))
}

// Whether those of the first four fields that are in the mask m are zero in cell c. An entry uses all four, so its mask has none of them:
// one look tells.
fn lower_blank(w: &[u64], m: u64, c: u64) -> bool
    ensures { result ≡ all_below 4 (field_test w.now m c) }
{
    m % 16 == 0 || fields_blank(w, m, c, 0, 4)
}

// Whether the fields of the mask m are zero in cell c.
pub fn blank(w: &[u64], m: u64, c: u64) -> bool
    ensures { result ≡ blank_test w.now m c }
{
    lower_blank(w, m, c) && fields_blank(w, m, c, 4, 8)
}

// Whether the entry in cell c has a ticket at most its order number, and that below the counter.
#[tactic(auto, unfolding(crate::specs::AuditTests::numbered_test))]
fn numbered(w: &[u64], counter: u64, c: u64) -> bool
    ensures { result ≡ numbered_test w.now counter c }
{
    let order = get(w, c, 1);
    get(w, c, 0) <= order && order < counter
}

// Whether cell c, taken for one in use, keeps to the rules of an entry.
pub fn entry_sound(w: &[u64], counter: u64, used: u64, c: u64) -> bool
    ensures { result ≡ numbered_test w.now counter c && blank_test w.now used c }
{
    numbered(w, counter, c) && blank(w, used, c)
}
