// The walk along the wheel's lists: each is followed from its first cell, as far as its cells may stand there, and its cells are noted, cast
// and not converted, since their bound is at hand. What the private functions require of cells and rooms, the public ones test or make.

ghost use Rattle.std.specs.Prelude.{ℕ, ◌≤◌, cond, ◌&&◌, ◌≡◌, eqb, length};
ghost use Rattle.std.specs.declared.option.Option.TheVariants.{None, Some};
ghost use Rattle.wheel_rules.specs.AuditTests.{
  stand_test,
  ends_in,
  sort_test,
  ListNoted,
  WalkFound,
  AllNoted,
};
ghost use Rattle.wheel_rules.specs.Spans.{SpanOf};

use crate::order::order_sound;
use crate::span::{Span, in_span, span_of};
use cells::stack::is_free;
use cells::words::get;
use dial::state::Dial;
use slots::ring::Ends;
use slots::slots::ends_of;

// What a walk found along lists that are sound: how many cells, and whether order numbers rise along each list, a finding of its own.
#[derive(Clone, Copy)]
pub struct Noted {
    pub count: u64,
    pub rise: bool,
}

// Whether cell c may stand behind p in the list of that span.
#[tactic(auto, unfolding(crate::specs::AuditTests::stand_test))]
fn may_stand(w: &[u64], n: u64, span: Span, p: u64, c: u64) -> bool
    ensures { (t i : ℕ) → SpanOf t i span → result ≡ stand_test w.now n t i p c }
{
    c < n && !is_free(w, c) && get(w, c, 5) == p && in_span(span, get(w, c, 2))
}

// How a walk ends that noted count cells: behind cell p it is at c, to be no cell, and p to be the last.
fn walk_end(count: u64, c: u64, p: u64, last: u64, rise: bool) -> Option<Noted>
    ensures { result ≡ cond (eqb c 4096 && eqb p last) (Some (record { count = count; rise = rise })) None }
{
    if c == 4096 && p == last {
        return Some(Noted { count, rise });
    }
    None
}

// Notes the cells of list i, which has these ends, from m on. Order numbers are at least 1, so that 0 stands before the first.
fn walk_list(w: &[u64], n: u64, clock: u64, i: u64, e: Ends, m: u64, a: &mut [u16]) -> Option<Noted>
    requires { (n ≤ 4096) × (n ≤ length a.old) × (m ≤ n) }
    ensures { ListNoted w.now n clock i e m a.old result a.new }
{
    let span = span_of(clock, i);
    let mut c = e.first;
    let mut p: u64 = 4096;
    let mut order: u64 = 0;
    let mut rise = true;
    for k in m..n {
        if !may_stand(w, n, span, p, c) {
            return walk_end(k, c, p, e.last, rise);
        }
        a[k as usize] = c as u16;
        let before = order;
        order = get(w, c, 1);
        rise &= before < order;
        p = c;
        c = get(w, c, 4);
    }
    walk_end(n, c, p, e.last, rise)
}

// What a walk along the lists reads: the words, the ends of the slots, and the numbers of the wheel.
#[derive(Clone, Copy)]
struct Lent<'a> {
    w: &'a [u64],
    first: &'a [u16],
    last: &'a [u16],
    d: Dial,
}

impl Lent<'_> {
    // The ends of list i.
    #[tactic(auto, unfolding(crate::specs::AuditTests::ends_in, slots::specs::Rings::ends_of))]
    fn ends_at(&self, i: u64) -> Ends
        ensures { result ≡ ends_in self.now.first.now self.now.last.now self.now.d.due i }
    {
        if i == 384 {
            return self.d.due;
        }
        ends_of(self.first, self.last, i)
    }

    // Notes the cells of list i behind the first m in a. Most lists are empty, and are left at once.
    fn note_list(&self, i: u64, m: u64, a: &mut [u16]) -> Option<Noted>
        requires { (self.now.d.store.cells ≤ 4096) × (self.now.d.store.cells ≤ length a.old) × (m ≤ self.now.d.store.cells) }
        ensures { ListNoted self.now.w.now self.now.d.store.cells self.now.d.clock i
            (ends_in self.now.first.now self.now.last.now self.now.d.due i) m a.old result a.new }
    {
        let e = self.ends_at(i);
        if e.first == 4096 {
            return walk_end(m, e.first, 4096, e.last, true);
        }
        walk_list(self.w, self.d.store.cells, self.d.clock, i, e, m, a)
    }

    // Notes the cells of all lists, one list behind the other.
    fn note_lists(&self, a: &mut [u16]) -> Option<Noted>
        requires { (self.now.d.store.cells ≤ 4096) × (self.now.d.store.cells ≤ length a.old) }
        ensures { AllNoted self.now.w.now self.now.d.store.cells self.now.d.clock
            (ends_in self.now.first.now self.now.last.now self.now.d.due) result a.new }
    {
        let mut m: u64 = 0;
        let mut rise = true;
        for i in 0..385 {
            let got = self.note_list(i, m, a)?;
            m = got.count;
            rise &= got.rise;
        }
        Some(Noted { count: m, rise })
    }

    // Whether all lists are sound, and their cells, those of equal deadline, stand by rising order number: noted in room for them, and
    // sorted.
    fn cells_rise(&self, a: &mut [u16], spare: &mut [u16]) -> bool
        requires { (self.now.d.store.cells ≤ 4096) × (length a.old ≡ 4096) × (length spare.old ≡ 4096) }
        ensures { result ≡ sort_test self.now.w.now self.now.d.store.cells self.now.d.clock
            (ends_in self.now.first.now self.now.last.now self.now.d.due) }
    {
        let Some(got) = self.note_lists(a) else {
            return false;
        };
        let m = got.count as usize;
        order_sound(self.w, &mut a[..m], &mut spare[..m])
    }
}

// Walks all lists, of at most 4,096 cells.
pub fn walked(w: &[u64], first: &[u16], last: &[u16], d: Dial) -> Option<Noted>
    ensures { WalkFound w.now d.store.cells d.clock
        (ends_in first.now last.now d.due) result }
{
    if d.store.cells > 4096 {
        return None;
    }
    let mut a = [0u16; 4096];
    let lent = Lent { w, first, last, d };
    lent.note_lists(&mut a)
}

// Whether all lists are sound, and equal deadlines in them stand by rising order number: for lists along which order numbers do not all
// rise. It walks them once more, with room of its own.
pub fn sorted_rise(w: &[u64], first: &[u16], last: &[u16], d: Dial) -> bool
    ensures { result ≡ sort_test w.now d.store.cells d.clock
        (ends_in first.now last.now d.due) }
{
    if d.store.cells > 4096 {
        return false;
    }
    let mut a = [0u16; 4096];
    let mut spare = [0u16; 4096];
    let lent = Lent { w, first, last, d };
    lent.cells_rise(&mut a, &mut spare)
}
