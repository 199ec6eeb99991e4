// The heap's seats in lent words: the position table (word 6 of cell p is the cell at position p) and each entry's own position (word 5).
// An entry is carried through a hole: those it passes step into the hole, and it takes its seat once, at the end.

ghost use Rattle.std.specs.Prelude.{◌+◌, ◌-◌, ◌*◌, ◌≤◌, ◌<◌, ◌≡◌, true, false, cond, MatchOption};
ghost use Rattle.meaning.specs.Heap.{parent};
ghost use Rattle.heap.specs.Seats.{
  ranked,
  seated,
  seat_with,
  seat_at,
  sooner,
  soonest,
  first_child,
  may_rise,
  rise_walk,
  may_sink,
  sink_walk,
  settle_walk,
  in_reach,
  enter_walk,
  refill_walk,
  vacate_walk,
  resettle_walk,
};

use cells::words::{get, put};

// Who stands at a position, or is carried to the hole there.
#[derive(Clone, Copy)]
pub struct Seat {
    pub position: u64,
    pub cell: u64,
    pub key: u64,
    pub order: u64,
}

impl Seat {
    // Whether this one's entry is before the other's.
    fn is_before(self, other: Seat) -> bool
        ensures { result ≡ ranked self.key self.order other.key other.order }
    {
        is_before(self.key, self.order, other.key, other.order)
    }
}

// Whether an entry of this key and order number is before one of those.
#[tactic(auto, using(std::proofs::lemmas::Bool::Decides::nat_tests), unfolding(crate::specs::Seats::ranked))]
pub fn is_before(key: u64, order: u64, key2: u64, order2: u64) -> bool
    ensures { result ≡ ranked key order key2 order2 }
{
    (key, order) < (key2, order2)
}

// Seats cell c at position p.
fn take_seat(w: &mut [u64], p: u64, c: u64)
    ensures { w.new ≡ seated w.old p c }
{
    put(w, p, 6, c);
    put(w, c, 5, p);
}

// A cell as it would stand at position p.
fn seat_with(w: &[u64], p: u64, cell: u64) -> Seat
    ensures { result ≡ seat_with w.now p cell }
{
    Seat {
        position: p,
        cell,
        key: get(w, cell, 2),
        order: get(w, cell, 1),
    }
}

// Who stands at position p.
#[tactic(auto, unfolding(crate::specs::Seats::seat_at))]
pub fn look(w: &[u64], p: u64) -> Seat
    ensures { result ≡ seat_at w.now p }
{
    seat_with(w, p, get(w, p, 6))
}

// The earlier of two, field by field: `if b.is_before(a) { b } else { a }` is a branch to the compiler, and a call of a queue of arity 2, 4
// or 8 then takes 1.05 to 1.38 times as long.
fn sooner(a: Seat, b: Seat) -> Seat
    ensures { result ≡ sooner a b }
{
    let t = b.is_before(a);
    Seat {
        position: if t { b.position } else { a.position },
        cell: if t { b.cell } else { a.cell },
        key: if t { b.key } else { a.key },
        order: if t { b.order } else { a.order },
    }
}

// The earliest of the m positions from first on.
#[inline(always)]
fn earliest_among(w: &[u64], first: u64, m: u64) -> Seat
    requires { (1 ≤ m) × (first + m ≤ 4096) }
    ensures { result ≡ soonest w.now (seat_at w.now first) (first + 1) (m - 1) }
{
    let mut best = look(w, first);
    for k in 1..m {
        best = sooner(best, look(w, first + k));
    }
    best
}

// A heap of n entries and of arity d, as there may be: `of` tests once what no method then asks again.
#[derive(Clone, Copy)]
struct Shape {
    d: u64,
    n: u64,
    ghost some: { 1 ≤ d },
    ghost narrow: { d ≤ 8 },
    ghost fits: { n ≤ 4096 },
}

impl Shape {
    // The heap of n with a position p, where it is of an arity and a size that there may be.
    #[tactic(auto, unfolding(crate::specs::Seats::in_reach))]
    fn of(d: u64, n: u64, p: u64) -> Option<Self>
        ensures { MatchOption result (in_reach d n p ≡ false) (λ h. (in_reach d n p ≡ true) × (h.d ≡ d) × (h.n ≡ n) × (p < n)) }
    {
        if (1..=8).contains(&d) && n <= 4096 && p < n {
            Some(Self { d, n })
        } else {
            None
        }
    }

    // The parent's position of p.
    #[tactic(auto, unfolding(meaning::specs::Heap::parent))]
    fn parent_of(self, p: u64) -> u64
        requires { 1 ≤ p }
        ensures { result ≡ parent self.d p }
    {
        (p - 1) / self.d
    }

    // The parent of the hole to which an entry is carried, if the entry is before it.
    #[tactic(auto, unfolding(crate::specs::Seats::may_rise))]
    fn later_parent(self, w: &[u64], s: Seat) -> Option<Seat>
        ensures { MatchOption result (may_rise self.d s.key s.order s.position w.now ≡ false)
            (λ q. (may_rise self.d s.key s.order s.position w.now ≡ true) × (q ≡ seat_at w.now (parent self.d s.position))) }
    {
        if s.position == 0 {
            return None;
        }
        let q = look(w, self.parent_of(s.position));
        if s.is_before(q) { Some(q) } else { None }
    }

    // The earliest of the d positions from first on. At the usual arities the number is one that the compiler knows, so that it leaves no
    // loop: it picks, and does not branch.
    fn earliest_of(self, w: &[u64], first: u64) -> Seat
        requires { first + self.d ≤ self.n }
        ensures { result ≡ soonest w.now (seat_at w.now first) (first + 1) (self.d - 1) }
    {
        match self.d {
            2 => earliest_among(w, first, 2),
            4 => earliest_among(w, first, 4),
            8 => earliest_among(w, first, 8),
            d => earliest_among(w, first, d),
        }
    }

    // The earliest child whose positions begin at first.
    #[tactic(auto, unfolding(crate::specs::Seats::first_child))]
    fn earliest_child(self, w: &[u64], first: u64) -> Seat
        requires { first < self.n }
        ensures { result ≡ first_child self.d self.n w.now first }
    {
        if self.n < first + self.d {
            return earliest_among(w, first, self.n - first);
        }
        self.earliest_of(w, first)
    }

    // The earliest child of the hole to which an entry is carried, if the child is before it.
    #[tactic(auto, unfolding(crate::specs::Seats::may_sink))]
    fn sooner_child(self, w: &[u64], s: Seat) -> Option<Seat>
        requires { s.position < self.n }
        ensures { MatchOption result (may_sink self.d self.n s.key s.order s.position w.now ≡ false)
            (λ q. (may_sink self.d self.n s.key s.order s.position w.now ≡ true)
            × (q ≡ first_child self.d self.n w.now (self.d * s.position + 1))) }
    {
        let first = self.d * s.position + 1;
        if first >= self.n {
            return None;
        }
        let q = self.earliest_child(w, first);
        if q.is_before(s) { Some(q) } else { None }
    }

    // Carries an entry up from the hole where it is, and says how many it passed.
    fn rise(self, w: &mut [u64], mut s: Seat) -> u64
        requires { s.position < self.n }
        ensures words { w.new ≡ (rise_walk self.d s.key s.order s.cell s.position s.position 0 w.old).words }
        ensures steps { result ≡ (rise_walk self.d s.key s.order s.cell s.position s.position 0 w.old).steps }
        ensures few { result < self.n }
    {
        let mut steps = 0;
        while let Some(q) = self.later_parent(w, s) {
            take_seat(w, s.position, q.cell);
            s.position = q.position;
            steps += 1;
        }
        take_seat(w, s.position, s.cell);
        steps
    }

    // Carries an entry down from the hole where it is, and says how many it passed. One function with the step handed in is no plainer:
    // a rise ends at the root and a sink at n, so that each step would have to promise a bound of its own.
    fn sink(self, w: &mut [u64], mut s: Seat) -> u64
        requires { s.position < self.n }
        ensures words { w.new ≡ (sink_walk self.d self.n s.key s.order s.cell self.n s.position 0 w.old).words }
        ensures steps { result ≡ (sink_walk self.d self.n s.key s.order s.cell self.n s.position 0 w.old).steps }
        ensures few { result < self.n }
    {
        let mut steps = 0;
        while let Some(q) = self.sooner_child(w, s) {
            take_seat(w, s.position, q.cell);
            s.position = q.position;
            steps += 1;
        }
        take_seat(w, s.position, s.cell);
        steps
    }

    // Carries cell c to its place from the hole at p, up or else down, and says how many it passed.
    #[tactic(auto, unfolding(crate::specs::Seats::settle_walk))]
    fn settle(self, w: &mut [u64], p: u64, c: u64) -> u64
        requires { p < self.n }
        ensures words { w.new ≡ (settle_walk self.d self.n p c w.old).words }
        ensures steps { result ≡ (settle_walk self.d self.n p c w.old).steps }
        ensures few { result < self.n }
    {
        let s = seat_with(w, p, c);
        if self.later_parent(w, s).is_some() {
            return self.rise(w, s);
        }
        self.sink(w, s)
    }

    // The last entry fills position p, which is not the last.
    #[tactic(auto, unfolding(crate::specs::Seats::refill_walk))]
    fn refill(self, w: &mut [u64], p: u64) -> u64
        requires { p + 1 < self.n }
        ensures words { w.new ≡ (refill_walk self.d self.n p w.old).words }
        ensures steps { result ≡ (refill_walk self.d self.n p w.old).steps }
    {
        let n = self.n - 1;
        let c = get(w, n, 6);
        put(w, n, 6, 0);
        Self { d: self.d, n }.settle(w, p, c) + 1
    }
}

// Cell c enters a heap of n at its end, and rises; says how many entries moved. Nothing is done where there is no such heap.
#[tactic(auto, unfolding(crate::specs::Seats::in_reach, crate::specs::Seats::enter_walk))]
pub fn enter(w: &mut [u64], d: u64, n: u64, c: u64) -> u64
    ensures words { w.new ≡ (enter_walk d n c w.old).words }
    ensures steps { result ≡ (enter_walk d n c w.old).steps }
{
    if n < 4096
        && let Some(heap) = Shape::of(d, n + 1, n)
    {
        let s = seat_with(w, n, c);
        return heap.rise(w, s);
    }
    0
}

// Position p of a heap of n is left by its entry, and filled by the last; says how many entries moved. Nothing is done where there is no
// such position.
#[tactic(auto, unfolding(crate::specs::Seats::in_reach, crate::specs::Seats::vacate_walk))]
pub fn vacate(w: &mut [u64], d: u64, n: u64, p: u64) -> u64
    ensures words { w.new ≡ (vacate_walk d n p w.old).words }
    ensures steps { result ≡ (vacate_walk d n p w.old).steps }
{
    let Some(heap) = Shape::of(d, n, p) else {
        return 0;
    };
    if p == n - 1 {
        put(w, p, 6, 0);
        return 0;
    }
    heap.refill(w, p)
}

// Cell c at position p of a heap of n has another key or order number, and settles again; says how many entries moved. Nothing is done
// where there is no such position.
#[tactic(auto, unfolding(crate::specs::Seats::in_reach, crate::specs::Seats::resettle_walk))]
pub fn resettle(w: &mut [u64], d: u64, n: u64, p: u64, c: u64) -> u64
    ensures words { w.new ≡ (resettle_walk d n p c w.old).words }
    ensures steps { result ≡ (resettle_walk d n p c w.old).steps }
{
    let Some(heap) = Shape::of(d, n, p) else {
        return 0;
    };
    let steps = heap.settle(w, p, c);
    if steps == 0 {
        return 0;
    }
    steps + 1
}
