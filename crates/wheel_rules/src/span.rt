// The deadlines of one list as a span of ticks: whether an entry may stand there is asked by two comparisons, not by its level and slot.

ghost use Rattle.std.specs.Prelude.{◌^◌, ◌≤◌, ◌<◌, ◌≡◌};
ghost use Rattle.wheel_rules.specs.Spans.{in_span, SpanOf};

use places::{slot, wake_tick};

// The ticks from low to high: none where low is the higher. Two bounds and no Option or range: `SpanOf` and the public functions speak of
// them.
#[derive(Clone, Copy)]
pub struct Span {
    pub low: u64,
    pub high: u64,
}

// How many ticks a slot of level p spans.
fn unit_of(p: u64) -> u64
    requires { p < 6 }
    ensures { result ≡ 64 ^ p }
{
    1 << (6 * p)
}

// The ticks of slot i: from its wake tick on, or none where the clock has its digit on that level, or a higher one.
fn slot_span(clock: u64, i: u64) -> Span
    requires { (clock ≤ 68719476735) × (i < 384) }
    ensures { SpanOf clock i result }
{
    let p = i / 64;
    let s = i % 64;
    if s <= slot(clock, p) {
        return Span { low: 1, high: 0 };
    }
    let low = wake_tick(clock, p, s);
    Span {
        low,
        high: low + unit_of(p) - 1,
    }
}

// The ticks of list i: there are none where the clock is no tick, and none where there is no such list.
pub fn span_of(clock: u64, i: u64) -> Span
    ensures { SpanOf clock i result }
{
    if clock > 68719476735 || i > 384 {
        return Span { low: 1, high: 0 };
    }
    if i == 384 {
        return Span {
            low: clock,
            high: clock,
        };
    }
    slot_span(clock, i)
}

// Whether a tick is in the span.
#[tactic(auto, unfolding(crate::specs::Spans::in_span))]
pub fn in_span(s: Span, e: u64) -> bool
    ensures { result ≡ in_span s e }
{
    (s.low..=s.high).contains(&e)
}
