// Ticks as digits to the base 64: the level, the slot and the wake tick of a deadline.
#![tactic(auto)]

ghost use Rattle.std.specs.Prelude.{◌≡◌};
ghost use Rattle.places.specs.Ticks.{digit, level as level_of};
ghost use Rattle.places.specs.Answers.{wake_answer};

// The highest of the six positions at which clock and deadline differ, 0 where none does: by quotients, until they agree.
pub fn level(clock: u64, deadline: u64) -> u64
    ensures { result ≡ level_of 64 6 clock deadline }
{
    let mut t = clock % 68719476736 / 64;
    let mut e = deadline % 68719476736 / 64;
    let mut p: u64 = 0;
    while t != e {
        t /= 64;
        e /= 64;
        p += 1;
    }
    p
}

// The digit of a deadline at position p: 0 from position 11 on, since 64 ^ 11 is above every u64.
#[tactic(auto, unfolding(crate::specs::Ticks::digit))]
pub fn slot(deadline: u64, p: u64) -> u64
    ensures { result ≡ digit 64 p deadline }
{
    if p > 10 {
        return 0;
    }
    (deadline >> (6 * p)) % 64
}

// The tick with the clock's digits above p, s at p and zeros below: 0 where p is no level or s no slot.
#[tactic(auto, using(std::proofs::lemmas::Bool::Decides::nat_tests), unfolding(crate::specs::Answers::wake_answer, crate::specs::Ticks::wake_tick))]
pub fn wake_tick(clock: u64, p: u64, s: u64) -> u64
    ensures { result ≡ wake_answer clock p s }
{
    if p >= 6 || s >= 64 {
        return 0;
    }
    let unit = 1u64 << (6 * p);
    clock / (64 * unit) * (64 * unit) + s * unit
}
