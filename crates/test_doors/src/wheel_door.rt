// The wheel's set-up, audit, checked calls and quick calls, the head lent as slices: the ends of 384 slots twice, six words of marks, and six numbers (the
// clock, the first and the last cell of the due list, the cells, the top of the free stack, the counter).

use crate::lent::{Told, copy, read, write_numbers, write_six};
use cells::refusal::Refusal;
use cells::store::{Handle, Store};
use slots::ring::Ends;
use wheel::audit::audit;
use wheel::head::{Dial, Head};
use wheel::setup::set_up;
use wheel::{checked, quick};

// The head's numbers.
pub fn dial_of(numbers: &[u64]) -> Dial {
    Dial {
        clock: read(numbers, 0),
        due: Ends {
            first: read(numbers, 1),
            last: read(numbers, 2),
        },
        store: Store {
            cells: read(numbers, 3),
            free: read(numbers, 4),
            counter: read(numbers, 5),
        },
    }
}

// The head that lent slices hold, if they have a head's lengths.
fn head_of(first: &[u16], last: &[u16], marks: &[u64], numbers: &[u64]) -> Option<Head> {
    if numbers.len() != 6 {
        return None;
    }
    Some(Head {
        first: <[u16; 384]>::try_from(first).ok()?,
        last: <[u16; 384]>::try_from(last).ok()?,
        marks: <[u64; 6]>::try_from(marks).ok()?,
        dial: dial_of(numbers),
    })
}

// Writes a head's numbers.
fn put_dial(numbers: &mut [u64], d: Dial) {
    write_numbers(
        numbers,
        &[
            d.clock,
            d.due.first,
            d.due.last,
            d.store.cells,
            d.store.free,
            d.store.counter,
        ],
    );
}

// Writes a head into lent slices.
fn put_head(first: &mut [u16], last: &mut [u16], marks: &mut [u64], numbers: &mut [u64], h: &Head) {
    copy(first, &h.first);
    copy(last, &h.last);
    copy(marks, &h.marks);
    put_dial(numbers, h.dial);
}

// Sets a wheel up: a refused set-up keeps the head.
fn begin(w: &mut [u64], h: &mut Head, start: u64) -> Result<(), Refusal> {
    *h = set_up(w, start)?;
    Ok(())
}

// The checked call of this number, which is how C names it: 0 set-up, 1 arm, 2 move, 3 cancel, 4 advance, else next wake.
fn run_checked(
    w: &mut [u64],
    out: &mut [u64],
    h: &mut Head,
    call: u64,
    a: u64,
    b: u64,
    c: u64,
) -> Told {
    let at = Handle { cell: a, ticket: b };
    match call {
        0 => Told::from(begin(w, h, a)),
        1 => Told::from(checked::arm(w, h, a, b)),
        2 => Told::from(checked::move_to(w, h, at, c)),
        3 => Told::from(checked::cancel(w, h, at)),
        4 => Told::from(checked::advance(w, h, a, out)),
        _ => Told::from(checked::next_wake(w, h)),
    }
}

// The quick call of this number, as C names it: 17 arm, 18 move, 19 cancel, 20 advance, else next wake.
fn run_quick(
    w: &mut [u64],
    out: &mut [u64],
    h: &mut Head,
    call: u64,
    a: u64,
    b: u64,
    c: u64,
) -> Told {
    let at = Handle { cell: a, ticket: b };
    match call {
        17 => Told::from(quick::arm(w, h, a, b)),
        18 => Told::from(quick::move_to(w, h, at, c)),
        19 => Told::from(quick::cancel(w, h, at)),
        20 => Told::from(quick::advance(w, h, a, out)),
        _ => Told::from(quick::next_wake(h)),
    }
}

// A checked call by a number below 16, a quick call by the same number and 16: C names a call by its number.
fn run(w: &mut [u64], out: &mut [u64], h: &mut Head, call: u64, a: u64, b: u64, c: u64) -> Told {
    if call < 16 {
        run_checked(w, out, h, call, a, b, c)
    } else {
        run_quick(w, out, h, call, a, b, c)
    }
}

// Makes a call, and writes the answer into `told`: 0, or 65535 where the slices have not a head's lengths and nothing is called.
#[unsafe(no_mangle)]
pub extern "C" fn wastelquib_test_wheel(
    w: &mut [u64],
    first: &mut [u16],
    last: &mut [u16],
    marks: &mut [u64],
    numbers: &mut [u64],
    out: &mut [u64],
    told: &mut [u64],
    call: u64,
    a: u64,
    b: u64,
    c: u64,
) -> u64 {
    let Some(head) = head_of(first, last, marks, numbers) else {
        return 65535;
    };
    let mut h = head;
    let answer = run(w, out, &mut h, call, a, b, c);
    put_head(first, last, marks, numbers, &h);
    write_six(told, answer);
    0
}

// The audit: 1 for yes, 0 for no, 65535 where the slices have not a head's lengths.
#[unsafe(no_mangle)]
pub extern "C" fn wastelquib_test_wheel_audit(
    w: &[u64],
    first: &[u16],
    last: &[u16],
    marks: &[u64],
    numbers: &[u64],
) -> u64 {
    match head_of(first, last, marks, numbers) {
        Some(head) => u64::from(audit(w, &head)),
        None => 65535,
    }
}
