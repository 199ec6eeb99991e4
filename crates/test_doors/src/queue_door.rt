// The ready queue's set-up, audit, checked calls and quick calls, the head lent as five numbers: the arity, the number of entries, the cells, the top of
// the free stack, the counter.

use crate::lent::{Told, read, write_numbers, write_six};
use cells::refusal::Refusal;
use cells::store::{Handle, Store};
use queue::audit::audit;
use queue::head::Head;
use queue::setup::set_up;
use queue::{checked, quick};

// The head that lent numbers hold.
fn head_of(numbers: &[u64]) -> Head {
    let store = Store {
        cells: read(numbers, 2),
        free: read(numbers, 3),
        counter: read(numbers, 4),
    };
    Head {
        arity: read(numbers, 0),
        count: read(numbers, 1),
        store,
    }
}

// Writes a head into its lent numbers.
fn put_head(numbers: &mut [u64], h: &Head) {
    let store = h.store;
    write_numbers(
        numbers,
        &[h.arity, h.count, store.cells, store.free, store.counter],
    );
}

// Sets a queue up: a refused set-up keeps the head.
fn begin(w: &mut [u64], h: &mut Head, arity: u64) -> Result<(), Refusal> {
    *h = set_up(w, arity)?;
    Ok(())
}

// The checked call of this number, which is how C names it: 0 set-up, 1 put, 2 rekey, 3 remove, 4 take, else first.
fn run_checked(w: &mut [u64], h: &mut Head, call: u64, a: u64, b: u64, c: u64) -> Told {
    let at = Handle { cell: a, ticket: b };
    match call {
        0 => Told::from(begin(w, h, a)),
        1 => Told::from(checked::put(w, h, a, b)),
        2 => Told::from(checked::rekey(w, h, at, c)),
        3 => Told::from(checked::remove(w, h, at)),
        4 => Told::from(checked::take(w, h)),
        _ => Told::from(checked::first(w, h)),
    }
}

// The quick call of this number, as C names it: 17 put, 18 rekey, 19 remove, 20 take, else first.
fn run_quick(w: &mut [u64], h: &mut Head, call: u64, a: u64, b: u64, c: u64) -> Told {
    let at = Handle { cell: a, ticket: b };
    match call {
        17 => Told::from(quick::put(w, h, a, b)),
        18 => Told::from(quick::rekey(w, h, at, c)),
        19 => Told::from(quick::remove(w, h, at)),
        20 => Told::from(quick::take(w, h)),
        _ => Told::from(quick::first(w, h)),
    }
}

// A checked call by a number below 16, a quick call by the same number and 16.
fn run(w: &mut [u64], h: &mut Head, call: u64, a: u64, b: u64, c: u64) -> Told {
    if call < 16 {
        run_checked(w, h, call, a, b, c)
    } else {
        run_quick(w, h, call, a, b, c)
    }
}

// Makes a call, and writes it into `answer`: 0, or 65535 where there are not five numbers and nothing is called.
#[unsafe(no_mangle)]
pub extern "C" fn wastelquib_test_queue(
    w: &mut [u64],
    numbers: &mut [u64],
    answer: &mut [u64],
    call: u64,
    a: u64,
    b: u64,
    c: u64,
) -> u64 {
    if numbers.len() != 5 {
        return 65535;
    }
    let mut head = head_of(numbers);
    let done = run(w, &mut head, call, a, b, c);
    put_head(numbers, &head);
    write_six(answer, done);
    0
}

// The audit: 1 for yes, 0 for no, 65535 where there are not five numbers.
#[unsafe(no_mangle)]
pub extern "C" fn wastelquib_test_queue_audit(w: &[u64], numbers: &[u64]) -> u64 {
    if numbers.len() != 5 {
        return 65535;
    }
    u64::from(audit(w, &head_of(numbers)))
}
