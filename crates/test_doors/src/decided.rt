// How the audits came to their answers, for tests that count how often a table gives up, or a look along the lists does not tell.

use crate::lent::read;
use crate::wheel_door::dial_of;
use audits::sweep::{Findings, swept};
use wheel_rules::walk::{Noted, walked};

// What one pass over the cells tells: 0 where an entry is not sound, 1 where the tables gave up, 2 where they know that the numbers differ.
fn told(findings: Option<Findings>) -> u64 {
    match findings {
        None => 0,
        Some(Findings { left: 0, .. }) => 1,
        Some(_) => 2,
    }
}

// One pass over the cells, numbers evenly spread (`scattered` 0) or scattered as well: the cells and the counter as two numbers, the mask
// of the fields that an entry leaves unused.
#[unsafe(no_mangle)]
pub extern "C" fn wastelquib_test_tables(
    w: &[u64],
    numbers: &[u64],
    used: u64,
    scattered: u64,
) -> u64 {
    told(swept(w, read(numbers, 0), read(numbers, 1), used, scattered != 0))
}

// What a walk along the lists tells: 0 where one is not sound, 1 where order numbers do not rise along each, 2 where they do.
fn walk_told(noted: Option<Noted>) -> u64 {
    match noted {
        None => 0,
        Some(found) => 1 + u64::from(found.rise),
    }
}

// The walk along a wheel's lists, by the ends of its slots and its six numbers.
#[unsafe(no_mangle)]
pub extern "C" fn wastelquib_test_walked(
    w: &[u64],
    first: &[u16],
    last: &[u16],
    numbers: &[u64],
) -> u64 {
    walk_told(walked(w, first, last, dial_of(numbers)))
}
