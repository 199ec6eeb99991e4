// Tries the shared audit on a small store as calls leave it, and on the same memory with one thing broken, and prints each verdict.
#![tactic(auto)]

use audits::audit::audit;
use cells::store::{Store, set_up};
use cells::words::put;
use script::console::write_all;
use std::io::Stdout;

// The fields that these cases leave unused: in a cell in use all but the first four words, in a free one all but the link.
const USED: u64 = 240;

const FREE: u64 = 239;

// What is done to the memory of a store, or to its head.
#[derive(Clone, Copy)]
enum Change {
    // One word of one cell is set to a value.
    Word(u64, u64, u64),
    // The head says other cells, another top and another counter.
    Head(u64, u64, u64),
    // The last words, which belong to no cell, hold anything.
    Tail,
}

// A change, by name.
#[derive(Clone, Copy)]
struct Case<'a> {
    name: &'a [u8],
    change: Change,
}

fn word(name: &[u8], cell: u64, field: u64, value: u64) -> Case<'_> {
    Case {
        name,
        change: Change::Word(cell, field, value),
    }
}

fn head(name: &[u8], cells: u64, free: u64, counter: u64) -> Case<'_> {
    Case {
        name,
        change: Change::Head(cells, free, counter),
    }
}

fn tail(name: &[u8]) -> Case<'_> {
    Case {
        name,
        change: Change::Tail,
    }
}

// Four cells: 0 and 2 in use with tickets 1 and 3, then 1, which was in use, on top of 3 in the free stack.
fn build(w: &mut [u64]) -> Store {
    let Ok(mut store) = set_up(w) else {
        return Store {
            cells: 0,
            free: 4096,
            counter: 0,
        };
    };
    for (key, load) in [(5, 50), (3, 30), (9, 90)] {
        let _ = store.claim(w, key, load);
    }
    store.release(w, 1);
    store
}

// The audit's verdict on that store after a change.
fn verdict(change: Change) -> bool {
    let fill = if let Change::Tail = change { 7 } else { 0 };
    let mut w = [fill; 35];
    let mut store = build(&mut w);
    match change {
        Change::Word(cell, field, value) => put(&mut w, cell, field, value),
        Change::Head(cells, free, counter) => {
            store = Store {
                cells,
                free,
                counter,
            };
        }
        Change::Tail => {}
    }
    audit(&w, store, USED, FREE)
}

// Says a line in two writes: the name, and the rest with its line feed.
fn say(mut output: Stdout, name: &[u8], rest: &[u8]) {
    write_all(&mut output, name);
    write_all(&mut output, rest);
}

fn yes_or_no(ok: bool) -> &'static [u8] {
    if ok { b": yes\n" } else { b": no\n" }
}

// A store of its own in lent words that hold anything.
fn fresh(output: Stdout, name: &[u8], w: &mut [u64]) {
    let rest = match set_up(w) {
        Err(_) => b": refused 1\n",
        Ok(store) => yes_or_no(audit(w, store, USED, FREE)),
    };
    say(output, name, rest);
}

fn sizes(output: Stdout) {
    fresh(output, b"set-up in 7 words", &mut [5; 7]);
    fresh(output, b"set-up in 8 words", &mut [5; 8]);
    fresh(output, b"set-up in 79 words", &mut [5; 79]);
}

fn tell(output: Stdout, cases: &[Case]) {
    for case in cases {
        say(output, case.name, yes_or_no(verdict(case.change)));
    }
}

fn sound(output: Stdout) {
    let cases = [
        word(b"as calls left it", 0, 0, 1),
        word(b"any load", 0, 3, u64::MAX),
        word(b"any key", 2, 2, u64::MAX),
        word(b"a write past the cells", 4, 0, 9),
        word(b"a write past the fields", 0, 8, 9),
        tail(b"any words behind the cells"),
        head(b"a counter far on", 4, 1, u64::MAX),
    ];
    tell(output, &cases);
}

fn stacks(output: Stdout) {
    let cases = [
        word(b"a cycle in the free stack", 3, 4, 1),
        word(b"a link to itself", 1, 4, 1),
        word(b"a link just past the cells", 3, 4, 4),
        word(b"a link out of range", 3, 4, 5000),
        word(b"a link to a cell in use", 3, 4, 2),
        word(b"a free cell left out", 1, 4, 4096),
        word(b"a cell both free and in use", 1, 0, 4),
        head(b"a top that skips a free cell", 4, 3, 4),
        head(b"no top", 4, 4096, 4),
    ];
    tell(output, &cases);
}

fn numbers(output: Stdout) {
    let cases = [
        word(b"equal tickets", 2, 0, 1),
        word(b"equal order numbers", 0, 1, 3),
        word(b"a ticket above its order number", 2, 0, 4),
        word(b"an order number at the counter", 2, 1, 4),
        word(b"a cell in use without ticket", 2, 0, 0),
        head(b"a counter at an order number", 4, 1, 3),
        head(b"a counter of 0", 4, 1, 0),
    ];
    tell(output, &cases);
}

fn strays(output: Stdout) {
    let cases = [
        word(b"a stray word in a cell in use", 0, 7, 1),
        word(b"a stray previous cell", 2, 5, 1),
        word(b"a stray order number in a free cell", 1, 1, 1),
        word(b"a stray load in a free cell", 3, 3, 1),
        head(b"too few cells", 3, 1, 4),
        head(b"too many cells", 5, 1, 4),
        head(b"no cells", 0, 4096, 1),
    ];
    tell(output, &cases);
}

fn main(rt: HostRuntime) {
    let output = rt.stdout();
    sizes(output);
    sound(output);
    stacks(output);
    numbers(output);
    strays(output);
}
