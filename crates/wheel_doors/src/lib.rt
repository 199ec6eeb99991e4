// One trace of calls on a wheel for programs in other languages: the benchmark links it. This is a benchmark's harness, so that its contracts are modest:
// what it is proved to do is to end, and to stay within the lent words and arrays. What the wheel's calls do is promised where they stand.
#![tactic(auto)]

use cells::store::Handle;
use slots::slots::Lists;
use wheel::head::{Advanced, Dial};
use wheel::in_place::{advance, arm, cancel, move_to};
use wheel::setup::set_up;

// An operation of a trace: the slot is that of its timer's handle.
#[derive(Clone, Copy)]
enum Operation {
    Arm { slot: u64, deadline: u64 },
    Cancel { slot: u64 },
    Move { slot: u64, deadline: u64 },
    Advance { target: u64 },
}

// Sums of what came out: one in which order counts, and one in which it does not.
#[derive(Clone, Copy)]
struct Sums {
    sum: u64,
    loads: u64,
}

// The sum with one number more; its order counts.
fn mix(sum: u64, x: u64) -> u64 {
    sum % 4294967296 * 31 + x % 4294967296
}

// The sum with one deadline and its load more: as far as its remainder by 2^32 goes, their order does not count.
fn blend(loads: u64, deadline: u64, load: u64) -> u64 {
    loads % 4294967296 + mix(deadline, load) % 1048573
}

impl Sums {
    // One number more.
    fn add(&mut self, x: u64) {
        self.sum = mix(self.sum, x);
    }

    // What was fired more: the deadline and the load of each record.
    fn add_records(&mut self, out: &[u64], fired: u64) {
        for record in out.chunks_exact(4).take(fired as usize) {
            self.add(record[2]);
            self.loads = blend(self.loads, record[2], record[3]);
        }
    }

    // Both in one number.
    fn both(&self) -> u64 {
        mix(self.sum, self.loads)
    }
}

// Word j, or 0 where there is none. What mixes, reads, writes and keeps here has a twin in `queue_doors`: no crate sees a static library, and a
// crate of these few lines of a benchmark would promise nothing and be no plainer.
fn read(w: &[u64], j: u64) -> u64 {
    w.get(j as usize).copied().unwrap_or(0)
}

// Writes word j, where there is one.
fn write(w: &mut [u64], j: u64, x: u64) {
    if let Some(word) = w.get_mut(j as usize) {
        *word = x;
    }
}

// Keeps a handle in a slot: at most 2^62 - 1, as a trace has it.
fn keep(handles: &mut [u64], slot: u64, at: Handle) {
    let j = slot % 4611686018427387904 * 2;
    write(handles, j, at.cell);
    write(handles, j + 1, at.ticket);
}

// The handle in a slot.
fn kept(handles: &[u64], slot: u64) -> Handle {
    let j = slot % 4611686018427387904 * 2;
    Handle {
        cell: read(handles, j),
        ticket: read(handles, j + 1),
    }
}

// Advances the clock: what is fired is summed. The output has room for every timer, so that one call is enough; were it not, the sums would differ.
fn run_advance(lists: &mut Lists, out: &mut [u64], d: &mut Dial, s: &mut Sums, target: u64) {
    match advance(lists, d, target, out) {
        Ok(Advanced::Done { fired, clock, .. }) => {
            s.add(clock);
            s.add_records(out, fired);
        }
        Ok(Advanced::More { .. }) => s.add(0),
        Err(why) => s.add(u64::from(why)),
    }
}

// Runs one operation: an armed timer's handle is kept, a cancelled one's load is summed, and so is the number of a refusal.
fn run_one(
    lists: &mut Lists,
    out: &mut [u64],
    handles: &mut [u64],
    d: &mut Dial,
    s: &mut Sums,
    o: Operation,
    load: u64,
) {
    match o {
        Operation::Arm { slot, deadline } => {
            match arm(lists, d, deadline, load) {
                Ok(at) => keep(handles, slot, at),
                Err(why) => s.add(u64::from(why)),
            }
        }
        Operation::Cancel { slot } => match cancel(lists, d, kept(handles, slot)) {
            Ok(load) => s.add(load),
            Err(why) => s.add(u64::from(why)),
        },
        Operation::Move { slot, deadline } => {
            if let Err(why) = move_to(lists, d, kept(handles, slot), deadline) {
                s.add(u64::from(why));
            }
        }
        Operation::Advance { target } => run_advance(lists, out, d, s, target),
    }
}

// The operation of two words, as C writes them: the slot times 4 with the kind (0 arm, 1 cancel, 2 move, 3 advance), then the tick.
fn operation_of(word: u64, tick: u64) -> Operation {
    let slot = word / 4;
    match word % 4 {
        0 => Operation::Arm {
            slot,
            deadline: tick,
        },
        1 => Operation::Cancel { slot },
        2 => Operation::Move {
            slot,
            deadline: tick,
        },
        _ => Operation::Advance { target: tick },
    }
}

// Runs a trace from these numbers on, and gives the sum of what came out; an armed timer's load is the operation's number.
fn run_all(
    lists: &mut Lists,
    out: &mut [u64],
    trace: &[u64],
    handles: &mut [u64],
    d: &mut Dial,
) -> u64 {
    let mut s = Sums { sum: 0, loads: 0 };
    for (load, words) in (0..).zip(trace.chunks_exact(2)) {
        let o = operation_of(words[0], words[1]);
        run_one(lists, out, handles, d, &mut s, o, load);
    }
    s.both()
}

// Sets a wheel up in the words w, its clock at 0, and runs a trace on it: the sum of what came out. The arrays are those of an empty wheel: 384 times 4096
// twice, and six zeros. The handles of a trace's slots are kept in `handles`, two words to a slot.
#[unsafe(no_mangle)]
pub extern "C" fn wastelquib_wheel_trace(
    w: &mut [u64],
    first: &mut [u16],
    last: &mut [u16],
    marks: &mut [u64],
    out: &mut [u64],
    trace: &[u64],
    handles: &mut [u64],
) -> u64 {
    match set_up(w, 0) {
        Ok(head) => {
            let mut dial = head.dial;
            let mut lists = Lists {
                words: w,
                first,
                last,
                marks,
            };
            run_all(&mut lists, out, trace, handles, &mut dial)
        }
        Err(why) => u64::from(why),
    }
}
