// One trace of calls on a ready queue for programs in other languages: the benchmark links it. This is a benchmark's harness, so that its contracts
// are modest: what it is proved to do is to end, and to stay within the lent words. What the queue's calls do is promised where they stand.
#![tactic(auto)]

use cells::refusal::Refusal;
use cells::store::Handle;
use queue::head::{Head, Taken};
use queue::quick::{put, rekey, remove, take};
use queue::setup::set_up;

// Where a trace stands: the queue's head, and the sum of what came out.
#[derive(Clone, Copy)]
struct Run {
    head: Head,
    sum: u64,
}

// What an operation does, in the order of their numbers in a trace.
#[derive(Clone, Copy)]
enum Kind {
    Put,
    Take,
    Rekey,
    Remove,
}

// An operation: its kind, the slot of its handle, and its key.
#[derive(Clone, Copy)]
struct Operation {
    kind: Kind,
    slot: u64,
    key: u64,
}

// The sum with one number more; its order counts.
fn mix(sum: u64, x: u64) -> u64 {
    sum % 4294967296 * 31 + x % 4294967296
}

// Word j, or 0 where there is none. What mixes, reads, writes and keeps here has a twin in `wheel_doors`: no crate sees a static library, and a
// crate of these few lines of a benchmark would promise nothing and be no plainer.
fn read(w: &[u64], j: u64) -> u64 {
    w.get(j as usize).copied().unwrap_or(0)
}

// Writes word j, where there is one.
fn write(w: &mut [u64], j: u64, x: u64) {
    if let Some(word) = w.get_mut(j as usize) {
        *word = x;
    }
}

// Keeps a handle in a slot: at most 2^62 - 1, as a trace has it.
fn keep(handles: &mut [u64], slot: u64, at: Handle) {
    let j = slot % 4611686018427387904 * 2;
    write(handles, j, at.cell);
    write(handles, j + 1, at.ticket);
}

// The handle in a slot.
fn kept(handles: &[u64], slot: u64) -> Handle {
    let j = slot % 4611686018427387904 * 2;
    Handle {
        cell: read(handles, j),
        ticket: read(handles, j + 1),
    }
}

impl Kind {
    // The kind of a number below 4; of any other the last.
    fn of(number: u64) -> Kind {
        match number {
            0 => Kind::Put,
            1 => Kind::Take,
            2 => Kind::Rekey,
            _ => Kind::Remove,
        }
    }
}

impl Run {
    // Sums one number more.
    fn add(&mut self, x: u64) {
        self.sum = mix(self.sum, x);
    }

    // Puts an entry in, and keeps its handle.
    fn put(
        &mut self,
        w: &mut [u64],
        handles: &mut [u64],
        o: Operation,
        load: u64,
    ) -> Result<(), Refusal> {
        let done = put(w, &mut self.head, o.key, load)?;
        keep(handles, o.slot, done.at);
        Ok(())
    }

    // Takes the first entry out: its key and its load are summed.
    fn take(&mut self, w: &mut [u64]) -> Result<(), Refusal> {
        let Taken { found, .. } = take(w, &mut self.head)?;
        self.add(found.key);
        self.add(found.load);
        Ok(())
    }

    // Gives the entry of a slot another key.
    fn rekey(&mut self, w: &mut [u64], handles: &[u64], o: Operation) -> Result<(), Refusal> {
        rekey(w, &mut self.head, kept(handles, o.slot), o.key)?;
        Ok(())
    }

    // Takes the entry of a slot out: its load is summed.
    fn remove(&mut self, w: &mut [u64], handles: &[u64], o: Operation) -> Result<(), Refusal> {
        let done = remove(w, &mut self.head, kept(handles, o.slot))?;
        self.add(done.load);
        Ok(())
    }

    // Runs one operation; a put's load is the operation's number.
    fn run(
        &mut self,
        w: &mut [u64],
        handles: &mut [u64],
        o: Operation,
        load: u64,
    ) -> Result<(), Refusal> {
        match o.kind {
            Kind::Put => self.put(w, handles, o, load),
            Kind::Take => self.take(w),
            Kind::Rekey => self.rekey(w, handles, o),
            Kind::Remove => self.remove(w, handles, o),
        }
    }
}

// The operation of two words, as C writes them: the slot times 4 with the kind (0 put, 1 take, 2 rekey, 3 remove), then the key.
fn operation_of(word: u64, key: u64) -> Operation {
    Operation {
        kind: Kind::of(word % 4),
        slot: word / 4,
        key,
    }
}

// Runs a trace from this head on, and gives the sum of what came out; a refusal counts as its number.
fn run_all(w: &mut [u64], trace: &[u64], handles: &mut [u64], head: Head) -> u64 {
    let mut r = Run { head, sum: 0 };
    for (load, words) in (0..).zip(trace.chunks_exact(2)) {
        let o = operation_of(words[0], words[1]);
        if let Err(cause) = r.run(w, handles, o, load) {
            r.add(u64::from(cause));
        }
    }
    r.sum
}

// Sets a queue of arity d up in the words w and runs a trace on it: the sum of what came out. The handles of a trace's slots are kept in `handles`, two
// words to a slot.
#[unsafe(no_mangle)]
pub extern "C" fn wastelquib_queue_trace(
    w: &mut [u64],
    d: u64,
    trace: &[u64],
    handles: &mut [u64],
) -> u64 {
    match set_up(w, d) {
        Ok(head) => run_all(w, trace, handles, head),
        Err(cause) => u64::from(cause),
    }
}
