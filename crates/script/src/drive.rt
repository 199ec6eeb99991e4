// The drive of a script program: input is read in chunks, each of its lines is answered by the program's machine, and the answers are
// written out.

ghost use Rattle.std.specs.Prelude.{Bool, ◌≡◌, ◌≤◌, length};
ghost use Rattle.std.specs.ControlFlow.{MatchControlFlow};
ghost use Rattle.script.specs.Pages.{same_bytes};

use crate::chunks::carry;
use crate::console::{read_some, write_all};
use crate::scan::next;
use crate::writing::Page;
use std::io::{Read, Write};
use std::ops::ControlFlow;

// What answers the lines of a script, one after the other.
pub trait Machine {
    // That the machine stands where a run of its script does.
    ghost Reached: { Self → Type 0 };

    // Whether its run goes on.
    ghost GoesOn: { Self → Bool };

    // No answer to a line is longer than so many bytes.
    const ROOM: usize;

    // Answers a line: the answer is written on the page.
    fn answer(&mut self, page: &mut Page, line: &[u8])
        ensures bytes { same_bytes page.old page.new }
        ensures within { page.new.end ≤ length page.old.bytes.now }
        ensures reached { Reached self.old → Reached self.new };

    // Whether there is a further line to read.
    fn goes_on(&self) -> bool
        ensures { result ≡ GoesOn self.now };
}

// Writes out what stands on the page, and begins it again.
fn send<W: Write>(output: &mut W, page: &mut Page)
    requires { page.old.end ≤ length page.old.bytes.now }
    ensures bytes { same_bytes page.old page.new }
    ensures begun { page.new.end ≡ 0 }
{
    let end = page.end;
    let text = &page.bytes[..end];
    write_all(output, text);
    page.end = 0;
}

// Does so where the next answer may not fit.
fn make_room<W: Write>(output: &mut W, page: &mut Page, room: usize)
    requires { page.old.end ≤ length page.old.bytes.now }
    ensures bytes { same_bytes page.old page.new }
    ensures within { page.new.end ≤ page.old.end }
{
    if page.bytes.len() - page.end < room {
        send(output, page);
    }
}

// Answers the whole lines of a chunk, and says where the rest begins: by `next`, since `split` does not say where its last part stands.
fn answer_lines<M: Machine, W: Write>(
    machine: &mut M,
    output: &mut W,
    s: &[u8],
    out: &mut [u8],
) -> usize
    ensures within { result ≤ length s.now }
    ensures reached { M.Reached machine.old → M.Reached machine.new }
{
    let mut page = Page { bytes: out, end: 0 };
    let mut at = 0;
    let mut end = next(s, 0, b'\n');
    while end < s.len() {
        make_room(output, &mut page, M::ROOM);
        machine.answer(&mut page, &s[at..end]);
        at = end + 1;
        end = next(s, at, b'\n');
    }
    send(output, &mut page);
    at
}

// Reads once behind the bytes held, answers the whole lines, and carries the rest to the front: so many bytes are held there now, and
// there is more to read or not.
fn advance<M: Machine, R: Read, W: Write>(
    machine: &mut M,
    input: &mut R,
    output: &mut W,
    buf: &mut [u8],
    held: usize,
    out: &mut [u8],
) -> ControlFlow<usize, usize>
    requires { held ≤ length buf.old }
    ensures within { MatchControlFlow result (λ left. left ≤ length buf.old) (λ left. left ≤ length buf.old) }
    ensures reached { M.Reached machine.old → M.Reached machine.new }
{
    let room = &mut buf[held..];
    let got = read_some(input, room);
    if got == 0 {
        return ControlFlow::Break(held);
    }
    let n = held + got;
    let rest = answer_lines(machine, output, &buf[..n], out);
    let left = carry(buf, rest, n);
    if machine.goes_on() {
        return ControlFlow::Continue(left);
    }
    ControlFlow::Break(left)
}

// Reads to the end of the input or of the run, and says how many bytes of a last line are held then.
// A proved loop has to end, so it has a number of turns that no run uses up.
fn read_all<M: Machine, R: Read, W: Write>(
    machine: &mut M,
    input: &mut R,
    output: &mut W,
    buf: &mut [u8],
    out: &mut [u8],
) -> usize
    ensures within { result ≤ length buf.old }
    ensures reached { M.Reached machine.old → M.Reached machine.new }
{
    let mut held = 0;
    for _ in 0..u64::MAX {
        match advance(machine, input, output, buf, held, out) {
            ControlFlow::Continue(left) => held = left,
            ControlFlow::Break(left) => return left,
        }
    }
    held
}

// Drives a machine over the whole input. The last line may lack its line feed: what is held at the end of the input is a line.
pub fn run<M: Machine, R: Read, W: Write>(
    machine: &mut M,
    input: &mut R,
    output: &mut W,
    buf: &mut [u8],
    out: &mut [u8],
)
    ensures { M.Reached machine.old → M.Reached machine.new }
{
    let held = read_all(machine, input, output, buf, out);
    if held > 0 {
        let mut page = Page { bytes: out, end: 0 };
        machine.answer(&mut page, &buf[..held]);
        send(output, &mut page);
    }
}
