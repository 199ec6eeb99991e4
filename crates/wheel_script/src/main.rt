// Drives a wheel by lines of standard input, and prints an answer for each.
#![tactic(auto)]

mod answers;
mod calls;
mod commands;
mod records;
mod running;
mod serving;

ghost use Rattle.wheel_script.specs.Runs.{Before, Stands, Reached};

use crate::running::WheelRun;
use script::console::large_buffer;
use script::drive::run;
use std::io::{Read, Write};

// Drives a run from before its first line over the whole input: so `main` has to begin it there.
fn drive<R: Read, W: Write>(
    machine: &mut WheelRun,
    input: &mut R,
    output: &mut W,
    buf: &mut [u8],
    out: &mut [u8],
)
    requires { Stands machine.old.session machine.old.words machine.old.first machine.old.last machine.old.marks Before }
    ensures { Reached machine.new.session machine.new.words machine.new.first machine.new.last machine.new.marks }
{
    run(machine, input, output, buf, out);
}

#[tactic(auto, unfolding(crate::specs::Runs::Stands))]
fn main(rt: HostRuntime) {
    let mut buf = large_buffer();
    let mut out = large_buffer();
    let mut machine = WheelRun::new();
    drive(
        &mut machine,
        &mut rt.stdin(),
        &mut rt.stdout(),
        &mut buf,
        &mut out,
    );
}
