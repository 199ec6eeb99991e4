// The line that answers a command, for each answer of the wheel's calls.
#![tactic(auto, unfolding(wheel::specs::Answers::told_arm, wheel::specs::Answers::told_cancel, wheel::specs::Answers::told_move, wheel::specs::Answers::told_advance, wheel::specs::Answers::told, wheel::specs::Answers::reported, wheel::specs::Answers::report, crate::specs::Texts::answer_text, crate::specs::Texts::ending))]

ghost use Rattle.std.specs.Prelude.{◌++◌};
ghost use Rattle.script.specs.Pages.{same_bytes, Written};
ghost use Rattle.wheel.specs.Answers.{told_arm, told_cancel, told_move, told_advance, records_in};
ghost use Rattle.wheel_script.specs.Texts.{ready_text, armed_text, load_text, moved_text, fired_lines, clock_text, answer_text};

use crate::records::fired_lines;
use cells::refusal::Refusal;
use cells::store::Handle;
use script::replies::refused;
use script::writing::Page;
use wheel::head::Advanced;

pub fn ready(page: &mut Page, n: u64, t: u64)
    ensures bytes { same_bytes page.old page.new }
    ensures written { Written page.old (ready_text n t) page.new }
{
    page.line(b"wheel", &[n], b" clock", &[t], b"");
}

fn armed(page: &mut Page, c: u64, k: u64)
    ensures bytes { same_bytes page.old page.new }
    ensures written { Written page.old (armed_text c k) page.new }
{
    page.line(b"armed", &[c, k], b"", &[], b"");
}

fn load(page: &mut Page, x: u64)
    ensures bytes { same_bytes page.old page.new }
    ensures written { Written page.old (load_text x) page.new }
{
    page.line(b"load", &[x], b"", &[], b"");
}

fn moved(page: &mut Page)
    ensures bytes { same_bytes page.old page.new }
    ensures written { Written page.old moved_text page.new }
{
    page.line(b"moved", &[], b"", &[], b"");
}

fn clock(page: &mut Page, c: u64, m: u64, last: &[u8])
    ensures bytes { same_bytes page.old page.new }
    ensures written { Written page.old (clock_text c m last.now) page.new }
{
    page.line(b"clock", &[c], b" moves", &[m], last);
}

// The lines of k fired records, and the line of the clock.
fn report(page: &mut Page, records: &[u64], k: u64, c: u64, m: u64, last: &[u8])
    ensures bytes { same_bytes page.old page.new }
    ensures written { Written page.old (fired_lines (records_in k records.now) ++ clock_text c m last.now) page.new }
{
    fired_lines(page, records, k);
    clock(page, c, m, last);
}

pub fn arm(page: &mut Page, answer: Result<Handle, Refusal>)
    ensures bytes { same_bytes page.old page.new }
    ensures written { Written page.old (answer_text (told_arm answer)) page.new }
{
    match answer {
        Err(cause) => refused(page, cause),
        Ok(timer) => armed(page, timer.cell, timer.ticket),
    }
}

pub fn cancel(page: &mut Page, answer: Result<u64, Refusal>)
    ensures bytes { same_bytes page.old page.new }
    ensures written { Written page.old (answer_text (told_cancel answer)) page.new }
{
    match answer {
        Err(cause) => refused(page, cause),
        Ok(x) => load(page, x),
    }
}

pub fn move_to(page: &mut Page, answer: Result<(), Refusal>)
    ensures bytes { same_bytes page.old page.new }
    ensures written { Written page.old (answer_text (told_move answer)) page.new }
{
    match answer {
        Err(cause) => refused(page, cause),
        Ok(()) => moved(page),
    }
}

// The records stand in the output words of the advance.
pub fn advance(page: &mut Page, answer: Result<Advanced, Refusal>, records: &[u64])
    ensures bytes { same_bytes page.old page.new }
    ensures written { Written page.old (answer_text (told_advance answer records.now)) page.new }
{
    match answer {
        Err(cause) => refused(page, cause),
        Ok(
            Advanced::Done {
                fired,
                clock,
                moves,
            },
        ) => report(page, records, fired, clock, moves, b" done"),
        Ok(
            Advanced::More {
                fired,
                clock,
                moves,
            },
        ) => report(page, records, fired, clock, moves, b" more"),
    }
}
