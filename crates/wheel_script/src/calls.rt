// Each command on the wheel: the call, and its answer as lines.
// The calls are those in place: head and words come from the set-up and the calls before alone, so an audit would find nothing.

ghost use Rattle.std.specs.Prelude.{ℕ, ◌≤◌, ◌/◌, List, length};
ghost use Rattle.script.specs.Grammar.{read_line};
ghost use Rattle.script.specs.Pages.{same_bytes};
ghost use Rattle.meaning.specs.Calls.{Arm, Move, Cancel, Advance};
ghost use Rattle.slots.specs.Held.{same_slices};
ghost use Rattle.dial.specs.Lent.{lists_in};
ghost use Rattle.wheel_script.specs.Commands.{command_of};
ghost use Rattle.wheel_script.specs.Spoken.{Spoken, call_of, Obeyed};

use crate::answers;
use crate::commands::{Command, read_command};
use cells::store::Handle;
use script::replies::bad_line;
use script::writing::Page;
use slots::slots::Lists;
use wheel::head::Dial;
use wheel::in_place;

fn arm(page: &mut Page, lists: &mut Lists, d: &mut Dial, deadline: u64, load: u64)
    ensures slices { same_slices lists.old lists.new }
    ensures bytes { same_bytes page.old page.new }
    ensures answered { Spoken (Arm deadline load) (lists_in lists.old d.old.due) d.old
        page.old.bytes.now page.old.end (lists_in lists.new d.new.due) d.new page.new.bytes.now page.new.end }
{
    let answer = in_place::arm(lists, d, deadline, load);
    answers::arm(page, answer);
}

fn cancel(page: &mut Page, lists: &mut Lists, d: &mut Dial, timer: Handle)
    ensures slices { same_slices lists.old lists.new }
    ensures bytes { same_bytes page.old page.new }
    ensures answered { Spoken (Cancel timer.cell timer.ticket) (lists_in lists.old d.old.due) d.old
        page.old.bytes.now page.old.end (lists_in lists.new d.new.due) d.new page.new.bytes.now page.new.end }
{
    let answer = in_place::cancel(lists, d, timer);
    answers::cancel(page, answer);
}

fn move_to(page: &mut Page, lists: &mut Lists, d: &mut Dial, timer: Handle, deadline: u64)
    ensures slices { same_slices lists.old lists.new }
    ensures bytes { same_bytes page.old page.new }
    ensures answered { Spoken (Move timer.cell timer.ticket deadline) (lists_in lists.old d.old.due) d.old
        page.old.bytes.now page.old.end (lists_in lists.new d.new.due) d.new page.new.bytes.now page.new.end }
{
    let answer = in_place::move_to(lists, d, timer, deadline);
    answers::move_to(page, answer);
}

// Advances with the records in these output words.
fn advance_into(page: &mut Page, lists: &mut Lists, d: &mut Dial, target: u64, records: &mut [u64])
    ensures slices { same_slices lists.old lists.new }
    ensures bytes { same_bytes page.old page.new }
    ensures answered { Spoken (Advance target (length records.old / 4)) (lists_in lists.old d.old.due) d.old
        page.old.bytes.now page.old.end (lists_in lists.new d.new.due) d.new page.new.bytes.now page.new.end }
{
    let answer = in_place::advance(lists, d, target, records);
    answers::advance(page, answer, records);
}

// Advances with room for at most 64 records.
fn advance(page: &mut Page, lists: &mut Lists, d: &mut Dial, target: u64, room: u64)
    requires { room ≤ 64 }
    ensures slices { same_slices lists.old lists.new }
    ensures bytes { same_bytes page.old page.new }
    ensures answered { Spoken (Advance target room) (lists_in lists.old d.old.due) d.old
        page.old.bytes.now page.old.end (lists_in lists.new d.new.due) d.new page.new.bytes.now page.new.end }
{
    let mut records = [0u64; 256];
    let words = room as usize * 4;
    advance_into(page, lists, d, target, &mut records[..words]);
}

// Does what a line after the first says; one that sets a wheel up is bad here.
#[tactic(auto, unfolding(crate::specs::Spoken::call_of, crate::specs::Spoken::Obeyed))]
pub fn obey(page: &mut Page, lists: &mut Lists, d: &mut Dial, line: &[u8])
    ensures slices { same_slices lists.old lists.new }
    ensures bytes { same_bytes page.old page.new }
    ensures answered { Obeyed (call_of (command_of (read_line line.now))) (lists_in lists.old d.old.due) d.old
        page.old.bytes.now page.old.end (lists_in lists.new d.new.due) d.new page.new.bytes.now page.new.end }
{
    match read_command(line) {
        Some(Command::Arm(deadline, load)) => arm(page, lists, d, deadline, load),
        Some(Command::Cancel(cell, ticket)) => { cancel(page, lists, d, Handle { cell, ticket }) }
        Some(Command::Move(cell, ticket, deadline)) => {
            let timer = Handle { cell, ticket };
            move_to(page, lists, d, timer, deadline)
        }
        Some(Command::Advance(target, room)) => { advance(page, lists, d, target, room) }
        Some(Command::Wheel(_, _)) | None => bad_line(page),
    }
}
