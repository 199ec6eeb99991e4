// Each command on the queue: the call, and its answer as a line.
// The calls are the quick ones: head and words come from the set-up and the calls before alone, so an audit would find nothing.

ghost use Rattle.script.specs.Grammar.{read_line};
ghost use Rattle.script.specs.Pages.{same_bytes};
ghost use Rattle.meaning.specs.Calls.{Put, First, Take, Rekey, Remove};
ghost use Rattle.queue_script.specs.Commands.{command_of};
ghost use Rattle.queue_script.specs.Spoken.{Spoken, call_of, Obeyed};

use crate::answers;
use crate::commands::{Command, read_command};
use cells::store::Handle;
use queue::head::Head;
use queue::quick;
use script::replies::bad_line;
use script::writing::Page;

fn put(page: &mut Page, w: &mut [u64], h: &mut Head, key: u64, load: u64)
    ensures bytes { same_bytes page.old page.new }
    ensures answered { Spoken (Put key load) h.old w.old
        page.old.bytes.now page.old.end h.new w.new page.new.bytes.now page.new.end }
{
    let answer = quick::put(w, h, key, load);
    answers::put(page, answer);
}

fn first(page: &mut Page, w: &[u64], h: &Head)
    ensures bytes { same_bytes page.old page.new }
    ensures answered { Spoken First h.now w.now
        page.old.bytes.now page.old.end h.now w.now page.new.bytes.now page.new.end }
{
    let answer = quick::first(w, h);
    answers::first(page, answer);
}

fn take(page: &mut Page, w: &mut [u64], h: &mut Head)
    ensures bytes { same_bytes page.old page.new }
    ensures answered { Spoken Take h.old w.old
        page.old.bytes.now page.old.end h.new w.new page.new.bytes.now page.new.end }
{
    let answer = quick::take(w, h);
    answers::take(page, answer);
}

fn rekey(page: &mut Page, w: &mut [u64], h: &mut Head, entry: Handle, key: u64)
    ensures bytes { same_bytes page.old page.new }
    ensures answered { Spoken (Rekey entry.cell entry.ticket key) h.old w.old
        page.old.bytes.now page.old.end h.new w.new page.new.bytes.now page.new.end }
{
    let answer = quick::rekey(w, h, entry, key);
    answers::rekey(page, answer);
}

fn remove(page: &mut Page, w: &mut [u64], h: &mut Head, entry: Handle)
    ensures bytes { same_bytes page.old page.new }
    ensures answered { Spoken (Remove entry.cell entry.ticket) h.old w.old
        page.old.bytes.now page.old.end h.new w.new page.new.bytes.now page.new.end }
{
    let answer = quick::remove(w, h, entry);
    answers::remove(page, answer);
}

// Does what a line after the first says; one that sets a queue up is bad here.
#[tactic(auto, unfolding(crate::specs::Spoken::call_of, crate::specs::Spoken::Obeyed))]
pub fn obey(page: &mut Page, w: &mut [u64], h: &mut Head, line: &[u8])
    ensures bytes { same_bytes page.old page.new }
    ensures answered { Obeyed (call_of (command_of (read_line line.now))) h.old w.old
        page.old.bytes.now page.old.end h.new w.new page.new.bytes.now page.new.end }
{
    match read_command(line) {
        Some(Command::Put(key, load)) => put(page, w, h, key, load),
        Some(Command::First) => first(page, w, h),
        Some(Command::Take) => take(page, w, h),
        Some(Command::Rekey(cell, ticket, key)) => rekey(page, w, h, Handle { cell, ticket }, key),
        Some(Command::Remove(cell, ticket)) => remove(page, w, h, Handle { cell, ticket }),
        Some(Command::Queue(_, _)) | None => bad_line(page),
    }
}
