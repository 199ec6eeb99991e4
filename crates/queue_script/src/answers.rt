// The line that answers a command, for each answer of the queue's calls.
#![tactic(auto, unfolding(queue::specs::Answers::told_put, queue::specs::Answers::told_first, queue::specs::Answers::told_take, queue::specs::Answers::told_rekey, queue::specs::Answers::told_remove, queue::specs::Answers::told, queue::specs::Answers::refusal, queue::specs::Answers::handed, crate::specs::Texts::answer_text, crate::specs::Texts::shown_text))]

ghost use Rattle.std.specs.Prelude.{true, false};
ghost use Rattle.script.specs.Pages.{same_bytes, Written};
ghost use Rattle.queue.specs.Answers.{told_put, told_first, told_take, told_rekey, told_remove};
ghost use Rattle.queue_script.specs.Texts.{ready_text, entered_text, stands_text, took_text, rekeyed_text, load_text, told_text};

use cells::refusal::Refusal;
use queue::head::{Entered, Found, Removed, Taken};
use script::replies::refused;
use script::writing::Page;

pub fn ready(page: &mut Page, n: u64, d: u64)
    ensures bytes { same_bytes page.old page.new }
    ensures written { Written page.old (ready_text n d) page.new }
{
    page.line(b"queue", &[n], b" arity", &[d], b"");
}

fn entered(page: &mut Page, c: u64, k: u64, m: u64)
    ensures bytes { same_bytes page.old page.new }
    ensures written { Written page.old (entered_text c k m) page.new }
{
    page.line(b"put", &[c, k], b" moves", &[m], b"");
}

fn stands(page: &mut Page, f: Found)
    ensures bytes { same_bytes page.old page.new }
    ensures written { Written page.old (stands_text f.key f.at.cell f.at.ticket f.load) page.new }
{
    let found = [f.key, f.at.cell, f.at.ticket, f.load];
    page.line(b"first", &found, b"", &[], b"");
}

fn took(page: &mut Page, f: Found, m: u64)
    ensures bytes { same_bytes page.old page.new }
    ensures written { Written page.old (took_text f.key f.at.cell f.at.ticket f.load m) page.new }
{
    let found = [f.key, f.at.cell, f.at.ticket, f.load];
    page.line(b"took", &found, b" moves", &[m], b"");
}

fn rekeyed(page: &mut Page, m: u64)
    ensures bytes { same_bytes page.old page.new }
    ensures written { Written page.old (rekeyed_text m) page.new }
{
    page.line(b"rekeyed", &[], b" moves", &[m], b"");
}

fn load(page: &mut Page, x: u64, m: u64)
    ensures bytes { same_bytes page.old page.new }
    ensures written { Written page.old (load_text x m) page.new }
{
    page.line(b"load", &[x], b" moves", &[m], b"");
}

pub fn put(page: &mut Page, answer: Result<Entered, Refusal>)
    ensures bytes { same_bytes page.old page.new }
    ensures written { Written page.old (told_text false (told_put answer)) page.new }
{
    match answer {
        Err(cause) => refused(page, cause),
        Ok(e) => entered(page, e.at.cell, e.at.ticket, e.moves),
    }
}

pub fn first(page: &mut Page, answer: Result<Found, Refusal>)
    ensures bytes { same_bytes page.old page.new }
    ensures written { Written page.old (told_text false (told_first answer)) page.new }
{
    match answer {
        Err(cause) => refused(page, cause),
        Ok(f) => stands(page, f),
    }
}

pub fn take(page: &mut Page, answer: Result<Taken, Refusal>)
    ensures bytes { same_bytes page.old page.new }
    ensures written { Written page.old (told_text true (told_take answer)) page.new }
{
    match answer {
        Err(cause) => refused(page, cause),
        Ok(t) => took(page, t.found, t.moves),
    }
}

pub fn rekey(page: &mut Page, answer: Result<u64, Refusal>)
    ensures bytes { same_bytes page.old page.new }
    ensures written { Written page.old (told_text false (told_rekey answer)) page.new }
{
    match answer {
        Err(cause) => refused(page, cause),
        Ok(m) => rekeyed(page, m),
    }
}

pub fn remove(page: &mut Page, answer: Result<Removed, Refusal>)
    ensures bytes { same_bytes page.old page.new }
    ensures written { Written page.old (told_text false (told_remove answer)) page.new }
{
    match answer {
        Err(cause) => refused(page, cause),
        Ok(x) => load(page, x.load, x.moves),
    }
}
