// A run, line by line: the first line sets the queue up or ends the run, and every other is a command. The wheel's program has functions of
// the same names here, in `answers` and in `calls`: they call another engine, and their promises speak of its model.
#![tactic(auto, unfolding(script::specs::Sessions::words_of))]

ghost use Rattle.std.specs.Prelude.{◌≡◌, ◌≤◌, Some, length};
ghost use Rattle.script.specs.Sessions.{words_of};
ghost use Rattle.script.specs.Pages.{same_bytes};
ghost use Rattle.script.specs.Grammar.{read_line};
ghost use Rattle.queue_script.specs.Commands.{command_of};
ghost use Rattle.queue_script.specs.Runs.{opening_of, Begun};

use crate::answers::ready;
use crate::commands::{Opening, as_first, read_command};
use queue::head::Head;
use queue::setup::set_up;
use script::replies::{bad_line, refused};
use script::session::Session;
use script::writing::Page;

// Sets a queue up: a bad line where the words hold fewer cells.
fn open(page: &mut Page, w: &mut [u64], first: Opening) -> Session<Head>
    requires { (1 ≤ first.cells) × (first.cells ≤ 512) }
    ensures bytes { same_bytes page.old page.new }
    ensures place { page.new.end ≤ length page.old.bytes.now }
    ensures engine { words_of result ≤ length w.old }
    ensures told { 4096 ≤ length w.old → Begun (Some first) page.old.bytes.now page.old.end
        result w.new page.new.bytes.now page.new.end }
{
    let cells = first.cells as usize;
    if cells > w.len() / 8 {
        bad_line(page);
        return Session::Over;
    }
    let words = cells * 8;
    match set_up(&mut w[..words], first.arity) {
        Err(cause) => {
            refused(page, cause);
            Session::Over
        }
        Ok(head) => {
            ready(page, first.cells, first.arity);
            Session::Open(words, head)
        }
    }
}

// Answers the first line.
pub fn begin(page: &mut Page, w: &mut [u64], line: &[u8]) -> Session<Head>
    ensures bytes { same_bytes page.old page.new }
    ensures place { page.new.end ≤ length page.old.bytes.now }
    ensures engine { words_of result ≤ length w.old }
    ensures told { 4096 ≤ length w.old
        → Begun (opening_of (command_of (read_line line.now))) page.old.bytes.now page.old.end
        result w.new page.new.bytes.now page.new.end }
{
    match as_first(read_command(line)) {
        Some(first) => open(page, w, first),
        None => {
            bad_line(page);
            Session::Over
        }
    }
}
