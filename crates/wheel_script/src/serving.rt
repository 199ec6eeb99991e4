// A run, line by line: the first line sets the wheel up or ends the run, and every other is a command. The queue's program has functions of
// the same names here, in `answers` and in `calls`: they call another engine, and their promises speak of its model.
#![tactic(auto, unfolding(script::specs::Sessions::words_of))]

ghost use Rattle.std.specs.Prelude.{◌≡◌, ℕ, ◌≤◌, List, Some, length};
ghost use Rattle.script.specs.Sessions.{words_of};
ghost use Rattle.script.specs.Pages.{same_bytes};
ghost use Rattle.script.specs.Grammar.{read_line};
ghost use Rattle.wheel_script.specs.Commands.{command_of};
ghost use Rattle.wheel_script.specs.Runs.{Before, opening_of, Blank, Begun};

use crate::answers::ready;
use crate::commands::{Opening, as_first, read_command};
use script::replies::{bad_line, refused};
use script::session::Session;
use script::writing::Page;
use wheel::head::Dial;
use wheel::setup::set_up;

// Sets a wheel up: a bad line where the words hold fewer cells.
// A run opens one wheel at most, so that the lent arrays are those of an empty wheel still, and the head's are not copied into them.
fn open(page: &mut Page, w: &mut [u64], opening: Opening) -> Session<Dial>
    requires { (1 ≤ opening.cells) × (opening.cells ≤ 512) }
    ensures bytes { same_bytes page.old page.new }
    ensures place { page.new.end ≤ length page.old.bytes.now }
    ensures engine { words_of result ≤ length w.old }
    ensures told { (first last marks : List ℕ) → Blank w.old first last marks Before
        → Begun (Some opening) page.old.bytes.now page.old.end
        result w.new first last marks page.new.bytes.now page.new.end }
{
    let cells = opening.cells as usize;
    if cells > w.len() / 8 {
        bad_line(page);
        return Session::Over;
    }
    let words = cells * 8;
    match set_up(&mut w[..words], opening.start) {
        Err(cause) => {
            refused(page, cause);
            Session::Over
        }
        Ok(head) => {
            let dial = head.dial;
            ready(page, opening.cells, opening.start);
            Session::Open(words, dial)
        }
    }
}

// Answers the first line.
pub fn begin(page: &mut Page, w: &mut [u64], line: &[u8]) -> Session<Dial>
    ensures bytes { same_bytes page.old page.new }
    ensures place { page.new.end ≤ length page.old.bytes.now }
    ensures engine { words_of result ≤ length w.old }
    ensures told { (first last marks : List ℕ) → Blank w.old first last marks Before
        → Begun (opening_of (command_of (read_line line.now))) page.old.bytes.now page.old.end
        result w.new first last marks page.new.bytes.now page.new.end }
{
    match as_first(read_command(line)) {
        Some(opening) => open(page, w, opening),
        None => {
            bad_line(page);
            Session::Over
        }
    }
}
