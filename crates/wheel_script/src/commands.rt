// A script line as a command to the wheel: the word, how many numbers follow it and their ranges must all be right.

ghost use Rattle.std.specs.Prelude.{◌≡◌};
ghost use Rattle.script.specs.Grammar.{read_line};
ghost use Rattle.wheel_script.specs.Commands.{wheel_of, advance_of, of_two, of_three, of_line, command_of};
ghost use Rattle.wheel_script.specs.Runs.{opening_of};

use script::reading::{Line, Numbers, read_line};

// Each command with its numbers, in the order of the line.
#[derive(Clone, Copy)]
pub enum Command {
    Wheel(u64, u64),
    Arm(u64, u64),
    Cancel(u64, u64),
    Move(u64, u64, u64),
    Advance(u64, u64),
}

// What a first line sets up: a wheel of so many cells, with its clock at the start.
#[derive(Clone, Copy)]
pub struct Opening {
    pub cells: u64,
    pub start: u64,
}

// The words as `read_line` reads them, bytes as a base-256 number, since the grammar's `word_number` has them so.
const WHEEL: u64 = 0x776865656c;

const ARM: u64 = b'A' as u64;

const CANCEL: u64 = b'C' as u64;

const MOVE: u64 = b'M' as u64;

const ADVANCE: u64 = b'G' as u64;

// A wheel of 1 to 512 cells.
#[tactic(auto, unfolding(crate::specs::Commands::wheel_of))]
fn wheel_of(n: u64, t: u64) -> Option<Command>
    ensures { result ≡ wheel_of n t }
{
    match n {
        1..=512 => Some(Command::Wheel(n, t)),
        _ => None,
    }
}

// An advance with room for at most 64 records.
#[tactic(auto, unfolding(crate::specs::Commands::advance_of))]
fn advance_of(target: u64, room: u64) -> Option<Command>
    ensures { result ≡ advance_of target room }
{
    match room {
        0..=64 => Some(Command::Advance(target, room)),
        _ => None,
    }
}

#[tactic(auto, unfolding(crate::specs::Commands::of_two))]
fn of_two(word: u64, a: u64, b: u64) -> Option<Command>
    ensures { result ≡ of_two word a b }
{
    match word {
        ARM => Some(Command::Arm(a, b)),
        CANCEL => Some(Command::Cancel(a, b)),
        ADVANCE => advance_of(a, b),
        WHEEL => wheel_of(a, b),
        _ => None,
    }
}

#[tactic(auto, unfolding(crate::specs::Commands::of_three))]
fn of_three(word: u64, a: u64, b: u64, c: u64) -> Option<Command>
    ensures { result ≡ of_three word a b c }
{
    match word {
        MOVE => Some(Command::Move(a, b, c)),
        _ => None,
    }
}

// By the numbers first, so that a word with too few or too many is bad.
#[tactic(auto, unfolding(crate::specs::Commands::of_line))]
fn of_line(line: Line) -> Option<Command>
    ensures { result ≡ of_line line.word line.numbers }
{
    match line.numbers {
        Numbers::Zero | Numbers::One(_) => None,
        Numbers::Two(a, b) => of_two(line.word, a, b),
        Numbers::Three(a, b, c) => of_three(line.word, a, b, c),
    }
}

// A line, without its line feed.
#[tactic(auto, unfolding(crate::specs::Commands::command_of))]
pub fn read_command(line: &[u8]) -> Option<Command>
    ensures { result ≡ command_of (read_line line.now) }
{
    of_line(read_line(line)?)
}

// A command as the first of a run: only one that sets a wheel up is right there.
#[tactic(auto, unfolding(crate::specs::Runs::opening_of))]
pub fn as_first(command: Option<Command>) -> Option<Opening>
    ensures { result ≡ opening_of command }
{
    match command {
        Some(Command::Wheel(cells, start)) => Some(Opening { cells, start }),
        _ => None,
    }
}
