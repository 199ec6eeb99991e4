// A script line as a command to the queue: the word and how many numbers follow it must both be right.

ghost use Rattle.std.specs.Prelude.{◌≡◌};
ghost use Rattle.script.specs.Grammar.{read_line};
ghost use Rattle.queue_script.specs.Commands.{queue_of, of_none, of_two, of_three, of_line, command_of};
ghost use Rattle.queue_script.specs.Runs.{opening_of};

use script::reading::{Line, Numbers, read_line};

// Each command with its numbers, in the order of the line.
#[derive(Clone, Copy)]
pub enum Command {
    Queue(u64, u64),
    Put(u64, u64),
    First,
    Take,
    Rekey(u64, u64, u64),
    Remove(u64, u64),
}

// What a first line sets up: a queue of so many cells, of an arity.
#[derive(Clone, Copy)]
pub struct Opening {
    pub cells: u64,
    pub arity: u64,
}

// The words as `read_line` reads them, bytes as a base-256 number, since the grammar's `word_number` has them so.
const QUEUE: u64 = 0x7175657565;

const PUT: u64 = b'P' as u64;

const FIRST: u64 = b'F' as u64;

const TAKE: u64 = b'T' as u64;

const REKEY: u64 = b'K' as u64;

const REMOVE: u64 = b'R' as u64;

#[tactic(auto, unfolding(crate::specs::Commands::of_none))]
fn of_none(word: u64) -> Option<Command>
    ensures { result ≡ of_none word }
{
    match word {
        FIRST => Some(Command::First),
        TAKE => Some(Command::Take),
        _ => None,
    }
}

// A queue of 1 to 512 cells.
#[tactic(auto, unfolding(crate::specs::Commands::queue_of))]
fn queue_of(n: u64, d: u64) -> Option<Command>
    ensures { result ≡ queue_of n d }
{
    match n {
        1..=512 => Some(Command::Queue(n, d)),
        _ => None,
    }
}

#[tactic(auto, unfolding(crate::specs::Commands::of_two))]
fn of_two(word: u64, a: u64, b: u64) -> Option<Command>
    ensures { result ≡ of_two word a b }
{
    match word {
        PUT => Some(Command::Put(a, b)),
        REMOVE => Some(Command::Remove(a, b)),
        QUEUE => queue_of(a, b),
        _ => None,
    }
}

#[tactic(auto, unfolding(crate::specs::Commands::of_three))]
fn of_three(word: u64, a: u64, b: u64, c: u64) -> Option<Command>
    ensures { result ≡ of_three word a b c }
{
    match word {
        REKEY => Some(Command::Rekey(a, b, c)),
        _ => None,
    }
}

// By the numbers first, so that a word with too few or too many is bad.
#[tactic(auto, unfolding(crate::specs::Commands::of_line))]
fn of_line(line: Line) -> Option<Command>
    ensures { result ≡ of_line line.word line.numbers }
{
    match line.numbers {
        Numbers::Zero => of_none(line.word),
        Numbers::One(_) => None,
        Numbers::Two(a, b) => of_two(line.word, a, b),
        Numbers::Three(a, b, c) => of_three(line.word, a, b, c),
    }
}

// A line, without its line feed.
#[tactic(auto, unfolding(crate::specs::Commands::command_of))]
pub fn read_command(line: &[u8]) -> Option<Command>
    ensures { result ≡ command_of (read_line line.now) }
{
    of_line(read_line(line)?)
}

// A command as the first of a run: only one that sets a queue up is right there.
#[tactic(auto, unfolding(crate::specs::Runs::opening_of))]
pub fn as_first(command: Option<Command>) -> Option<Opening>
    ensures { result ≡ opening_of command }
{
    match command {
        Some(Command::Queue(cells, arity)) => Some(Opening { cells, arity }),
        _ => None,
    }
}
