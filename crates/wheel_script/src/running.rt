// A run of the script on a wheel, as the drive takes it: the words, the wheel's arrays, and where the run stands.
#![tactic(auto, unfolding(script::specs::Sessions::words_of))]

ghost use Rattle.std.specs.Prelude.{ℕ, ◌≤◌, ◌≡◌, List, length};
ghost use Rattle.dial.specs.Lent.{lists_of};
ghost use Rattle.script.specs.Grammar.{read_line};
ghost use Rattle.script.specs.Sessions.{words_of, goes_on};
ghost use Rattle.script.specs.Pages.{same_bytes};
ghost use Rattle.wheel_script.specs.Commands.{command_of};
ghost use Rattle.wheel_script.specs.Spoken.{call_of, Obeyed};
ghost use Rattle.wheel_script.specs.Runs.{Place, Before, Stands, Reached as RunReached, Answered};

use crate::calls::obey;
use crate::serving::begin;
use script::drive::Machine;
use script::session::Session;
use script::writing::Page;
use slots::slots::Lists;
use wheel::head::Dial;

// Does what a line says in the words of an open wheel, lent with its arrays as its lists.
fn obey_in(
    page: &mut Page,
    w: &mut [u64],
    first: &mut [u16],
    last: &mut [u16],
    marks: &mut [u64],
    d: &mut Dial,
    line: &[u8],
)
    ensures bytes { same_bytes page.old page.new }
    ensures answered { Obeyed (call_of (command_of (read_line line.now)))
        (lists_of w.old first.old last.old marks.old d.old.due) d.old page.old.bytes.now page.old.end
        (lists_of w.new first.new last.new marks.new d.new.due) d.new page.new.bytes.now page.new.end }
{
    let mut lists = Lists {
        words: w,
        first,
        last,
        marks,
    };
    obey(page, &mut lists, d, line);
}

// Answers a line; once the run is over nothing is answered, that is a text of no bytes.
fn answer(
    page: &mut Page,
    w: &mut [u64],
    first: &mut [u16],
    last: &mut [u16],
    marks: &mut [u64],
    session: Session<Dial>,
    line: &[u8],
) -> Session<Dial>
    requires { words_of session ≤ length w.old }
    ensures bytes { same_bytes page.old page.new }
    ensures place { page.new.end ≤ length page.old.bytes.now }
    ensures engine { words_of result ≤ length w.old }
    ensures told { (p : Place) → Stands session w.old first.old last.old marks.old p
        → Answered p line.now page.old.bytes.now page.old.end
        result w.new first.new last.new marks.new page.new.bytes.now page.new.end }
{
    match session {
        Session::Fresh => begin(page, w, line),
        Session::Open(n, dial) => {
            let mut next = dial;
            obey_in(page, &mut w[..n], first, last, marks, &mut next, line);
            Session::Open(n, next)
        }
        Session::Over => {
            page.text(b"");
            Session::Over
        }
    }
}

// Words for 512 cells, of which the session's wheel has no more than there are, and the arrays of the wheel's slots.
#[derive(Drop)]
pub struct WheelRun {
    pub words: [u64; 4096],
    pub first: [u16; 384],
    pub last: [u16; 384],
    pub marks: [u64; 6],
    pub session: Session<Dial>,
    ghost within: { words_of session ≤ 4096 },
}

impl WheelRun {
    // Before the first line: the arrays are those of an empty wheel.
    #[tactic(auto, unfolding(script::specs::Sessions::words_of, crate::specs::Runs::Stands))]
    pub fn new() -> Self
        ensures before { Stands result.session result.words result.first result.last result.marks Before }
        ensures reached { RunReached result.session result.words result.first result.last result.marks }
    {
        WheelRun {
            words: [0; 4096],
            first: [4096; 384],
            last: [4096; 384],
            marks: [0; 6],
            session: Session::Fresh,
        }
    }
}

impl Machine for WheelRun {
    ghost Reached = { λ m. RunReached m.session m.words m.first m.last m.marks };

    ghost GoesOn = { λ m. goes_on m.session };

    // The longest answers an advance, by 64 lines of at most 90 bytes and one of at most 60.
    const ROOM: usize = 8192;

    fn answer(&mut self, page: &mut Page, line: &[u8])
        ensures bytes { same_bytes page.old page.new }
        ensures within { page.new.end ≤ length page.old.bytes.now }
        ensures reached { RunReached self.old.session self.old.words self.old.first self.old.last self.old.marks
            → RunReached self.new.session self.new.words self.new.first self.new.last self.new.marks }
        ensures told { (p : Place) → Stands self.old.session self.old.words self.old.first self.old.last self.old.marks p
            → Answered p line.now page.old.bytes.now page.old.end
            self.new.session self.new.words self.new.first self.new.last self.new.marks page.new.bytes.now page.new.end }
    {
        self.session = answer(
            page,
            &mut self.words,
            &mut self.first,
            &mut self.last,
            &mut self.marks,
            self.session,
            line,
        );
    }

    fn goes_on(&self) -> bool
        ensures { result ≡ goes_on self.now.session }
    {
        self.session.goes_on()
    }
}
