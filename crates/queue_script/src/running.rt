// A run of the script on a ready queue, as the drive takes it: the words, and where the run stands.
#![tactic(auto, unfolding(script::specs::Sessions::words_of))]

ghost use Rattle.std.specs.Prelude.{ℕ, ◌≤◌, ◌≡◌, List, length};
ghost use Rattle.script.specs.Sessions.{words_of, goes_on};
ghost use Rattle.script.specs.Pages.{same_bytes};
ghost use Rattle.queue_script.specs.Runs.{Place, Before, Stands, Reached as RunReached, Answered};

use crate::calls::obey;
use crate::serving::begin;
use queue::head::Head;
use script::drive::Machine;
use script::session::Session;
use script::writing::Page;

// Answers a line; once the run is over nothing is answered, that is a text of no bytes.
fn answer(page: &mut Page, w: &mut [u64], session: Session<Head>, line: &[u8]) -> Session<Head>
    requires { words_of session ≤ length w.old }
    ensures bytes { same_bytes page.old page.new }
    ensures place { page.new.end ≤ length page.old.bytes.now }
    ensures engine { words_of result ≤ length w.old }
    ensures told { (p : Place) → Stands session w.old p
        → Answered p line.now page.old.bytes.now page.old.end result w.new page.new.bytes.now page.new.end }
{
    match session {
        Session::Fresh => begin(page, w, line),
        Session::Open(n, head) => {
            let mut next = head;
            obey(page, &mut w[..n], &mut next, line);
            Session::Open(n, next)
        }
        Session::Over => {
            page.text(b"");
            Session::Over
        }
    }
}

// Words for 512 cells, of which the session's queue has no more than there are.
#[derive(Drop)]
pub struct QueueRun {
    pub words: [u64; 4096],
    pub session: Session<Head>,
    ghost within: { words_of session ≤ 4096 },
}

impl QueueRun {
    // Before the first line.
    #[tactic(auto, unfolding(script::specs::Sessions::words_of, crate::specs::Runs::Stands))]
    pub fn new() -> Self
        ensures before { Stands result.session result.words Before }
        ensures reached { RunReached result.session result.words }
    {
        QueueRun {
            words: [0; 4096],
            session: Session::Fresh,
        }
    }
}

impl Machine for QueueRun {
    ghost Reached = { λ m. RunReached m.session m.words };

    ghost GoesOn = { λ m. goes_on m.session };

    const ROOM: usize = 256;

    fn answer(&mut self, page: &mut Page, line: &[u8])
        ensures bytes { same_bytes page.old page.new }
        ensures within { page.new.end ≤ length page.old.bytes.now }
        ensures reached { RunReached self.old.session self.old.words → RunReached self.new.session self.new.words }
        ensures told { (p : Place) → Stands self.old.session self.old.words p
            → Answered p line.now page.old.bytes.now page.old.end self.new.session self.new.words page.new.bytes.now page.new.end }
    {
        self.session = answer(page, &mut self.words, self.session, line);
    }

    fn goes_on(&self) -> bool
        ensures { result ≡ goes_on self.now.session }
    {
        self.session.goes_on()
    }
}
