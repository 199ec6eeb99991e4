// Where a run of a script stands, whatever its engine.

ghost use Rattle.std.specs.Prelude.{◌≡◌};
ghost use Rattle.script.specs.Sessions.{goes_on};

// Before the first line, with an engine in so many of the words, or ended by the first line.
#[derive(Clone, Copy)]
pub enum Session<H> {
    Fresh,
    Open(usize, H),
    Over,
}

impl<H> Session<H> {
    // Whether there is a further line to read.
    #[tactic(auto, unfolding(crate::specs::Sessions::goes_on))]
    pub fn goes_on(&self) -> bool
        ensures { result ≡ goes_on self.now }
    {
        match self {
            Session::Fresh | Session::Open(_, _) => true,
            Session::Over => false,
        }
    }
}
