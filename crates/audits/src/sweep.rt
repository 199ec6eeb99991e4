// One pass over the cells: those in use are held to the rules of an entry and put into the tables, the free ones are counted. What the
// private functions require of the number of cells, `swept` tests.

ghost use Rattle.std.specs.Prelude.{◌≤◌, ◌<◌};
ghost use Rattle.audits.specs.Sweeping.{Visits, Swept};

use crate::cell::entry_sound;
use crate::table::{EMPTY, Layout, enter_both};
use cells::stack::is_free;

// The most cells for a small table: half as many as it has slots to begin at.
const FEW: u64 = 512;

// The most cells for a large table.
const MOST: u64 = 4096;

// The slots of a small table: 1,024 to begin at, and some behind the last of them.
const SMALL_SLOTS: usize = 1088;

// The slots of a large table: 8,192 to begin at, and some behind the last of them.
const LARGE_SLOTS: usize = 8256;

// How many steps past full slots the tables are given for each cell: more would cost what a sort costs.
const STEPS: u64 = 4;

// What is found of cells whose entries are sound: how many are free, and how many steps the tables have left, none where they gave up.
#[derive(Clone, Copy)]
pub struct Findings {
    pub free: u64,
    pub left: u64,
}

// What one pass holds the cells to: the counter, the fields that an entry leaves unused, and the layout of the tables.
#[derive(Clone, Copy)]
struct Pass<'a> {
    w: &'a [u64],
    counter: u64,
    used: u64,
    k: Layout,
}

impl Pass<'_> {
    // Goes over cell c.
    fn visit(&self, c: u64, s: Findings, t: &mut [u16], u: &mut [u16]) -> Option<Findings>
        requires { (c < 4096) × (s.free ≤ c) }
        ensures { Visits self.now.w.now self.now.counter self.now.used self.now.k c s t.old u.old result t.new u.new }
    {
        if is_free(self.w, c) {
            return Some(Findings {
                free: s.free + 1,
                left: s.left,
            });
        }
        if !entry_sound(self.w, self.counter, self.used, c) {
            return None;
        }
        Some(Findings {
            free: s.free,
            left: enter_both(self.w, c, self.k, t, u, s.left),
        })
    }

    // Goes over the first n cells, with tables that are empty.
    fn sweep(&self, n: u64, t: &mut [u16], u: &mut [u16]) -> Option<Findings>
        requires { n ≤ 4096 }
        ensures { Swept self.now.w.now n self.now.counter self.now.used result }
    {
        let mut s = Findings {
            free: 0,
            left: n * STEPS + 1,
        };
        for c in 0..n {
            s = self.visit(c, s, t, u)?;
        }
        Some(s)
    }
}

// Goes over the first n cells with tables of so many slots.
fn sweep_in<const SLOTS: usize>(
    w: &[u64],
    n: u64,
    counter: u64,
    used: u64,
    scattered: bool,
) -> Option<Findings>
    requires { (n ≤ 4096) × (SLOTS ≤ 8256) }
    ensures { Swept w.now n counter used result }
{
    let mut t = [EMPTY; SLOTS];
    let mut u = [EMPTY; SLOTS];
    let small = SLOTS == SMALL_SLOTS;
    let pass = Pass {
        w,
        counter,
        used,
        k: Layout { small, scattered },
    };
    pass.sweep(n, &mut t, &mut u)
}

// Goes over the first n cells, with tables that are half full at most. More than 4,096 cells are not sound.
pub fn swept(w: &[u64], n: u64, counter: u64, used: u64, scattered: bool) -> Option<Findings>
    ensures { Swept w.now n counter used result }
{
    if n <= FEW {
        return sweep_in::<SMALL_SLOTS>(w, n, counter, used, scattered);
    }
    if n <= MOST {
        return sweep_in::<LARGE_SLOTS>(w, n, counter, used, scattered);
    }
    None
}
