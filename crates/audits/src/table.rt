// Tables of cells by their tickets and by their order numbers, which tell in one pass that these differ. A table may give up: then it says
// nothing, and something slower decides. A cell below 4,096 is cast into a slot and not converted: `TryFrom` would have an arm that cannot
// happen.

ghost use Rattle.std.specs.Prelude.{◌<◌, ◌≡◌};
ghost use Rattle.audits.specs.Tables.{evenly as evenly_of, scattered as scattered_of, spread_of, start_of, Looks, Enters, EntersBoth};

use cell_sort::sort::word_of;
use cells::words::get;

// An empty slot: no cell.
pub const EMPTY: u16 = 4096;

// What a 64-bit number's upper half counts.
const HALF: u64 = 4294967296;

// How many values a number is spread over: 2^31, so that the products below fit.
const SPREAD: u64 = 2147483648;

// The factor that spreads: that many values over the golden ratio, an odd number.
const FACTOR: u64 = 1327217885;

// What the upper half of a spread number counts.
const LOW: u64 = 65536;

// How many values that upper half has.
const HIGH: u64 = 32768;

// Added to the upper half, so that it is never 0 and small numbers are scattered too.
const OFFSET: u64 = 40503;

// How many spread values begin at one slot of a small table.
const PER_SMALL_SLOT: u64 = 2097152;

// How many begin at one slot of a large table.
const PER_LARGE_SLOT: u64 = 262144;

// A table of 1,024 slots, or of 8,192; and whether numbers are scattered over it, not only spread.
// Two flags, each asked for by itself: two enums would only give their values other names.
#[derive(Clone, Copy)]
pub struct Layout {
    pub small: bool,
    pub scattered: bool,
}

// A number spread over 31 bits by the golden ratio: numbers that follow each other fall far apart, and of as many as a table is to hold no
// two fall into one slot. What lies above 32 bits is added, so that the product fits.
#[tactic(auto, unfolding(crate::specs::Tables::evenly))]
fn evenly(key: u64) -> u64
    ensures { result ≡ evenly_of key }
{
    (key % HALF + key / HALF) * FACTOR % SPREAD
}

// A spread number scattered by the product of its halves: numbers at equal distances, which the spread alone may crowd, fall as if by
// chance.
#[tactic(auto, unfolding(crate::specs::Tables::scattered))]
fn scatter(x: u64) -> u64
    ensures { result ≡ scattered_of x }
{
    x % LOW * (x / LOW % HIGH + OFFSET) * FACTOR % SPREAD
}

// A number as it is laid out over 31 bits.
#[tactic(auto, unfolding(crate::specs::Tables::spread_of))]
fn spread(k: Layout, key: u64) -> u64
    ensures { result ≡ spread_of k key }
{
    if k.scattered {
        scatter(evenly(key))
    } else {
        evenly(key)
    }
}

// The slot at which a look for this number begins. Each size spreads and divides for itself: chosen first, the divisor costs time at every
// cell.
#[tactic(auto, unfolding(crate::specs::Tables::start_of))]
fn start(k: Layout, key: u64) -> usize
    ensures { result ≡ start_of k key }
{
    if k.small {
        (spread(k, key) / PER_SMALL_SLOT) as usize
    } else {
        (spread(k, key) / PER_LARGE_SLOT) as usize
    }
}

// Puts cell c, whose number is the key, into the first empty slot from slot i on, and says how many of the steps are left. It gives up, and
// says 0, at a cell with an equal number, at the table's end, and where no step is left.
fn look_on(w: &[u64], f: u64, c: u64, key: u64, from: usize, t: &mut [u16], left: u64) -> u64
    requires { c < 4096 }
    ensures { Looks w.now f c key from t.old left result t.new }
{
    let mut rest = left;
    for i in from..t.len() {
        if rest == 0 {
            return 0;
        }
        let d = t[i];
        if d == EMPTY {
            t[i] = c as u16;
            return rest;
        }
        if word_of(w, d, f) == key {
            return 0;
        }
        rest -= 1;
    }
    0
}

// Puts cell c into the table by its number at f. Nearly always the first slot is empty, so that is tried before the look.
fn enter(w: &[u64], f: u64, c: u64, k: Layout, t: &mut [u16], left: u64) -> u64
    requires { c < 4096 }
    ensures { Enters w.now f k c t.old left result t.new }
{
    let key = get(w, c, f);
    let i = start(k, key);
    if i < t.len() && t[i] == EMPTY {
        t[i] = c as u16;
        return left;
    }
    look_on(w, f, c, key, i, t, left)
}

// Puts cell c, one in use, into a table by its ticket and into another by its order number, and says how many of the steps are left: 0
// where one gives up. A number and no Option: that no step is left is what giving up is, and the next look asks for it anyway.
pub fn enter_both(w: &[u64], c: u64, k: Layout, t: &mut [u16], u: &mut [u16], left: u64) -> u64
    ensures { EntersBoth w.now k c t.old u.old left result t.new u.new }
{
    if c >= 4096 {
        return 0;
    }
    let rest = enter(w, 0, c, k, t, left);
    enter(w, 1, c, k, u, rest)
}
