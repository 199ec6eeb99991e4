// Lent memory as words, eight to a cell, read and written by cell and field: total, so that nothing here has a `requires`.
// A field is a number and no enum: the definitions count fields, the audits go over them by ranges and masks, and docs/LAYOUT.md names them.

ghost use Rattle.std.specs.Prelude.{◌≡◌};
ghost use Rattle.cells.specs.Words.{word, put_word};

// The word of cell c at field f: a read outside the cells is 0.
#[tactic(auto, unfolding(crate::specs::Words::word))]
pub fn get(w: &[u64], c: u64, f: u64) -> u64
    ensures { result ≡ word w.now c f }
{
    let cells = w.len() / 8;
    if f < 8 && c < cells as u64 {
        w[(c * 8 + f) as usize]
    } else {
        0
    }
}

// Writes v to cell c at field f: a write outside the cells changes nothing.
#[tactic(auto, unfolding(crate::specs::Words::put_word))]
pub fn put(w: &mut [u64], c: u64, f: u64, v: u64)
    ensures { w.new ≡ put_word w.old c f v }
{
    let cells = w.len() / 8;
    if f < 8 && c < cells as u64 {
        let at = c * 8 + f;
        w[at as usize] = v;
    }
}
