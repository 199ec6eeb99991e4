// Splitting input that is read in chunks: what is left of a chunk after its last line feed is carried to the front for the next.

ghost use Rattle.std.specs.Prelude.{◌≡◌, min, ◌-◌, length};
ghost use Rattle.script.specs.Chunks.{Carried};

// How many bytes from `from` up to `to` are carried: no more than show that their line is too long.
fn carried(room: usize, from: usize, to: usize) -> usize
    ensures { result ≡ min 129 (min to room - from) }
{
    to.min(room).saturating_sub(from).min(129)
}

// Moves the bytes from `from` up to `to`, at most 129 of them, to the front, and answers how many these are.
pub fn carry(buf: &mut [u8], from: usize, to: usize) -> usize
    ensures { Carried buf.old from to buf.new result }
{
    let n = carried(buf.len(), from, to);
    if n > 0 {
        buf.copy_within(from..from + n, 0);
    }
    n
}
