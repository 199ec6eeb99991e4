// Standard input and output for the script programs, in place of the kit's crates io and libc: a read that fails is the input's end, and a write
// that fails is let go. Of a reader or a writer whose bytes are known the contracts say what becomes of them.

ghost use Rattle.std.specs.Prelude.{◌≡◌, ◌≤◌, length, take, IsTrue};
ghost use Rattle.std.specs.Io.KnownBytes.{Appends, Consumes};
ghost use Rattle.std.proofs.Math.ListN.{replicate};

use std::io::{Read, Write};

// 65,536 zeros, so that a long input is read in few calls. The length stands apart, since lending the array as a slice needs it.
pub fn large_buffer() -> [u8; 65536]
    ensures length { 65536 ≡ length result }
    ensures zeros { result ≡ replicate 65536 0 }
{
    [0; 65536]
}

// Reads once, and says how many bytes stand at the start of the room now: none at the input's end, or where the read fails. The reader has
// given just these.
pub fn read_some<R: Read>(input: &mut R, room: &mut [u8]) -> usize
    ensures within { result ≤ length room.old }
    ensures given { Consumes (R.remaining input.old) (R.remaining input.new) (take result room.new) }
{
    match input.read(room) {
        Ok(got) => got,
        Err(_) => 0,
    }
}

// Writes all of the text, and says whether it could: then the writer has got it. Where a write fails, some of it may have been written.
pub fn write_all<W: Write>(output: &mut W, text: &[u8]) -> bool
    ensures { IsTrue result → Appends (W.contents output.old) (W.contents output.new) text.now }
{
    output.write_all(text).is_ok()
}
