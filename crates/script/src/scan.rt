// Searching lent bytes.

ghost use Rattle.std.specs.Prelude.{◌≡◌, ◌+◌, length, drop};
ghost use Rattle.script.specs.Grammar.{up_to};

// The index of the first byte `stop` at or after `from`; where there is none the length, or `from` where that is past it.
pub fn next(s: &[u8], from: usize, stop: u8) -> usize
    ensures { result ≡ from + length (up_to stop (drop from s.now)) }
{
    let Some(rest) = s.get(from..) else {
        return from;
    };
    from + rest.iter().position(|b| *b == stop).unwrap_or(rest.len())
}
