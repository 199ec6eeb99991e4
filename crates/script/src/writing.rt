// Writing answer lines into lent bytes. What does not fit is cut off at their end, so no public function asks for room.

ghost use Rattle.std.specs.Prelude.{◌≡◌, ◌+◌, ◌≤◌, ◌<◌, min, [], ◌∷◌, length, drop};
ghost use Rattle.script.specs.Answers.{decimal, spaced, phrase, answer_line};
ghost use Rattle.script.specs.Pages.{same_bytes, Written};

fn glyph(d: u64) -> u8
    requires { d < 10 }
    ensures { result ≡ 48 + d }
{
    b'0' + d as u8
}

// Puts n's decimal digits at the end of d, and answers where they begin.
// By hand, not by `Display`: the edits `digits-one-up` and `zero-in-front` are about digits that are put in one by one.
fn spell(n: u64, d: &mut [u8]) -> usize
    requires { length d.old ≡ 20 }
    ensures { (result ≤ 20) × (drop result d.new ≡ decimal n) }
{
    let mut rest = n;
    let mut i = d.len();
    while rest >= 10 {
        i -= 1;
        d[i] = glyph(rest % 10);
        rest /= 10;
    }
    i -= 1;
    d[i] = glyph(rest);
    i
}

// Where a text of so many bytes ends that is written at `at`: at the end of the room at most.
fn text_end(room: usize, at: usize, bytes: usize) -> usize
    ensures { result ≡ min (at + bytes) room }
{
    at.saturating_add(bytes).min(room)
}

// Lent bytes that are written from the front, and where the text in them ends.
#[derive(Drop)]
pub struct Page<'a> {
    pub bytes: &'a mut [u8],
    pub end: usize,
}

impl Page<'_> {
    // Writes a text.
    pub fn text(&mut self, text: &[u8])
        ensures bytes { same_bytes self.old self.new }
        ensures written { Written self.old text.now self.new }
    {
        let at = self.end;
        let end = text_end(self.bytes.len(), at, text.len());
        if at < end {
            self.bytes[at..end].copy_from_slice(&text[..end - at]);
        }
        self.end = end;
    }

    // Writes one byte: a text of one is a call for each space and each line feed, which takes longer than the byte.
    fn byte(&mut self, b: u8)
        ensures bytes { same_bytes self.old self.new }
        ensures written { Written self.old (b ∷ []) self.new }
    {
        let at = self.end;
        self.end = text_end(self.bytes.len(), at, 1);
        if at < self.bytes.len() {
            self.bytes[at] = b;
        }
    }

    // Writes a number's decimal digits.
    pub fn number(&mut self, n: u64)
        ensures bytes { same_bytes self.old self.new }
        ensures written { Written self.old (decimal n) self.new }
    {
        let mut digits = [0u8; 20];
        let from = spell(n, &mut digits);
        self.text(&digits[from..]);
    }

    // Writes a space and a number.
    fn spaced(&mut self, n: u64)
        ensures bytes { same_bytes self.old self.new }
        ensures written { Written self.old (32 ∷ decimal n) self.new }
    {
        self.byte(b' ');
        self.number(n);
    }

    // Writes numbers, each after a space.
    fn numbers(&mut self, ns: &[u64])
        ensures bytes { same_bytes self.old self.new }
        ensures written { Written self.old (spaced ns.now) self.new }
    {
        // No bytes, so that the text ends within the page where there is no number, too.
        self.text(b"");
        for n in ns {
            self.spaced(*n);
        }
    }

    // Writes a text and numbers, each after a space.
    fn phrase(&mut self, text: &[u8], ns: &[u64])
        ensures bytes { same_bytes self.old self.new }
        ensures written { Written self.old (phrase text.now ns.now) self.new }
    {
        self.text(text);
        self.numbers(ns);
    }

    // Writes an answer line: two phrases, a last text and the line feed.
    pub fn line(&mut self, head: &[u8], ns: &[u64], tail: &[u8], ms: &[u64], last: &[u8])
        ensures bytes { same_bytes self.old self.new }
        ensures written { Written self.old (answer_line head.now ns.now tail.now ms.now last.now) self.new }
    {
        self.phrase(head, ns);
        self.phrase(tail, ms);
        self.text(last);
        self.byte(b'\n');
    }
}
