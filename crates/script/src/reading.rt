// Reading a script line: a command word and up to three numbers.

ghost use Rattle.std.specs.Prelude.{◌≡◌, Some};
ghost use Rattle.script.specs.Grammar.{read_line};
ghost use Rattle.script.specs.Steps.{one_digit, word_field, number_field, onto};

// The numbers that follow a word.
#[derive(Clone, Copy)]
pub enum Numbers {
    Zero,
    One(u64),
    Two(u64, u64),
    Three(u64, u64, u64),
}

// A line as it is read: its word as a base-256 number, and the numbers that follow.
#[derive(Clone, Copy)]
pub struct Line {
    pub word: u64,
    pub numbers: Numbers,
}

// The number v with the digit b after it: none where b is no digit or the number is above 2^64 - 1.
#[tactic(auto, using(crate::proofs::Fields::below_digits, crate::proofs::Fields::above_digits, crate::proofs::Fields::above_tenth))]
fn one_digit(v: u64, b: u8) -> Option<u64>
    ensures { result ≡ one_digit v b }
{
    let b'0'..=b'9' = b else {
        return None;
    };
    let tens = v.checked_mul(10)?;
    tens.checked_add(u64::from(b - b'0'))
}

// A whole field read as a number.
#[tactic(auto, using(crate::proofs::Fields::number_empty, crate::proofs::Fields::number_long))]
fn number(s: &[u8]) -> Option<u64>
    ensures { result ≡ number_field s.now }
{
    if s.is_empty() {
        return None;
    }
    if s.len() > 20 {
        return None;
    }
    let mut value: u64 = 0;
    for b in s {
        value = one_digit(value, *b)?;
    }
    Some(value)
}

// A whole field read as a command word.
#[tactic(auto, using(crate::proofs::Fields::word_empty, crate::proofs::Fields::word_long, crate::proofs::Fields::word_refused))]
fn word(s: &[u8]) -> Option<u64>
    ensures { result ≡ word_field s.now }
{
    if s.is_empty() {
        return None;
    }
    if s.len() > 8 {
        return None;
    }
    let mut value: u64 = 0;
    for b in s {
        if *b <= b' ' {
            return None;
        }
        value = value * 256 + u64::from(*b);
    }
    Some(value)
}

// One more number after those before; there is none where they are three.
fn one_more(before: Numbers, v: u64) -> Option<Numbers>
    ensures { result ≡ onto (Some before) v }
{
    match before {
        Numbers::Zero => Some(Numbers::One(v)),
        Numbers::One(a) => Some(Numbers::Two(a, v)),
        Numbers::Two(a, b) => Some(Numbers::Three(a, b, v)),
        Numbers::Three(_, _, _) => None,
    }
}

// A line, without its line feed.
pub fn read_line(s: &[u8]) -> Option<Line>
    ensures { result ≡ read_line s.now }
{
    if s.len() > 128 {
        return None;
    }
    let mut fields = s.split(|b| *b == b' ');
    let word = word(fields.next()?)?;
    let mut numbers = Numbers::Zero;
    for field in fields {
        numbers = one_more(numbers, number(field)?)?;
    }
    Some(Line { word, numbers })
}
