// Numbers in a line. A number above 4,294,967,295 is only known to be that.
ghost use Rattle.std.specs.Prelude.{◌≡◌, Option};
ghost use Rattle.std.specs.Char.{is_ascii_digit};
ghost use Rattle.std.specs.List.{list_all};
ghost use Rattle.lines.specs.Numbers.{with_digit, numeral, narrowed, fitting};

// The least number that is too large.
const ABOVE: u64 = 4294967296;

// The number with a digit more behind it.
fn with_digit(n: u64, digit: u8) -> u64
    ensures { result ≡ with_digit n digit }
{
    (n.min(ABOVE) * 10 + digit.saturating_sub(b'0') as u64).min(ABOVE)
}

fn is_all_digits(word: &[u8]) -> bool
    ensures { result ≡ list_all is_ascii_digit word.now }
{
    word.iter().all(u8::is_ascii_digit)
}

// The number that a word says, if it is all digits; at most the least that is too large, so that callers need no more
// than an `Option` of it.
pub fn number(word: &[u8]) -> Option<u64>
    ensures { result ≡ numeral word.now }
{
    if word.is_empty() || !is_all_digits(word) {
        return None;
    }
    Some(word.iter().fold(0, |n, b| with_digit(n, *b)))
}

// The number as 32 bits, the highest where it is too large, or another where there is none.
pub fn narrow(n: Option<u64>, other: u64) -> u32
    ensures { result ≡ narrowed n other }
{
    n.unwrap_or(other).min(ABOVE - 1) as u32
}

// Whether there is a number of 32 bits.
pub fn fits_word(n: Option<u64>) -> bool
    ensures { result ≡ fitting n }
{
    n.is_some_and(|n| n < ABOVE)
}
