// The words of a line.
ghost use Rattle.std.specs.Prelude.{◌≡◌, not};
ghost use Rattle.std.specs.List.{position};
ghost use Rattle.lines.specs.Words.{blank, word, behind, field, unended};

// The first words of a line; one that is missing is empty.
#[derive(Clone, Copy)]
pub struct Words<'a> {
    pub name: &'a [u8],
    pub first: &'a [u8],
    pub second: &'a [u8],
    pub third: &'a [u8],
    pub fourth: &'a [u8],
}

fn is_blank(b: u8) -> bool
    ensures { result ≡ blank b }
{
    b == b' ' || b == b'\t'
}

// Where the first word starts.
fn word_start(s: &[u8]) -> Option<usize>
    ensures { result ≡ position (λ b. not (blank b)) s.now }
{
    s.iter().position(|b| !is_blank(*b))
}

// Where the first blank stands.
fn word_end(s: &[u8]) -> Option<usize>
    ensures { result ≡ position blank s.now }
{
    s.iter().position(|b| is_blank(*b))
}

// The first word, and what stands behind it.
fn split(s: &[u8]) -> (&[u8], &[u8])
    ensures first { result.0.now ≡ word s.now }
    ensures rest { result.1.now ≡ behind s.now }
{
    let start = word_start(s).unwrap_or(s.len());
    let s = &s[start..];
    let end = word_end(s).unwrap_or(s.len());
    s.split_at(end)
}

// The line without the carriage return at its end.
pub fn without_return(line: &[u8]) -> &[u8]
    ensures { result.now ≡ unended line.now }
{
    line.strip_suffix(b"\r").unwrap_or(line)
}

impl<'a> Words<'a> {
    pub fn of(line: &'a [u8]) -> Self
        ensures name { result.name.now ≡ field 0 line.now }
        ensures first { result.first.now ≡ field 1 line.now }
        ensures second { result.second.now ≡ field 2 line.now }
        ensures third { result.third.now ≡ field 3 line.now }
        ensures fourth { result.fourth.now ≡ field 4 line.now }
    {
        let (name, rest) = split(line);
        let (first, rest) = split(rest);
        let (second, rest) = split(rest);
        let (third, rest) = split(rest);
        let (fourth, _) = split(rest);
        Words {
            name,
            first,
            second,
            third,
            fourth,
        }
    }
}
