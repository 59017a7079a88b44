// The text of an answer. No `Display`: that answers `fmt::Error`, so it could not promise that an answer without text never
// fails, and a reply is a `Result`, which can have no `impl` here.
ghost use Rattle.std.specs.Prelude.{◌≡◌, [], ◌∷◌, ◌++◌, codes, decimal, OnErr, OnOk};
ghost use Rattle.lines.specs.Laws.{OneLine};
ghost use Rattle.lines.specs.Said.{counts_text, refusal_text, text_of, pair, pairs, Refusable};

use crate::output::Text;
use arrayvec::ArrayString;
use itoa::{Buffer, write_digits};
use model::{Answer, Counts, Entry, Refusal, Reply};
use std::alloc::AllocError;
use std::str;

// The most bytes of an entry's text.
const PAIR: usize = 21;

// Writes the text of the reply behind what stands in `out`. One without text is not refused.
#[tactic(auto, using(crate::proofs::Lined::one_line))]
pub fn say<T: Text>(out: &mut T, reply: &Reply) -> Result<(), AllocError>
    ensures text { OnOk result (T.bytes out.new ≡ T.bytes out.old ++ text_of reply.now) }
    ensures memory { Refusable reply.now result }
    ensures line { OneLine }
{
    match reply {
        Ok(Answer::Done) => Ok(()),
        Ok(Answer::Found(entries)) => say_entries(out, entries),
        Ok(Answer::Committed(n)) => say_commit(out, *n),
        Ok(Answer::Shown(counts)) => say_counts(out, *counts),
        Err(refusal) => say_refusal(out, *refusal),
    }
}

// Writes the number behind what stands in `out`; where there is no memory, nothing.
pub fn say_number<T: Text>(out: &mut T, n: u32) -> Result<(), AllocError>
    ensures text { OnOk result (T.bytes out.new ≡ T.bytes out.old ++ decimal n) }
    ensures unchanged { OnErr result (T.bytes out.new ≡ T.bytes out.old) }
{
    out.append(Buffer::new().format(n))
}

// The commit's number, on one line.
fn say_commit<T: Text>(out: &mut T, n: u32) -> Result<(), AllocError>
    ensures { OnOk result (T.bytes out.new ≡ T.bytes out.old ++ (decimal n ++ 10 ∷ [])) }
{
    let mut line = ArrayString::<11>::new();
    line.push_str(Buffer::new().format(n));
    line.push('\n');
    out.append(line.as_str())
}

// The number of the refusal behind `no`, on one line.
fn say_refusal<T: Text>(out: &mut T, refusal: Refusal) -> Result<(), AllocError>
    ensures { OnOk result (T.bytes out.new ≡ T.bytes out.old ++ refusal_text refusal) }
{
    let mut line = ArrayString::<7>::new();
    line.push_str("no ");
    line.push_str(Buffer::new().format(refusal.number()));
    line.push('\n');
    out.append(line.as_str())
}

// The three numbers, a space apart, on one line.
fn say_counts<T: Text>(out: &mut T, counts: Counts) -> Result<(), AllocError>
    ensures { OnOk result (T.bytes out.new ≡ T.bytes out.old ++ counts_text counts) }
{
    let mut line = ArrayString::<33>::new();
    line.push_str(Buffer::new().format(counts.commits));
    line.push(' ');
    line.push_str(Buffer::new().format(counts.versions));
    line.push(' ');
    line.push_str(Buffer::new().format(counts.busy));
    line.push('\n');
    out.append(line.as_str())
}

// The entries as K=V, a space apart, on one line.
fn say_entries<T: Text>(out: &mut T, entries: &[Entry]) -> Result<(), AllocError>
    ensures { OnOk result (T.bytes out.new ≡ T.bytes out.old ++ (pairs [] entries.now ++ 10 ∷ [])) }
{
    let mut separator = "";
    for e in entries {
        say_entry(out, separator, *e)?;
        separator = " ";
    }
    out.append("\n")
}

// The entry as K=V, behind what parts it from the one before.
fn say_entry<T: Text>(out: &mut T, separator: &str, e: Entry) -> Result<(), AllocError>
    ensures { OnOk result (T.bytes out.new ≡ T.bytes out.old ++ pair separator.now e) }
{
    out.append(separator)?;
    out.append(spell_pair(e, &mut [0; PAIR]))
}

// `K=V`, put down from its end, so that an entry is copied once. Digits and `=` are ASCII, which is proved where the bytes
// are taken for text.
fn spell_pair(e: Entry, text: &mut [u8; PAIR]) -> &str
    ensures { result.now ≡ decimal e.key ++ (codes "=" ++ decimal e.value) }
{
    let at = write_digits(e.value as u64, text, PAIR) - 1;
    text[at] = b'=';
    let at = write_digits(e.key as u64, text, at);
    unsafe { str::from_utf8_unchecked(&text[at..]) }
}
