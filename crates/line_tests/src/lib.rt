// Tests of the lines: a table of lines with what they ask for, and inputs cut in two.
#![tactic(auto)]

#[cfg(test)]
mod cases;

#[cfg(test)]
mod tests {
    use crate::cases::*;
    use lines::{LineBuffer, Text, parse, say, say_number};
    use model::{Answer, Call, Counts, Entry, Refusal, Reply, Request};
    use std::alloc::{AllocError, Global};
    use std::process::Abort;
    use std::test::Fail;

    fn run(rt: &impl Abort, cases: &[Case]) {
        for case in cases {
            assert_eq!(rt; parse(case.line), case.asks);
        }
    }

    #[test]
    fn plain(rt: HostRuntime) {
        run(&rt, &PLAIN);
    }

    #[test]
    fn faulty(rt: HostRuntime) {
        run(&rt, &FAULTY);
    }

    #[test]
    fn numbers(rt: HostRuntime) {
        run(&rt, &NUMBERS);
    }

    #[test]
    fn unknown(rt: HostRuntime) {
        run(&rt, &UNKNOWN);
    }

    // The requests of an input that comes in two chunks.
    fn requests_of(heap: Global, a: &[u8], b: &[u8]) -> Result<Vec<Request>, AllocError> {
        let mut line = LineBuffer::new();
        let mut out = Vec::new(heap);
        line.take(a, &mut out)?;
        line.take(b, &mut out)?;
        if let Some(request) = line.last() {
            out.push(request)?;
        }
        Ok(out)
    }

    const INPUT: &[u8] = b"sweep\nsync\r\n\n  stop \n\t\nshow now\nsweep\r";

    const ASKED: [Request; 7] = [
        Request::Whole(Call::Sweep),
        Request::Whole(Call::Sync),
        Request::Unknown,
        Request::Whole(Call::Stop),
        Request::Unknown,
        Request::Faulty(Call::Show),
        Request::Whole(Call::Sweep),
    ];

    #[test]
    fn cut_anywhere(rt: HostRuntime) -> Result<(), Fail> {
        for at in 0..INPUT.len() + 1 {
            let requests = requests_of(rt.alloc(), &INPUT[0..at], &INPUT[at..])?;
            assert!(rt; requests.as_slice() == ASKED.as_slice());
        }
        Ok(())
    }

    // A line of n bytes and more: `show`, blanks, and its line feed.
    fn long_line(heap: Global, n: usize) -> Result<Vec<u8>, AllocError> {
        let mut text = b"show".to_vec(heap)?;
        for _ in 4..n {
            text.push(b' ')?;
        }
        text.push(b'\n')?;
        Ok(text)
    }

    #[test]
    fn longest(rt: HostRuntime) -> Result<(), Fail> {
        let text = long_line(rt.alloc(), 1024)?;
        let requests = requests_of(rt.alloc(), &text, b"show")?;
        assert!(rt;
            requests.as_slice()
                == [Request::Whole(Call::Show), Request::Whole(Call::Show)].as_slice()
        );
        Ok(())
    }

    #[test]
    fn too_long(rt: HostRuntime) -> Result<(), Fail> {
        let text = long_line(rt.alloc(), 1025)?;
        let requests = requests_of(rt.alloc(), &text, b"show")?;
        assert!(rt;
            requests.as_slice() == [Request::Unknown, Request::Whole(Call::Show)].as_slice()
        );
        Ok(())
    }

    // One reply of each kind.
    fn say_each<T: Text>(heap: Global, out: &mut T) -> Result<(), AllocError> {
        let mut entries = Vec::new(heap);
        entries.push(Entry { key: 7, value: 1 })?;
        entries.push(Entry {
            key: 4095,
            value: 4294967295,
        })?;
        let counts = Counts {
            commits: 4294967295,
            versions: 32768,
            busy: 16,
        };
        let replies: [Reply; 5] = [
            Ok(Answer::Done),
            Ok(Answer::Found(entries)),
            Ok(Answer::Committed(10)),
            Ok(Answer::Shown(counts)),
            Err(Refusal::NoMemory),
        ];
        for reply in &replies {
            say(out, reply)?;
        }
        say_number(out, 0)
    }

    const SAID: &str = "7=1 4095=4294967295\n10\n4294967295 32768 16\nno 99\n0";

    #[test]
    fn said_as_bytes(rt: HostRuntime) -> Result<(), Fail> {
        let mut out: Vec<u8> = Vec::new(rt.alloc());
        say_each(rt.alloc(), &mut out)?;
        assert!(rt; out.as_slice() == SAID.as_bytes());
        Ok(())
    }

    #[test]
    fn said_as_string(rt: HostRuntime) -> Result<(), Fail> {
        let mut out = String::new(rt.alloc());
        say_each(rt.alloc(), &mut out)?;
        assert!(rt; out.as_str() == SAID);
        Ok(())
    }
}
