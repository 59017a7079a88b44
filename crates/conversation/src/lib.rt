// A conversation by lines: requests from an input, answers to an output.
#![tactic(auto)]

use lines::{LineBuffer, say};
use model::{Reply, Request};
use std::alloc::{AllocError, Global};
use std::io::{Read, Write};
use std::{fmt, io};

// So many bytes of input are read at once.
const CHUNK: usize = 65536;

// So much text may be kept back before it is printed.
const ENOUGH: usize = 65536;

// What answers the requests.
pub trait Service {
    // What ends the conversation early: trouble of its own, or with the input, the output or the memory.
    type Trouble: From<io::Error> + From<AllocError> + From<fmt::Error>;

    fn answer(&mut self, request: Request) -> Result<Reply, Self::Trouble>;

    // Makes true what the answers so far claim, before they are printed.
    fn settle(&mut self) -> Result<(), Self::Trouble>;
}

// Answers all requests of the input, and prints the answers before it waits for more.
pub fn converse<S: Service, I: Read, W: Write>(
    heap: Global,
    service: &mut S,
    input: &mut I,
    output: &mut W,
) -> Result<(), S::Trouble> {
    let mut chunk = vec![in heap; 0u8; CHUNK]?;
    let mut line = LineBuffer::new();
    let mut requests = Vec::new(heap);
    let mut text = Vec::new(heap);
    for _ in 0..u64::MAX {
        let n = input.read(chunk.as_mut_slice())?;
        if n == 0 {
            break;
        }
        line.take(&chunk[0..n], &mut requests)?;
        reply(service, &requests, &mut text, output)?;
        requests.clear();
        print(service, &mut text, output)?;
    }
    if let Some(request) = line.last() {
        say(&mut text, &service.answer(request)?)?;
    }
    print(service, &mut text, output)
}

// Answers the requests one after the other.
fn reply<S: Service, W: Write>(
    service: &mut S,
    requests: &[Request],
    text: &mut Vec<u8>,
    output: &mut W,
) -> Result<(), S::Trouble> {
    for request in requests {
        say(text, &service.answer(*request)?)?;
        if text.len() >= ENOUGH {
            print(service, text, output)?;
        }
    }
    Ok(())
}

// Prints the text.
fn print<S: Service, W: Write>(
    service: &mut S,
    text: &mut Vec<u8>,
    output: &mut W,
) -> Result<(), S::Trouble> {
    service.settle()?;
    output.write_all(text.as_slice())?;
    output.flush()?;
    text.clear();
    Ok(())
}
