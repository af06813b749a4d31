// Reads a list of calls, one to a line, makes each by the function that C gets and writes what it answers: a value, or a refusal's number
// negated.
// Numbers are decimal, octets two hexadecimal digits. Empty lines and lines that begin with # are skipped.
//   start MEMORY ADDRESS IDENT OUTPUTS INPUTS PARAMETERS CONFIGURATION DIAGNOSIS SLICE CHANNELS
//   octet XX, bad XX, gap, send, tick
//   take, read KIND INDEX, write KIND INDEX XX, handover, diag COUNT FLAGS, judgeprm J, judgecfg J
//   events, ack MASK, pending, leave
//   winread O ADDRESS, winwrite O ADDRESS XX: O is i for Intel's order, m for Motorola's
// The memory has at most 16,384 octets; the slice that Get_Cfg sends and the lengths of the channels are each a row of octets, or - for
// none. A Start that is refused leaves the station as it was. Before the first that is accepted the memory is empty, which every other call
// refuses as damaged.
// A line that is none of these gets a question mark and its number.
#![tactic(auto)]

mod begin;
mod call;
mod fault;
mod text;

use begin::Station;
use call::Call;
use fault::Fault;
use std::alloc::AllocError;
use std::io::Read;
use std::{fmt, io};
use text::{MOST_WORDS, read_words};

// The most octets of a text.
const MOST_READ: usize = 65536;

// What a call answers. A refusal's number is an octet at most; an answer below that would be none.
#[derive(Clone, Copy)]
struct Answer(i64);

impl fmt::Display for Answer {
    fn fmt<W: fmt::Write>(&self, f: &mut fmt::Formatter<W>) -> fmt::Result {
        match self.0 {
            ..-255 => write!(f, "? no answer"),
            answer => write!(f, "{answer}"),
        }
    }
}

// What the call of a line answers.
fn answer_to(station: &mut Station, words: &[&[u8]]) -> Result<i64, Fault> {
    match words {
        [b"start", asked @ ..] => station.begin(asked),
        _ => Ok(Call::try_from(words)?.run(&mut station.memory)),
    }
}

// One line: its call and what it says.
fn one_line(
    rt: &impl Print,
    station: &mut Station,
    words: &[&[u8]],
    number: usize,
) -> io::Result<()> {
    match answer_to(station, words) {
        Ok(answer) => println!(rt; "{}", Answer(answer)),
        Err(Fault::NoCall) => println!(rt; "? line {number}"),
        Err(Fault::OutOfMemory) => Err(io::Error::from(AllocError)),
    }
}

// Every line of a text, on a memory that is empty before the first Start.
fn replay(rt: &(impl Print + AllocGlobal), source: &[u8]) -> io::Result<()> {
    let mut station = Station::new(rt.alloc())?;
    let mut words = Vec::with_capacity(rt.alloc(), MOST_WORDS)?;
    for (line, number) in source.split(|octet| *octet == b'\n').zip(1..) {
        read_words(line, &mut words)?;
        if !words.is_empty() {
            one_line(rt, &mut station, &words, number)?;
        }
    }
    Ok(())
}

// What is read at once is all that is replayed, and the text says where there is more. Its room has an octet to spare: where it is full,
// `read_to_end` takes more, at the end too.
fn main(rt: HostRuntime) -> io::Result<()> {
    let mut reader = rt.reader();
    let mut source = Vec::with_capacity(rt.alloc(), MOST_READ + 1)?;
    reader
        .by_ref()
        .take(MOST_READ as u64)
        .read_to_end(&mut source)?;
    replay(&rt, &source)?;
    let mut more = Vec::new(rt.alloc());
    if 0 < reader.take(1).read_to_end(&mut more)? {
        println!(rt; "? longer than {MOST_READ} octets")?;
    }
    Ok(())
}
