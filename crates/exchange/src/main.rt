// An exchange on the bench. One memory is carried by the exported calls alone; in the other the state is unpacked, held in
// a local, lent for every octet and Tick and packed at the end. What the exported calls then answer of each is printed.
#![tactic(auto)]

use state::answer::{Answer, Refusal};
use state::setup::Given;
use station::calls;
use station::start::start;
use std::io;

// A telegram after a gap, then Ticks, by the exported calls.
fn take_turn(memory: &mut [u8], telegram: &[u8], count: usize) -> Result<(), Refusal> {
    calls::gap(memory)?;
    for &octet in telegram {
        calls::octet(memory, octet, false)?;
    }
    for _ in 0..count {
        calls::tick(memory)?;
    }
    Ok(())
}

// Start, Set_Prm and Chk_Cfg with their judgements: address 5, ident 80B3, one output, one input, master 2, 100 Ticks.
fn set_up(memory: &mut [u8]) -> Result<(), Refusal> {
    let given = Given {
        address: 5,
        ident: 0x80B3,
        output_len: 1,
        input_len: 1,
        parameter_len: 7,
        configuration_len: 1,
        diagnosis_len: 6,
    };
    start(memory, given, b"\x31", &[0u8; 32])?;
    let prm = b"\x68\x0C\x0C\x68\x85\x82\x5D\x3D\x3E\x88\x01\x0A\x0B\x80\xB3\x00\xB0\x16";
    take_turn(memory, prm, 0)?;
    calls::judge_parameters(memory, 1)?;
    let cfg = b"\x68\x06\x06\x68\x85\x82\x7D\x3E\x3E\x31\x31\x16";
    take_turn(memory, cfg, 0)?;
    calls::judge_configuration(memory, 1)?;
    Ok(())
}

fn print_answer(rt: &impl Print, answer: Answer) -> io::Result<()> {
    match answer {
        Ok(n) => println!(rt; "{n:03x}"),
        Err(_) => println!(rt; "refused"),
    }
}

// The event word, take outputs, the output, and the reply that is left, with the answer that none is.
fn print_seen(rt: &impl Print, memory: &mut [u8]) -> io::Result<()> {
    print_answer(rt, calls::events(memory))?;
    print_answer(rt, calls::take(memory))?;
    print_answer(rt, calls::read(memory, 1, 0))?;
    for _ in 0..11 {
        print_answer(rt, calls::send(memory))?;
    }
    Ok(())
}

// Two Data_Exchange telegrams. The frame count bit alternates, so that none is a repeat.
const FIRST: &[u8] = b"\x68\x04\x04\x68\x05\x02\x5D\x7A\xDE\x16";

const SECOND: &[u8] = b"\x68\x04\x04\x68\x05\x02\x7D\x7B\xFF\x16";

// Both with count Ticks after each, by the exported calls.
fn by_calls(memory: &mut [u8], count: usize) -> Result<(), Refusal> {
    set_up(memory)?;
    take_turn(memory, FIRST, count)?;
    take_turn(memory, SECOND, count)
}

// The same on the lent state. Whether the memory was well.
fn by_loan(memory: &mut [u8], count: usize) -> Result<bool, Refusal> {
    set_up(memory)?;
    Ok(lent::bench::exchange(memory, FIRST, SECOND, count))
}

// On both memories.
fn exchange(rt: &impl Print, count: usize) -> io::Result<()> {
    let mut packed = [0u8; 1536];
    if by_calls(&mut packed, count).is_ok() {
        print_seen(rt, &mut packed)?;
    }
    let mut lent = [0u8; 1536];
    if by_loan(&mut lent, count) == Ok(true) {
        print_seen(rt, &mut lent)?;
    }
    Ok(())
}

fn main(rt: HostRuntime) -> io::Result<()> {
    exchange(&rt, 3)?;
    // the watchdog runs out
    exchange(&rt, 100)
}
