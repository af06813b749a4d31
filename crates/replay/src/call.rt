// A line as a call, and the function that C gets for it on the memory.
use crate::fault::Fault;
use crate::text::{number_of, octet_of};

#[derive(Clone, Copy)]
pub enum Call {
    Octet(u8),
    Bad(u8),
    Gap,
    Send,
    Tick,
    Take,
    Read(u32, u32),
    Write(u32, u32, u8),
    HandOver,
    Diagnosis(u32, u32),
    JudgeParameters(u32),
    JudgeConfiguration(u32),
    Events,
    Acknowledge(u16),
    Pending,
    Leave,
    WindowRead(u32, u32),
    WindowWrite(u32, u32, u8),
}

// The number of an order: i is Intel's, m Motorola's.
fn order_of(word: &[u8]) -> Result<u32, Fault> {
    match word {
        b"i" => Ok(0),
        b"m" => Ok(1),
        _ => Err(Fault::NoCall),
    }
}

// The call of a line, by its words.
impl TryFrom<&[&[u8]]> for Call {
    type Error = Fault;

    fn try_from(words: &[&[u8]]) -> Result<Call, Fault> {
        Ok(match words {
            [b"octet", octet] => Call::Octet(octet_of(octet)?),
            [b"bad", octet] => Call::Bad(octet_of(octet)?),
            [b"gap"] => Call::Gap,
            [b"send"] => Call::Send,
            [b"tick"] => Call::Tick,
            [b"take"] => Call::Take,
            [b"read", kind, index] => Call::Read(number_of(kind)?, number_of(index)?),
            [b"write", kind, index, octet] => Call::Write(
                number_of(kind)?,
                number_of(index)?,
                octet_of(octet)?,
            ),
            [b"handover"] => Call::HandOver,
            [b"diag", count, flags] => Call::Diagnosis(number_of(count)?, number_of(flags)?),
            [b"judgeprm", good] => Call::JudgeParameters(number_of(good)?),
            [b"judgecfg", good] => Call::JudgeConfiguration(number_of(good)?),
            [b"events"] => Call::Events,
            [b"ack", mask] => Call::Acknowledge(u16::try_from(number_of(mask)?)?),
            [b"pending"] => Call::Pending,
            [b"leave"] => Call::Leave,
            [b"winread", order, address] => Call::WindowRead(order_of(order)?, number_of(address)?),
            [b"winwrite", order, address, octet] => {
                Call::WindowWrite(order_of(order)?, number_of(address)?, octet_of(octet)?)
            }
            _ => return Err(Fault::NoCall),
        })
    }
}

impl Call {
    // The call on the memory.
    pub fn run(self, memory: &mut [u8]) -> i64 {
        match self {
            Call::Octet(value) => card::dp_octet(memory, value, 0),
            Call::Bad(value) => card::dp_octet(memory, value, 1),
            Call::Gap => card::dp_gap(memory),
            Call::Send => card::dp_send(memory),
            Call::Tick => card::dp_tick(memory),
            Call::Take => card::dp_take_outputs(memory),
            Call::Read(kind, index) => card::dp_read(memory, kind, index),
            Call::Write(kind, index, value) => card::dp_write(memory, kind, index, value),
            Call::HandOver => card::dp_hand_over_inputs(memory),
            Call::Diagnosis(count, flags) => card::dp_new_diagnosis(memory, count, flags),
            Call::JudgeParameters(good) => card::dp_judge_parameters(memory, good),
            Call::JudgeConfiguration(good) => card::dp_judge_configuration(memory, good),
            Call::Events => card::dp_events(memory),
            Call::Acknowledge(mask) => card::dp_acknowledge(memory, mask),
            Call::Pending => card::dp_pending(memory),
            Call::Leave => card::dp_leave_master(memory),
            Call::WindowRead(order, address) => card::dp_window_read(memory, order, address),
            Call::WindowWrite(order, address, value) => card::dp_window_write(
                memory, order, address, value,
            ),
        }
    }
}
