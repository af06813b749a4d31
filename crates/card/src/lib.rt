// The station as firmware in C calls it: the memory first, plain numbers, a refusal negated. One function for each call, as C has them.
#![tactic(auto, using(crate::proofs::Exporting::exported, crate::proofs::Exporting::handed_on, crate::proofs::Exporting::by_call, crate::proofs::Exporting::by_command, crate::proofs::Exporting::by_access))]

ghost use Rattle.std.specs.Prelude.{not, eqb, length};
ghost use Rattle.state.specs.Start.{given};
ghost use Rattle.state.specs.Unpack.{unpacked};
ghost use Rattle.steps.specs.Calls.{started, called};
ghost use Rattle.rules.specs.Call.{gap, send, tick, take, read, write, hand_over_call, new_diagnosis_call, judge_parameters_call, judge_configuration_call, events, acknowledge, pending, leave};
ghost use Rattle.rules.specs.Call as call;
ghost use Rattle.window.specs.Order.{order_of};
ghost use Rattle.window.specs.Entries.{window_read, window_write};
ghost use Rattle.window.specs.Command.{commanded};
ghost use Rattle.window.specs.Calls.{entered_by, entered};
ghost use Rattle.card.specs.Exports.{Returns};

use state::answer::code;
use state::setup::Given;
use station::calls;
use station::start::start;
use window::command::Command;
use window::order::Order;

// Start: sets the station up in the memory. 0, or refused by 1 to 4.
pub fn dp_start(
    memory: &mut [u8],
    address: u32,
    ident: u16,
    output_len: u32,
    input_len: u32,
    parameter_len: u32,
    configuration_len: u32,
    diagnosis_len: u32,
    get_cfg: &[u8],
    channels: &[u8],
) -> i64
    ensures { Returns (started memory.old (given address ident output_len input_len parameter_len configuration_len diagnosis_len (length get_cfg.now)) get_cfg.now channels.now) result memory.new }
{
    let given = Given {
        address,
        ident,
        output_len,
        input_len,
        parameter_len,
        configuration_len,
        diagnosis_len,
    };
    code(start(memory, given, get_cfg, channels))
}

// The bus's octet. bad: 0 for one that was well received, any other value flags it.
pub fn dp_octet(memory: &mut [u8], octet: u8, bad: u8) -> i64
    ensures { Returns (called memory.old (call.octet octet (not (eqb bad 0)))) result memory.new }
{
    code(calls::octet(memory, octet, bad != 0))
}

// A gap on the line.
pub fn dp_gap(memory: &mut [u8]) -> i64
    ensures { Returns (called memory.old gap) result memory.new }
{
    code(calls::gap(memory))
}

// The next octet of the reply, 256 when none is left.
pub fn dp_send(memory: &mut [u8]) -> i64
    ensures { Returns (called memory.old send) result memory.new }
{
    code(calls::send(memory))
}

// A Tick, every 1 ms.
pub fn dp_tick(memory: &mut [u8]) -> i64
    ensures { Returns (called memory.old tick) result memory.new }
{
    code(calls::tick(memory))
}

// Take outputs: 0 nothing new, 1 new, 2 new zeros published by the station.
pub fn dp_take_outputs(memory: &mut [u8]) -> i64
    ensures { Returns (called memory.old take) result memory.new }
{
    code(calls::take(memory))
}

// An octet of kind 1 outputs, 2 parameters shown, 3 configuration shown, 4 held inputs, 5 the user's diagnosis.
pub fn dp_read(memory: &mut [u8], kind: u32, index: u32) -> i64
    ensures { Returns (called memory.old (read kind index)) result memory.new }
{
    code(calls::read(memory, kind, index))
}

// An octet of kind 4 or 5 written.
pub fn dp_write(memory: &mut [u8], kind: u32, index: u32, octet: u8) -> i64
    ensures { Returns (called memory.old (write kind index octet)) result memory.new }
{
    code(calls::write(memory, kind, index, octet))
}

// Hand over inputs.
pub fn dp_hand_over_inputs(memory: &mut [u8]) -> i64
    ensures { Returns (called memory.old hand_over_call) result memory.new }
{
    code(calls::hand_over(memory))
}

// New diagnosis of `count` octets, flags in bits 0 to 2: Ext_Diag, Stat_Diag, overflow.
pub fn dp_new_diagnosis(memory: &mut [u8], count: u32, flags: u32) -> i64
    ensures { Returns (called memory.old (new_diagnosis_call count flags)) result memory.new }
{
    code(calls::new_diagnosis(memory, count, flags))
}

// Judge parameters, 1 good, 0 bad: 1 if a newer set waited, which is now shown, else 0.
pub fn dp_judge_parameters(memory: &mut [u8], judgement: u32) -> i64
    ensures { Returns (called memory.old (judge_parameters_call judgement)) result memory.new }
{
    code(calls::judge_parameters(memory, judgement))
}

// Judge configuration, likewise.
pub fn dp_judge_configuration(memory: &mut [u8], judgement: u32) -> i64
    ensures { Returns (called memory.old (judge_configuration_call judgement)) result memory.new }
{
    code(calls::judge_configuration(memory, judgement))
}

// The event word.
pub fn dp_events(memory: &mut [u8]) -> i64
    ensures { Returns (called memory.old events) result memory.new }
{
    code(calls::events(memory))
}

// Clears the events of the mask, never 10 or 11.
pub fn dp_acknowledge(memory: &mut [u8], mask: u16) -> i64
    ensures { Returns (called memory.old (acknowledge mask)) result memory.new }
{
    code(calls::acknowledge(memory, mask))
}

// The smallest number of a set event, 16 for none.
pub fn dp_pending(memory: &mut [u8]) -> i64
    ensures { Returns (called memory.old pending) result memory.new }
{
    code(calls::pending(memory))
}

// Leave the master: a clear.
pub fn dp_leave_master(memory: &mut [u8]) -> i64
    ensures { Returns (called memory.old leave) result memory.new }
{
    code(calls::leave(memory))
}

// What is behind an access of the window. What is long is made by the function that C gets for it, so that its code stands once.
fn command(memory: &mut [u8], command: Command) -> i64
    ensures { Returns (entered_by memory.old (commanded (unpacked memory.old).control command)) result memory.new }
{
    match command {
        Command::LowEvents => code(window::calls::event_bits(memory, 0)),
        Command::HighEvents => code(window::calls::event_bits(memory, 8)),
        Command::HandOver => code(calls::hand_over(memory)),
        Command::Take => dp_take_outputs(memory),
        Command::NewDiagnosis => code(window::calls::renew_diagnosis(memory)),
        Command::JudgeParameters(judgement) => dp_judge_parameters(memory, judgement),
        Command::JudgeConfiguration(judgement) => dp_judge_configuration(memory, judgement),
        Command::Acknowledge(mask) => code(calls::acknowledge(memory, mask)),
        Command::Nothing => code(window::calls::nothing(&memory[..])),
        Command::NoCell => code(window::calls::no_cell(&memory[..])),
    }
}

// Reads the cell of the window that is at an address in an order, 0 Intel's, any other Motorola's, and so makes the call behind it.
pub fn dp_window_read(memory: &mut [u8], order: u32, address: u32) -> i64
    ensures { Returns (entered memory.old (window_read (order_of order) address)) result memory.new }
{
    command(memory, Command::reading(Order::from(order), address))
}

// Writes an octet to a cell of the window.
pub fn dp_window_write(memory: &mut [u8], order: u32, address: u32, octet: u8) -> i64
    ensures { Returns (entered memory.old (window_write (order_of order) address octet)) result memory.new }
{
    command(memory, Command::writing(Order::from(order), address, octet))
}
