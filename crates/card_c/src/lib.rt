// The exports to C: each is the function of its name in the crate card, and promises what that does. C has one name for each.
#![tactic(auto)]

ghost use Rattle.std.specs.Prelude.{not, eqb, length};
ghost use Rattle.state.specs.Start.{given};
ghost use Rattle.steps.specs.Calls.{started, called};
ghost use Rattle.rules.specs.Call.{gap, send, tick, take, read, write, hand_over_call, new_diagnosis_call, judge_parameters_call, judge_configuration_call, events, acknowledge, pending, leave};
ghost use Rattle.rules.specs.Call as call;
ghost use Rattle.window.specs.Order.{order_of};
ghost use Rattle.window.specs.Entries.{window_read, window_write};
ghost use Rattle.window.specs.Calls.{entered};
ghost use Rattle.card.specs.Exports.{Returns};

// Start: sets the station up in the memory. 0, or refused by 1 to 4.
#[unsafe(no_mangle)]
pub extern "C" fn dp_start(
    memory: &mut [u8],
    address: u32,
    ident: u16,
    output_len: u32,
    input_len: u32,
    parameter_len: u32,
    configuration_len: u32,
    diagnosis_len: u32,
    get_cfg: &[u8],
    channels: &[u8],
) -> i64
    ensures { Returns (started memory.old (given address ident output_len input_len parameter_len configuration_len diagnosis_len (length get_cfg.now)) get_cfg.now channels.now) result memory.new }
{
    card::dp_start(
        memory,
        address,
        ident,
        output_len,
        input_len,
        parameter_len,
        configuration_len,
        diagnosis_len,
        get_cfg,
        channels,
    )
}

// The bus's octet. bad: 0 for one that was well received, any other value flags it.
#[unsafe(no_mangle)]
pub extern "C" fn dp_octet(memory: &mut [u8], octet: u8, bad: u8) -> i64
    ensures { Returns (called memory.old (call.octet octet (not (eqb bad 0)))) result memory.new }
{
    card::dp_octet(memory, octet, bad)
}

// A gap on the line.
#[unsafe(no_mangle)]
pub extern "C" fn dp_gap(memory: &mut [u8]) -> i64
    ensures { Returns (called memory.old gap) result memory.new }
{
    card::dp_gap(memory)
}

// The next octet of the reply, 256 when none is left.
#[unsafe(no_mangle)]
pub extern "C" fn dp_send(memory: &mut [u8]) -> i64
    ensures { Returns (called memory.old send) result memory.new }
{
    card::dp_send(memory)
}

// A Tick, every 1 ms.
#[unsafe(no_mangle)]
pub extern "C" fn dp_tick(memory: &mut [u8]) -> i64
    ensures { Returns (called memory.old tick) result memory.new }
{
    card::dp_tick(memory)
}

// Take outputs: 0 nothing new, 1 new, 2 new zeros published by the station.
#[unsafe(no_mangle)]
pub extern "C" fn dp_take_outputs(memory: &mut [u8]) -> i64
    ensures { Returns (called memory.old take) result memory.new }
{
    card::dp_take_outputs(memory)
}

// An octet of kind 1 outputs, 2 parameters shown, 3 configuration shown, 4 held inputs, 5 the user's diagnosis.
#[unsafe(no_mangle)]
pub extern "C" fn dp_read(memory: &mut [u8], kind: u32, index: u32) -> i64
    ensures { Returns (called memory.old (read kind index)) result memory.new }
{
    card::dp_read(memory, kind, index)
}

// An octet of kind 4 or 5 written.
#[unsafe(no_mangle)]
pub extern "C" fn dp_write(memory: &mut [u8], kind: u32, index: u32, octet: u8) -> i64
    ensures { Returns (called memory.old (write kind index octet)) result memory.new }
{
    card::dp_write(memory, kind, index, octet)
}

// Hand over inputs.
#[unsafe(no_mangle)]
pub extern "C" fn dp_hand_over_inputs(memory: &mut [u8]) -> i64
    ensures { Returns (called memory.old hand_over_call) result memory.new }
{
    card::dp_hand_over_inputs(memory)
}

// New diagnosis of `count` octets, flags in bits 0 to 2: Ext_Diag, Stat_Diag, overflow.
#[unsafe(no_mangle)]
pub extern "C" fn dp_new_diagnosis(memory: &mut [u8], count: u32, flags: u32) -> i64
    ensures { Returns (called memory.old (new_diagnosis_call count flags)) result memory.new }
{
    card::dp_new_diagnosis(memory, count, flags)
}

// Judge parameters, 1 good, 0 bad: 1 if a newer set waited, which is now shown, else 0.
#[unsafe(no_mangle)]
pub extern "C" fn dp_judge_parameters(memory: &mut [u8], judgement: u32) -> i64
    ensures { Returns (called memory.old (judge_parameters_call judgement)) result memory.new }
{
    card::dp_judge_parameters(memory, judgement)
}

// Judge configuration, likewise.
#[unsafe(no_mangle)]
pub extern "C" fn dp_judge_configuration(memory: &mut [u8], judgement: u32) -> i64
    ensures { Returns (called memory.old (judge_configuration_call judgement)) result memory.new }
{
    card::dp_judge_configuration(memory, judgement)
}

// The event word.
#[unsafe(no_mangle)]
pub extern "C" fn dp_events(memory: &mut [u8]) -> i64
    ensures { Returns (called memory.old events) result memory.new }
{
    card::dp_events(memory)
}

// Clears the events of the mask, never 10 or 11.
#[unsafe(no_mangle)]
pub extern "C" fn dp_acknowledge(memory: &mut [u8], mask: u16) -> i64
    ensures { Returns (called memory.old (acknowledge mask)) result memory.new }
{
    card::dp_acknowledge(memory, mask)
}

// The smallest number of a set event, 16 for none.
#[unsafe(no_mangle)]
pub extern "C" fn dp_pending(memory: &mut [u8]) -> i64
    ensures { Returns (called memory.old pending) result memory.new }
{
    card::dp_pending(memory)
}

// Leave the master: a clear.
#[unsafe(no_mangle)]
pub extern "C" fn dp_leave_master(memory: &mut [u8]) -> i64
    ensures { Returns (called memory.old leave) result memory.new }
{
    card::dp_leave_master(memory)
}

// Reads the cell of the window that is at an address in an order, 0 Intel's, any other Motorola's, and so makes the call behind it.
#[unsafe(no_mangle)]
pub extern "C" fn dp_window_read(memory: &mut [u8], order: u32, address: u32) -> i64
    ensures { Returns (entered memory.old (window_read (order_of order) address)) result memory.new }
{
    card::dp_window_read(memory, order, address)
}

// Writes an octet to a cell of the window.
#[unsafe(no_mangle)]
pub extern "C" fn dp_window_write(memory: &mut [u8], order: u32, address: u32, octet: u8) -> i64
    ensures { Returns (entered memory.old (window_write (order_of order) address octet)) result memory.new }
{
    card::dp_window_write(memory, order, address, octet)
}
