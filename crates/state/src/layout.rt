// Where the buffers lie behind the state part. What a channel has in the state part is the crate channels'.
ghost use Rattle.std.specs.Prelude.{◌≡◌, ◌≤◌, ◌^◌};
ghost use Rattle.state.specs.Layout.{place_at, outputs_at, inputs_at, parameters_at, configuration_at, diagnosis_at, get_cfg_at, end_of};

use crate::setup::Setup;
use octets::rounded_up;

// How many octets the state part has.
pub const STATE_LENGTH: usize = 512;

// How many of them, from the first on, are the image of the state but for its channels.
pub const IMAGE_LENGTH: usize = 68;

// Where the buffers end at most if all lengths are at most 64, those of the channels left out.
pub const SHORT_END: usize = 1536;

// Where they end at most with any lengths.
pub const LONG_END: usize = 4480;

// How many output buffers there are,
pub const OUTPUT_BUFFERS: u8 = 4;

// how many for inputs,
pub const INPUT_BUFFERS: u8 = 3;

// for parameters,
pub const PARAMETER_BUFFERS: u8 = 3;

// for configuration,
pub const CONFIGURATION_BUFFERS: u8 = 3;

// for diagnosis,
pub const DIAGNOSIS_BUFFERS: u8 = 2;

// and for Get_Cfg.
pub const GET_CFG_BUFFERS: u8 = 1;

// Where buffer k begins, of buffers of n octets that lie one after the other from a base on.
fn place_at(base: usize, n: u8, k: u8) -> usize
    requires { base ≤ 2 ^ 32 }
    ensures { result ≡ place_at base n k }
{
    base + rounded_up(n) * (k as usize)
}

// Where output buffer k begins. One function for each kind of buffers: each lies behind the one before and has a length of its own.
pub fn outputs_at(s: Setup, k: u8) -> usize
    ensures { result ≡ outputs_at s k }
{
    place_at(STATE_LENGTH, s.output_len, k)
}

// Where input buffer k begins.
pub fn inputs_at(s: Setup, k: u8) -> usize
    ensures { result ≡ inputs_at s k }
{
    place_at(outputs_at(s, OUTPUT_BUFFERS), s.input_len, k)
}

// Where parameter buffer k begins.
pub fn parameters_at(s: Setup, k: u8) -> usize
    ensures { result ≡ parameters_at s k }
{
    place_at(inputs_at(s, INPUT_BUFFERS), s.parameter_len, k)
}

// Where configuration buffer k begins.
pub fn configuration_at(s: Setup, k: u8) -> usize
    ensures { result ≡ configuration_at s k }
{
    place_at(parameters_at(s, PARAMETER_BUFFERS), s.configuration_len, k)
}

// Where diagnosis buffer k begins.
pub fn diagnosis_at(s: Setup, k: u8) -> usize
    ensures { result ≡ diagnosis_at s k }
{
    place_at(
        configuration_at(s, CONFIGURATION_BUFFERS),
        s.diagnosis_len,
        k,
    )
}

// Where the buffer for Get_Cfg begins.
pub fn get_cfg_at(s: Setup) -> usize
    ensures { result ≡ get_cfg_at s }
{
    diagnosis_at(s, DIAGNOSIS_BUFFERS)
}

// Where the last of them ends, and the channels' buffers begin.
pub fn end_of(s: Setup) -> usize
    ensures { (result ≡ end_of s) × (result ≤ 65536) }
{
    place_at(get_cfg_at(s), s.get_cfg_len, GET_CFG_BUFFERS)
}
