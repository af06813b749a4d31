// The control part of the state: what the rules look at and change beside the buffers.
use crate::chain::Chain;
use buffers::events::Events;

// The phases of the DP state machine: WAIT_PRM, WAIT_CFG, DATA_EXCH.
#[derive(Clone, Copy, PartialEq, Eq, Debug)]
pub enum Phase {
    WaitPrm,
    WaitCfg,
    DataExch,
}

// Ticks of 1 ms: what the watchdog is refilled to, 0 where it is off, and how many remain. 10 × 255 × 255 do not fit a word of 16 bits.
#[derive(Clone, Copy, Default)]
pub struct Watchdog {
    pub reload: u32,
    pub remaining: u32,
}

// The flags that diagnosis shows, Diag_Flag, and whether the parameters were judged good.
#[derive(Clone, Copy, Default)]
pub struct Flags {
    pub prm_fault: bool,
    pub cfg_fault: bool,
    pub ext_diag: bool,
    pub stat_diag: bool,
    pub overflow: bool,
    pub diag_flag: bool,
    pub parameters_good: bool,
}

// Sync and freeze: whether each mode is on, and whether Set_Prm allowed it.
#[derive(Clone, Copy, Default)]
pub struct Modes {
    pub sync: bool,
    pub freeze: bool,
    pub sync_allowed: bool,
    pub freeze_allowed: bool,
}

// How many octets diagnosis has, and a new diagnosis that is delayed: its count, 0 where none is, and its flags. Here and below an octet stands
// for none and no Option: it is what the image has and, of the owner, what diagnosis shows.
#[derive(Clone, Copy, Default)]
pub struct Diagnosis {
    pub count: u8,
    pub delayed_count: u8,
    pub delayed_flags: u8,
}

#[derive(Clone, Copy)]
pub struct Control {
    pub phase: Phase,
    // the address of the master that holds the station, or NO_OWNER
    pub owner: u8,
    pub group: u8,
    // the stored control octet of Global_Control
    pub stored: u8,
    pub watchdog: Watchdog,
    pub flags: Flags,
    pub events: Events,
    // a clear waits until the line is idle
    pub noted: bool,
    pub diagnosis: Diagnosis,
    pub modes: Modes,
    // the last request, with which the next is compared
    pub chain: Chain,
}

impl Control {
    // What diagnosis shows for no owner.
    pub const NO_OWNER: u8 = 255;
}
