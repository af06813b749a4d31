// A complete telegram as the rules see it.
use telegram::Kind;

#[derive(Clone, Copy)]
pub struct Request {
    pub kind: Kind,
    pub da: u8,
    pub sa: u8,
    pub fc: u8,
    pub dsap: u8,
    pub ssap: u8,
    // how many data octets it has, DSAP and SSAP left out
    pub count: u8,
}

// The data octets of Set_Prm that the rules look at.
#[derive(Clone, Copy)]
pub struct Prm {
    // octet 0: lock, unlock, sync, freeze, watchdog
    pub status: u8,
    // octets 1 and 2
    pub factor1: u8,
    pub factor2: u8,
    // octets 4 and 5
    pub ident_high: u8,
    pub ident_low: u8,
    // octet 6
    pub group: u8,
    // octet 7: the watchdog's base; what stands there means nothing with fewer than 8 data octets
    pub base: u8,
}

// The data octets of a telegram that the rules look at.
#[derive(Clone, Copy)]
pub struct Data {
    // Set_Prm's
    pub prm: Prm,
    // the first two: Global_Control's
    pub first: u8,
    pub second: u8,
}

// What the rules look at of the buffers: whether a set of parameters and one of configuration is open, and whether outputs are held
// back.
#[derive(Clone, Copy)]
pub struct Occupied {
    pub parameters: bool,
    pub configuration: bool,
    pub outputs: bool,
}

// What a telegram asks of the station, by its header alone.
#[derive(Clone, Copy, PartialEq, Eq, Debug)]
pub enum Service {
    Nothing,
    Status,
    Reject,
    GlobalControl,
    DataExchange,
    SetPrm,
    ChkCfg,
    SlaveDiag,
    GetCfg,
    ReadInputs,
    ReadOutputs,
}
