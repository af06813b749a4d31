// What Start is given.

// As it is kept, in its ranges.
#[derive(Clone, Copy)]
pub struct Setup {
    // 0 to 126
    pub address: u8,
    pub ident: u16,
    pub output_len: u8,
    pub input_len: u8,
    pub parameter_len: u8,
    pub configuration_len: u8,
    pub diagnosis_len: u8,
    // how many octets Get_Cfg sends
    pub get_cfg_len: u8,
}

// The numbers that Start is given, as they come; the octets that Get_Cfg sends come beside them.
#[derive(Clone, Copy)]
pub struct Given {
    pub address: u32,
    pub ident: u16,
    pub output_len: u32,
    pub input_len: u32,
    pub parameter_len: u32,
    pub configuration_len: u32,
    pub diagnosis_len: u32,
}
