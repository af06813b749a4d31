// What is behind an access: which call it makes, by the order and the address. The call itself is made by whoever has the calls.
ghost use Rattle.std.specs.Prelude.{◌≡◌};
ghost use Rattle.state.specs.declared.control.Control.{Control};
ghost use Rattle.window.specs.Entries.{window_read, window_write};
ghost use Rattle.window.specs.Table.{behind};
ghost use Rattle.window.specs.Command.{commanded};

use crate::order::Order;

#[derive(Clone, Copy, PartialEq, Eq, Debug)]
pub enum Command {
    // bits 7 to 0 of the event word, and bits 15 to 8
    LowEvents,
    HighEvents,
    HandOver,
    Take,
    // with the present count and flags
    NewDiagnosis,
    JudgeParameters(u32),
    JudgeConfiguration(u32),
    Acknowledge(u16),
    // a cell with no call behind it
    Nothing,
    // an address above the last cell
    NoCell,
}

impl Command {
    // The highest address of a cell.
    pub const LAST: u32 = 0x15;

    // Behind reading at an address.
    pub fn reading(order: Order, address: u32) -> Self
        ensures { (c : Control) → commanded c result ≡ behind c (window_read order address) }
    {
        if Self::LAST < address {
            return Self::NoCell;
        }
        match order.cell(address) {
            0x00 | 0x02 => Self::LowEvents,
            0x01 | 0x03 => Self::HighEvents,
            0x09 => Self::HandOver,
            0x0B => Self::Take,
            0x0D => Self::NewDiagnosis,
            0x0E => Self::JudgeParameters(1),
            0x0F => Self::JudgeParameters(0),
            0x10 => Self::JudgeConfiguration(1),
            0x11 => Self::JudgeConfiguration(0),
            _ => Self::Nothing,
        }
    }

    // Behind writing an octet at an address.
    pub fn writing(order: Order, address: u32, octet: u8) -> Self
        ensures { (c : Control) → commanded c result ≡ behind c (window_write order address octet) }
    {
        if Self::LAST < address {
            return Self::NoCell;
        }
        match order.cell(address) {
            0x02 => Self::Acknowledge(u16::from(octet)),
            0x03 => Self::Acknowledge(256 * u16::from(octet)),
            _ => Self::Nothing,
        }
    }
}
