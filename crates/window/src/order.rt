// The order that a processor has the octets of a word in, and with it the addresses of the first cells.
ghost use Rattle.std.specs.Prelude.{◌≡◌};
ghost use Rattle.window.specs.Order.{order_of, cell_at};

#[derive(Clone, Copy, PartialEq, Eq, Debug)]
pub enum Order {
    Intel,
    Motorola,
}

impl Order {
    // The last address of the first two words.
    pub const LAST_EXCHANGED: u32 = 3;

    // The cell that this order has at an address, by Intel's address: the first two words have their octets exchanged in Motorola's.
    pub fn cell(self, address: u32) -> u32
        ensures { result ≡ cell_at self address }
    {
        match self {
            Self::Intel => address,
            Self::Motorola => {
                if Self::LAST_EXCHANGED < address {
                    return address;
                }
                address ^ 1
            }
        }
    }
}

// By its number: 0 is Intel's, any other Motorola's.
impl From<u32> for Order {
    ghost from_gives = { λ number order. order ≡ order_of number };

    fn from(number: u32) -> Self {
        if number == 0 {
            Self::Intel
        } else {
            Self::Motorola
        }
    }
}
