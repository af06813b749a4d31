// The event word: one bit for each event, and the events' numbers.
ghost use Rattle.std.specs.Prelude.{◌≡◌};
ghost use Rattle.buffers.specs.Events.{only, no_events, raised, cleared, acknowledged, pending_of};

// The events that are set: event n is bit n of the word.
#[derive(Clone, Copy, PartialEq, Eq, Debug)]
pub struct Events {
    pub word: u16,
}

impl Events {
    // DATA_EXCH entered or left.
    pub const DATA_EXCHANGE: u8 = 1;
    // The watchdog ran out.
    pub const WATCHDOG: u8 = 3;
    // A new Global_Control octet.
    pub const CONTROL: u8 = 8;
    // A configuration set is open.
    pub const CONFIGURATION: u8 = 10;
    // A parameter set is open.
    pub const PARAMETERS: u8 = 11;
    // The diagnosis buffers changed.
    pub const DIAGNOSIS: u8 = 12;
    // Outputs were published.
    pub const OUTPUTS: u8 = 13;
    // As many numbers as the word has bits, and what pending answers for none.
    pub const COUNT: u8 = 16;
    // The bits that no acknowledgement clears: their events end with the set that is open.
    pub const KEPT: u16 = (1 << Self::CONFIGURATION) | (1 << Self::PARAMETERS);

    // No event.
    pub fn none() -> Self
        ensures { result ≡ no_events }
    {
        Self { word: 0 }
    }

    // That event alone, and none for a number that the word has no bit for.
    pub fn of(number: u8) -> Self
        ensures { result ≡ only number }
    {
        if number < Self::COUNT {
            return Self { word: 1 << number };
        }
        Self { word: 0 }
    }

    // The event is set beside the others.
    pub fn raise(mut self, number: u8) -> Self
        ensures { result ≡ raised self number }
    {
        self.word |= Self::of(number).word;
        self
    }

    // The event is not set any more.
    #[tactic(auto, using(crate::proofs::Bits::and_complement))]
    pub fn clear(mut self, number: u8) -> Self
        ensures { result ≡ cleared self number }
    {
        self.word &= !Self::of(number).word;
        self
    }

    // The bits of the mask are cleared, but for those that are kept.
    pub fn acknowledge(mut self, mask: u16) -> Self
        ensures { result ≡ acknowledged self mask }
    {
        let ends = mask & !Self::KEPT;
        self.word &= !ends;
        self
    }

    // The smallest number of a set event, or COUNT for none: what the call answers.
    pub fn pending(self) -> u8
        ensures { result ≡ pending_of self }
    {
        self.word.trailing_zeros() as u8
    }
}
