// The kinds of octets that the vat program reads and writes.
ghost use Rattle.std.specs.Prelude.{cond, ◌≡◌, true, false, eqb, MatchOption};
ghost use Rattle.rules.specs.Kinds.{kind_number, kind_length, writable, in_range};

use state::setup::Setup;

// The kinds, by their numbers 1 to 5.
#[derive(Clone, Copy, PartialEq, Eq, Debug)]
pub enum Octets {
    Outputs = 1,
    Parameters,
    Configuration,
    Inputs,
    Diagnosis,
}

impl Octets {
    // Kinds 4 and 5 are written.
    pub fn is_writable(self) -> bool
        ensures { result ≡ writable (kind_number self) }
    {
        matches!(self, Octets::Inputs | Octets::Diagnosis)
    }

    // What it is set to hold at most.
    fn length(self, setup: Setup) -> u8
        ensures { result ≡ kind_length setup (kind_number self) }
    {
        match self {
            Octets::Outputs => setup.output_len,
            Octets::Parameters => setup.parameter_len,
            Octets::Configuration => setup.configuration_len,
            Octets::Inputs => setup.input_len,
            Octets::Diagnosis => setup.diagnosis_len,
        }
    }

    // Its first index: 6 for the user's diagnosis, else 0.
    fn first(self) -> u32
        ensures { result ≡ cond (eqb (kind_number self) 5) 6 0 }
    {
        match self {
            Octets::Diagnosis => 6,
            _ => 0,
        }
    }
}

// The kind of a number.
fn numbered(number: u32) -> Option<Octets>
    ensures { MatchOption result ((setup : Setup) → kind_length setup number ≡ 0) (λ kind. kind_number kind ≡ number) }
{
    match number {
        1 => Some(Octets::Outputs),
        2 => Some(Octets::Parameters),
        3 => Some(Octets::Configuration),
        4 => Some(Octets::Inputs),
        5 => Some(Octets::Diagnosis),
        _ => None,
    }
}

// The kind that a number and an index address: the index is from the first one, below the kind's set length.
pub fn addressed(setup: Setup, number: u32, index: u32) -> Option<Octets>
    ensures { MatchOption result (in_range setup number index ≡ false) (λ kind. (kind_number kind ≡ number) × (in_range setup number index ≡ true)) }
{
    let kind = numbered(number)?;
    if (kind.first() <= index) & (index < u32::from(kind.length(setup))) {
        return Some(kind);
    }
    None
}
