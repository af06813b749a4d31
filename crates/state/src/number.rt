// The cases of the state's enums as numbers, in their order, and back.
ghost use Rattle.std.specs.Prelude.{◌≡◌, ℕ};
ghost use Rattle.state.specs.Number.{reading_number, reading_numbered, kind_number, kind_numbered, stage_number, stage_numbered, phase_number, phase_numbered, drawn_number, drawn_numbered};
ghost use Rattle.state.specs.NumberLaws.{reading_back, kind_back, stage_back, phase_back, drawn_back};

use crate::control;
use crate::state::Drawn;
use telegram::sender::Stage;
use telegram::{Kind, reader};

// An enum whose cases are numbered from 0, in their order: one law for both functions of each.
pub trait Numbered: Copy {
    ghost number_of: { Self → ℕ };

    ghost case_of: { ℕ → Self };

    // Its number.
    fn number(self) -> u8
        ensures { result ≡ number_of self };

    // The case of a number; past the last number the last case.
    fn numbered(n: u8) -> Self
        ensures { result ≡ case_of n };

    // Every case comes back from its number.
    ghost back: { (x : Self) → case_of (number_of x) ≡ x };
}

impl Numbered for reader::Phase {
    ghost number_of = { reading_number };

    ghost case_of = { reading_numbered };

    ghost back = { reading_back };

    fn number(self) -> u8 {
        self as u8
    }

    #[tactic(auto, unfolding(crate::specs::Number::reading_numbered))]
    fn numbered(n: u8) -> reader::Phase {
        match n {
            0 => reader::Phase::Start,
            1 => reader::Phase::Le,
            2 => reader::Phase::LeAgain,
            3 => reader::Phase::SdAgain,
            4 => reader::Phase::Da,
            5 => reader::Phase::Sa,
            6 => reader::Phase::Fc,
            7 => reader::Phase::Dsap,
            8 => reader::Phase::Ssap,
            9 => reader::Phase::Body,
            10 => reader::Phase::End,
            11 => reader::Phase::Done,
            _ => reader::Phase::Off,
        }
    }
}

impl Numbered for Kind {
    ghost number_of = { kind_number };

    ghost case_of = { kind_numbered };

    ghost back = { kind_back };

    fn number(self) -> u8 {
        self as u8
    }

    #[tactic(auto, unfolding(crate::specs::Number::kind_numbered))]
    fn numbered(n: u8) -> Kind {
        match n {
            0 => Kind::Sd1,
            1 => Kind::Sd2,
            2 => Kind::Sd3,
            _ => Kind::Sd4,
        }
    }
}

impl Numbered for Stage {
    ghost number_of = { stage_number };

    ghost case_of = { stage_numbered };

    ghost back = { stage_back };

    fn number(self) -> u8 {
        self as u8
    }

    #[tactic(auto, unfolding(crate::specs::Number::stage_numbered))]
    fn numbered(n: u8) -> Stage {
        match n {
            0 => Stage::Start,
            1 => Stage::Le,
            2 => Stage::LeAgain,
            3 => Stage::SdAgain,
            4 => Stage::Da,
            5 => Stage::Sa,
            6 => Stage::Fc,
            7 => Stage::Body,
            8 => Stage::End,
            9 => Stage::Single,
            _ => Stage::Empty,
        }
    }
}

impl Numbered for control::Phase {
    ghost number_of = { phase_number };

    ghost case_of = { phase_numbered };

    ghost back = { phase_back };

    fn number(self) -> u8 {
        self as u8
    }

    #[tactic(auto, unfolding(crate::specs::Number::phase_numbered))]
    fn numbered(n: u8) -> control::Phase {
        match n {
            0 => control::Phase::WaitPrm,
            1 => control::Phase::WaitCfg,
            _ => control::Phase::DataExch,
        }
    }
}

impl Numbered for Drawn {
    ghost number_of = { drawn_number };

    ghost case_of = { drawn_numbered };

    ghost back = { drawn_back };

    fn number(self) -> u8 {
        self as u8
    }

    #[tactic(auto, unfolding(crate::specs::Number::drawn_numbered))]
    fn numbered(n: u8) -> Drawn {
        match n {
            0 => Drawn::Nothing,
            1 => Drawn::Acknowledge,
            2 => Drawn::Status,
            3 => Drawn::Rejected,
            4 => Drawn::Exchange,
            5 => Drawn::Inputs,
            6 => Drawn::Outputs,
            7 => Drawn::Configuration,
            _ => Drawn::Diagnosis,
        }
    }
}
