// What a call answers: a value, or why it is refused.
ghost use Rattle.std.specs.Prelude.{◌≡◌};
ghost use Rattle.state.specs.Answer.{refusal_number, answer_number};

// The refusals with their numbers, by who causes them.
#[derive(Clone, Copy, PartialEq, Eq, Debug)]
pub enum Refusal {
    // the starter
    MemoryLength = 1,
    Address,
    Length,
    Room,
    // whoever damaged the memory
    Damaged,
    // the vat program
    Judging,
    Range,
    Absent,
    Delayed,
    Cell,
}

impl Refusal {
    // Its number, 1 to 10.
    pub fn number(self) -> u8
        ensures { result ≡ refusal_number self }
    {
        self as u8
    }
}

// A value, or why the call is refused.
pub type Answer = Result<u32, Refusal>;

// As the firmware gets it: a value as itself, a refusal's number negated.
pub fn code(answer: Answer) -> i64
    ensures { result ≡ answer_number answer }
{
    match answer {
        Ok(n) => i64::from(n),
        Err(why) => -i64::from(why.number()),
    }
}
