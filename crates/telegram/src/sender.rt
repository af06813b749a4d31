// A sender gives the octets of a telegram, or the single octet E5, one after the other.
#![tactic(auto, unfolding(crate::specs::Sending::sent))]

ghost use Rattle.std.specs.Prelude.{◌≡◌};
ghost use Rattle.telegram.specs.Sending.{sn, empty, single, sending, left, asks, start_octet, after_start, stage_after_sa, octet_of, onto, adding, after_at, after_sent, sent};

use crate::Kind;

// What is sent next.
#[derive(Clone, Copy, PartialEq, Eq, Debug)]
pub enum Stage {
    Start,
    Le,
    LeAgain,
    SdAgain,
    Da,
    Sa,
    Fc,
    // a data octet while some are left, then the check octet
    Body,
    End,
    // the acknowledgement E5
    Single,
    // all is sent
    Empty,
}

#[derive(Clone, Copy)]
pub struct Sender {
    pub stage: Stage,
    pub kind: Kind,
    // how many data octets the telegram has, DSAP and SSAP among them
    pub count: u8,
    // how many of them are sent
    pub at: u8,
    pub da: u8,
    pub sa: u8,
    pub fc: u8,
    // the running checksum
    pub sum: u8,
}

// An octet, and the sender after it.
#[derive(Clone, Copy)]
pub struct Sent {
    pub octet: u8,
    pub sender: Sender,
}

impl Sender {
    // Nothing to send.
    pub fn empty() -> Sender
        ensures { result ≡ empty }
    {
        Sender::without(Stage::Empty)
    }

    // The single octet E5.
    pub fn single() -> Sender
        ensures { result ≡ single }
    {
        Sender::without(Stage::Single)
    }

    // A telegram with `count` data octets.
    pub fn telegram(kind: Kind, da: u8, sa: u8, fc: u8, count: u8) -> Sender
        ensures { result ≡ sending kind da sa fc count }
    {
        Sender {
            stage: Stage::Start,
            kind,
            count,
            at: 0,
            da,
            sa,
            fc,
            sum: 0,
        }
    }

    // Is an octet left?
    pub fn left(self) -> bool
        ensures { result ≡ left self }
    {
        !matches!(self.stage, Stage::Empty)
    }

    // Which data octet is sent next, from 0; it is to be handed to `send`.
    pub fn asks(self) -> Option<u8>
        ensures { result ≡ asks self }
    {
        (matches!(self.stage, Stage::Body) & (self.at < self.count)).then_some(self.at)
    }

    // The next octet. `datum` is the data octet asked for, without effect where none is; where nothing is left, 0.
    pub fn send(self, datum: u8) -> Sent
        ensures { result ≡ sent self datum }
    {
        let octet = self.octet(datum);
        Sent {
            octet,
            sender: self.after(octet),
        }
    }

    // The sender after the data octet that it asks for, which most octets are.
    pub fn give(mut self, datum: u8) -> Sender
        requires { asks self ≡ Some self.at }
        ensures { sent self datum ≡ record { octet = datum; sender = result } }
    {
        self.at += 1;
        self.adding(datum, Stage::Body)
    }

    // The octet that is sent.
    fn octet(self, datum: u8) -> u8
        ensures { result ≡ octet_of self datum }
    {
        match self.stage {
            Stage::Start => start_octet(self.kind),
            // Two arms: with one for both an octet takes a twentieth more instructions (x86-64).
            Stage::Le => self.count.wrapping_add(3),
            Stage::LeAgain => self.count.wrapping_add(3),
            Stage::SdAgain => 0x68,
            Stage::Da => self.da,
            Stage::Sa => self.sa,
            Stage::Fc => self.fc,
            Stage::Body if self.at < self.count => datum,
            Stage::Body => self.sum,
            Stage::End => 0x16,
            Stage::Single => 0xE5,
            Stage::Empty => 0,
        }
    }

    // The sender after it sent `octet`.
    fn after(self, octet: u8) -> Sender
        ensures { result ≡ after_sent self octet }
    {
        match self.stage {
            Stage::Start => self.onto(after_start(self.kind)),
            Stage::Le => self.onto(Stage::LeAgain),
            Stage::LeAgain => self.onto(Stage::SdAgain),
            Stage::SdAgain => self.onto(Stage::Da),
            Stage::Da => self.adding(octet, Stage::Sa),
            Stage::Sa => self.adding(octet, stage_after_sa(self.kind)),
            Stage::Fc => self.adding(octet, Stage::Body),
            Stage::Body => self.after_in_body(octet),
            Stage::End | Stage::Single | Stage::Empty => self.onto(Stage::Empty),
        }
    }

    // A function of its own: as arms of `after` an octet takes an eighth more instructions (x86-64).
    fn after_in_body(mut self, octet: u8) -> Sender
        ensures { result ≡ after_at Stage.Body self octet }
    {
        if self.at < self.count {
            self.at += 1;
            return self.adding(octet, Stage::Body);
        }
        self.onto(Stage::End)
    }

    // On to another stage, with the octet added to the checksum. This and `give` are all that a sender and a reader have in common: a trait
    // for both would be longer.
    fn adding(self, octet: u8, stage: Stage) -> Sender
        ensures { result ≡ adding self octet stage }
    {
        Sender {
            stage,
            sum: self.sum.wrapping_add(octet),
            ..self
        }
    }

    // On to another stage. A new value: with the field of `mut self` set instead, an octet takes twice the instructions (x86-64).
    fn onto(self, stage: Stage) -> Sender
        ensures { result ≡ onto self stage }
    {
        Sender { stage, ..self }
    }

    // A sender of no telegram.
    fn without(stage: Stage) -> Sender
        ensures { result ≡ sn stage Kind.Sd1 0 0 0 0 0 0 }
    {
        Sender {
            stage,
            kind: Kind::Sd1,
            count: 0,
            at: 0,
            da: 0,
            sa: 0,
            fc: 0,
            sum: 0,
        }
    }
}

fn start_octet(kind: Kind) -> u8
    ensures { result ≡ start_octet kind }
{
    match kind {
        Kind::Sd1 => 0x10,
        Kind::Sd2 => 0x68,
        Kind::Sd3 => 0xA2,
        Kind::Sd4 => 0xDC,
    }
}

// Only SD2 has a length.
fn after_start(kind: Kind) -> Stage
    ensures { result ≡ after_start kind }
{
    match kind {
        Kind::Sd2 => Stage::Le,
        _ => Stage::Da,
    }
}

// SD4 ends with the source address. Apart from reader::after_sa: a test that both share would be longer than the two.
fn stage_after_sa(kind: Kind) -> Stage
    ensures { result ≡ stage_after_sa kind }
{
    match kind {
        Kind::Sd4 => Stage::Empty,
        _ => Stage::Fc,
    }
}
