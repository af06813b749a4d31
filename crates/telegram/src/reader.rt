// A reader takes the octets of the line one after the other and tells whether a telegram is complete.
#![tactic(auto, unfolding(crate::specs::Reading::step_at, crate::specs::Reading::reader_step, crate::specs::Reading::status, crate::specs::Reading::takes_data, crate::specs::Reading::datum_of))]

ghost use Rattle.std.specs.Prelude.{◌≡◌, true};
ghost use Rattle.telegram.specs.Reading.{start, off, before, summed, after_sa, after_fc, step_at, reader_step, reader_after, status, takes_data, datum_of};

use crate::Kind;

// What the next octet is.
#[derive(Clone, Copy, PartialEq, Eq, Debug)]
pub enum Phase {
    Start,
    Le,
    LeAgain,
    SdAgain,
    Da,
    Sa,
    Fc,
    Dsap,
    Ssap,
    // a data octet while some are left, then the check octet
    Body,
    End,
    // the telegram is complete
    Done,
    // broken off: ignored until a gap
    Off,
}

// What a reader tells of the octets since the last gap.
#[derive(Clone, Copy, PartialEq, Eq, Debug)]
pub enum Status {
    // none came
    Fresh,
    // a telegram is begun and unfinished
    Inside,
    Complete,
    Broken,
}

#[derive(Clone, Copy)]
pub struct Reader {
    pub phase: Phase,
    pub kind: Kind,
    // how many data octets the telegram has; from DA on without DSAP and SSAP
    pub count: u8,
    // how many of them are read
    pub at: u8,
    pub da: u8,
    pub sa: u8,
    pub fc: u8,
    pub dsap: u8,
    pub ssap: u8,
    // the running checksum
    pub sum: u8,
}

impl Reader {
    // The greatest LE of a telegram.
    pub const LAST_LE: u8 = 249;

    // After a gap: the next octet may begin a telegram.
    pub fn start() -> Reader
        ensures { result ≡ start }
    {
        Reader::begun(Phase::Start, Kind::Sd1, 0)
    }

    // Broken off: octets are ignored. Apart from start: two names for two states of the line.
    pub fn off() -> Reader
        ensures { result ≡ off }
    {
        Reader::begun(Phase::Off, Kind::Sd1, 0)
    }

    // The reader after one octet more; one flagged bad by the receiver breaks off.
    pub fn receive(self, octet: u8, bad: bool) -> Reader
        ensures { result ≡ reader_after self octet bad }
    {
        if bad { Reader::off() } else { self.step(octet) }
    }

    // What the octets since the last gap are, by the phase.
    pub fn status(self) -> Status
        ensures { result ≡ status self }
    {
        match self.phase {
            Phase::Start => Status::Fresh,
            Phase::Done => Status::Complete,
            Phase::Off => Status::Broken,
            _ => Status::Inside,
        }
    }

    // Which data octet the next octet is, from 0, DSAP and SSAP left out; none if it is no data octet.
    pub fn datum(self) -> Option<u8>
        ensures { result ≡ datum_of self }
    {
        self.takes_data().then_some(self.at)
    }

    // Whether the next octet is a data octet.
    pub fn takes_data(self) -> bool
        ensures { result ≡ takes_data self }
    {
        matches!(self.phase, Phase::Body) & (self.at < self.count)
    }

    // The step at a data octet, which most octets are.
    pub fn take_data(mut self, b: u8) -> Reader
        requires { takes_data self ≡ true }
        ensures { result ≡ reader_step self b }
    {
        self.at += 1;
        self.summed(b, Phase::Body)
    }

    // The reader after an octet that was well received.
    pub fn step(self, b: u8) -> Reader
        ensures { result ≡ reader_step self b }
    {
        match self.phase {
            Phase::Start => self.on_start(b),
            Phase::Le => self.on_le(b),
            Phase::LeAgain => self.on_le_again(b),
            Phase::SdAgain => self.on_sd_again(b),
            Phase::Da => self.on_da(b),
            Phase::Sa => self.on_sa(b),
            Phase::Fc => self.on_fc(b),
            Phase::Dsap => self.on_dsap(b),
            Phase::Ssap => self.on_ssap(b),
            Phase::Body => self.on_body(b),
            Phase::End => self.on_end(b),
            Phase::Done | Phase::Off => Reader::off(),
        }
    }

    // A reader before DA.
    fn begun(phase: Phase, kind: Kind, count: u8) -> Reader
        ensures { result ≡ before phase kind count }
    {
        Reader {
            phase,
            kind,
            count,
            at: 0,
            da: 0,
            sa: 0,
            fc: 0,
            dsap: 0,
            ssap: 0,
            sum: 0,
        }
    }

    fn on_start(self, b: u8) -> Reader
        ensures { result ≡ step_at Phase.Start self b }
    {
        match b {
            0x10 => Reader::begun(Phase::Da, Kind::Sd1, 0),
            0xA2 => Reader::begun(Phase::Da, Kind::Sd3, 8),
            0xDC => Reader::begun(Phase::Da, Kind::Sd4, 0),
            0x68 => Reader::begun(Phase::Le, Kind::Sd2, 0),
            _ => Reader::off(),
        }
    }

    // LE counts DA, SA and FC too: 4 to 249 for 1 to 246 data octets.
    fn on_le(self, b: u8) -> Reader
        ensures { result ≡ step_at Phase.Le self b }
    {
        match b {
            4..=Self::LAST_LE => Reader::begun(Phase::LeAgain, Kind::Sd2, b - 3),
            _ => Reader::off(),
        }
    }

    fn on_le_again(self, b: u8) -> Reader
        ensures { result ≡ step_at Phase.LeAgain self b }
    {
        if b.checked_sub(3) == Some(self.count) {
            return Reader::begun(Phase::SdAgain, Kind::Sd2, self.count);
        }
        Reader::off()
    }

    fn on_sd_again(self, b: u8) -> Reader
        ensures { result ≡ step_at Phase.SdAgain self b }
    {
        if b == 0x68 {
            return Reader::begun(Phase::Da, Kind::Sd2, self.count);
        }
        Reader::off()
    }

    // An extension needs two data octets, which are then not counted.
    fn on_da(mut self, b: u8) -> Reader
        ensures { result ≡ step_at Phase.Da self b }
    {
        if 128 <= b {
            if self.count < 2 {
                return Reader::off();
            }
            self.count -= 2;
        }
        self.da = b;
        self.summed(b, Phase::Sa)
    }

    // Bit 7 in both addresses or in neither.
    fn on_sa(mut self, b: u8) -> Reader
        ensures { result ≡ step_at Phase.Sa self b }
    {
        if (self.da < 128) != (b < 128) {
            return Reader::off();
        }
        self.sa = b;
        self.summed(b, after_sa(self.kind))
    }

    fn on_fc(mut self, b: u8) -> Reader
        ensures { result ≡ step_at Phase.Fc self b }
    {
        self.fc = b;
        self.summed(b, after_fc(self.da))
    }

    // Apart from on_ssap: a field is no parameter.
    fn on_dsap(mut self, b: u8) -> Reader
        ensures { result ≡ step_at Phase.Dsap self b }
    {
        self.dsap = b;
        self.summed(b, Phase::Ssap)
    }

    fn on_ssap(mut self, b: u8) -> Reader
        ensures { result ≡ step_at Phase.Ssap self b }
    {
        self.ssap = b;
        self.summed(b, Phase::Body)
    }

    fn on_body(mut self, b: u8) -> Reader
        ensures { result ≡ step_at Phase.Body self b }
    {
        if self.at < self.count {
            self.at += 1;
            return self.summed(b, Phase::Body);
        }
        if b == self.sum {
            return Reader {
                phase: Phase::End,
                ..self
            };
        }
        Reader::off()
    }

    fn on_end(self, b: u8) -> Reader
        ensures { result ≡ step_at Phase.End self b }
    {
        if b == 0x16 {
            return Reader {
                phase: Phase::Done,
                ..self
            };
        }
        Reader::off()
    }

    // On to another phase, with the octet added to the checksum.
    // A new value: with fields of `mut self` set instead, an octet of the header takes nearly twice the instructions (x86-64).
    fn summed(self, b: u8, phase: Phase) -> Reader
        ensures { result ≡ summed self b phase }
    {
        Reader {
            phase,
            sum: self.sum.wrapping_add(b),
            ..self
        }
    }
}

// SD4 ends with the source address.
fn after_sa(k: Kind) -> Phase
    ensures { result ≡ after_sa k }
{
    match k {
        Kind::Sd4 => Phase::Done,
        _ => Phase::Fc,
    }
}

// Bit 7 of DA tells that DSAP and SSAP follow.
fn after_fc(da: u8) -> Phase
    ensures { result ≡ after_fc da }
{
    if da < 128 { Phase::Body } else { Phase::Dsap }
}
