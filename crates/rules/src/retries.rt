// Retries: which telegrams are requests, which of them repeat the request before, and what a repeat does.
ghost use Rattle.std.specs.Prelude.{◌≡◌};
ghost use Rattle.rules.specs.Retries.{asks, repeats, chain_by, drew, chained, repeated};

use crate::bits::bit;
use crate::outcome::Outcome;
use crate::phases::drawing;
use crate::replies::{is_exchange, replies_e5};
use crate::request::Request;
use crate::requests::{acts, master_of, refilled, wants_none};
use state::chain::Chain;
use state::control::Control;
use state::setup::Setup;
use state::state::Drawn;

// It asks for something: functions 4 and 6 do not.
pub fn asks(r: Request) -> bool
    ensures { result ≡ asks r }
{
    !wants_none(r)
}

// A request with bit 4 set, the master and the frame count bit of the last one.
pub fn repeats(chain: Chain, r: Request) -> bool
    ensures { result ≡ repeats chain r }
{
    if bit(r.fc, 5) != chain.fcb() {
        return false;
    }
    if master_of(r) != chain.master {
        return false;
    }
    asks(r) & bit(r.fc, 4)
}

// What a later request is compared with after one that is no repeat: itself, or nothing where bit 4 is clear.
pub fn chain_by(r: Request, drawn: Drawn) -> Chain
    ensures { result ≡ chain_by r drawn }
{
    if bit(r.fc, 4) {
        return Chain::new(master_of(r), bit(r.fc, 5), drawn);
    }
    Chain::none()
}

// What a request drew, as its repeat draws it again: E5 where a Data_Exchange is replied to by that.
fn drew(setup: Setup, o: Outcome) -> Drawn
    ensures { result ≡ drew setup o }
{
    if is_exchange(o.drawn) & replies_e5(setup, o.control) {
        return Drawn::Acknowledge;
    }
    o.drawn
}

// An outcome with the chain after it: what is no request leaves the chain as it is.
pub fn chained(setup: Setup, r: Request, mut o: Outcome) -> Outcome
    ensures { result ≡ chained setup r o }
{
    if acts(setup, r) & asks(r) {
        o.control.chain = chain_by(r, drew(setup, o));
    }
    o
}

// A repeat changes nothing but the owner's watchdog, and draws what the earlier request drew.
pub fn repeated(setup: Setup, control: Control, r: Request) -> Outcome
    ensures { result ≡ repeated setup control r }
{
    drawing(refilled(setup, control, r), control.chain.drawn())
}
