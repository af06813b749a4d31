// The line as the state has it: what is busy, and what waits for its end.
ghost use Rattle.std.specs.Prelude.{◌&&◌, ◌||◌, ◌≡◌};
ghost use Rattle.telegram.specs.Sending.{left};
ghost use Rattle.state.specs.Unpack.{unpacked};
ghost use Rattle.rules.specs.Diagnosis.{delayed};
ghost use Rattle.rules.specs.Replies.{diagnoses};
ghost use Rattle.steps.specs.Line.{is_inside, begun, busy, diagnosis_leaves};

use rules::diagnosis::is_delayed;
use rules::replies::is_diagnosis;
use state::load::Image;
use state::state::{Reply, State};
use telegram::reader::Status;

// A telegram is begun and unfinished, by what the octets tell.
pub fn is_inside(status: Status) -> bool
    ensures { result ≡ is_inside status }
{
    matches!(status, Status::Inside)
}

// A telegram is begun and unfinished.
pub fn begun(s: State) -> bool
    ensures { result ≡ begun s }
{
    is_inside(s.incoming.reader.status())
}

// A busy line: a telegram is begun or a reply is unfinished.
pub fn busy(s: State) -> bool
    ensures { result ≡ busy s }
{
    begun(s) | s.reply.sender.left()
}

// The same over the memory: by a function on both parts, which busy could share, a send takes 4 instructions more while a clear waits.
pub fn busy_in(image: Image) -> bool
    ensures { result ≡ busy (unpacked image.entry.octets.now) }
{
    is_inside(image.incoming().reader.status()) | image.reply().sender.left()
}

// A Slave_Diag reply is unfinished.
fn sends_diagnosis(reply: Reply) -> bool
    ensures { result ≡ diagnoses reply.drawn && left reply.sender }
{
    is_diagnosis(reply.drawn) & reply.sender.left()
}

// The same, over the state.
pub fn diagnosis_leaves(s: State) -> bool
    ensures { result ≡ diagnosis_leaves s }
{
    sends_diagnosis(s.reply)
}

// The same, over the memory.
pub fn diagnosis_leaves_in(image: Image) -> bool
    ensures { result ≡ diagnosis_leaves (unpacked image.entry.octets.now) }
{
    sends_diagnosis(image.reply())
}

// Whether a diagnosis is delayed or a clear noted.
pub fn waits(image: Image) -> bool
    ensures { result ≡ delayed (unpacked image.entry.octets.now).control || (unpacked image.entry.octets.now).control.noted }
{
    is_delayed(image.diagnosis()) | image.noted()
}
