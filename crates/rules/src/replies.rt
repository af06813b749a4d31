// What the rules say of a reply beside its octets.
ghost use Rattle.std.specs.Prelude.{◌≡◌};
ghost use Rattle.rules.specs.Replies.{exchange_fc, replies_e5, is_exchange, diagnoses};

use state::control::Control;
use state::setup::Setup;
use state::state::Drawn;

// FC 08, or 0A while Diag_Flag.
pub fn exchange_fc(control: Control) -> u8
    ensures { result ≡ exchange_fc control }
{
    if control.flags.diag_flag {
        return 0x0A;
    }
    0x08
}

// A Data_Exchange is replied to by E5: there are no inputs, and no Diag_Flag to tell of.
pub fn replies_e5(setup: Setup, control: Control) -> bool
    ensures { result ≡ replies_e5 setup control }
{
    (setup.input_len == 0) & !control.flags.diag_flag
}

// The reply to Data_Exchange.
pub fn is_exchange(drawn: Drawn) -> bool
    ensures { result ≡ is_exchange drawn }
{
    matches!(drawn, Drawn::Exchange)
}

// The reply to Slave_Diag.
pub fn is_diagnosis(drawn: Drawn) -> bool
    ensures { result ≡ diagnoses drawn }
{
    matches!(drawn, Drawn::Diagnosis)
}
