// The bits of an octet.
ghost use Rattle.std.specs.Prelude.{◌<◌, ◌≡◌};
ghost use Rattle.rules.specs.Control.{bit};

// Whether bit n of an octet is set.
pub fn bit(octet: u8, n: u8) -> bool
    requires { n < 8 }
    ensures { result ≡ bit octet n }
{
    (octet >> n) % 2 == 1
}
