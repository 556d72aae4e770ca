// A bool as C sees it: 0 for false, 1 for true; read back, any number but 0 is true. The two functions stand for the C interface, which has one rule for
// every flag of its structs.
#![tactic(auto)]

ghost use Rattle.std.specs.Prelude.{◌≡◌};
ghost use Rattle.c_flag.specs.Flag.{flag, is_set};

pub fn number_of(b: bool) -> u8
    ensures { result ≡ flag b }
{
    u8::from(b)
}

pub fn is_set(number: u8) -> bool
    ensures { result ≡ is_set number }
{
    number != 0
}
