// An answer as one number.
ghost use Rattle.std.specs.Prelude.{◌≡◌};
ghost use Rattle.tables.specs.Answer.{answer_of, host_number, Small};

use tables::{Answer, number_of};

pub fn number(answer: Answer) -> u32
    requires { Small (answer_of answer) }
    ensures { result ≡ host_number (answer_of answer) }
{
    match answer {
        Ok(()) => 0,
        Err(refusal) => refusal.row * 65536 + refusal.node * 256 + number_of(refusal.fault),
    }
}
