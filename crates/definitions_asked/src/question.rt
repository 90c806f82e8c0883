// A question by its test, and questions in their order.
ghost use Rattle.std.specs.Prelude.{◌≡◌};
ghost use Rattle.picture.specs.Asked.{and_then};
ghost use Rattle.definitions.specs.Asked.{«question»};

use picture::answer::{Input, Refusal, refuse};

pub fn question(number: u8, input: Input, passes: bool) -> Result<(), Refusal>
    ensures { result ≡ «question» number input passes }
{
    if passes {
        return Ok(());
    }
    Err(refuse(number, input))
}

pub fn and_then(before: Result<(), Refusal>, next: Result<(), Refusal>) -> Result<(), Refusal>
    ensures { result ≡ and_then before next }
{
    before?;
    next
}
