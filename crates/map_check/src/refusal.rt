// 16 to 23 name the evidence.
ghost use Rattle.std.specs.Prelude.{◌≡◌};
ghost use Rattle.evidence.specs.Map.{refusal_by};

use picture::answer::{Input, Refusal, refuse};

pub fn refusal_by(number: u8) -> Refusal
    ensures { result ≡ refusal_by number }
{
    refuse(number, Input::Evidence)
}
