// What an encoding comes to, as numbers, for hosts in other languages.
#![tactic(auto)]

ghost use Rattle.std.specs.Prelude.{◌≡◌};
ghost use Rattle.encode.specs.Encode.{answer_as};
ghost use Rattle.mve_encodes.specs.Encodes.{of_answer};

use encode::Encoded;
use refusal::Refusal;
use words::wide;

// number: 0, or the refusal's number, and then both lengths are 0.
#[repr(C)]
#[derive(Clone, Copy)]
pub struct MveEncoded {
    pub number: usize,
    pub map_length: usize,
    pub body_length: usize,
}

#[tactic(auto, unfolding(crate::specs::Encodes::of_answer))]
pub fn of_encoded(e: Result<Encoded, Refusal>) -> MveEncoded
    ensures { result ≡ of_answer (answer_as e) }
{
    match e {
        Ok(made) => MveEncoded {
            number: 0,
            map_length: made.map,
            body_length: made.body,
        },
        Err(r) => MveEncoded {
            number: wide(r.number()),
            map_length: 0,
            body_length: 0,
        },
    }
}
