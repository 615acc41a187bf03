// What is left of a film without what the player passes over, as numbers, for hosts in other languages.
#![tactic(auto)]

ghost use Rattle.std.specs.Prelude.{◌≡◌};
ghost use Rattle.strip.specs.Strip.{answer_as};
ghost use Rattle.mve_strips.specs.Strips.{of_strip};

use refusal::Refusal;
use words::wide;

// number: 0, or the refusal's number, and then length is 0. length: the bytes written.
#[repr(C)]
#[derive(Clone, Copy)]
pub struct MveStripped {
    pub number: usize,
    pub length: usize,
}

#[tactic(auto, unfolding(crate::specs::Strips::of_strip))]
pub fn of_stripped(s: Result<usize, Refusal>) -> MveStripped
    ensures { result ≡ of_strip (answer_as s) }
{
    match s {
        Ok(length) => MveStripped { number: 0, length },
        Err(r) => MveStripped {
            number: wide(r.number()),
            length: 0,
        },
    }
}
