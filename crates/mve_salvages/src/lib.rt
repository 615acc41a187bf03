// What is left of a scratched film, as numbers, for hosts in other languages.
#![tactic(auto)]

ghost use Rattle.std.specs.Prelude.{◌≡◌};
ghost use Rattle.refusal.specs.Number.{number, block};
ghost use Rattle.salvage.specs.Salvage.{not_salvaged, stop_as, answer_as};
ghost use Rattle.mve_salvages.specs.Salvages.{stop_number, of_walked, of_salvage};

use refusal::Refusal;
use salvage::{Salvaged, Stopped, Walked};
use words::wide;

// number: 0, or the refusal's number, and then all else is 0. stop: 0 at the film's end, 1 behind a kept chunk with 00, 2 at refusal 2. header, kept, lost and rest are bytes
// of the film and add up to its length.
#[repr(C)]
#[derive(Clone, Copy)]
pub struct MveSalvaged {
    pub number: usize,
    pub bytes: usize,
    pub left_out: usize,
    pub stop: usize,
    pub header: usize,
    pub kept: usize,
    pub lost: usize,
    pub rest: usize,
}

#[tactic(auto, unfolding(crate::specs::Salvages::stop_number))]
fn stop_number(s: Stopped) -> usize
    ensures { result ≡ stop_number (stop_as s) }
{
    match s {
        Stopped::AtEnd => 0,
        Stopped::Behind00 => 1,
        Stopped::By2 => 2,
    }
}

fn of_walked(bytes: usize, w: Walked) -> MveSalvaged
    ensures { result ≡ of_walked bytes w }
{
    MveSalvaged {
        number: 0,
        bytes,
        left_out: w.left_out,
        stop: stop_number(w.stop),
        header: 26,
        kept: w.kept,
        lost: w.lost,
        rest: w.rest,
    }
}

#[tactic(auto, unfolding(crate::specs::Salvages::of_salvage))]
fn of_refusal(r: Refusal) -> MveSalvaged
    ensures { result ≡ of_salvage (not_salvaged (number r) (block r)) }
{
    MveSalvaged {
        number: wide(r.number()),
        bytes: 0,
        left_out: 0,
        stop: 0,
        header: 0,
        kept: 0,
        lost: 0,
        rest: 0,
    }
}

#[tactic(auto, unfolding(crate::specs::Salvages::of_salvage))]
pub fn of_salvaged(s: Result<Salvaged, Refusal>) -> MveSalvaged
    ensures { result ≡ of_salvage (answer_as s) }
{
    match s {
        Ok(saved) => of_walked(saved.bytes, saved.walked),
        Err(r) => of_refusal(r),
    }
}
