// Opening a film: its header gives the first state.
#![tactic(auto)]

ghost use Rattle.std.specs.Prelude.{◌≡◌, ◌≤◌, length};
ghost use Rattle.opening.specs.Opening.{begins, opened_as, opening_of};

use refusal::Refusal;
use sound::Sound;
use state::{Cursor, State};

// `Interplay MVE File`, 1A, 00, then the words 001A, 0100, 1133.
const HEADER: &[u8] = b"Interplay MVE File\x1a\0\x1a\0\0\x01\x33\x11";

// Whether a film begins with the header.
fn has_header(film: &[u8]) -> bool
    requires { 26 ≤ length film.now }
    ensures { result ≡ begins film.now 26 }
{
    film.starts_with(HEADER)
}

// The first state of a film, or refusal 1. The stream is that whose sound is acted on; above 15 it is passed over.
pub fn open(film: &[u8], stream: usize) -> Result<State, Refusal>
    ensures { opened_as result ≡ opening_of film.now stream }
{
    if film.len() < 26 || !has_header(film) {
        return Err(Refusal::Header);
    }
    Ok(State {
        cursor: Cursor {
            position: 26,
            chunk_end: 26,
        },
        columns: 0,
        rows: 0,
        deep: false,
        front: 0,
        map: None,
        unsent: false,
        sound: Sound::new(stream),
    })
}
