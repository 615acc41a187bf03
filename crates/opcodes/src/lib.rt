// What each opcode that is taken does to the state.
#![tactic(auto)]

ghost use Rattle.std.specs.Prelude.{◌≡◌, Ok};
ghost use Rattle.draw.specs.Call.{said};
ghost use Rattle.sound.specs.Sound.{heard_as};
ghost use Rattle.opcodes.specs.Opcodes.{quiet, stepped_as, is_deep, size_answer, colour_of, quiet_answer, heard_step, drawn_step};

use draw::Drawn;
use packet::{Rows, is_legal_size};
use refusal::Refusal;
use sound::Heard;
use state::State;
use words::word_at;

// What a step answers, with the state that it gives back: Taken with the stores made, Heard with the bytes of sound written, Whole and Unfinished with the stores made
// and the rows of blocks that the drawn packet touches.
#[derive(Clone, Copy)]
pub enum Stepped {
    Taken(State, usize),
    Heard(State, usize),
    Whole(State, usize, Option<Rows>),
    Unfinished(State, usize, Option<Rows>),
    Ended(State),
}

// Whether a true-colour word gives a film true colour.
#[tactic(auto, unfolding(crate::specs::Opcodes::is_deep))]
fn is_deep(colour: usize) -> bool
    ensures { result ≡ is_deep colour }
{
    colour != 0
}

// 05.
#[tactic(auto, unfolding(crate::specs::Opcodes::size_answer))]
pub fn size_step(
    st: State,
    p: usize,
    columns: usize,
    rows: usize,
    colour: usize,
) -> Result<Stepped, Refusal>
    ensures { stepped_as result ≡ quiet (size_answer st p columns rows colour) }
{
    if st.columns == 0 && is_legal_size(columns, rows) {
        Ok(Stepped::Taken(st.sized(p, columns, rows, is_deep(colour)), 0))
    } else {
        Err(Refusal::Size)
    }
}

// The true-colour word of 05, 0 where it has none.
#[tactic(auto, unfolding(crate::specs::Opcodes::colour_of))]
pub fn colour_of(body: &[u8], version: usize) -> usize
    ensures { result ≡ colour_of body.now version }
{
    if version == 2 { word_at(body, 6) } else { 0 }
}

// The opcodes that change nothing lent, by the film's length and the opcode's type, version and body, which ends at p.
#[tactic(auto, unfolding(crate::specs::Opcodes::quiet_answer))]
pub fn quiet_step(
    film: usize,
    st: State,
    kind: usize,
    version: usize,
    body: &[u8],
    p: usize,
) -> Result<Stepped, Refusal>
    ensures { stepped_as result ≡ quiet (quiet_answer film st kind version body.now p) }
{
    match kind {
        0 => Ok(Stepped::Taken(st.at_end(film), 0)),
        5 => {
            let colour = colour_of(body, version);
            size_step(st, p, word_at(body, 0), word_at(body, 2), colour)
        }
        7 => Ok(Stepped::Taken(st.sent(p), 0)),
        _ => Ok(Stepped::Taken(st.behind(p), 0)),
    }
}

// 11, after the drawing. The value is built as the caller answers it: wrapped there, it would be copied.
#[tactic(auto, unfolding(crate::specs::Opcodes::drawn_as))]
pub fn drawn_step(st: State, p: usize, d: Result<Drawn, Refusal>) -> Result<Stepped, Refusal>
    ensures { stepped_as result ≡ drawn_step st p (said d) }
{
    match d? {
        Drawn::Whole(n, t) => Ok(Stepped::Whole(st.finished(p), n, t)),
        Drawn::Unfinished(n, t) => Ok(Stepped::Unfinished(st, n, t)),
    }
}

// 03, 08, 09 where a stream is chosen.
#[tactic(auto, unfolding(crate::specs::Opcodes::heard_step))]
pub fn heard_step(st: State, p: usize, h: Result<Heard, Refusal>) -> Result<Stepped, Refusal>
    ensures { stepped_as result ≡ heard_step st p (heard_as h) }
{
    let h = h?;
    Ok(Stepped::Heard(st.heard(p, h.sound), h.bytes))
}
