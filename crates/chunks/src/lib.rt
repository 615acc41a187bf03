// The chunks of a film, tested opcode by opcode for refusals 3, 4 and 5 (document 02, W13): as a step meets them that acts on sound, whatever the stream.
#![tactic(auto)]

ghost use Rattle.std.specs.Prelude.{◌≡◌, ◌+◌, ◌≤◌, length};
ghost use Rattle.palette.specs.Update.{told};
ghost use Rattle.state.specs.Moves.{cursor};
ghost use Rattle.next.specs.Next.{next_as};
ghost use Rattle.chunks.specs.Chunks.{end_of, says_exact, is_exact, measured_opcode, test_at, condition_as, condition_of, following_as, following_at};

use heads::Opcode;
use next::{Next, standing_at};
use palette::{judge_entries, judge_groups};
use refusal::Refusal;
use state::Cursor;

// What stands at a chunk's end: the film's end; a chunk or its head that passes it; or a chunk, told by its end and by what its opcodes come to.
#[derive(Clone, Copy)]
pub enum Ahead {
    FilmEnd,
    PastEnd,
    ChunkTo(usize, Result<bool, Refusal>),
}

// Whether the judge of a palette opcode found the body's length right.
#[tactic(auto, unfolding(crate::specs::Chunks::says_exact))]
fn says_exact(judged: Result<(), Refusal>) -> bool
    ensures { result ≡ says_exact (told judged) }
{
    !matches!(judged, Err(Refusal::BodyLength))
}

// 5 of 0C and 0D.
#[tactic(auto, using(std::proofs::lemmas::Bool::Decides::nat_tests, crate::proofs::Testing::exact_of), unfolding(crate::specs::Chunks::is_exact))]
fn is_exact(kind: usize, body: &[u8]) -> bool
    ensures { result ≡ is_exact kind body.now }
{
    if kind == 12 {
        says_exact(judge_entries(body, 768))
    } else if kind == 13 {
        says_exact(judge_groups(body, 768))
    } else {
        true
    }
}

#[tactic(auto, unfolding(crate::specs::Chunks::measured_opcode))]
fn measure_opcode(film: &[u8], o: Opcode) -> Result<Next, Refusal>
    requires { end_of o ≤ length film.now }
    ensures { next_as result ≡ measured_opcode film.now o }
{
    let start = o.start;
    let end = o.start + o.long;
    if is_exact(o.kind, &film[start..end]) {
        Ok(Next::Opcode(o))
    } else {
        Err(Refusal::BodyLength)
    }
}

// What stands at a cursor, with all tests of 3, 4 and 5.
#[tactic(auto, unfolding(crate::specs::Chunks::measured))]
pub fn test_opcode(film: &[u8], c: Cursor) -> Result<Next, Refusal>
    requires { (c.position ≤ c.chunk_end) × (c.chunk_end ≤ length film.now) }
    ensures { next_as result ≡ test_at film.now c }
{
    match standing_at(film, c, true)? {
        Next::Opcode(o) => measure_opcode(film, o),
        found => Ok(found),
    }
}

// What the opcodes from p to the chunk's end come to: whether 00 is among them, or the refusal first met. Where there is one more, neither the film's end nor a chunk's head stands there.
// A while, since a turn goes on by an opcode.
pub fn test_chunk(film: &[u8], p: usize, end: usize) -> Result<bool, Refusal>
    requires { (p ≤ end) × (end ≤ length film.now) }
    ensures { condition_as result ≡ condition_of film.now (cursor p end) }
{
    let mut at = p;
    while at < end {
        let here = Cursor {
            position: at,
            chunk_end: end,
        };
        match test_opcode(film, here)? {
            Next::Ended | Next::Chunk(_) => return Ok(false),
            Next::Opcode(o) => {
                if o.kind == 0 {
                    return Ok(true);
                }
                at = o.start + o.long;
            }
        }
    }
    Ok(false)
}

// What stands at a chunk's end e. No opcode does.
#[tactic(auto, unfolding(crate::specs::Chunks::following))]
pub fn look_ahead(film: &[u8], e: usize) -> Ahead
    requires { e ≤ length film.now }
    ensures { following_as result ≡ following_at film.now e }
{
    let here = Cursor {
        position: e,
        chunk_end: e,
    };
    match standing_at(film, here, true) {
        Ok(Next::Ended) => Ahead::FilmEnd,
        Ok(Next::Chunk(c)) => {
            let end = c.chunk_end;
            Ahead::ChunkTo(end, test_chunk(film, c.position, end))
        }
        Err(_) | Ok(Next::Opcode(_)) => Ahead::PastEnd,
    }
}
