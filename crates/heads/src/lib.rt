// The heads of chunks and opcodes, each read by a function of its own, and the opcodes that are taken.
#![tactic(auto)]

ghost use Rattle.std.specs.Prelude.{◌≡◌, ◌≤◌, ◌<◌, ◌^◌, length, cond};
ghost use Rattle.refusal.specs.Number.{accept, refuse};
ghost use Rattle.packet.specs.Verdict.{told};
ghost use Rattle.heads.specs.Heads.{chunk_as, opcode_as, chunk_of, chunk_at, opcode_of, opcode_at, exactly, by_version, at_least, passed_over, shape_verdict, is_sound, hears, sound_verdict, taken_verdict};

use refusal::Refusal;
use state::Cursor;
use words::{byte_at, wide, word_at};

// An opcode: its type and version, and the part of the film that is its body. The type is the film's byte and no enum: the tests answer for each of the 256, and the rules name
// them by number.
#[derive(Clone, Copy)]
pub struct Opcode {
    pub kind: usize,
    pub version: usize,
    pub start: usize,
    pub long: usize,
}

#[tactic(auto, unfolding(crate::specs::Heads::chunk_of))]
fn chunk_of(film: usize, c: Cursor, long: usize) -> Result<Cursor, Refusal>
    requires { (c.chunk_end < 2 ^ 63) × (long < 65536) }
    ensures { chunk_as result ≡ chunk_of film c long }
{
    if film < c.chunk_end + 4 + long {
        Err(Refusal::FilmEnd)
    } else {
        Ok(c.into_chunk(long))
    }
}

// The chunk whose head stands at the cursor's chunk end: its body from the cursor's position to its chunk end.
#[tactic(auto, unfolding(crate::specs::Heads::chunk_at))]
pub fn chunk_head(film: &[u8], c: Cursor) -> Result<Cursor, Refusal>
    requires { c.chunk_end ≤ length film.now }
    ensures { chunk_as result ≡ chunk_at film.now c }
{
    let long = word_at(film, c.chunk_end);
    chunk_of(film.len(), c, long)
}

#[tactic(auto, unfolding(crate::specs::Heads::opcode_of))]
fn opcode_of(
    p: usize,
    e: usize,
    long: usize,
    kind: usize,
    version: usize,
) -> Result<Opcode, Refusal>
    requires { (p < 2 ^ 63) × (long < 65536) }
    ensures { opcode_as result ≡ opcode_of p e long kind version }
{
    let start = p + 4;
    if e < start + long {
        return Err(Refusal::ChunkEnd);
    }
    if 1 < kind || start + long == e {
        Ok(Opcode {
            kind,
            version,
            start,
            long,
        })
    } else {
        Err(Refusal::ChunkEnd)
    }
}

// The opcode whose head stands at the cursor's position.
#[tactic(auto, unfolding(crate::specs::Heads::opcode_at))]
pub fn opcode_head(film: &[u8], c: Cursor) -> Result<Opcode, Refusal>
    requires { c.position ≤ length film.now }
    ensures { opcode_as result ≡ opcode_at film.now c }
{
    let p = c.position;
    let long = word_at(film, p);
    let kind = wide(byte_at(film, p + 2));
    let version = wide(byte_at(film, p + 3));
    opcode_of(p, c.chunk_end, long, kind, version)
}

#[tactic(auto, unfolding(crate::specs::Heads::exactly))]
fn judge_exactly(most: usize, long: usize, version: usize, n: usize) -> Result<(), Refusal>
    ensures { told result ≡ exactly most long version n }
{
    if most < version {
        Err(Refusal::Opcode)
    } else if n == long {
        Ok(())
    } else {
        Err(Refusal::BodyLength)
    }
}

#[tactic(auto, unfolding(crate::specs::Heads::by_version))]
fn judge_by_version(most: usize, long: usize, version: usize, n: usize) -> Result<(), Refusal>
    requires { (most < 256) × (long < 256) }
    ensures { told result ≡ by_version most long version n }
{
    if most < version {
        Err(Refusal::Opcode)
    } else if n == long + 2 * version {
        Ok(())
    } else {
        Err(Refusal::BodyLength)
    }
}

#[tactic(auto, unfolding(crate::specs::Heads::at_least))]
fn judge_at_least(long: usize, version: usize, n: usize) -> Result<(), Refusal>
    ensures { told result ≡ at_least long version n }
{
    if 0 < version {
        Err(Refusal::Opcode)
    } else if n < long {
        Err(Refusal::BodyLength)
    } else {
        Ok(())
    }
}

// Whether an opcode of this type is passed over unread.
#[tactic(auto, unfolding(crate::specs::Heads::passed_over))]
pub fn is_passed_over(kind: usize) -> bool
    ensures { result ≡ passed_over kind }
{
    matches!(kind, 2..=4 | 8..=10 | 18..=21)
}

// Whether an opcode of this type and version with a body of n bytes is taken where sound is passed over.
#[tactic(auto, unfolding(crate::specs::Heads::shape_verdict))]
fn judge_shape(kind: usize, version: usize, n: usize) -> Result<(), Refusal>
    ensures { told result ≡ shape_verdict kind version n }
{
    match kind {
        0 | 1 => judge_exactly(0, 0, version, n),
        5 => judge_by_version(2, 4, version, n),
        7 => judge_by_version(1, 4, version, n),
        11 => judge_exactly(0, 6, version, n),
        12 | 13 | 15 => judge_at_least(0, version, n),
        17 => judge_at_least(14, version, n),
        _ => judge_other(kind),
    }
}

fn judge_other(kind: usize) -> Result<(), Refusal>
    ensures { told result ≡ cond (passed_over kind) accept (refuse 4 0) }
{
    if is_passed_over(kind) {
        Ok(())
    } else {
        Err(Refusal::Opcode)
    }
}

#[tactic(auto, unfolding(crate::specs::Heads::is_sound))]
fn is_sound(kind: usize) -> bool
    ensures { result ≡ is_sound kind }
{
    matches!(kind, 3 | 8 | 9)
}

// Whether an opcode of this type is sound that is acted on, by whether a stream is chosen.
#[tactic(auto, unfolding(crate::specs::Heads::hears))]
pub fn is_heard(chosen: bool, kind: usize) -> bool
    ensures { result ≡ hears chosen kind }
{
    chosen && is_sound(kind)
}

#[tactic(auto, unfolding(crate::specs::Heads::sound_verdict))]
fn judge_sound(kind: usize, version: usize, n: usize) -> Result<(), Refusal>
    ensures { told result ≡ sound_verdict kind version n }
{
    match kind {
        3 => judge_by_version(1, 8, version, n),
        8 => judge_at_least(6, version, n),
        _ => judge_exactly(0, 6, version, n),
    }
}

// Whether an opcode of this type and version with a body of n bytes is taken, by whether a stream is chosen.
#[tactic(auto, unfolding(crate::specs::Heads::taken_verdict))]
pub fn judge_opcode(chosen: bool, kind: usize, version: usize, n: usize) -> Result<(), Refusal>
    ensures { told result ≡ taken_verdict chosen kind version n }
{
    if is_heard(chosen, kind) {
        judge_sound(kind, version, n)
    } else {
        judge_shape(kind, version, n)
    }
}
