// A film without what the player passes over (document 02, W14): tested and measured first, then written.
#![tactic(auto)]

ghost use Rattle.std.specs.Prelude.{◌≡◌, true, ◌+◌, ◌≤◌, ◌<◌, length};
ghost use Rattle.words.specs.Word.{word_at};
ghost use Rattle.parts.specs.Parts.{laid};
ghost use Rattle.state.specs.Moves.{cursor};
ghost use Rattle.chunks.specs.Chunks.{end_of};
ghost use Rattle.strip.specs.Strip.{is_kept, opcode_left, kept_of, head_with, left_of_chunk, answer_as, strip_answer, strip_room};
ghost use Rattle.strip.specs.Asked.{Opcodes, Chunk, Roomy, Stored, Passed, Wrote};

use chunks::{Ahead, look_ahead};
use heads::{Opcode, is_heard, is_passed_over};
use next::{Next, standing_at};
use opening::open;
use parts::{copy_part, keep_part, put_run};
use refusal::Refusal;
use sound::{is_chosen, is_masked};
use state::Cursor;
use words::word_at;

// Whether a player of a stream acts on an opcode.
#[tactic(auto, using(std::proofs::lemmas::Bool::Decides::nat_tests), unfolding(crate::specs::Strip::is_kept, heads::specs::Heads::hears))]
fn is_kept(stream: usize, kind: usize, body: &[u8]) -> bool
    ensures { result ≡ is_kept stream kind body.now }
{
    if is_heard(true, kind) {
        if kind == 3 {
            is_chosen(stream)
        } else {
            is_masked(stream, word_at(body, 2))
        }
    } else {
        !is_passed_over(kind)
    }
}

// An opcode whose head stands at p, where it is kept, to the room from index to on, where it is stored. The answer is its length.
fn keep_opcode(
    film: &[u8],
    stream: usize,
    p: usize,
    o: Opcode,
    storing: bool,
    room: &mut [u8],
    to: usize,
) -> usize
    requires { (p ≤ end_of o) × (end_of o ≤ length film.now) × (storing ≡ true → to + length (opcode_left film.now stream p o) ≤ length room.old) }
    ensures { Stored storing (opcode_left film.now stream p o) to room.old result room.new }
{
    let start = o.start;
    let end = o.start + o.long;
    if is_kept(stream, o.kind, &film[start..end]) {
        keep_part(storing, room, to, film, p, end);
        end - p
    } else {
        0
    }
}

// The opcodes from p to the chunk's end that are kept. A while, since a turn goes on by an opcode.
fn keep_opcodes(
    film: &[u8],
    stream: usize,
    p: usize,
    end: usize,
    storing: bool,
    room: &mut [u8],
    to: usize,
) -> usize
    requires { Opcodes storing film.now stream p end to (length room.old) }
    ensures stored { Stored storing (kept_of film.now stream (cursor p end)) to room.old result room.new }
    ensures result_bound { p + result ≤ end }
{
    let mut at = p;
    let mut kept = 0;
    while at < end {
        let here = Cursor {
            position: at,
            chunk_end: end,
        };
        match standing_at(film, here, true) {
            // An arm each: what is known in an arm for all three has no name that the proof can cite.
            Err(_) => return kept,
            Ok(Next::Ended) => return kept,
            Ok(Next::Chunk(_)) => return kept,
            Ok(Next::Opcode(o)) => {
                kept += keep_opcode(film, stream, at, o, storing, room, to + kept);
                at = o.start + o.long;
            }
        }
    }
    kept
}

// The head of a chunk with a body of n bytes, with the type of the chunk whose head stands at e.
fn put_head(room: &mut [u8], to: usize, film: &[u8], e: usize, n: usize)
    requires { (n < 65536) × (to + 4 ≤ length room.old) × (e + 4 ≤ length film.now) }
    ensures { room.new ≡ laid to (head_with film.now e n) room.old }
{
    put_run(room, to, 1, (n % 256) as u8);
    put_run(room, to + 1, 1, (n / 256) as u8);
    copy_part(room, to + 2, film, e + 2, e + 4);
}

// What is left of the chunk whose head stands at e. Its body is measured before its head is written.
fn strip_chunk(
    film: &[u8],
    stream: usize,
    e: usize,
    storing: bool,
    room: &mut [u8],
    to: usize,
) -> usize
    requires { Chunk storing film.now stream e to (length room.old) }
    ensures stored { Stored storing (left_of_chunk film.now stream e (e + 4 + word_at film.now e)) to room.old result room.new }
    ensures upper_bound { result ≤ 4 + word_at film.now e }
{
    let long = word_at(film, e);
    let end = e + 4 + long;
    let n = keep_opcodes(film, stream, e + 4, end, false, room, to + 4);
    if n == 0 {
        return 0;
    }
    if storing {
        put_head(room, to, film, e, n);
        keep_opcodes(film, stream, e + 4, end, true, room, to + 4);
    }
    4 + n
}

// What is left of all chunks, behind the header. The answer counts the header. A loop, since a turn goes on by a chunk.
fn walk(film: &[u8], stream: usize, storing: bool, room: &mut [u8]) -> Result<usize, Refusal>
    requires { Roomy storing film.now stream (length room.old) }
    ensures { Passed storing film.now stream room.old result room.new }
{
    let mut e = 26;
    let mut to = 26;
    loop {
        match look_ahead(film, e) {
            Ahead::FilmEnd => return Ok(to),
            Ahead::PastEnd => return Err(Refusal::FilmEnd),
            Ahead::ChunkTo(end, tested) => {
                let closed = tested?;
                to += strip_chunk(film, stream, e, storing, room, to);
                if closed {
                    return Ok(to);
                }
                e = end;
            }
        }
    }
}

// What is left of a film that has its header.
fn write_left(film: &[u8], stream: usize, room: &mut [u8]) -> Result<usize, Refusal>
    requires { 26 ≤ length film.now }
    ensures { Wrote film.now stream room.old result room.new }
{
    let bytes = walk(film, stream, false, room)?;
    if room.len() < bytes {
        return Err(Refusal::Room);
    }
    copy_part(room, 0, film, 0, 26);
    walk(film, stream, true, room)
}

// What is left of a film for a stream, to the room. The answer is its length.
pub fn strip(film: &[u8], stream: usize, room: &mut [u8]) -> Result<usize, Refusal>
    ensures result_value { answer_as result ≡ strip_answer film.now stream (length room.old) }
    ensures room_after { room.new ≡ strip_room film.now stream room.old }
{
    open(film, stream)?;
    write_left(film, stream, room)
}
