// What is left of a scratched film (document 02, W13): chunks whose opcodes are not refused 3, 4 or 5 are kept, the others are listed. Measured first, then written.
#![tactic(auto)]

ghost use Rattle.std.specs.Prelude.{◌≡◌, true, cond, ◌+◌, ◌-◌, ◌*◌, ◌≤◌, length, set};
ghost use Rattle.parts.specs.Parts.{laid};
ghost use Rattle.salvage.specs.Salvage.{closing, stop_as, answer_as, answer_of, bytes_after, numbers_after};
ghost use Rattle.salvage.specs.Asked.{stopped, Roomy, Passed, Wrote};

use chunks::{Ahead, look_ahead};
use opening::open;
use parts::{copy_part, keep_part, put_number, put_run};
use refusal::Refusal;
use words::wide;

// How the walk over chunks stops: at the film's end, behind a kept chunk with 00, or at refusal 2.
#[derive(Clone, Copy, PartialEq, Eq, Debug)]
pub enum Stopped {
    AtEnd,
    Behind00,
    By2,
}

// kept, lost: the bytes of the chunks kept and left out, with their heads. left_out: how many are left out. rest: the bytes that are not walked.
#[derive(Clone, Copy)]
pub struct Walked {
    pub stop: Stopped,
    pub kept: usize,
    pub lost: usize,
    pub left_out: usize,
    pub rest: usize,
}

// bytes: the length of the new film.
#[derive(Clone, Copy)]
pub struct Salvaged {
    pub bytes: usize,
    pub walked: Walked,
}

impl Walked {
    // With all that was walked counted: how the walk stopped, and what it left.
    fn stopped(self, stop: Stopped, rest: usize) -> Walked
        ensures { result ≡ stopped self stop rest }
    {
        Walked { stop, rest, ..self }
    }
}

impl Stopped {
    // The bytes of the end chunk, where there is one.
    #[tactic(auto, unfolding(crate::specs::Salvage::closing))]
    fn closing(self) -> usize
        ensures { result ≡ length (closing (stop_as self)) }
    {
        match self {
            Stopped::Behind00 => 0,
            Stopped::AtEnd | Stopped::By2 => 8,
        }
    }
}

// Three numbers to the list, where they are stored.
fn leave_out(storing: bool, list: &mut [usize], at: usize, a: usize, b: usize, c: usize)
    requires { storing ≡ true → at + 3 ≤ length list.old }
    ensures { list.new ≡ cond storing (set (set (set list.old at a) (at + 1) b) (at + 2) c) list.old }
{
    if storing {
        put_number(list, at, a);
        put_number(list, at + 1, b);
        put_number(list, at + 2, c);
    }
}

// The walk over chunks, which stores behind the header, or only measures. A loop, since a turn goes on by a chunk.
fn walk(film: &[u8], storing: bool, room: &mut [u8], list: &mut [usize]) -> Walked
    requires { Roomy storing film.now (length room.old) (length list.old) }
    ensures { Passed storing film.now room.old list.old result room.new list.new }
{
    let mut e = 26;
    let mut w = Walked {
        stop: Stopped::AtEnd,
        kept: 0,
        lost: 0,
        left_out: 0,
        rest: 0,
    };
    loop {
        match look_ahead(film, e) {
            Ahead::FilmEnd => return w.stopped(Stopped::AtEnd, film.len() - e),
            Ahead::PastEnd => return w.stopped(Stopped::By2, film.len() - e),
            Ahead::ChunkTo(end, Err(r)) => {
                let number = wide(r.number());
                leave_out(storing, list, 3 * w.left_out, e, end - (e + 4), number);
                w.left_out += 1;
                w.lost += end - e;
                e = end;
            }
            Ahead::ChunkTo(end, Ok(closed)) => {
                keep_part(storing, room, 26 + w.kept, film, e, end);
                w.kept += end - e;
                if closed {
                    return w.stopped(Stopped::Behind00, film.len() - end);
                }
                e = end;
            }
        }
    }
}

// The end chunk, 04 00 05 00 00 00 00 00, from index at on, where there is one.
fn put_closing(room: &mut [u8], at: usize, stop: Stopped)
    requires { at + length (closing (stop_as stop)) ≤ length room.old }
    ensures { room.new ≡ laid at (closing (stop_as stop)) room.old }
{
    if stop.closing() == 8 {
        put_run(room, at, 1, 4);
        put_run(room, at + 1, 1, 0);
        put_run(room, at + 2, 1, 5);
        put_run(room, at + 3, 5, 0);
    }
}

// What is left of a film that has its header.
fn save(film: &[u8], room: &mut [u8], list: &mut [usize]) -> Result<Salvaged, Refusal>
    requires { 26 ≤ length film.now }
    ensures { Wrote film.now room.old list.old result room.new list.new }
{
    let walked = walk(film, false, room, list);
    let at = 26 + walked.kept;
    let bytes = at + walked.stop.closing();
    if room.len() < bytes || list.len() < 3 * walked.left_out {
        return Err(Refusal::Room);
    }
    copy_part(room, 0, film, 0, 26);
    walk(film, true, room, list);
    put_closing(room, at, walked.stop);
    Ok(Salvaged { bytes, walked })
}

// The new film to the room and three numbers for every chunk left out to the list: the position of its head, its length word, and the refusal first met in it.
pub fn salvage(film: &[u8], room: &mut [u8], list: &mut [usize]) -> Result<Salvaged, Refusal>
    ensures result_value { answer_as result ≡ answer_of film.now (length room.old) (length list.old) }
    ensures room_after { room.new ≡ bytes_after film.now room.old (length list.old) }
    ensures list_after { list.new ≡ numbers_after film.now (length room.old) list.old }
{
    open(film, 16)?;
    save(film, room, list)
}
