// Lists the opcodes of a film on standard input: a line for each that is taken, and how the walk ended.
#![tactic(auto)]

ghost use Rattle.std.specs.Prelude.{◌≤◌, IfOk, length};

use draw::Allowed;
use opcodes::Stepped;
use refusal::Refusal;
use state::State;
use std::io;
use std::io::Read;
use words::{byte_at, word_at};

// The line of the opcode whose head is at p: position, type, version, body length. Only a film that has p was stepped over.
fn line(rt: &impl Print, film: &[u8], p: usize) -> io::Result<()> {
    if film.len() <= p {
        return println!(rt; "{p} ");
    }
    println!(rt;
        "{p} {} {} {}",
        byte_at(film, p + 2),
        byte_at(film, p + 3),
        word_at(film, p)
    )
}

fn refused(rt: &impl Print, r: Refusal, p: usize) -> io::Result<()> {
    println!(rt; "refused {} {p}", r.number())
}

// Writes the line of an opcode that was taken, unless a chunk's head stood there, and says whether the pictures are too large to go on. A film with true colour is not
// drawn, whatever its size: no pictures of words are lent.
fn listed(rt: &impl Print, film: &[u8], p: usize, inside: bool, next: State) -> io::Result<bool> {
    if inside {
        line(rt, film, p)?;
    }
    if next.deep {
        return Ok(false);
    }
    if 16384 < state::area_of(next.columns, next.rows) {
        rt.println("too large")?;
        return Ok(true);
    }
    Ok(false)
}

// Each taken step passes 4 bytes at least, so a film of 24,576 bytes ends before the turns do.
fn walk(rt: &impl Print, film: &[u8], first: State) -> io::Result<()> {
    let mut a = [0u8; 16384];
    let mut b = [0u8; 16384];
    let mut c = [0u16; 0];
    let mut d = [0u16; 0];
    let mut e = [0u16; 0];
    let mut palette = [0u8; 768];
    let mut room = [0u8; 1];
    let mut place: usize = 0;
    let mut st = first;
    for _ in 0..24577 {
        let p = st.cursor.position;
        let inside = p != st.cursor.chunk_end;
        let stepped = film::step(
            film,
            st,
            &mut palette,
            &mut a,
            &mut b,
            &mut c,
            &mut d,
            &mut e,
            &mut place,
            &mut room,
            Allowed::by_default(312000),
        );
        match stepped {
            Ok(Stepped::Taken(next, _)) => {
                if listed(rt, film, p, inside, next)? {
                    return Ok(());
                }
                st = next;
            }
            Ok(Stepped::Whole(next, _, _)) => {
                line(rt, film, p)?;
                st = next;
            }
            Ok(Stepped::Heard(next, _) | Stepped::Unfinished(next, _, _)) => st = next,
            Ok(Stepped::Ended(_)) => return println!(rt; "ended {}", film.len()),
            Err(r) => return refused(rt, r, p),
        }
    }
    Ok(())
}

// Sound is passed over: no stream is chosen.
fn list(rt: &impl Print, film: &[u8]) -> io::Result<()> {
    rt.println("at type version length")?;
    match opening::open(film, 16) {
        Ok(st) => walk(rt, film, st),
        Err(r) => refused(rt, r, 0),
    }
}

// Reads until buf is full or the input ends, and returns how many bytes stand at the front of buf. A while, since a turn goes on by what a read gives; std's `read_exact` does not
// tell how much that was where the input ends.
fn read_full(rt: &impl Input, buf: &mut [u8]) -> io::Result<usize>
    ensures { IfOk result (λ n. n ≤ length buf.new) }
{
    let mut reader = rt.reader();
    let mut done = 0;
    while done < buf.len() {
        let n = reader.read(&mut buf[done..])?;
        if n == 0 {
            break;
        }
        done += n;
    }
    Ok(done)
}

fn main(rt: HostRuntime) -> io::Result<()> {
    let mut buffer = [0u8; 24577];
    let n = read_full(&rt, &mut buffer)?;
    if 24576 < n {
        return rt.println("too large");
    }
    list(&rt, &buffer[..n])
}
