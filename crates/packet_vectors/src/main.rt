// Checks the packets on standard input and writes a line for each: `accepted`, or `refused`, the number and the block.
#![tactic(auto)]

ghost use Rattle.std.specs.Prelude.{◌<◌, ◌≤◌, IfOk, length};

use packet::{Rows, check, default_spare};
use refusal::Refusal;
use std::io;
use std::io::Read;
use words::word_at;

// The line of a case, of which the check found this; nothing is found of a case that is cut short.
fn answer(rt: &impl Print, found: Option<Result<Option<Rows>, Refusal>>) -> io::Result<()> {
    match found {
        Some(Ok(_)) => println!(rt; "accepted"),
        Some(Err(r)) => println!(rt; "refused {} {}", r.number(), r.block()),
        None => println!(rt; "cut short"),
    }
}

// The case at byte at of s: what the check finds, and the position of the next case; nothing, and a position past the end of s, where the case is cut short.
// A case is four words, columns, rows, map length and data length, and then the map and the data.
fn case(s: &[u8], at: usize) -> (Option<Result<Option<Rows>, Refusal>>, usize)
    requires { at < 65536 }
    ensures { at < result.1 }
{
    let map = at + 8;
    let data = map + word_at(s, at + 4);
    let end = data + word_at(s, at + 6);
    if s.len() < end {
        return (None, 65536);
    }
    let found = check(
        default_spare(),
        word_at(s, at),
        word_at(s, at + 2),
        &s[map..data],
        &s[data..end],
    );
    (Some(found), end)
}

// Reads until buf is full or the input ends, and returns how many bytes stand at the front of buf. A while, since a turn goes on by what a read gives; std's `read_exact` does not
// tell how much that was where the input ends.
fn read_full(rt: &impl Input, buf: &mut [u8]) -> io::Result<usize>
    ensures { IfOk result (λ n. n ≤ length buf.new) }
{
    let mut reader = rt.reader();
    let mut done = 0;
    while done < buf.len() {
        let n = reader.read(&mut buf[done..])?;
        if n == 0 {
            break;
        }
        done += n;
    }
    Ok(done)
}

fn main(rt: HostRuntime) -> io::Result<()> {
    let mut space = [0u8; 65536];
    let n = read_full(&rt, &mut space)?;
    let mut at = 0;
    while at < n {
        let (found, next) = case(&space[..n], at);
        answer(&rt, found)?;
        at = next;
    }
    Ok(())
}
