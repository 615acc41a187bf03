// The room that a caller lends for output: what is written starts at its front, byte after byte, and the rest stays.
#![tactic(auto)]

ghost use Rattle.std.specs.Prelude.{◌≡◌, ◌≤◌, ◌<◌, length, get_or, set, replicate};
ghost use Rattle.room.specs.Room.{written, NextByte};

// The one store of `put_all`: byte i of the bytes, when those before it are written.
#[tactic(auto, unfolding(listed::specs::Store::Within))]
fn put_byte(room: &mut [u8], bytes: &[u8], i: usize)
    requires i_in_bounds { i < length bytes.now }
    requires next_byte { NextByte bytes.now i (get_or bytes.now i 0) room.old }
    ensures { room.new ≡ set room.old i (get_or bytes.now i 0) }
{
    room[i] = bytes[i];
}

// Bytes, as they are.
#[tactic(auto, using(listed::proofs::Making::making_length))]
pub fn put_all(room: &mut [u8], bytes: &[u8])
    requires { length bytes.now ≤ length room.old }
    ensures { room.new ≡ written bytes.now room.old }
{
    for i in 0..bytes.len() {
        put_byte(room, bytes, i);
    }
}

// The one store of `put_same`: byte i of n equal ones, when those before it are written. n is for the contract alone: it names the list of stores, as the
// bytes do for `put_byte`, so the two stay apart.
#[tactic(auto, unfolding(listed::specs::Store::Within))]
fn put_value(room: &mut [u8], n: usize, value: u8, i: usize)
    requires { NextByte (replicate n value) i value room.old }
    ensures { room.new ≡ set room.old i value }
{
    room[i] = value;
}

// One byte n times.
#[tactic(auto, using(listed::proofs::Making::making_length))]
pub fn put_same(room: &mut [u8], n: usize, value: u8)
    requires { n ≤ length room.old }
    ensures { room.new ≡ written (replicate n value) room.old }
{
    for i in 0..n {
        put_value(room, n, value, i);
    }
}
