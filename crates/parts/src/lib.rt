// Bytes written into a room behind others: a part of lent bytes, or one byte several times; and the one store of a number into a lent list of numbers.
#![tactic(auto)]

ghost use Rattle.std.specs.Prelude.{◌≡◌, true, cond, ◌+◌, ◌-◌, ◌≤◌, ◌<◌, length, set, replicate};
ghost use Rattle.parts.specs.Parts.{part, laid};

use room::{put_all, put_same};

// The bytes of s from one index to another, to the room from index at on.
#[tactic(auto, using(crate::proofs::Laying::laid_back))]
pub fn copy_part(room: &mut [u8], at: usize, s: &[u8], from: usize, end: usize)
    requires { (from ≤ end) × (end ≤ length s.now) × (at + (end - from) ≤ length room.old) }
    ensures { room.new ≡ laid at (part s.now from end) room.old }
{
    put_all(&mut room[at..], &s[from..end]);
}

// `copy_part`, where it is stored. A flag and no closure that is handed in: both turns of a walk, which measures and then stores, are one loop with one proof, and a function that
// stores would need the room in it.
pub fn keep_part(storing: bool, room: &mut [u8], at: usize, s: &[u8], from: usize, end: usize)
    requires { (from ≤ end) × (end ≤ length s.now) × (storing ≡ true → at + (end - from) ≤ length room.old) }
    ensures { room.new ≡ cond storing (laid at (part s.now from end) room.old) room.old }
{
    if storing {
        copy_part(room, at, s, from, end);
    }
}

// One byte n times, to the room from index at on.
#[tactic(auto, using(crate::proofs::Laying::laid_back))]
pub fn put_run(room: &mut [u8], at: usize, n: usize, value: u8)
    requires { at + n ≤ length room.old }
    ensures { room.new ≡ laid at (replicate n value) room.old }
{
    put_same(&mut room[at..], n, value);
}

// The one store of a number.
pub fn put_number(list: &mut [usize], at: usize, value: usize)
    requires { at < length list.old }
    ensures { list.new ≡ set list.old at value }
{
    list[at] = value;
}
