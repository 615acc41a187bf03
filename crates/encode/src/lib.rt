// The encoder: map and packet that give a wanted picture. What each 8x8 is given by is found twice, to measure and to write.
#![tactic(auto)]

ghost use Rattle.std.specs.Prelude.{◌≡◌, ◌+◌, ◌*◌, ◌/◌, ◌<◌, ◌≤◌, length, set};
ghost use Rattle.room.specs.Room.{written};
ghost use Rattle.choice.specs.Choice.{length_by, data_by, cell_first, cell_data, bits, lower, higher};
ghost use Rattle.choice.specs.Asked.{Cells, Within, pixels_of};
ghost use Rattle.encode.specs.Encode.{task, block_in, way_at, block_way, data_to, map_of, encode_of, left};
ghost use Rattle.encode.specs.Asked.{pair_byte, pair_data, task_of, Ready, blocks, Placed};

use choice::{Square, Way};
use packet::is_legal_size;
use refusal::Refusal;
use room::put_same;

// The first pixel of cell n, cells side pixels wide and high: by constants, as quick as shifts.
fn cell_first(e: usize, side: usize, n: usize) -> usize
    requires { Cells e side × (n < 8 / side * (8 / side)) }
    ensures { (result ≡ cell_first side n) × (result < 64) }
{
    match e {
        0 => n,
        1 => n / 4 * 16 + n % 4 * 2,
        2 => n / 2 * 32 + n % 2 * 4,
        _ => 0,
    }
}

// The one store of a byte.
fn put(room: &mut [u8], i: usize, v: u8)
    requires { i < length room.old }
    ensures { room.new ≡ set room.old i v }
{
    room[i] = v;
}

// The first pixels of all n cells, from the room's front on.
fn put_cells(room: &mut [u8], s: &Square, e: usize, side: usize, n: usize)
    requires { Within s.now × Cells e side × (n ≡ 8 / side * (8 / side)) × (n ≤ length room.old) }
    ensures { room.new ≡ written (cell_data side (pixels_of s.now)) room.old }
{
    for j in 0..n {
        put(room, j, s.pixel(cell_first(e, side, j)));
    }
}

// The marks of eight cells, cells 8 r to 8 r + 7: a bit each, the first in the lowest, set where the cell's first pixel has this colour.
fn marked(s: &Square, e: usize, side: usize, r: usize, colour: u8) -> u8
    requires { Within s.now × Cells e side × (8 * r + 8 ≤ 8 / side * (8 / side)) }
    ensures { result ≡ bits (λ c. pixels_of s.now (cell_first side (8 * r + c))) colour }
{
    let mut v: u8 = 0;
    for c in (0..8).rev() {
        v = 2 * v;
        if s.pixel(cell_first(e, side, 8 * r + c)) == colour {
            v += 1;
        }
    }
    v
}

// Byte j of a pair of colours, first and second, and the marks of the second.
#[tactic(auto, unfolding(crate::specs::Asked::pair_byte))]
fn pair_byte(s: &Square, e: usize, side: usize, first: u8, second: u8, j: usize) -> u8
    requires { Within s.now × Cells e side × (8 * j ≤ 8 / side * (8 / side) + 8) }
    ensures { result ≡ pair_byte (pixels_of s.now) side first second j }
{
    match j {
        0 => first,
        1 => second,
        _ => marked(s, e, side, j - 2, second),
    }
}

// A pair of colours and the marks of n bytes, from the room's front on.
fn put_pair(room: &mut [u8], s: &Square, e: usize, side: usize, n: usize, first: u8, second: u8)
    requires { Within s.now × Cells e side × (8 * n ≡ 8 / side * (8 / side)) × (n + 2 ≤ length room.old) }
    ensures { room.new ≡ written (pair_data (pixels_of s.now) side first second n) room.old }
{
    for j in 0..n + 2 {
        put(room, j, pair_byte(s, e, side, first, second, j));
    }
}

// The lower and the higher of an 8x8's two colours.
#[tactic(auto, unfolding(choice::specs::Choice::lower, choice::specs::Choice::higher))]
fn pair_of(s: &Square) -> (u8, u8)
    requires { Within s.now }
    ensures { (result.0 ≡ lower (pixels_of s.now)) × (result.1 ≡ higher (pixels_of s.now)) }
{
    let z = s.pixel(0);
    let o = s.other_colour();
    (z.min(o), z.max(o))
}

// The data of an 8x8, from the room's front on. Code 7 has a falling pair and a mark for each 2x2, or a rising one and a mark for each pixel.
#[tactic(auto, using(room::proofs::Written::written_none, crate::proofs::Parts::two_written), unfolding(choice::specs::Choice::data_by))]
fn put_part(room: &mut [u8], way: Way, s: &Square)
    requires { Within s.now × (length_by way ≤ length room.old) }
    ensures { room.new ≡ written (data_by way (pixels_of s.now)) room.old }
{
    match way {
        Way::Same | Way::Kept => (),
        Way::One => put_cells(room, s, 3, 8, 1),
        Way::Dither => {
            put(room, 0, s.pixel(0));
            put(room, 1, s.pixel(1));
        }
        Way::Coarse => {
            let (low, high) = pair_of(s);
            put_pair(room, s, 1, 2, 2, high, low);
        }
        Way::Four => put_cells(room, s, 2, 4, 4),
        Way::Fine => {
            let (low, high) = pair_of(s);
            put_pair(room, s, 0, 1, 8, low, high);
        }
        Way::Two => put_cells(room, s, 1, 2, 16),
        Way::Raw => put_cells(room, s, 0, 1, 64),
    }
}

// The picture that is wanted and the two that are lent, so many blocks wide and high.
#[derive(Clone, Copy)]
struct Task<'a> {
    wanted: &'a [u8],
    front: &'a [u8],
    back: &'a [u8],
    columns: usize,
    rows: usize,
}

impl<'a> Task<'a> {
    // The 8x8 of block k in the wanted picture.
    fn square(&self, k: usize) -> Square<'a>
        requires { Ready self.now × (k < blocks self.now) }
        ensures { Placed self.now k result }
    {
        Square {
            picture: self.wanted,
            w: 8 * self.columns,
            x: 8 * (k % self.columns),
            y: 8 * (k / self.columns),
        }
    }

    // The data bytes of all blocks, found before the first is written.
    fn measure(&self) -> usize
        requires { Ready self.now }
        ensures { (result ≡ length (data_to (task_of self.now) (blocks self.now))) × (result ≤ 64 * blocks self.now) }
    {
        let mut at = 0;
        for k in 0..self.columns * self.rows {
            at += self.square(k).way(self.front, self.back).length();
        }
        at
    }

    // The data of block k, from the room's front on, and its way; behind the last block none, and code 0.
    fn put_block(&self, room: &mut [u8], k: usize) -> Way
        requires { Ready self.now × (length_by (block_way (task_of self.now) (blocks self.now) k) ≤ length room.old) }
        ensures { (result ≡ block_way (task_of self.now) (blocks self.now) k) × (room.new ≡ written (data_by result (block_in self.now.wanted.now self.now.columns k)) room.old) }
    {
        if self.columns * self.rows <= k {
            return Way::Same;
        }
        let s = self.square(k);
        let way = s.way(self.front, self.back);
        put_part(room, way, &s);
        way
    }

    // Map and data, each from its room's front on: byte i of the map has the codes of blocks 2 i and 2 i + 1, the low nibble first.
    fn put_frame(&self, map: &mut [u8], room: &mut [u8])
        requires { Ready self.now × ((blocks self.now + 1) / 2 ≤ length map.old) × (length (data_to (task_of self.now) (blocks self.now)) ≤ length room.old) }
        ensures { (map.new ≡ written (map_of (task_of self.now) (blocks self.now)) map.old) × (room.new ≡ written (data_to (task_of self.now) (blocks self.now)) room.old) }
    {
        let mut at = 0;
        for i in 0..(self.columns * self.rows + 1) / 2 {
            let low = self.put_block(&mut room[at..], 2 * i);
            at += low.length();
            let high = self.put_block(&mut room[at..], 2 * i + 1);
            at += high.length();
            put(map, i, low.code() + 16 * high.code());
        }
    }
}

// What an encoding comes to: the lengths of map and body.
#[derive(Clone, Copy)]
pub struct Encoded {
    pub map: usize,
    pub body: usize,
}

// Map and body that give the wanted picture. All tests are made before the first store. The body is that of opcode 11: 14 bytes of zero, then the data.
#[tactic(auto, using(crate::proofs::Answers::body_length, crate::proofs::Blocks::map_length), unfolding(crate::specs::Encode::encode_verdict, crate::specs::Encode::outcome))]
pub fn encode(
    columns: usize,
    rows: usize,
    wanted: &[u8],
    front: &[u8],
    back: &[u8],
    map: &mut [u8],
    body: &mut [u8],
) -> Result<Encoded, Refusal>
    ensures { left result map.new body.new ≡ encode_of (task columns wanted.now front.now back.now) rows map.old body.old }
{
    if !is_legal_size(columns, rows) {
        return Err(Refusal::Size);
    }
    let pixels = 8 * rows * (8 * columns);
    if wanted.len() < pixels || front.len() < pixels || back.len() < pixels {
        return Err(Refusal::Buffer);
    }
    let task = Task {
        wanted,
        front,
        back,
        columns,
        rows,
    };
    let long = 14 + task.measure();
    if 65531 < long {
        return Err(Refusal::PacketLength);
    }
    let half = (columns * rows + 1) / 2;
    if map.len() < half || body.len() < long {
        return Err(Refusal::Room);
    }
    put_same(body, 14, 0);
    task.put_frame(map, &mut body[14..]);
    Ok(Encoded {
        map: half,
        body: long,
    })
}
