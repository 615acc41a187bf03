// Where the value of a pixel comes from: its block, the block's code, and the byte or the pixel that the rules read.
#![tactic(auto)]

ghost use Rattle.std.specs.Prelude.{◌≡◌, length, Ok};
ghost use Rattle.packet.specs.Packet.{packet};
ghost use Rattle.packet.specs.Verdict.{default};
ghost use Rattle.packet.specs.Rows.{touched, finding, found};
ghost use Rattle.draw.specs.Call.{call_verdict};
ghost use Rattle.origin.specs.Trace.{picture_origin, told, found_at, trace_of};
ghost use Rattle.origin.specs.Asked.{Traceable};

use block::{Picture, Source, code_at};
use packet::{Rows, check, data_position, is_legal_size};
use pixel::source_of;
use refusal::Refusal;
use words::part_from;

// What gave a pixel its value: a byte of the packet, counted from its start; or the pixel at x, y of front, of back as it was lent, or of the new picture.
#[derive(Clone, Copy)]
pub enum Origin {
    Byte(usize),
    InFront(usize, usize),
    InBack(usize, usize),
    InNew(usize, usize),
}

// The pixel's block, the block's code and the pixel's origin.
#[derive(Clone, Copy)]
pub struct Traced {
    pub block: usize,
    pub code: u8,
    pub origin: Origin,
}

// A pixel of a picture. Of an 8-bit film the oldest picture is the one drawn on as it was lent.
#[tactic(auto, unfolding(crate::specs::Trace::picture_origin))]
fn picture_origin(picture: Picture, x: usize, y: usize) -> Origin
    ensures { result ≡ picture_origin picture x y }
{
    match picture {
        Picture::Last => Origin::InFront(x, y),
        Picture::New => Origin::InNew(x, y),
        Picture::Oldest => Origin::InBack(x, y),
    }
}

// The pixel at x, y, which lies inside, of a packet that is accepted.
fn trace_inside(columns: usize, rows: usize, map: &[u8], data: &[u8], x: usize, y: usize) -> Traced
    requires { Traceable (packet columns rows map.now «data».now) x y }
    ensures { told (Ok result) ≡ found_at (packet columns rows map.now «data».now) x y }
{
    let w = 8 * columns;
    let h = 8 * rows;
    let block = y / 8 * columns + x / 8;
    let code = code_at(map, block);
    let at = data_position(map, data, block);
    let s = part_from(data, at);
    // An 8-bit packet has no second part; what stands for it is not read.
    let from = source_of(
        false,
        code,
        s,
        s,
        w,
        h,
        8 * (x / 8),
        8 * (y / 8),
        8 * (y % 8) + x % 8,
    );
    let origin = match from {
        Source::Data(j) => Origin::Byte(at + j),
        Source::Copied(picture, j) => picture_origin(picture, j % w, j / w),
    };
    Traced {
        block,
        code,
        origin,
    }
}

// The tests of a drawing call at place 0 whose pictures are front and back bytes long.
fn inspect(
    columns: usize,
    rows: usize,
    map: &[u8],
    data: &[u8],
    front: usize,
    back: usize,
) -> Result<Option<Rows>, Refusal>
    ensures { found result ≡ finding (call_verdict default columns rows map.now «data».now front back 0) (touched (packet columns rows map.now «data».now)) }
{
    if !is_legal_size(columns, rows) {
        return Err(Refusal::Size);
    }
    let pixels = 8 * rows * (8 * columns);
    if front < pixels {
        return Err(Refusal::Buffer);
    }
    if back < pixels {
        return Err(Refusal::Buffer);
    }
    check(1, columns, rows, map, data)
}

// Where the value of the pixel at x, y comes from, in the picture that a packet gives with these pictures as they are at place 0.
pub fn trace(
    columns: usize,
    rows: usize,
    map: &[u8],
    data: &[u8],
    front: &[u8],
    back: &[u8],
    x: usize,
    y: usize,
) -> Result<Traced, Refusal>
    ensures { told result ≡ trace_of columns rows map.now «data».now (length front.now) (length back.now) x y }
{
    inspect(columns, rows, map, data, front.len(), back.len())?;
    if 8 * columns <= x {
        return Err(Refusal::Position);
    }
    if 8 * rows <= y {
        return Err(Refusal::Position);
    }
    Ok(trace_inside(columns, rows, map, data, x, y))
}
