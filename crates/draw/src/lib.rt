// The drawing call: every test again, then the stores still due from the place, as many as are allowed.
#![tactic(auto)]

ghost use Rattle.std.specs.Prelude.{◌≡◌, ◌≤◌, ◌<◌, length, drop, Ok};
ghost use Rattle.block.specs.Block.{byte_kind};
ghost use Rattle.paint.specs.Value.{pixel_count};
ghost use Rattle.packet.specs.Packet.{packet};
ghost use Rattle.packet.specs.Verdict.{default, strict};
ghost use Rattle.packet.specs.Rows.{touched, finding, found};
ghost use Rattle.stores.specs.Stores.{memory};
ghost use Rattle.stores.specs.Loop.{Called};
ghost use Rattle.draw.specs.Drawing.{plan};
ghost use Rattle.draw.specs.Call.{within, request, call_verdict, pictures, leaves, report, answering, said};
ghost use Rattle.draw.specs.Asked.{Accepted};

use block::{code_at, data_length};
use packet::{Rows, check_blocks, data_position, default_spare, is_legal_size, strict_spare};
use paint::paint_part;
use refusal::Refusal;
use whole::paint_and_pass;

// What a drawing call answers that is not refused: the stores made and the rows of blocks that the packet touches.
#[derive(Clone, Copy)]
pub enum Drawn {
    Whole(usize, Option<Rows>),
    Unfinished(usize, Option<Rows>),
}

// What a call is allowed: the stores that it may make, and the bytes of the packet that may be left over.
#[derive(Clone, Copy)]
pub struct Allowed {
    pub stores: usize,
    pub spare: usize,
}

impl Allowed {
    // So many stores, in the default form.
    pub fn by_default(stores: usize) -> Allowed
        ensures { result ≡ within stores default }
    {
        Allowed {
            stores,
            spare: default_spare(),
        }
    }

    // The same in the strict form.
    pub fn strictly(stores: usize) -> Allowed
        ensures { result ≡ within stores strict }
    {
        Allowed {
            stores,
            spare: strict_spare(),
        }
    }
}

// The pixels that a block of this code stores.
#[tactic(auto, using(paint::proofs::Counts::count_0, paint::proofs::Counts::count_64))]
fn pixel_count(code: u8, s: &[u8]) -> usize
    requires { code < 16 }
    ensures { result ≡ pixel_count (byte_kind code s.now) }
{
    if code == 1 { 0 } else { 64 }
}

// A packet's data from byte at on. at is not past the end, so the test of `words::part_from` is spared.
fn data_from(data: &[u8], at: usize) -> &[u8]
    requires { at ≤ length «data».now }
    ensures { result.now ≡ drop at «data».now }
{
    &data[at..]
}

// The tests of a call, where so many bytes may be left over and the pictures are front and back bytes long.
pub fn judge(
    spare: usize,
    columns: usize,
    rows: usize,
    map: &[u8],
    data: &[u8],
    front: usize,
    back: usize,
    place: usize,
) -> Result<Option<Rows>, Refusal>
    ensures { found result ≡ finding (call_verdict spare columns rows map.now «data».now front back place) (touched (packet columns rows map.now «data».now)) }
{
    if !is_legal_size(columns, rows) {
        return Err(Refusal::Size);
    }
    let pixels = 8 * rows * (8 * columns);
    if front < pixels {
        return Err(Refusal::Buffer);
    }
    if back < pixels {
        return Err(Refusal::Buffer);
    }
    if map.len() != (columns * rows + 1) / 2 {
        return Err(Refusal::MapLength);
    }
    if columns * rows < place {
        return Err(Refusal::Place);
    }
    check_blocks(spare, columns, rows, map, data)
}

// The first stores due from the place on, at most as many as are allowed; their number is returned. Whoever calls it has judged, and the frame of the tests is
// gone while it draws.
pub fn draw_blocks(
    columns: usize,
    rows: usize,
    map: &[u8],
    data: &[u8],
    front: &[u8],
    back: &mut [u8],
    place: &mut usize,
    allowed: usize,
) -> usize
    requires { Accepted (packet columns rows map.now «data».now) (length front.now) (length back.old) place.old }
    ensures { Called (plan (packet columns rows map.now «data».now) front.now) (memory back.old place.old) allowed back.new place.new result }
{
    let n = columns * rows;
    let w = 8 * columns;
    let h = 8 * rows;
    let first = *place;
    let mut at = data_position(map, data, first);
    let mut left = allowed;
    let mut x = 8 * (first % columns);
    let mut y = 8 * (first / columns);
    for k in first..n {
        let code = code_at(map, k);
        let s = data_from(data, at);
        let due = pixel_count(code, s);
        if left <= due {
            paint_part(code, s, front, back, w, h, x, y, left);
            return allowed;
        }
        paint_and_pass(code, s, front, back, w, x, y, place, k + 1);
        left -= due + 1;
        at += data_length::<false>(code, s);
        x += 8;
        if x == w {
            x = 0;
            y += 8;
        }
    }
    allowed - left
}

// The answer of an accepted call that has made so many stores and has left the place there, with the rows that its packet touches.
#[tactic(auto, unfolding(stores::specs::Calls::answered))]
pub fn answer_of(blocks: usize, place: usize, count: usize, t: Option<Rows>) -> Drawn
    ensures { said (Ok result) ≡ answering blocks place count t }
{
    if place == blocks {
        Drawn::Whole(count, t)
    } else {
        Drawn::Unfinished(count, t)
    }
}

// The drawing call: the tests, then the first stores due from the place on, at most as many as are allowed; a refused call changes nothing.
pub fn draw(
    columns: usize,
    rows: usize,
    map: &[u8],
    data: &[u8],
    front: &[u8],
    back: &mut [u8],
    place: &mut usize,
    allowed: Allowed,
) -> Result<Drawn, Refusal>
    ensures place_after { pictures front.now (memory back.new place.new) ≡ leaves (request columns rows map.now «data».now front.now allowed) (memory back.old place.old) }
    ensures result_value { said result ≡ report (memory back.old place.old) (request columns rows map.now «data».now front.now allowed) }
{
    let t = judge(
        allowed.spare,
        columns,
        rows,
        map,
        data,
        front.len(),
        back.len(),
        *place,
    )?;
    let n = draw_blocks(columns, rows, map, data, front, back, place, allowed.stores);
    Ok(answer_of(columns * rows, *place, n, t))
}
