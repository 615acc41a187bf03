// The check of a packet with true colour, which has two parts. No code is refused, and every block is touched.
#![tactic(auto)]

ghost use Rattle.std.specs.Prelude.{◌≡◌, true, false, cond, ◌*◌, ◌≤◌, ◌<◌, eqb, leb, length};
ghost use Rattle.block.specs.Block.{kind_of, copy_inside};
ghost use Rattle.packet.specs.Packet.{parted, first_part, second_part, packet_in, start_of};
ghost use Rattle.packet.specs.Verdict.{blocks_verdict, parts_fit, parts_verdict, verdict_in};
ghost use Rattle.packet.specs.Accepted.{InTwo};
ghost use Rattle.packet.specs.Rows.{touched, finding, found};
ghost use Rattle.packet.specs.Asked.{Sized};
ghost use Rattle.word_packet.specs.Position.{placed};
ghost use Rattle.word_packet.specs.Amid.{is_amid};

use block::{code_at, copy_inside, data_length, offset_length};
use packet::{Rows, is_legal_size};
use refusal::Refusal;
use words::{part_from, word_at};

// Where the data of a block begins in each part of a packet.
#[derive(Clone, Copy)]
pub struct Position {
    pub bytes: usize,
    pub offsets: usize,
}

// Where block k's data begins, found from the map and the data in front of it.
pub fn data_positions(map: &[u8], data: &[u8], offsets: &[u8], k: usize) -> Position
    requires { (k ≤ 4800) × (k ≤ 2 * length map.now) }
    ensures { placed result ≡ start_of true map.now «data».now offsets.now k }
{
    let mut at = 0;
    let mut aside = 0;
    for i in 0..k {
        let code = code_at(map, i);
        at += data_length::<true>(code, part_from(data, at));
        aside += offset_length(true, code);
    }
    Position {
        bytes: at,
        offsets: aside,
    }
}

// Whether both parts are used up, where so many bytes of each are left: none of the first, and of the second at most spare.
fn are_used_up(first: usize, second: usize, spare: usize) -> bool
    ensures { result ≡ cond (eqb first 0) (leb second spare) false }
{
    first == 0 && second <= spare
}

// Whether the block at x, y stands 16 pixels or more from each edge of a picture w by h.
#[tactic(auto, unfolding(crate::specs::Amid::is_amid))]
fn is_amid(w: usize, h: usize, x: usize, y: usize) -> bool
    requires { (x ≤ 640) × (y ≤ 480) }
    ensures { result ≡ is_amid w h x y }
{
    16 <= x && x + 24 <= w && 16 <= y && y + 24 <= h
}

// Whether the 8x8 that a block is copied from lies inside the picture. Codes 2 to 4, which have an offset in the second part, point at most 14 pixels away: amid the picture
// they need no vector.
fn word_inside(code: u8, s: &[u8], o: &[u8], w: usize, h: usize, x: usize, y: usize) -> bool
    requires { (code < 16) × (w ≤ 640) × (h ≤ 480) × (x ≤ 640) × (y ≤ 480) }
    ensures { result ≡ copy_inside (kind_of true code s.now o.now) w h x y }
{
    0 < offset_length(true, code) && is_amid(w, h, x, y)
        || copy_inside(true, code, s, o, w, h, x, y)
}

// The blocks of a packet in order, and then what they leave over: nothing of the first part, at most spare bytes of the second.
pub fn check_word_blocks(
    spare: usize,
    columns: usize,
    rows: usize,
    map: &[u8],
    data: &[u8],
    offsets: &[u8],
) -> Result<Option<Rows>, Refusal>
    requires { Sized (parted true columns rows map.now «data».now offsets.now) }
    ensures { found result ≡ finding (blocks_verdict spare (parted true columns rows map.now «data».now offsets.now)) (touched (parted true columns rows map.now «data».now offsets.now)) }
{
    let w = 8 * columns;
    let h = 8 * rows;
    let mut at = 0;
    let mut aside = 0;
    // From the block's left edge to the picture's right edge, as in `packet`.
    let mut right = w;
    let mut y = 0;
    for k in 0..columns * rows {
        let code = code_at(map, k);
        let s = &data[at..];
        let o = &offsets[aside..];
        let length = data_length::<true>(code, s);
        let taken = offset_length(true, code);
        if s.len() < length {
            return Err(Refusal::DataShort(k));
        }
        if o.len() < taken {
            return Err(Refusal::DataShort(k));
        }
        if !word_inside(code, s, o, w, h, w - right, y) {
            return Err(Refusal::CopyOutside(k));
        }
        at += length;
        aside += taken;
        right -= 8;
        if right == 0 {
            right = w;
            y += 8;
        }
    }
    if !are_used_up(data.len() - at, offsets.len() - aside, spare) {
        return Err(Refusal::LeftOver);
    }
    Ok(Some(Rows {
        first: 0,
        last: rows - 1,
    }))
}

// Whether both parts are there: the packet's first word says where the second begins.
#[tactic(auto, unfolding(packet::specs::Packet::offsets_at))]
pub fn parts_fit(data: &[u8]) -> bool
    ensures { result ≡ parts_fit true «data».now }
{
    if data.len() < 2 {
        return false;
    }
    let at = word_at(data, 0);
    2 <= at && at <= data.len()
}

#[tactic(auto, unfolding(packet::specs::Packet::first_part, packet::specs::Packet::offsets_at))]
pub fn first_part(data: &[u8]) -> &[u8]
    requires { InTwo «data».now }
    ensures { result.now ≡ first_part «data».now }
{
    let at = word_at(data, 0);
    &data[2..at]
}

#[tactic(auto, unfolding(packet::specs::Packet::second_part, packet::specs::Packet::offsets_at))]
pub fn second_part(data: &[u8]) -> &[u8]
    requires { InTwo «data».now }
    ensures { result.now ≡ second_part «data».now }
{
    let at = word_at(data, 0);
    &data[at..]
}

// Both parts, then the blocks.
pub fn check_parts(
    spare: usize,
    columns: usize,
    rows: usize,
    map: &[u8],
    data: &[u8],
) -> Result<Option<Rows>, Refusal>
    requires { Sized (packet_in true columns rows map.now «data».now) }
    ensures { found result ≡ finding (parts_verdict true spare columns rows map.now «data».now) (touched (packet_in true columns rows map.now «data».now)) }
{
    if !parts_fit(data) {
        return Err(Refusal::Parts);
    }
    check_word_blocks(
        spare,
        columns,
        rows,
        map,
        first_part(data),
        second_part(data),
    )
}

// Whether the rules accept a packet for a picture of columns by rows blocks, where so many bytes may be left over, and if not, why.
pub fn check_words(
    spare: usize,
    columns: usize,
    rows: usize,
    map: &[u8],
    data: &[u8],
) -> Result<Option<Rows>, Refusal>
    ensures { found result ≡ finding (verdict_in true spare columns rows map.now «data».now) (touched (packet_in true columns rows map.now «data».now)) }
{
    if !is_legal_size(columns, rows) {
        return Err(Refusal::Size);
    }
    if map.len() != (columns * rows + 1) / 2 {
        return Err(Refusal::MapLength);
    }
    check_parts(spare, columns, rows, map, data)
}
