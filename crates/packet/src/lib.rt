// The check of a packet: its size, its map, its blocks in order, and what is left over.
#![tactic(auto)]

ghost use Rattle.std.specs.Prelude.{◌≡◌, false, [], ◌*◌, ◌≤◌, length};
ghost use Rattle.packet.specs.Packet.{packet, start_of};
ghost use Rattle.packet.specs.Verdict.{default, strict, legal, legal_size, blocks_verdict, verdict};
ghost use Rattle.packet.specs.Rows.{first_from, past_touched, rows_from, touched, finding, found};
ghost use Rattle.packet.specs.Asked.{Sized};

use block::{code_at, copy_inside, data_length};
use refusal::Refusal;
use words::part_from;

// The rows of blocks that a packet touches, counted from 0: the first and the last that hold a block other than code 1.
#[derive(Clone, Copy)]
pub struct Rows {
    pub first: usize,
    pub last: usize,
}

const DEFAULT: usize = 1;

const STRICT: usize = 0;

// The bytes that a packet may leave over in the default form. A function, so that its contract holds the number for those who pass it on.
pub fn default_spare() -> usize
    ensures { result ≡ default }
{
    DEFAULT
}

// The same in the strict form.
pub fn strict_spare() -> usize
    ensures { result ≡ strict }
{
    STRICT
}

// Whether n is from 1 to most.
#[tactic(auto, unfolding(crate::specs::Verdict::legal))]
fn is_legal(most: usize, n: usize) -> bool
    ensures { result ≡ legal most n }
{
    1 <= n && n <= most
}

// Whether a picture may be so many columns and rows of blocks.
#[tactic(auto, unfolding(crate::specs::Verdict::legal_size))]
pub fn is_legal_size(columns: usize, rows: usize) -> bool
    ensures { result ≡ legal_size columns rows }
{
    is_legal(80, columns) && is_legal(60, rows)
}

// The position of block k's data in an 8-bit packet, found from the map and the data in front of it.
pub fn data_position(map: &[u8], data: &[u8], k: usize) -> usize
    requires { (k ≤ 4800) × (k ≤ 2 * length map.now) }
    ensures { result ≡ (start_of false map.now «data».now [] k).bytes }
{
    let mut at = 0;
    for i in 0..k {
        at += data_length::<false>(code_at(map, i), part_from(data, at));
    }
    at
}

// The first of n blocks that is touched, by a code other than u; n where none is.
#[tactic(auto, using(crate::proofs::Strip::first_next), unfolding(crate::specs::Rows::first_from))]
fn first_touched(u: u8, map: &[u8], n: usize) -> usize
    requires { n ≤ 2 * length map.now }
    ensures { result ≡ first_from u map.now n 0 }
{
    for k in 0..n {
        if code_at(map, k) != u {
            return k;
        }
    }
    n
}

// The end of the last of n blocks that is touched, by a code other than u; 0 where none is.
#[tactic(auto, unfolding(crate::specs::Rows::past_touched))]
fn past_touched(u: u8, map: &[u8], n: usize) -> usize
    requires { n ≤ 2 * length map.now }
    ensures { result ≡ past_touched u map.now n }
{
    for k in (0..n).rev() {
        if code_at(map, k) != u {
            return k + 1;
        }
    }
    0
}

// The rows of the first touched block and of the last, which ends at past.
#[tactic(auto, unfolding(crate::specs::Rows::rows_from))]
fn rows_from(columns: usize, first: usize, past: usize) -> Option<Rows>
    requires { 1 ≤ columns }
    ensures { result ≡ rows_from columns first past }
{
    if past == 0 {
        None
    } else {
        Some(Rows {
            first: first / columns,
            last: (past - 1) / columns,
        })
    }
}

// The blocks of an 8-bit packet in order, and then what they leave over: at most spare bytes. Those before the first touched block and behind the last are code 1: they have no data and are never refused.
pub fn check_blocks(
    spare: usize,
    columns: usize,
    rows: usize,
    map: &[u8],
    data: &[u8],
) -> Result<Option<Rows>, Refusal>
    requires { Sized (packet columns rows map.now «data».now) }
    ensures { found result ≡ finding (blocks_verdict spare (packet columns rows map.now «data».now)) (touched (packet columns rows map.now «data».now)) }
{
    let w = 8 * columns;
    let h = 8 * rows;
    let first = first_touched(1, map, columns * rows);
    let past = past_touched(1, map, columns * rows);
    let mut at = 0;
    // From the block's left edge to the picture's right edge: fewer instructions a block than its distance from the left.
    let mut right = w - 8 * (first % columns);
    let mut y = 8 * (first / columns);
    for k in first..past {
        let code = code_at(map, k);
        if code == 6 {
            return Err(Refusal::Code(k));
        }
        let s = &data[at..];
        let length = data_length::<false>(code, s);
        if s.len() < length {
            return Err(Refusal::DataShort(k));
        }
        if !copy_inside(false, code, s, s, w, h, w - right, y) {
            return Err(Refusal::CopyOutside(k));
        }
        at += length;
        right -= 8;
        if right == 0 {
            right = w;
            y += 8;
        }
    }
    let over = data.len() - at;
    if over <= spare {
        Ok(rows_from(columns, first, past))
    } else {
        Err(Refusal::LeftOver)
    }
}

// Whether the rules accept an 8-bit packet for a picture of columns by rows blocks, where so many bytes may be left over, and if not, why.
pub fn check(
    spare: usize,
    columns: usize,
    rows: usize,
    map: &[u8],
    data: &[u8],
) -> Result<Option<Rows>, Refusal>
    ensures { found result ≡ finding (verdict spare columns rows map.now «data».now) (touched (packet columns rows map.now «data».now)) }
{
    if !is_legal_size(columns, rows) {
        return Err(Refusal::Size);
    }
    if map.len() != (columns * rows + 1) / 2 {
        return Err(Refusal::MapLength);
    }
    check_blocks(spare, columns, rows, map, data)
}
