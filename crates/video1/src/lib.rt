// Microsoft Video 1, 8-bit frames (source document 001): the data is walked and judged whole, then walked again and its pixels are stored.
#![tactic(auto)]

ghost use Rattle.std.specs.Prelude.{◌≡◌, ◌+◌, ◌*◌, ◌/◌, ◌≤◌, ◌<◌, length, get_or};
ghost use Rattle.packet.specs.Verdict.{told};
ghost use Rattle.stores.specs.Stores.{first_pixels, further, final};
ghost use Rattle.rows.specs.Row.{Beside};
ghost use Rattle.video1.specs.Code.{code_of, code_at, long_of, passed_by, stores_of};
ghost use Rattle.video1.specs.Frame.{end_verdict, walk_verdict, block_plan, frame_plan};
ghost use Rattle.video1.specs.Asked.{Sized, Canvas, below_of, Paints, Rowed, pair_source, Paired, Decoded};

use packet::is_legal_size;
use paint::{Drawing, put};
use refusal::Refusal;
use std::marker::Brand;
use words::{byte_at, wide, word_at};

// What the two bytes of a code say: blocks to skip, or one block of two, eight or one colours.
#[derive(Clone, Copy)]
pub enum Code {
    Skip(usize),
    Two,
    Eight,
    One,
}

impl Code {
    // Its bytes, with its colours.
    #[tactic(auto, unfolding(crate::specs::Code::long_of))]
    fn long(self) -> usize
        ensures { result ≡ long_of self }
    {
        match self {
            Code::Skip(_) | Code::One => 2,
            Code::Two => 4,
            Code::Eight => 10,
        }
    }

    // The blocks that it passes.
    #[tactic(auto, unfolding(crate::specs::Code::passed_by))]
    fn passed(self) -> usize
        ensures { result ≡ passed_by self }
    {
        match self {
            Code::Skip(n) => n,
            _ => 1,
        }
    }

    // The pixels that it stores in each of them.
    #[tactic(auto, unfolding(crate::specs::Code::stores_of))]
    fn stores(self) -> usize
        ensures { result ≡ stores_of self }
    {
        match self {
            Code::Skip(_) => 0,
            _ => 16,
        }
    }
}

#[tactic(auto, using(std::proofs::lemmas::Bool::Decides::nat_tests), unfolding(crate::specs::Code::code_of))]
fn code_of(a: usize, b: usize) -> Code
    requires { (a < 256) × (b < 256) }
    ensures { result ≡ code_of a b }
{
    // Skips first, by one range: with a test below and one above them the compiler branches on 80 to 83 and 88 to 8F.
    if 132 <= b && b < 136 {
        Code::Skip((b - 132) * 256 + a)
    } else if b < 128 {
        Code::Two
    } else if 144 <= b {
        Code::Eight
    } else {
        Code::One // 80 to 83, 88 to 8F
    }
}

// The code at byte at.
#[tactic(auto, unfolding(crate::specs::Code::code_at))]
fn code_at(s: &[u8], at: usize) -> Code
    requires { at ≤ length s.now }
    ensures { result ≡ code_at s.now at }
{
    code_of(wide(byte_at(s, at)), wide(byte_at(s, at + 1)))
}

// After all blocks the end mark 00 00, and nothing behind it.
#[tactic(auto, using(std::proofs::lemmas::Bool::Decides::nat_tests), unfolding(crate::specs::Frame::end_verdict))]
fn judge_end(s: &[u8], at: usize) -> Result<(), Refusal>
    requires { at ≤ length s.now }
    ensures { told result ≡ end_verdict s.now at }
{
    if s.len() - at == 2 && word_at(s, at) == 0 {
        Ok(())
    } else {
        Err(Refusal::EndMark)
    }
}

// The codes of a frame of so many blocks, in order: 24, 25, then 26. A while, since a turn goes on by the blocks that a code passes.
fn judge(s: &[u8], total: usize) -> Result<(), Refusal>
    ensures { told result ≡ walk_verdict s.now total }
{
    let mut at = 0;
    let mut k = 0;
    while k < total {
        let code = code_at(s, at);
        let long = code.long();
        if s.len() - at < long {
            return Err(Refusal::FrameShort);
        }
        let n = code.passed();
        if total - k < n {
            return Err(Refusal::SkipOutside);
        }
        at += long;
        k += n;
    }
    judge_end(s, at)
}

// The byte, counted from a, that gives pixel i of pairs of colours.
#[tactic(auto, unfolding(crate::specs::Asked::pair_source, crate::specs::Code::quad))]
fn pair_source(step: usize, f: usize, i: usize) -> usize
    requires { (step ≤ 2) × (i < 16) }
    ensures { result ≡ pair_source step f i }
{
    2 + (step * (2 * (i / 8) + i % 4 / 2) + (1 - (f >> (i % 8)) % 2))
}

// Two or eight colours: four pixels side by side, from pixel p on.
fn pairs_row<P: Drawing>(pic: &mut [u8], s: &[u8], at: usize, p: usize, step: usize, to: usize)
    requires { (p + 4 ≤ 16) × Paired s.now at step × (at + 4 + 3 * step ≤ length s.now) × Beside P.plan p 4 pic.old to (λ i. get_or s.now (at + pair_source step (get_or s.now (at + p / 8) 0) (p + i)) 0) }
    ensures { pic.new ≡ further P.plan 0 pic.old p 4 }
{
    let f = wide(s[at + p / 8]);
    for j in 0..4 {
        let v = s[at + pair_source(step, f, p + j)];
        put::<P, u8>(pic, p + j, to + j, v);
    }
}

// One colour: four pixels side by side, from pixel p on. A loop, which the compiler stores at once, as a product; by `put_four` a block takes a tenth longer.
fn one_row<P: Drawing>(pic: &mut [u8], p: usize, to: usize, v: u8)
    requires { (p + 4 ≤ 16) × Beside P.plan p 4 pic.old to (λ i. v) }
    ensures { pic.new ≡ further P.plan 0 pic.old p 4 }
{
    for j in 0..4 {
        put::<P, u8>(pic, p + j, to + j, v);
    }
}

// Four pixels side by side of a block, from pixel p on, as its code gives them.
fn paint_row<P: Drawing>(pic: &mut [u8], s: &[u8], at: usize, p: usize, code: Code, to: usize)
    requires { (code ≡ code_at s.now at) × Rowed P.plan s.now at p pic.old to }
    ensures { pic.new ≡ further P.plan 0 pic.old p 4 }
{
    match code {
        Code::Skip(_) => {}
        Code::Two => pairs_row::<P>(pic, s, at, p, 0, to),
        Code::Eight => pairs_row::<P>(pic, s, at, p, 2, to),
        Code::One => one_row::<P>(pic, p, to, s[at]),
    }
}

// The pixels of block k, which the code at byte at gives, row by row from the bottom up; a skip stores none. A row's index is that of the row below less the width: a
// difference, not a product. No code reads rows and k: the plan is made of them.
fn paint_code<P: Drawing>(
    pic: &mut [u8],
    columns: usize,
    rows: usize,
    s: &[u8],
    at: usize,
    k: usize,
    code: Code,
    below: usize,
)
    requires plan { P.plan ≡ block_plan columns rows s.now at k }
    requires stands { Paints columns rows s.now at k below (length pic.old) × (code ≡ code_at s.now at) }
    ensures { pic.new ≡ first_pixels P.plan 0 pic.old (stores_of code) }
{
    let mut to = below;
    for row in 0..code.stores() / 4 {
        to -= 8 * columns;
        paint_row::<P>(pic, s, at, 4 * row, code, to);
    }
}

// The index below block k.
#[tactic(auto, using(crate::proofs::Frames::below_sums), unfolding(crate::specs::Asked::below_of))]
fn below_of(columns: usize, rows: usize, k: usize) -> usize
    requires { Sized columns rows × (k ≤ 2 * columns * (2 * rows)) }
    ensures { result ≡ below_of columns rows k }
{
    (8 * rows - 4 * (k / (2 * columns))) * (8 * columns) + 4 * (k % (2 * columns))
}

// The pixels of a frame that is taken. right: the blocks of the row from block k on. A while, as in `judge`.
fn paint_frame(pic: &mut [u8], columns: usize, rows: usize, s: &[u8])
    requires { Canvas columns rows s.now (length pic.old) }
    ensures { pic.new ≡ final (frame_plan columns rows s.now) pic.old }
{
    let total = 2 * columns * (2 * rows);
    let mut at = 0;
    let mut k = 0;
    let mut below = 8 * rows * (8 * columns);
    let mut right = 2 * columns;
    while k < total {
        let code = code_at(s, at);
        paint_code::<Brand>(pic, columns, rows, s, at, k, code, below);
        let n = code.passed();
        at += code.long();
        k += n;
        if n == 1 {
            below += 4;
            right -= 1;
            if right == 0 {
                below -= 40 * columns;
                right = 2 * columns;
            }
        } else {
            below = below_of(columns, rows, k);
            right = 2 * columns - k % (2 * columns);
        }
    }
}

// A frame for a picture of columns by rows blocks of 8x8: judged whole, then stored.
pub fn decode(columns: usize, rows: usize, s: &[u8], pic: &mut [u8]) -> Result<(), Refusal>
    ensures { Decoded columns rows s.now pic.old result pic.new }
{
    if !is_legal_size(columns, rows) {
        return Err(Refusal::Size);
    }
    if pic.len() < 8 * rows * (8 * columns) {
        return Err(Refusal::Buffer);
    }
    judge(s, 2 * columns * (2 * rows))?;
    paint_frame(pic, columns, rows, s);
    Ok(())
}
