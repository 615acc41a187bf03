// One 8x8 block: its code, its data bytes, whether its copy lies inside, and the source of each of its pixels.
#![tactic(auto)]

ghost use Rattle.std.specs.Prelude.{◌≡◌, true, false, cond, List, ℕ, ◌/◌, ◌≤◌, ◌<◌, eqb, ltb, length};
ghost use Rattle.motion.specs.Motion.{Short};
ghost use Rattle.block.specs.Block.{code_at, kind_of, data_length, offset_length, is_refused, copy_inside, cell_source, dither_source};
ghost use Rattle.block.specs.Asked.{Fixed, Sided, last_copied, first_offset, vector_at};

use motion::{Vector, ahead_vector, behind_vector, far_vector, near_vector, points_inside};
use pattern::{bytes_of, is_falling};
use words::byte_at;

// The pictures that are read: the shown one, the one that is drawn on, and the one two frames old, which in 8-bit films is drawn on.
#[derive(Clone, Copy)]
pub enum Picture {
    Last,
    New,
    Oldest,
}

// Where a pixel's value stands: from a byte of the block's data on, or in a pixel of a picture.
#[derive(Clone, Copy)]
pub enum Source {
    Data(usize),
    Copied(Picture, usize),
}

// The code of block k: a nibble of the map and no enum, since the rules, the definitions and their laws name codes by number. By a shift: a choice between two nibbles costs more.
#[tactic(auto, using(crate::proofs::Codes::nibble), unfolding(crate::specs::Block::code_at))]
pub fn code_at(map: &[u8], k: usize) -> u8
    requires { k / 2 < length map.now }
    ensures { (result ≡ code_at map.now k) × (result < 16) }
{
    (map[k / 2] >> (4 * (k % 2))) % 16
}

// One of two values. Both are worked out before: of numbers the compiler then chooses by a conditional move.
pub fn choose<T: Copy>(test: bool, a: T, b: T) -> T
    ensures { result ≡ cond test a b }
{
    if test { a } else { b }
}

// Codes B to F with true colour: 128 bytes, 32, 8, 2 and none. A shift and no table, of which the compiler makes a jump for each code: a check of these codes in turn then
// takes half as long again.
#[tactic(auto, using(crate::proofs::Codes::word_cells))]
fn word_cell_length(code: u8) -> usize
    requires { (10 < code) × (code < 16) }
    ensures { (s o : List ℕ) → result ≡ data_length true (kind_of true code s o) }
{
    128 >> (2 * usize::from(code - 11))
}

// The data bytes of a block of any code but 7 to A, which are not met here; with them, and with an arm a code, the match is dense, so that the compiler may make it a table.
// DEEP: the film has true colour.
#[tactic(auto, using(crate::proofs::Codes::lengths))]
fn fixed_length<const DEEP: bool>(code: u8) -> usize
    requires { (code < 16) × Fixed code }
    ensures { (s o : List ℕ) → result ≡ data_length DEEP (kind_of DEEP code s o) }
{
    if DEEP && 10 < code {
        return word_cell_length(code);
    }
    let n = bytes_of(DEEP);
    match code {
        0 => 0,
        1 => 0,
        2 => choose(DEEP, 0, 1),
        3 => choose(DEEP, 0, 1),
        4 => choose(DEEP, 0, 1),
        5 => 2,
        6 => choose(DEEP, 2, 0),
        7 => 0,
        8 => 0,
        9 => 0,
        10 => 0,
        11 => 64 * n,
        12 => 16 * n,
        13 => 4 * n,
        14 => n,
        _ => choose(DEEP, 0, 2),
    }
}

// Code 9. Both pairs are compared before either result is tested, so that the compiler needs no branch.
#[tactic(auto, using(crate::proofs::Codes::found_9))]
fn length_of_9<const DEEP: bool>(s: &[u8]) -> usize
    ensures { (o : List ℕ) → result ≡ data_length DEEP (kind_of DEEP 9 s.now o) }
{
    let n = bytes_of(DEEP);
    let second = is_falling(DEEP, s, 2 * n);
    let fine = choose(second, 4 * n + 4, 4 * n + 16);
    choose(is_falling(DEEP, s, 0), 4 * n + 8, fine)
}

// Codes 7 to A of a block whose data begins with s.
#[tactic(auto, using(crate::proofs::Codes::found_7, crate::proofs::Codes::found_8, crate::proofs::Codes::found_A))]
fn pattern_length<const DEEP: bool>(code: u8, s: &[u8]) -> usize
    requires { (6 < code) × (code < 11) }
    ensures { (o : List ℕ) → result ≡ data_length DEEP (kind_of DEEP code s.now o) }
{
    let n = bytes_of(DEEP);
    match code {
        7 => choose(is_falling(DEEP, s, 0), 2 * n + 2, 2 * n + 8),
        8 => choose(is_falling(DEEP, s, 0), 4 * n + 8, 8 * n + 8),
        9 => length_of_9::<DEEP>(s),
        _ => choose(is_falling(DEEP, s, 0), 8 * n + 16, 16 * n + 16),
    }
}

// Whether a code is refused: 6 in an 8-bit film.
#[tactic(auto, using(crate::proofs::Codes::refused_flat, crate::proofs::Codes::refused_deep))]
pub fn is_refused(deep: bool, code: u8) -> bool
    requires { code < 16 }
    ensures { (s o : List ℕ) → result ≡ is_refused (kind_of deep code s o) }
{
    !deep && code == 6
}

// Whether a block's offset stands in the second part: codes 2 to 4 of a film with true colour.
fn is_beside(deep: bool, code: u8) -> bool
    ensures { result ≡ cond deep (ltb code 5) false }
{
    deep && code < 5
}

// The bytes of the second part that a block takes.
#[tactic(auto, using(crate::proofs::Codes::offset_low, crate::proofs::Codes::offset_high))]
pub fn offset_length(deep: bool, code: u8) -> usize
    requires { code < 16 }
    ensures { (s o : List ℕ) → result ≡ offset_length (kind_of deep code s o) }
{
    if code < 2 {
        0
    } else {
        choose(is_beside(deep, code), 1, 0)
    }
}

// The data bytes of a block whose data begins with s. DEEP: the film has true colour. A const parameter and no flag: a function for both films is not inlined, and then a check
// takes up to three times as long.
#[tactic(auto, using(crate::proofs::Codes::lengths))]
pub fn data_length<const DEEP: bool>(code: u8, s: &[u8]) -> usize
    requires { code < 16 }
    ensures { (o : List ℕ) → result ≡ data_length DEEP (kind_of DEEP code s.now o) }
{
    // Of words F has no data: told apart first, it is not tested further.
    if DEEP && code == 15 {
        return 0;
    }
    if code < 7 || DEEP && 10 < code {
        return fixed_length::<DEEP>(code);
    }
    // Of bytes a test of its own: by one for both ends the function grows past what the compiler puts into the loops.
    if 10 < code {
        return fixed_length::<DEEP>(code);
    }
    pattern_length::<DEEP>(code, s)
}

// One of two vectors, chosen number by number: conditional moves instead of a branch. By `choose` of whole vectors the test of a copy takes a quarter longer.
#[tactic(auto, using(crate::proofs::Codes::each_chosen))]
fn choose_vector(test: bool, a: Vector, b: Vector) -> Vector
    ensures { result ≡ cond test a b }
{
    Vector {
        right: choose(test, a.right, b.right),
        left: choose(test, a.left, b.left),
        down: choose(test, a.down, b.down),
        up: choose(test, a.up, b.up),
    }
}

// The first byte of a copied block's offsets: in the block's data s or in the second part o.
#[tactic(auto, unfolding(crate::specs::Asked::first_offset))]
fn first_offset(deep: bool, code: u8, s: &[u8], o: &[u8]) -> u8
    ensures { result ≡ first_offset deep code s.now o.now }
{
    if is_beside(deep, code) {
        byte_at(o, 0)
    } else {
        byte_at(s, 0)
    }
}

// The vector of a block of code 2 to 6.
pub fn copied_vector(deep: bool, code: u8, s: &[u8], o: &[u8]) -> Vector
    ensures { (result ≡ vector_at deep code s.now o.now) × Short result }
{
    let b = first_offset(deep, code, s, o);
    if code < 4 {
        choose_vector(code == 3, behind_vector(b), ahead_vector(b))
    } else {
        choose_vector(code == 4, near_vector(b), far_vector(b, byte_at(s, 1)))
    }
}

// The last code that is copied by a vector.
fn last_copied(deep: bool) -> u8
    ensures { result ≡ last_copied deep }
{
    if deep { 6 } else { 5 }
}

// Whether the 8x8 that a block at x, y is copied from lies inside the picture w by h.
#[tactic(auto, using(crate::proofs::Codes::copy_low, crate::proofs::Codes::copy_high, crate::proofs::Codes::copy_judged))]
pub fn copy_inside(
    deep: bool,
    code: u8,
    s: &[u8],
    o: &[u8],
    w: usize,
    h: usize,
    x: usize,
    y: usize,
) -> bool
    requires { (code < 16) × (w ≤ 640) × (h ≤ 480) × (x ≤ 640) × (y ≤ 480) }
    ensures { result ≡ copy_inside (kind_of deep code s.now o.now) w h x y }
{
    code < 2
        || last_copied(deep) < code
        || points_inside(copied_vector(deep, code, s, o), w, h, x, y)
}

// The number of the colour of pixel i where each cell, side pixels wide and high, has one.
#[tactic(auto, using(crate::proofs::Codes::cell), unfolding(crate::specs::Block::cell_source))]
pub fn cell_source(side: usize, i: usize) -> usize
    requires { Sided side × (i < 64) }
    ensures { result ≡ cell_source side i }
{
    i / 8 / side * (8 / side) + i % 8 / side
}

// The number of the colour of pixel i of a dithered block.
#[tactic(auto, unfolding(crate::specs::Block::dither_source))]
pub fn dither_source(i: usize) -> usize
    requires { i < 64 }
    ensures { result ≡ dither_source i }
{
    (i / 8 + i % 8) % 2
}
