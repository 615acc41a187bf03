// A whole block of each family, row by row: as quick as stores of one pixel allow. A row's index is that of the row above and the width: a sum, not a product.
#![tactic(auto)]

ghost use Rattle.std.specs.Prelude.{◌≡◌, ◌++◌, ◌+◌, ◌*◌, ◌/◌, ◌≤◌, ◌<◌, length, get_or};
ghost use Rattle.pattern.specs.Pattern.{Shaped, pattern_length, pattern_source};
ghost use Rattle.motion.specs.Motion.{raster_index};
ghost use Rattle.block.specs.Block.{colour_bytes, cell_source, dither_source, stored};
ghost use Rattle.block.specs.Asked.{Sided};
ghost use Rattle.stores.specs.Stores.{first_pixels, further};
ghost use Rattle.paint.specs.Asked.{Square};
ghost use Rattle.rows.specs.Row.{colours, colour, Block, Fixed, Beside, Disjoint, CellBand};

use block::cell_source;
use motion::raster_index;
use paint::{Drawing, Pixel, put, stored_at};
use pattern::Shape;

// Four pixels side by side, from pixel p on.
pub fn put_four<P: Drawing, T: Pixel>(back: &mut [T], p: usize, to: usize, a: T, b: T, c: T, d: T)
    requires { Beside P.plan p 4 (T.numbers back.old) to (λ i. get_or (colours (T.number a) (T.number b) (T.number c) (T.number d)) i 0) }
    ensures { T.numbers back.new ≡ further P.plan 0 (T.numbers back.old) p 4 }
{
    put::<P, T>(back, p, to, a);
    put::<P, T>(back, p + 1, to + 1, b);
    put::<P, T>(back, p + 2, to + 2, c);
    put::<P, T>(back, p + 3, to + 3, d);
}

// Eight pixels side by side, from pixel p on. Nothing is read between the stores, so that the compiler may join them.
pub fn put_eight<P: Drawing, T: Pixel>(
    back: &mut [T],
    p: usize,
    to: usize,
    a: T,
    b: T,
    c: T,
    d: T,
    e: T,
    f: T,
    g: T,
    h: T,
)
    requires { Beside P.plan p 8 (T.numbers back.old) to (λ i. get_or (colours (T.number a) (T.number b) (T.number c) (T.number d) ++ colours (T.number e) (T.number f) (T.number g) (T.number h)) i 0) }
    ensures { T.numbers back.new ≡ further P.plan 0 (T.numbers back.old) p 8 }
{
    put_four::<P, T>(back, p, to, a, b, c, d);
    put_four::<P, T>(back, p + 4, to + 4, e, f, g, h);
}

// Eight pixels side by side, from pixel p on: those from index from on of the picture t, which no store changes.
fn copied_row<P: Drawing, T: Pixel>(t: &[T], from: usize, back: &mut [T], p: usize, to: usize)
    requires { (from + 8 ≤ length t.now) × Beside P.plan p 8 (T.numbers back.old) to (λ i. stored T.DEEP (get_or (T.numbers t.now) (from + i) 0)) }
    ensures { T.numbers back.new ≡ further P.plan 0 (T.numbers back.old) p 8 }
{
    let a = stored_at(t, from);
    let b = stored_at(t, from + 1);
    let c = stored_at(t, from + 2);
    let d = stored_at(t, from + 3);
    let e = stored_at(t, from + 4);
    let f = stored_at(t, from + 5);
    let g = stored_at(t, from + 6);
    let h = stored_at(t, from + 7);
    put_eight::<P, T>(back, p, to, a, b, c, d, e, f, g, h);
}

// The 8x8 at x, y, copied from the one at sx, sy of the picture t, which no store changes.
pub fn whole_copied<P: Drawing, T: Pixel>(
    t: &[T],
    back: &mut [T],
    w: usize,
    x: usize,
    y: usize,
    sx: usize,
    sy: usize,
)
    requires block { Fixed P.plan w x y (λ i. stored T.DEEP (get_or (T.numbers t.now) (raster_index w sx sy i) 0)) }
    requires source { Square w sx sy (length t.now) }
    requires room { Square w x y (length back.old) }
    ensures { T.numbers back.new ≡ first_pixels P.plan 0 (T.numbers back.old) 64 }
{
    let mut from = raster_index(w, sx, sy, 0);
    let mut to = raster_index(w, x, y, 0);
    for r in 0..8 {
        copied_row::<P, T>(t, from, back, 8 * r, to);
        from += w;
        to += w;
    }
}

// Eight pixels side by side, from pixel p on: those from index from on of the picture that is drawn on. No store changes one that is still to be read, so that all may be read before the first store.
fn new_row<P: Drawing, T: Pixel>(back: &mut [T], p: usize, from: usize, to: usize)
    requires { (from + 8 ≤ length back.old) × Beside P.plan p 8 (T.numbers back.old) to (λ i. stored T.DEEP (get_or (T.numbers back.old) (from + i) 0)) }
    ensures { T.numbers back.new ≡ further P.plan 0 (T.numbers back.old) p 8 }
{
    let a = stored_at(back, from);
    let b = stored_at(back, from + 1);
    let c = stored_at(back, from + 2);
    let d = stored_at(back, from + 3);
    let e = stored_at(back, from + 4);
    let f = stored_at(back, from + 5);
    let g = stored_at(back, from + 6);
    let h = stored_at(back, from + 7);
    put_eight::<P, T>(back, p, to, a, b, c, d, e, f, g, h);
}

// The 8x8 at x, y, copied from the one at sx, sy of the picture that is drawn on: no row overlaps the one that it is copied from.
pub fn whole_new<P: Drawing, T: Pixel>(
    back: &mut [T],
    w: usize,
    x: usize,
    y: usize,
    sx: usize,
    sy: usize,
)
    requires block { Block P.plan w x y (λ i b. stored T.DEEP (get_or b (raster_index w sx sy i) 0)) }
    requires source { Square w sx sy (length back.old) }
    requires room { Square w x y (length back.old) }
    requires apart { Disjoint (raster_index w sx sy 0) (raster_index w x y 0) }
    ensures { T.numbers back.new ≡ first_pixels P.plan 0 (T.numbers back.old) 64 }
{
    let mut from = raster_index(w, sx, sy, 0);
    let mut to = raster_index(w, x, y, 0);
    for r in 0..8 {
        new_row::<P, T>(back, 8 * r, from, to);
        from += w;
        to += w;
    }
}

// Colour n of a block's data, as it is stored.
fn colour<T: Pixel>(s: &[u8], n: usize) -> T
    requires { colour_bytes T.DEEP n + T.BYTES ≤ length s.now }
    ensures { T.number result ≡ colour T.DEEP s.now n }
{
    T::colour_at(s, T::BYTES * n)
}

// Code B: eight pixels side by side, from pixel p on: the colours of s from colour p on.
fn raw_row<P: Drawing, T: Pixel>(s: &[u8], back: &mut [T], p: usize, to: usize)
    requires { (colour_bytes T.DEEP (p + 8) ≤ length s.now) × Beside P.plan p 8 (T.numbers back.old) to (λ i. colour T.DEEP s.now (p + i)) }
    ensures { T.numbers back.new ≡ further P.plan 0 (T.numbers back.old) p 8 }
{
    let a: T = colour(s, p);
    let b: T = colour(s, p + 1);
    let c: T = colour(s, p + 2);
    let d: T = colour(s, p + 3);
    let e: T = colour(s, p + 4);
    let f: T = colour(s, p + 5);
    let g: T = colour(s, p + 6);
    let h: T = colour(s, p + 7);
    put_eight::<P, T>(back, p, to, a, b, c, d, e, f, g, h);
}

// Code B: a colour of s for each pixel.
pub fn whole_raw<P: Drawing, T: Pixel>(s: &[u8], back: &mut [T], w: usize, x: usize, y: usize)
    requires block { Fixed P.plan w x y (λ i. colour T.DEEP s.now i) }
    requires there { colour_bytes T.DEEP 64 ≤ length s.now }
    requires room { Square w x y (length back.old) }
    ensures { T.numbers back.new ≡ first_pixels P.plan 0 (T.numbers back.old) 64 }
{
    let mut to = raster_index(w, x, y, 0);
    for r in 0..8 {
        raw_row::<P, T>(s, back, 8 * r, to);
        to += w;
    }
}

// Codes C to E: the colour of pixel i.
fn cell_colour<T: Pixel>(side: usize, s: &[u8], i: usize) -> T
    requires { Sided side × (colour_bytes T.DEEP (8 / side * (8 / side)) ≤ length s.now) × (i < 64) }
    ensures { T.number result ≡ colour T.DEEP s.now (cell_source side i) }
{
    colour(s, cell_source(side, i))
}

// Codes C to E: the rows of pixels that a row of cells gives, from pixel p on. Each of its colours is read once.
fn cells_band<P: Drawing, T: Pixel>(
    s: &[u8],
    back: &mut [T],
    w: usize,
    p: usize,
    side: usize,
    to: usize,
)
    requires { (colour_bytes T.DEEP (8 / side * (8 / side)) ≤ length s.now) × CellBand P.plan (colour T.DEEP s.now) w side p (T.numbers back.old) to }
    ensures { T.numbers back.new ≡ further P.plan 0 (T.numbers back.old) p (8 * side) }
{
    let a: T = cell_colour(side, s, p);
    let b: T = cell_colour(side, s, p + 2);
    let c: T = cell_colour(side, s, p + 4);
    let d: T = cell_colour(side, s, p + 6);
    let mut at = to;
    for r in 0..side {
        put_eight::<P, T>(back, p + 8 * r, at, a, a, b, b, c, c, d, d);
        at += w;
    }
}

// Codes C to E: a colour of s for each cell, side pixels wide and high. A while, since a turn goes on by a row of cells.
pub fn whole_cells<P: Drawing, T: Pixel>(
    s: &[u8],
    back: &mut [T],
    w: usize,
    x: usize,
    y: usize,
    side: usize,
)
    requires block { Fixed P.plan w x y (λ i. colour T.DEEP s.now (cell_source side i)) }
    requires sided { Sided side }
    requires wide { 1 < side }
    requires there { colour_bytes T.DEEP (8 / side * (8 / side)) ≤ length s.now }
    requires room { Square w x y (length back.old) }
    ensures { T.numbers back.new ≡ first_pixels P.plan 0 (T.numbers back.old) 64 }
{
    let mut to = raster_index(w, x, y, 0);
    let mut p = 0;
    while p < 64 {
        cells_band::<P, T>(s, back, w, p, side, to);
        to += side * w;
        p += 8 * side;
    }
}

// Code F of an 8-bit film: the two bytes of s in turn, each read once.
pub fn whole_dither<P: Drawing>(s: &[u8], back: &mut [u8], w: usize, x: usize, y: usize)
    requires block { Fixed P.plan w x y (λ i. get_or s.now (dither_source i) 0) }
    requires there { 2 ≤ length s.now }
    requires room { Square w x y (length back.old) }
    ensures { back.new ≡ first_pixels P.plan 0 back.old 64 }
{
    let mut a = s[0];
    let mut b = s[1];
    let mut to = raster_index(w, x, y, 0);
    for r in 0..8 {
        put_eight::<P, u8>(back, 8 * r, to, a, b, a, b, a, b, a, b);
        let c = a;
        a = b;
        b = c;
        to += w;
    }
}

// Codes 7 to A of an 8-bit film: eight pixels side by side, from pixel p on. The trip count is computed, from the width of a part, so that the loop is unrolled only once that is a constant.
fn pattern_row<P: Drawing>(s: &[u8], back: &mut [u8], p: usize, shape: Shape, to: usize)
    requires { Shaped shape × (pattern_length shape ≤ length s.now) × Beside P.plan p 8 back.old to (λ i. get_or s.now (pattern_source shape s.now (p + i)) 0) }
    ensures { back.new ≡ further P.plan 0 back.old p 8 }
{
    let m = shape.across * (8 / shape.across);
    for j in 0..m {
        let v = s[shape.source(s, p + j)];
        put::<P, u8>(back, p + j, to + j, v);
    }
}

// Codes 7 to A of an 8-bit film: the colours that the fields of s choose.
pub fn whole_pattern<P: Drawing>(
    s: &[u8],
    back: &mut [u8],
    w: usize,
    x: usize,
    y: usize,
    shape: Shape,
)
    requires block { Fixed P.plan w x y (λ i. get_or s.now (pattern_source shape s.now i) 0) }
    requires shaped { Shaped shape }
    requires there { pattern_length shape ≤ length s.now }
    requires room { Square w x y (length back.old) }
    ensures { back.new ≡ first_pixels P.plan 0 back.old 64 }
{
    let mut to = raster_index(w, x, y, 0);
    for r in 0..8 {
        pattern_row::<P>(s, back, 8 * r, shape, to);
        to += w;
    }
}
