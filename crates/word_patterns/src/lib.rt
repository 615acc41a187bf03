// A whole patterned block of a film with true colour, in bands of rows: as quick as stores of one word allow.
#![tactic(auto)]

ghost use Rattle.std.specs.Prelude.{◌≡◌, ◌⊎◌, ◌++◌, ◌+◌, ◌*◌, ◌/◌, ◌%◌, ◌^◌, ◌≤◌, ◌<◌, length, get_or};
ghost use Rattle.pattern.specs.declared.Form.TheVariants.{Four1x1, Four2x1};
ghost use Rattle.stores.specs.Stores.{first_pixels, further};
ghost use Rattle.paint.specs.Asked.{Square};
ghost use Rattle.rows.specs.Row.{colours};
ghost use Rattle.word_fields.specs.Layout.{layout, row_colour, Coloured};
ghost use Rattle.word_patterns.specs.Asked.{AlikeRows, Patterned, FormBand};

use motion::raster_index;
use paint::Drawing;
use pattern::Form;
use rows::put_eight;
use word_fields::{Colours, Four, Layout, Two, layout_of, number_of};

// The sixteen bits of a number from a bit on.
fn low_word(v: usize, bit: usize) -> u16
    requires { bit < 64 }
    ensures { result ≡ v / 2 ^ bit % 65536 }
{
    ((v >> bit) % 65536) as u16
}

// One row or two that are alike, from pixel p on.
fn put_rows<P: Drawing>(
    new: &mut [u16],
    w: usize,
    p: usize,
    high: usize,
    to: usize,
    a: u16,
    b: u16,
    c: u16,
    d: u16,
    e: u16,
    f: u16,
    g: u16,
    h: u16,
)
    requires { AlikeRows P.plan w p high new.old to (λ i. get_or (colours a b c d ++ colours e f g h) i 0) }
    ensures { new.new ≡ further P.plan 0 new.old p (8 * high) }
{
    put_eight::<P, u16>(new, p, to, a, b, c, d, e, f, g, h);
    if high == 2 {
        put_eight::<P, u16>(new, p + 8, to + w, a, b, c, d, e, f, g, h);
    }
}

// Rows whose cells are one pixel wide. left and right are the fields of a row's halves, l and r the colours that they choose from.
fn narrow_rows<P: Drawing, C: Colours>(
    new: &mut [u16],
    w: usize,
    p: usize,
    high: usize,
    to: usize,
    left: u16,
    right: u16,
    l: C,
    r: C,
)
    requires { AlikeRows P.plan w p high new.old to (row_colour C.BITS 1 left right (C.colours l) (C.colours r)) }
    ensures { new.new ≡ further P.plan 0 new.old p (8 * high) }
{
    let a = l.chosen(left);
    let b = l.chosen(left >> C::BITS);
    let c = l.chosen(left >> (2 * C::BITS));
    let d = l.chosen(left >> (3 * C::BITS));
    let e = r.chosen(right);
    let f = r.chosen(right >> C::BITS);
    let g = r.chosen(right >> (2 * C::BITS));
    let h = r.chosen(right >> (3 * C::BITS));
    put_rows::<P>(new, w, p, high, to, a, b, c, d, e, f, g, h);
}

// The same where the cells are two pixels wide.
fn wide_rows<P: Drawing, C: Colours>(
    new: &mut [u16],
    w: usize,
    p: usize,
    high: usize,
    to: usize,
    left: u16,
    right: u16,
    l: C,
    r: C,
)
    requires { AlikeRows P.plan w p high new.old to (row_colour C.BITS 2 left right (C.colours l) (C.colours r)) }
    ensures { new.new ≡ further P.plan 0 new.old p (8 * high) }
{
    let a = l.chosen(left);
    let b = l.chosen(left >> C::BITS);
    let c = r.chosen(right);
    let d = r.chosen(right >> C::BITS);
    put_rows::<P>(new, w, p, high, to, a, a, b, b, c, c, d, d);
}

// Rows whose cells are wide pixels wide.
fn cells<P: Drawing, C: Colours>(
    new: &mut [u16],
    w: usize,
    p: usize,
    wide: usize,
    high: usize,
    to: usize,
    left: u16,
    right: u16,
    l: C,
    r: C,
)
    requires rows { AlikeRows P.plan w p high new.old to (row_colour C.BITS wide left right (C.colours l) (C.colours r)) }
    requires width { (wide ≡ 1) ⊎ (wide ≡ 2) }
    ensures { new.new ≡ further P.plan 0 new.old p (8 * high) }
{
    if wide == 2 {
        wide_rows::<P, C>(new, w, p, high, to, left, right, l, r)
    } else {
        narrow_rows::<P, C>(new, w, p, high, to, left, right, l, r)
    }
}

// A band: the colours and the fields are read once, and then every row is stored. The fields are shifted by an amount that the compiler does not know, so that it tests all
// columns alike, and joins them. A while, since a turn goes on by a row of cells.
fn band<P: Drawing, C: Colours>(
    s: &[u8],
    new: &mut [u16],
    w: usize,
    l: Layout,
    p: usize,
    part: usize,
    fields: usize,
    to: usize,
)
    requires band { FormBand P.plan s.now w l p part fields new.old to }
    requires bits { l.bits ≡ C.BITS }
    ensures { new.new ≡ further P.plan 0 new.old p (8 * l.rows) }
{
    let near = C::read(s, part);
    let far = C::read(s, part + l.beyond);
    let start = C::BYTES + fields;
    let v = number_of(s, start, l.count);
    let u = number_of(s, start + l.beyond, l.count) >> l.half;
    let mut at = to;
    let mut bit = 0;
    let mut i = p;
    while i < p + 8 * l.rows {
        let left = low_word(v, bit);
        let right = low_word(u, bit);
        cells::<P, C>(new, w, i, l.wide, l.high, at, left, right, near, far);
        at += l.high * w;
        bit += l.stride;
        i += 8 * l.high;
    }
}

// A band of a form.
fn pattern_band<P: Drawing>(
    s: &[u8],
    new: &mut [u16],
    w: usize,
    l: Layout,
    p: usize,
    part: usize,
    fields: usize,
    to: usize,
)
    requires { FormBand P.plan s.now w l p part fields new.old to }
    ensures { new.new ≡ further P.plan 0 new.old p (8 * l.rows) }
{
    if l.bits == 1 {
        band::<P, Two>(s, new, w, l, p, part, fields, to)
    } else {
        band::<P, Four>(s, new, w, l, p, part, fields, to)
    }
}

// A block of any form, by the numbers of its layout. They are not literals: there is one loop for all forms of two colours and one for all of four, each called once, so that the
// compiler puts it in here. A while, since a turn goes on by a band. But for Four1x1, which has a function of its own, bands lie as far apart as their fields: one number for
// both spares stack.
fn banded_form<P: Drawing>(s: &[u8], new: &mut [u16], w: usize, x: usize, y: usize, form: Form)
    requires other { form ≡ Four1x1 → ⊥ }
    requires block { Patterned P.plan s.now form w x y }
    requires room { Square w x y (length new.old) }
    ensures { new.new ≡ first_pixels P.plan 0 new.old 64 }
{
    let l = layout_of(form);
    let mut to = raster_index(w, x, y, 0);
    let mut part = 0;
    let mut p = 0;
    while p < 64 {
        pattern_band::<P>(s, new, w, l, p, part, part, to);
        to += l.rows * w;
        part += l.part;
        p += 8 * l.rows;
    }
}

// A block of four colours whose cells are 2x1. Its numbers are literals: the compiler then unrolls the rows, and needs a fifth less time than by the layout.
fn four_2x1<P: Drawing>(s: &[u8], new: &mut [u16], w: usize, x: usize, y: usize)
    requires block { Patterned P.plan s.now Four2x1 w x y }
    requires room { Square w x y (length new.old) }
    ensures { new.new ≡ first_pixels P.plan 0 new.old 64 }
{
    let l = Four::read(s, 0);
    let v = number_of(s, 8, 8);
    let mut at = raster_index(w, x, y, 0);
    for r in 0..8 {
        let k = low_word(v, 8 * r);
        wide_rows::<P, Four>(new, w, 8 * r, 1, at, k, k / 16, l, l);
        at += w;
    }
}

// A band of a block of four colours whose cells are 1x1.
fn four_1x1_band<P: Drawing>(
    s: &[u8],
    new: &mut [u16],
    w: usize,
    p: usize,
    fields: usize,
    to: usize,
    l: Four,
)
    requires band { FormBand P.plan s.now w (layout Four1x1) p 0 fields new.old to }
    requires colours { Coloured 2 s.now 0 (colours l.a l.b l.c l.d) }
    ensures { new.new ≡ further P.plan 0 new.old p 32 }
{
    let v = number_of(s, 8 + fields, 8);
    let u = v >> 8;
    let mut at = to;
    for r in 0..4 {
        let left = low_word(v, 16 * r);
        let right = low_word(u, 16 * r);
        narrow_rows::<P, Four>(new, w, p + 8 * r, 1, at, left, right, l, l);
        at += w;
    }
}

// A block of four colours whose cells are 1x1, by literals too. Its fields are two numbers, one a band; the colours are read once.
fn four_1x1<P: Drawing>(s: &[u8], new: &mut [u16], w: usize, x: usize, y: usize)
    requires block { Patterned P.plan s.now Four1x1 w x y }
    requires room { Square w x y (length new.old) }
    ensures { new.new ≡ first_pixels P.plan 0 new.old 64 }
{
    let l = Four::read(s, 0);
    let mut to = raster_index(w, x, y, 0);
    for b in 0..2 {
        four_1x1_band::<P>(s, new, w, 32 * b, 8 * b, to, l);
        to += 4 * w;
    }
}

// A patterned block.
pub fn word_form<P: Drawing>(s: &[u8], new: &mut [u16], w: usize, x: usize, y: usize, form: Form)
    requires block { Patterned P.plan s.now form w x y }
    requires room { Square w x y (length new.old) }
    ensures { new.new ≡ first_pixels P.plan 0 new.old 64 }
{
    match form {
        Form::Four2x1 => four_2x1::<P>(s, new, w, x, y),
        Form::Four1x1 => four_1x1::<P>(s, new, w, x, y),
        _ => banded_form::<P>(s, new, w, x, y, form),
    }
}
