// A whole block of any code of an 8-bit film: all the pixels that it stores.
#![tactic(auto)]

ghost use Rattle.std.specs.Prelude.{◌≡◌, false, ℕ, ◌+◌, ◌≤◌, ◌<◌, length, get_or};
ghost use Rattle.pattern.specs.Form.{shape};
ghost use Rattle.pattern.specs.Pattern.{pattern_length, pattern_source};
ghost use Rattle.motion.specs.Motion.{raster_index, copied_index};
ghost use Rattle.block.specs.Block.{byte_kind, stored};
ghost use Rattle.stores.specs.Stores.{first_pixels};
ghost use Rattle.paint.specs.Value.{pixel_count, plan_of};
ghost use Rattle.paint.specs.Asked.{Square, Canvas, ByteDrawable};
ghost use Rattle.rows.specs.Row.{Block, Fixed, Disjoint};
ghost use Rattle.whole.specs.Asked.{Reached};

use block::copied_vector;
use motion::Vector;
use paint::{Drawing, Pixel, pass_block};
use pattern::{Form, form_of_7, form_of_8, form_of_9, form_of_a, shape_of};
use rows::{whole_cells, whole_copied, whole_dither, whole_new, whole_pattern, whole_raw};
use std::marker::Brand;

// A copy of the 8x8 that v points at of the picture t, which no store changes.
#[tactic(auto, unfolding(motion::specs::Motion::copied_index))]
pub fn copied_by<P: Drawing, T: Pixel>(
    t: &[T],
    back: &mut [T],
    w: usize,
    x: usize,
    y: usize,
    v: Vector,
)
    requires block { Fixed P.plan w x y (λ i. stored T.DEEP (get_or (T.numbers t.now) (copied_index v w x y i) 0)) }
    requires reached { Reached v w x y (length t.now) (length back.old) }
    ensures { T.numbers back.new ≡ first_pixels P.plan 0 (T.numbers back.old) 64 }
{
    whole_copied::<P, T>(t, back, w, x, y, x + v.right - v.left, y + v.down - v.up)
}

// A copy of the 8x8 that v points at of the picture that is drawn on.
#[tactic(auto, unfolding(motion::specs::Motion::copied_index))]
pub fn new_by<P: Drawing, T: Pixel>(back: &mut [T], w: usize, x: usize, y: usize, v: Vector)
    requires block { Block P.plan w x y (λ i b. stored T.DEEP (get_or b (copied_index v w x y i) 0)) }
    requires reached { Reached v w x y (length back.old) (length back.old) }
    requires apart { Disjoint (copied_index v w x y 0) (raster_index w x y 0) }
    ensures { T.numbers back.new ≡ first_pixels P.plan 0 (T.numbers back.old) 64 }
{
    whole_new::<P, T>(back, w, x, y, x + v.right - v.left, y + v.down - v.up)
}

// A block of code 2 to 5: a branch with two ways, since four are mispredicted more often.
fn copy_by<P: Drawing>(
    code: u8,
    s: &[u8],
    front: &[u8],
    back: &mut [u8],
    w: usize,
    x: usize,
    y: usize,
)
    requires plan { P.plan ≡ plan_of code s.now front.now w x y }
    requires asked { (h : ℕ) × ByteDrawable code s.now w h x y 64 × Canvas w h x y (length front.now) (length back.old) }
    requires copied { (1 < code) × (code < 6) }
    ensures { back.new ≡ first_pixels P.plan 0 back.old 64 }
{
    let v = copied_vector(false, code, s, s);
    if code < 4 {
        new_by::<P, u8>(back, w, x, y, v)
    } else {
        copied_by::<P, u8>(front, back, w, x, y, v)
    }
}

// A patterned block. Each form is named again, so that its numbers are known and it has a loop of its own.
fn whole_form<P: Drawing>(s: &[u8], back: &mut [u8], w: usize, x: usize, y: usize, form: Form)
    requires block { Fixed P.plan w x y (λ i. get_or s.now (pattern_source (shape false form) s.now i) 0) }
    requires there { pattern_length (shape false form) ≤ length s.now }
    requires room { Square w x y (length back.old) }
    ensures { back.new ≡ first_pixels P.plan 0 back.old 64 }
{
    match form {
        Form::Two1x1 => whole_pattern::<P>(s, back, w, x, y, shape_of(false, Form::Two1x1)),
        Form::Two2x2 => whole_pattern::<P>(s, back, w, x, y, shape_of(false, Form::Two2x2)),
        Form::TwoQuarters => whole_pattern::<P>(
            s,
            back,
            w,
            x,
            y,
            shape_of(false, Form::TwoQuarters),
        ),
        Form::TwoLeftRight => whole_pattern::<P>(
            s,
            back,
            w,
            x,
            y,
            shape_of(false, Form::TwoLeftRight),
        ),
        Form::TwoTopBottom => whole_pattern::<P>(
            s,
            back,
            w,
            x,
            y,
            shape_of(false, Form::TwoTopBottom),
        ),
        Form::Four1x1 => whole_pattern::<P>(s, back, w, x, y, shape_of(false, Form::Four1x1)),
        Form::Four2x2 => whole_pattern::<P>(s, back, w, x, y, shape_of(false, Form::Four2x2)),
        Form::Four2x1 => whole_pattern::<P>(s, back, w, x, y, shape_of(false, Form::Four2x1)),
        Form::Four1x2 => whole_pattern::<P>(s, back, w, x, y, shape_of(false, Form::Four1x2)),
        Form::FourQuarters => whole_pattern::<P>(
            s,
            back,
            w,
            x,
            y,
            shape_of(false, Form::FourQuarters),
        ),
        Form::FourLeftRight => whole_pattern::<P>(
            s,
            back,
            w,
            x,
            y,
            shape_of(false, Form::FourLeftRight),
        ),
        Form::FourTopBottom => whole_pattern::<P>(
            s,
            back,
            w,
            x,
            y,
            shape_of(false, Form::FourTopBottom),
        ),
    }
}

// The 64 pixels of a block of any code but 1, which is not met here.
fn paint_all<P: Drawing>(
    code: u8,
    s: &[u8],
    front: &[u8],
    back: &mut [u8],
    w: usize,
    x: usize,
    y: usize,
)
    requires plan { P.plan ≡ plan_of code s.now front.now w x y }
    requires asked { (h : ℕ) × ByteDrawable code s.now w h x y 64 × Canvas w h x y (length front.now) (length back.old) }
    ensures { back.new ≡ first_pixels P.plan 0 back.old 64 }
{
    if code < 2 {
        return whole_copied::<P, u8>(front, back, w, x, y, x, y);
    }
    if code < 6 {
        return copy_by::<P>(code, s, front, back, w, x, y);
    }
    match code {
        7 => whole_form::<P>(s, back, w, x, y, form_of_7(false, s)),
        8 => whole_form::<P>(s, back, w, x, y, form_of_8(false, s)),
        9 => whole_form::<P>(s, back, w, x, y, form_of_9(false, s)),
        10 => whole_form::<P>(s, back, w, x, y, form_of_a(false, s)),
        11 => whole_raw::<P, u8>(s, back, w, x, y),
        12 => whole_cells::<P, u8>(s, back, w, x, y, 2),
        13 => whole_cells::<P, u8>(s, back, w, x, y, 4),
        14 => whole_cells::<P, u8>(s, back, w, x, y, 8),
        15 => whole_dither::<P>(s, back, w, x, y),
        _ => {}
    }
}

// The pixels of a block of any code.
fn paint_pixels<P: Drawing>(
    code: u8,
    s: &[u8],
    front: &[u8],
    back: &mut [u8],
    w: usize,
    x: usize,
    y: usize,
)
    requires plan { P.plan ≡ plan_of code s.now front.now w x y }
    requires asked { (h : ℕ) × ByteDrawable code s.now w h x y (pixel_count (byte_kind code s.now)) × Canvas w h x y (length front.now) (length back.old) }
    ensures { back.new ≡ first_pixels P.plan 0 back.old (P.plan.size 0) }
{
    if code == 1 {
        return;
    }
    paint_all::<P>(code, s, front, back, w, x, y)
}

// Its pixels, and then the place behind it.
fn paint_block<P: Drawing>(
    code: u8,
    s: &[u8],
    front: &[u8],
    back: &mut [u8],
    w: usize,
    x: usize,
    y: usize,
    place: &mut usize,
    next: usize,
)
    requires plan { P.plan ≡ plan_of code s.now front.now w x y }
    requires asked { (h : ℕ) × ByteDrawable code s.now w h x y (pixel_count (byte_kind code s.now)) × Canvas w h x y (length front.now) (length back.old) }
    requires behind { next ≡ place.old + 1 }
    ensures pixels { back.new ≡ first_pixels P.plan 0 back.old (P.plan.size 0) }
    ensures place { place.new ≡ next }
{
    paint_pixels::<P>(code, s, front, back, w, x, y);
    pass_block::<P, u8>(back, place, next);
}

// The pixels that the block at x, y stores, whose data is s. The place stays: `paint_and_pass` moves it, too.
pub fn paint_whole(code: u8, s: &[u8], front: &[u8], back: &mut [u8], w: usize, x: usize, y: usize)
    requires { (h : ℕ) × ByteDrawable code s.now w h x y (pixel_count (byte_kind code s.now)) × Canvas w h x y (length front.now) (length back.old) }
    ensures { back.new ≡ first_pixels (plan_of code s.now front.now w x y) 0 back.old (pixel_count (byte_kind code s.now)) }
{
    paint_pixels::<Brand>(code, s, front, back, w, x, y)
}

// The stores of the block at x, y, whose data is s: all its pixels, and then the place behind it, the next block number.
pub fn paint_and_pass(
    code: u8,
    s: &[u8],
    front: &[u8],
    back: &mut [u8],
    w: usize,
    x: usize,
    y: usize,
    place: &mut usize,
    next: usize,
)
    requires asked { (h : ℕ) × ByteDrawable code s.now w h x y (pixel_count (byte_kind code s.now)) × Canvas w h x y (length front.now) (length back.old) }
    requires behind { next ≡ place.old + 1 }
    ensures pixels { back.new ≡ first_pixels (plan_of code s.now front.now w x y) 0 back.old (pixel_count (byte_kind code s.now)) }
    ensures place { place.new ≡ next }
{
    paint_block::<Brand>(code, s, front, back, w, x, y, place, next)
}
