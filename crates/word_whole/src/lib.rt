// A whole block of any code of a film with true colour: its 64 pixels, and the place behind it.
#![tactic(auto)]

ghost use Rattle.std.specs.Prelude.{◌≡◌, true, ℕ, ◌+◌, length};
ghost use Rattle.motion.specs.Motion.{Short};
ghost use Rattle.stores.specs.Stores.{first_pixels};
ghost use Rattle.paint.specs.Value.{word_plan};
ghost use Rattle.paint.specs.Asked.{WordCanvas, WordDrawable};
ghost use Rattle.word_whole.specs.Older.{is_older, older_picture, older_vector};

use block::copied_vector;
use motion::Vector;
use paint::{Drawing, pass_block};
use pattern::{form_of_7, form_of_8, form_of_9, form_of_a};
use rows::{whole_cells, whole_raw};
use std::marker::Brand;
use whole::{copied_by, new_by};
use word_patterns::word_form;

// The older picture that a block is copied from: the last for codes 0, 4 and 5, else the oldest. Callers lend both for one lifetime.
#[tactic(auto, unfolding(crate::specs::Older::older_picture))]
fn older_of<'a>(code: u8, last: &'a [u16], oldest: &'a [u16]) -> &'a [u16]
    ensures { result.now ≡ older_picture last.now oldest.now code }
{
    if code == 0 || code / 2 == 2 {
        last
    } else {
        oldest
    }
}

// The vector that it is copied by: codes 0, 1 and F copy the same block. Joined by `||` the tests would cost up to a seventh of a copied block, as in `is_older`.
#[tactic(auto, unfolding(crate::specs::Older::older_vector))]
fn older_vector(code: u8, s: &[u8], o: &[u8]) -> Vector
    ensures { (result ≡ older_vector code s.now o.now) × Short result }
{
    if code < 2 {
        return Vector {
            right: 0,
            left: 0,
            down: 0,
            up: 0,
        };
    }
    if 6 < code {
        return Vector {
            right: 0,
            left: 0,
            down: 0,
            up: 0,
        };
    }
    copied_vector(true, code, s, o)
}

// Whether a block is copied from one of the two older pictures: codes 0 to 6 and F, but for 3, which copies the new one.
#[tactic(auto, unfolding(crate::specs::Older::is_older))]
fn is_older(code: u8) -> bool
    ensures { result ≡ is_older code }
{
    if code == 3 {
        return false;
    }
    if code == 15 {
        return true;
    }
    code < 7
}

// The 64 pixels of a block of any code. Every copy of an older picture is one call, so that the compiler puts it in here.
fn paint_pixels<'a, P: Drawing>(
    code: u8,
    s: &[u8],
    o: &[u8],
    last: &'a [u16],
    oldest: &'a [u16],
    new: &mut [u16],
    w: usize,
    x: usize,
    y: usize,
)
    requires plan { P.plan ≡ word_plan code s.now o.now last.now oldest.now w x y }
    requires asked { (h : ℕ) × WordDrawable code s.now o.now w h x y 64 × WordCanvas w h x y (length last.now) (length new.old) (length oldest.now) }
    ensures { new.new ≡ first_pixels P.plan 0 new.old 64 }
{
    if is_older(code) {
        return copied_by::<P, u16>(
            older_of(code, last, oldest),
            new,
            w,
            x,
            y,
            older_vector(code, s, o),
        );
    }
    match code {
        7 => word_form::<P>(s, new, w, x, y, form_of_7(true, s)),
        8 => word_form::<P>(s, new, w, x, y, form_of_8(true, s)),
        9 => word_form::<P>(s, new, w, x, y, form_of_9(true, s)),
        10 => word_form::<P>(s, new, w, x, y, form_of_a(true, s)),
        11 => whole_raw::<P, u16>(s, new, w, x, y),
        12 => whole_cells::<P, u16>(s, new, w, x, y, 2),
        13 => whole_cells::<P, u16>(s, new, w, x, y, 4),
        14 => whole_cells::<P, u16>(s, new, w, x, y, 8),
        _ => new_by::<P, u16>(new, w, x, y, copied_vector(true, code, s, o)),
    }
}

// Its pixels, and then the place behind it.
fn paint_block<'a, P: Drawing>(
    code: u8,
    s: &[u8],
    o: &[u8],
    last: &'a [u16],
    oldest: &'a [u16],
    new: &mut [u16],
    w: usize,
    x: usize,
    y: usize,
    place: &mut usize,
    next: usize,
)
    requires plan { P.plan ≡ word_plan code s.now o.now last.now oldest.now w x y }
    requires asked { (h : ℕ) × WordDrawable code s.now o.now w h x y 64 × WordCanvas w h x y (length last.now) (length new.old) (length oldest.now) }
    requires behind { next ≡ place.old + 1 }
    ensures pixels { new.new ≡ first_pixels P.plan 0 new.old 64 }
    ensures place { place.new ≡ next }
{
    paint_pixels::<P>(code, s, o, last, oldest, new, w, x, y);
    pass_block::<P, u16>(new, place, next);
}

// The 64 pixels of the block at x, y, whose data is s and o. The place stays: `paint_word_and_pass` moves it, too.
pub fn paint_word_whole<'a>(
    code: u8,
    s: &[u8],
    o: &[u8],
    last: &'a [u16],
    oldest: &'a [u16],
    new: &mut [u16],
    w: usize,
    x: usize,
    y: usize,
)
    requires { (h : ℕ) × WordDrawable code s.now o.now w h x y 64 × WordCanvas w h x y (length last.now) (length new.old) (length oldest.now) }
    ensures { new.new ≡ first_pixels (word_plan code s.now o.now last.now oldest.now w x y) 0 new.old 64 }
{
    paint_pixels::<Brand>(code, s, o, last, oldest, new, w, x, y)
}

// The stores of the block at x, y, whose data is s and o: its 64 pixels, and then the place behind it, the next block number.
pub fn paint_word_and_pass<'a>(
    code: u8,
    s: &[u8],
    o: &[u8],
    last: &'a [u16],
    oldest: &'a [u16],
    new: &mut [u16],
    w: usize,
    x: usize,
    y: usize,
    place: &mut usize,
    next: usize,
)
    requires asked { (h : ℕ) × WordDrawable code s.now o.now w h x y 64 × WordCanvas w h x y (length last.now) (length new.old) (length oldest.now) }
    requires behind { next ≡ place.old + 1 }
    ensures pixels { new.new ≡ first_pixels (word_plan code s.now o.now last.now oldest.now w x y) 0 new.old 64 }
    ensures place { place.new ≡ next }
{
    paint_block::<Brand>(code, s, o, last, oldest, new, w, x, y, place, next)
}
