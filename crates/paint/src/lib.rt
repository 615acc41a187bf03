// The stores: one pixel, the place, and the first n pixels of a block, in order.
#![tactic(auto)]

ghost use Rattle.std.specs.Prelude.{◌≡◌, List, Bool, true, false, ℕ, ◌+◌, ◌≤◌, ◌<◌, cond, length, get_or, set};
ghost use Rattle.block.specs.Block.{kind_of, colour_at, stored, pictured, fetched};
ghost use Rattle.block.specs.Asked.{Among};
ghost use Rattle.pattern.specs.Form.{bytes};
ghost use Rattle.stores.specs.Stores.{Plan, first_pixels};
ghost use Rattle.stores.specs.Loop.{Begun, Next};
ghost use Rattle.paint.specs.Value.{older, block_plan, plan_of, word_plan, no_plan};
ghost use Rattle.paint.specs.Asked.{Canvas, WordCanvas, Drawable, ByteDrawable, WordDrawable};
ghost use Rattle.paint.specs.Pixel.{Laws, plain};
ghost use Rattle.std.proofs.Common.{zero-le, refl};

use block::{Picture, Source};
use motion::raster_index;
use pixel::source_of;
use std::marker::Brand;

// What a block stores: the list that its functions keep to. No code reads it; the call that draws the block picks it.
pub trait Drawing {
    ghost plan: { Plan };

    ghost few: { (k : ℕ) → plan.size k ≤ 64 };
}

impl Drawing for Brand {
    ghost plan = { no_plan };

    ghost few = { λ k. zero-le };
}

// A pixel of a picture: a byte, or a word of a film with true colour.
pub trait Pixel: Copy {
    const DEEP: bool;
    // The bytes of a colour in a block's data.
    const BYTES: usize;

    ghost DEEP: { Bool };

    ghost BYTES: { ℕ };

    ghost number: { Self → ℕ };

    ghost numbers: { List Self → List ℕ };

    // The pixel as it is stored.
    fn stored(self) -> Self
        ensures { number result ≡ stored DEEP (number self) };

    // The colour that begins at byte j, as it is stored.
    fn colour_at(s: &[u8], j: usize) -> Self
        requires { j + BYTES ≤ length s.now }
        ensures { number result ≡ stored DEEP (colour_at DEEP s.now j) };

    // The picture two frames old: in an 8-bit film the one that is drawn on.
    fn older<'a>(oldest: &'a [Self], new: &'a [Self]) -> &'a [Self]
        ensures { result.now ≡ cond DEEP oldest.now new.now };

    ghost laws: { Laws number numbers };

    ghost wide: { BYTES ≡ bytes DEEP };
}

impl Pixel for u8 {
    const DEEP: bool = false;

    const BYTES: usize = 1;

    ghost DEEP = { false };

    ghost BYTES = { 1 };

    ghost number = { λ v. v };

    ghost numbers = { λ xs. xs };

    fn stored(self) -> u8 {
        self
    }

    fn colour_at(s: &[u8], j: usize) -> u8 {
        s[j]
    }

    fn older<'a>(_oldest: &'a [u8], new: &'a [u8]) -> &'a [u8] {
        new
    }

    ghost laws = { plain };

    ghost wide = { refl };
}

// The number that a byte is.
pub fn widened(b: u8) -> u16
    ensures { (result ≡ b) × (result < 256) }
{
    b as u16
}

// A word's high bit is cleared where it is stored.
impl Pixel for u16 {
    const DEEP: bool = true;

    const BYTES: usize = 2;

    ghost DEEP = { true };

    ghost BYTES = { 2 };

    ghost number = { λ v. v };

    ghost numbers = { λ xs. xs };

    fn stored(self) -> u16 {
        self % 32768
    }

    #[tactic(auto, unfolding(words::specs::Word::word_at))]
    // With a remainder in place of the difference the compiler would clear the bit in the high byte, and read both bytes apart.
    fn colour_at(s: &[u8], j: usize) -> u16 {
        let v = widened(s[j]) + 256 * widened(s[j + 1]);
        v - v / 32768 * 32768
    }

    fn older<'a>(oldest: &'a [u16], _new: &'a [u16]) -> &'a [u16] {
        oldest
    }

    ghost laws = { plain };

    ghost wide = { refl };
}

// The one store of a pixel: pixel i of the block, and those before it stand.
pub fn put<P: Drawing, T: Pixel>(back: &mut [T], i: usize, at: usize, v: T)
    requires { Next P.plan 0 i (T.numbers back.old) at (T.number v) }
    ensures { T.numbers back.new ≡ set (T.numbers back.old) at (T.number v) }
{
    back[at] = v;
}

// The one store of the place.
pub fn set_place(place: &mut usize, k: usize)
    ensures { place.new ≡ k }
{
    *place = k;
}

// The place behind a block, the next block number: all pixels of the block stand.
pub fn pass_block<P: Drawing, T: Pixel>(back: &[T], place: &mut usize, k: usize)
    requires { Begun P.plan 0 (P.plan.size 0) (T.numbers back.now) × (k ≡ place.old + 1) }
    ensures { place.new ≡ k }
{
    set_place(place, k);
}

// Pixel j of the picture t, as it is stored.
pub fn stored_at<T: Pixel>(t: &[T], j: usize) -> T
    requires { j < length t.now }
    ensures { T.number result ≡ stored T.DEEP (get_or (T.numbers t.now) j 0) }
{
    t[j].stored()
}

// Pixel j of one of the pictures, as it is stored.
fn pixel_of<T: Pixel>(picture: Picture, last: &[T], new: &[T], oldest: &[T], j: usize) -> T
    requires { j < pictured picture (length last.now) (length new.now) (length oldest.now) }
    ensures { T.number result ≡ stored T.DEEP (get_or (pictured picture (T.numbers last.now) (T.numbers new.now) (T.numbers oldest.now)) j 0) }
{
    match picture {
        Picture::Last => stored_at(last, j),
        Picture::New => stored_at(new, j),
        Picture::Oldest => stored_at(oldest, j),
    }
}

// What stands at a source, as it is stored.
#[tactic(auto, unfolding(block::specs::Block::fetched))]
pub fn fetch<T: Pixel>(from: Source, s: &[u8], last: &[T], new: &[T], oldest: &[T]) -> T
    requires { Among T.DEEP from (length s.now) (length last.now) (length new.now) (length oldest.now) }
    ensures { T.number result ≡ fetched T.DEEP from s.now (T.numbers last.now) (T.numbers new.now) (T.numbers oldest.now) }
{
    match from {
        Source::Data(j) => T::colour_at(s, j),
        Source::Copied(picture, j) => pixel_of(picture, last, new, oldest, j),
    }
}

// The first n pixels of the block at x, y, whose data is s and o, each read from its source as the stores before it left it: the block in which a call stops.
fn first_part<P: Drawing, T: Pixel>(
    code: u8,
    s: &[u8],
    o: &[u8],
    last: &[T],
    oldest: &[T],
    new: &mut [T],
    w: usize,
    h: usize,
    x: usize,
    y: usize,
    n: usize,
)
    requires plan { P.plan ≡ block_plan T.DEEP (kind_of T.DEEP code s.now o.now) s.now w x y (older (T.numbers last.now) (T.numbers oldest.now)) }
    requires block { Drawable T.DEEP code s.now o.now w h x y n }
    requires rooms { WordCanvas w h x y (length last.now) (length new.old) (cond T.DEEP (length oldest.now) (length new.old)) }
    ensures { T.numbers new.new ≡ first_pixels P.plan 0 (T.numbers new.old) n }
{
    for i in 0..n {
        let from = source_of(T::DEEP, code, s, o, w, h, x, y, i);
        let v = fetch(from, s, last, new, T::older(oldest, new));
        put::<P, T>(new, i, raster_index(w, x, y, i), v);
    }
}

// The same in an 8-bit film.
pub fn paint_part(
    code: u8,
    s: &[u8],
    front: &[u8],
    back: &mut [u8],
    w: usize,
    h: usize,
    x: usize,
    y: usize,
    n: usize,
)
    requires { ByteDrawable code s.now w h x y n × Canvas w h x y (length front.now) (length back.old) }
    ensures { back.new ≡ first_pixels (plan_of code s.now front.now w x y) 0 back.old n }
{
    first_part::<Brand, u8>(code, s, &s[..0], front, &front[..0], back, w, h, x, y, n)
}

// The same in a film with true colour.
pub fn paint_word_part(
    code: u8,
    s: &[u8],
    o: &[u8],
    last: &[u16],
    oldest: &[u16],
    new: &mut [u16],
    w: usize,
    h: usize,
    x: usize,
    y: usize,
    n: usize,
)
    requires { WordDrawable code s.now o.now w h x y n × WordCanvas w h x y (length last.now) (length new.old) (length oldest.now) }
    ensures { new.new ≡ first_pixels (word_plan code s.now o.now last.now oldest.now w x y) 0 new.old n }
{
    first_part::<Brand, u16>(code, s, o, last, oldest, new, w, h, x, y, n)
}
