// The source of each pixel of a block, in films of either kind.
#![tactic(auto)]

ghost use Rattle.std.specs.Prelude.{◌≡◌, List, ℕ, ◌≤◌, ◌<◌, length};
ghost use Rattle.pattern.specs.Form.{shape};
ghost use Rattle.pattern.specs.Pattern.{pattern_length, pattern_source};
ghost use Rattle.motion.specs.Motion.{Inside};
ghost use Rattle.block.specs.Block.{kind_of, colour_bytes, source};
ghost use Rattle.block.specs.Asked.{Readable};

use block::{Picture, Source, cell_source, copied_vector, dither_source};
use motion::{copied_index, raster_index};
use pattern::{Form, form_of_7, form_of_8, form_of_9, form_of_a, shape_of};

// The first byte of a patterned block's data s that gives pixel i. An arm a form, so that its numbers are literals.
fn form_source(deep: bool, form: Form, s: &[u8], i: usize) -> usize
    requires { (pattern_length (shape deep form) ≤ length s.now) × (i < 64) }
    ensures { result ≡ pattern_source (shape deep form) s.now i }
{
    match form {
        Form::Two1x1 => shape_of(deep, Form::Two1x1).source(s, i),
        Form::Two2x2 => shape_of(deep, Form::Two2x2).source(s, i),
        Form::TwoQuarters => shape_of(deep, Form::TwoQuarters).source(s, i),
        Form::TwoLeftRight => shape_of(deep, Form::TwoLeftRight).source(s, i),
        Form::TwoTopBottom => shape_of(deep, Form::TwoTopBottom).source(s, i),
        Form::Four1x1 => shape_of(deep, Form::Four1x1).source(s, i),
        Form::Four2x2 => shape_of(deep, Form::Four2x2).source(s, i),
        Form::Four2x1 => shape_of(deep, Form::Four2x1).source(s, i),
        Form::Four1x2 => shape_of(deep, Form::Four1x2).source(s, i),
        Form::FourQuarters => shape_of(deep, Form::FourQuarters).source(s, i),
        Form::FourLeftRight => shape_of(deep, Form::FourLeftRight).source(s, i),
        Form::FourTopBottom => shape_of(deep, Form::FourTopBottom).source(s, i),
    }
}

// Where colour n of colours in a row begins.
fn colour_start(deep: bool, n: usize) -> usize
    requires { n < 64 }
    ensures { result ≡ colour_bytes deep n }
{
    if deep { 2 * n } else { n }
}

// Code 6: a copy of the oldest picture; an 8-bit film has none.
#[tactic(auto, using(crate::proofs::Sources::six_deep, crate::proofs::Sources::six_flat))]
fn source_of_6(
    deep: bool,
    s: &[u8],
    o: &[u8],
    w: usize,
    h: usize,
    x: usize,
    y: usize,
    i: usize,
) -> Source
    requires { Readable deep 6 s.now o.now w h x y i }
    ensures { result ≡ source deep (kind_of deep 6 s.now o.now) s.now w x y i }
{
    if deep {
        let v = copied_vector(deep, 6, s, o);
        Source::Copied(Picture::Oldest, copied_index(v, w, h, x, y, i))
    } else {
        Source::Data(0)
    }
}

// Code F: the same block of the oldest picture, or two colours in turn in an 8-bit film.
#[tactic(auto, using(crate::proofs::Sources::last_deep, crate::proofs::Sources::last_flat))]
fn source_of_f(deep: bool, w: usize, x: usize, y: usize, i: usize) -> Source
    requires { Inside w x y i }
    ensures { (s o : List ℕ) → result ≡ source deep (kind_of deep 15 s o) s w x y i }
{
    if deep {
        Source::Copied(Picture::Oldest, raster_index(w, x, y, i))
    } else {
        Source::Data(dither_source(i))
    }
}

// Where pixel i of the block at x, y of a picture w by h is read.
pub fn source_of(
    deep: bool,
    code: u8,
    s: &[u8],
    o: &[u8],
    w: usize,
    h: usize,
    x: usize,
    y: usize,
    i: usize,
) -> Source
    requires { Readable deep code s.now o.now w h x y i }
    ensures { result ≡ source deep (kind_of deep code s.now o.now) s.now w x y i }
{
    match code {
        0 => Source::Copied(Picture::Last, raster_index(w, x, y, i)),
        1 => Source::Copied(Picture::Oldest, raster_index(w, x, y, i)),
        2 => {
            let v = copied_vector(deep, code, s, o);
            Source::Copied(Picture::Oldest, copied_index(v, w, h, x, y, i))
        }
        3 => {
            let v = copied_vector(deep, code, s, o);
            Source::Copied(Picture::New, copied_index(v, w, h, x, y, i))
        }
        4 | 5 => {
            let v = copied_vector(deep, code, s, o);
            Source::Copied(Picture::Last, copied_index(v, w, h, x, y, i))
        }
        6 => source_of_6(deep, s, o, w, h, x, y, i),
        7 => Source::Data(form_source(deep, form_of_7(deep, s), s, i)),
        8 => Source::Data(form_source(deep, form_of_8(deep, s), s, i)),
        9 => Source::Data(form_source(deep, form_of_9(deep, s), s, i)),
        10 => Source::Data(form_source(deep, form_of_a(deep, s), s, i)),
        11 => Source::Data(colour_start(deep, cell_source(1, i))),
        12 => Source::Data(colour_start(deep, cell_source(2, i))),
        13 => Source::Data(colour_start(deep, cell_source(4, i))),
        14 => Source::Data(colour_start(deep, cell_source(8, i))),
        _ => source_of_f(deep, w, x, y, i),
    }
}
