// The patterned blocks, codes 7 to A: which form a block has, and which byte of its data gives each pixel.
#![tactic(auto)]

ghost use Rattle.std.specs.Prelude.{◌≡◌, ◌+◌, ◌<◌, ◌≤◌, length};
ghost use Rattle.pattern.specs.Form.{bytes, numbers, shape, falling, form7, form8, form9, form_a};
ghost use Rattle.pattern.specs.Pattern.{Shaped, FieldInside, pattern_length, part_length, part_start, field_number, field_at, pattern_source};

use words::byte_at;

// Two or four colours; then the size of a cell where the block is one part, else how it is cut into parts.
#[derive(Clone, Copy)]
pub enum Form {
    Two1x1,
    Two2x2,
    TwoQuarters,
    TwoLeftRight,
    TwoTopBottom,
    Four1x1,
    Four2x2,
    Four2x1,
    Four1x2,
    FourQuarters,
    FourLeftRight,
    FourTopBottom,
}

// The numbers of a form: the bytes of a colour; the bits of a field; width and height of a part and of a cell.
#[derive(Clone, Copy)]
pub struct Shape {
    pub colour: usize,
    pub bits: usize,
    pub across: usize,
    pub down: usize,
    pub wide: usize,
    pub high: usize,
}

// Whether the pair of colours at byte p falls. deep, here and in `block` and `pixel`: the film has true colour. A value and no type parameter, as in the definitions: where it is a
// literal the compiler leaves it out, and what reads a state or a pixel's source passes the film's own.
#[tactic(auto, unfolding(crate::specs::Form::falling))]
pub fn is_falling(deep: bool, s: &[u8], p: usize) -> bool
    requires { p < 64 }
    ensures { result ≡ falling deep s.now p }
{
    if deep {
        128 <= byte_at(s, p + 1)
    } else {
        byte_at(s, p + 1) < byte_at(s, p)
    }
}

// The bytes of a pixel.
pub fn bytes_of(deep: bool) -> usize
    ensures { (result ≡ bytes deep) × (1 ≤ result) × (result ≤ 2) }
{
    if deep { 2 } else { 1 }
}

#[tactic(auto, unfolding(crate::specs::Form::form7))]
pub fn form_of_7(deep: bool, s: &[u8]) -> Form
    ensures { result ≡ form7 deep s.now }
{
    let coarse = is_falling(deep, s, 0);
    if coarse { Form::Two2x2 } else { Form::Two1x1 }
}

// Here and below both pairs are compared before either result is tested, so that the compiler needs no branch.
#[tactic(auto, unfolding(crate::specs::Form::form8))]
pub fn form_of_8(deep: bool, s: &[u8]) -> Form
    ensures { result ≡ form8 deep s.now }
{
    let second = is_falling(deep, s, 2 * bytes_of(deep) + 4);
    if is_falling(deep, s, 0) {
        if second {
            Form::TwoTopBottom
        } else {
            Form::TwoLeftRight
        }
    } else {
        Form::TwoQuarters
    }
}

#[tactic(auto, unfolding(crate::specs::Form::form9))]
pub fn form_of_9(deep: bool, s: &[u8]) -> Form
    ensures { result ≡ form9 deep s.now }
{
    let second = is_falling(deep, s, 2 * bytes_of(deep));
    if is_falling(deep, s, 0) {
        if second { Form::Four1x2 } else { Form::Four2x1 }
    } else if second {
        Form::Four2x2
    } else {
        Form::Four1x1
    }
}

#[tactic(auto, unfolding(crate::specs::Form::form_a))]
pub fn form_of_a(deep: bool, s: &[u8]) -> Form
    ensures { result ≡ form_a deep s.now }
{
    let second = is_falling(deep, s, 4 * bytes_of(deep) + 8);
    if is_falling(deep, s, 0) {
        if second {
            Form::FourTopBottom
        } else {
            Form::FourLeftRight
        }
    } else {
        Form::FourQuarters
    }
}

// The numbers of each form.
pub fn shape_of(deep: bool, form: Form) -> Shape
    ensures { result ≡ shape deep form }
{
    let colour = bytes_of(deep);
    match form {
        Form::Two1x1 => Shape::new(colour, 1, 8, 8, 1, 1),
        Form::Two2x2 => Shape::new(colour, 1, 8, 8, 2, 2),
        Form::TwoQuarters => Shape::new(colour, 1, 4, 4, 1, 1),
        Form::TwoLeftRight => Shape::new(colour, 1, 4, 8, 1, 1),
        Form::TwoTopBottom => Shape::new(colour, 1, 8, 4, 1, 1),
        Form::Four1x1 => Shape::new(colour, 2, 8, 8, 1, 1),
        Form::Four2x2 => Shape::new(colour, 2, 8, 8, 2, 2),
        Form::Four2x1 => Shape::new(colour, 2, 8, 8, 2, 1),
        Form::Four1x2 => Shape::new(colour, 2, 8, 8, 1, 2),
        Form::FourQuarters => Shape::new(colour, 2, 4, 4, 1, 1),
        Form::FourLeftRight => Shape::new(colour, 2, 4, 8, 1, 1),
        Form::FourTopBottom => Shape::new(colour, 2, 8, 4, 1, 1),
    }
}

// Field n, of the given bits, in the bytes of s from p on, from the low end of each byte.
#[tactic(auto, using(crate::proofs::Bounds::field), unfolding(crate::specs::Pattern::field_at))]
fn field_at(s: &[u8], p: usize, bits: usize, n: usize) -> usize
    requires { FieldInside (length s.now) p bits n }
    ensures { result ≡ field_at s.now p bits n }
{
    let bit = n * bits;
    let byte = s[p + bit / 8] as usize;
    (byte >> (bit % 8)) % (2 * bits)
}

impl Shape {
    pub fn new(
        colour: usize,
        bits: usize,
        across: usize,
        down: usize,
        wide: usize,
        high: usize,
    ) -> Shape
        ensures { result ≡ numbers colour bits across down wide high }
    {
        Shape {
            colour,
            bits,
            across,
            down,
            wide,
            high,
        }
    }

    // The bytes of a part: its colours and its fields.
    #[tactic(auto, using(crate::proofs::Bounds::colours_twice), unfolding(crate::specs::Pattern::part_length, crate::specs::Pattern::cells))]
    fn part_length(self) -> usize
        requires { Shaped self }
        ensures { result ≡ part_length self }
    {
        let cells = self.across / self.wide * (self.down / self.high);
        self.colour * (2 * self.bits) + cells * self.bits / 8
    }

    // Where the part of pixel i begins.
    #[tactic(auto, using(crate::proofs::Bounds::placed), unfolding(crate::specs::Pattern::part_start))]
    fn part_start(self, i: usize) -> usize
        requires { Shaped self × (i < 64) }
        ensures { result ≡ part_start self i }
    {
        (i % 8 / self.across * (8 / self.down) + i / 8 / self.down) * self.part_length()
    }

    // The number of pixel i's field in its part.
    #[tactic(auto, unfolding(crate::specs::Pattern::field_number))]
    fn field_number(self, i: usize) -> usize
        requires { Shaped self × (i < 64) }
        ensures { result ≡ field_number self i }
    {
        i / 8 % self.down / self.high * (self.across / self.wide) + i % 8 % self.across / self.wide
    }

    // The byte of a block's data s that gives pixel i.
    pub fn source(self, s: &[u8], i: usize) -> usize
        requires { Shaped self × (pattern_length self ≤ length s.now) × (i < 64) }
        ensures { result ≡ pattern_source self s.now i }
    {
        let part = self.part_start(i);
        let fields = part + self.colour * (2 * self.bits);
        let n = self.field_number(i);
        part + self.colour * field_at(s, fields, self.bits, n)
    }
}
