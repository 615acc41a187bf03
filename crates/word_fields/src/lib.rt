// The fields of a patterned block of a film with true colour: how the rows of each form are laid out, fields read as one number, and the colour that a field chooses.
#![tactic(auto)]

ghost use Rattle.std.specs.Prelude.{◌≡◌, ◌⊎◌, true, List, ℕ, [], ◌∷◌, ◌+◌, ◌*◌, ◌%◌, ◌^◌, ◌≤◌, ◌<◌, length, get_or};
ghost use Rattle.std.proofs.Common.{refl, inl, inr};
ghost use Rattle.block.specs.Block.{colour_at, stored};
ghost use Rattle.rows.specs.Row.{colours};
ghost use Rattle.word_fields.specs.Layout.{laid_out, layout, little_endian, AreBytes, FieldBytes, Coloured};

use block::choose;
use paint::widened;
use pattern::Form;
use words::wide;

// The numbers by which a form is drawn, in bands (specs/Layout).
#[derive(Clone, Copy)]
pub struct Layout {
    // bits of a field
    pub bits: usize,
    // width and height of a cell
    pub wide: usize,
    pub high: usize,
    // rows of a band
    pub rows: usize,
    // bytes from a band's part to the next band's
    pub part: usize,
    // bytes from the left part to the right one
    pub beyond: usize,
    // bytes from a band's fields to the next band's
    pub fields: usize,
    // bytes of a band's fields in a part
    pub count: usize,
    // bits from a row of cells to the next
    pub stride: usize,
    // bits from the fields of a row's left four pixels to those of its right four
    pub half: usize,
}

fn laid_out(
    bits: usize,
    wide: usize,
    high: usize,
    rows: usize,
    part: usize,
    beyond: usize,
    fields: usize,
    count: usize,
    stride: usize,
    half: usize,
) -> Layout
    ensures { result ≡ laid_out bits wide high rows part beyond fields count stride half }
{
    Layout {
        bits,
        wide,
        high,
        rows,
        part,
        beyond,
        fields,
        count,
        stride,
        half,
    }
}

// The numbers of each form.
pub fn layout_of(form: Form) -> Layout
    ensures { result ≡ layout form }
{
    match form {
        Form::Two1x1 => laid_out(1, 1, 1, 8, 0, 0, 0, 8, 8, 4),
        Form::Two2x2 => laid_out(1, 2, 2, 8, 0, 0, 0, 2, 4, 2),
        Form::TwoQuarters => laid_out(1, 1, 1, 4, 6, 12, 6, 2, 4, 0),
        Form::TwoLeftRight => laid_out(1, 1, 1, 8, 0, 8, 0, 4, 4, 0),
        Form::TwoTopBottom => laid_out(1, 1, 1, 4, 8, 0, 8, 4, 8, 4),
        Form::Four1x1 => laid_out(2, 1, 1, 4, 0, 0, 8, 8, 16, 8),
        Form::Four2x2 => laid_out(2, 2, 2, 8, 0, 0, 0, 4, 8, 4),
        Form::Four2x1 => laid_out(2, 2, 1, 8, 0, 0, 0, 8, 8, 4),
        Form::Four1x2 => laid_out(2, 1, 2, 8, 0, 0, 0, 8, 16, 8),
        Form::FourQuarters => laid_out(2, 1, 1, 4, 12, 24, 12, 4, 8, 0),
        Form::FourLeftRight => laid_out(2, 1, 1, 8, 0, 16, 0, 8, 8, 0),
        Form::FourTopBottom => laid_out(2, 1, 1, 4, 16, 0, 16, 8, 16, 8),
    }
}

// The colour that begins at byte j, with its high bit.
pub fn raw_colour(s: &[u8], j: usize) -> u16
    requires { j + 2 ≤ length s.now }
    ensures { result ≡ colour_at true s.now j }
{
    widened(s[j]) + 256 * widened(s[j + 1])
}

// The colours of a part, with their high bits.
pub trait Colours: Copy {
    // The bits of a field that chooses one.
    const BITS: usize;
    // Their bytes.
    const BYTES: usize;

    ghost BITS: { ℕ };

    ghost BYTES: { ℕ };

    ghost colours: { Self → List ℕ };

    // Those that begin at byte j.
    fn read(s: &[u8], j: usize) -> Self
        requires { j + BYTES ≤ length s.now }
        ensures { Coloured BITS s.now j (colours result) };

    // The one that the low bits of k choose, as it is stored.
    fn chosen(self, k: u16) -> u16
        ensures { result ≡ stored true (get_or (colours self) (k % 2 ^ BITS) 0) };

    ghost few: { (BITS ≡ 1) ⊎ (BITS ≡ 2) };

    ghost long: { BYTES ≡ 2 * 2 ^ BITS };
}

#[derive(Clone, Copy)]
pub struct Two {
    pub a: u16,
    pub b: u16,
}

impl Colours for Two {
    const BITS: usize = 1;

    const BYTES: usize = 4;

    ghost BITS = { 1 };

    ghost BYTES = { 4 };

    ghost colours = { λ l. l.a ∷ l.b ∷ [] };

    fn read(s: &[u8], j: usize) -> Two {
        Two {
            a: raw_colour(s, j),
            b: raw_colour(s, j + 2),
        }
    }

    fn chosen(self, k: u16) -> u16 {
        choose(k % 2 == 0, self.a, self.b) % 32768
    }

    ghost few = { inl refl };

    ghost long = { refl };
}

#[derive(Clone, Copy)]
pub struct Four {
    pub a: u16,
    pub b: u16,
    pub c: u16,
    pub d: u16,
}

impl Colours for Four {
    const BITS: usize = 2;

    const BYTES: usize = 8;

    ghost BITS = { 2 };

    ghost BYTES = { 8 };

    ghost colours = { λ l. colours l.a l.b l.c l.d };

    fn read(s: &[u8], j: usize) -> Four {
        Four {
            a: raw_colour(s, j),
            b: raw_colour(s, j + 2),
            c: raw_colour(s, j + 4),
            d: raw_colour(s, j + 6),
        }
    }

    fn chosen(self, k: u16) -> u16 {
        choose(
            k / 2 % 2 == 0,
            choose(k % 2 == 0, self.a, self.b),
            choose(k % 2 == 0, self.c, self.d),
        ) % 32768
    }

    ghost few = { inr refl };

    ghost long = { refl };
}

fn two_bytes(s: &[u8], q: usize) -> usize
    requires { q + 2 ≤ length s.now }
    ensures { (result ≡ little_endian s.now q 2) × AreBytes s.now q 2 × (result < 65536) }
{
    wide(s[q]) + 256 * wide(s[q + 1])
}

fn four_bytes(s: &[u8], q: usize) -> usize
    requires { q + 4 ≤ length s.now }
    ensures { (result ≡ little_endian s.now q 4) × AreBytes s.now q 4 × (result < 4294967296) }
{
    two_bytes(s, q) + 65536 * two_bytes(s, q + 2)
}

fn eight_bytes(s: &[u8], q: usize) -> usize
    requires { q + 8 ≤ length s.now }
    ensures { (result ≡ little_endian s.now q 8) × AreBytes s.now q 8 }
{
    four_bytes(s, q) + 4294967296 * four_bytes(s, q + 4)
}

// The number that count bytes from q on make. Each count has one load.
pub fn number_of(s: &[u8], q: usize, count: usize) -> usize
    requires { FieldBytes count × (q + count ≤ length s.now) }
    ensures { (result ≡ little_endian s.now q count) × AreBytes s.now q count }
{
    if count == 8 {
        return eight_bytes(s, q);
    }
    if count == 4 {
        return four_bytes(s, q);
    }
    two_bytes(s, q)
}
