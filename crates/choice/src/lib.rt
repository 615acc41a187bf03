// What each 8x8 of a wanted picture is given by: tests of its 64 pixels, the common ones first.
#![tactic(auto)]

ghost use Rattle.std.specs.Prelude.{◌≡◌, cond, eqb, ◌+◌, ◌-◌, ◌*◌, ◌/◌, ◌%◌, ◌^◌, ◌<◌, length};
ghost use Rattle.choice.specs.Choice.{code_of, length_by, first_differing, same_to, celled_by, dithered_by, other, two_colours, drawn_by, choice};
ghost use Rattle.choice.specs.Asked.{Cells, Stands, pixels_in, Within, pixels_of, Row, byte_at};

use motion::raster_index;
use words::wide;

// The ways to give an 8x8, the cheaper first.
#[derive(Clone, Copy)]
pub enum Way {
    Same,
    Kept,
    One,
    Dither,
    Coarse,
    Four,
    Fine,
    Two,
    Raw,
}

impl Way {
    // The data bytes of each.
    pub fn length(self) -> usize
        ensures { result ≡ length_by self }
    {
        match self {
            Way::Same => 0,
            Way::Kept => 0,
            Way::One => 1,
            Way::Dither => 2,
            Way::Coarse => 4,
            Way::Four => 4,
            Way::Fine => 10,
            Way::Two => 16,
            Way::Raw => 64,
        }
    }

    // The code of each.
    pub fn code(self) -> u8
        ensures { result ≡ code_of self }
    {
        match self {
            Way::Same => 0,
            Way::Kept => 1,
            Way::One => 14,
            Way::Dither => 15,
            Way::Coarse => 7,
            Way::Four => 13,
            Way::Fine => 7,
            Way::Two => 12,
            Way::Raw => 11,
        }
    }
}

// Whether a row of eight pixels is that of its cells' first pixels, whose row is top: the first of each cell for all of it.
fn is_cells_row(row: &[u8], top: &[u8], e: usize, side: usize) -> bool
    requires { Cells e side × (length row.now ≡ 8) × (length top.now ≡ 8) }
    ensures { result ≡ same_to 8 (byte_at row.now) (λ j. byte_at top.now (j / 2 ^ e * side)) }
{
    for j in 0..8 {
        if row[j] != top[(j >> e) * side] {
            return false;
        }
    }
    true
}

// Whether a row of eight pixels is u and v in turn.
fn is_turn_row(row: &[u8], u: u8, v: u8) -> bool
    requires { length row.now ≡ 8 }
    ensures { result ≡ same_to 8 (byte_at row.now) (λ j. cond (eqb (j % 2) 0) u v) }
{
    for j in 0..4 {
        if row[2 * j] != u || row[2 * j + 1] != v {
            return false;
        }
    }
    true
}

// How far v is above u, counted round from 255 to 0: 0 where they are the same.
fn apart(u: u8, v: u8) -> usize
    ensures { result ≡ (v + 256 - u) % 256 }
{
    (wide(v) + 256 - wide(u)) % 256
}

// Whether a row of eight pixels has the colours z and o alone. One product tests both, so that no branch hangs on a pixel.
fn is_colours_row(row: &[u8], z: u8, o: u8) -> bool
    requires { length row.now ≡ 8 }
    ensures { result ≡ same_to 8 (byte_at row.now) (λ j. cond (eqb (byte_at row.now j) z) z o) }
{
    for j in 0..8 {
        if apart(z, row[j]) * apart(o, row[j]) != 0 {
            return false;
        }
    }
    true
}

// An 8x8 of a picture w pixels wide, its first pixel at x, y.
#[derive(Clone, Copy)]
pub struct Square<'a> {
    pub picture: &'a [u8],
    pub w: usize,
    pub x: usize,
    pub y: usize,
}

impl<'a> Square<'a> {
    // Pixel i of the 64.
    pub fn pixel(&self, i: usize) -> u8
        requires { Within self.now × (i < 64) }
        ensures { result ≡ pixels_of self.now i }
    {
        self.picture[raster_index(self.w, self.x, self.y, i)]
    }

    // Row r of the eight.
    fn row(&self, r: usize) -> &'a [u8]
        requires { Within self.now × (r < 8) }
        ensures { Row (pixels_of self.now) r result.now }
    {
        let from = (self.y + r) * self.w + self.x;
        &self.picture[from..from + 8]
    }

    // Whether it is made of cells of one colour each.
    fn is_celled(&self, e: usize, side: usize) -> bool
        requires { Cells e side × Within self.now }
        ensures { result ≡ celled_by side (pixels_of self.now) }
    {
        for r in 0..8 {
            if !is_cells_row(self.row(r), self.row((r >> e) * side), e, side) {
                return false;
            }
        }
        true
    }

    // Whether it is two colours in turn, rows in turn.
    fn is_dithered(&self) -> bool
        requires { Within self.now }
        ensures { result ≡ dithered_by (pixels_of self.now) }
    {
        let mut u = self.pixel(0);
        let mut v = self.pixel(1);
        for r in 0..8 {
            if !is_turn_row(self.row(r), u, v) {
                return false;
            }
            // no assignment to a tuple: who reads the sources for stores takes it for one
            let t = u;
            u = v;
            v = t;
        }
        true
    }

    // The colour of the first pixel that is not pixel 0's; pixel 0's where there is none.
    pub fn other_colour(&self) -> u8
        requires { Within self.now }
        ensures { result ≡ other (pixels_of self.now) }
    {
        let z = self.pixel(0);
        for i in 0..64 {
            let v = self.pixel(i);
            if v != z {
                return v;
            }
        }
        z
    }

    // Whether it has two colours at most.
    fn has_two_colours(&self) -> bool
        requires { Within self.now }
        ensures { result ≡ two_colours (pixels_of self.now) }
    {
        let z = self.pixel(0);
        let o = self.other_colour();
        for r in 0..8 {
            if !is_colours_row(self.row(r), z, o) {
                return false;
            }
        }
        true
    }

    // The way that gives it by data bytes. Cells of four pixels are of two as well: where the one test fails the other is not made.
    #[tactic(auto, using(crate::proofs::Rows::no_four), unfolding(crate::specs::Choice::drawn_by))]
    fn drawn_way(&self) -> Way
        requires { Within self.now }
        ensures { result ≡ drawn_by (pixels_of self.now) }
    {
        if self.is_celled(3, 8) {
            Way::One
        } else if self.is_dithered() {
            Way::Dither
        } else if self.is_celled(1, 2) {
            if self.has_two_colours() {
                Way::Coarse
            } else if self.is_celled(2, 4) {
                Way::Four
            } else {
                Way::Two
            }
        } else if self.has_two_colours() {
            Way::Fine
        } else {
            Way::Raw
        }
    }

    // The first pixel in which it and the 8x8 in its place of another picture differ; 64 where they are the same. Finding it leaves both loops at once.
    pub fn first_differing(&self, other: &[u8]) -> usize
        requires { Within self.now × Stands self.now other.now }
        ensures { result ≡ first_differing (pixels_of self.now) (pixels_in self.now other.now) }
    {
        let there = Square {
            picture: other,
            ..*self
        };
        let mut found = 64;
        'rows: for r in 0..8 {
            let s = self.row(r);
            let t = there.row(r);
            for j in 0..8 {
                if s[j] != t[j] {
                    found = 8 * r + j;
                    break 'rows;
                }
            }
        }
        found
    }

    // Its way, where it is wanted, and the two pictures that are lent are as wide as its own.
    #[tactic(auto, unfolding(crate::specs::Choice::choice, crate::specs::Choice::same_to, crate::specs::Choice::first_differing))]
    pub fn way(&self, front: &[u8], back: &[u8]) -> Way
        requires { Within self.now × Stands self.now front.now × Stands self.now back.now }
        ensures { result ≡ choice (pixels_of self.now) (pixels_in self.now front.now) (pixels_in self.now back.now) }
    {
        if self.first_differing(front) == 64 {
            Way::Same
        } else if self.first_differing(back) == 64 {
            Way::Kept
        } else {
            self.drawn_way()
        }
    }
}
