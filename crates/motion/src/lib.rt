// Motion vectors of codes 2 to 5, and the pixels that they point at.
#![tactic(auto)]

ghost use Rattle.std.specs.Prelude.{◌≡◌, true, ◌+◌, ◌≤◌};
ghost use Rattle.motion.specs.Motion.{ahead_vector, negated, near_vector, far_vector, points_inside, raster_index, copied_index, Short, Inside};

use words::wide;

// How far right and down a copied 8x8 lies, and how far left and up of that.
#[derive(Clone, Copy)]
pub struct Vector {
    pub right: usize,
    pub left: usize,
    pub down: usize,
    pub up: usize,
}

// Code 2. Products and shifts in place of quotients by 7 and 29: the compiler takes more steps for those.
#[tactic(auto, using(crate::proofs::Vectors::ahead_low, crate::proofs::Vectors::ahead_high))]
pub fn ahead_vector(b: u8) -> Vector
    ensures { result ≡ ahead_vector b }
{
    let v = wide(b);
    if v < 56 {
        let q = v * 37 / 256;
        Vector {
            right: 8 + (v - 7 * q),
            left: 0,
            down: q,
            up: 0,
        }
    } else {
        let u = v - 56;
        let q = u * 283 / 8192;
        Vector {
            right: u - 29 * q,
            left: 14,
            down: 8 + q,
            up: 0,
        }
    }
}

// Code 3.
#[tactic(auto, unfolding(crate::specs::Motion::negated))]
pub fn behind_vector(b: u8) -> Vector
    ensures { result ≡ negated (ahead_vector b) }
{
    let v = ahead_vector(b);
    Vector {
        right: v.left,
        left: v.right,
        down: v.up,
        up: v.down,
    }
}

// Code 4.
#[tactic(auto, unfolding(crate::specs::Motion::near_vector))]
pub fn near_vector(b: u8) -> Vector
    ensures { result ≡ near_vector b }
{
    let v = wide(b);
    Vector {
        right: v % 16,
        left: 8,
        down: v / 16,
        up: 8,
    }
}

// Code 5.
#[tactic(auto, unfolding(crate::specs::Motion::far_vector))]
pub fn far_vector(x: u8, y: u8) -> Vector
    ensures { result ≡ far_vector x y }
{
    Vector {
        right: (wide(x) + 128) % 256,
        left: 128,
        down: (wide(y) + 128) % 256,
        up: 128,
    }
}

// Whether the 8x8 that v points at from the one at x, y lies inside a picture w by h.
#[tactic(auto, unfolding(crate::specs::Motion::points_inside))]
pub fn points_inside(v: Vector, w: usize, h: usize, x: usize, y: usize) -> bool
    requires { Short v × (w ≤ 640) × (h ≤ 480) × (x ≤ 640) × (y ≤ 480) }
    ensures { result ≡ points_inside v w h x y }
{
    v.left <= x + v.right
        && x + v.right + 8 <= w + v.left
        && v.up <= y + v.down
        && y + v.down + 8 <= h + v.up
}

// Where pixel i of the 8x8 at x, y stands in a picture w pixels wide.
#[tactic(auto, using(crate::proofs::Vectors::row_small), unfolding(crate::specs::Motion::raster_index))]
pub fn raster_index(w: usize, x: usize, y: usize, i: usize) -> usize
    requires { Inside w x y i }
    ensures { result ≡ raster_index w x y i }
{
    (y + i / 8) * w + (x + i % 8)
}

// The same of the 8x8 that v points at.
#[tactic(auto, using(crate::proofs::Vectors::inside_each), unfolding(crate::specs::Motion::copied_index))]
pub fn copied_index(v: Vector, w: usize, h: usize, x: usize, y: usize, i: usize) -> usize
    requires { Short v × Inside w x y i × (h ≤ 480) × (points_inside v w h x y ≡ true) }
    ensures { result ≡ copied_index v w x y i }
{
    raster_index(w, x + v.right - v.left, y + v.down - v.up, i)
}
