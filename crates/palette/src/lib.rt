// Opcodes 0B, 0C and 0D: a body is judged whole, by the palette's length alone, and then its stores are made one by one on the lent palette, the first of them where
// fewer are allowed.
#![tactic(auto)]

ghost use Rattle.std.specs.Prelude.{◌≡◌, ◌+◌, ◌-◌, ◌*◌, ◌≤◌, ◌<◌, min, length, get_or, set, take, List, [], Ok};
ghost use Rattle.listed.specs.Store.{Store, applied, one, each, bytes, from};
ghost use Rattle.palette.specs.Update.{told, legal, verdict_for, verdict_on, changed_as, change_of, change_on, palette_after};
ghost use Rattle.palette.specs.Gradient.{gradient_at, gradient_stores, gradient_fits, entries, level, component, create_gradient};
ghost use Rattle.palette.specs.Entries.{set_palette};
ghost use Rattle.palette.specs.Mask.{ones, group_end, group_at, masked, group_stores, set_palette_compressed};
ghost use Rattle.palette.specs.Asked.{Ready, Next, Small, Group};
ghost use Rattle.refusal.specs.Number.{accept};

use refusal::Refusal;
use std::marker::Brand;
use words::{byte_at, word_at};

// What becomes of a palette opcode that is taken, with the stores made: all that are due, or as many as were allowed.
#[derive(Clone, Copy)]
pub enum Changed {
    Whole(usize),
    Unfinished(usize),
}

// The gradient that three bytes of a body give, of so many rows and columns of entries from base on. second: which component is the second colour, 1 green, 2 blue.
// Its numbers are not kept as bytes: those are packed into one word, and the call then takes several times the stack.
#[derive(Clone, Copy)]
struct Gradient {
    base: usize,
    rows: usize,
    columns: usize,
    second: usize,
}

// The list of stores that an opcode's body gives: contracts alone read it.
trait Listing {
    ghost list: { List Store };
}

// Each call picks its own list in place of this one.
impl Listing for Brand {
    ghost list = { [] };
}

// The one store of a byte: every other function stores through it. It asks that the byte is the next of the list, so that stores in another order are not provable.
fn put<L: Listing>(palette: &mut [u8], index: usize, value: u8)
    requires { Ready L.list (one index value) palette.old }
    ensures { palette.new ≡ set palette.old index value }
{
    palette[index] = value;
}

// How many of n stores are allowed, behind so many that are due before them.
fn allowed_of(allowed: usize, before: usize, n: usize) -> usize
    ensures { result ≡ min n (allowed - before) }
{
    n.min(allowed.saturating_sub(before))
}

// n bytes of a body from at on, stored from index first on, as far as they are allowed. Here and below before is how many stores of the list
// come before these, and what is given back how many come before those behind.
fn put_bytes<L: Listing>(
    palette: &mut [u8],
    body: &[u8],
    allowed: usize,
    before: usize,
    first: usize,
    at: usize,
    n: usize,
) -> usize
    requires next { Next L.list allowed before (bytes first (from body.now at) n) palette.old }
    requires n_in_bounds { at + n ≤ length body.now }
    ensures value { result ≡ before + n }
    ensures palette_after { palette.new ≡ applied (take (allowed - before) (bytes first (from body.now at) n)) palette.old }
{
    let m = allowed_of(allowed, before, n);
    for i in 0..m {
        put::<L>(palette, first + i, body[at + i]);
    }
    before + n
}

// Whether n bytes of a body from at on are components, wherever they are stored.
fn are_components(body: &[u8], at: usize, n: usize) -> bool
    requires { at + n ≤ length body.now }
    ensures { result ≡ legal (bytes 0 (from body.now at) n) }
{
    body[at..at + n].iter().all(|b| *b <= 63)
}

// The number that byte at of a body is.
fn number_at(body: &[u8], at: usize) -> usize
    ensures { (result ≡ get_or body.now at 0) × (result < 256) }
{
    usize::from(byte_at(body, at))
}

// Step i of n from 0 to most; a step alone is 0.
#[tactic(auto, unfolding(crate::specs::Gradient::level))]
fn level_of(most: usize, i: usize, n: usize) -> u8
    requires { (most < 256) × (i < n) × (n < 256) }
    ensures { result ≡ level most i n }
{
    if n < 2 { 0 } else { (most * i / (n - 1)) as u8 }
}

impl Gradient {
    fn at(body: &[u8], at: usize, second: usize) -> Gradient
        requires { at ≤ 3 }
        ensures value { result ≡ gradient_at body.now at second }
        ensures small { Small result }
    {
        Gradient {
            base: number_at(body, at),
            rows: number_at(body, at + 1),
            columns: number_at(body, at + 2),
            second,
        }
    }

    fn entries(self) -> usize
        requires { Small self }
        ensures { (result ≡ entries self) × (result < 65536) }
    {
        self.rows * self.columns
    }

    // Whether the entries are among the 256; the base of none is not tested.
    #[tactic(auto, unfolding(crate::specs::Gradient::fits))]
    fn fits(self) -> bool
        requires { Small self }
        ensures { result ≡ gradient_fits self }
    {
        let n = self.entries();
        n == 0 || self.base + n <= 256
    }

    // Byte i of the entries.
    #[tactic(auto, unfolding(crate::specs::Gradient::component))]
    fn component(self, i: usize) -> u8
        requires small { Small self }
        requires within { i < 3 * entries self }
        ensures { result ≡ component self.rows self.columns self.second i }
    {
        let entry = i / 3;
        let colour = i % 3;
        if colour == 0 {
            level_of(63, entry / self.columns, self.rows)
        } else if colour == self.second {
            level_of(39, entry % self.columns, self.columns)
        } else {
            0
        }
    }
}

// The stores of a gradient.
fn put_gradient<L: Listing>(palette: &mut [u8], allowed: usize, before: usize, g: Gradient) -> usize
    requires small { Small g }
    requires next { Next L.list allowed before (gradient_stores g) palette.old }
    ensures value { result ≡ before + length (gradient_stores g) }
    ensures palette_after { palette.new ≡ applied (take (allowed - before) (gradient_stores g)) palette.old }
{
    let first = 3 * g.base;
    let n = 3 * g.entries();
    let m = allowed_of(allowed, before, n);
    for i in 0..m {
        put::<L>(palette, first + i, g.component(i));
    }
    before + n
}

// The stores of both gradients in order; how many are due.
fn put_gradients<L: Listing>(palette: &mut [u8], body: &[u8], allowed: usize) -> usize
    requires listed { L.list ≡ (create_gradient body.now).stores }
    requires taken { accept ≡ verdict_on (create_gradient body.now) palette.old }
    ensures value { result ≡ length (create_gradient body.now).stores }
    ensures palette_after { palette.new ≡ applied (take allowed (create_gradient body.now).stores) palette.old }
{
    let red_blue = Gradient::at(body, 0, 2);
    let red_green = Gradient::at(body, 3, 1);
    let first = put_gradient::<L>(palette, allowed, 0, red_blue);
    put_gradient::<L>(palette, allowed, first, red_green)
}

// What becomes of a body that is taken, by the stores that are due.
#[tactic(auto, unfolding(crate::specs::Update::change_of))]
fn changed_of(allowed: usize, due: usize) -> Changed
    ensures { changed_as (Ok result) ≡ change_of allowed due }
{
    if allowed < due {
        Changed::Unfinished(allowed)
    } else {
        Changed::Whole(due)
    }
}

// Whether opcode 0B is taken, for a palette of n bytes: both gradients are tested.
pub fn judge_gradient(body: &[u8], n: usize) -> Result<(), Refusal>
    ensures { told result ≡ verdict_for (create_gradient body.now) n }
{
    if n != 768 {
        return Err(Refusal::Buffer);
    }
    if body.len() != 6 {
        return Err(Refusal::BodyLength);
    }
    let red_blue = Gradient::at(body, 0, 2);
    let red_green = Gradient::at(body, 3, 1);
    if !(red_blue.fits() && red_green.fits()) {
        return Err(Refusal::Palette);
    }
    Ok(())
}

// Opcode 0B, create gradient. Where the two overlap, the second stays.
pub fn create_gradient(body: &[u8], palette: &mut [u8], allowed: usize) -> Result<Changed, Refusal>
    ensures result_value { changed_as result ≡ change_on (create_gradient body.now) allowed palette.old }
    ensures palette_after { palette.new ≡ palette_after (create_gradient body.now) allowed palette.old }
{
    judge_gradient(body, palette.len())?;
    let due = put_gradients::<Brand>(palette, body, allowed);
    Ok(changed_of(allowed, due))
}

// Whether opcode 0C is taken, for a palette of n bytes. A body too short for its two words never has the length that they ask for.
pub fn judge_entries(body: &[u8], n: usize) -> Result<(), Refusal>
    ensures { told result ≡ verdict_for (set_palette body.now) n }
{
    if n != 768 {
        return Err(Refusal::Buffer);
    }
    let start = word_at(body, 0);
    let count = word_at(body, 2);
    if body.len() != 4 + 3 * count {
        return Err(Refusal::BodyLength);
    }
    if 256 < start + count {
        return Err(Refusal::Palette);
    }
    if !are_components(body, 4, 3 * count) {
        return Err(Refusal::Palette);
    }
    Ok(())
}

// The stores of the entries in order; how many are due.
fn put_entries<L: Listing>(palette: &mut [u8], body: &[u8], allowed: usize) -> usize
    requires listed { L.list ≡ (set_palette body.now).stores }
    requires taken { accept ≡ verdict_on (set_palette body.now) palette.old }
    ensures value { result ≡ length (set_palette body.now).stores }
    ensures palette_after { palette.new ≡ applied (take allowed (set_palette body.now).stores) palette.old }
{
    let start = word_at(body, 0);
    let count = word_at(body, 2);
    put_bytes::<L>(palette, body, allowed, 0, 3 * start, 4, 3 * count)
}

// Opcode 0C, set palette.
pub fn set_palette(body: &[u8], palette: &mut [u8], allowed: usize) -> Result<Changed, Refusal>
    ensures result_value { changed_as result ≡ change_on (set_palette body.now) allowed palette.old }
    ensures palette_after { palette.new ≡ palette_after (set_palette body.now) allowed palette.old }
{
    judge_entries(body, palette.len())?;
    let due = put_entries::<Brand>(palette, body, allowed);
    Ok(changed_of(allowed, due))
}

// How many bits of a mask are one.
#[tactic(auto, unfolding(crate::specs::Mask::ones, crate::specs::Mask::bit))]
fn ones_of(mask: usize) -> usize
    ensures { (result ≡ ones mask 8) × (result ≤ 8) }
{
    let low = mask % 2 + mask / 2 % 2 + mask / 4 % 2 + mask / 8 % 2;
    let high = mask / 16 % 2 + mask / 32 % 2 + mask / 64 % 2 + mask / 128 % 2;
    low + high
}

// Where the group that starts at position at ends.
#[tactic(auto, unfolding(crate::specs::Mask::group_end))]
fn group_end(body: &[u8], at: usize) -> usize
    requires { at < 65536 }
    ensures { result ≡ group_end body.now at }
{
    at + 1 + 3 * ones_of(number_at(body, at))
}

// Where the last group ends.
fn groups_end(body: &[u8]) -> usize
    ensures { result ≡ group_at body.now 32 }
{
    let mut at = 0;
    for _k in 0..32usize {
        at = group_end(body, at);
    }
    at
}

// Whether the groups' bytes behind their masks are components.
fn are_group_components(body: &[u8]) -> bool
    requires { group_at body.now 32 ≡ length body.now }
    ensures { result ≡ legal (each (group_stores body.now) 32) }
{
    let mut at = 0;
    for _k in 0..32usize {
        let end = group_end(body, at);
        if !are_components(body, at + 1, end - (at + 1)) {
            return false;
        }
        at = end;
    }
    true
}

// The stores of one group: the entries whose bits in the mask are one, lowest bit first.
fn put_group<L: Listing>(
    palette: &mut [u8],
    body: &[u8],
    allowed: usize,
    before: usize,
    entry: usize,
    mask: usize,
    at: usize,
) -> usize
    requires next { Next L.list allowed before (each (masked body.now mask at entry) 8) palette.old }
    requires group { Group body.now palette.old mask at entry }
    ensures value { result ≡ before + length (each (masked body.now mask at entry) 8) }
    ensures palette_after { palette.new ≡ applied (take (allowed - before) (each (masked body.now mask at entry) 8)) palette.old }
{
    let mut then = before;
    let mut bits = mask;
    let mut next = at;
    for i in 0..8 {
        let n = 3 * (bits % 2);
        then = put_bytes::<L>(palette, body, allowed, then, 3 * (entry + i), next, n);
        next += n;
        bits /= 2;
    }
    then
}

// The stores of all groups in order; how many are due.
fn put_groups<L: Listing>(palette: &mut [u8], body: &[u8], allowed: usize) -> usize
    requires listed { L.list ≡ (set_palette_compressed body.now).stores }
    requires taken { accept ≡ verdict_on (set_palette_compressed body.now) palette.old }
    ensures value { result ≡ length (set_palette_compressed body.now).stores }
    ensures palette_after { palette.new ≡ applied (take allowed (set_palette_compressed body.now).stores) palette.old }
{
    let mut before = 0;
    let mut at = 0;
    for k in 0..32 {
        before = put_group::<L>(
            palette,
            body,
            allowed,
            before,
            8 * k,
            number_at(body, at),
            at + 1,
        );
        at = group_end(body, at);
    }
    before
}

// Whether opcode 0D is taken, for a palette of n bytes. Groups that lack bytes end behind the body, so one comparison judges its length.
pub fn judge_groups(body: &[u8], n: usize) -> Result<(), Refusal>
    ensures { told result ≡ verdict_for (set_palette_compressed body.now) n }
{
    if n != 768 {
        return Err(Refusal::Buffer);
    }
    if groups_end(body) != body.len() {
        return Err(Refusal::BodyLength);
    }
    if !are_group_components(body) {
        return Err(Refusal::Palette);
    }
    Ok(())
}

// Opcode 0D, set palette entries compressed.
pub fn set_palette_compressed(
    body: &[u8],
    palette: &mut [u8],
    allowed: usize,
) -> Result<Changed, Refusal>
    ensures result_value { changed_as result ≡ change_on (set_palette_compressed body.now) allowed palette.old }
    ensures palette_after { palette.new ≡ palette_after (set_palette_compressed body.now) allowed palette.old }
{
    judge_groups(body, palette.len())?;
    let due = put_groups::<Brand>(palette, body, allowed);
    Ok(changed_of(allowed, due))
}
