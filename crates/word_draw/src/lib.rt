// The loop over the blocks of a packet with true colour: the stores still due from the place, as many as are allowed.
#![tactic(auto)]

ghost use Rattle.std.specs.Prelude.{true, length};
ghost use Rattle.packet.specs.Packet.{parted};
ghost use Rattle.stores.specs.Stores.{memory};
ghost use Rattle.stores.specs.Loop.{Called};
ghost use Rattle.paint.specs.Value.{older};
ghost use Rattle.draw.specs.Drawing.{plan_over};
ghost use Rattle.word_draw.specs.Asked.{WordAccepted};

use block::{code_at, data_length, offset_length};
use paint::paint_word_part;
use word_packet::data_positions;
use word_whole::paint_word_and_pass;

// The first stores due from the place on, at most as many as are allowed; their number is returned. Whoever calls it has judged. Every block stores 64 pixels, and then
// the place.
pub fn draw_word_blocks<'a>(
    columns: usize,
    rows: usize,
    map: &[u8],
    data: &[u8],
    offsets: &[u8],
    last: &'a [u16],
    oldest: &'a [u16],
    new: &mut [u16],
    place: &mut usize,
    allowed: usize,
) -> usize
    requires { WordAccepted (parted true columns rows map.now «data».now offsets.now) (length last.now) (length new.old) (length oldest.now) place.old }
    ensures { Called (plan_over (parted true columns rows map.now «data».now offsets.now) (older last.now oldest.now)) (memory new.old place.old) allowed new.new place.new result }
{
    let w = 8 * columns;
    let h = 8 * rows;
    let first = *place;
    let start = data_positions(map, data, offsets, first);
    let mut at = start.bytes;
    let mut aside = start.offsets;
    let mut left = allowed;
    let mut x = 8 * (first % columns);
    let mut y = 8 * (first / columns);
    for k in first..columns * rows {
        let code = code_at(map, k);
        let s = &data[at..];
        let o = &offsets[aside..];
        if left <= 64 {
            paint_word_part(code, s, o, last, oldest, new, w, h, x, y, left);
            return allowed;
        }
        paint_word_and_pass(code, s, o, last, oldest, new, w, x, y, place, k + 1);
        left -= 65;
        at += data_length::<true>(code, s);
        aside += offset_length(true, code);
        x += 8;
        if x == w {
            x = 0;
            y += 8;
        }
    }
    allowed - left
}
