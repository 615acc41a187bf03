// The drawing call of a film with true colour: every test, then the stores still due from the place, as many as are allowed.
#![tactic(auto)]

ghost use Rattle.std.specs.Prelude.{◌≡◌, true, length};
ghost use Rattle.packet.specs.Packet.{packet_in};
ghost use Rattle.packet.specs.Rows.{touched, finding, found};
ghost use Rattle.stores.specs.Stores.{memory};
ghost use Rattle.stores.specs.Loop.{Called};
ghost use Rattle.paint.specs.Value.{older};
ghost use Rattle.draw.specs.Drawing.{plan_over};
ghost use Rattle.draw.specs.Call.{word_request, call_verdict_in, word_pictures, leaves, report, said};
ghost use Rattle.word_calls.specs.Asked.{Judged};

use draw::{Allowed, Drawn, answer_of};
use packet::{Rows, is_legal_size};
use refusal::Refusal;
use word_draw::draw_word_blocks;
use word_packet::{check_parts, first_part, second_part};

// The tests of a call, where so many bytes may be left over and the pictures are so many words long.
pub fn judge_words(
    spare: usize,
    columns: usize,
    rows: usize,
    map: &[u8],
    data: &[u8],
    last: usize,
    oldest: usize,
    new: usize,
    place: usize,
) -> Result<Option<Rows>, Refusal>
    ensures { found result ≡ finding (call_verdict_in true spare columns rows map.now «data».now last oldest new place) (touched (packet_in true columns rows map.now «data».now)) }
{
    if !is_legal_size(columns, rows) {
        return Err(Refusal::Size);
    }
    let pixels = 8 * rows * (8 * columns);
    if last < pixels {
        return Err(Refusal::Buffer);
    }
    if oldest < pixels {
        return Err(Refusal::Buffer);
    }
    if new < pixels {
        return Err(Refusal::Buffer);
    }
    if map.len() != (columns * rows + 1) / 2 {
        return Err(Refusal::MapLength);
    }
    if columns * rows < place {
        return Err(Refusal::Place);
    }
    check_parts(spare, columns, rows, map, data)
}

// The first stores due from the place on, at most as many as are allowed; their number is returned. Whoever calls it has judged, and the frame of the tests is
// gone while it draws.
pub fn draw_word_packet<'a>(
    columns: usize,
    rows: usize,
    map: &[u8],
    data: &[u8],
    last: &'a [u16],
    oldest: &'a [u16],
    new: &mut [u16],
    place: &mut usize,
    allowed: usize,
) -> usize
    requires { Judged columns rows map.now «data».now (length last.now) (length oldest.now) (length new.old) place.old }
    ensures { Called (plan_over (packet_in true columns rows map.now «data».now) (older last.now oldest.now)) (memory new.old place.old) allowed new.new place.new result }
{
    draw_word_blocks(
        columns,
        rows,
        map,
        first_part(data),
        second_part(data),
        last,
        oldest,
        new,
        place,
        allowed,
    )
}

// The drawing call: the tests, then the first stores due from the place on, at most as many as are allowed; a refused call changes nothing.
pub fn draw_words<'a>(
    columns: usize,
    rows: usize,
    map: &[u8],
    data: &[u8],
    last: &'a [u16],
    oldest: &'a [u16],
    new: &mut [u16],
    place: &mut usize,
    allowed: Allowed,
) -> Result<Drawn, Refusal>
    ensures place_after { word_pictures last.now oldest.now (memory new.new place.new) ≡ leaves (word_request columns rows map.now «data».now last.now oldest.now allowed) (memory new.old place.old) }
    ensures result_value { said result ≡ report (memory new.old place.old) (word_request columns rows map.now «data».now last.now oldest.now allowed) }
{
    let t = judge_words(
        allowed.spare,
        columns,
        rows,
        map,
        data,
        last.len(),
        oldest.len(),
        new.len(),
        *place,
    )?;
    let n = draw_word_packet(
        columns,
        rows,
        map,
        data,
        last,
        oldest,
        new,
        place,
        allowed.stores,
    );
    Ok(answer_of(columns * rows, *place, n, t))
}
