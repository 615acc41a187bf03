// The interface for C and Rust. Nothing is done here but to hand on.
#![tactic(auto)]

ghost use Rattle.std.specs.Prelude.{◌≡◌, true, length};
ghost use Rattle.packet.specs.Packet.{packet, packet_in};
ghost use Rattle.packet.specs.Verdict.{default, strict, verdict, verdict_in};
ghost use Rattle.packet.specs.Rows.{touched, finding};
ghost use Rattle.stores.specs.Stores.{memory};
ghost use Rattle.draw.specs.Call.{within, request, word_request, pictures, word_pictures, leaves, report, said};
ghost use Rattle.origin.specs.Trace.{trace_of};
ghost use Rattle.film.specs.Film.{words, lent};
ghost use Rattle.video1.specs.Frame.{frame_verdict, frame_after};
ghost use Rattle.salvage.specs.Salvage.{answer_of, bytes_after, numbers_after};
ghost use Rattle.strip.specs.Strip.{strip_answer, strip_room};
ghost use Rattle.encode.specs.Encode.{task, encode_of};
ghost use Rattle.mve_answers.specs.Answer.{of_found, of_report, of_verdict};
ghost use Rattle.mve_answers.specs.Trace.{of_trace};
ghost use Rattle.mve_salvages.specs.Salvages.{of_salvage};
ghost use Rattle.mve_encodes.specs.Encodes.{of_answer};
ghost use Rattle.mve_strips.specs.Strips.{of_strip};
ghost use Rattle.exports.specs.Calls.{exit, mve_open, mve_step, mve_begin, mve_shown, mve_shown_words};

use draw::{Allowed, Drawn};
use mve_answers::{MveAnswer, MveOrigin, answered, of_check, of_trace, of_verdict, refused};
use mve_encodes::{MveEncoded, of_encoded};
use mve_salvages::{MveSalvaged, of_salvaged};
use mve_states::{is_state, state_of};
use mve_steps::{put_begun, put_opened, put_step, put_unread, spare_of};
use mve_strips::{MveStripped, of_stripped};
use packet::{default_spare, strict_spare};
use refusal::Refusal;

// Whether a packet is accepted for a picture of columns by rows blocks.
#[unsafe(no_mangle)]
pub extern "C" fn mve_check(columns: usize, rows: usize, map: &[u8], data: &[u8]) -> MveAnswer
    ensures { result ≡ of_found (finding (verdict default columns rows map.now «data».now) (touched (packet columns rows map.now «data».now))) }
{
    of_check(packet::check(default_spare(), columns, rows, map, data))
}

// The strict form: no byte may be left over.
#[unsafe(no_mangle)]
pub extern "C" fn mve_check_strict(
    columns: usize,
    rows: usize,
    map: &[u8],
    data: &[u8],
) -> MveAnswer
    ensures { result ≡ of_found (finding (verdict strict columns rows map.now «data».now) (touched (packet columns rows map.now «data».now))) }
{
    of_check(packet::check(strict_spare(), columns, rows, map, data))
}

// Whether a packet of a film with true colour is accepted.
#[unsafe(no_mangle)]
pub extern "C" fn mve_check_words(columns: usize, rows: usize, map: &[u8], data: &[u8]) -> MveAnswer
    ensures { result ≡ of_found (finding (verdict_in true default columns rows map.now «data».now) (touched (packet_in true columns rows map.now «data».now))) }
{
    of_check(word_packet::check_words(default_spare(), columns, rows, map, data))
}

// The strict form: no byte may be left over.
#[unsafe(no_mangle)]
pub extern "C" fn mve_check_words_strict(
    columns: usize,
    rows: usize,
    map: &[u8],
    data: &[u8],
) -> MveAnswer
    ensures { result ≡ of_found (finding (verdict_in true strict columns rows map.now «data».now) (touched (packet_in true columns rows map.now «data».now))) }
{
    of_check(word_packet::check_words(strict_spare(), columns, rows, map, data))
}

// The answer of a drawing call, of bytes or of words.
#[tactic(auto, unfolding(mve_answers::specs::Answer::of_answer))]
fn of_draw(d: Result<Drawn, Refusal>) -> MveAnswer
    ensures { result ≡ of_report (said d) }
{
    match d {
        Ok(Drawn::Whole(n, t)) => answered(1, n, t),
        Ok(Drawn::Unfinished(n, t)) => answered(2, n, t),
        Err(r) => refused(r),
    }
}

// The drawing call.
#[unsafe(no_mangle)]
pub extern "C" fn mve_draw(
    columns: usize,
    rows: usize,
    map: &[u8],
    data: &[u8],
    front: &[u8],
    back: &mut [u8],
    place: &mut usize,
    allowed: usize,
) -> MveAnswer
    ensures place_after { pictures front.now (memory back.new place.new) ≡ leaves (request columns rows map.now «data».now front.now (within allowed default)) (memory back.old place.old) }
    ensures value { result ≡ of_report (report (memory back.old place.old) (request columns rows map.now «data».now front.now (within allowed default))) }
{
    let allowed = Allowed::by_default(allowed);
    of_draw(draw::draw(columns, rows, map, data, front, back, place, allowed))
}

// The strict form: no byte may be left over.
#[unsafe(no_mangle)]
pub extern "C" fn mve_draw_strict(
    columns: usize,
    rows: usize,
    map: &[u8],
    data: &[u8],
    front: &[u8],
    back: &mut [u8],
    place: &mut usize,
    allowed: usize,
) -> MveAnswer
    ensures place_after { pictures front.now (memory back.new place.new) ≡ leaves (request columns rows map.now «data».now front.now (within allowed strict)) (memory back.old place.old) }
    ensures value { result ≡ of_report (report (memory back.old place.old) (request columns rows map.now «data».now front.now (within allowed strict))) }
{
    let allowed = Allowed::strictly(allowed);
    of_draw(draw::draw(columns, rows, map, data, front, back, place, allowed))
}

// The drawing call of films with true colour.
#[unsafe(no_mangle)]
pub extern "C" fn mve_draw_words<'a>(
    columns: usize,
    rows: usize,
    map: &[u8],
    data: &[u8],
    last: &'a [u16],
    oldest: &'a [u16],
    new: &mut [u16],
    place: &mut usize,
    allowed: usize,
) -> MveAnswer
    ensures place_after { word_pictures last.now oldest.now (memory new.new place.new) ≡ leaves (word_request columns rows map.now «data».now last.now oldest.now (within allowed default)) (memory new.old place.old) }
    ensures value { result ≡ of_report (report (memory new.old place.old) (word_request columns rows map.now «data».now last.now oldest.now (within allowed default))) }
{
    let allowed = Allowed::by_default(allowed);
    of_draw(word_calls::draw_words(columns, rows, map, data, last, oldest, new, place, allowed))
}

// The strict form: no byte may be left over.
#[unsafe(no_mangle)]
pub extern "C" fn mve_draw_words_strict<'a>(
    columns: usize,
    rows: usize,
    map: &[u8],
    data: &[u8],
    last: &'a [u16],
    oldest: &'a [u16],
    new: &mut [u16],
    place: &mut usize,
    allowed: usize,
) -> MveAnswer
    ensures place_after { word_pictures last.now oldest.now (memory new.new place.new) ≡ leaves (word_request columns rows map.now «data».now last.now oldest.now (within allowed strict)) (memory new.old place.old) }
    ensures value { result ≡ of_report (report (memory new.old place.old) (word_request columns rows map.now «data».now last.now oldest.now (within allowed strict))) }
{
    let allowed = Allowed::strictly(allowed);
    of_draw(word_calls::draw_words(columns, rows, map, data, last, oldest, new, place, allowed))
}

// An answer over a film has so many numbers. A call that is lent fewer for it, in `out`, touches nothing and returns 4; else it returns the answer's kind.
const ANSWER: usize = 26;

// The first state of a film, and the stream whose sound is acted on: 0 to 15, or none above that.
#[unsafe(no_mangle)]
pub extern "C" fn mve_open(film: &[u8], stream: usize, out: &mut [usize]) -> usize
    ensures { exit result out.new tt ≡ mve_open film.now stream out.old }
{
    if out.len() < ANSWER {
        return 4;
    }
    put_opened(out, opening::open(film, stream))
}

// The state just after 05, with the palette and the place as the steps up to there leave them. A refusal leaves both as they were.
#[unsafe(no_mangle)]
pub extern "C" fn mve_begin(
    film: &[u8],
    stream: usize,
    out: &mut [usize],
    palette: &mut [u8],
    place: &mut usize,
) -> usize
    ensures { exit result out.new (palette.new, place.new) ≡ mve_begin film.now stream out.old palette.old place.old }
{
    if out.len() < ANSWER {
        return 4;
    }
    put_begun(out, begin::begin(film, stream, palette, place))
}

// One step over a film, in the default form where form is 0, else in the strict form. `from` is a state's numbers. a and b are the pictures of bytes; c, d and e are
// those of words, for a film with true colour. Both forms are one export: each of two would hand all it is given on to the same step, and that costs stack.
#[unsafe(no_mangle)]
pub extern "C" fn mve_step(
    film: &[u8],
    from: &[usize],
    out: &mut [usize],
    palette: &mut [u8],
    a: &mut [u8],
    b: &mut [u8],
    c: &mut [u16],
    d: &mut [u16],
    e: &mut [u16],
    place: &mut usize,
    room: &mut [u8],
    allowed: usize,
    form: usize,
) -> usize
    ensures { exit result out.new (lent palette.new a.new b.new place.new room.new (words c.new d.new e.new)) ≡ mve_step film.now from.now allowed form out.old (lent palette.old a.old b.old place.old room.old (words c.old d.old e.old)) }
{
    if out.len() < ANSWER {
        return 4;
    }
    if is_state(from) {
        let allowed = Allowed {
            stores: allowed,
            spare: spare_of(form),
        };
        let st = state_of(from);
        let x = film::step(film, st, palette, a, b, c, d, e, place, room, allowed);
        put_step(out, from, x)
    } else {
        put_unread(out)
    }
}

// How many leading bytes of the picture that is front are shown: 0 where none are, as of a film with true colour. The picture is the first where front is 0, the second
// where it is 1.
#[unsafe(no_mangle)]
pub extern "C" fn mve_shown<'a>(from: &[usize], a: &'a [u8], b: &'a [u8]) -> usize
    ensures { result ≡ mve_shown from.now a.now b.now }
{
    if is_state(from) {
        state::shown(state_of(from), a, b).len()
    } else {
        0
    }
}

// How many leading words of the picture that is front are shown: 0 where none are, as of a film without true colour. The picture is c, d or e where front is 0, 1 or 2.
#[unsafe(no_mangle)]
pub extern "C" fn mve_shown_words<'a>(
    from: &[usize],
    c: &'a [u16],
    d: &'a [u16],
    e: &'a [u16],
) -> usize
    ensures { result ≡ mve_shown_words from.now c.now d.now e.now }
{
    if is_state(from) {
        state::shown_words(state_of(from), c, d, e).len()
    } else {
        0
    }
}

// Where the value of the pixel at x, y comes from, in the picture that a packet gives with these pictures as they are at place 0.
#[unsafe(no_mangle)]
pub extern "C" fn mve_origin(
    columns: usize,
    rows: usize,
    map: &[u8],
    data: &[u8],
    front: &[u8],
    back: &[u8],
    x: usize,
    y: usize,
) -> MveOrigin
    ensures { result ≡ of_trace (trace_of columns rows map.now «data».now (length front.now) (length back.now) x y) }
{
    of_trace(origin::trace(columns, rows, map, data, front, back, x, y))
}

// What is left of a scratched film: the new film to the room, and three numbers for every chunk left out to the list. A refusal leaves both as they were.
#[unsafe(no_mangle)]
pub extern "C" fn mve_salvage(film: &[u8], room: &mut [u8], list: &mut [usize]) -> MveSalvaged
    ensures value { result ≡ of_salvage (answer_of film.now (length room.old) (length list.old)) }
    ensures room_after { room.new ≡ bytes_after film.now room.old (length list.old) }
    ensures list_after { list.new ≡ numbers_after film.now (length room.old) list.old }
{
    of_salvaged(salvage::salvage(film, room, list))
}

// What is left of a film without what a player of a stream passes over, to the room. A refusal leaves it as it was.
#[unsafe(no_mangle)]
pub extern "C" fn mve_strip(film: &[u8], stream: usize, room: &mut [u8]) -> MveStripped
    ensures value { result ≡ of_strip (strip_answer film.now stream (length room.old)) }
    ensures room_after { room.new ≡ strip_room film.now stream room.old }
{
    of_stripped(strip::strip(film, stream, room))
}

// Map and body of opcode 11 that give a wanted picture, each to its room. A refusal leaves both as they were.
#[unsafe(no_mangle)]
pub extern "C" fn mve_encode(
    columns: usize,
    rows: usize,
    wanted: &[u8],
    front: &[u8],
    back: &[u8],
    map: &mut [u8],
    body: &mut [u8],
) -> MveEncoded
    ensures value { result ≡ of_answer (encode_of (task columns wanted.now front.now back.now) rows map.old body.old).answer }
    ensures map_after { map.new ≡ (encode_of (task columns wanted.now front.now back.now) rows map.old body.old).map }
    ensures body_after { body.new ≡ (encode_of (task columns wanted.now front.now back.now) rows map.old body.old).body }
{
    of_encoded(encode::encode(columns, rows, wanted, front, back, map, body))
}

// A frame of Microsoft Video 1, drawn on the picture: 0, or the refusal's number, and then the picture is as it was.
#[unsafe(no_mangle)]
pub extern "C" fn mve_video1(columns: usize, rows: usize, data: &[u8], picture: &mut [u8]) -> usize
    ensures value { result ≡ of_verdict (frame_verdict columns rows «data».now (length picture.old)) }
    ensures picture_after { picture.new ≡ frame_after columns rows «data».now picture.old }
{
    of_verdict(video1::decode(columns, rows, data, picture))
}
