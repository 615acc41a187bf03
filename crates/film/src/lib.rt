// One step over a film: a chunk's head or one opcode.
#![tactic(auto)]

ghost use Rattle.std.specs.Prelude.{◌≡◌, true, false, ℕ, ◌≤◌, List, length};
ghost use Rattle.palette.specs.Update.{changed_as};
ghost use Rattle.state.specs.State.{map_inside};
ghost use Rattle.next.specs.Next.{Ready};
ghost use Rattle.opcodes.specs.Opcodes.{stepped_as};
ghost use Rattle.film.specs.Asked.{Tested};
ghost use Rattle.film.specs.Film.{Lent, words, lent, with_pictures, with_words, with_room, after, draw_on, is_body_short, draw_by, palette_step, act_on, hear, take_on, step_of};

use draw::{Allowed, answer_of, draw_blocks, judge};
use heads::{Opcode, is_heard};
use next::{Next, find};
use opcodes::{Stepped, drawn_step, heard_step, quiet_step};
use packet::Rows;
use paint::set_place;
use palette::{Changed, create_gradient, set_palette, set_palette_compressed};
use refusal::Refusal;
use sound::{audio_data, audio_silence, initialize_audio, is_chosen};
use state::{Part, State, shortest};
use word_calls::{draw_word_packet, judge_words};

// 11 on back, the picture of bytes that is not front. Whatever else is lent stays as it is. The tests come first and are gone from the stack while blocks are drawn.
fn draw_on(
    st: State,
    p: usize,
    map: &[u8],
    packet: &[u8],
    a: &mut [u8],
    b: &mut [u8],
    place: &mut usize,
    allowed: Allowed,
) -> Result<Stepped, Refusal>
    requires { st.deep ≡ false }
    ensures { (l : Lent) → after (stepped_as result) (with_pictures l a.new b.new place.new) ≡ draw_on st p map.now packet.now allowed (with_pictures l a.old b.old place.old) }
{
    let columns = st.columns;
    let rows = st.rows;
    let n = allowed.stores;
    let t = judge(
        allowed.spare,
        columns,
        rows,
        map,
        packet,
        a.len(),
        b.len(),
        *place,
    )?;
    if st.front == 0 {
        let made = draw_blocks(columns, rows, map, packet, &a[..], &mut b[..], place, n);
        drawn_step(st, p, Ok(answer_of(columns * rows, *place, made, t)))
    } else {
        let made = draw_blocks(columns, rows, map, packet, &b[..], &mut a[..], place, n);
        drawn_step(st, p, Ok(answer_of(columns * rows, *place, made, t)))
    }
}

// 11 whose tests are made: on the picture of words behind the one that is shown, while the one behind both is read, too.
fn draw_new(
    st: State,
    p: usize,
    map: &[u8],
    s: &[u8],
    c: &mut [u16],
    d: &mut [u16],
    e: &mut [u16],
    place: &mut usize,
    allowed: Allowed,
    t: Option<Rows>,
) -> Result<Stepped, Refusal>
    requires { Tested st allowed.spare map.now s.now (length c.old) (length e.old) (length d.old) place.old t }
    ensures { (l : Lent) → after (stepped_as result) (with_words l (words c.new d.new e.new) place.new) ≡ draw_on st p map.now s.now allowed (with_words l (words c.old d.old e.old) place.old) }
{
    let columns = st.columns;
    let rows = st.rows;
    let n = allowed.stores;
    if st.front == 0 {
        let made = draw_word_packet(columns, rows, map, s, &c[..], &e[..], &mut d[..], place, n);
        drawn_step(st, p, Ok(answer_of(columns * rows, *place, made, t)))
    } else if st.front == 1 {
        let made = draw_word_packet(columns, rows, map, s, &d[..], &c[..], &mut e[..], place, n);
        drawn_step(st, p, Ok(answer_of(columns * rows, *place, made, t)))
    } else {
        let made = draw_word_packet(columns, rows, map, s, &e[..], &d[..], &mut c[..], place, n);
        drawn_step(st, p, Ok(answer_of(columns * rows, *place, made, t)))
    }
}

// 11 of a film with true colour. Whatever else is lent stays as it is.
fn draw_words_on(
    st: State,
    p: usize,
    map: &[u8],
    packet: &[u8],
    c: &mut [u16],
    d: &mut [u16],
    e: &mut [u16],
    place: &mut usize,
    allowed: Allowed,
) -> Result<Stepped, Refusal>
    requires { st.deep ≡ true }
    ensures { (l : Lent) → after (stepped_as result) (with_words l (words c.new d.new e.new) place.new) ≡ draw_on st p map.now packet.now allowed (with_words l (words c.old d.old e.old) place.old) }
{
    let t = judge_words(
        allowed.spare,
        st.columns,
        st.rows,
        map,
        packet,
        c.len(),
        e.len(),
        d.len(),
        *place,
    )?;
    draw_new(st, p, map, packet, c, d, e, place, allowed, t)
}

#[tactic(auto, unfolding(crate::specs::Film::is_body_short))]
fn is_body_short(deep: bool, n: usize) -> bool
    ensures { result ≡ is_body_short deep n }
{
    deep && n < 16
}

// 11, its body ending at p: the packet is the part of the film behind the body's 14 bytes. 5 for a body without a packet's first word where the film has true colour; 9
// without a size or a pending map.
#[tactic(auto, unfolding(crate::specs::Film::draw_by, crate::specs::Film::draw_mapped))]
fn draw_by(
    film: &[u8],
    st: State,
    body: &[u8],
    p: usize,
    a: &mut [u8],
    b: &mut [u8],
    c: &mut [u16],
    d: &mut [u16],
    e: &mut [u16],
    place: &mut usize,
    allowed: Allowed,
) -> Result<Stepped, Refusal>
    requires in_bounds { 14 ≤ length body.now }
    requires film_value { map_inside st.map (length film.now) ≡ true }
    ensures { (palette room : List ℕ) → after (stepped_as result) (lent palette a.new b.new place.new room (words c.new d.new e.new)) ≡ draw_by st.map film.now st body.now p allowed (lent palette a.old b.old place.old room (words c.old d.old e.old)) }
{
    if is_body_short(st.deep, body.len()) {
        return Err(Refusal::BodyLength);
    }
    match st.map {
        None => Err(Refusal::NoMap),
        Some(part) => {
            if st.columns == 0 {
                return Err(Refusal::NoMap);
            }
            let map = &film[part.start..part.start + part.long];
            let packet = &body[14..];
            if st.deep {
                draw_words_on(st, p, map, packet, c, d, e, place, allowed)
            } else {
                draw_on(st, p, map, packet, a, b, place, allowed)
            }
        }
    }
}

// 0B, 0C, 0D, after the palette's change.
#[tactic(auto, unfolding(crate::specs::Film::palette_step))]
fn palette_step(st: State, p: usize, c: Result<Changed, Refusal>) -> Result<Stepped, Refusal>
    ensures { stepped_as result ≡ palette_step st p (changed_as c) }
{
    match c? {
        Changed::Whole(n) => Ok(Stepped::Taken(st.behind(p), n)),
        Changed::Unfinished(n) => Ok(Stepped::Unfinished(st, n, None)),
    }
}

// An opcode that is taken and is no sound. The room stays as it is.
#[tactic(auto, unfolding(crate::specs::Film::act, crate::specs::Film::map_to))]
fn act_on(
    film: &[u8],
    st: State,
    o: Opcode,
    palette: &mut [u8],
    a: &mut [u8],
    b: &mut [u8],
    c: &mut [u16],
    d: &mut [u16],
    e: &mut [u16],
    place: &mut usize,
    allowed: Allowed,
) -> Result<Stepped, Refusal>
    requires ready { Ready (length film.now) st.cursor o }
    requires film_value { map_inside st.map (length film.now) ≡ true }
    ensures { (room : List ℕ) → after (stepped_as result) (lent palette.new a.new b.new place.new room (words c.new d.new e.new)) ≡ act_on film.now st o allowed (lent palette.old a.old b.old place.old room (words c.old d.old e.old)) }
{
    let s = o.start;
    let p = s + o.long;
    let kind = o.kind;
    let body = &film[s..p];
    let n = allowed.stores;
    match kind {
        11 => palette_step(st, p, create_gradient(body, palette, n)),
        12 => palette_step(st, p, set_palette(body, palette, n)),
        13 => palette_step(st, p, set_palette_compressed(body, palette, n)),
        15 => {
            if n == 0 {
                return Ok(Stepped::Unfinished(st, 0, None));
            }
            set_place(place, 0);
            let map = Part {
                start: s,
                long: p - s,
            };
            Ok(Stepped::Taken(st.mapped(p, Some(map)), 1))
        }
        17 => draw_by(film, st, body, p, a, b, c, d, e, place, allowed),
        _ => quiet_step(film.len(), st, kind, o.version, body, p),
    }
}

// 03, 08, 09 where a stream is chosen. Whatever else is lent stays as it is.
#[tactic(auto, unfolding(crate::specs::Film::hear, crate::specs::Film::heard_by))]
fn hear_sound(
    st: State,
    kind: usize,
    version: usize,
    body: &[u8],
    p: usize,
    room: &mut [u8],
) -> Result<Stepped, Refusal>
    ensures { (l : Lent) → after (stepped_as result) (with_room l room.new) ≡ hear st kind version body.now p (with_room l room.old) }
{
    match kind {
        3 => heard_step(st, p, initialize_audio(st.sound, version, body)),
        8 => heard_step(st, p, audio_data(st.sound, body, room)),
        _ => heard_step(st, p, audio_silence(st.sound, body, room)),
    }
}

// An opcode that is taken.
#[tactic(auto, unfolding(crate::specs::Film::take_on))]
fn take_on(
    film: &[u8],
    st: State,
    o: Opcode,
    palette: &mut [u8],
    a: &mut [u8],
    b: &mut [u8],
    c: &mut [u16],
    d: &mut [u16],
    e: &mut [u16],
    place: &mut usize,
    room: &mut [u8],
    allowed: Allowed,
) -> Result<Stepped, Refusal>
    requires ready { Ready (length film.now) st.cursor o }
    requires film_value { map_inside st.map (length film.now) ≡ true }
    ensures { after (stepped_as result) (lent palette.new a.new b.new place.new room.new (words c.new d.new e.new)) ≡ take_on film.now st o allowed (lent palette.old a.old b.old place.old room.old (words c.old d.old e.old)) }
{
    if is_heard(is_chosen(st.sound.stream), o.kind) {
        let s = o.start;
        let p = s + o.long;
        hear_sound(st, o.kind, o.version, &film[s..p], p, room)
    } else {
        act_on(film, st, o, palette, a, b, c, d, e, place, allowed)
    }
}

// One step: a chunk's head where position and chunk end are equal, else one opcode. Every test is made again; a refused step changes nothing, and one that runs short of
// stores keeps the state. allowed: the stores, and the bytes that a packet may leave over.
#[tactic(auto, unfolding(crate::specs::Film::step_of, crate::specs::Film::standing))]
pub fn step(
    film: &[u8],
    st: State,
    palette: &mut [u8],
    a: &mut [u8],
    b: &mut [u8],
    c: &mut [u16],
    d: &mut [u16],
    e: &mut [u16],
    place: &mut usize,
    room: &mut [u8],
    allowed: Allowed,
) -> Result<Stepped, Refusal>
    ensures { after (stepped_as result) (lent palette.new a.new b.new place.new room.new (words c.new d.new e.new)) ≡ step_of film.now st allowed (lent palette.old a.old b.old place.old room.old (words c.old d.old e.old)) }
{
    let short = shortest(st.deep, a.len(), b.len(), c.len(), d.len(), e.len());
    match find(film, st, palette.len(), short)? {
        Next::Ended => Ok(Stepped::Ended(st)),
        Next::Chunk(chunk) => Ok(Stepped::Taken(st.into_chunk(chunk), 0)),
        Next::Opcode(o) => take_on(film, st, o, palette, a, b, c, d, e, place, room, allowed),
    }
}
