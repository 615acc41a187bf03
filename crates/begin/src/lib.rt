// One opening call: the header, and then steps until a size appears. All are judged before the first store.
#![tactic(auto)]

ghost use Rattle.std.specs.Prelude.{◌≡◌, List, ℕ, ◌≤◌, length};
ghost use Rattle.palette.specs.Update.{told};
ghost use Rattle.sound.specs.Step.{enough};
ghost use Rattle.next.specs.Next.{Ready};
ghost use Rattle.opcodes.specs.Opcodes.{quiet, stepped_as};
ghost use Rattle.film.specs.Film.{Words, Lent, lent, act_on, hear, take_on, step_of};
ghost use Rattle.begin.specs.Begin.{allowance, Early, judged, course_of, turn_as, begun_as, came, to_size, kept, begin_of};

use heads::{Opcode, is_heard};
use next::{Next, standing_at};
use opcodes::{Stepped, colour_of, heard_step, size_step};
use opening::open;
use paint::set_place;
use palette::{
    create_gradient, judge_entries, judge_gradient, judge_groups, set_palette,
    set_palette_compressed,
};
use refusal::Refusal;
use sound::{Sound, drop_audio_data, drop_audio_silence, initialize_audio, is_chosen};
use state::{Cursor, Part, State};
use words::word_at;

// A refusal, with the state that the refused step was given.
#[derive(Clone, Copy)]
pub struct Stopped {
    pub refusal: Refusal,
    pub state: State,
}

// 03, 08, 09 where a stream is chosen. The samples are dropped: empty is a room of no bytes.
fn drop_sound(
    st: State,
    kind: usize,
    version: usize,
    body: &[u8],
    p: usize,
    empty: &mut [u8],
) -> Result<Stepped, Refusal>
    requires { length empty.old ≡ 0 }
    ensures { (l : Lent) → enough ≤ length l.room → stepped_as result ≡ (hear st kind version body.now p l).step }
{
    match kind {
        3 => heard_step(st, p, initialize_audio(st.sound, version, body)),
        8 => heard_step(st, p, drop_audio_data(st.sound, body, empty)),
        _ => heard_step(st, p, drop_audio_silence(st.sound, body)),
    }
}

// 0B, 0C, 0D, by their tests: every store is allowed.
#[tactic(auto, unfolding(crate::specs::Begin::judged))]
fn judged_step(st: State, p: usize, u: Result<(), Refusal>) -> Result<Stepped, Refusal>
    ensures { stepped_as result ≡ quiet (judged st p (told u)) }
{
    u?;
    Ok(Stepped::Taken(st.behind(p), 0))
}

// An opcode that is taken and is no sound, where there is no size and the palette has 768 bytes. Without a size 11 is refused. Nothing is stored, so none is counted.
fn act(film: &[u8], st: State, o: Opcode) -> Result<Stepped, Refusal>
    requires ready { Ready (length film.now) st.cursor o }
    requires early { Early (length film.now) st }
    ensures { (l : Lent) → length l.palette ≡ 768 → (stepped_as result).answer ≡ (act_on film.now st o allowance l).step.answer }
{
    let s = o.start;
    let p = s + o.long;
    let kind = o.kind;
    let body = &film[s..p];
    match kind {
        0 => Ok(Stepped::Taken(st.at_end(film.len()), 0)),
        5 => {
            let colour = colour_of(body, o.version);
            size_step(st, p, word_at(body, 0), word_at(body, 2), colour)
        }
        7 => Ok(Stepped::Taken(st.sent(p), 0)),
        11 => judged_step(st, p, judge_gradient(body, 768)),
        12 => judged_step(st, p, judge_entries(body, 768)),
        13 => judged_step(st, p, judge_groups(body, 768)),
        15 => {
            let part = Part {
                start: s,
                long: p - s,
            };
            Ok(Stepped::Taken(st.mapped(p, Some(part)), 0))
        }
        17 => Err(Refusal::NoMap),
        _ => Ok(Stepped::Taken(st.behind(p), 0)),
    }
}

// An opcode that is taken.
fn take(film: &[u8], st: State, o: Opcode, empty: &mut [u8]) -> Result<Stepped, Refusal>
    requires ready { Ready (length film.now) st.cursor o }
    requires early { Early (length film.now) st }
    requires empty_len { length empty.old ≡ 0 }
    ensures { (l : Lent) → length l.palette ≡ 768 → enough ≤ length l.room → (stepped_as result).answer ≡ (take_on film.now st o allowance l).step.answer }
{
    if is_heard(is_chosen(st.sound.stream), o.kind) {
        let s = o.start;
        let p = s + o.long;
        return drop_sound(st, o.kind, o.version, &film[s..p], p, empty);
    }
    act(film, st, o)
}

// What a step leads to: on with a state, or a refusal; 21 at the film's end.
#[tactic(auto, unfolding(crate::specs::Begin::course_of))]
fn turn_of(x: Result<Stepped, Refusal>) -> Result<State, Refusal>
    ensures { turn_as result ≡ course_of (stepped_as x).answer }
{
    match x? {
        Stepped::Taken(st, _) | Stepped::Heard(st, _) => Ok(st),
        Stepped::Whole(st, _, _) | Stepped::Unfinished(st, _, _) => Ok(st),
        Stepped::Ended(_) => Err(Refusal::NoSize),
    }
}

// What a step leads to where there is no size and the palette has 768 bytes. Nothing is stored: samples that are dropped get the palette's part of no bytes as their room.
fn foresee(film: &[u8], st: State, palette: &mut [u8]) -> Result<State, Refusal>
    requires { Early (length film.now) st }
    ensures result_value { (l : Lent) → length l.palette ≡ 768 → enough ≤ length l.room → turn_as result ≡ course_of (step_of film.now st allowance l).step.answer }
    ensures palette_unchanged { palette.new ≡ palette.old }
{
    match standing_at(film, st.cursor, is_chosen(st.sound.stream))? {
        Next::Ended => Err(Refusal::NoSize),
        Next::Chunk(chunk) => Ok(st.into_chunk(chunk)),
        Next::Opcode(o) => turn_of(take(film, st, o, &mut palette[..0])),
    }
}

// The stores of an opcode that is no sound, where there is no size: those of 0B, 0C, 0D and 0F, all of which are allowed. What `foresee` judged is not refused.
fn store_opcode(film: &[u8], st: State, o: Opcode, palette: &mut [u8], place: &mut usize)
    requires ready { Ready (length film.now) st.cursor o }
    requires columns_value { st.columns ≡ 0 }
    ensures by_index { (a b room : List ℕ) (w : Words) → palette.new ≡ (act_on film.now st o allowance (lent palette.old a b place.old room w)).lent.palette }
    ensures by_index_2 { (a b room : List ℕ) (w : Words) → place.new ≡ (act_on film.now st o allowance (lent palette.old a b place.old room w)).lent.place }
{
    let s = o.start;
    let p = s + o.long;
    let kind = o.kind;
    let body = &film[s..p];
    let allowed = 312000;
    match kind {
        11 => {
            let _ = create_gradient(body, palette, allowed);
        }
        12 => {
            let _ = set_palette(body, palette, allowed);
        }
        13 => {
            let _ = set_palette_compressed(body, palette, allowed);
        }
        15 => set_place(place, 0),
        _ => {}
    }
}

// The stores of a step where there is no size: the palette and the place are then as the step leaves them.
fn store(film: &[u8], st: State, palette: &mut [u8], place: &mut usize)
    requires { Early (length film.now) st × (length palette.old ≡ 768) }
    ensures by_index { (a b room : List ℕ) (w : Words) → palette.new ≡ (step_of film.now st allowance (lent palette.old a b place.old room w)).lent.palette }
    ensures by_index_2 { (a b room : List ℕ) (w : Words) → place.new ≡ (step_of film.now st allowance (lent palette.old a b place.old room w)).lent.place }
{
    let hears = is_chosen(st.sound.stream);
    match standing_at(film, st.cursor, hears) {
        Err(_) => {}
        Ok(Next::Ended) => {}
        Ok(Next::Chunk(_)) => {}
        Ok(Next::Opcode(o)) => {
            if !is_heard(hears, o.kind) {
                store_opcode(film, st, o, palette, place);
            }
        }
    }
}

// Steps until a size appears, twice. The first time nothing is stored, so that a refusal leaves the palette and the place as they were. It is one loop, and each function
// has one caller, for the stack's sake: the compiler then keeps one state.
fn begin_from(
    film: &[u8],
    first: State,
    palette: &mut [u8],
    place: &mut usize,
) -> Result<State, Stopped>
    requires { Early (length film.now) first }
    ensures { came (begun_as result) palette.new place.new ≡ kept palette.old place.old (to_size film.now first palette.old place.old) }
{
    if palette.len() != 768 {
        return Err(Stopped {
            refusal: Refusal::Buffer,
            state: first,
        });
    }
    let mut st = first;
    let mut storing = false;
    loop {
        if st.columns == 0 {
            match foresee(film, st, palette) {
                Ok(next) => {
                    if storing {
                        store(film, st, palette, place);
                    }
                    st = next;
                }
                Err(refusal) => return Err(Stopped { refusal, state: st }),
            }
        } else if storing {
            return Ok(st);
        } else {
            storing = true;
            st = first;
        }
    }
}

// Opens a film and steps until a size appears: the state just after 05, with the palette and the place as the steps leave them. A refusal leaves both as they were.
pub fn begin(
    film: &[u8],
    stream: usize,
    palette: &mut [u8],
    place: &mut usize,
) -> Result<State, Stopped>
    ensures { came (begun_as result) palette.new place.new ≡ begin_of film.now stream palette.old place.old }
{
    match open(film, stream) {
        Ok(first) => begin_from(film, first, palette, place),
        Err(refusal) => {
            Err(Stopped {
                refusal,
                state: State {
                    cursor: Cursor {
                        position: 0,
                        chunk_end: 0,
                    },
                    columns: 0,
                    rows: 0,
                    deep: false,
                    front: 0,
                    map: None,
                    unsent: false,
                    sound: Sound::new(0),
                },
            })
        }
    }
}
