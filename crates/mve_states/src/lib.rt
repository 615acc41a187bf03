// The state of a walk as 18 numbers, for hosts in other languages: read, and written behind the 8 numbers that an answer begins with. In this order: position,
// chunk_end, columns, rows, front, has_map, map_start, map_length, unsent, stream, has_format, stereo, wide, compressed, begun, left, right, true_colour. has_map is 0
// where no map is pending, and unsent is 0 where no frame is finished and unsent. stream is the one that opening was given. has_format is 0 before a 03, and nothing of
// sound behind it is read there. stereo, wide and compressed are what the last 03 said; wide is 16-bit. begun is 0 where no compressed 08 was taken since. left and right
// are the last sample of each channel. true_colour is 0 for a film without it.
#![tactic(auto)]

ghost use Rattle.std.specs.Prelude.{◌≡◌, [], ◌∷◌, ◌≤◌, length, get_or};
ghost use Rattle.std.proofs.lemmas.List.Edits.{sets};
ghost use Rattle.mve_states.specs.State.{flag_of, number_of, is_state, map_of, sound_of, state_of, of_map, of_sound, of_state, no_state};

use sound::{Format, Sound};
use state::{Cursor, Part, State};

// Whether these are a state's numbers.
#[tactic(auto, unfolding(crate::specs::State::is_state))]
pub fn is_state(from: &[usize]) -> bool
    ensures { result ≡ is_state from.now }
{
    from.len() == 18 && from[15] <= 65535 && from[16] <= 65535
}

#[tactic(auto, unfolding(crate::specs::State::map_of))]
fn map_of(has: usize, start: usize, long: usize) -> Option<Part>
    ensures { result ≡ map_of has start long }
{
    if has == 0 {
        None
    } else {
        Some(Part { start, long })
    }
}

#[tactic(auto, unfolding(crate::specs::State::sound_of))]
fn sound_of(from: &[usize]) -> Sound
    requires from_len { length from.now ≡ 18 }
    requires from_bound { (get_or from.now 15 0 ≤ 65535) × (get_or from.now 16 0 ≤ 65535) }
    ensures { result ≡ sound_of from.now }
{
    let stream = from[9];
    if from[10] == 0 {
        return Sound::new(stream);
    }
    Sound {
        stream,
        format: Some(Format {
            stereo: from[11] != 0,
            wide: from[12] != 0,
            compressed: from[13] != 0,
        }),
        begun: from[14] != 0,
        left: from[15] as u16,
        right: from[16] as u16,
    }
}

#[tactic(auto, unfolding(crate::specs::State::state_of))]
pub fn state_of(from: &[usize]) -> State
    requires from_len { length from.now ≡ 18 }
    requires from_bound { (get_or from.now 15 0 ≤ 65535) × (get_or from.now 16 0 ≤ 65535) }
    ensures { result ≡ state_of from.now }
{
    State {
        cursor: Cursor {
            position: from[0],
            chunk_end: from[1],
        },
        columns: from[2],
        rows: from[3],
        deep: from[17] != 0,
        front: from[4],
        map: map_of(from[5], from[6], from[7]),
        unsent: from[8] != 0,
        sound: sound_of(from),
    }
}

// The first five numbers of a state. An answer's number 8 is the state's first.
fn put_place(out: &mut [usize], st: State)
    requires { 26 ≤ length out.old }
    ensures { out.new ≡ sets out.old 8 (st.cursor.position ∷ st.cursor.chunk_end ∷ st.columns ∷ st.rows ∷ st.front ∷ []) }
{
    out[8] = st.cursor.position;
    out[9] = st.cursor.chunk_end;
    out[10] = st.columns;
    out[11] = st.rows;
    out[12] = st.front;
}

fn put_map(out: &mut [usize], has: usize, start: usize, long: usize)
    requires { 26 ≤ length out.old }
    ensures { out.new ≡ sets out.old 13 (has ∷ start ∷ long ∷ []) }
{
    out[13] = has;
    out[14] = start;
    out[15] = long;
}

#[tactic(auto, unfolding(crate::specs::State::of_map))]
fn put_pending(out: &mut [usize], map: Option<Part>)
    requires { 26 ≤ length out.old }
    ensures { out.new ≡ sets out.old 13 (of_map map) }
{
    match map {
        None => put_map(out, 0, 0, 0),
        Some(part) => put_map(out, 1, part.start, part.long),
    }
}

fn put_unsent(out: &mut [usize], unsent: usize)
    requires { 26 ≤ length out.old }
    ensures { out.new ≡ sets out.old 16 (unsent ∷ []) }
{
    out[16] = unsent;
}

fn put_format(
    out: &mut [usize],
    stream: usize,
    has: usize,
    stereo: usize,
    wide: usize,
    compressed: usize,
)
    requires { 26 ≤ length out.old }
    ensures { out.new ≡ sets out.old 17 (stream ∷ has ∷ stereo ∷ wide ∷ compressed ∷ []) }
{
    out[17] = stream;
    out[18] = has;
    out[19] = stereo;
    out[20] = wide;
    out[21] = compressed;
}

fn put_samples(out: &mut [usize], begun: usize, left: usize, right: usize)
    requires { 26 ≤ length out.old }
    ensures { out.new ≡ sets out.old 22 (begun ∷ left ∷ right ∷ []) }
{
    out[22] = begun;
    out[23] = left;
    out[24] = right;
}

#[tactic(auto, unfolding(crate::specs::State::with_format))]
fn put_sound(out: &mut [usize], s: Sound)
    requires { 26 ≤ length out.old }
    ensures { out.new ≡ sets out.old 17 (of_sound s) }
{
    match s.format {
        None => {
            put_format(out, s.stream, 0, 0, 0, 0);
            put_samples(out, 0, 0, 0);
        }
        Some(f) => {
            put_format(
                out,
                s.stream,
                1,
                usize::from(f.stereo),
                usize::from(f.wide),
                usize::from(f.compressed),
            );
            put_samples(
                out,
                usize::from(s.begun),
                usize::from(s.left),
                usize::from(s.right),
            );
        }
    }
}

fn put_deep(out: &mut [usize], deep: usize)
    requires { 26 ≤ length out.old }
    ensures { out.new ≡ sets out.old 25 (deep ∷ []) }
{
    out[25] = deep;
}

pub fn put_state(out: &mut [usize], st: State)
    requires { 26 ≤ length out.old }
    ensures { out.new ≡ sets out.old 8 (of_state st) }
{
    put_place(out, st);
    put_pending(out, st.map);
    put_unsent(out, usize::from(st.unsent));
    put_sound(out, st.sound);
    put_deep(out, usize::from(st.deep));
}

// A state's numbers as they came.
pub fn put_numbers(out: &mut [usize], from: &[usize])
    requires in_bounds { 26 ≤ length out.old }
    requires from_len { length from.now ≡ 18 }
    ensures { out.new ≡ sets out.old 8 from.now }
{
    // By index: `copy_from_slice` calls `memmove`, which a host need not have.
    for i in 0..18 {
        out[8 + i] = from[i];
    }
}

// The numbers where there is no state.
pub fn put_no_state(out: &mut [usize])
    requires { 26 ≤ length out.old }
    ensures { out.new ≡ sets out.old 8 no_state }
{
    out[8..26].fill(0);
}
