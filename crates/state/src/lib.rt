// The state of a walk over a film, its tests, and the shown picture.
#![tactic(auto)]

ghost use Rattle.std.specs.Prelude.{◌≡◌, ◌+◌, ◌<◌, ◌^◌, leb};
ghost use Rattle.packet.specs.Verdict.{told};
ghost use Rattle.state.specs.Moves.{cursor_behind, cursor_into, cursor_at_end, at, behind, into, at_end, sized, shown_next, sent, mapped, heard, finished};
ghost use Rattle.state.specs.State.{most_front, possible_size, possible, map_inside, bounds_verdict, state_verdict, area, least_of, shortest_of, lent_verdict, leading, chosen, shown_of, chosen_words, shown_words_of};

use packet::is_legal_size;
use refusal::Refusal;
use sound::Sound;

// Where the next head stands, and where the chunk around it ends.
#[derive(Clone, Copy)]
pub struct Cursor {
    pub position: usize,
    pub chunk_end: usize,
}

// A part of the film, by its start and length: the pending map.
#[derive(Clone, Copy)]
pub struct Part {
    pub start: usize,
    pub long: usize,
}

// columns, rows: the size in blocks, 0 by 0 before opcode 05. deep: the film has true colour, false before 05. front: which lent picture is shown, 0 or 1, of pictures of
// words 0 to 2. unsent: a frame is finished and not yet sent. sound: the chosen stream, its format and its last samples.
#[derive(Clone, Copy)]
pub struct State {
    pub cursor: Cursor,
    pub columns: usize,
    pub rows: usize,
    pub deep: bool,
    pub front: usize,
    pub map: Option<Part>,
    pub unsent: bool,
    pub sound: Sound,
}

// Every move over a film is one of these methods: the value goes in, the moved one comes back.
#[tactic(auto, unfolding(crate::specs::Moves::cursor_behind, crate::specs::Moves::cursor_into, crate::specs::Moves::cursor_at_end))]
impl Cursor {
    // Behind an opcode whose body ends at p, in the same chunk.
    pub fn behind(self, p: usize) -> Cursor
        ensures { result ≡ cursor_behind self p }
    {
        Cursor {
            position: p,
            chunk_end: self.chunk_end,
        }
    }

    // Into a chunk: its head stands at the chunk's end, its body of this length behind the head.
    pub fn into_chunk(self, long: usize) -> Cursor
        requires { self.chunk_end + 4 + long < 2 ^ 64 }
        ensures { result ≡ cursor_into self long }
    {
        let body = self.chunk_end + 4;
        Cursor {
            position: body,
            chunk_end: body + long,
        }
    }

    // At the end of a film of this length.
    pub fn at_end(self, film: usize) -> Cursor
        ensures { result ≡ cursor_at_end self film }
    {
        Cursor {
            position: film,
            chunk_end: film,
        }
    }
}

#[tactic(auto, unfolding(crate::specs::Moves::at, crate::specs::Moves::sized, crate::specs::Moves::sent, crate::specs::Moves::mapped, crate::specs::Moves::heard, crate::specs::Moves::finished))]
impl State {
    // With another cursor, and all else as it was.
    fn at(self, cursor: Cursor) -> State
        ensures { result ≡ at self cursor }
    {
        State { cursor, ..self }
    }

    // Behind an opcode that changes nothing else.
    pub fn behind(self, p: usize) -> State
        ensures { result ≡ behind self p }
    {
        self.at(self.cursor.behind(p))
    }

    // Into the chunk whose head gave this cursor.
    pub fn into_chunk(self, chunk: Cursor) -> State
        ensures { result ≡ into self chunk }
    {
        self.at(chunk)
    }

    // 00: at the end of a film of this length.
    pub fn at_end(self, film: usize) -> State
        ensures { result ≡ at_end self film }
    {
        self.at(self.cursor.at_end(film))
    }

    // 05: with a size, and whether with true colour.
    pub fn sized(self, p: usize, columns: usize, rows: usize, deep: bool) -> State
        ensures { result ≡ sized self p columns rows deep }
    {
        State {
            cursor: self.cursor.behind(p),
            columns,
            rows,
            deep,
            ..self
        }
    }

    // 07: with the picture that is shown next, and nothing unsent.
    pub fn sent(self, p: usize) -> State
        ensures { result ≡ sent self p }
    {
        State {
            cursor: self.cursor.behind(p),
            front: shown_next(self.deep, self.unsent, self.front),
            unsent: false,
            ..self
        }
    }

    // 0F: with another pending map.
    pub fn mapped(self, p: usize, map: Option<Part>) -> State
        ensures { result ≡ mapped self p map }
    {
        State {
            cursor: self.cursor.behind(p),
            map,
            ..self
        }
    }

    // 03, 08, 09 where a stream is chosen: with the sound that comes of them.
    pub fn heard(self, p: usize, sound: Sound) -> State
        ensures { result ≡ heard self p sound }
    {
        State {
            cursor: self.cursor.behind(p),
            sound,
            ..self
        }
    }

    // 11, drawn whole: the map is used up, and a frame is finished and unsent.
    pub fn finished(self, p: usize) -> State
        ensures { result ≡ finished self p }
    {
        State {
            cursor: self.cursor.behind(p),
            map: None,
            unsent: true,
            ..self
        }
    }
}

// The picture that is shown after a 07: the next of two, or of three.
#[tactic(auto, unfolding(crate::specs::Moves::shown_next))]
fn shown_next(deep: bool, unsent: bool, front: usize) -> usize
    ensures { result ≡ shown_next deep unsent front }
{
    if !unsent {
        front
    } else if front == 0 {
        1
    } else if deep && front == 1 {
        2
    } else {
        0
    }
}

// The last picture that front can be.
#[tactic(auto, unfolding(crate::specs::State::most_front))]
fn most_front(deep: bool) -> usize
    ensures { result ≡ most_front deep }
{
    if deep { 2 } else { 1 }
}

#[tactic(auto, unfolding(crate::specs::State::possible_size))]
fn is_possible_size(deep: bool, columns: usize, rows: usize) -> bool
    ensures { result ≡ possible_size deep columns rows }
{
    if columns == 0 {
        !deep && rows == 0
    } else {
        is_legal_size(columns, rows)
    }
}

// Whether the size and the sound that a state keeps are possible.
#[tactic(auto, unfolding(crate::specs::State::possible))]
fn is_possible(st: State) -> bool
    ensures { result ≡ possible st }
{
    is_possible_size(st.deep, st.columns, st.rows) && st.sound.is_possible()
}

// Whether a pending map lies inside a film of n bytes. The sum of start and length might not fit.
#[tactic(auto, unfolding(crate::specs::State::map_inside))]
fn is_map_inside(map: Option<Part>, n: usize) -> bool
    ensures { result ≡ map_inside map n }
{
    match map {
        None => true,
        Some(part) => part.start <= n && part.long <= n - part.start,
    }
}

// Whether a state can be one of a film of n bytes.
#[tactic(auto, unfolding(crate::specs::State::state_verdict, crate::specs::State::bounds_verdict))]
pub fn judge_state(st: State, n: usize) -> Result<(), Refusal>
    ensures { told result ≡ state_verdict st n }
{
    let c = st.cursor;
    if c.position <= c.chunk_end
        && c.chunk_end <= n
        && is_map_inside(st.map, n)
        && st.front <= most_front(st.deep)
        && is_possible(st)
    {
        Ok(())
    } else {
        Err(Refusal::State)
    }
}

// The pixels of a picture, 0 where the size is not a legal one.
#[tactic(auto, unfolding(crate::specs::State::area))]
pub fn area_of(columns: usize, rows: usize) -> usize
    ensures { result ≡ area columns rows }
{
    if is_legal_size(columns, rows) {
        8 * rows * (8 * columns)
    } else {
        0
    }
}

// The length of the shortest of the film's own pictures: two of bytes, or three of words.
#[tactic(auto, unfolding(crate::specs::State::shortest_of, crate::specs::State::least_of))]
pub fn shortest(deep: bool, a: usize, b: usize, c: usize, d: usize, e: usize) -> usize
    ensures { result ≡ shortest_of deep a b c d e }
{
    if deep { c.min(d).min(e) } else { a.min(b) }
}

// Whether the lent palette and the shortest picture, of these lengths, hold pictures of so many pixels.
#[tactic(auto, unfolding(crate::specs::State::lent_verdict))]
pub fn judge_lent(pixels: usize, palette: usize, shortest: usize) -> Result<(), Refusal>
    ensures { told result ≡ lent_verdict pixels palette shortest }
{
    if palette == 768 && pixels <= shortest {
        Ok(())
    } else {
        Err(Refusal::Buffer)
    }
}

#[tactic(auto, unfolding(crate::specs::State::leading))]
fn leading<T>(s: &[T], n: usize) -> &[T]
    ensures { result.now ≡ leading s.now n }
{
    if n <= s.len() { &s[..n] } else { &s[..0] }
}

#[tactic(auto, unfolding(crate::specs::State::chosen))]
fn chosen_part<'a>(front: usize, n: usize, a: &'a [u8], b: &'a [u8]) -> &'a [u8]
    ensures { result.now ≡ chosen front n a.now b.now }
{
    match front {
        0 => leading(a, n),
        1 => leading(b, n),
        _ => leading(a, 0),
    }
}

// The shown picture: the leading bytes, one a pixel, of the lent picture that is front. None of a film with true colour.
#[tactic(auto, unfolding(crate::specs::State::shown_of))]
pub fn shown<'a>(st: State, a: &'a [u8], b: &'a [u8]) -> &'a [u8]
    ensures { result.now ≡ shown_of st a.now b.now }
{
    if st.deep {
        &a[..0]
    } else {
        chosen_part(st.front, area_of(st.columns, st.rows), a, b)
    }
}

#[tactic(auto, unfolding(crate::specs::State::chosen_words))]
fn chosen_words<'a>(front: usize, n: usize, c: &'a [u16], d: &'a [u16], e: &'a [u16]) -> &'a [u16]
    ensures { result.now ≡ chosen_words front n c.now d.now e.now }
{
    match front {
        0 => leading(c, n),
        1 => leading(d, n),
        2 => leading(e, n),
        _ => leading(c, 0),
    }
}

// The shown picture of a film with true colour: the leading words, one a pixel, of the lent picture that is front. None of any other film.
#[tactic(auto, unfolding(crate::specs::State::shown_words_of))]
pub fn shown_words<'a>(st: State, c: &'a [u16], d: &'a [u16], e: &'a [u16]) -> &'a [u16]
    ensures { result.now ≡ shown_words_of st c.now d.now e.now }
{
    if st.deep {
        chosen_words(st.front, area_of(st.columns, st.rows), c, d, e)
    } else {
        &c[..0]
    }
}
