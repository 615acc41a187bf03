// What stands where a state is, after all tests that do not read a body.
#![tactic(auto)]

ghost use Rattle.std.specs.Prelude.{◌≡◌, ◌≤◌, length};
ghost use Rattle.state.specs.State.{area, lent_verdict};
ghost use Rattle.sound.specs.Format.{chosen};
ghost use Rattle.heads.specs.Heads.{taken_verdict};
ghost use Rattle.next.specs.Next.{next_as, on, opcode, end_of_chunk, standing_at, next_of, Possible};

use heads::{chunk_head, judge_opcode, opcode_head};
use refusal::Refusal;
use sound::is_chosen;
use state::{Cursor, State, area_of, judge_lent, judge_state};

#[derive(Clone, Copy)]
pub enum Next {
    Ended,
    Chunk(Cursor),
    Opcode(heads::Opcode),
}

#[tactic(auto, unfolding(crate::specs::Next::on))]
fn shaped(o: heads::Opcode, hears: bool) -> Result<Next, Refusal>
    ensures { next_as result ≡ on (taken_verdict hears o.kind o.version o.long) (opcode o) }
{
    judge_opcode(hears, o.kind, o.version, o.long)?;
    Ok(Next::Opcode(o))
}

#[tactic(auto, unfolding(crate::specs::Next::end_of_chunk, crate::specs::Next::chunk_standing))]
fn chunk_end(film: &[u8], c: Cursor) -> Result<Next, Refusal>
    requires { c.chunk_end ≤ length film.now }
    ensures { next_as result ≡ end_of_chunk film.now c }
{
    if c.chunk_end == film.len() {
        return Ok(Next::Ended);
    }
    let chunk = chunk_head(film, c)?;
    Ok(Next::Chunk(chunk))
}

// What stands at a cursor: the work of a reader. hears: a stream of sound is chosen.
// One value for both branches: after a `return` in the first the compiler built the answer on the stack before it gave it.
#[tactic(auto, unfolding(crate::specs::Next::standing_at, crate::specs::Next::opcode_standing))]
fn next_at(film: &[u8], c: Cursor, hears: bool) -> Result<Next, Refusal>
    requires { (c.position ≤ c.chunk_end) × (c.chunk_end ≤ length film.now) }
    ensures { next_as result ≡ standing_at hears film.now c }
{
    if c.position == c.chunk_end {
        chunk_end(film, c)
    } else {
        let o = opcode_head(film, c)?;
        shaped(o, hears)
    }
}

// A film together with the position at which it is read.
#[derive(Clone, Copy)]
pub struct Reader<'a> {
    pub film: &'a [u8],
    pub at: Cursor,
}

impl<'a> Reader<'a> {
    fn new(film: &'a [u8], at: Cursor) -> Reader<'a>
        ensures { (result.film ≡ film.entry) × (result.at ≡ at) }
    {
        Reader { film, at }
    }

    // What stands at its position.
    fn standing(self, hears: bool) -> Result<Next, Refusal>
        requires { (self.at.position ≤ self.at.chunk_end) × (self.at.chunk_end ≤ length self.film.now) }
        ensures { next_as result ≡ standing_at hears self.entry.film.now self.entry.at }
    {
        next_at(self.film, self.at, hears)
    }
}

// What stands at a cursor, through a reader. All that read a film call this.
pub fn standing_at(film: &[u8], c: Cursor, hears: bool) -> Result<Next, Refusal>
    requires { (c.position ≤ c.chunk_end) × (c.chunk_end ≤ length film.now) }
    ensures { next_as result ≡ standing_at hears film.now c }
{
    Reader::new(film, c).standing(hears)
}

#[tactic(auto, unfolding(crate::specs::Next::on))]
fn next_with_lent(film: &[u8], st: State, palette: usize, shortest: usize) -> Result<Next, Refusal>
    requires { Possible st (length film.now) }
    ensures { next_as result ≡ on (lent_verdict (area st.columns st.rows) palette shortest) (standing_at (chosen st.sound.stream) film.now st.cursor) }
{
    judge_lent(area_of(st.columns, st.rows), palette, shortest)?;
    standing_at(film, st.cursor, is_chosen(st.sound.stream))
}

// What stands where the state is, where the palette and the shortest of the film's own pictures are this long.
#[tactic(auto, unfolding(crate::specs::Next::next_of, crate::specs::Next::on))]
pub fn find(film: &[u8], st: State, palette: usize, shortest: usize) -> Result<Next, Refusal>
    ensures { next_as result ≡ next_of film.now st palette shortest }
{
    judge_state(st, film.len())?;
    next_with_lent(film, st, palette, shortest)
}
