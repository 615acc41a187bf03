// Answers about a film as 26 numbers, for hosts in other languages: of a step and of opening. In this order: kind, number, block, stores, bytes, touched, first_row,
// last_row, then the 18 of a state. kind: 0 taken, 1 whole, 2 unfinished, 3 ended, 4 refused. number and block: of a refusal, else 0. stores: how many drawing made.
// bytes: how many of sound were written at the room's front. The rows: of a packet that was drawn. Every function that ends an answer gives its kind.
#![tactic(auto)]

ghost use Rattle.std.specs.Prelude.{◌≡◌, [], ◌∷◌, ◌≤◌, length, None};
ghost use Rattle.std.proofs.lemmas.List.Edits.{sets};
ghost use Rattle.room.specs.Room.{written};
ghost use Rattle.refusal.specs.Number.{block, number as refusalNumber};
ghost use Rattle.opening.specs.Opening.{opened_as};
ghost use Rattle.opcodes.specs.Opcodes.{stepped_as};
ghost use Rattle.begin.specs.Begin.{begun_as};
ghost use Rattle.mve_answers.specs.Answer.{of_rows};
ghost use Rattle.mve_states.specs.State.{of_state, no_state};
ghost use Rattle.mve_steps.specs.Step.{kind_in, spare_of, stepped, of_step, of_no_state, of_opening, of_beginning};

use begin::Stopped;
use mve_answers::of_rows;
use mve_states::{put_no_state, put_numbers, put_state};
use opcodes::Stepped;
use packet::Rows;
use refusal::Refusal;
use state::State;

fn put_answer(
    out: &mut [usize],
    kind: usize,
    number: usize,
    block: usize,
    stores: usize,
    bytes: usize,
)
    requires { 26 ≤ length out.old }
    ensures { out.new ≡ sets out.old 0 (kind ∷ number ∷ block ∷ stores ∷ bytes ∷ []) }
{
    out[0] = kind;
    out[1] = number;
    out[2] = block;
    out[3] = stores;
    out[4] = bytes;
}

fn put_rows(out: &mut [usize], t: Option<Rows>)
    requires { 26 ≤ length out.old }
    ensures { out.new ≡ sets out.old 5 ((of_rows t).touched ∷ (of_rows t).first ∷ (of_rows t).last ∷ []) }
{
    let rows = of_rows(t);
    out[5] = rows.touched;
    out[6] = rows.first;
    out[7] = rows.last;
}

// An answer with a new state.
fn put_stepped(
    out: &mut [usize],
    kind: usize,
    stores: usize,
    bytes: usize,
    t: Option<Rows>,
    st: State,
) -> usize
    requires { 26 ≤ length out.old }
    ensures value { result ≡ kind }
    ensures out_after { out.new ≡ written (stepped kind 0 0 stores bytes (of_rows t) (of_state st)) out.old }
{
    put_answer(out, kind, 0, 0, stores, bytes);
    put_rows(out, t);
    put_state(out, st);
    kind
}

// An answer that leaves the state as it came. Its numbers are read here, behind the step, and not kept over it: that would cost stack.
fn put_kept(out: &mut [usize], from: &[usize], kind: usize, stores: usize, t: Option<Rows>) -> usize
    requires in_bounds { 26 ≤ length out.old }
    requires from_len { length from.now ≡ 18 }
    ensures value { result ≡ kind }
    ensures out_after { out.new ≡ written (stepped kind 0 0 stores 0 (of_rows t) from.now) out.old }
{
    put_answer(out, kind, 0, 0, stores, 0);
    put_rows(out, t);
    put_numbers(out, from);
    kind
}

// The first eight numbers of a refusal.
fn put_refusal(out: &mut [usize], r: Refusal)
    requires { 26 ≤ length out.old }
    ensures { out.new ≡ sets out.old 0 (stepped 4 (refusalNumber r) (block r) 0 0 (of_rows None) []) }
{
    put_answer(out, 4, usize::from(r.number()), r.block(), 0, 0);
    put_rows(out, None);
}

fn put_refused(out: &mut [usize], from: &[usize], r: Refusal) -> usize
    requires in_bounds { 26 ≤ length out.old }
    requires from_len { length from.now ≡ 18 }
    ensures value { result ≡ 4 }
    ensures out_after { out.new ≡ written (stepped 4 (refusalNumber r) (block r) 0 0 (of_rows None) from.now) out.old }
{
    put_refusal(out, r);
    put_numbers(out, from);
    4
}

#[tactic(auto, unfolding(crate::specs::Step::of_answer))]
pub fn put_step(out: &mut [usize], from: &[usize], x: Result<Stepped, Refusal>) -> usize
    requires in_bounds { 26 ≤ length out.old }
    requires from_len { length from.now ≡ 18 }
    ensures value { result ≡ kind_in (of_step from.now (stepped_as x)) }
    ensures out_after { out.new ≡ written (of_step from.now (stepped_as x)) out.old }
{
    match x {
        Ok(Stepped::Taken(st, n)) => put_stepped(out, 0, n, 0, None, st),
        Ok(Stepped::Heard(st, n)) => put_stepped(out, 0, 0, n, None, st),
        Ok(Stepped::Whole(st, n, t)) => put_stepped(out, 1, n, 0, t, st),
        Ok(Stepped::Unfinished(_, n, t)) => put_kept(out, from, 2, n, t),
        Ok(Stepped::Ended(_)) => put_kept(out, from, 3, 0, None),
        Err(r) => put_refused(out, from, r),
    }
}

// A refusal with a state of zeros.
fn put_unopened(out: &mut [usize], r: Refusal) -> usize
    requires { 26 ≤ length out.old }
    ensures value { result ≡ 4 }
    ensures out_after { out.new ≡ written (stepped 4 (refusalNumber r) (block r) 0 0 (of_rows None) no_state) out.old }
{
    put_refusal(out, r);
    put_no_state(out);
    4
}

// The answer to numbers that are no state's.
pub fn put_unread(out: &mut [usize]) -> usize
    requires { 26 ≤ length out.old }
    ensures value { result ≡ 4 }
    ensures out_after { out.new ≡ written of_no_state out.old }
{
    put_unopened(out, Refusal::State)
}

#[tactic(auto, unfolding(crate::specs::Step::of_opening))]
pub fn put_opened(out: &mut [usize], o: Result<State, Refusal>) -> usize
    requires { 26 ≤ length out.old }
    ensures value { result ≡ kind_in (of_opening (opened_as o)) }
    ensures out_after { out.new ≡ written (of_opening (opened_as o)) out.old }
{
    match o {
        Ok(st) => put_stepped(out, 0, 0, 0, None, st),
        Err(r) => put_unopened(out, r),
    }
}

// A refusal with the state that the refused step was given.
fn put_stopped(out: &mut [usize], r: Refusal, st: State) -> usize
    requires { 26 ≤ length out.old }
    ensures value { result ≡ 4 }
    ensures out_after { out.new ≡ written (stepped 4 (refusalNumber r) (block r) 0 0 (of_rows None) (of_state st)) out.old }
{
    put_refusal(out, r);
    put_state(out, st);
    4
}

#[tactic(auto, unfolding(crate::specs::Step::of_beginning))]
pub fn put_begun(out: &mut [usize], b: Result<State, Stopped>) -> usize
    requires { 26 ≤ length out.old }
    ensures value { result ≡ kind_in (of_beginning (begun_as b)) }
    ensures out_after { out.new ≡ written (of_beginning (begun_as b)) out.old }
{
    match b {
        Ok(st) => put_stepped(out, 0, 0, 0, None, st),
        Err(s) => put_stopped(out, s.refusal, s.state),
    }
}

// The bytes of a packet that may be left over: one, or in the strict form none.
#[tactic(auto, unfolding(crate::specs::Step::spare_of))]
pub fn spare_of(form: usize) -> usize
    ensures { result ≡ spare_of form }
{
    if form == 0 { 1 } else { 0 }
}
