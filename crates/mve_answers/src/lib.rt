// Answers as numbers, for hosts in other languages: of a packet's check and of a drawing call, where a pixel comes from, and of a frame of Video 1.
#![tactic(auto)]

ghost use Rattle.std.specs.Prelude.{◌≡◌, None};
ghost use Rattle.refusal.specs.Number.{block, number as refusalNumber};
ghost use Rattle.packet.specs.Rows.{found};
ghost use Rattle.packet.specs.Verdict.{told as judged};
ghost use Rattle.origin.specs.Trace.{refused as tracedRefused, told as tracedAs};
ghost use Rattle.mve_answers.specs.Answer.{answer, of_rows, of_found, of_verdict};
ghost use Rattle.mve_answers.specs.Trace.{origin, of_origin, of_trace};

use origin::{Origin, Traced};
use packet::Rows;
use refusal::Refusal;
use words::wide;

// The rows of blocks that a packet touches, counted from 0: touched 1 and the first and the last, or three times 0 where there is none.
#[repr(C)]
#[derive(Clone, Copy)]
pub struct MveRows {
    pub touched: usize,
    pub first: usize,
    pub last: usize,
}

// kind: 0 accepted, 1 whole, 2 unfinished, 4 refused. number and block: of a refusal, else 0. stores: how many were made. rows: of the packet, none where it is refused.
#[repr(C)]
#[derive(Clone, Copy)]
pub struct MveAnswer {
    pub kind: usize,
    pub number: usize,
    pub block: usize,
    pub stores: usize,
    pub rows: MveRows,
}

#[tactic(auto, unfolding(crate::specs::Answer::of_rows))]
pub fn of_rows(t: Option<Rows>) -> MveRows
    ensures { result ≡ of_rows t }
{
    match t {
        None => MveRows {
            touched: 0,
            first: 0,
            last: 0,
        },
        Some(Rows { first, last }) => MveRows {
            touched: 1,
            first,
            last,
        },
    }
}

pub fn refused(r: Refusal) -> MveAnswer
    ensures { result ≡ answer 4 (refusalNumber r) (block r) 0 (of_rows None) }
{
    MveAnswer {
        kind: 4,
        number: wide(r.number()),
        block: r.block(),
        stores: 0,
        rows: of_rows(None),
    }
}

pub fn answered(kind: usize, stores: usize, t: Option<Rows>) -> MveAnswer
    ensures { result ≡ answer kind 0 0 stores (of_rows t) }
{
    MveAnswer {
        kind,
        number: 0,
        block: 0,
        stores,
        rows: of_rows(t),
    }
}

#[tactic(auto, unfolding(crate::specs::Answer::of_found))]
pub fn of_check(i: Result<Option<Rows>, Refusal>) -> MveAnswer
    ensures { result ≡ of_found (found i) }
{
    match i {
        Ok(t) => answered(0, 0, t),
        Err(r) => refused(r),
    }
}

// Where a pixel comes from. kind: 0 found, 4 refused. number: of a refusal, else 0. block: the pixel's, or that of a refusal. code: the block's. source: 0 a byte of
// the packet, 1 a pixel of front, 2 one of back as it was lent, 3 one of the new picture. byte: its index in the packet. x, y: the pixel.
#[repr(C)]
#[derive(Clone, Copy)]
pub struct MveOrigin {
    pub kind: usize,
    pub number: usize,
    pub block: usize,
    pub code: usize,
    pub source: usize,
    pub byte: usize,
    pub x: usize,
    pub y: usize,
}

fn found_in(block: usize, code: usize, source: usize, byte: usize, x: usize, y: usize) -> MveOrigin
    ensures { result ≡ origin 0 0 block code source byte x y }
{
    MveOrigin {
        kind: 0,
        number: 0,
        block,
        code,
        source,
        byte,
        x,
        y,
    }
}

#[tactic(auto, unfolding(crate::specs::Trace::of_origin))]
fn of_origin(block: usize, code: usize, o: Origin) -> MveOrigin
    ensures { result ≡ of_origin block code o }
{
    match o {
        Origin::Byte(n) => found_in(block, code, 0, n, 0, 0),
        Origin::InFront(x, y) => found_in(block, code, 1, 0, x, y),
        Origin::InBack(x, y) => found_in(block, code, 2, 0, x, y),
        Origin::InNew(x, y) => found_in(block, code, 3, 0, x, y),
    }
}

#[tactic(auto, unfolding(crate::specs::Trace::of_trace))]
fn not_found(r: Refusal) -> MveOrigin
    ensures { result ≡ of_trace (tracedRefused (refusalNumber r) (block r)) }
{
    MveOrigin {
        kind: 4,
        number: wide(r.number()),
        block: r.block(),
        code: 0,
        source: 0,
        byte: 0,
        x: 0,
        y: 0,
    }
}

#[tactic(auto, unfolding(crate::specs::Trace::of_trace))]
pub fn of_trace(t: Result<Traced, Refusal>) -> MveOrigin
    ensures { result ≡ of_trace (tracedAs t) }
{
    match t {
        Ok(t) => of_origin(t.block, wide(t.code), t.origin),
        Err(r) => not_found(r),
    }
}

// 0, or the refusal's number.
#[tactic(auto, unfolding(crate::specs::Answer::of_verdict))]
pub fn of_verdict(c: Result<(), Refusal>) -> usize
    ensures { result ≡ of_verdict (judged c) }
{
    match c {
        Ok(()) => 0,
        Err(r) => wide(r.number()),
    }
}
