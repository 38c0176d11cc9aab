// Copyright 2026 Kenta Ida
// SPDX-License-Identifier: Apache-2.0
// Ported from arm-debug/src/lib.rs of ciniml/rust-dap.

// What a call changes besides its transport calls: what is remembered, the words that it runs over, the caller's buffer.
#![tactic(auto)]

ghost use Rattle.std.specs.Prelude.{◌≡◌, ◌≤◌, Ok, Err};
ghost use Rattle.std.proofs.lemmas.List.Edits.{sets};
ghost use Rattle.wire.specs.Wire.{memory_of};
ghost use Rattle.wire.specs.Outcomes.{Outcome};
ghost use Rattle.call.specs.Change.{fresh, changed};
ghost use Rattle.call.specs.Job.{Job, ends};
ghost use Rattle.call.specs.Laws.Asks.{asks, keep_some, op_then};
ghost use Rattle.call.specs.Laws.Change.{remembered_after, words_after, buf_after, is_nothing};
ghost use Rattle.call.specs.declared.Change.TheVariants.{Nothing};

use call_at::{At, Packed, at_step};
use wire::{ArmError, Outcome, Remembered};
use wire_memap::Op;

// `at` is a place in the caller's buffer, of `Put` one in the room; `skip` and `count` are bytes of a word.
// `Registers`: what a function starts with, in the room's places 8 to 15. `Frame`: a call frame, in places 0 to 7.
#[derive(Clone, Copy)]
pub enum Change {
    Nothing,
    New,
    Forget,
    SelectZero,
    Apsel(u8),
    StoreWords {
        at: u32,
        n: u32,
    },
    StorePart {
        at: u32,
        skip: u32,
        count: u32,
        word: u32,
    },
    LoadWords {
        at: u32,
        n: u32,
    },
    Patch {
        at: u32,
        skip: u32,
        count: u32,
        word: u32,
    },
    Put {
        at: u32,
        word: u32,
    },
    Registers([u32; 8]),
    Frame([u32; 8]),
}

// What comes next in a call: an operation, or its end.
#[derive(Clone, Copy)]
pub enum Next {
    Do(Op),
    End(Outcome),
}

// What a call asks for: a change, and then an operation or its end.
#[derive(Clone, Copy)]
pub struct Asks {
    pub change: Change,
    pub at: At,
    pub next: Next,
}

// A new engine knows nothing of the target.
pub fn new() -> Remembered
    ensures { result ≡ fresh }
{
    Remembered {
        select: 0xFFFFFFFF,
        csw: false,
        apsel: 0,
    }
}

// Whether a change is none.
pub fn is_nothing(c: Change) -> bool
    ensures { result ≡ is_nothing c }
{
    matches!(c, Change::Nothing)
}

// What is remembered after a change.
fn remembered_after(c: Change, r: Remembered) -> Remembered
    ensures { result ≡ remembered_after c r }
{
    match c {
        Change::New => new(),
        Change::Forget => Remembered {
            apsel: r.apsel,
            ..new()
        },
        Change::SelectZero => Remembered { select: 0, ..r },
        Change::Apsel(a) if a != r.apsel => Remembered {
            csw: false,
            apsel: a,
            ..r
        },
        _ => r,
    }
}

// Eight registers, in the places from `at` on.
fn put_registers(row: &mut [u32], at: usize, registers: &[u32; 8])
    requires { at ≤ 8 }
    ensures { row.new ≡ sets row.old at registers.now }
{
    for (i, word) in registers.iter().enumerate() {
        slots::put(row, at + i, *word);
    }
}

// The row and the buffer after a change.
fn apply(c: Change, row: &mut [u32], buf: &mut [u8])
    ensures { (row.new ≡ words_after c row.old buf.old)
        × (buf.new ≡ buf_after c row.old buf.old) }
{
    match c {
        Change::StoreWords { at, n } => call_bytes::store_words(buf, at, row, n),
        Change::StorePart {
            at,
            skip,
            count,
            word,
        } => call_bytes::store_part(buf, at, word, skip, count),
        Change::LoadWords { at, n } => call_bytes::load_words(row, buf, at, n),
        Change::Patch {
            at,
            skip,
            count,
            word,
        } => call_bytes::patch(row, buf, at, skip, count, word),
        Change::Put { at, word } => slots::put(row, at as usize, word),
        Change::Registers(registers) => put_registers(row, 8, &registers),
        Change::Frame(registers) => put_registers(row, 0, &registers),
        _ => {}
    }
}

// A change of what is kept.
pub fn make_change(c: Change, r: Remembered, ws: &mut [u32], buf: &mut [u8]) -> Remembered
    ensures { changed c (memory_of r ws.old buf.old) ≡ memory_of result ws.new buf.new }
{
    apply(c, ws, buf);
    remembered_after(c, r)
}

// The call ends, after a change.
pub fn ended_after(change: Change, o: Outcome) -> Asks
    ensures asked { (k : Outcome → Job) → keep_some change (ends o) ≡ asks result.change result.next k }
    ensures change { result.change ≡ change }
{
    Asks {
        change,
        at: at_step(0, 0, 0, 0, 0, 0),
        next: Next::End(o),
    }
}

// The call ends.
pub fn ended(o: Outcome) -> Asks
    ensures asked { (k : Outcome → Job) → ends o ≡ asks result.change result.next k }
    ensures change { result.change ≡ Nothing }
{
    ended_after(Change::Nothing, o)
}

// A group of calls: its phases, and what follows the outcome of the operation that is in flight at each.
pub trait Group {
    type Phase: Packed<At>;

    ghost after: { Self.Phase → Outcome → Job };
}

// The same in code: by the operation's value, or by its error.
pub trait GoesOn: Group {
    fn value_after(p: Self::Phase, v: u32) -> Asks
        ensures { Self.after p (Ok v) ≡ asks result.change result.next (λ o. Self.after (Self.Phase.told result.at) o) };

    fn failed_after(p: Self::Phase, e: ArmError) -> Asks
        ensures { Self.after p (Err e) ≡ asks result.change result.next (λ o. Self.after (Self.Phase.told result.at) o) };
}

// The operation `op` of a call of the group, after a change. Inlined, since where the phase is known its numbers are constants.
#[inline(always)]
pub fn changing<G: Group>(change: Change, p: G::Phase, op: Op) -> Asks
    ensures asked { keep_some change (op_then op (G.after p)) ≡ asks result.change result.next (λ o. G.after (G.Phase.told result.at) o) }
    ensures change { result.change ≡ change }
{
    Asks {
        change,
        at: p.pack(),
        next: Next::Do(op),
    }
}

// The operation `op`, and nothing is changed before it.
#[inline(always)]
pub fn doing<G: Group>(p: G::Phase, op: Op) -> Asks
    ensures asked { op_then op (G.after p) ≡ asks result.change result.next (λ o. G.after (G.Phase.told result.at) o) }
    ensures change { result.change ≡ Nothing }
{
    changing::<G>(Change::Nothing, p, op)
}

// What a call of the group that is in flight asks for, now that its operation has ended.
pub fn call_after<G: GoesOn>(at: At, o: Outcome) -> Asks
    ensures { G.after (G.Phase.told at) o ≡ asks result.change result.next (λ o. G.after (G.Phase.told result.at) o) }
{
    let p = <G::Phase as Packed<At>>::unpack(at);
    match o {
        Ok(v) => G::value_after(p, v),
        Err(e) => G::failed_after(p, e),
    }
}
