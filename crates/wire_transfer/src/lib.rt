// Copyright 2026 Kenta Ida
// SPDX-License-Identifier: Apache-2.0
// Ported from arm-debug/src/lib.rs of ciniml/rust-dap.

// One transport call in flight: a transfer with its WAIT retries and the ABORT after an error, or a call that is made once.
#![tactic(auto)]

ghost use Rattle.std.specs.Prelude.{◌≡◌, None, Err};
ghost use Rattle.wire.specs.Outcomes.{Outcome};
ghost use Rattle.wire.specs.Wire.{Wire, Memory, follow};
ghost use Rattle.wire_transfer.specs.Transfer.{clear_sticky_errors, raw, raw_outcome};
ghost use Rattle.wire_transfer.specs.Count.{Counted};
ghost use Rattle.wire_transfer.specs.Laws.Flight.{Sized, Trying, transfer_of, transfer_tree, begun, begun_raw, waits, answered, ignoring, Goes};

use wire::{Answer, ArmError, Call, DapError, Outcome, Told};
use words::*;

pub mod words;

// A transfer: WAIT repeats it, at most 64 times.
pub fn begin(t: &mut [u32; 7], request: u32, word: u32)
    ensures { t.new ≡ begun request word t.old }
{
    t[MODE] = TRYING;
    t[TRIES] = 1;
    t[KIND] = TRANSFER;
    t[BYTE] = request;
    t[WORD] = word;
}

// A transport call that is made once, with no ABORT after an error.
fn once(t: &mut [u32; 7], kind: u32, byte: u32, other: u32, word: u32)
    ensures { t.new ≡ begun_raw kind byte other word t.old }
{
    let only = 1;
    t[MODE] = RAW;
    t[TRIES] = only;
    t[KIND] = kind;
    t[BYTE] = byte;
    t[WORD] = word;
    t[OTHER] = other;
}

// A transport call that is made once, with no ABORT after an error.
pub fn begin_raw(t: &mut [u32; 7], c: Call)
    ensures { Sized t.old
        → ((m : Memory) (k : Outcome → Wire) → raw m c k ≡ transfer_tree m (transfer_of t.new) k)
        × Sized t.new × Counted t.new }
{
    match c {
        Call::Transfer { request, word } => once(t, TRANSFER, u32::from(request), 0, word),
        Call::Connect => once(t, CONNECT, 0, 0, 0),
        Call::Sequence(p) => once(t, SEQUENCE, u32::from(p), 0, 0),
        Call::Pins {
            output,
            select,
            wait_us,
        } => once(t, PINS, u32::from(output), u32::from(select), wait_us),
        Call::WriteBits { bits, word } => once(t, WRITE_BITS, u32::from(bits), 0, word),
        Call::OutputEnable => once(t, OUTPUT_ENABLE, 0, 0, 0),
    }
}

// The ABORT that clears the sticky errors is in flight, and then the call fails with the error.
fn abort(t: &mut [u32; 7], error: ArmError) -> Option<Outcome>
    ensures { Sized t.old → Goes (λ m k. clear_sticky_errors m error k) result t.new }
{
    let made = 1;
    let told = Told::from(error);
    t[MODE] = ABORTING;
    t[TRIES] = made;
    t[KIND] = TRANSFER;
    t[BYTE] = 0;
    t[WORD] = 0x1E;
    t[ERROR] = told.number;
    t[ACK] = told.value;
    None
}

// The error that the call fails with after its ABORT.
fn error_of(t: &[u32; 7]) -> ArmError
    ensures { result ≡ (transfer_of t.now).error }
{
    ArmError::from(Told {
        number: t[ERROR],
        value: t[ACK],
    })
}

// WAIT: the same call once more, or no more. Whatever count it finds, it leaves none above 65.
fn waited(t: &mut [u32; 7]) -> Option<Outcome>
    ensures { Trying t.old → Goes (waits t.old) result t.new }
{
    let tries = t[TRIES];
    if MOST <= tries {
        return Some(Err(ArmError::Wait));
    }
    t[TRIES] = tries + 1;
    None
}

// What a try of a transfer does with an error: WAIT repeats it, and any other fails it, after an ABORT.
fn failed(t: &mut [u32; 7], e: DapError) -> Option<Outcome>
    ensures { Trying t.old → Goes (answered t.old (Err e)) result t.new }
{
    if e == DapError::SwdError(WAIT) {
        return waited(t);
    }
    abort(t, ArmError::from(e))
}

// What a try of a transfer does with an answer.
fn tried(t: &mut [u32; 7], a: Answer) -> Option<Outcome>
    ensures { Trying t.old → Goes (answered t.old a) result t.new }
{
    match a {
        Ok(v) => Some(Ok(v)),
        Err(e) => failed(t, e),
    }
}

// What a call that is no transfer comes to.
fn raw_outcome(a: Answer) -> Outcome
    ensures { result ≡ raw_outcome a }
{
    Ok(a?)
}

// What a transport call in flight does with an answer.
pub fn transfer_step(t: &mut [u32; 7], a: Answer) -> Option<Outcome>
    ensures { Sized t.old → Goes (λ m k. follow (transfer_tree m (transfer_of t.old) k) a) result t.new }
{
    let mode = t[MODE];
    match mode {
        TRYING => tried(t, a),
        ABORTING => Some(Err(error_of(t))),
        _ => Some(raw_outcome(a)),
    }
}

// Whether the ABORT is in flight, whose answer is ignored.
pub fn is_aborting(t: &[u32; 7]) -> bool
    ensures { result ≡ ignoring (transfer_of t.now).mode }
{
    t[MODE] == ABORTING
}
