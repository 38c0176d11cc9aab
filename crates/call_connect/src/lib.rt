// Copyright 2026 Kenta Ida
// SPDX-License-Identifier: Apache-2.0
// Ported from arm-debug/src/lib.rs of ciniml/rust-dap.

// Calls 1 to 5: connecting to a target. Each function says what a connect asks for next; none of them touches the line.
#![tactic(auto)]

ghost use Rattle.std.specs.Prelude.{◌≡◌};
ghost use Rattle.call.specs.Laws.Asks.{asks};
ghost use Rattle.call_connect.specs.Connect.{connect_job, parity, no_target_of};
ghost use Rattle.call_connect.specs.Laws.After.{connect_after, phase_after, connect_at_of, how_of, swd_line, multidrop_line, line, nth, line_from, identified, polled, after_poll};

use call::{Asks, Change, GoesOn, Group, changing, doing, ended};
use call_at::{At, Packed, at_step};
use wire::{ArmError, Call, Outcome, Pattern};
use wire_memap::Op;

#[derive(Clone, Copy)]
pub enum ConnectCall {
    ConnectMultidrop(u32),
    ProbeSwd,
    ConnectSwd,
    ResetPulse(u32),
    Reselect(u32),
}

// What a DPIDR is read for.
#[derive(Clone, Copy)]
pub enum How {
    Probe,
    Swd,
    Multidrop,
}

// Which operation of a connect is in flight. `Line`: a call that is no transfer, with `left` more after it.
#[derive(Clone, Copy)]
pub enum ConnectAt {
    Line { how: How, left: u32, targetsel: u32 },
    Dpidr(How),
    Abort(u32),
    Select(u32),
    Power(u32),
    Poll { dpidr: u32, left: u32 },
    Pulse,
}

// The debug port's registers.
const DPIDR: u8 = 0x0;

const ABORT: u8 = 0x0;

const CTRL_STAT: u8 = 0x4;

const SELECT: u8 = 0x8;

// Every sticky error's bit of ABORT.
const ABORT_CLEAR_ALL: u32 = 0x1E;

// Bits of CTRL/STAT.
const CDBGPWRUPREQ: u32 = 0x10000000;

const CDBGPWRUPACK: u32 = 0x20000000;

const CSYSPWRUPREQ: u32 = 0x40000000;

const CSYSPWRUPACK: u32 = 0x80000000;

// The pin's bit in `swj_pins`.
const N_RESET: u8 = 0x80;

// How often CTRL/STAT is read for the acks of a power-up.
const POLLS: u32 = 1024;

// The bit that makes the number of ones even.
fn parity_of(w: u32) -> u32
    ensures { result ≡ parity w }
{
    u32::count_ones(w) % 2
}

// The calls of a plain connect after the first, the last one first.
const SWD_LINE: [Call; 5] = [
    Call::Sequence(Pattern::ResetIdle),
    Call::Sequence(Pattern::ResetHigh),
    Call::Sequence(Pattern::JtagToSwd),
    Call::Sequence(Pattern::ResetIdle),
    Call::Sequence(Pattern::ResetHigh),
];

// Call number `n` of a multidrop connect, counted from the last one: TARGETSEL, a line reset, and what comes before it.
// Stays: a `match`, and no table, since the first two calls are of the target's own.
fn multidrop_call(n: u32, targetsel: u32) -> Call
    ensures { result ≡ nth (multidrop_line targetsel) n }
{
    match n {
        0 => Call::WriteBits {
            bits: 1,
            word: parity_of(targetsel),
        },
        1 => Call::WriteBits {
            bits: 32,
            word: targetsel,
        },
        2 => Call::WriteBits { bits: 5, word: 0 },
        3 => Call::WriteBits {
            bits: 8,
            word: 0x99,
        },
        4 => Call::OutputEnable,
        5 => Call::Sequence(Pattern::ResetIdle),
        6 => Call::Sequence(Pattern::ResetHigh),
        7 => Call::Sequence(Pattern::SwdActivation),
        8 => Call::Sequence(Pattern::AlertIdle),
        9 => Call::Sequence(Pattern::SelectionAlert),
        10 => Call::Sequence(Pattern::AlertHigh),
        11 => Call::Sequence(Pattern::SwdToDormant),
        12 => Call::Sequence(Pattern::ResetIdle),
        13 => Call::Sequence(Pattern::ResetHigh),
        _ => Call::Connect,
    }
}

// Call number `n` of a connect, counted from the last one.
fn line_call(how: How, n: u32, targetsel: u32) -> Call
    ensures { result ≡ nth (line how targetsel) n }
{
    match how {
        How::Probe | How::Swd => slots::get_or(&SWD_LINE, n as usize, Call::Connect),
        How::Multidrop => multidrop_call(n, targetsel),
    }
}

// Stays: numbers for ways and phases: the words of a session hold them, and any words are some phase.
impl Packed<u32> for How {
    ghost told = { λ n. how_of n };

    fn pack(self) -> u32 {
        match self {
            How::Probe => 0,
            How::Swd => 1,
            How::Multidrop => 2,
        }
    }

    fn unpack(n: u32) -> How {
        match n {
            0 => How::Probe,
            1 => How::Swd,
            _ => How::Multidrop,
        }
    }
}

impl Packed<At> for ConnectAt {
    ghost told = { λ at. connect_at_of at };

    fn pack(self) -> At {
        match self {
            ConnectAt::Line {
                how,
                left,
                targetsel,
            } => at_step(0, how.pack(), left, targetsel, 0, 0),
            ConnectAt::Dpidr(how) => at_step(1, how.pack(), 0, 0, 0, 0),
            ConnectAt::Abort(dpidr) => at_step(2, dpidr, 0, 0, 0, 0),
            ConnectAt::Select(dpidr) => at_step(3, dpidr, 0, 0, 0, 0),
            ConnectAt::Power(dpidr) => at_step(4, dpidr, 0, 0, 0, 0),
            ConnectAt::Poll { dpidr, left } => at_step(5, dpidr, left, 0, 0, 0),
            ConnectAt::Pulse => at_step(6, 0, 0, 0, 0, 0),
        }
    }

    fn unpack(at: At) -> ConnectAt {
        match at.step % 32 {
            0 => ConnectAt::Line {
                how: How::unpack(at.a),
                left: at.b,
                targetsel: at.c,
            },
            1 => ConnectAt::Dpidr(How::unpack(at.a)),
            2 => ConnectAt::Abort(at.a),
            3 => ConnectAt::Select(at.a),
            4 => ConnectAt::Power(at.a),
            5 => ConnectAt::Poll {
                dpidr: at.a,
                left: at.b,
            },
            _ => ConnectAt::Pulse,
        }
    }
}

// `left` more calls that are no transfers, and then DPIDR.
#[tactic(auto, using(crate::specs::Laws::After::line_more), unfolding(crate::specs::Laws::After::line_from))]
fn line_on(how: How, left: u32, targetsel: u32) -> Asks
    ensures { line_from how targetsel left ≡ asks result.change result.next (connect_after result.at) }
{
    if left == 0 {
        return doing::<ConnectCall>(ConnectAt::Dpidr(how), Op::DpRead { addr: DPIDR });
    }
    let call = line_call(how, left - 1, targetsel);
    doing::<ConnectCall>(
        ConnectAt::Line {
            how,
            left: left - 1,
            targetsel,
        },
        Op::Other(call),
    )
}

// Whether a DPIDR is what a line without a target reads.
fn no_target(v: u32) -> bool
    ensures { result ≡ no_target_of v }
{
    v == 0 || v == 0xFFFFFFFF
}

// DPIDR is read: no target, the end of a probe, or the set-up that every connect does.
fn identified_by(how: How, v: u32) -> Asks
    ensures { identified how v ≡ asks result.change result.next (connect_after result.at) }
{
    if no_target(v) {
        return ended(Err(ArmError::NoTarget));
    }
    let abort = Op::DpWrite {
        addr: ABORT,
        word: ABORT_CLEAR_ALL,
    };
    match how {
        How::Probe => ended(Ok(v)),
        How::Swd => changing::<ConnectCall>(Change::New, ConnectAt::Abort(v), abort),
        How::Multidrop => changing::<ConnectCall>(Change::Forget, ConnectAt::Abort(v), abort),
    }
}

// `left` more reads of CTRL/STAT.
#[tactic(auto, using(crate::specs::Laws::After::polled_more), unfolding(crate::specs::Connect::poll_acks))]
fn poll_on(dpidr: u32, left: u32) -> Asks
    ensures { polled dpidr left ≡ asks result.change result.next (connect_after result.at) }
{
    if left == 0 {
        return ended(Err(ArmError::PowerUpTimeout));
    }
    doing::<ConnectCall>(
        ConnectAt::Poll {
            dpidr,
            left: left - 1,
        },
        Op::DpRead { addr: CTRL_STAT },
    )
}

// CTRL/STAT is read: CDBGPWRUPACK and CSYSPWRUPACK stand, or it is read again.
fn polled_by(dpidr: u32, left: u32, v: u32) -> Asks
    ensures { after_poll dpidr left v ≡ asks result.change result.next (connect_after result.at) }
{
    if v / CDBGPWRUPACK % 2 + v / CSYSPWRUPACK % 2 == 2 {
        return ended(Ok(dpidr));
    }
    poll_on(dpidr, left)
}

// The first operation of each call. Before DPIDR a multidrop connect makes 15 transport calls, a plain one 6, and a reselect the last 7 of the 15.
#[tactic(auto, using(crate::specs::Laws::After::multidrop_is, crate::specs::Laws::After::reselect_is, crate::specs::Laws::After::probe_is, crate::specs::Laws::After::swd_is), unfolding(crate::specs::Connect::connect_job))]
pub fn start(c: ConnectCall) -> Asks
    ensures { connect_job c ≡ asks result.change result.next (connect_after result.at) }
{
    match c {
        ConnectCall::ConnectMultidrop(targetsel) => line_on(How::Multidrop, 15, targetsel),
        ConnectCall::ProbeSwd => line_on(How::Probe, 6, 0),
        ConnectCall::ConnectSwd => line_on(How::Swd, 6, 0),
        ConnectCall::ResetPulse(wait) => doing::<ConnectCall>(
            ConnectAt::Pulse,
            Op::Other(Call::Pins {
                output: 0x00,
                select: N_RESET,
                wait_us: wait,
            }),
        ),
        ConnectCall::Reselect(targetsel) => line_on(How::Multidrop, 7, targetsel),
    }
}

impl Group for ConnectCall {
    type Phase = ConnectAt;

    ghost after = { phase_after };
}

impl GoesOn for ConnectCall {
    fn value_after(p: ConnectAt, v: u32) -> Asks {
        match p {
            ConnectAt::Line {
                how,
                left,
                targetsel,
            } => line_on(how, left, targetsel),
            ConnectAt::Dpidr(how) => identified_by(how, v),
            ConnectAt::Abort(dpidr) => doing::<ConnectCall>(
                ConnectAt::Select(dpidr),
                Op::DpWrite {
                    addr: SELECT,
                    word: 0,
                },
            ),
            ConnectAt::Select(dpidr) => changing::<ConnectCall>(
                Change::SelectZero,
                ConnectAt::Power(dpidr),
                Op::DpWrite {
                    addr: CTRL_STAT,
                    word: CDBGPWRUPREQ + CSYSPWRUPREQ,
                },
            ),
            ConnectAt::Power(dpidr) => poll_on(dpidr, POLLS),
            ConnectAt::Poll { dpidr, left } => polled_by(dpidr, left, v),
            ConnectAt::Pulse => ended(Ok(0)),
        }
    }

    // An error ends the call.
    fn failed_after(_p: ConnectAt, e: ArmError) -> Asks {
        ended(Err(e))
    }
}

// What follows an operation of a connect, by its outcome.
pub fn call_after(at: At, o: Outcome) -> Asks
    ensures { connect_after at o ≡ asks result.change result.next (connect_after result.at) }
{
    call::call_after::<ConnectCall>(at, o)
}
