// Copyright 2026 Kenta Ida
// SPDX-License-Identifier: Apache-2.0
// Ported from arm-debug/src/lib.rs of ciniml/rust-dap.

// Calls 26 to 28: hardware breakpoints. Each function says what a call asks for next; none of them touches the line.
#![tactic(auto)]

ghost use Rattle.std.specs.Prelude.{◌≡◌};
ghost use Rattle.call.specs.Laws.Asks.{asks};
ghost use Rattle.call_fpb.specs.Breakpoint.{fpb_job, num_code, revision, fpb_comp_value, breakable, comparator, first_free, take_free, seek, find};
ghost use Rattle.call_fpb.specs.Laws.After.{fpb_after, phase_after, found, enabling, counting, after_seek, after_find};

mod fpb;

use call::{Asks, GoesOn, Group, doing, ended};
use call_at::At;
use call_places::FpbAt;
use wire::{ArmError, Outcome};
use wire_memap::Op;

#[derive(Clone, Copy)]
pub enum FpbCall {
    HwBreakpointSet(u32),
    HwBreakpointClear(u32),
    HwBreakpointAt(u32),
}

// How many comparators FP_CTRL says there are: bits 14:12 and 7:4.
fn num_code(ctrl: u32) -> u8
    ensures { result ≡ num_code ctrl }
{
    (ctrl / 0x1000 % 8 * 16 + ctrl / 0x10 % 16) as u8
}

// What a comparator holds for a breakpoint at `addr`, if there can be one. Revision 0 has REPLACE in bits 31:30 and breaks below 0x20000000 only.
fn fpb_comp_value(addr: u32, rev: u32) -> Option<u32>
    ensures { result ≡ fpb_comp_value addr rev }
{
    if 1 <= rev {
        Some(addr - addr % 2 + fpb::COMP_ENABLE)
    } else if 0x20000000 <= addr {
        None
    } else {
        Some((1 + addr / 2 % 2) * 0x40000000 + (addr - addr % 4) + fpb::COMP_ENABLE)
    }
}

// The address of comparator i.
fn comparator_at(i: u8) -> u32
    ensures { result ≡ comparator i }
{
    fpb::FP_COMP0 + 4 * u32::from(i)
}

// With no comparator the answer is no. Else the unit is enabled.
fn enable(ctrl: u32, value: u32) -> Asks
    ensures { enabling ctrl value ≡ asks result.change result.next (fpb_after result.at) }
{
    let n = num_code(ctrl);
    if n == 0 {
        return ended(Ok(0));
    }
    let op = Op::WriteWord {
        addr: fpb::FP_CTRL,
        word: ctrl - ctrl % 4 + fpb::CTRL_KEY + fpb::CTRL_ENABLE,
    };
    doing::<FpbCall>(FpbAt::Enable { value, n }, op)
}

// FP_CTRL is read to set a breakpoint.
fn set_on(addr: u32, ctrl: u32) -> Asks
    ensures { breakable (fpb_comp_value addr (revision ctrl)) (enabling ctrl) ≡ asks result.change result.next (fpb_after result.at) }
{
    let comp = fpb_comp_value(addr, ctrl / 0x10000000 % 16);
    match comp {
        None => ended(Ok(0)),
        Some(value) => enable(ctrl, value),
    }
}

// All comparators are looked at: the free one takes the value.
fn take_free(value: u32, free: Option<u8>) -> Asks
    ensures { take_free value free ≡ asks result.change result.next (fpb_after result.at) }
{
    match free {
        None => ended(Ok(0)),
        Some(i) => {
            let comp = comparator_at(i);
            doing::<FpbCall>(
                FpbAt::Write,
                Op::WriteWord {
                    addr: comp,
                    word: value,
                },
            )
        }
    }
}

// `left` comparators to go, of n.
#[tactic(auto, using(crate::specs::Laws::After::seek_more), unfolding(crate::specs::Breakpoint::seek))]
fn seek_on(value: u32, n: u8, left: u8, free: Option<u8>) -> Asks
    ensures { seek value n left free ≡ asks result.change result.next (fpb_after result.at) }
{
    if left == 0 {
        return take_free(value, free);
    }
    let comp = comparator_at(n.saturating_sub(left));
    doing::<FpbCall>(
        FpbAt::Seek {
            value,
            n,
            left,
            free,
        },
        Op::ReadWord { addr: comp },
    )
}

// The first free comparator, now that comparator i holds `comp`.
fn first_free(free: Option<u8>, i: u8, comp: u32) -> Option<u8>
    ensures { result ≡ first_free free i comp }
{
    match free {
        None if comp % 2 == 0 => Some(i),
        _ => free,
    }
}

// A comparator is read: it holds the value already, or the search goes on.
fn seek_by(value: u32, n: u8, left: u8, free: Option<u8>, comp: u32) -> Asks
    ensures { after_seek value n left free comp ≡ asks result.change result.next (fpb_after result.at) }
{
    if comp == value {
        return ended(Ok(1));
    }
    let free = first_free(free, n.saturating_sub(left), comp);
    seek_on(value, n, left.saturating_sub(1), free)
}

// FP_CTRL is read for its revision.
// Stays: `clears` a flag, here and below: of the two calls that differ in it alone one clears what it finds.
fn revision_on(clears: bool, addr: u32, ctrl: u32) -> Asks
    ensures { breakable (fpb_comp_value addr (revision ctrl)) (counting clears) ≡ asks result.change result.next (fpb_after result.at) }
{
    let comp = fpb_comp_value(addr, ctrl / 0x10000000 % 16);
    match comp {
        None => ended(Ok(0)),
        Some(value) => doing::<FpbCall>(
            FpbAt::Count { clears, value },
            Op::ReadWord { addr: fpb::FP_CTRL },
        ),
    }
}

// `left` comparators to go, of n.
#[tactic(auto, using(crate::specs::Laws::After::find_more), unfolding(crate::specs::Breakpoint::find))]
fn find_on(clears: bool, value: u32, n: u8, left: u8) -> Asks
    ensures { find (found clears) value n left ≡ asks result.change result.next (fpb_after result.at) }
{
    if left == 0 {
        return ended(Ok(0));
    }
    let comp = comparator_at(n.saturating_sub(left));
    doing::<FpbCall>(
        FpbAt::Find {
            clears,
            value,
            n,
            left,
        },
        Op::ReadWord { addr: comp },
    )
}

// A comparator is read: it holds the value, or the search goes on.
fn find_by(clears: bool, value: u32, n: u8, left: u8, comp: u32) -> Asks
    ensures { after_find clears value n left comp ≡ asks result.change result.next (fpb_after result.at) }
{
    if comp != value {
        return find_on(clears, value, n, left.saturating_sub(1));
    }
    if clears {
        let place = comparator_at(n.saturating_sub(left));
        return doing::<FpbCall>(
            FpbAt::Write,
            Op::WriteWord {
                addr: place,
                word: 0,
            },
        );
    }
    ended(Ok(1))
}

// What a call asks for first: every one reads FP_CTRL.
#[tactic(auto, unfolding(crate::specs::Breakpoint::fpb_job))]
pub fn start(c: FpbCall) -> Asks
    ensures { fpb_job c ≡ asks result.change result.next (fpb_after result.at) }
{
    let at = match c {
        FpbCall::HwBreakpointSet(addr) => FpbAt::SetCtrl(addr),
        FpbCall::HwBreakpointClear(addr) => FpbAt::Revision { clears: true, addr },
        FpbCall::HwBreakpointAt(addr) => FpbAt::Revision {
            clears: false,
            addr,
        },
    };
    doing::<FpbCall>(at, Op::ReadWord { addr: fpb::FP_CTRL })
}

impl Group for FpbCall {
    type Phase = FpbAt;

    ghost after = { phase_after };
}

impl GoesOn for FpbCall {
    fn value_after(p: FpbAt, v: u32) -> Asks {
        match p {
            FpbAt::SetCtrl(addr) => set_on(addr, v),
            FpbAt::Enable { value, n } => seek_on(value, n, n, None),
            FpbAt::Seek {
                value,
                n,
                left,
                free,
            } => seek_by(value, n, left, free, v),
            FpbAt::Revision { clears, addr } => revision_on(clears, addr, v),
            FpbAt::Count { clears, value } => {
                let n = num_code(v);
                find_on(clears, value, n, n)
            }
            FpbAt::Find {
                clears,
                value,
                n,
                left,
            } => find_by(clears, value, n, left, v),
            FpbAt::Write => ended(Ok(1)),
        }
    }

    // An error ends the call.
    fn failed_after(_p: FpbAt, e: ArmError) -> Asks {
        ended(Err(e))
    }
}

// What a call in flight asks for, now that its operation has ended.
pub fn call_after(at: At, o: Outcome) -> Asks
    ensures { fpb_after at o ≡ asks result.change result.next (fpb_after result.at) }
{
    call::call_after::<FpbCall>(at, o)
}
