// Copyright 2026 Kenta Ida
// SPDX-License-Identifier: Apache-2.0
// Ported from arm-debug/src/lib.rs of ciniml/rust-dap.

// What an operation in flight does with an answer: the access that follows, or the operation's value.
// Stays: the words t and m go apart, as C lends them to `bench_start` and `bench_step`: a struct of both would be copied in and out at each step.
#![tactic(auto)]

ghost use Rattle.std.specs.Prelude.{None, true, false, ◌≡◌, ◌-◌, get_or, Ok};
ghost use Rattle.wire_transfer.specs.Laws.Flight.{begun};
ghost use Rattle.wire_memap.specs.Words.{pull, push};
ghost use Rattle.wire_memap.specs.Laws.Flight.{select_stands, Fits, Begun, BegunAt, Goes, Ends, Tries};
ghost use Rattle.wire_memap.specs.Laws.Flight.{empty, following, data_after, tar_after, ended_tree, step_tree};

use wire::{Answer, Outcome};
use wire_memap::AtOnce;
use wire_memap::words::*;

// The access that follows any other.
pub struct NextAccess;

impl AtOnce for NextAccess {
    fn takes(t: &mut [u32; 7], m: &mut [u32; 12], v: u32, row: &mut [u32]) -> bool {
        op_moves(t, m, v, row)
    }
}

// The next access of a run of reads: DRW while `more` are to be asked for, and then RDBUFF.
fn pull_on(t: &mut [u32; 7], m: &mut [u32; 12], more: u32)
    ensures { Begun (pull (get_or m.old 2 0) more) t.old m.old t.new m.new }
{
    if more == 0 {
        wire_memap::direct(t, m, LAST_READ, RDBUFF_READ, 0);
        return;
    }
    m[LEFT] = more;
    wire_memap::direct(t, m, PULL, DRW_READ, 0);
}

// The next access of a run of writes: DRW while `more` words are to go, and then RDBUFF.
fn push_on(t: &mut [u32; 7], m: &mut [u32; 12], more: u32, row: &[u32])
    ensures { BegunAt (push (get_or m.old 2 0) more) row.now
        t.old m.old t.new m.new }
{
    if more == 0 {
        wire_memap::direct(t, m, UNIT, RDBUFF_READ, 0);
        return;
    }
    let v = slots::get_or(row, m[LAST].saturating_sub(more - 1) as usize, 0);
    m[LEFT] = more;
    wire_memap::direct(t, m, PUSH, DRW_WRITE, v);
}

// Whether a run of reads has no words: it ends with TAR.
fn is_empty(m: &[u32; 12]) -> bool
    ensures { result ≡ empty m.now }
{
    m[TASK] == READ_WORDS && m[LEFT] == 0
}

// The first data access of a task that is not empty.
fn data_on(t: &mut [u32; 7], m: &mut [u32; 12], row: &[u32])
    ensures { empty m.old ≡ false → BegunAt (data_after m.old) row.now
        t.old m.old t.new m.new }
{
    let kind = m[TASK];
    match kind {
        READ_WORD => wire_memap::access(t, m, POSTED, DRW_READ, DRW, 0),
        WRITE_WORD => {
            let word = m[DATA];
            wire_memap::access(t, m, SENT, DRW_WRITE, DRW, word)
        }
        READ_WORDS => wire_memap::access(t, m, FIRST, DRW_READ, DRW, 0),
        _ => {
            let place = m[LAST].saturating_sub(m[LEFT].saturating_sub(1));
            let word = slots::get_or(row, place as usize, 0);
            wire_memap::access(t, m, PUSH, DRW_WRITE, DRW, word)
        }
    }
}

// CSW stands: TAR is next.
fn tar_on(t: &mut [u32; 7], m: &mut [u32; 12])
    ensures { Begun (tar_after m.old) t.old m.old t.new m.new }
{
    m[CSW] = 1;
    let addr = m[ADDR];
    wire_memap::access(t, m, TAR_SENT, TAR_WRITE, TAR, addr);
}

// SELECT is written: the access's own transfer is next.
fn selected(t: &mut [u32; 7], m: &mut [u32; 12])
    ensures { (t.new ≡ begun (get_or m.old 6 0) (get_or m.old 7 0) t.old)
        × (m.new ≡ select_stands m.old) }
{
    let select = m[WANT];
    let phase = m[PHASE];
    let request = m[REQUEST];
    let word = m[WORD];
    m[SELECT] = select;
    m[PHASE] = phase % 16;
    wire_transfer::begin(t, request, word);
}

// Whether one more access follows the value of the one in flight.
fn follows(m: &[u32; 12]) -> bool
    ensures { result ≡ following m.now }
{
    let phase = m[PHASE];
    if phase == TAR_SENT {
        return !is_empty(m);
    }
    LAST_READ < phase
}

// The access that follows the value v.
fn move_on(t: &mut [u32; 7], m: &mut [u32; 12], v: u32, row: &mut [u32])
    ensures { following m.old ≡ true → Fits t.old m.old
        → Goes (ended_tree m.old (Ok v) row.old) None t.new m.new row.new }
{
    let phase = m[PHASE];
    if SELECTING <= phase {
        selected(t, m);
        return;
    }
    let n = m[LEFT];
    match phase {
        PULL => {
            slots::put(row, m[LAST].saturating_sub(n) as usize, v);
            pull_on(t, m, n.saturating_sub(1))
        }
        PUSH => push_on(t, m, n.saturating_sub(1), row),
        POSTED => wire_memap::direct(t, m, ONLY, RDBUFF_READ, 0),
        CSW_SENT => tar_on(t, m),
        TAR_SENT => data_on(t, m, row),
        SENT => wire_memap::direct(t, m, UNIT, RDBUFF_READ, 0),
        _ => pull_on(t, m, n.saturating_sub(1)),
    }
}

// What the last access of an operation leaves: the operation's value, which is its own, or 0; a run's last word goes to the row.
fn last_value(m: &[u32; 12], v: u32, row: &mut [u32]) -> u32
    ensures { following m.now ≡ false → Ends v result m.now row.old row.new }
{
    let phase = m[PHASE];
    if phase == ONLY {
        return v;
    }
    if phase == LAST_READ {
        slots::put(row, m[LAST] as usize, v);
    }
    0
}

// What an operation in flight does with the outcome of its transport call; an error ends it.
fn op_ended(t: &mut [u32; 7], m: &mut [u32; 12], o: Outcome, row: &mut [u32]) -> Option<Outcome>
    ensures { Fits t.old m.old
        → Goes (ended_tree m.old o row.old) result t.new m.new row.new }
{
    match o {
        Ok(v) => {
            if follows(m) {
                move_on(t, m, v, row);
                return None;
            }
            let last = last_value(m, v, row);
            Some(Ok(last))
        }
        Err(e) => Some(Err(e)),
    }
}

// The access that follows the value v, if one does: else nothing is done.
pub fn op_moves(t: &mut [u32; 7], m: &mut [u32; 12], v: u32, row: &mut [u32]) -> bool
    ensures { Tries (step_tree t.old m.old (Ok v) row.old) result
        t.old m.old row.old t.new m.new row.new }
{
    if wire_transfer::is_aborting(t) {
        return false;
    }
    if follows(m) {
        move_on(t, m, v, row);
        return true;
    }
    false
}

// What an operation in flight does with an answer.
pub fn op_step(t: &mut [u32; 7], m: &mut [u32; 12], a: Answer, row: &mut [u32]) -> Option<Outcome>
    ensures { Fits t.old m.old
        → Goes (step_tree t.old m.old a row.old) result t.new m.new row.new }
{
    let o = wire_transfer::transfer_step(t, a)?;
    op_ended(t, m, o, row)
}
