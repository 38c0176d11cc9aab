// Copyright 2026 Kenta Ida
// SPDX-License-Identifier: Apache-2.0
// Ported from arm-debug/src/lib.rs of ciniml/rust-dap.

// The next word of a run of words, taken at once: nearly all transfers of a memory call are such words.
// Stays: the words t and m go apart, as C lends them to `bench_start` and `bench_step`: a struct of both would be copied in and out at each step.
#![tactic(auto)]

ghost use Rattle.std.specs.Prelude.{◌≡◌, Ok};
ghost use Rattle.wire_memap.specs.Laws.Flight.{Tries, step_tree};

use wire_memap::AtOnce;
use wire_memap::words::*;

// The next word of a run.
pub struct NextWord;

impl AtOnce for NextWord {
    fn takes(t: &mut [u32; 7], m: &mut [u32; 12], v: u32, row: &mut [u32]) -> bool {
        op_runs(t, m, v, row)
    }
}

// The next word of a run, at once, where the value v is that of one that another follows; else nothing is done.
pub fn op_runs(t: &mut [u32; 7], m: &mut [u32; 12], v: u32, row: &mut [u32]) -> bool
    ensures { Tries (step_tree t.old m.old (Ok v) row.old) result
        t.old m.old row.old t.new m.new row.new }
{
    if wire_transfer::is_aborting(t) {
        return false;
    }
    let phase = m[PHASE];
    let n = m[LEFT];
    if 1 < n {
        if phase == PUSH {
            let w = slots::get_or(row, m[LAST].saturating_sub(n - 2) as usize, 0);
            m[LEFT] = n - 1;
            wire_memap::direct(t, m, PUSH, DRW_WRITE, w);
            return true;
        }
        if phase == PULL {
            slots::put(row, m[LAST].saturating_sub(n) as usize, v);
            m[LEFT] = n - 1;
            wire_memap::direct(t, m, PULL, DRW_READ, 0);
            return true;
        }
    }
    false
}
