// Copyright 2026 Kenta Ida
// SPDX-License-Identifier: Apache-2.0
// Ported from arm-debug/src/lib.rs of ciniml/rust-dap.

// The words of an operation in flight; one access to a port, SELECT before it where it has to be written; the start of an operation.
// Stays: the words t and m go apart, as C lends them to `bench_start` and `bench_step`: a struct of both would be copied in and out at each step.
#![tactic(auto)]

ghost use Rattle.std.specs.Prelude.{◌≡◌, ◌≤◌, set, Ok};
ghost use Rattle.wire_transfer.specs.Transfer.{raw};
ghost use Rattle.wire_transfer.specs.Laws.Flight.{begun};
ghost use Rattle.wire_memap.specs.Ports as Ports;
ghost use Rattle.wire_memap.specs.Ports.{select_of, a32, dp_writing};
ghost use Rattle.wire_memap.specs.Ops.{perform};
ghost use Rattle.wire_memap.specs.Laws.Doing.{remembered_of, kind_of, OpSized, Remembers};
ghost use Rattle.wire_memap.specs.Laws.Flight.{waiting, Accessed, Begun, Tries, ensuring_task, step_tree};

use wire::{Call, Remembered};
use words::*;

pub mod words;

// What a call may ask for. The words of a run stand in the row, the last at place `last`.
#[derive(Clone, Copy)]
pub enum Op {
    DpRead { addr: u8 },
    DpWrite { addr: u8, word: u32 },
    ApRead { addr: u8 },
    ApWrite { addr: u8, word: u32 },
    ReadWord { addr: u32 },
    WriteWord { addr: u32, word: u32 },
    ReadWords { addr: u32, n: u32, last: u32 },
    WriteWords { addr: u32, n: u32, last: u32 },
    Other(Call),
}

// A way to take the value v of an access at once, where another access of the same operation follows it: true; or false, and nothing is
// done. `wire_runs` has one for the words of a run, `wire_step` one for any access.
pub trait AtOnce {
    fn takes(t: &mut [u32; 7], m: &mut [u32; 12], v: u32, row: &mut [u32]) -> bool
        ensures { Tries (step_tree t.old m.old (Ok v) row.old) result
            t.old m.old row.old t.new m.new row.new };
}

// What is remembered, as the words have it.
pub fn remembered(m: &[u32; 12]) -> Remembered
    ensures { result ≡ remembered_of m.now }
{
    Remembered {
        select: m[SELECT],
        csw: m[CSW] == 1,
        apsel: (m[APSEL] % 256) as u8,
    }
}

// A transfer with no SELECT before it, in a phase.
pub fn direct(t: &mut [u32; 7], m: &mut [u32; 12], phase: u32, request: u32, word: u32)
    ensures { (t.new ≡ begun request word t.old) × (m.new ≡ set m.old 0 phase) }
{
    m[PHASE] = phase;
    wire_transfer::begin(t, request, word);
}

// SELECT goes before the access's own transfer.
fn selecting(t: &mut [u32; 7], m: &mut [u32; 12], phase: u32, request: u32, word: u32, select: u32)
    ensures { (t.new ≡ begun (dp_writing Ports.SELECT) select t.old)
        × (m.new ≡ waiting phase request word select m.old) }
{
    m[PHASE] = phase % 16 + SELECTING;
    m[REQUEST] = request;
    m[WORD] = word;
    m[WANT] = select;
    wire_transfer::begin(t, SELECT_WRITE, select);
}

// SELECT for the register at `addr` of the present access port.
fn select_of(m: &[u32; 12], addr: u8) -> u32
    ensures { result ≡ select_of (remembered_of m.now) addr }
{
    m[APSEL] % 256 * 0x1000000 + u32::from(addr) / 16 * 16
}

// A transfer to a register of the access port, in a phase: SELECT first, where it differs from the one remembered.
pub fn access(t: &mut [u32; 7], m: &mut [u32; 12], phase: u32, request: u32, addr: u8, word: u32)
    ensures { Accessed phase request addr word t.old m.old t.new m.new }
{
    let s = select_of(m, addr);
    if s == m[SELECT] {
        direct(t, m, phase, request, word);
        return;
    }
    selecting(t, m, phase, request, word, s);
}

// A word or a run of n words: CSW first, where it is not known, and then TAR.
fn task_start(
    t: &mut [u32; 7],
    m: &mut [u32; 12],
    kind: u32,
    addr: u32,
    word: u32,
    n: u32,
    last: u32,
)
    ensures { Begun (ensuring_task (record { kind = kind_of kind; addr = addr; word = word; last = last }) n)
        t.old m.old t.new m.new }
{
    m[TASK] = kind;
    m[ADDR] = addr;
    m[DATA] = word;
    m[LEFT] = n;
    m[LAST] = last;
    if m[CSW] == 1 {
        access(t, m, TAR_SENT, TAR_WRITE, TAR, addr);
        return;
    }
    access(t, m, CSW_SENT, CSW_WRITE, CSW_ADDR, CSW_DEFAULT);
}

// A2 and A3 of an address.
fn a32(addr: u8) -> u32
    ensures { (result ≡ a32 addr) × (result ≤ 12) }
{
    u32::from(addr) % 16 / 4 * 4
}

// A transport call as it stands, with nothing to do after it.
fn raw_start(t: &mut [u32; 7], m: &mut [u32; 12], c: Call)
    ensures { Begun (λ k s. raw s c (k s)) t.old m.old t.new m.new }
{
    m[PHASE] = ONLY;
    wire_transfer::begin_raw(t, c);
}

// An operation is begun: its first transport call is in flight.
pub fn op_start(t: &mut [u32; 7], m: &mut [u32; 12], op: Op)
    ensures { Begun (perform op) t.old m.old t.new m.new }
{
    match op {
        Op::DpRead { addr } => direct(t, m, ONLY, 2 + a32(addr), 0),
        Op::DpWrite { addr, word } => direct(t, m, UNIT, a32(addr), word),
        Op::ApRead { addr } => access(t, m, POSTED, 3 + a32(addr), addr, 0),
        Op::ApWrite { addr, word } => access(t, m, UNIT, 1 + a32(addr), addr, word),
        Op::ReadWord { addr } => task_start(t, m, READ_WORD, addr, 0, 0, 0),
        Op::WriteWord { addr, word } => task_start(t, m, WRITE_WORD, addr, word, 0, 0),
        Op::ReadWords { addr, n, last } => task_start(t, m, READ_WORDS, addr, 0, n, last),
        Op::WriteWords { addr, n, last } => task_start(t, m, WRITE_WORDS, addr, 0, n, last),
        Op::Other(c) => raw_start(t, m, c),
    }
}

// What is remembered becomes r.
pub fn remember(m: &mut [u32; 12], r: Remembered)
    ensures { OpSized m.old → Remembers r m.new }
{
    m[SELECT] = r.select;
    m[CSW] = u32::from(r.csw);
    m[APSEL] = u32::from(r.apsel);
}
