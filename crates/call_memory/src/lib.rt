// Copyright 2026 Kenta Ida
// SPDX-License-Identifier: Apache-2.0
// Ported from arm-debug/src/lib.rs of ciniml/rust-dap.

// Calls 6 to 14: raw registers of an access port, words and memory. Each function says what a call asks for next.
#![tactic(auto)]

ghost use Rattle.std.specs.Prelude.{true, ◌≡◌, ◌-◌, ◌*◌, leb};
ghost use Rattle.call.specs.Job.{just};
ghost use Rattle.call.specs.Laws.Asks.{asks, keep_some, op_then};
ghost use Rattle.call.specs.declared.Change.TheVariants.{Nothing};
ghost use Rattle.call_memory.specs.Memory.{memory_job, read_words, write_words, in_range, mem, mem_from, run_words};
ghost use Rattle.call_memory.specs.Laws.Turns.{move_run, move_bytes};
ghost use Rattle.call_memory.specs.Laws.After.{memory_after, phase_after, memory_at_of, goes_on_of, addr_of, place_of, rest};
ghost use Rattle.call_memory.specs.declared.MemoryAt.TheVariants.{Turn};
ghost use Rattle.call_memory.specs.declared.TurnStep.TheVariants.{ReadRun, ReadPart, PartRead};

use call::{Asks, Change, GoesOn, Group, changing, doing, ended, ended_after};
use call_at::{At, Packed, at_step};
use wire::{ArmError, Outcome};
use wire_memap::Op;

// Words and bytes are those that the caller lends.
#[derive(Clone, Copy)]
pub enum MemoryCall {
    SetApsel(u8),
    ApRegRead(u8),
    ApRegWrite(u8, u32),
    ReadWord(u32),
    WriteWord(u32, u32),
    ReadWords(u32),
    WriteWords(u32),
    ReadMem(u32),
    WriteMem(u32),
}

// A turn of read_mem or write_mem: `left` bytes to go up to the address `stop`, of `len` in all; `size` is this turn's
// words, or bytes where it moves a part of a word.
#[derive(Clone, Copy)]
pub struct Mem {
    pub stop: u32,
    pub len: u32,
    pub left: u32,
    pub size: u32,
}

// What a turn's operation does: words or a part of one are read, words are written, or the word around a part is read and
// then written back.
#[derive(Clone, Copy)]
pub enum TurnStep {
    ReadRun,
    ReadPart,
    WriteRun,
    PartRead,
    PartWritten,
}

// Which operation of a call is in flight. `Whole`: its outcome is the call's.
#[derive(Clone, Copy)]
pub enum MemoryAt {
    Whole,
    Turn { step: TurnStep, mem: Mem },
}

// `left` bytes less `n` words.
fn minus_words(left: u32, n: u32) -> u32
    ensures { result ≡ left - 4 * n }
{
    left.saturating_sub(n.saturating_mul(4))
}

// The words of one run of read_mem and write_mem.
fn run_words(addr: u32, words: u32) -> u32
    ensures { result ≡ run_words addr words }
{
    ((1024 - addr % 1024) / 4).min(words).min(64)
}

// The operation of a turn that is in flight, in numbers: which one it is, and the turn.
fn turn_at(number: u32, m: Mem) -> At
    ensures { result ≡ record { step = number; a = m.stop; b = m.len; c = m.left; d = m.size; e = 0 } }
{
    at_step(number, m.stop, m.len, m.left, m.size, 0)
}

// Stays: numbers for phases: the words of a session hold them, and any words are some phase.
impl Packed<At> for MemoryAt {
    ghost told = { λ at. memory_at_of at };

    fn pack(self) -> At {
        match self {
            MemoryAt::Whole => at_step(0, 0, 0, 0, 0, 0),
            MemoryAt::Turn { step, mem } => match step {
                TurnStep::ReadRun => turn_at(1, mem),
                TurnStep::ReadPart => turn_at(2, mem),
                TurnStep::WriteRun => turn_at(3, mem),
                TurnStep::PartRead => turn_at(4, mem),
                TurnStep::PartWritten => turn_at(5, mem),
            },
        }
    }

    fn unpack(at: At) -> MemoryAt {
        let mem = Mem {
            stop: at.a,
            len: at.b,
            left: at.c,
            size: at.d,
        };
        let step = match at.step % 32 {
            0 => return MemoryAt::Whole,
            1 => TurnStep::ReadRun,
            2 => TurnStep::ReadPart,
            3 => TurnStep::WriteRun,
            4 => TurnStep::PartRead,
            _ => TurnStep::PartWritten,
        };
        MemoryAt::Turn { step, mem }
    }
}

// A turn's operation, after a change.
fn moving(change: Change, step: TurnStep, mem: Mem, op: Op) -> Asks
    ensures turn { keep_some change (op_then op (phase_after (Turn step mem))) ≡ asks result.change result.next (memory_after result.at) }
    ensures change { result.change ≡ change }
{
    changing::<MemoryCall>(change, MemoryAt::Turn { step, mem }, op)
}

// A turn that moves whole words. To be written, they are loaded first.
// Stays: `read` a flag, here and below: the definition of a turn has it so, and an enum would be one more type to believe.
fn move_run(read: bool, m: Mem) -> Asks
    ensures turn { move_run read (addr_of m) (place_of m) m.size (rest read m) ≡ asks result.change result.next (memory_after result.at) }
    ensures change { read ≡ true → result.change ≡ Nothing }
{
    let addr = m.stop.saturating_sub(m.left);
    let n = m.size;
    let last = n.saturating_sub(1);
    if read {
        return moving(
            Change::Nothing,
            TurnStep::ReadRun,
            m,
            Op::ReadWords { addr, n, last },
        );
    }
    let at = m.len.saturating_sub(m.left);
    moving(
        Change::LoadWords { at, n },
        TurnStep::WriteRun,
        m,
        Op::WriteWords { addr, n, last },
    )
}

// A turn that moves a part of a word. To be written too, the word is read first.
fn move_bytes(read: bool, m: Mem) -> Asks
    ensures turn { move_bytes read (addr_of m) (place_of m) m.size (rest read m) ≡ asks result.change result.next (memory_after result.at) }
    ensures change { read ≡ true → result.change ≡ Nothing }
{
    let addr = m.stop.saturating_sub(m.left);
    let op = Op::ReadWord {
        addr: addr - addr % 4,
    };
    if read {
        return moving(Change::Nothing, TurnStep::ReadPart, m, op);
    }
    moving(Change::Nothing, TurnStep::PartRead, m, op)
}

// The turn with `left` bytes to go. One that reads changes nothing before its operation.
#[tactic(auto, unfolding(crate::specs::Memory::turns))]
fn mem_on(read: bool, stop: u32, len: u32, left: u32) -> Asks
    ensures turn { mem_from read stop len left ≡ asks result.change result.next (memory_after result.at) }
    ensures change { read ≡ true → result.change ≡ Nothing }
{
    if left == 0 {
        return ended(Ok(0));
    }
    let addr = stop.saturating_sub(left);
    let part = Mem {
        stop,
        len,
        left,
        size: (4 - addr % 4).min(left),
    };
    if addr % 4 != 0 {
        return move_bytes(read, part);
    }
    if left < 4 {
        return move_bytes(read, part);
    }
    let n = run_words(addr, left / 4);
    move_run(read, Mem { size: n, ..part })
}

// An operation whose outcome is the call's.
fn whole(op: Op) -> Asks
    ensures { just op ≡ asks result.change result.next (memory_after result.at) }
{
    doing::<MemoryCall>(MemoryAt::Whole, op)
}

fn read_words(addr: u32, words: usize) -> Asks
    ensures { in_range (leb 0x100000000 words) (read_words addr words) ≡ asks result.change result.next (memory_after result.at) }
{
    match u32::try_from(words) {
        Ok(n) => whole(Op::ReadWords {
            addr,
            n,
            last: n.saturating_sub(1),
        }),
        Err(_) => ended(Err(ArmError::Range)),
    }
}

fn write_words(addr: u32, words: usize) -> Asks
    ensures { in_range (leb 0x100000000 words) (write_words addr words) ≡ asks result.change result.next (memory_after result.at) }
{
    match u32::try_from(words) {
        Ok(0) => ended(Ok(0)),
        Ok(n) => whole(Op::WriteWords {
            addr,
            n,
            last: n - 1,
        }),
        Err(_) => ended(Err(ArmError::Range)),
    }
}

// read_mem or write_mem of `bytes` bytes.
fn start_mem(read: bool, addr: u32, bytes: usize) -> Asks
    ensures { mem read addr bytes ≡ asks result.change result.next (memory_after result.at) }
{
    let Ok(len) = u32::try_from(bytes) else {
        return ended(Err(ArmError::Range));
    };
    match addr.checked_add(len) {
        Some(stop) => mem_on(read, stop, len, len),
        None => ended(Err(ArmError::Range)),
    }
}

// What a call asks for first.
#[tactic(auto, unfolding(crate::specs::Memory::memory_job))]
pub fn start(c: MemoryCall, words: usize, bytes: usize) -> Asks
    ensures { memory_job c words bytes ≡ asks result.change result.next (memory_after result.at) }
{
    match c {
        MemoryCall::SetApsel(apsel) => ended_after(Change::Apsel(apsel), Ok(0)),
        MemoryCall::ApRegRead(addr) => whole(Op::ApRead { addr }),
        MemoryCall::ApRegWrite(addr, word) => whole(Op::ApWrite { addr, word }),
        MemoryCall::ReadWord(addr) => whole(Op::ReadWord { addr }),
        MemoryCall::WriteWord(addr, word) => whole(Op::WriteWord { addr, word }),
        MemoryCall::ReadWords(addr) => read_words(addr, words),
        MemoryCall::WriteWords(addr) => write_words(addr, words),
        MemoryCall::ReadMem(addr) => start_mem(true, addr, bytes),
        MemoryCall::WriteMem(addr) => start_mem(false, addr, bytes),
    }
}

// A change, and then reading goes on with `left` bytes to go.
fn stored(change: Change, stop: u32, len: u32, left: u32) -> Asks
    ensures { keep_some change (mem_from true stop len left) ≡ asks result.change result.next (memory_after result.at) }
{
    Asks {
        change,
        ..mem_on(true, stop, len, left)
    }
}

// The words that a run has read are stored.
fn run_read(m: Mem) -> Asks
    ensures { goes_on_of (Turn ReadRun m) 0 ≡ asks result.change result.next (memory_after result.at) }
{
    let place = m.len.saturating_sub(m.left);
    stored(
        Change::StoreWords {
            at: place,
            n: m.size,
        },
        m.stop,
        m.len,
        minus_words(m.left, m.size),
    )
}

// A part of the word that was read is stored.
fn part_read(m: Mem, word: u32) -> Asks
    ensures { goes_on_of (Turn ReadPart m) word ≡ asks result.change result.next (memory_after result.at) }
{
    let skip = m.stop.saturating_sub(m.left) % 4;
    let place = m.len.saturating_sub(m.left);
    stored(
        Change::StorePart {
            at: place,
            skip,
            count: m.size,
            word,
        },
        m.stop,
        m.len,
        m.left.saturating_sub(m.size),
    )
}

// A part of the word that was read is replaced, and the word is written back.
fn patched(m: Mem, word: u32) -> Asks
    ensures { goes_on_of (Turn PartRead m) word ≡ asks result.change result.next (memory_after result.at) }
{
    let addr = m.stop.saturating_sub(m.left);
    let skip = addr % 4;
    let place = m.len.saturating_sub(m.left);
    let patch = Change::Patch {
        at: place,
        skip,
        count: m.size,
        word,
    };
    let op = Op::WriteWords {
        addr: addr - skip,
        n: 1,
        last: 0,
    };
    moving(patch, TurnStep::PartWritten, m, op)
}

// What follows a turn's operation that gave the value `v`.
fn turn_after(step: TurnStep, m: Mem, v: u32) -> Asks
    ensures { goes_on_of (Turn step m) v ≡ asks result.change result.next (memory_after result.at) }
{
    match step {
        TurnStep::ReadRun => run_read(m),
        TurnStep::ReadPart => part_read(m, v),
        TurnStep::WriteRun => mem_on(false, m.stop, m.len, minus_words(m.left, m.size)),
        TurnStep::PartRead => patched(m, v),
        TurnStep::PartWritten => mem_on(false, m.stop, m.len, m.left.saturating_sub(m.size)),
    }
}

impl Group for MemoryCall {
    type Phase = MemoryAt;

    ghost after = { phase_after };
}

impl GoesOn for MemoryCall {
    fn value_after(p: MemoryAt, v: u32) -> Asks {
        match p {
            MemoryAt::Whole => ended(Ok(v)),
            MemoryAt::Turn { step, mem } => turn_after(step, mem, v),
        }
    }

    // An error ends the call.
    fn failed_after(_p: MemoryAt, e: ArmError) -> Asks {
        ended(Err(e))
    }
}

// What a call in flight asks for, now that its operation has ended.
pub fn call_after(at: At, o: Outcome) -> Asks
    ensures { memory_after at o ≡ asks result.change result.next (memory_after result.at) }
{
    call::call_after::<MemoryCall>(at, o)
}
