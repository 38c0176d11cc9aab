// Copyright 2026 Kenta Ida
// SPDX-License-Identifier: Apache-2.0
// Ported from arm-debug/src/lib.rs of ciniml/rust-dap.

// Calls 15 to 25: the core's run state and registers, the bootrom's table, and functions called on the core. Each function
// says what a call asks for next.
#![tactic(auto)]

ghost use Rattle.std.specs.Prelude.{◌≡◌, ◌-◌, ◌/◌, ◌%◌, ◌<◌, eqb, get_or};
ghost use Rattle.wire_memap.specs.declared.Op.TheVariants.{ReadWord, WriteWord};
ghost use Rattle.call.specs.Job.{ends, attempt, or_fail};
ghost use Rattle.call.specs.Laws.Asks.{asks, keep_some, next_job, op_then};
ghost use Rattle.call_core.specs.Cortex as Cortex;
ghost use Rattle.call_core.specs.Frame.{registers_of, frame_of, function_of};
ghost use Rattle.call_core.specs.Function as Functions;
ghost use Rattle.call_core.specs.Function.{core_job, joined, look_from, clobbered, write_row_reg, finishing, finish_function, after_wait};
ghost use Rattle.call_core.specs.Laws.After.{bit_of, waiting, polled, access_on, access_after, entry_of, tabled, matching, find_on, ending, looking, looked, setting, saving, beginning, restoring, resulting};
ghost use Rattle.call_core.specs.Laws.After.{run_on, over_on, then_on, phase_after, core_after};
ghost use Rattle.call_places.specs.declared.CoreAt.TheVariants.{Access};
ghost use Rattle.call_places.specs.declared.Wait.TheVariants.{Halt};

use call::{Asks, Change, GoesOn, Group, Next, changing, doing, ended};
use call_at::At;
use call_places::{AccessAt, CoreAt, FindStep, Plan, RunStep, Search, Then, Wait};
use wire::{ArmError, Outcome};
use wire_memap::Op;

// A function on the target, its arguments, its stack, and the place in memory that it returns to.
#[derive(Clone, Copy)]
pub struct Function {
    pub fn_addr: u32,
    pub a0: u32,
    pub a1: u32,
    pub a2: u32,
    pub a3: u32,
    pub sp: u32,
    pub trampoline: u32,
}

// The registers that a function may change, as call 23 leaves them and 24 restores them.
#[derive(Clone, Copy)]
pub struct CallFrame {
    pub r0: u32,
    pub r1: u32,
    pub r2: u32,
    pub r3: u32,
    pub sp: u32,
    pub lr: u32,
    pub pc: u32,
    pub xpsr: u32,
}

// Words in the order of the fields.
impl From<[u32; 7]> for Function {
    ghost from_gives = { λ words f. f ≡ function_of words };

    fn from(words: [u32; 7]) -> Function {
        let [fn_addr, a0, a1, a2, a3, sp, trampoline] = words;
        Function {
            fn_addr,
            a0,
            a1,
            a2,
            a3,
            sp,
            trampoline,
        }
    }
}

impl From<[u32; 8]> for CallFrame {
    ghost from_gives = { λ words f. f ≡ frame_of words };

    fn from(words: [u32; 8]) -> CallFrame {
        let [r0, r1, r2, r3, sp, lr, pc, xpsr] = words;
        CallFrame {
            r0,
            r1,
            r2,
            r3,
            sp,
            lr,
            pc,
            xpsr,
        }
    }
}

impl From<CallFrame> for [u32; 8] {
    ghost from_gives = { λ f words. words ≡ registers_of f };

    fn from(f: CallFrame) -> [u32; 8] {
        [f.r0, f.r1, f.r2, f.r3, f.sp, f.lr, f.pc, f.xpsr]
    }
}

// Call 23 leaves its frame in the room's places 0 to 7. The last number of 24 and 25 is their polls.
#[derive(Clone, Copy)]
pub enum CoreCall {
    DebugEnable,
    Halt,
    Resume,
    Step,
    IsHalted,
    ReadCoreReg(u8),
    WriteCoreReg(u8, u32),
    RomFuncLookup(u8, u8),
    StartFunction(Function),
    FinishFunction(CallFrame, u32),
    CallFunction(Function, u32),
}

// What an access asks for.
#[derive(Clone, Copy)]
struct AccessAsks {
    at: AccessAt,
    next: Next,
}

// Debug registers of the core.
const DHCSR: u32 = 0xE000EDF0;

const DCRSR: u32 = 0xE000EDF4;

const DCRDR: u32 = 0xE000EDF8;

// DHCSR as it is written: the key, and bits.
const DBGKEY: u32 = 0xA05F0000;

const C_DEBUGEN: u32 = 0x1;

const C_HALT: u32 = 0x2;

const C_STEP: u32 = 0x4;

const C_MASKINTS: u32 = 0x8;

const ENABLED: u32 = DBGKEY + C_DEBUGEN;

const MASKED: u32 = ENABLED + C_MASKINTS;

// DHCSR as it is read: a core register is transferred, the core is halted.
const S_REGRDY: u32 = 0x10000;

const S_HALT: u32 = 0x20000;

// DCRSR: the register is written, not read.
const DCRSR_REGWNR: u32 = 0x10000;

// DCRSR's numbers; r0 to r15 are 0 to 15.
const R0: u8 = 0;

const SP: u8 = 13;

const LR: u8 = 14;

const PC: u8 = 15;

const XPSR: u8 = 16;

// The xPSR that a function starts with: its T bit alone.
const XPSR_THUMB: u32 = 0x01000000;

// The registers that a function may change, in the order of a frame.
const CLOBBERED: [u8; 8] = [R0, 1, 2, 3, SP, LR, PC, XPSR];

// Where the bootrom holds its pointers, and how many entries of its table are looked at.
const ROM_TABLE_PTRS: u32 = 0x14;

const ENTRIES: u16 = 16384;

// The value for a function that the table lacks.
const NOT_FOUND: u32 = 0xFFFFFFFF;

// BKPT #0, twice.
const BKPT_TWICE: u32 = 0xBE00BE00;

// How often DHCSR is read for a bit, and for the core to run.
const POLLS: u32 = 4096;

const LOOKS: u32 = 64;

// The register at place i of a frame.
fn register_at(i: u32) -> u8
    ensures { result ≡ get_or clobbered i 0 }
{
    slots::get_or(&CLOBBERED, i as usize, 0)
}

// Whether the status bit stands that a wait is for.
fn status(w: Wait, v: u32) -> bool
    ensures { result ≡ Cortex.stands (bit_of w) v }
{
    match w {
        Wait::Halt => v / S_HALT % 2 == 1,
        Wait::Read | Wait::Write => v / S_REGRDY % 2 == 1,
    }
}

// An access ends.
fn access_ended(o: Outcome) -> AccessAsks
    ensures { ends o ≡ next_job result.next (access_after result.at) }
{
    AccessAsks {
        at: AccessAt::Whole,
        next: Next::End(o),
    }
}

// The operation `op` of an access.
fn access_doing(at: AccessAt, op: Op) -> AccessAsks
    ensures { op_then op (access_after at) ≡ next_job result.next (access_after result.at) }
{
    AccessAsks {
        at,
        next: Next::Do(op),
    }
}

// `left` more reads of DHCSR.
#[tactic(auto, using(crate::specs::Laws::Turns::waiting_none, crate::specs::Laws::Turns::waiting_more))]
fn wait_on(w: Wait, left: u32) -> AccessAsks
    ensures { waiting w left ≡ next_job result.next (access_after result.at) }
{
    if left == 0 {
        return access_ended(Err(ArmError::CoreTimeout));
    }
    access_doing(
        AccessAt::Poll {
            wait: w,
            left: left - 1,
        },
        Op::ReadWord { addr: DHCSR },
    )
}

// DHCSR is read: it is read again, or the wait is over.
fn polled_by(w: Wait, left: u32, v: u32) -> AccessAsks
    ensures { polled w left v ≡ next_job result.next (access_after result.at) }
{
    if !status(w, v) {
        return wait_on(w, left);
    }
    match w {
        Wait::Halt => access_ended(Ok(0)),
        Wait::Read => access_doing(AccessAt::Whole, Op::ReadWord { addr: DCRDR }),
        Wait::Write => access_ended(Ok(0)),
    }
}

// What follows an operation of an access that gave the value `v`.
fn access_on(p: AccessAt, v: u32) -> AccessAsks
    ensures { access_on p v ≡ next_job result.next (access_after result.at) }
{
    match p {
        AccessAt::Whole => access_ended(Ok(v)),
        AccessAt::Halted => access_ended(Ok(v / S_HALT % 2)),
        AccessAt::Asked(w) => wait_on(w, POLLS),
        AccessAt::Poll { wait, left } => polled_by(wait, left, v),
        AccessAt::Data(reg) => access_doing(
            AccessAt::Asked(Wait::Write),
            Op::WriteWord {
                addr: DCRSR,
                word: u32::from(reg) + DCRSR_REGWNR,
            },
        ),
    }
}

// The address of an entry.
fn entry_of(s: Search) -> u32
    ensures { result ≡ entry_of s }
{
    u32::from(s.table) + 4 * u32::from(ENTRIES.saturating_sub(s.left))
}

// The four bytes from byte `skip` of one word on, the rest of them in the word after it.
fn join(skip: u32, low: u32, high: u32) -> u32
    requires { skip < 4 }
    ensures { result ≡ joined skip low high }
{
    match skip {
        1 => low / 0x100 + high % 0x100 * 0x1000000,
        2 => low / 0x10000 + high % 0x10000 * 0x10000,
        3 => low / 0x1000000 + high % 0x1000000 * 0x100,
        _ => low,
    }
}

// A read of a search.
fn finding(step: FindStep, low: u32, s: Search, addr: u32) -> Asks
    ensures { op_then (ReadWord addr) (or_fail (find_on step low s)) ≡ asks result.change result.next (core_after result.at) }
{
    doing::<CoreCall>(
        CoreAt::Find {
            step,
            low,
            search: s,
        },
        Op::ReadWord { addr },
    )
}

// The next entry is read: in one word, or in two.
#[tactic(auto, using(crate::specs::Laws::Turns::look_more), unfolding(crate::specs::Function::look_from))]
fn find_next(s: Search) -> Asks
    ensures { look_from s.want s.table s.left ≡ asks result.change result.next (core_after result.at) }
{
    if s.left == 0 {
        return ended(Err(ArmError::TableEnd));
    }
    let entry = entry_of(s);
    if entry % 4 == 0 {
        return finding(FindStep::Entry, 0, s, entry);
    }
    finding(FindStep::Low, 0, s, entry - entry % 4)
}

// The search for a function's code, from its start.
fn look_up(want: u32) -> Asks
    ensures { op_then (ReadWord Functions.ROM_TABLE_PTRS) (or_fail (tabled want)) ≡ asks result.change result.next (core_after result.at) }
{
    finding(
        FindStep::Table,
        0,
        Search {
            want,
            table: 0,
            left: 0,
        },
        ROM_TABLE_PTRS,
    )
}

// An entry is read: the table's end, the function, or another one.
fn matched(s: Search, entry: u32) -> Asks
    ensures { matching s entry ≡ asks result.change result.next (core_after result.at) }
{
    let tag = entry % 0x10000;
    if tag == 0 {
        return ended(Ok(NOT_FOUND));
    }
    if tag == s.want {
        return ended(Ok(entry / 0x10000));
    }
    find_next(Search {
        left: s.left.saturating_sub(1),
        ..s
    })
}

// What follows a read of a search that gave `v`.
fn find_on(step: FindStep, low: u32, s: Search, v: u32) -> Asks
    ensures { find_on step low s v ≡ asks result.change result.next (core_after result.at) }
{
    let entry = entry_of(s);
    match step {
        FindStep::Table => find_next(Search {
            want: s.want,
            table: (v % 0x10000) as u16,
            left: ENTRIES,
        }),
        FindStep::Entry => matched(s, v),
        FindStep::Low => finding(FindStep::High, v, s, entry - entry % 4 + 4),
        FindStep::High => matched(s, join(entry % 4, low, v)),
    }
}

// A write of a function's call, after a change.
fn writing(change: Change, at: CoreAt, addr: u32, word: u32) -> Asks
    ensures { keep_some change (op_then (WriteWord addr word) (phase_after at)) ≡ asks result.change result.next (core_after result.at) }
{
    changing::<CoreCall>(change, at, Op::WriteWord { addr, word })
}

// The last `left` registers of the frame are saved, and then the trampoline is planted. `change` comes first.
fn save_on(change: Change, left: u32, plan: Plan) -> Asks
    ensures { keep_some change (saving left plan) ≡ asks result.change result.next (core_after result.at) }
{
    if left == 0 {
        let t = plan.trampoline;
        return writing(
            change,
            CoreAt::Run {
                step: RunStep::Planted,
                left: 0,
                plan,
            },
            t - t % 4,
            BKPT_TWICE,
        );
    }
    let reg = register_at(8u32.saturating_sub(left));
    let then = Then::Save { left, plan };
    writing(
        change,
        CoreAt::Access {
            at: AccessAt::Asked(Wait::Read),
            then,
        },
        DCRSR,
        u32::from(reg),
    )
}

// A register of the frame is written with the room's word at `place`.
fn register_set(i: u32, then: Then, place: u32) -> Asks
    ensures { attempt (write_row_reg (get_or clobbered i 0) place) (or_fail (then_on then))
        ≡ asks result.change result.next (core_after result.at) }
{
    let at = AccessAt::Data(register_at(i));
    doing::<CoreCall>(
        CoreAt::Access { at, then },
        Op::WriteWords {
            addr: DCRDR,
            n: 1,
            last: place,
        },
    )
}

// DHCSR is written in a function's first half.
fn running(step: RunStep, plan: Plan, word: u32) -> Asks
    ensures { op_then (WriteWord Cortex.DHCSR word) (or_fail (run_on step 0 plan)) ≡ asks result.change result.next (core_after result.at) }
{
    doing::<CoreCall>(
        CoreAt::Run {
            step,
            left: 0,
            plan,
        },
        Op::WriteWord { addr: DHCSR, word },
    )
}

// The last `left` registers get what a function starts with, and then the core is to be released.
#[tactic(auto, unfolding(crate::specs::Function::write_regs))]
fn set_on(left: u32, plan: Plan) -> Asks
    ensures { setting left plan ≡ asks result.change result.next (core_after result.at) }
{
    if left == 0 {
        return running(RunStep::Masked, plan, MASKED + C_HALT);
    }
    let i = 8u32.saturating_sub(left);
    register_set(i, Then::Set { left, plan }, 8 + i)
}

// The last `left` registers of the frame are restored, and then the call ends.
#[tactic(auto, unfolding(crate::specs::Function::write_regs))]
fn restore_on(left: u32, value: u32) -> Asks
    ensures { restoring left value ≡ asks result.change result.next (core_after result.at) }
{
    if left == 0 {
        return ended(Ok(value));
    }
    let i = 8u32.saturating_sub(left);
    register_set(i, Then::Restore { left, value }, i)
}

// An access gave the value `v`.
fn then_on(t: Then, v: u32) -> Asks
    ensures { then_on t v ≡ asks result.change result.next (core_after result.at) }
{
    match t {
        Then::End => ended(Ok(v)),
        Then::Save { left, plan } => save_on(
            Change::Put {
                at: 8u32.saturating_sub(left),
                word: v,
            },
            left.saturating_sub(1),
            plan,
        ),
        Then::Set { left, plan } => set_on(left.saturating_sub(1), plan),
        Then::Result => restore_on(8, v),
        Then::Restore { left, value } => restore_on(left.saturating_sub(1), value),
    }
}

// An access goes on, or is over.
fn follow(t: Then, a: AccessAsks) -> Asks
    ensures { attempt (next_job a.next (access_after a.at)) (or_fail (then_on t)) ≡ asks result.change result.next (core_after result.at) }
{
    match a.next {
        Next::Do(op) => doing::<CoreCall>(CoreAt::Access { at: a.at, then: t }, op),
        Next::End(Ok(v)) => then_on(t, v),
        Next::End(Err(e)) => ended(Err(e)),
    }
}

// The wait for a function's end is over: the core is halted, whatever came of it. `change` comes first.
fn halt_again(change: Change, waited: Outcome) -> Asks
    ensures { keep_some change (after_wait waited) ≡ asks result.change result.next (core_after result.at) }
{
    writing(
        change,
        CoreAt::Over {
            unmasked: false,
            waited,
        },
        DHCSR,
        MASKED + C_HALT,
    )
}

// The second half of a function's call: `left` more reads of DHCSR. `change` comes first.
#[tactic(auto, using(crate::specs::Laws::Turns::finish_more), unfolding(crate::specs::Core::wait_status))]
fn finish(change: Change, left: u32) -> Asks
    ensures { keep_some change (finishing left) ≡ asks result.change result.next (core_after result.at) }
{
    if left == 0 {
        return halt_again(change, Err(ArmError::CoreTimeout));
    }
    changing::<CoreCall>(change, CoreAt::Wait(left - 1), Op::ReadWord { addr: DHCSR })
}

// DHCSR is read in the wait for a function's end.
fn waited_by(left: u32, v: u32) -> Asks
    ensures { attempt (polled Halt left v) after_wait ≡ asks result.change result.next (core_after result.at) }
{
    if v / S_HALT % 2 == 1 {
        return halt_again(Change::Nothing, Ok(0));
    }
    finish(Change::Nothing, left)
}

// Interrupts are unmasked: r0 is read, or the wait's error ends the call.
fn result_of(waited: Outcome) -> Asks
    ensures { resulting waited ≡ asks result.change result.next (core_after result.at) }
{
    match waited {
        Ok(_) => writing(
            Change::Nothing,
            CoreAt::Access {
                at: AccessAt::Asked(Wait::Read),
                then: Then::Result,
            },
            DCRSR,
            u32::from(R0),
        ),
        Err(e) => ended(Err(e)),
    }
}

// What follows a write of DHCSR after that wait.
fn over_on(unmasked: bool, waited: Outcome) -> Asks
    ensures { over_on unmasked waited ≡ asks result.change result.next (core_after result.at) }
{
    if unmasked {
        return result_of(waited);
    }
    doing::<CoreCall>(
        CoreAt::Over {
            unmasked: true,
            waited,
        },
        Op::WriteWord {
            addr: DHCSR,
            word: ENABLED + C_HALT,
        },
    )
}

// The first half of a function's call is over.
fn end_of(plan: Plan) -> Asks
    ensures { ending plan ≡ asks result.change result.next (core_after result.at) }
{
    if plan.finish {
        return finish(Change::Nothing, plan.polls);
    }
    ended(Ok(0))
}

// `left` more looks whether the core runs.
#[tactic(auto, using(crate::specs::Laws::Turns::looking_more), unfolding(crate::specs::Function::look_running))]
fn look_on(left: u32, plan: Plan) -> Asks
    ensures { looking left plan ≡ asks result.change result.next (core_after result.at) }
{
    if left == 0 {
        return end_of(plan);
    }
    doing::<CoreCall>(
        CoreAt::Run {
            step: RunStep::Look,
            left: left - 1,
            plan,
        },
        Op::ReadWord { addr: DHCSR },
    )
}

// DHCSR is read in a look whether the core runs.
fn looked_by(left: u32, plan: Plan, v: u32) -> Asks
    ensures { looked left plan v ≡ asks result.change result.next (core_after result.at) }
{
    if v / S_HALT % 2 == 1 {
        return look_on(left, plan);
    }
    end_of(plan)
}

// What follows an operation of a function's first half.
fn run_on(step: RunStep, left: u32, plan: Plan, v: u32) -> Asks
    ensures { run_on step left plan v ≡ asks result.change result.next (core_after result.at) }
{
    match step {
        RunStep::Planted => set_on(8, plan),
        RunStep::Masked => running(RunStep::Released, plan, MASKED),
        RunStep::Released => look_on(LOOKS, plan),
        RunStep::Look => looked_by(left, plan, v),
    }
}

// The first half of a function's call, from its start.
fn begin(f: Function, finish: bool, polls: u32) -> Asks
    ensures { beginning f finish polls ≡ asks result.change result.next (core_after result.at) }
{
    let t = f.trampoline;
    let lr = t - t % 2 + 1;
    let registers = [f.a0, f.a1, f.a2, f.a3, f.sp, lr, f.fn_addr, XPSR_THUMB];
    save_on(
        Change::Registers(registers),
        8,
        Plan {
            trampoline: t,
            finish,
            polls,
        },
    )
}

// The second half of a function's call, from the frame that it is given.
fn finish_from(frame: CallFrame, polls: u32) -> Asks
    ensures { finish_function frame polls ≡ asks result.change result.next (core_after result.at) }
{
    finish(Change::Frame(frame.into()), polls)
}

// A call that is one access.
#[tactic(auto, using(call::specs::Laws::Job::bind_return))]
fn alone(at: AccessAt, op: Op) -> Asks
    ensures { op_then op (access_after at) ≡ asks result.change result.next (core_after result.at) }
{
    doing::<CoreCall>(
        CoreAt::Access {
            at,
            then: Then::End,
        },
        op,
    )
}

// What a call asks for first.
#[tactic(auto, unfolding(crate::specs::Function::core_job))]
pub fn start(c: CoreCall) -> Asks
    ensures { core_job c ≡ asks result.change result.next (core_after result.at) }
{
    match c {
        CoreCall::DebugEnable => alone(
            AccessAt::Whole,
            Op::WriteWord {
                addr: DHCSR,
                word: ENABLED,
            },
        ),
        CoreCall::Halt => alone(
            AccessAt::Asked(Wait::Halt),
            Op::WriteWord {
                addr: DHCSR,
                word: ENABLED + C_HALT,
            },
        ),
        CoreCall::Resume => alone(
            AccessAt::Whole,
            Op::WriteWord {
                addr: DHCSR,
                word: ENABLED,
            },
        ),
        CoreCall::Step => alone(
            AccessAt::Asked(Wait::Halt),
            Op::WriteWord {
                addr: DHCSR,
                word: MASKED + C_STEP,
            },
        ),
        CoreCall::IsHalted => alone(AccessAt::Halted, Op::ReadWord { addr: DHCSR }),
        CoreCall::ReadCoreReg(reg) => alone(
            AccessAt::Asked(Wait::Read),
            Op::WriteWord {
                addr: DCRSR,
                word: u32::from(reg),
            },
        ),
        CoreCall::WriteCoreReg(reg, value) => alone(
            AccessAt::Data(reg),
            Op::WriteWord {
                addr: DCRDR,
                word: value,
            },
        ),
        CoreCall::RomFuncLookup(first, second) => look_up(
            u32::from(first) + 0x100 * u32::from(second),
        ),
        CoreCall::StartFunction(f) => begin(f, false, 0),
        CoreCall::FinishFunction(frame, polls) => finish_from(frame, polls),
        CoreCall::CallFunction(f, polls) => begin(f, true, polls),
    }
}

impl Group for CoreCall {
    type Phase = CoreAt;

    ghost after = { phase_after };
}

impl GoesOn for CoreCall {
    fn value_after(p: CoreAt, v: u32) -> Asks {
        match p {
            CoreAt::Access { at, then } => follow(then, access_on(at, v)),
            CoreAt::Find { step, low, search } => find_on(step, low, search, v),
            CoreAt::Run { step, left, plan } => run_on(step, left, plan, v),
            CoreAt::Wait(left) => waited_by(left, v),
            CoreAt::Over { unmasked, waited } => over_on(unmasked, waited),
        }
    }

    // An error ends the call, except that of the wait for a function's end.
    fn failed_after(p: CoreAt, e: ArmError) -> Asks {
        match p {
            CoreAt::Wait(_) => halt_again(Change::Nothing, Err(e)),
            CoreAt::Access { .. }
            | CoreAt::Find { .. }
            | CoreAt::Run { .. }
            | CoreAt::Over { .. } => ended(Err(e)),
        }
    }
}

// What a call in flight asks for, now that its operation has ended.
pub fn call_after(at: At, o: Outcome) -> Asks
    ensures { core_after at o ≡ asks result.change result.next (core_after result.at) }
{
    call::call_after::<CoreCall>(at, o)
}
