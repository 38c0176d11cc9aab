// The calls as they come from another language: 01's number, and words for arguments. The engine's 35, and those that a session admits.
#![tactic(auto)]

ghost use Rattle.std.specs.Prelude.{◌≡◌, ◌≤◌};
ghost use Rattle.std.specs.Option.{option_map};
ghost use Rattle.abi_calls.specs.Given.{engine_call_of};
ghost use Rattle.abi_calls.specs.Given.{connect_admitted, memory_admitted, call_admitted, session_call_of};

use call_connect::ConnectCall;
use call_core::CoreCall;
use call_fpb::FpbCall;
use call_memory::MemoryCall;
use call_nrf::NrfCall;
use engine_calls::EngineCall;
use session_calls::SessionCall;

// Stays: 01's numbers, here and below, as C hands them to bazkondur_start; an enum of numbers would say the 35 names once more.
// The call of a number and its words.
pub fn engine_call_of(number: u32, args: &[u32]) -> Option<EngineCall>
    ensures { result ≡ engine_call_of number args.now }
{
    let call = match number {
        1..=5 => connect_call(number, args)?.into(),
        6..=14 => memory_call(number, args)?.into(),
        15..=21 => core_call(number, args)?.into(),
        22..=25 => function_call(number, args)?.into(),
        26..=28 => fpb_call(number, args)?.into(),
        29..=35 => nrf_call(number, args)?.into(),
        _ => return None,
    };
    Some(call)
}

// Calls 1 to 5.
fn connect_call(number: u32, args: &[u32]) -> Option<ConnectCall>
    requires least { 1 ≤ number }
    requires most { number ≤ 5 }
    ensures { option_map (λ q. EngineCall.Connect q) result ≡ engine_call_of number args.now }
{
    match (number, args) {
        (1, &[targetsel]) => Some(ConnectCall::ConnectMultidrop(targetsel)),
        (2, []) => Some(ConnectCall::ProbeSwd),
        (3, []) => Some(ConnectCall::ConnectSwd),
        (4, &[wait_us]) => Some(ConnectCall::ResetPulse(wait_us)),
        (5, &[targetsel]) => Some(ConnectCall::Reselect(targetsel)),
        _ => None,
    }
}

// Calls 6 to 14: those on the memory access port, and on memory.
fn memory_call(number: u32, args: &[u32]) -> Option<MemoryCall>
    requires least { 6 ≤ number }
    requires most { number ≤ 14 }
    ensures { option_map (λ q. EngineCall.Memory q) result ≡ engine_call_of number args.now }
{
    match (number, args) {
        (6, &[apsel @ ..=255]) => Some(MemoryCall::SetApsel(apsel as u8)),
        (7, &[addr @ ..=255]) => Some(MemoryCall::ApRegRead(addr as u8)),
        (8, &[addr @ ..=255, word]) => Some(MemoryCall::ApRegWrite(addr as u8, word)),
        (9, &[addr]) => Some(MemoryCall::ReadWord(addr)),
        (10, &[addr, word]) => Some(MemoryCall::WriteWord(addr, word)),
        (11, &[addr]) => Some(MemoryCall::ReadWords(addr)),
        (12, &[addr]) => Some(MemoryCall::WriteWords(addr)),
        (13, &[addr]) => Some(MemoryCall::ReadMem(addr)),
        (14, &[addr]) => Some(MemoryCall::WriteMem(addr)),
        _ => None,
    }
}

// Calls 15 to 21.
fn core_call(number: u32, args: &[u32]) -> Option<CoreCall>
    requires least { 15 ≤ number }
    requires most { number ≤ 21 }
    ensures { option_map (λ q. EngineCall.Core q) result ≡ engine_call_of number args.now }
{
    match (number, args) {
        (15, []) => Some(CoreCall::DebugEnable),
        (16, []) => Some(CoreCall::Halt),
        (17, []) => Some(CoreCall::Resume),
        (18, []) => Some(CoreCall::Step),
        (19, []) => Some(CoreCall::IsHalted),
        (20, &[reg @ ..=255]) => Some(CoreCall::ReadCoreReg(reg as u8)),
        (21, &[reg @ ..=255, word]) => Some(CoreCall::WriteCoreReg(reg as u8, word)),
        _ => None,
    }
}

// Calls 22 to 25.
fn function_call(number: u32, args: &[u32]) -> Option<CoreCall>
    requires least { 22 ≤ number }
    requires most { number ≤ 25 }
    ensures { option_map (λ q. EngineCall.Core q) result ≡ engine_call_of number args.now }
{
    match (number, args) {
        (22, &[a @ ..=255, b @ ..=255]) => Some(CoreCall::RomFuncLookup(a as u8, b as u8)),
        (23, &[fn_addr, a0, a1, a2, a3, sp, trampoline]) => {
            let function = [fn_addr, a0, a1, a2, a3, sp, trampoline];
            Some(CoreCall::StartFunction(function.into()))
        }
        (24, &[r0, r1, r2, r3, sp, lr, pc, xpsr, polls]) => {
            let frame = [r0, r1, r2, r3, sp, lr, pc, xpsr];
            Some(CoreCall::FinishFunction(frame.into(), polls))
        }
        (25, &[fn_addr, a0, a1, a2, a3, sp, trampoline, polls]) => {
            let function = [fn_addr, a0, a1, a2, a3, sp, trampoline];
            Some(CoreCall::CallFunction(function.into(), polls))
        }
        _ => None,
    }
}

// Calls 26 to 28.
fn fpb_call(number: u32, args: &[u32]) -> Option<FpbCall>
    requires least { 26 ≤ number }
    requires most { number ≤ 28 }
    ensures { option_map (λ q. EngineCall.Fpb q) result ≡ engine_call_of number args.now }
{
    match (number, args) {
        (26, &[addr]) => Some(FpbCall::HwBreakpointSet(addr)),
        (27, &[addr]) => Some(FpbCall::HwBreakpointClear(addr)),
        (28, &[addr]) => Some(FpbCall::HwBreakpointAt(addr)),
        _ => None,
    }
}

// Calls 29 to 35.
fn nrf_call(number: u32, args: &[u32]) -> Option<NrfCall>
    requires least { 29 ≤ number }
    requires most { number ≤ 35 }
    ensures { option_map (λ q. EngineCall.Nrf q) result ≡ engine_call_of number args.now }
{
    match (number, args) {
        (29, []) => Some(NrfCall::Nrf52ApprotectStatus),
        (30, &[polls]) => Some(NrfCall::Nrf52EraseAll(polls)),
        (31, &[addr, polls]) => Some(NrfCall::Nrf52ErasePage { addr, polls }),
        (32, &[addr, polls]) => Some(NrfCall::Nrf52Program { addr, polls }),
        (33, []) => Some(NrfCall::Nrf54ApprotectStatus),
        (34, &[polls]) => Some(NrfCall::Nrf54EraseAll(polls)),
        (35, &[addr, polls]) => Some(NrfCall::Nrf54Program { addr, polls }),
        _ => None,
    }
}

// Of the connects a session admits call 3,
fn session_connect(c: ConnectCall) -> Option<SessionCall>
    ensures { result ≡ connect_admitted c }
{
    match c {
        ConnectCall::ConnectSwd => Some(SessionCall::ConnectSwd),
        _ => None,
    }
}

// of calls 6 to 14 those on single words and on bytes.
fn session_memory(c: MemoryCall) -> Option<SessionCall>
    ensures { result ≡ memory_admitted c }
{
    match c {
        MemoryCall::ReadWord(addr) => Some(SessionCall::ReadWord(addr)),
        MemoryCall::WriteWord(addr, w) => Some(SessionCall::WriteWord(addr, w)),
        MemoryCall::ReadMem(addr) => Some(SessionCall::ReadMem(addr)),
        MemoryCall::WriteMem(addr) => Some(SessionCall::WriteMem(addr)),
        _ => None,
    }
}

fn session_call(c: EngineCall) -> Option<SessionCall>
    ensures { result ≡ call_admitted c }
{
    match c {
        EngineCall::Connect(q) => session_connect(q),
        EngineCall::Memory(q) => session_memory(q),
        EngineCall::Core(q) => Some(SessionCall::Core(q)),
        EngineCall::Fpb(q) => Some(SessionCall::Fpb(q)),
        EngineCall::Nrf(_) => None,
    }
}

// The call of a session that number and words stand for.
pub fn session_call_of(number: u32, args: &[u32]) -> Option<SessionCall>
    ensures { result ≡ session_call_of number args.now }
{
    session_call(engine_call_of(number, args)?)
}
