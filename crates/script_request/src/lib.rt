// The request of a script: from the number of a call and the bytes behind it to the call and what it is lent.
#![tactic(auto)]

ghost use Rattle.std.specs.Prelude.{◌≡◌, ◌≤◌};
ghost use Rattle.script_request.specs.Request.{fixed as Request·fixed, plain, words_follow, bytes_follow, function_of, call_frame_of, read_words, request_of};

use call_connect::ConnectCall;
use call_core::{CallFrame, CoreCall, Function};
use call_fpb::FpbCall;
use call_memory::MemoryCall;
use call_nrf::NrfCall;
use engine_calls::EngineCall;
use script_form::{byte, half, word};

// What a call is lent: zeros that are printed afterwards, or the rest of its record, words behind so many bytes. `Frame`: zeros
// for a frame, which is printed if the call succeeds.
#[derive(Clone, Copy)]
pub enum Buffer {
    Nothing,
    Words(u16),
    Bytes(u16),
    GivenWords(u8),
    GivenBytes,
    Frame,
}

// The call that a script asks for, and what it is lent.
#[derive(Clone, Copy)]
pub struct Request {
    pub call: EngineCall,
    pub buffer: Buffer,
}

// Arguments of exactly `size` bytes.
fn fixed(a: &[u8], size: usize, call: EngineCall, buffer: Buffer) -> Option<Request>
    ensures { result ≡ Request·fixed a.now size call buffer }
{
    (a.len() == size).then_some(Request { call, buffer })
}

// The same for a call of any group that is lent nothing.
fn plain<C: Into<EngineCall>>(a: &[u8], size: usize, c: C) -> Option<Request>
    ensures { (q : EngineCall) × C.converts c q × (result ≡ plain a.now size q) }
{
    fixed(a, size, c.into(), Buffer::Nothing)
}

// Words behind the first `size` bytes.
fn words_follow(a: &[u8], size: u8, call: EngineCall) -> Option<Request>
    ensures { result ≡ words_follow a.now size call }
{
    let buffer = Buffer::GivenWords(size);
    let whole = usize::from(size) <= a.len() && a.len() % 4 == 0;
    whole.then_some(Request { call, buffer })
}

// Bytes behind an address.
fn bytes_follow(a: &[u8], call: EngineCall) -> Option<Request>
    ensures { result ≡ bytes_follow a.now call }
{
    let buffer = Buffer::GivenBytes;
    (4 <= a.len()).then_some(Request { call, buffer })
}

// The function of calls 23 and 25.
fn function_at(a: &[u8]) -> Function
    ensures { result ≡ function_of a.now }
{
    Function {
        fn_addr: word(a, 0),
        a0: word(a, 4),
        a1: word(a, 8),
        a2: word(a, 12),
        a3: word(a, 16),
        sp: word(a, 20),
        trampoline: word(a, 24),
    }
}

// The frame of call 24.
fn call_frame_at(a: &[u8]) -> CallFrame
    ensures { result ≡ call_frame_of a.now }
{
    CallFrame {
        r0: word(a, 0),
        r1: word(a, 4),
        r2: word(a, 8),
        r3: word(a, 12),
        sp: word(a, 16),
        lr: word(a, 20),
        pc: word(a, 24),
        xpsr: word(a, 28),
    }
}

// Call 11.
fn read_words(a: &[u8], addr: u32, count: u16) -> Option<Request>
    ensures { result ≡ read_words a.now addr count }
{
    if 8192 < count {
        return None;
    }
    let c = EngineCall::Memory(MemoryCall::ReadWords(addr));
    fixed(a, 6, c, Buffer::Words(count))
}

// Stays: 01's numbers, here and below, as a script has them (request_of); each stands beside the name of its call.
// The request of a call's number and the bytes behind it: calls 1 to 5, or a later group's.
#[tactic(auto, unfolding(crate::specs::Request::request_of))]
pub fn request_of(number: u8, a: &[u8]) -> Option<Request>
    ensures { result ≡ request_of number a.now }
{
    match number {
        0 => None,
        1 => plain(a, 4, ConnectCall::ConnectMultidrop(word(a, 0))),
        2 => plain(a, 0, ConnectCall::ProbeSwd),
        3 => plain(a, 0, ConnectCall::ConnectSwd),
        4 => plain(a, 4, ConnectCall::ResetPulse(word(a, 0))),
        5 => plain(a, 4, ConnectCall::Reselect(word(a, 0))),
        _ => ap_request(number, a),
    }
}

// Calls 6 to 8, or a later group's.
#[tactic(auto, unfolding(crate::specs::Request::request_of))]
fn ap_request(number: u8, a: &[u8]) -> Option<Request>
    requires { 6 ≤ number }
    ensures { result ≡ request_of number a.now }
{
    match number {
        6 => plain(a, 1, MemoryCall::SetApsel(byte(a, 0))),
        7 => plain(a, 1, MemoryCall::ApRegRead(byte(a, 0))),
        8 => plain(a, 5, MemoryCall::ApRegWrite(byte(a, 0), word(a, 1))),
        _ => memory_request(number, a),
    }
}

// Calls 9 to 14, or a later group's.
#[tactic(auto, unfolding(crate::specs::Request::request_of))]
fn memory_request(number: u8, a: &[u8]) -> Option<Request>
    requires { 9 ≤ number }
    ensures { result ≡ request_of number a.now }
{
    match number {
        9 => plain(a, 4, MemoryCall::ReadWord(word(a, 0))),
        10 => plain(a, 8, MemoryCall::WriteWord(word(a, 0), word(a, 4))),
        11 => read_words(a, word(a, 0), half(a, 4)),
        12 => words_follow(a, 4, EngineCall::Memory(MemoryCall::WriteWords(word(a, 0)))),
        13 => fixed(
            a,
            6,
            EngineCall::Memory(MemoryCall::ReadMem(word(a, 0))),
            Buffer::Bytes(half(a, 4)),
        ),
        14 => bytes_follow(a, EngineCall::Memory(MemoryCall::WriteMem(word(a, 0)))),
        _ => core_request(number, a),
    }
}

// Calls 15 to 21, or a later group's.
#[tactic(auto, unfolding(crate::specs::Request::request_of))]
fn core_request(number: u8, a: &[u8]) -> Option<Request>
    requires { 15 ≤ number }
    ensures { result ≡ request_of number a.now }
{
    match number {
        15 => plain(a, 0, CoreCall::DebugEnable),
        16 => plain(a, 0, CoreCall::Halt),
        17 => plain(a, 0, CoreCall::Resume),
        18 => plain(a, 0, CoreCall::Step),
        19 => plain(a, 0, CoreCall::IsHalted),
        20 => plain(a, 1, CoreCall::ReadCoreReg(byte(a, 0))),
        21 => plain(a, 5, CoreCall::WriteCoreReg(byte(a, 0), word(a, 1))),
        _ => function_request(number, a),
    }
}

// Calls 22 to 25, or a later group's.
#[tactic(auto, unfolding(crate::specs::Request::request_of))]
fn function_request(number: u8, a: &[u8]) -> Option<Request>
    requires { 22 ≤ number }
    ensures { result ≡ request_of number a.now }
{
    match number {
        22 => plain(a, 2, CoreCall::RomFuncLookup(byte(a, 0), byte(a, 1))),
        23 => fixed(
            a,
            28,
            EngineCall::Core(CoreCall::StartFunction(function_at(a))),
            Buffer::Frame,
        ),
        24 => plain(
            a,
            36,
            CoreCall::FinishFunction(call_frame_at(a), word(a, 32)),
        ),
        25 => plain(a, 32, CoreCall::CallFunction(function_at(a), word(a, 28))),
        _ => fpb_request(number, a),
    }
}

// Calls 26 to 28, or a later group's.
#[tactic(auto, unfolding(crate::specs::Request::request_of))]
fn fpb_request(number: u8, a: &[u8]) -> Option<Request>
    requires { 26 ≤ number }
    ensures { result ≡ request_of number a.now }
{
    match number {
        26 => plain(a, 4, FpbCall::HwBreakpointSet(word(a, 0))),
        27 => plain(a, 4, FpbCall::HwBreakpointClear(word(a, 0))),
        28 => plain(a, 4, FpbCall::HwBreakpointAt(word(a, 0))),
        _ => nrf52_request(number, a),
    }
}

// Calls 29 to 32, or a later group's; w and polls are the first two words.
#[tactic(auto, unfolding(crate::specs::Request::request_of))]
fn nrf52_request(number: u8, a: &[u8]) -> Option<Request>
    requires { 29 ≤ number }
    ensures { result ≡ request_of number a.now }
{
    let w = word(a, 0);
    let polls = word(a, 4);
    match number {
        29 => plain(a, 0, NrfCall::Nrf52ApprotectStatus),
        30 => plain(a, 4, NrfCall::Nrf52EraseAll(w)),
        31 => plain(a, 8, NrfCall::Nrf52ErasePage { addr: w, polls }),
        32 => words_follow(
            a,
            8,
            EngineCall::Nrf(NrfCall::Nrf52Program { addr: w, polls }),
        ),
        _ => nrf54_request(number, a),
    }
}

// Calls 33 to 35.
#[tactic(auto, unfolding(crate::specs::Request::request_of))]
fn nrf54_request(number: u8, a: &[u8]) -> Option<Request>
    requires { 33 ≤ number }
    ensures { result ≡ request_of number a.now }
{
    let w = word(a, 0);
    let polls = word(a, 4);
    match number {
        33 => plain(a, 0, NrfCall::Nrf54ApprotectStatus),
        34 => plain(a, 4, NrfCall::Nrf54EraseAll(w)),
        35 => words_follow(
            a,
            8,
            EngineCall::Nrf(NrfCall::Nrf54Program { addr: w, polls }),
        ),
        _ => None,
    }
}
