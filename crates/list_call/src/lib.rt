// The calls of a list: what a record orders of the session, and the bytes that its call is lent. The list has been judged; what a record
// does not have reads 0. A record is its kind, the call's number and budget, and the arguments.
#![tactic(auto)]

ghost use Rattle.std.specs.Prelude.{◌≡◌, ◌≢◌, ◌≤◌, ◌-◌, ◌++◌, max, length, take, drop};
ghost use Rattle.script_form.specs.BigEndian.{byte as Number·byte, word as Number·word};
ghost use Rattle.session_calls.specs.declared.SessionCall.TheVariants as S;

use call_core::{CallFrame, CoreCall, Function};
use call_fpb::FpbCall;
use script_form::{byte, half, word};
use session_calls::{Order, SessionCall};

// Where the length of call 13 stands, and the bytes of call 14.
const BEHIND_ADDRESS: usize = 10;

// Stays: functions over bytes, and no methods: CallRecord is another crate's, and test_session_soak asks with bytes that are none.
pub fn number_of(r: &[u8]) -> u8
    ensures { result ≡ Number·byte r.now 1 }
{
    byte(r, 1)
}

pub fn budget_of(r: &[u8]) -> u32
    ensures { result ≡ Number·word r.now 2 }
{
    word(r, 2)
}

// The function of calls 23 and 25.
fn function_of(r: &[u8]) -> Function {
    Function::from([6, 10, 14, 18, 22, 26, 30].map(|at| word(r, at)))
}

// The frame of call 24.
fn frame_of(r: &[u8]) -> CallFrame {
    CallFrame::from([6, 10, 14, 18, 22, 26, 30, 34].map(|at| word(r, at)))
}

// Stays: 01's numbers, here and below, as a record has them (docs/LISTS.md); each stands beside the name of its call.
// Calls 15 to 25.
fn core_call(r: &[u8]) -> CoreCall {
    match number_of(r) {
        15 => CoreCall::DebugEnable,
        16 => CoreCall::Halt,
        17 => CoreCall::Resume,
        18 => CoreCall::Step,
        19 => CoreCall::IsHalted,
        20 => CoreCall::ReadCoreReg(byte(r, 6)),
        21 => CoreCall::WriteCoreReg(byte(r, 6), word(r, 7)),
        22 => CoreCall::RomFuncLookup(byte(r, 6), byte(r, 7)),
        23 => CoreCall::StartFunction(function_of(r)),
        24 => CoreCall::FinishFunction(frame_of(r), word(r, 38)),
        _ => CoreCall::CallFunction(function_of(r), word(r, 34)),
    }
}

// Calls 26 to 28.
fn fpb_call(r: &[u8]) -> FpbCall {
    match number_of(r) {
        26 => FpbCall::HwBreakpointSet(word(r, 6)),
        27 => FpbCall::HwBreakpointClear(word(r, 6)),
        _ => FpbCall::HwBreakpointAt(word(r, 6)),
    }
}

fn call_of(r: &[u8]) -> SessionCall
    ensures connect { Number·byte r.now 1 ≡ 3 → result ≡ S.ConnectSwd }
    ensures read_word { Number·byte r.now 1 ≡ 9 → result ≡ S.ReadWord (Number·word r.now 6) }
    ensures write_word { Number·byte r.now 1 ≡ 10 → result ≡ S.WriteWord (Number·word r.now 6) (Number·word r.now 10) }
    ensures read_mem { Number·byte r.now 1 ≡ 13 → result ≡ S.ReadMem (Number·word r.now 6) }
    ensures write_mem { Number·byte r.now 1 ≡ 14 → result ≡ S.WriteMem (Number·word r.now 6) }
{
    match number_of(r) {
        3 => SessionCall::ConnectSwd,
        9 => SessionCall::ReadWord(word(r, 6)),
        10 => SessionCall::WriteWord(word(r, 6), word(r, 10)),
        13 => SessionCall::ReadMem(word(r, 6)),
        14 => SessionCall::WriteMem(word(r, 6)),
        15..=25 => SessionCall::Core(core_call(r)),
        _ => SessionCall::Fpb(fpb_call(r)),
    }
}

// What a record orders of the session, with a budget of at most so many.
pub fn order_of(r: &[u8], budget: u32) -> Order
    ensures budget { result.budget ≡ budget }
    ensures connect { Number·byte r.now 1 ≡ 3 → result.call ≡ S.ConnectSwd }
    ensures read_word { Number·byte r.now 1 ≡ 9 → result.call ≡ S.ReadWord (Number·word r.now 6) }
    ensures write_word { Number·byte r.now 1 ≡ 10 → result.call ≡ S.WriteWord (Number·word r.now 6) (Number·word r.now 10) }
    ensures read_mem { Number·byte r.now 1 ≡ 13 → result.call ≡ S.ReadMem (Number·word r.now 6) }
    ensures write_mem { Number·byte r.now 1 ≡ 14 → result.call ≡ S.WriteMem (Number·word r.now 6) }
{
    Order {
        call: call_of(r),
        budget,
    }
}

// How many bytes a call is lent.
pub fn bytes_lent(r: &[u8]) -> usize
    ensures { result ≤ max 65535 (length r.now) }
{
    match call_of(r) {
        SessionCall::ReadMem(_) => usize::from(half(r, BEHIND_ADDRESS)),
        SessionCall::WriteMem(_) => r.len().saturating_sub(BEHIND_ADDRESS),
        _ => 0,
    }
}

// Puts the bytes there that call 14 writes. Call 13 is lent zeros.
pub fn lend(r: &[u8], buf: &mut [u8])
    ensures room { length buf.new ≡ length buf.old }
    ensures write_mem { Number·byte r.now 1 ≡ 14
        → buf.new ≡ take (length buf.old) (drop 10 r.now) ++ drop (length r.now - 10) buf.old }
{
    if let SessionCall::WriteMem(_) = call_of(r) {
        list_records::copy(r.get(BEHIND_ADDRESS..).unwrap_or(&[]), buf);
    }
}
