// For the programs that test the engine: its calls by 01's number, and pieces of text.
#![tactic(auto)]

ghost use Rattle.std.specs.Prelude.{◌≡◌, slice_get, Some};
ghost use Rattle.call_connect.specs.declared.ConnectCall.TheVariants as N;
ghost use Rattle.call_core.specs.declared.CoreCall.TheVariants as O;
ghost use Rattle.call_nrf.specs.declared.NrfCall.TheVariants as R;
ghost use Rattle.engine_calls.specs.declared.EngineCall.TheVariants as C;

use call_connect::ConnectCall;
use call_core::{CallFrame, CoreCall, Function};
use call_fpb::FpbCall;
use call_memory::MemoryCall;
use call_nrf::NrfCall;
use engine_calls::EngineCall;

// A call by its number, with its arguments; call 24's frame is an array of its own.
#[derive(Clone, Copy)]
struct Numbered<'a> {
    number: u8,
    args: &'a [u32; 8],
    frame: &'a [u32; 8],
}

// A word's lowest byte.
fn low_byte(w: u32) -> u8 {
    w.to_le_bytes()[0]
}

impl Numbered<'_> {
    // Stays: 01's numbers, here and below, as the inputs of the tests have them; each stands beside the name of its call.
    // Calls 1 to 5.
    fn connect(self) -> ConnectCall
        ensures probe { self.entry.number ≡ 2 → result ≡ N.ProbeSwd }
        ensures connect { self.entry.number ≡ 3 → result ≡ N.ConnectSwd }
    {
        let w = self.args[0];
        match self.number {
            1 => ConnectCall::ConnectMultidrop(w),
            2 => ConnectCall::ProbeSwd,
            3 => ConnectCall::ConnectSwd,
            4 => ConnectCall::ResetPulse(w),
            _ => ConnectCall::Reselect(w),
        }
    }

    // Calls 6 to 14.
    fn memory(self) -> MemoryCall {
        let [w, v, ..] = *self.args;
        let b = low_byte(w);
        match self.number {
            6 => MemoryCall::SetApsel(b),
            7 => MemoryCall::ApRegRead(b),
            8 => MemoryCall::ApRegWrite(b, v),
            9 => MemoryCall::ReadWord(w),
            10 => MemoryCall::WriteWord(w, v),
            11 => MemoryCall::ReadWords(w),
            12 => MemoryCall::WriteWords(w),
            13 => MemoryCall::ReadMem(w),
            _ => MemoryCall::WriteMem(w),
        }
    }

    // Calls 15 to 25.
    fn core(self) -> CoreCall
        ensures debug_enable { self.entry.number ≡ 15 → result ≡ O.DebugEnable }
        ensures halt { self.entry.number ≡ 16 → result ≡ O.Halt }
        ensures resume { self.entry.number ≡ 17 → result ≡ O.Resume }
        ensures step { self.entry.number ≡ 18 → result ≡ O.Step }
        ensures is_halted { self.entry.number ≡ 19 → result ≡ O.IsHalted }
    {
        let [w, v, .., last] = *self.args;
        let b = low_byte(w);
        match self.number {
            15 => CoreCall::DebugEnable,
            16 => CoreCall::Halt,
            17 => CoreCall::Resume,
            18 => CoreCall::Step,
            19 => CoreCall::IsHalted,
            20 => CoreCall::ReadCoreReg(b),
            21 => CoreCall::WriteCoreReg(b, v),
            22 => CoreCall::RomFuncLookup(b, low_byte(v)),
            23 => CoreCall::StartFunction(self.function()),
            24 => CoreCall::FinishFunction(self.stacked(), w),
            _ => CoreCall::CallFunction(self.function(), last),
        }
    }

    // The function of calls 23 and 25.
    fn function(self) -> Function {
        let [fn_addr, a0, a1, a2, a3, sp, trampoline, _] = *self.args;
        Function::from([fn_addr, a0, a1, a2, a3, sp, trampoline])
    }

    // The frame of call 24.
    fn stacked(self) -> CallFrame {
        CallFrame::from(*self.frame)
    }

    // Calls 26 to 28.
    fn fpb(self) -> FpbCall {
        let w = self.args[0];
        match self.number {
            26 => FpbCall::HwBreakpointSet(w),
            27 => FpbCall::HwBreakpointClear(w),
            _ => FpbCall::HwBreakpointAt(w),
        }
    }

    // Calls 29 to 35.
    fn nrf(self) -> NrfCall
        ensures nrf52_status { self.entry.number ≡ 29 → result ≡ R.Nrf52ApprotectStatus }
        ensures nrf54_status { self.entry.number ≡ 33 → result ≡ R.Nrf54ApprotectStatus }
    {
        let [addr, polls, ..] = *self.args;
        match self.number {
            29 => NrfCall::Nrf52ApprotectStatus,
            30 => NrfCall::Nrf52EraseAll(addr),
            31 => NrfCall::Nrf52ErasePage { addr, polls },
            32 => NrfCall::Nrf52Program { addr, polls },
            33 => NrfCall::Nrf54ApprotectStatus,
            34 => NrfCall::Nrf54EraseAll(addr),
            _ => NrfCall::Nrf54Program { addr, polls },
        }
    }
}

// The call of that number, with its arguments; call 24's frame is an array of its own.
pub fn call_of(number: u8, args: &[u32; 8], frame: &[u32; 8]) -> EngineCall
    ensures probe { number ≡ 2 → result ≡ C.Connect N.ProbeSwd }
    ensures connect { number ≡ 3 → result ≡ C.Connect N.ConnectSwd }
    ensures debug_enable { number ≡ 15 → result ≡ C.Core O.DebugEnable }
    ensures halt { number ≡ 16 → result ≡ C.Core O.Halt }
    ensures resume { number ≡ 17 → result ≡ C.Core O.Resume }
    ensures step { number ≡ 18 → result ≡ C.Core O.Step }
    ensures is_halted { number ≡ 19 → result ≡ C.Core O.IsHalted }
    ensures nrf52_status { number ≡ 29 → result ≡ C.Nrf R.Nrf52ApprotectStatus }
    ensures nrf54_status { number ≡ 33 → result ≡ C.Nrf R.Nrf54ApprotectStatus }
{
    let call = Numbered {
        number,
        args,
        frame,
    };
    match number {
        0..=5 => call.connect().into(),
        6..=14 => call.memory().into(),
        15..=25 => call.core().into(),
        26..=28 => call.fpb().into(),
        _ => call.nrf().into(),
    }
}

// Text and numbers.
pub fn write(text: &[u8]) {
    io::write_all(1, text);
}

pub fn digits<N: Into<u64>>(x: N, n: usize) {
    io::print_hex(1, x.into(), n);
}

pub fn number<N: Into<u64>>(x: N) {
    io::print_decimal(1, x.into());
}

// The same with a space before it.
pub fn hex<N: Into<u64>>(x: N, n: usize) {
    write(b" ");
    digits(x, n);
}

pub fn decimal<N: Into<u64>>(x: N) {
    write(b" ");
    number(x);
}
