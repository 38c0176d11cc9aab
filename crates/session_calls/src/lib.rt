// The calls of a session: which call of the engine each is, and what the session knows of it before it starts.
#![tactic(auto)]

ghost use Rattle.std.specs.Prelude.{◌≡◌};
ghost use Rattle.session_calls.specs.Calls.{engine_call, breakpoint, plain, facts_of};

use call_connect::ConnectCall;
use call_core::CoreCall;
use call_fpb::FpbCall;
use call_memory::MemoryCall;
use engine_calls::EngineCall;
use session_phase::Kind;
use session_rules::{Align, Facts};

// Calls 3, 9, 10, 13, 14, 15 to 25 and 26 to 28.
#[derive(Clone, Copy)]
pub enum SessionCall {
    ConnectSwd,
    ReadWord(u32),
    WriteWord(u32, u32),
    ReadMem(u32),
    WriteMem(u32),
    Core(CoreCall),
    Fpb(FpbCall),
}

// What a caller asks for: a call, and how many transport calls it may make.
#[derive(Clone, Copy)]
pub struct Order {
    pub call: SessionCall,
    pub budget: u32,
}

// The engine's call that a session's call is.
impl From<SessionCall> for EngineCall {
    ghost from_gives = { λ c q. q ≡ engine_call c };

    fn from(c: SessionCall) -> EngineCall {
        match c {
            SessionCall::ConnectSwd => ConnectCall::ConnectSwd.into(),
            SessionCall::ReadWord(addr) => MemoryCall::ReadWord(addr).into(),
            SessionCall::WriteWord(addr, word) => MemoryCall::WriteWord(addr, word).into(),
            SessionCall::ReadMem(addr) => MemoryCall::ReadMem(addr).into(),
            SessionCall::WriteMem(addr) => MemoryCall::WriteMem(addr).into(),
            SessionCall::Core(q) => q.into(),
            SessionCall::Fpb(q) => q.into(),
        }
    }
}

// Where a breakpoint is set, cleared or asked for.
fn breakpoint_of(c: FpbCall) -> u32
    ensures { result ≡ breakpoint c }
{
    match c {
        FpbCall::HwBreakpointSet(addr) => addr,
        FpbCall::HwBreakpointClear(addr) => addr,
        FpbCall::HwBreakpointAt(addr) => addr,
    }
}

// A row of the table: a call that finds the session open.
fn row(align: Align, addr: u32, spans: bool) -> Facts
    ensures { result ≡ plain align addr spans }
{
    Facts {
        kind: Kind::Plain,
        align,
        addr,
        spans,
    }
}

// The table: a row a call.
pub fn facts_of(c: SessionCall) -> Facts
    ensures { result ≡ facts_of c }
{
    match c {
        SessionCall::ConnectSwd => Facts {
            kind: Kind::Connect,
            align: Align::Any,
            addr: 0,
            spans: false,
        },
        SessionCall::ReadWord(addr) => row(Align::Word, addr, false),
        SessionCall::WriteWord(addr, _) => row(Align::Word, addr, false),
        SessionCall::ReadMem(addr) => row(Align::Any, addr, true),
        SessionCall::WriteMem(addr) => row(Align::Any, addr, true),
        SessionCall::Core(_) => row(Align::Any, 0, false),
        SessionCall::Fpb(q) => row(Align::Half, breakpoint_of(q), false),
    }
}
