// One enum of all 35 calls. What a call asks for first and after each operation, over the groups; which words it runs over,
// and the frame that it leaves.
#![tactic(auto)]

ghost use Rattle.std.specs.Prelude.{◌≡◌, ◌<◌};
ghost use Rattle.engine_calls.specs.declared.EngineCall.TheVariants as E;
ghost use Rattle.engine_calls.specs.Calls.{job_of, lent, frame_of, leaves_frame, leave};
ghost use Rattle.engine_calls.specs.Laws.After.{call_after, asks_job, in_group};

use call::Asks;
use call_at::At;
use call_connect::ConnectCall;
use call_core::CoreCall;
use call_fpb::FpbCall;
use call_memory::MemoryCall;
use call_nrf::NrfCall;
use wire::Outcome;

// The calls and their arguments; words and bytes are those that the caller lends.
#[derive(Clone, Copy)]
pub enum EngineCall {
    Connect(ConnectCall),
    Memory(MemoryCall),
    Core(CoreCall),
    Fpb(FpbCall),
    Nrf(NrfCall),
}

// A group's call as one of them all.
impl From<ConnectCall> for EngineCall {
    ghost from_gives = { λ c q. q ≡ E.Connect c };

    fn from(c: ConnectCall) -> EngineCall {
        EngineCall::Connect(c)
    }
}

impl From<MemoryCall> for EngineCall {
    ghost from_gives = { λ c q. q ≡ E.Memory c };

    fn from(c: MemoryCall) -> EngineCall {
        EngineCall::Memory(c)
    }
}

impl From<CoreCall> for EngineCall {
    ghost from_gives = { λ c q. q ≡ E.Core c };

    fn from(c: CoreCall) -> EngineCall {
        EngineCall::Core(c)
    }
}

impl From<FpbCall> for EngineCall {
    ghost from_gives = { λ c q. q ≡ E.Fpb c };

    fn from(c: FpbCall) -> EngineCall {
        EngineCall::Fpb(c)
    }
}

impl From<NrfCall> for EngineCall {
    ghost from_gives = { λ c q. q ≡ E.Nrf c };

    fn from(c: NrfCall) -> EngineCall {
        EngineCall::Nrf(c)
    }
}

// The groups of calls. `step` of a call in flight has the group by 1024, and below it what the group's own functions gave.
// Stays: numbers for the groups: the words of a session hold them, and any other number is the last group.
const MEMORY: u32 = 0;

const CONNECT: u32 = 1;

const CORE: u32 = 2;

const FPB: u32 = 3;

const NRF: u32 = 4;

// What a group asks for, with the group in its numbers.
fn grouped(group: u32, q: Asks) -> Asks
    requires { group < 8 }
    ensures { (result.change ≡ q.change) × (result.next ≡ q.next) × (result.at ≡ in_group group q.at) }
{
    Asks {
        at: At {
            step: 1024 * group + q.at.step % 1024,
            ..q.at
        },
        ..q
    }
}

// What a call does with the outcome of its operation. At step 0 it is the call's.
pub fn call_after(at: At, o: Outcome) -> Asks
    ensures { call_after at o ≡ asks_job result }
{
    if at.step == 0 {
        return Asks {
            at,
            ..call::ended(o)
        };
    }
    let group = at.step / 1024;
    match group {
        MEMORY => grouped(MEMORY, call_memory::call_after(at, o)),
        CONNECT => grouped(CONNECT, call_connect::call_after(at, o)),
        CORE => grouped(CORE, call_core::call_after(at, o)),
        FPB => grouped(FPB, call_fpb::call_after(at, o)),
        _ => grouped(NRF, call_nrf::call_after(at, o)),
    }
}

// What a call asks for first.
pub fn call_start(c: EngineCall, words: usize, bytes: usize) -> Asks
    ensures { job_of c words bytes ≡ asks_job result }
{
    match c {
        EngineCall::Connect(q) => grouped(CONNECT, call_connect::start(q)),
        EngineCall::Memory(q) => grouped(MEMORY, call_memory::start(q, words, bytes)),
        EngineCall::Core(q) => grouped(CORE, call_core::start(q)),
        EngineCall::Fpb(q) => grouped(FPB, call_fpb::start(q)),
        EngineCall::Nrf(q) => grouped(NRF, call_nrf::start(q, words)),
    }
}

// Whether a call runs over the caller's own words.
pub fn owns(c: EngineCall) -> bool
    ensures { result ≡ lent c }
{
    match c {
        EngineCall::Memory(q) => matches!(q, MemoryCall::ReadWords(_) | MemoryCall::WriteWords(_)),
        EngineCall::Nrf(q) => matches!(
            q,
            NrfCall::Nrf52Program { .. } | NrfCall::Nrf54Program { .. }
        ),
        _ => false,
    }
}

// Whether a call leaves a frame: call 23 does.
pub fn leaves_frame(c: EngineCall) -> bool
    ensures { result ≡ leaves_frame c }
{
    matches!(c, EngineCall::Core(CoreCall::StartFunction(_)))
}

// The frame in the room's first eight words.
fn frame_of(room: &[u32; 192]) -> [u32; 8]
    ensures { result ≡ frame_of room.now }
{
    [
        room[0], room[1], room[2], room[3], room[4], room[5], room[6], room[7],
    ]
}

// The frame after a call; one that failed hands none over.
pub fn frame_left(leaves: bool, ok: bool, room: &[u32; 192], before: [u32; 8]) -> [u32; 8]
    ensures { result ≡ leave leaves ok room.now before }
{
    if leaves && ok { frame_of(room) } else { before }
}
