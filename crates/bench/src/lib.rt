// The engine for a benchmark in another language, in numbers and slices: six calls on a new engine, each run over answers that are
// given, or started and stepped, the caller making the transport calls.
#![tactic(auto)]

ghost use Rattle.std.specs.Prelude.{◌≡◌};
ghost use Rattle.bench.specs.Played.{call_no, Counted};
ghost use Rattle.bench.specs.Laws.Steps.{BegunIn, SteppedBy};

use call_connect::ConnectCall;
use call_core::{CoreCall, Function};
use call_fpb::FpbCall;
use call_memory::MemoryCall;
use engine_calls::EngineCall;

// Stays: numbers, words and slices beside each other, here and below, as C hands them to bench_run, bench_start and bench_step.
// The calls by number. The function of the last one has no arguments; its stack and the place that it returns to are its own address.
fn call_no(call: u32, addr: u32) -> EngineCall
    ensures { result ≡ call_no call addr }
{
    match call {
        0 => EngineCall::Memory(MemoryCall::ReadMem(addr)),
        1 => EngineCall::Memory(MemoryCall::WriteMem(addr)),
        2 => EngineCall::Memory(MemoryCall::ReadWord(addr)),
        3 => EngineCall::Connect(ConnectCall::ConnectSwd),
        4 => EngineCall::Fpb(FpbCall::HwBreakpointSet(addr)),
        _ => {
            let f = Function {
                fn_addr: addr,
                a0: 0,
                a1: 0,
                a2: 0,
                a3: 0,
                sp: addr,
                trampoline: addr,
            };
            EngineCall::Core(CoreCall::CallFunction(f, 9))
        }
    }
}

// A whole call over answers; how many transport calls it made, which the log has.
#[unsafe(no_mangle)]
pub extern "C" fn bench_run(
    call: u32,
    addr: u32,
    budget: u32,
    answers: &[u64],
    buf: &mut [u8],
    log: &mut [u64],
) -> u32
    ensures { Counted (call_no call addr) budget answers.now buf.old log.old result
        buf.new log.new }
{
    let mut frame = [0u32; 8];
    let mut words = [0u32; 1];
    let r = engine_run::run(
        call::new(),
        call_no(call, addr),
        budget,
        answers,
        &mut frame,
        &mut words,
        buf,
        log,
    );
    r.count
}

// The start of a call in words that are lent: whether a transport call is due, which `t` has; else the call has ended, as `c` says.
#[unsafe(no_mangle)]
pub extern "C" fn bench_start(
    t: &mut [u32; 7],
    m: &mut [u32; 12],
    c: &mut [u32; 9],
    call: u32,
    addr: u32,
    room: &mut [u32; 192],
    words: &mut [u32],
    buf: &mut [u8],
) -> bool
    ensures { BegunIn (call_no call addr) result t.old m.old c.old room.old words.old
        buf.old t.new m.new c.new room.new words.new buf.new }
{
    wire_memap::remember(m, call::new());
    engine_words::start_in(t, m, c, call_no(call, addr), room, words, buf);
    engine_words::is_running(c)
}

// One step with the answer that a number stands for, as the run takes them: whether a transport call is due.
#[unsafe(no_mangle)]
pub extern "C" fn bench_step(
    t: &mut [u32; 7],
    m: &mut [u32; 12],
    c: &mut [u32; 9],
    x: u64,
    room: &mut [u32; 192],
    words: &mut [u32],
    buf: &mut [u8],
) -> bool
    ensures { SteppedBy x result t.old m.old c.old room.old words.old
        buf.old t.new m.new c.new room.new words.new buf.new }
{
    if engine_words::takes_in(t, m, c, x, room) {
        return true;
    }
    engine_words::step_in(t, m, c, wire_numbers::answer_of(x), room, words, buf);
    engine_words::is_running(c)
}
