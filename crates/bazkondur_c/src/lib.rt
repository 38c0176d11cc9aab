// The static library: the functions of bazkondur for C and Rust, under the same names and with the same contracts (include/bazkondur.h).
#![tactic(auto)]

ghost use Rattle.std.specs.Prelude.{◌≡◌, length};
ghost use Rattle.wire_numbers.specs.Log.{answer_at};
ghost use Rattle.session_calls.specs.Session.{lending};
ghost use Rattle.session.specs.Answer.{standing};
ghost use Rattle.abi_words.specs.Words.{session_of};
ghost use Rattle.abi_steps.specs.Engine.{EngineStepped};
ghost use Rattle.bazkondur.specs.Linked.{Begins, GoesOn, EngineBegins, NewSession, NewEngine};

// Stays: each function beside the one of bazkondur, with what is lent apart: the C interface (docs/DECISIONS.md, A library and its exports).
// A session that has made no call.
#[unsafe(no_mangle)]
pub extern "C" fn bazkondur_new(session: &mut [u32; 64])
    ensures { length session.old ≡ 64 → NewSession session.old session.new }
{
    bazkondur::bazkondur_new(session)
}

// Whether it is open.
#[unsafe(no_mangle)]
pub extern "C" fn bazkondur_is_open(session: &[u32; 64]) -> bool
    ensures { result ≡ (standing (session_of session.now)).is_open }
{
    bazkondur::bazkondur_is_open(session)
}

// The start of a call by 01's number, with a word for each argument.
#[unsafe(no_mangle)]
pub extern "C" fn bazkondur_start(
    session: &mut [u32; 64],
    call: u32,
    budget: u32,
    args: &[u32],
    room: &mut [u32; 192],
    list: &mut [u32],
    buf: &mut [u8],
    next: &mut [u32; 9],
    bytes: &mut [u8; 16],
)
    ensures { length session.old ≡ 64 → Begins call budget args.now session.old (lending room.old list.old buf.old)
        session.new next.new bytes.new (lending room.new list.new buf.new) }
{
    bazkondur::bazkondur_start(session, call, budget, args, room, list, buf, next, bytes)
}

// One step, with 01's code and value of the answer.
#[unsafe(no_mangle)]
pub extern "C" fn bazkondur_step(
    session: &mut [u32; 64],
    code: u32,
    value: u32,
    room: &mut [u32; 192],
    list: &mut [u32],
    buf: &mut [u8],
    next: &mut [u32; 9],
    bytes: &mut [u8; 16],
)
    ensures { length session.old ≡ 64 → GoesOn (answer_at code value) session.old (lending room.old list.old buf.old)
        session.new next.new bytes.new (lending room.new list.new buf.new) }
{
    bazkondur::bazkondur_step(session, code, value, room, list, buf, next, bytes)
}

// An engine that has made no call.
#[unsafe(no_mangle)]
pub extern "C" fn bazkondur_engine_new(engine: &mut [u32; 64])
    ensures { length engine.old ≡ 64 → NewEngine engine.old engine.new }
{
    bazkondur::bazkondur_engine_new(engine)
}

// The start of one of its 35 calls.
#[unsafe(no_mangle)]
pub extern "C" fn bazkondur_engine_start(
    engine: &mut [u32; 64],
    call: u32,
    args: &[u32],
    room: &mut [u32; 192],
    words: &mut [u32],
    buf: &mut [u8],
    next: &mut [u32; 9],
    bytes: &mut [u8; 16],
)
    ensures { length engine.old ≡ 64 → EngineBegins call args.now engine.old (lending room.old words.old buf.old)
        engine.new next.new bytes.new (lending room.new words.new buf.new) }
{
    bazkondur::bazkondur_engine_start(engine, call, args, room, words, buf, next, bytes)
}

// One step.
#[unsafe(no_mangle)]
pub extern "C" fn bazkondur_engine_step(
    engine: &mut [u32; 64],
    code: u32,
    value: u32,
    room: &mut [u32; 192],
    words: &mut [u32],
    buf: &mut [u8],
    next: &mut [u32; 9],
    bytes: &mut [u8; 16],
)
    ensures { length engine.old ≡ 64 → EngineStepped (answer_at code value) engine.old (lending room.old words.old buf.old)
        engine.new next.new bytes.new (lending room.new words.new buf.new) }
{
    bazkondur::bazkondur_engine_step(engine, code, value, room, words, buf, next, bytes)
}
