// What C and Rust call: the session, and the engine by itself, in words and numbers (include/bazkondur.h). bazkondur_c exports it: this is a
// library, which exports nothing.
#![tactic(auto)]

ghost use Rattle.std.specs.Prelude.{true, ◌≡◌, length, Ok};
ghost use Rattle.wire_numbers.specs.Log.{answer_at};
ghost use Rattle.session_calls.specs.Session.{lending};
ghost use Rattle.session.specs.Answer.{standing};
ghost use Rattle.abi_words.specs.Words.{session_of, KeepsSession};
ghost use Rattle.abi_words.specs.Numbers.{next_numbers};
ghost use Rattle.abi_steps.specs.Engine.{EngineStepped};
ghost use Rattle.bazkondur.specs.Linked.{Begun, Begins, GoesOn, EngineBegins, NewSession, NewEngine};
ghost use Rattle.bazkondur.specs.Laws.Goes.{May, TakesOne};

use engine::State;
use session::SessionAnswer;
use session_calls::Order;
use session_phase::Phase;
use wire_memap::AtOnce;
use wire_runs::NextWord;
use wire_step::NextAccess;

// The result number of a start with no such call, with another number of arguments, or with one that is too wide.
const BAD_CALL: u8 = 255;

// A session that has made no call.
#[unsafe(no_mangle)]
pub extern "C" fn bazkondur_new(session: &mut [u32; 64])
    ensures { length session.old ≡ 64 → NewSession session.old session.new }
{
    abi_words::keep_session(session, session::fresh());
}

// Whether it is open.
#[unsafe(no_mangle)]
pub extern "C" fn bazkondur_is_open(session: &[u32; 64]) -> bool
    ensures { result ≡ (standing (session_of session.now)).is_open }
{
    session::open(abi_words::session_at(session))
}

// Stays: room, list, buf, next and bytes go apart, as C lends them (bazkondur_start).

// What a session answered by value is kept in the words, and told.
#[inline(always)]
fn kept(session: &mut [u32; 64], a: SessionAnswer, next: &mut [u32; 9], bytes: &mut [u8; 16])
    ensures keeps { length session.old ≡ 64 → KeepsSession a.session session.old session.new }
    ensures numbers { next.new ≡ next_numbers a.reply.next }
    ensures hands { bytes.new ≡ a.reply.bytes }
{
    let reply = a.reply;
    let handed = reply.bytes;
    abi_words::keep_session(session, a.session);
    *next = abi_words::session_next(reply.next);
    *bytes = handed;
}

fn started(
    session: &mut [u32; 64],
    o: Order,
    room: &mut [u32; 192],
    list: &mut [u32],
    buf: &mut [u8],
    next: &mut [u32; 9],
    bytes: &mut [u8; 16],
)
    ensures { length session.old ≡ 64
        → Begun o session.old (lending room.old list.old buf.old)
        session.new next.new bytes.new (lending room.new list.new buf.new) }
{
    let a = session_steps::session_start(abi_words::session_at(session), o, room, list, buf);
    kept(session, a, next, bytes)
}

// The start of a call by 01's number, with a word for each argument.
#[unsafe(no_mangle)]
pub extern "C" fn bazkondur_start(
    session: &mut [u32; 64],
    call: u32,
    budget: u32,
    args: &[u32],
    room: &mut [u32; 192],
    list: &mut [u32],
    buf: &mut [u8],
    next: &mut [u32; 9],
    bytes: &mut [u8; 16],
)
    ensures { length session.old ≡ 64 → Begins call budget args.now session.old (lending room.old list.old buf.old)
        session.new next.new bytes.new (lending room.new list.new buf.new) }
{
    match abi_calls::session_call_of(call, args) {
        None => abi_steps::refused(BAD_CALL, next, bytes),
        Some(call) => started(
            session,
            Order { call, budget },
            room,
            list,
            buf,
            next,
            bytes,
        ),
    }
}

fn stepped(
    session: &mut [u32; 64],
    code: u32,
    value: u32,
    room: &mut [u32; 192],
    list: &mut [u32],
    buf: &mut [u8],
    next: &mut [u32; 9],
    bytes: &mut [u8; 16],
)
    ensures { length session.old ≡ 64 → GoesOn (answer_at code value) session.old (lending room.old list.old buf.old)
        session.new next.new bytes.new (lending room.new list.new buf.new) }
{
    let answer = wire_numbers::answer_at(code, value);
    let a = session_steps::session_step(abi_words::session_at(session), answer, room, list, buf);
    kept(session, a, next, bytes)
}

// Whether a call is under way over the room, and its budget allows a transport call after the next answer.
fn may_go_on(ws: &[u32; 64]) -> bool
    ensures { result ≡ true → May ws.now }
{
    match abi_words::phase_at(ws[0]) {
        Phase::Running { .. } => 1 < ws[2] && ws[28] == 0,
        Phase::Closed | Phase::Open => false,
    }
}

// The value of an access is taken in one of the ways to do so at once, where the budget allows the access that follows.
fn taken<W: AtOnce>(ws: &mut [u32; 64], v: u32, room: &mut [u32; 192]) -> bool
    ensures { TakesOne (Ok v) result ws.old room.old ws.new room.new }
{
    if may_go_on(ws) {
        let left = session_phase::left_after(ws[2]);
        if abi_steps::taken::<W>(ws, v, room) {
            ws[2] = left;
            return true;
        }
    }
    false
}

// The same with 01's code and value of an answer: code 0 is a value.
fn takes<W: AtOnce>(ws: &mut [u32; 64], code: u32, value: u32, room: &mut [u32; 192]) -> bool
    ensures { TakesOne (answer_at code value) result ws.old room.old ws.new room.new }
{
    code == 0 && taken::<W>(ws, value, room)
}

// A step where no word of a run is taken.
#[inline(never)]
fn step_on(
    session: &mut [u32; 64],
    code: u32,
    value: u32,
    room: &mut [u32; 192],
    list: &mut [u32],
    buf: &mut [u8],
    next: &mut [u32; 9],
    bytes: &mut [u8; 16],
)
    ensures { length session.old ≡ 64 → GoesOn (answer_at code value) session.old (lending room.old list.old buf.old)
        session.new next.new bytes.new (lending room.new list.new buf.new) }
{
    if takes::<NextAccess>(session, code, value, room) {
        abi_steps::told_at(session, next, bytes);
        return;
    }
    stepped(session, code, value, room, list, buf, next, bytes)
}

// One step, with 01's code and value of the answer.
#[unsafe(no_mangle)]
pub extern "C" fn bazkondur_step(
    session: &mut [u32; 64],
    code: u32,
    value: u32,
    room: &mut [u32; 192],
    list: &mut [u32],
    buf: &mut [u8],
    next: &mut [u32; 9],
    bytes: &mut [u8; 16],
)
    ensures { length session.old ≡ 64 → GoesOn (answer_at code value) session.old (lending room.old list.old buf.old)
        session.new next.new bytes.new (lending room.new list.new buf.new) }
{
    if takes::<NextWord>(session, code, value, room) {
        abi_steps::told_at(session, next, bytes);
        return;
    }
    step_on(session, code, value, room, list, buf, next, bytes)
}

// An engine that has made no call.
#[unsafe(no_mangle)]
pub extern "C" fn bazkondur_engine_new(engine: &mut [u32; 64])
    ensures { length engine.old ≡ 64 → NewEngine engine.old engine.new }
{
    let State { transfer, op, call } = engine::idle(engine::new());
    abi_words::keep_words(engine, transfer, op, call);
}

// The start of one of its 35 calls.
#[unsafe(no_mangle)]
pub extern "C" fn bazkondur_engine_start(
    engine: &mut [u32; 64],
    call: u32,
    args: &[u32],
    room: &mut [u32; 192],
    words: &mut [u32],
    buf: &mut [u8],
    next: &mut [u32; 9],
    bytes: &mut [u8; 16],
)
    ensures { length engine.old ≡ 64 → EngineBegins call args.now engine.old (lending room.old words.old buf.old)
        engine.new next.new bytes.new (lending room.new words.new buf.new) }
{
    match abi_calls::engine_call_of(call, args) {
        None => abi_steps::refused(BAD_CALL, next, bytes),
        Some(call) => abi_steps::start(engine, call, room, words, buf, next, bytes),
    }
}

// One step.
#[unsafe(no_mangle)]
pub extern "C" fn bazkondur_engine_step(
    engine: &mut [u32; 64],
    code: u32,
    value: u32,
    room: &mut [u32; 192],
    words: &mut [u32],
    buf: &mut [u8],
    next: &mut [u32; 9],
    bytes: &mut [u8; 16],
)
    ensures { length engine.old ≡ 64 → EngineStepped (answer_at code value) engine.old (lending room.old words.old buf.old)
        engine.new next.new bytes.new (lending room.new words.new buf.new) }
{
    abi_steps::step(engine, code, value, room, words, buf, next, bytes)
}
