// An engine in the 64 words that another language lends, updated in place: its start and step, and what they tell.
#![tactic(auto)]

ghost use Rattle.std.specs.Prelude.{◌≡◌, length, [], Ok};
ghost use Rattle.wire.specs.Bytes.{padded};
ghost use Rattle.wire_transfer.specs.Laws.Flight.{transfer_of};
ghost use Rattle.wire_numbers.specs.Log.{answer_at};
ghost use Rattle.session_calls.specs.Session.{lending};
ghost use Rattle.abi_words.specs.Words.{words_from};
ghost use Rattle.abi_steps.specs.Engine.{Told, Refuses, EngineStarted, EngineStepped};
ghost use Rattle.abi_steps.specs.Laws.Takes.{Takes, Tells};

use engine_calls::EngineCall;
use wire_memap::AtOnce;
use wire_runs::NextWord;
use wire_step::NextAccess;

// The result number of a step on an engine with no call under way.
const NO_CALL: u8 = 254;

// Stays: `next` and `bytes` as C lends them; a struct of both, by value, took 12 to 38 instructions more for each word of read_mem.

// What is told with no bytes.
fn plain(n: [u32; 9], next: &mut [u32; 9], bytes: &mut [u8; 16])
    ensures { (next.new ≡ n) × (bytes.new ≡ padded []) }
{
    *next = n;
    *bytes = [0; 16];
}

// The end of a call that was not begun.
pub fn refused(number: u8, next: &mut [u32; 9], bytes: &mut [u8; 16])
    ensures { Refuses number next.new bytes.new }
{
    plain(abi_words::ended(number, 0, 0), next, bytes)
}

// The transport call in flight.
fn told(ws: &[u32; 64], next: &mut [u32; 9], bytes: &mut [u8; 16])
    ensures { Told (transfer_of (words_from 7 3 ws.now)).call next.new bytes.new }
{
    let call = wire_numbers::due(&abi_words::transfer_at(ws));
    *next = abi_words::call_due(call);
    *bytes = wire_numbers::bytes_of(call);
}

// Where the kind of the transport call in flight stands, its byte and its word.
const KIND: usize = 5;

const BYTE: usize = 6;

const WORD: usize = 7;

// The same, at once where it is a transfer: nearly all are.
// Inline, and step_on apart: a word of a run is told with no other call.
#[inline(always)]
pub fn told_at(ws: &[u32; 64], next: &mut [u32; 9], bytes: &mut [u8; 16])
    ensures { Told (transfer_of (words_from 7 3 ws.now)).call next.new bytes.new }
{
    if ws[KIND] == 0 {
        plain(
            abi_words::transfer_due((ws[BYTE] % 256) as u8, ws[WORD]),
            next,
            bytes,
        );
        return;
    }
    told(ws, next, bytes)
}

// The value v of an access that another follows is taken in one of the ways to do so at once: true; or false, and nothing is done.
pub fn taken<W: AtOnce>(ws: &mut [u32; 64], v: u32, room: &mut [u32; 192]) -> bool
    ensures { Takes (Ok v) result ws.old room.old ws.new room.new }
{
    let mut t = abi_words::transfer_at(ws);
    let mut m = abi_words::op_at(ws);
    let c = abi_words::call_at(ws);
    if engine_words::taken_in::<W>(&mut t, &mut m, &c, v, room) {
        abi_words::keep_flight(ws, t, m);
        return true;
    }
    false
}

// How the call in words stands: the transport call that is due, or the ending.
fn tell(ws: &[u32; 64], next: &mut [u32; 9], bytes: &mut [u8; 16])
    ensures { Tells ws.now next.new bytes.new }
{
    let c = abi_words::call_at(ws);
    if engine_words::is_running(&c) {
        told(ws, next, bytes);
        return;
    }
    let e = engine_words::ending(&c);
    plain(abi_words::ended(e.number, e.value, 0), next, bytes)
}

// The start of a call, on what the engine remembers.
pub fn start(
    ws: &mut [u32; 64],
    x: EngineCall,
    room: &mut [u32; 192],
    words: &mut [u32],
    buf: &mut [u8],
    next: &mut [u32; 9],
    bytes: &mut [u8; 16],
)
    ensures { length ws.old ≡ 64 → EngineStarted x ws.old (lending room.old words.old buf.old)
        ws.new next.new bytes.new (lending room.new words.new buf.new) }
{
    let mut t = [0; 7];
    let mut m = abi_words::op_at(ws);
    let mut c = [0; 9];
    engine_words::start_in(&mut t, &mut m, &mut c, x, room, words, buf);
    abi_words::keep_words(ws, t, m, c);
    tell(ws, next, bytes)
}

// A step of a call under way, by the engine's own.
fn stepped(
    ws: &mut [u32; 64],
    code: u32,
    value: u32,
    room: &mut [u32; 192],
    words: &mut [u32],
    buf: &mut [u8],
    next: &mut [u32; 9],
    bytes: &mut [u8; 16],
)
    ensures { length ws.old ≡ 64 → EngineStepped (answer_at code value)
        ws.old (lending room.old words.old buf.old) ws.new next.new bytes.new
        (lending room.new words.new buf.new) }
{
    let mut t = abi_words::transfer_at(ws);
    let mut m = abi_words::op_at(ws);
    let mut c = abi_words::call_at(ws);
    if engine_words::is_running(&c) {
        let a = wire_numbers::answer_at(code, value);
        engine_words::step_in(&mut t, &mut m, &mut c, a, room, words, buf);
        abi_words::keep_words(ws, t, m, c);
        tell(ws, next, bytes);
        return;
    }
    refused(NO_CALL, next, bytes)
}

// The same with 01's code and value of an answer: code 0 is a value.
fn takes<W: AtOnce>(ws: &mut [u32; 64], code: u32, value: u32, room: &mut [u32; 192]) -> bool
    ensures { Takes (answer_at code value) result ws.old room.old ws.new room.new }
{
    code == 0 && taken::<W>(ws, value, room)
}

// A step where no word of a run is taken.
#[inline(never)]
fn step_on(
    ws: &mut [u32; 64],
    code: u32,
    value: u32,
    room: &mut [u32; 192],
    words: &mut [u32],
    buf: &mut [u8],
    next: &mut [u32; 9],
    bytes: &mut [u8; 16],
)
    ensures { length ws.old ≡ 64 → EngineStepped (answer_at code value)
        ws.old (lending room.old words.old buf.old) ws.new next.new bytes.new
        (lending room.new words.new buf.new) }
{
    if takes::<NextAccess>(ws, code, value, room) {
        told_at(ws, next, bytes);
        return;
    }
    stepped(ws, code, value, room, words, buf, next, bytes)
}

// A step with 01's code and value of an answer. Refused where no call is under way.
pub fn step(
    ws: &mut [u32; 64],
    code: u32,
    value: u32,
    room: &mut [u32; 192],
    words: &mut [u32],
    buf: &mut [u8],
    next: &mut [u32; 9],
    bytes: &mut [u8; 16],
)
    ensures { length ws.old ≡ 64 → EngineStepped (answer_at code value)
        ws.old (lending room.old words.old buf.old) ws.new next.new bytes.new
        (lending room.new words.new buf.new) }
{
    if takes::<NextWord>(ws, code, value, room) {
        told_at(ws, next, bytes);
        return;
    }
    step_on(ws, code, value, room, words, buf, next, bytes)
}
