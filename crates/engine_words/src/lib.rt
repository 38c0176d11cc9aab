// A call of the engine in words that are lent and updated in place: its start, and a step by the last answer.
// Stays: the words t, m and c go apart, and room, words and buf, as C lends them to `bench_start` and `bench_step`: a struct of them would be
// copied in and out at each step.
#![tactic(auto)]

ghost use Rattle.std.specs.Prelude.{◌≡◌, get_or, Ok};
ghost use Rattle.wire.specs.Laws.Told.{outcome_of};
ghost use Rattle.wire_numbers.specs.Results.{result_of};
ghost use Rattle.wire_numbers.specs.Log.{answer_of};
ghost use Rattle.engine_words.specs.Status.{running};
ghost use Rattle.engine_words.specs.Laws.State.{at_of, on_room};
ghost use Rattle.engine_words.specs.Laws.Step.{stored_at, EndsIn, BeginsNext, Changes, AsksIn, FinishesIn, StepsIn, StartedIn, SteppedIn, TriesIn};

use call::{Asks, Change, Next};
use call_at::At;
use engine_calls::EngineCall;
use wire::{Answer, Outcome, Told};
use wire_memap::AtOnce;
use wire_numbers::CallEnding;
use wire_runs::NextWord;
use wire_step::NextAccess;

// Stays: places and numbers: `bazkondur_engine_step` is lent an engine as words of C, which are updated in place.
// The words of a call. STEP and the five after it: which operation is in flight, and what the call goes on with.
const STEP: usize = 0;

const A: usize = 1;

const B: usize = 2;

const C: usize = 3;

const D: usize = 4;

const E: usize = 5;

// How it stands: 0 and 1 under way, 2 and 3 ended, with the outcome that the next two words tell. Where it is odd, the call runs over
// the caller's own words, and else over the room.
const STATUS: usize = 6;

const NUMBER: usize = 7;

const VALUE: usize = 8;

// The first status of a call that has ended.
const ENDED: u32 = 2;

fn at_of(c: &[u32; 9]) -> At
    ensures { result ≡ at_of c.now }
{
    call_at::at_step(c[STEP], c[A], c[B], c[C], c[D], c[E])
}

fn store_at(c: &mut [u32; 9], at: At)
    ensures { c.new ≡ stored_at at c.old }
{
    c[STEP] = at.step;
    c[A] = at.a;
    c[B] = at.b;
    c[C] = at.c;
    c[D] = at.d;
    c[E] = at.e;
}

// The call has ended.
pub fn over(c: &mut [u32; 9], o: Outcome)
    ensures { EndsIn o c.old c.new }
{
    let x = Told::from(o);
    c[STATUS] = ENDED + c[STATUS] % 2;
    c[NUMBER] = x.number;
    c[VALUE] = x.value;
}

// What is asked for is begun, or the call ends.
fn begun(t: &mut [u32; 7], m: &mut [u32; 12], c: &mut [u32; 9], n: Next)
    ensures { BeginsNext n t.old m.old c.old t.new m.new c.new }
{
    match n {
        Next::Do(w) => wire_memap::op_start(t, m, w),
        Next::End(o) => over(c, o),
    }
}

// A change of what is kept. Most operations change nothing before them.
fn change(m: &mut [u32; 12], x: Change, ws: &mut [u32], buf: &mut [u8])
    ensures { Changes x m.old ws.old buf.old m.new ws.new buf.new }
{
    if call::is_nothing(x) {
        return;
    }
    let r = call::make_change(x, wire_memap::remembered(m), ws, buf);
    wire_memap::remember(m, r);
}

// A change, and then what is asked for.
fn asked(
    t: &mut [u32; 7],
    m: &mut [u32; 12],
    c: &mut [u32; 9],
    a: Asks,
    ws: &mut [u32],
    buf: &mut [u8],
)
    ensures { AsksIn a t.old m.old c.old ws.old buf.old
        t.new m.new c.new ws.new buf.new }
{
    let x = a.change;
    let at = a.at;
    let n = a.next;
    store_at(c, at);
    change(m, x, ws, buf);
    begun(t, m, c, n);
}

// What follows an operation that has come to the outcome o. At step 0 that is the call's.
fn finished(
    t: &mut [u32; 7],
    m: &mut [u32; 12],
    c: &mut [u32; 9],
    o: Outcome,
    ws: &mut [u32],
    buf: &mut [u8],
)
    ensures { FinishesIn o t.old m.old c.old ws.old buf.old
        t.new m.new c.new ws.new buf.new }
{
    if c[STEP] == 0 {
        over(c, o);
        return;
    }
    let at = at_of(c);
    asked(t, m, c, engine_calls::call_after(at, o), ws, buf);
}

// One step of a call under way, over the words of its runs.
fn step_over(
    t: &mut [u32; 7],
    m: &mut [u32; 12],
    c: &mut [u32; 9],
    a: Answer,
    ws: &mut [u32],
    buf: &mut [u8],
)
    ensures { StepsIn a t.old m.old c.old ws.old buf.old
        t.new m.new c.new ws.new buf.new }
{
    if let Some(o) = wire_step::op_step(t, m, a, ws) {
        finished(t, m, c, o, ws, buf);
    }
}

// The start of a call in words that are lent, of which `m` has what is remembered.
pub fn start_in(
    t: &mut [u32; 7],
    m: &mut [u32; 12],
    c: &mut [u32; 9],
    x: EngineCall,
    room: &mut [u32; 192],
    words: &mut [u32],
    buf: &mut [u8],
)
    ensures { StartedIn x t.old m.old c.old room.old words.old buf.old
        t.new m.new c.new room.new words.new buf.new }
{
    let n = words.len();
    let k = buf.len();
    let a = engine_calls::call_start(x, n, k);
    if engine_calls::owns(x) {
        c[STATUS] = 1;
        asked(t, m, c, a, words, buf);
        return;
    }
    c[STATUS] = 0;
    asked(t, m, c, a, room, buf);
}

// One step in words that are lent. A call that has ended stays as it is.
pub fn step_in(
    t: &mut [u32; 7],
    m: &mut [u32; 12],
    c: &mut [u32; 9],
    a: Answer,
    room: &mut [u32; 192],
    words: &mut [u32],
    buf: &mut [u8],
)
    ensures { SteppedIn a t.old m.old c.old room.old words.old buf.old
        t.new m.new c.new room.new words.new buf.new }
{
    let stands = c[STATUS];
    if stands < ENDED {
        if stands == 1 {
            step_over(t, m, c, a, words, buf);
            return;
        }
        step_over(t, m, c, a, room, buf);
    }
}

// The step of a call over the room with the value v for an answer, in one of the ways to take it at once: true, and the step is taken;
// or false, and nothing is done. `NextWord`: a word of a run that another follows, as nearly all transfers of a memory call are;
// `NextAccess`: any access that another follows.
pub fn taken_in<W: AtOnce>(
    t: &mut [u32; 7],
    m: &mut [u32; 12],
    c: &[u32; 9],
    v: u32,
    room: &mut [u32; 192],
) -> bool
    ensures { TriesIn (Ok v) result t.old m.old c.now room.old
        t.new m.new room.new }
{
    c[STATUS] == 0 && W::takes(t, m, v, room)
}

// The same with the answer that a number stands for: a value is taken at once where an access follows it.
#[inline(always)]
#[tactic(auto, using(wire_numbers::specs::Laws::Log::good_answer_lem))]
pub fn takes_in(
    t: &mut [u32; 7],
    m: &mut [u32; 12],
    c: &[u32; 9],
    x: u64,
    room: &mut [u32; 192],
) -> bool
    ensures { TriesIn (answer_of x) result t.old m.old c.now room.old
        t.new m.new room.new }
{
    // Stays: `u32::try_from(x)` takes two more instructions in each transport call of `bench_step` and `bench_run`.
    if x < 0x100000000 {
        let v = x as u32;
        return taken_in::<NextWord>(t, m, c, v, room) || taken_in::<NextAccess>(t, m, c, v, room);
    }
    false
}

// Whether the call is under way.
pub fn is_running(c: &[u32; 9]) -> bool
    ensures { result ≡ running c.now }
{
    c[STATUS] < ENDED
}

// How a call has ended.
pub fn ending(c: &[u32; 9]) -> CallEnding
    ensures { result ≡ result_of (outcome_of (get_or c.now 7 0) (get_or c.now 8 0)) }
{
    wire_numbers::result_of(Outcome::from(Told {
        number: c[NUMBER],
        value: c[VALUE],
    }))
}

// The same call, over the room.
pub fn over_room(c: &mut [u32; 9])
    ensures { c.new ≡ on_room c.old }
{
    let status = c[STATUS];
    c[STATUS] = status - status % 2;
}
