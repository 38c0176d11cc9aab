// A whole call of the engine over a budget of answers: a loop over its steps.
// Stays: the words t, m and c go apart, and room, words and buf, as C lends them to `bench_start` and `bench_step`: a struct of them would be
// copied in and out at each step.
#![tactic(auto)]

ghost use Rattle.std.specs.Prelude.{Bool, List, ◌≡◌, ℕ, ◌<◌, ◌≤◌, length, take};
ghost use Rattle.wire.specs.Wire.{Wire, play};
ghost use Rattle.engine_calls.specs.Calls.{call_tree, zero_room};
ghost use Rattle.wire_numbers.specs.Results.{ending_of};
ghost use Rattle.engine_words.specs.Laws.Step.{LentIn};
ghost use Rattle.engine_run.specs.Run.{within, RanAs};
ghost use Rattle.engine_run.specs.Laws.Runs.{Turns, Stops, ending_in};

use engine_calls::EngineCall;
use wire::{Answer, Remembered};
use wire_numbers::CallEnding;

// What a run leaves: how many transport calls it made, how it ended, what is remembered.
#[derive(Clone, Copy)]
pub struct Ran {
    pub count: u32,
    pub ending: CallEnding,
    pub remembered: Remembered,
}

// How many transport calls a budget and a list of answers admit.
fn limit_of(budget: u32, answers: &[u64]) -> u32
    ensures { (take result answers.now ≡ take budget answers.now) × (result ≤ length answers.now) }
{
    answers.len().min(budget as usize) as u32
}

// One transport call of a call under way: it is noted, and the step takes its answer.
fn turn(
    t: &mut [u32; 7],
    m: &mut [u32; 12],
    c: &mut [u32; 9],
    i: u32,
    answers: &[u64],
    room: &mut [u32; 192],
    words: &mut [u32],
    buf: &mut [u8],
    log: &mut [u64],
)
    requires { i < length answers.now }
    ensures { Turns i answers.now t.old m.old c.old room.old words.old
        buf.old log.old t.new m.new c.new room.new words.new
        buf.new log.new }
{
    wire_numbers::note_due(log, i, t);
    let x = answers[i as usize];
    if engine_words::takes_in(t, m, c, x, room) {
        return;
    }
    engine_words::step_in(t, m, c, wire_numbers::answer_of(x), room, words, buf);
}

// The turns of a call that is started, until it ends or no answer is left; how many there were.
fn run_on(
    t: &mut [u32; 7],
    m: &mut [u32; 12],
    c: &mut [u32; 9],
    limit: u32,
    answers: &[u64],
    room: &mut [u32; 192],
    words: &mut [u32],
    buf: &mut [u8],
    log: &mut [u64],
) -> u32
    requires { limit ≤ length answers.now }
    ensures { (own : Bool) (w : Wire) (room₀ words₀ : List ℕ)
        → LentIn own w t.old m.old c.old room₀ words₀ room.old words.old buf.old
        → Stops own w limit answers.now room₀ words₀ log.old result t.new m.new c.new
        room.new words.new buf.new log.new }
{
    // Stays: by number: it is the place in the log too, and what the run answers.
    for i in 0..limit {
        if !engine_words::is_running(c) {
            return i;
        }
        turn(t, m, c, i, answers, room, words, buf, log);
    }
    limit
}

// 01's number of a call whose budget did not suffice.
const SPENT: u8 = 11;

// How a run has ended: with its call, or with its budget.
fn ending_of(c: &[u32; 9]) -> CallEnding
    ensures { result ≡ ending_of (ending_in c.now) }
{
    if engine_words::is_running(c) {
        return CallEnding {
            number: SPENT,
            value: 0,
        };
    }
    engine_words::ending(c)
}

// A whole call over a budget. The answers are what is left of the budget: where there are fewer, the budget is as many as they are.
// Call 23 leaves its frame in `frame` if it succeeds. The log gets each transport call's number, as far as it reaches.
pub fn run(
    r: Remembered,
    x: EngineCall,
    budget: u32,
    answers: &[u64],
    frame: &mut [u32; 8],
    words: &mut [u32],
    buf: &mut [u8],
    log: &mut [u64],
) -> Ran
    ensures { RanAs x
        (play (call_tree x r zero_room words.old buf.old) (within budget answers.now))
        result frame.old words.old frame.new words.new buf.new
        log.old log.new }
{
    let leaves = engine_calls::leaves_frame(x);
    let before = *frame;
    let limit = limit_of(budget, answers);
    let mut t = [0u32; 7];
    let mut m = [0u32; 12];
    let mut c = [0u32; 9];
    let mut room = [0u32; 192];
    wire_memap::remember(&mut m, r);
    engine_words::start_in(&mut t, &mut m, &mut c, x, &mut room, words, buf);
    let n = run_on(
        &mut t, &mut m, &mut c, limit, answers, &mut room, words, buf, log,
    );
    let e = ending_of(&c);
    *frame = engine_calls::frame_left(leaves, e.number == 0, &room, before);
    Ran {
        count: n,
        ending: e,
        remembered: wire_memap::remembered(&m),
    }
}
