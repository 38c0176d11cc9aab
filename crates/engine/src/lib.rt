// The engine's calls, step by step: a step takes the last answer and what the caller lends, and answers with the next
// transport call or the call's ending.
// Stays: room, words and buf go apart, as C lends them to `bazkondur_engine_start` and `bazkondur_engine_step`.
#![tactic(auto)]

ghost use Rattle.std.specs.Prelude.{false, List, ◌≡◌, ℕ, Ok};
ghost use Rattle.wire_transfer.specs.Laws.Flight.{transfer_of};
ghost use Rattle.wire_memap.specs.Laws.Doing.{remembered_of};
ghost use Rattle.call.specs.Change.{fresh};
ghost use Rattle.engine_calls.specs.Calls.{lent, call_tree};
ghost use Rattle.engine_words.specs.Status.{Ended, running, status_of, own_of};
ghost use Rattle.engine.specs.Step.{Lent, Stepped, awaited};
ghost use Rattle.engine.specs.Laws.Answer.{Answers};
ghost use Rattle.engine.specs.Laws.State.{state_tree};

use engine_calls::EngineCall;
use wire::{Answer, Call, Outcome, Remembered};
use wire_numbers::{CallEnding, TransportCall};

// A call, under way or ended, and what is remembered: the words of its transport call, of its operation and its own.
#[derive(Clone, Copy)]
pub struct State {
    pub transfer: [u32; 7],
    pub op: [u32; 12],
    pub call: [u32; 9],
}

// All words 0: a call is started in them.
const NO_CALL: State = State {
    transfer: [0; 7],
    op: [0; 12],
    call: [0; 9],
};

// Stays: no Result: neither case is a failure of the other, and 01 names the form (docs/DECISIONS.md, 12).
// The transport call to make next, or how the call ended: E is what is told of its ending.
#[derive(Clone, Copy)]
pub enum NextStep<E> {
    Make(TransportCall),
    Finish(E),
}

// What a start or a step answers. `bytes`: those of a sequence, as many as its call says.
#[derive(Clone, Copy)]
pub struct StepAnswer {
    pub next: NextStep<CallEnding>,
    pub state: State,
    pub bytes: [u8; 16],
}

// The engine before its first call: nothing is known of the target.
pub fn new() -> Remembered
    ensures { result ≡ fresh }
{
    call::new()
}

// What the words of a state say: the transport call that is due, or the ending.
fn answer(s: State) -> StepAnswer
    ensures { Answers s.transfer s.op s.call result }
{
    let running = engine_words::is_running(&s.call);
    if running {
        let x = wire_numbers::due(&s.transfer);
        return StepAnswer {
            next: NextStep::Make(wire_numbers::numbers_of(x)),
            state: s,
            bytes: wire_numbers::bytes_of(x),
        };
    }
    StepAnswer {
        next: NextStep::Finish(engine_words::ending(&s.call)),
        state: s,
        bytes: [0; 16],
    }
}

// The start of a call: its first transport call, or its ending where it makes none.
pub fn start(
    r: Remembered,
    x: EngineCall,
    room: &mut [u32; 192],
    words: &mut [u32],
    buf: &mut [u8],
) -> StepAnswer
    ensures { Lent (lent x) (call_tree x r room.old words.old buf.old) result
        room.old words.old room.new words.new buf.new }
{
    let mut s = NO_CALL;
    wire_memap::remember(&mut s.op, r);
    engine_words::start_in(&mut s.transfer, &mut s.op, &mut s.call, x, room, words, buf);
    answer(s)
}

// One step: the last answer in, the next transport call or the ending out. A call that has ended answers its ending again, makes
// no transport call and changes nothing.
pub fn step(
    s: State,
    a: Answer,
    room: &mut [u32; 192],
    words: &mut [u32],
    buf: &mut [u8],
) -> StepAnswer
    ensures { Stepped s a result room.old words.old buf.old
        room.new words.new buf.new }
{
    let mut s = s;
    engine_words::step_in(&mut s.transfer, &mut s.op, &mut s.call, a, room, words, buf);
    answer(s)
}

// What is remembered.
pub fn remembered(s: State) -> Remembered
    ensures { result ≡ remembered_of s.op }
{
    wire_memap::remembered(&s.op)
}

// The transport call in flight.
pub fn due(s: State) -> Call
    ensures { result ≡ (transfer_of s.transfer).call }
{
    wire_numbers::due(&s.transfer)
}

// Whether a call waits for the answer: it does not for that of an ABORT, which is ignored, nor once it has ended.
pub fn awaits(s: State) -> bool
    ensures { (ws b : List ℕ) → result ≡ awaited (state_tree s ws b) }
{
    engine_words::is_running(&s.call) && !wire_transfer::is_aborting(&s.transfer)
}

// The state of an engine that has made no call: as after one that made no transport call and succeeded.
pub fn idle(r: Remembered) -> State
    ensures { (remembered_of result.op ≡ r) × (status_of result.call ≡ Ended (Ok 0)) }
{
    let mut s = NO_CALL;
    wire_memap::remember(&mut s.op, r);
    engine_words::over(&mut s.call, Ok(0));
    s
}

// Whether a call is under way.
pub fn is_running(s: State) -> bool
    ensures { result ≡ running s.call }
{
    engine_words::is_running(&s.call)
}

// The same call, over the room.
pub fn over_room(s: State) -> State
    ensures { ((ws b : List ℕ) → state_tree result ws b ≡ state_tree s ws b) × (own_of result.call ≡ false) }
{
    let mut s = s;
    engine_words::over_room(&mut s.call);
    s
}
