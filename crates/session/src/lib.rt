// A session as it stands, and what it answers: by the engine's answer, to what it refuses, and of a call that was left.
#![tactic(auto)]

ghost use Rattle.std.specs.Prelude.{List, ◌≡◌, ℕ};
ghost use Rattle.session_calls.specs.Session.{closed, lending};
ghost use Rattle.session_phase.specs.declared.Phase.TheVariants.{Closed};
ghost use Rattle.session.specs.Answer.{standing, frame_at, frame_given, Refused, rested};
ghost use Rattle.session.specs.Laws.Ends.{next_under_of, phase_under, bytes_under, settled_by};

use call_core::CallFrame;
use engine::{NextStep, State, StepAnswer};
use session_phase::{Kind, Phase};
use session_rules::Refusal;
use wire::Remembered;
use wire_numbers::{CallEnding, TransportCall};

// `budget` and what is left of it are those of the last call; `state` has what is remembered and the call in flight.
#[derive(Clone, Copy)]
pub struct Session {
    pub phase: Phase,
    pub budget: u32,
    pub left: u32,
    pub state: State,
}

// How a call ended: 01's number and value, and how many transport calls it made.
#[derive(Clone, Copy)]
pub struct SessionEnding {
    pub number: u8,
    pub value: u32,
    pub made: u32,
}

// What comes next, and the bytes of a sequence.
#[derive(Clone, Copy)]
pub struct Reply {
    pub next: NextStep<SessionEnding>,
    pub bytes: [u8; 16],
}

// The session after a start or a step, and its reply to the caller.
#[derive(Clone, Copy)]
pub struct SessionAnswer {
    pub session: Session,
    pub reply: Reply,
}

// A session that has made no call: closed, and nothing known of the target.
pub fn fresh() -> Session
    ensures { (standing result ≡ closed) × (result.phase ≡ Closed) × (result.budget ≡ 0) × (result.left ≡ 0) }
{
    Session {
        phase: Phase::Closed,
        budget: 0,
        left: 0,
        state: engine::idle(engine::new()),
    }
}

// Whether a session is open.
pub fn open(s: Session) -> bool
    ensures { result ≡ (standing s).is_open }
{
    session_phase::is_open(s.phase)
}

// What it remembers of the target.
pub fn remembered(s: Session) -> Remembered
    ensures { result ≡ (standing s).remembered }
{
    engine::remembered(s.state)
}

// 01's number of a call whose budget did not suffice.
pub const SPENT: u8 = 11;

// What the engine says comes next, under a budget of which so much is left: the call is Spent where a transport call is due and
// nothing is left.
fn next_under(left: u32, made: u32, n: NextStep<CallEnding>) -> NextStep<SessionEnding>
    ensures { result ≡ next_under_of left made n }
{
    match n {
        NextStep::Make(_) if session_phase::is_spent(left) => NextStep::Finish(SessionEnding {
            number: SPENT,
            value: 0,
            made,
        }),
        NextStep::Make(c) => NextStep::Make(c),
        NextStep::Finish(e) => NextStep::Finish(SessionEnding {
            number: e.number,
            value: e.value,
            made,
        }),
    }
}

fn phase_under(kind: Kind, lost: bool, left: u32, n: NextStep<CallEnding>) -> Phase
    ensures { result ≡ phase_under kind lost left n }
{
    match n {
        NextStep::Make(_) => session_phase::phase_due(kind, lost, left),
        NextStep::Finish(e) => session_phase::phase_ended(kind, lost, e.number == 0),
    }
}

// No bytes are handed over with an ending.
fn bytes_under(left: u32, n: NextStep<CallEnding>, bytes: [u8; 16]) -> [u8; 16]
    ensures { result ≡ bytes_under left n bytes }
{
    match n {
        NextStep::Make(_) if session_phase::is_spent(left) => [0u8; 16],
        NextStep::Make(_) | NextStep::Finish(_) => bytes,
    }
}

// The session and its reply after the engine's answer.
pub fn settled(kind: Kind, lost: bool, budget: u32, left: u32, x: StepAnswer) -> SessionAnswer
    ensures { result ≡ settled_by kind lost budget left x }
{
    let n = x.next;
    let made = session_phase::made_of(budget, left);
    SessionAnswer {
        session: Session {
            phase: phase_under(kind, lost, left, n),
            budget,
            left,
            state: x.state,
        },
        reply: Reply {
            next: next_under(left, made, n),
            bytes: bytes_under(left, n, x.bytes),
        },
    }
}

// Nothing is changed.
pub fn refused(s: Session, x: Refusal) -> SessionAnswer
    ensures { (room list buf : List ℕ) → Refused x s (lending room list buf) result.session result.reply (lending room list buf) }
{
    let e = SessionEnding {
        number: x.into(),
        value: 0,
        made: 0,
    };
    SessionAnswer {
        session: s,
        reply: Reply {
            next: NextStep::Finish(e),
            bytes: [0u8; 16],
        },
    }
}

// A call that its caller has left is over.
pub fn rest(s: Session) -> Session
    ensures { result ≡ rested s }
{
    Session {
        phase: session_phase::phase_left(s.phase),
        ..s
    }
}

// The frame in the first eight words of a room.
fn frame_at(room: &[u32; 192]) -> CallFrame
    ensures { result ≡ frame_at room.now }
{
    CallFrame::from([
        room[0], room[1], room[2], room[3], room[4], room[5], room[6], room[7],
    ])
}

// Call 23 gives its frame, to be handed to call 24, with result 0 alone, in the room that it leaves.
pub fn frame_given(e: SessionEnding, room: &[u32; 192]) -> Option<CallFrame>
    ensures { result ≡ frame_given e room.now }
{
    if e.number == 0 {
        Some(frame_at(room))
    } else {
        None
    }
}
