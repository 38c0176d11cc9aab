// Start and step of a session: the calls that 01 admits, over what is remembered between them and under a budget each.
#![tactic(auto)]

ghost use Rattle.std.specs.Prelude.{Ok, ◌||◌, List, ◌≡◌, ℕ};
ghost use Rattle.engine.specs.Laws.State.{state_tree};
ghost use Rattle.session_calls.specs.Session.{lending};
ghost use Rattle.session_phase.specs.declared.Phase.TheVariants.{Running};
ghost use Rattle.session_steps.specs.Step.{lost_by, StartedBy, Started, SteppedIn, Stepped};

use engine::State;
use session::{Session, SessionAnswer};
use session_calls::Order;
use session_phase::{Kind, Phase};
use session_rules::Refusal;
use wire::Answer;

// Stays: room, list and buf beside each other: so the C interface (bazkondur_start, bazkondur_step) and README's loop lend them.
// The start of a call that is not refused.
fn begun(
    s: Session,
    o: Order,
    room: &mut [u32; 192],
    list: &mut [u32],
    buf: &mut [u8],
) -> SessionAnswer
    ensures { StartedBy (Ok tt) s o (lending room.old list.old buf.old)
        result.session result.reply (lending room.new list.new buf.new) }
{
    let kind = session_calls::facts_of(o.call).kind;
    let r = session_phase::remembered_for(kind, engine::remembered(s.state));
    let x = engine::start(r, o.call.into(), room, list, buf);
    session::settled(kind, false, o.budget, o.budget, x)
}

// Whether a transport call was lost by now: `lost` tells of those before, the answer of the one that is due.
fn lost_by(lost: bool, s: State, a: Answer) -> bool
    ensures { (ws b : List ℕ) → result ≡ (lost || lost_by (state_tree s ws b) a) }
{
    session_phase::has_lost(lost, engine::awaits(s), a)
}

// One step of the call under way. No call of a session runs over words of the caller.
fn moved(
    s: Session,
    kind: Kind,
    lost: bool,
    a: Answer,
    room: &mut [u32; 192],
    list: &mut [u32],
    buf: &mut [u8],
) -> SessionAnswer
    ensures { SteppedIn (Running kind lost) s a (lending room.old list.old buf.old)
        result.session result.reply (lending room.new list.new buf.new) }
{
    let by_now = lost_by(lost, s.state, a);
    let left = session_phase::left_after(s.left);
    let x = engine::step(engine::over_room(s.state), a, room, list, buf);
    session::settled(kind, by_now, s.budget, left, x)
}

// The start of a call: its first transport call, or its ending where it makes none.
pub fn session_start(
    s: Session,
    o: Order,
    room: &mut [u32; 192],
    list: &mut [u32],
    buf: &mut [u8],
) -> SessionAnswer
    ensures { Started s o (lending room.old list.old buf.old)
        result.session result.reply (lending room.new list.new buf.new) }
{
    let facts = session_calls::facts_of(o.call);
    match session_rules::check_call(session_phase::is_open(s.phase), facts, buf.len()) {
        Err(x) => session::refused(session::rest(s), x),
        Ok(()) => begun(s, o, room, list, buf),
    }
}

// One step: the last answer in, the next transport call or the ending out. Refused where no call is under way.
pub fn session_step(
    s: Session,
    a: Answer,
    room: &mut [u32; 192],
    list: &mut [u32],
    buf: &mut [u8],
) -> SessionAnswer
    ensures { Stepped s a (lending room.old list.old buf.old)
        result.session result.reply (lending room.new list.new buf.new) }
{
    match s.phase {
        Phase::Closed | Phase::Open => session::refused(s, Refusal::NoSession),
        Phase::Running { kind, lost } => moved(s, kind, lost, a, room, list, buf),
    }
}
