// A caller's loop over the session: its start and its steps, as the theorems of session_trail have them.
#![tactic(auto)]

ghost use Rattle.std.specs.Prelude.{List, [], ◌∷◌, ◌++◌, ◌≡◌};
ghost use Rattle.wire.specs.Outcomes.{Answer};
ghost use Rattle.wire_numbers.specs.declared.TransportCall.{TransportCall};
ghost use Rattle.session_calls.specs.Session.{Lent, lending};
ghost use Rattle.session_calls.specs.declared.Order.{Order};
ghost use Rattle.session.specs.declared.Session.{Session};
ghost use Rattle.engine.specs.declared.NextStep.TheVariants.{Make};
ghost use Rattle.session.specs.declared.Reply.{Reply};
ghost use Rattle.session_trail.specs.Trail.{Trail};

use session::{Session, SessionAnswer};
use session_calls::Order;
use wire::Answer;

// Stays: room, list and buf beside each other: so the C interface (bazkondur_start, bazkondur_step) and README's loop lend them.
// Stays: begin and further apart: their clauses differ, and docs/READING.md names both.
// A start begins a trail.
pub fn begin(
    s: Session,
    o: Order,
    room: &mut [u32; 192],
    list: &mut [u32],
    buf: &mut [u8],
) -> SessionAnswer
    ensures { Trail s o (lending room.old list.old buf.old) [] [] result.session result.reply
        (lending room.new list.new buf.new) }
{
    session_steps::session_start(s, o, room, list, buf)
}

// A step takes a trail one answer further, where its last reply had a transport call due.
pub fn further(
    s: Session,
    a: Answer,
    room: &mut [u32; 192],
    list: &mut [u32],
    buf: &mut [u8],
) -> SessionAnswer
    ensures { (s₀ : Session) (o : Order) (l₀ : Lent) (answers : List Answer) (seen : List Reply) (last : Reply) (x : TransportCall)
        → Trail s₀ o l₀ answers seen s last (lending room.old list.old buf.old) → last.next ≡ Make x
        → Trail s₀ o l₀ (answers ++ a ∷ []) (seen ++ last ∷ []) result.session result.reply
        (lending room.new list.new buf.new) }
{
    session_steps::session_step(s, a, room, list, buf)
}
