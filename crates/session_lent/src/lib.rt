// The session's calls for a caller who keeps the session and lends it by `&mut`.
#![tactic(auto)]

ghost use Rattle.std.specs.Prelude.{◌≡◌};
ghost use Rattle.session_calls.specs.Session.{lending};
ghost use Rattle.session.specs.Answer.{standing};
ghost use Rattle.session_steps.specs.Step.{Started, Stepped};

use session::{Reply, Session};
use session_calls::Order;
use wire::Answer;

// Stays: room, list and buf beside each other: so the C interface (bazkondur_start, bazkondur_step) and README's loop lend them.
// Stays: start and step one after the other, which README's loop calls by these names.
// Start and step for a caller who keeps the session: it is taken out whole, stepped by value, and stored back.
pub fn start(
    s: &mut Session,
    o: Order,
    room: &mut [u32; 192],
    list: &mut [u32],
    buf: &mut [u8],
) -> Reply
    ensures { Started s.old o (lending room.old list.old buf.old)
        s.new result (lending room.new list.new buf.new) }
{
    let r = session_steps::session_start(*s, o, room, list, buf);
    *s = r.session;
    r.reply
}

pub fn step(
    s: &mut Session,
    a: Answer,
    room: &mut [u32; 192],
    list: &mut [u32],
    buf: &mut [u8],
) -> Reply
    ensures { Stepped s.old a (lending room.old list.old buf.old)
        s.new result (lending room.new list.new buf.new) }
{
    let r = session_steps::session_step(*s, a, room, list, buf);
    *s = r.session;
    r.reply
}

// Whether the session that a caller keeps is open.
pub fn is_open_now(s: &mut Session) -> bool
    ensures { (result ≡ (standing s.old).is_open) × (s.new ≡ s.old) }
{
    session::open(*s)
}
