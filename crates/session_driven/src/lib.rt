// The session's calls by value, over the functions that it is lent to: a caller's own session is lent for the call, and handed back.
#![tactic(auto)]

ghost use Rattle.session_calls.specs.Session.{lending};
ghost use Rattle.session_steps.specs.Step.{Started, Stepped};

use session::{Session, SessionAnswer};
use session_calls::Order;
use wire::Answer;

// Stays: room, list and buf beside each other: so the C interface (bazkondur_start, bazkondur_step) and README's loop lend them.
// Stays: start_by and step_by one after the other: a closure for the one call that differs would be as long as what they share.
pub fn start_by(
    s: Session,
    o: Order,
    room: &mut [u32; 192],
    list: &mut [u32],
    buf: &mut [u8],
) -> SessionAnswer
    ensures { Started s o (lending room.old list.old buf.old)
        result.session result.reply (lending room.new list.new buf.new) }
{
    let mut mine = s;
    let reply = session_lent::start(&mut mine, o, room, list, buf);
    SessionAnswer {
        session: mine,
        reply,
    }
}

pub fn step_by(
    s: Session,
    a: Answer,
    room: &mut [u32; 192],
    list: &mut [u32],
    buf: &mut [u8],
) -> SessionAnswer
    ensures { Stepped s a (lending room.old list.old buf.old)
        result.session result.reply (lending room.new list.new buf.new) }
{
    let mut mine = s;
    let reply = session_lent::step(&mut mine, a, room, list, buf);
    SessionAnswer {
        session: mine,
        reply,
    }
}
