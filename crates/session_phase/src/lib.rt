// When a session is open: it closes by a loss, by a call that is broken off, and by a connect that failed. And the budget of its calls.
#![tactic(auto)]

ghost use Rattle.std.specs.Prelude.{◌&&◌, ◌||◌, ◌≡◌, ◌-◌, eqb};
ghost use Rattle.session_phase.specs.Phase.{loss, remembered_for, is_open, phase_due, phase_ended, phase_left};

use wire::{Answer, DapError, Remembered};

// What start and end of a call go by: a connect decides alone whether the session is open.
#[derive(Clone, Copy)]
pub enum Kind {
    Connect,
    Plain,
}

// While a call runs the session counts as closed, so that a call that its caller leaves, Spent, leaves it closed.
// `lost`: an answer was an error other than WAIT and FAULT.
#[derive(Clone, Copy)]
pub enum Phase {
    Closed,
    Open,
    Running { kind: Kind, lost: bool },
}

// Whether a session may be asked for a call other than connect.
pub fn is_open(p: Phase) -> bool
    ensures { result ≡ is_open p }
{
    matches!(p, Phase::Open)
}

// Each connect starts with SELECT and CSW unknown.
pub fn remembered_for(kind: Kind, r: Remembered) -> Remembered
    ensures { result ≡ remembered_for kind r }
{
    match kind {
        Kind::Connect => Remembered {
            select: 0xFFFFFFFF,
            csw: false,
            ..r
        },
        Kind::Plain => r,
    }
}

// Whether an answer leaves open what became of the transport call: an error other than WAIT and FAULT.
pub fn is_loss(a: Answer) -> bool
    ensures { result ≡ loss a }
{
    match a {
        Ok(_) | Err(DapError::SwdError(2 | 4)) => false,
        Err(_) => true,
    }
}

// A loss is remembered until the call's end. `awaited`: the answer is not that of an ABORT.
pub fn has_lost(lost: bool, awaited: bool, a: Answer) -> bool
    ensures { result ≡ (lost || (awaited && loss a)) }
{
    lost || (awaited && is_loss(a))
}

// Whether nothing is left of a budget.
pub fn is_spent(left: u32) -> bool
    ensures { result ≡ eqb left 0 }
{
    left == 0
}

// What is left after one transport call more.
pub fn left_after(left: u32) -> u32
    ensures { result ≡ left - 1 }
{
    left.saturating_sub(1)
}

// How many transport calls were made of a budget.
pub fn made_of(budget: u32, left: u32) -> u32
    ensures { result ≡ budget - left }
{
    budget.saturating_sub(left)
}

// A call with a transport call due runs on, or it is broken off where its budget does not allow that one: Spent.
pub fn phase_due(kind: Kind, lost: bool, left: u32) -> Phase
    ensures { result ≡ phase_due kind lost left }
{
    if is_spent(left) {
        Phase::Closed
    } else {
        Phase::Running { kind, lost }
    }
}

// A session is open after a call without a loss; after a connect only if it succeeded.
pub fn phase_ended(kind: Kind, lost: bool, ok: bool) -> Phase
    ensures { result ≡ phase_ended kind lost ok }
{
    let fails = matches!(kind, Kind::Connect) && !ok;
    if lost || fails {
        Phase::Closed
    } else {
        Phase::Open
    }
}

// A call that its caller has left is over when he asks for the next one.
pub fn phase_left(p: Phase) -> Phase
    ensures { result ≡ phase_left p }
{
    match p {
        Phase::Open => Phase::Open,
        Phase::Closed | Phase::Running { .. } => Phase::Closed,
    }
}
