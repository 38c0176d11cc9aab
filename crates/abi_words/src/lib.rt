// A session, an engine and their replies as the words and numbers of another language: any words are some session.
#![tactic(auto)]

ghost use Rattle.std.specs.Prelude.{◌≡◌, length};
ghost use Rattle.std.proofs.lemmas.List.Edits.{sets};
ghost use Rattle.wire_numbers.specs.Numbers.{numbers_of};
ghost use Rattle.session_phase.specs.declared.Phase.TheVariants.{Running};
ghost use Rattle.abi_words.specs.Words.{words_from, phase_at, state_of, session_of, KeepsState, KeepsSession};
ghost use Rattle.abi_words.specs.Numbers.{due_numbers, end_numbers, next_numbers};

use engine::{NextStep, State};
use session::{Session, SessionEnding};
use session_phase::{Kind, Phase};
use wire::Call;
use wire_numbers::TransportCall;

// How a session stands, as a number.
// Stays: no `From<u32>`: Phase is another crate's, and the numbers are those of the words that `bazkondur_start` keeps.
pub fn phase_at(n: u32) -> Phase
    ensures { result ≡ phase_at n }
{
    match n {
        0 => Phase::Closed,
        1 => Phase::Open,
        2 => Phase::Running {
            kind: Kind::Plain,
            lost: false,
        },
        3 => Phase::Running {
            kind: Kind::Plain,
            lost: true,
        },
        4 => Phase::Running {
            kind: Kind::Connect,
            lost: false,
        },
        5 => Phase::Running {
            kind: Kind::Connect,
            lost: true,
        },
        _ => Phase::Closed,
    }
}

fn phase_no(p: Phase) -> u32
    ensures { phase_at result ≡ p }
{
    match p {
        Phase::Closed => 0,
        Phase::Open => 1,
        Phase::Running {
            kind: Kind::Plain,
            lost,
        } => 2 + u32::from(lost),
        Phase::Running {
            kind: Kind::Connect,
            lost,
        } => 4 + u32::from(lost),
    }
}

// Stays: word by word; one function for any size, by copy_from_slice, took 8 instructions more for each word of read_mem.
pub fn transfer_at(ws: &[u32; 64]) -> [u32; 7]
    ensures { result ≡ words_from 7 3 ws.now }
{
    [ws[3], ws[4], ws[5], ws[6], ws[7], ws[8], ws[9]]
}

pub fn op_at(ws: &[u32; 64]) -> [u32; 12]
    ensures { result ≡ words_from 12 10 ws.now }
{
    [
        ws[10], ws[11], ws[12], ws[13], ws[14], ws[15], ws[16], ws[17], ws[18], ws[19], ws[20],
        ws[21],
    ]
}

pub fn call_at(ws: &[u32; 64]) -> [u32; 9]
    ensures { result ≡ words_from 9 22 ws.now }
{
    [
        ws[22], ws[23], ws[24], ws[25], ws[26], ws[27], ws[28], ws[29], ws[30],
    ]
}

// The call in flight, and what is remembered.
fn state_at(ws: &[u32; 64]) -> State
    ensures { result ≡ state_of ws.now }
{
    State {
        transfer: transfer_at(ws),
        op: op_at(ws),
        call: call_at(ws),
    }
}

pub fn session_at(ws: &[u32; 64]) -> Session
    ensures { result ≡ session_of ws.now }
{
    Session {
        phase: phase_at(ws[0]),
        budget: ws[1],
        left: ws[2],
        state: state_at(ws),
    }
}

// Stays: likewise.
fn keep_transfer(ws: &mut [u32; 64], t: [u32; 7])
    ensures { ws.new ≡ sets ws.old 3 (words_from 7 0 t) }
{
    ws[3] = t[0];
    ws[4] = t[1];
    ws[5] = t[2];
    ws[6] = t[3];
    ws[7] = t[4];
    ws[8] = t[5];
    ws[9] = t[6];
}

fn keep_op(ws: &mut [u32; 64], m: [u32; 12])
    ensures { ws.new ≡ sets ws.old 10 (words_from 12 0 m) }
{
    ws[10] = m[0];
    ws[11] = m[1];
    ws[12] = m[2];
    ws[13] = m[3];
    ws[14] = m[4];
    ws[15] = m[5];
    ws[16] = m[6];
    ws[17] = m[7];
    ws[18] = m[8];
    ws[19] = m[9];
    ws[20] = m[10];
    ws[21] = m[11];
}

fn keep_call(ws: &mut [u32; 64], c: [u32; 9])
    ensures { ws.new ≡ sets ws.old 22 (words_from 9 0 c) }
{
    ws[22] = c[0];
    ws[23] = c[1];
    ws[24] = c[2];
    ws[25] = c[3];
    ws[26] = c[4];
    ws[27] = c[5];
    ws[28] = c[6];
    ws[29] = c[7];
    ws[30] = c[8];
}

// The words of a call in flight: those of its transport call, of its operation and its own.
pub fn keep_words(ws: &mut [u32; 64], t: [u32; 7], m: [u32; 12], c: [u32; 9])
    ensures { length ws.old ≡ 64
        → KeepsState (record { transfer = t; op = m; call = c }) ws.old ws.new }
{
    keep_transfer(ws, t);
    keep_op(ws, m);
    keep_call(ws, c);
}

// The same where those of the call itself stay.
pub fn keep_flight(ws: &mut [u32; 64], t: [u32; 7], m: [u32; 12])
    ensures { length ws.old ≡ 64
        → KeepsState (record { transfer = t; op = m; call = words_from 9 22 ws.old }) ws.old ws.new }
{
    keep_transfer(ws, t);
    keep_op(ws, m);
}

pub fn keep_session(ws: &mut [u32; 64], s: Session)
    ensures { length ws.old ≡ 64 → KeepsSession s ws.old ws.new }
{
    let State { transfer, op, call } = s.state;
    ws[0] = phase_no(s.phase);
    ws[1] = s.budget;
    ws[2] = s.left;
    keep_words(ws, transfer, op, call);
}

// What comes next, in numbers: the letter of the transport call to make, or 0 where the call has ended; the result, a word, and how many
// transport calls were made; a transfer's request, a sequence's bits and bytes, the pins' levels and which are driven.
fn due(c: TransportCall) -> [u32; 9]
    ensures { result ≡ due_numbers c }
{
    [
        u32::from(c.kind),
        0,
        c.word,
        0,
        u32::from(c.request),
        u32::from(c.bits),
        u32::from(c.len),
        u32::from(c.output),
        u32::from(c.select),
    ]
}

// The end of a call: its result and value.
pub fn ended(number: u8, value: u32, made: u32) -> [u32; 9]
    ensures { result ≡ end_numbers number value made }
{
    [0, u32::from(number), value, made, 0, 0, 0, 0, 0]
}

// What a session says comes next.
pub fn session_next(n: NextStep<SessionEnding>) -> [u32; 9]
    ensures { result ≡ next_numbers n }
{
    match n {
        NextStep::Make(c) => due(c),
        NextStep::Finish(e) => ended(e.number, e.value, e.made),
    }
}

// The transport call in flight.
pub fn call_due(c: Call) -> [u32; 9]
    ensures { result ≡ due_numbers (numbers_of c) }
{
    due(wire_numbers::numbers_of(c))
}

// A transfer in flight, whose numbers are made at once.
pub fn transfer_due(request: u8, word: u32) -> [u32; 9]
    ensures { result ≡ due_numbers (numbers_of (Call.Transfer request word)) }
{
    [u32::from(b'T'), 0, word, 0, u32::from(request), 0, 0, 0, 0]
}
