// A soak of the session over target and line: pseudo-random lists of calls with faults, and the four clauses of demand 3 checked
// by execution after every call. The theorem says as much of every list; this shows that the code under it runs, and how often.
// It prints how many calls of each kind ended with each result, how many failed half done, and how many checks failed, as the text of
// standard input with a number for each #.
#![tactic(auto)]

use engine::NextStep;
use session::{Session, SessionAnswer, SessionEnding};
use target::Target;
use test_soak::{Access, Asked, BYTES, Counts, Kind, Line, ROOM, Random, Traces};
use wire::{Answer, Call, DapError};
use wire_numbers::TransportCall;

const LISTS: u32 = 100000;

// The kind of a transport call that is a transfer.
const TRANSFER: u8 = b'T';

// What is heard of a transport call.
#[derive(Clone, Copy, PartialEq, Eq)]
enum Heard {
    Good,
    Wait,
    Fault,
    Loss,
}

impl Heard {
    fn of(a: Answer) -> Heard {
        match a {
            Ok(_) => Heard::Good,
            Err(DapError::SwdError(2)) => Heard::Wait,
            Err(DapError::SwdError(4)) => Heard::Fault,
            Err(_) => Heard::Loss,
        }
    }
}

// Stays: the same lines as in list_bench: the soak would stand on the list's bench for them alone.
// Of a transport call the target sees the transfers; the others reach no register.
fn call_of(c: TransportCall) -> Call {
    if c.kind == TRANSFER {
        return Call::Transfer {
            request: c.request,
            word: c.word,
        };
    }
    Call::Connect
}

// All but the session: the target; the last answer; the line; the generator; the transport calls of a list and the losses among them.
// By the trace alone: whether a transport call of this call was lost, and whether the next one is an ABORT, whose answer is ignored.
#[derive(Clone, Copy)]
struct World {
    target: Target,
    answer: Answer,
    line: Line,
    random: Random,
    made: u64,
    losses: u64,
    lost: bool,
    abort: bool,
}

impl World {
    fn some(x: Random) -> World {
        World {
            target: test_soak::some_target(x),
            answer: Err(DapError::Other),
            line: Line::some(x),
            random: x.after(16),
            made: 0,
            losses: 0,
            lost: false,
            abort: false,
        }
    }

    // A call begins: nothing of it is lost yet.
    fn begin(&mut self, random: Random) {
        self.random = random;
        self.lost = false;
        self.abort = false;
    }

    // One transport call over the line.
    fn make(&mut self, c: TransportCall, mem: &mut [u8]) {
        let act = self.line.act(self.random);
        let d = target_line::over_line(self.target, call_of(c), act, mem);
        self.target = d.target;
        self.answer = d.answer;
        self.line = self.line.after(act, self.random);
        self.random = self.random.after(7);
        self.made = self.made.wrapping_add(1);
        self.hear(Heard::of(d.answer), c.kind == TRANSFER);
    }

    // After a transport call. An error of a transfer, WAIT excepted, is followed by an ABORT.
    fn hear(&mut self, h: Heard, transfer: bool) {
        let loss = h == Heard::Loss;
        self.losses = self.losses.wrapping_add(u64::from(loss));
        self.lost = self.lost || (loss && !self.abort);
        self.abort = !self.abort && transfer && (loss || h == Heard::Fault);
    }
}

// The record of the call that is asked for, as a list of calls has it (docs/LISTS.md): the address is also its register, code and polls.
fn record_of(a: Asked) -> [u8; 42] {
    let mut r = [0u8; 42];
    let addr = a.addr.to_be_bytes();
    r[1] = a.number;
    r[6..10].copy_from_slice(&addr);
    r[10..14].copy_from_slice(&a.word.to_be_bytes());
    r[34..38].copy_from_slice(&addr);
    r[38..42].copy_from_slice(&addr);
    if matches!(a.number, 20..=22) {
        r[6] = addr[3];
    }
    r
}

// A session, what it answered last, and the registers that it is lent.
#[derive(Drop)]
struct Driven {
    session: Session,
    next: NextStep<SessionEnding>,
    room: [u32; 192],
}

impl Driven {
    // A fresh session, which has nothing due.
    fn new() -> Driven {
        Driven {
            session: session::fresh(),
            next: NextStep::Finish(SessionEnding {
                number: 0,
                value: 0,
                made: 0,
            }),
            room: [0; 192],
        }
    }

    fn told(&mut self, x: SessionAnswer) {
        self.session = x.session;
        self.next = x.reply.next;
    }

    // A call's start. One turn is the start; its budget is as many as the others.
    fn start(&mut self, a: Asked, buf: &mut [u8]) {
        let order = list_call::order_of(&record_of(a), a.turns.wrapping_sub(1));
        let x = session_driven::start_by(self.session, order, &mut self.room, &mut [], buf);
        self.told(x);
    }

    // Its step with the last answer, over the same bytes.
    fn step(&mut self, answer: Answer, buf: &mut [u8]) {
        let x = session_driven::step_by(self.session, answer, &mut self.room, &mut [], buf);
        self.told(x);
    }

    // A call over the first bytes of the buffer. The first turn is its start, the others are steps.
    fn call(&mut self, a: Asked, world: &mut World, mem: &mut [u8], buf: &mut [u8; ROOM]) {
        let lent = &mut buf[..ROOM.min(a.len as usize)];
        for turn in 0..a.turns {
            if turn == 0 {
                self.start(a, lent);
            } else {
                self.step(world.answer, lent);
            }
            let NextStep::Make(c) = self.next else {
                return;
            };
            world.make(c, mem);
        }
    }

    // How the call ended; None after as many turns as its budget has, and one more.
    fn ending(&self) -> Option<SessionEnding> {
        match self.next {
            NextStep::Make(_) => None,
            NextStep::Finish(e) => Some(e),
        }
    }
}

// A list of calls: the session and its world, and whether the session has to be open.
#[derive(Drop)]
struct CallList {
    driven: Driven,
    world: World,
    open: bool,
}

impl CallList {
    // A list on a fresh session.
    fn new(x: Random) -> CallList {
        CallList {
            driven: Driven::new(),
            world: World::some(x),
            open: false,
        }
    }

    // The next call, with its checks.
    fn call(&mut self, mem: &mut [u8; BYTES], counts: &mut Counts) {
        let a = Asked::some(self.open, self.world.target.base, self.world.random);
        let mut traces = Traces::new(mem, a.random.bytes());
        let first = self.world.made;
        self.world.begin(a.random);
        self.driven.call(a, &mut self.world, mem, &mut traces.buf);
        let made = self.world.made.wrapping_sub(first);
        self.check(a, made, &traces, mem, counts);
    }

    // The checks after a call, which made so many transport calls.
    fn check(&mut self, a: Asked, made: u64, t: &Traces, mem: &[u8; BYTES], counts: &mut Counts) {
        let kind = a.kind();
        let ending = self.driven.ending();
        let number = ending.map(|e| e.number);
        let ok = number == Some(0);
        self.open = test_soak::opens(self.open, kind == Kind::Connect, number, self.world.lost);
        let counted = ending.is_some_and(|e| u64::from(e.made) == made && e.made < a.turns);
        let value = ending.map_or(0, |e| e.value);
        let good = counted && self.is_told() && self.keeps(a, ok, value, t, mem);
        counts.call(kind, number, t.are_half_done(kind, ok, mem), good);
    }

    // Whether the session is open as it has to be, and knows of the target what is so.
    fn is_told(&self) -> bool {
        let s = self.driven.session;
        session::open(s) == self.open
            && (!self.open || test_soak::agrees(session::remembered(s), self.world.target))
    }

    // Whether the call kept memory: one that is no read or write is not looked at.
    fn keeps(&self, a: Asked, ok: bool, value: u32, t: &Traces, mem: &[u8; BYTES]) -> bool {
        let kind = a.kind();
        if matches!(kind, Kind::Connect | Kind::Other) {
            return true;
        }
        let access = Access {
            writes: kind == Kind::Write,
            ok,
            from: a.addr.wrapping_sub(self.world.target.base),
            len: a.len,
            bytes: a.bytes(value, &t.buf),
        };
        access.keeps_memory(&t.before, mem)
    }
}

fn main() {
    let mut mem = [0u8; BYTES];
    let mut counts = Counts::new();
    let mut x = Random(1);
    for _ in 0..LISTS {
        let mut list = CallList::new(x);
        for _ in 0..x.nth(15) % 12 {
            list.call(&mut mem, &mut counts);
        }
        let w = list.world;
        counts.list(w.target.width, w.made, w.losses);
        x = w.random;
    }
    counts.report();
}
