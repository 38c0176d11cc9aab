// Reads a list of session calls from standard input, judges it, and runs it over the model target and the line; prints as it goes. What
// breaks any rule prints a malformed script's line and nothing else.
#![tactic(auto)]

ghost use Rattle.std.specs.Prelude.{◌≡◌, length};

use call_core::CoreCall;
use engine::NextStep;
use list_bench::Bench;
use list_form::Records;
use list_print::Printer;
use list_records::{CallRecord, Record};
use session::{Reply, SPENT, Session, SessionEnding};
use session_calls::{Order, SessionCall};
use wire::Answer;
use wire_numbers::CallEnding;

const STDIN_FILENO: i32 = 0;

// A list under way: its session, the number of the next call, its bench, and where it prints.
#[derive(Drop)]
struct World<'m, 'l> {
    session: Session,
    calls: u32,
    bench: Bench<'m, 'l>,
    out: &'m mut Printer,
}

// What a call is lent, beside no words.
#[derive(Drop)]
struct Lent<'a> {
    room: [u32; 192],
    buf: &'a mut [u8],
}

// How a call has ended. The session counts the budget too: it ends a call that has used it up, so that none is due any more.
fn ending_of(next: NextStep<SessionEnding>) -> SessionEnding {
    match next {
        NextStep::Make(_) => SessionEnding {
            number: SPENT,
            value: 0,
            made: 0,
        },
        NextStep::Finish(e) => e,
    }
}

impl<'l> World<'_, 'l> {
    // Stays: start and step each say once what is lent.
    // The session starts a call.
    fn start(&mut self, order: Order, lent: &mut Lent) -> Reply {
        session_lent::start(&mut self.session, order, &mut lent.room, &mut [], lent.buf)
    }

    // The session makes a step.
    fn step(&mut self, answer: Answer, lent: &mut Lent) -> Reply {
        session_lent::step(&mut self.session, answer, &mut lent.room, &mut [], lent.buf)
    }

    // A call up to its ending or its budget: each transport call is made and printed, and the session makes a step of what is heard.
    fn run(&mut self, order: Order, lent: &mut Lent) -> SessionEnding {
        let mut reply = self.start(order, lent);
        for _ in 0..order.budget {
            let NextStep::Make(c) = reply.next else {
                break;
            };
            let answer = self.bench.hear(c);
            self.out.put_call(self.bench.made(), c, reply.bytes);
            reply = self.step(answer, lent);
        }
        ending_of(reply.next)
    }

    // The line `D`: of call 13 its buffer, of call 23 its frame if it gives one.
    fn put_data(&mut self, call: SessionCall, e: SessionEnding, lent: &Lent) {
        match call {
            SessionCall::ReadMem(_) => self.out.put_bytes(b'D', lent.buf),
            SessionCall::Core(CoreCall::StartFunction(_)) => {
                if let Some(frame) = session::frame_given(e, &lent.room) {
                    self.out.put_frame(frame);
                }
            }
            _ => {}
        }
    }

    // The lines behind a call's transport calls: its result, its data, and how it leaves the session.
    fn put_ending(&mut self, call: SessionCall, e: SessionEnding, lent: &Lent) {
        self.out.put_result(CallEnding {
            number: e.number,
            value: e.value,
        });
        self.put_data(call, e, lent);
        self.out.put_session(
            session::open(self.session),
            session::remembered(self.session),
        );
    }

    // A call, with zeros as long as what it is lent. An answer that comes late is refused and changes nothing.
    fn call(&mut self, call: CallRecord) {
        let r = call.bytes;
        let mut bytes = [0u8; 65536];
        let buf = &mut bytes[..list_call::bytes_lent(r)];
        list_call::lend(r, buf);
        let budget = self.bench.start(list_call::budget_of(r));
        let order = list_call::order_of(r, budget);
        let mut lent = Lent {
            room: [0; 192],
            buf,
        };
        self.out.put_head(self.calls);
        let ending = self.run(order, &mut lent);
        if let Some(late) = self.bench.finish() {
            self.step(late, &mut lent);
        }
        self.put_ending(order.call, ending, &lent);
        self.calls = self.calls.wrapping_add(1);
    }

    // The next record.
    fn record(&mut self, record: Record<'l>) {
        match record {
            Record::Target(_) => {}
            Record::Memory { offset, bytes } => self.bench.store(offset, bytes),
            Record::Given(given) => self.bench.give(given),
            Record::Call(call) => self.call(call),
            Record::Examine { offset, length } => {
                self.out.put_bytes(b'X', self.bench.part(offset, length));
            }
            Record::Registers => self.out.put_registers(self.bench.registers()),
        }
    }
}

// Runs a list on the bench of its first record. Where that is no target, nothing asks for the bench or the memory.
fn run(list: &[u8], out: &mut Printer) {
    let start = list_form::start_of(list);
    let mut memory = [0u8; 65536];
    let mut world = World {
        session: session::fresh(),
        calls: 1,
        bench: Bench::new(start.target, &mut memory[..start.size]),
        out,
    };
    for record in Records::of(list).filter_map(Record::parse) {
        world.record(record);
    }
}

// What a list prints.
fn print(list: &[u8], out: &mut Printer) {
    if list_form::is_list(list) {
        run(list, out);
    } else {
        out.put_malformed();
    }
}

// A list has at most 1,048,576 bytes; one more shows that it has too many.
const INPUT_ROOM: usize = 1048577;

// So many zeros: a function of its own, since a proof that sees so many written out counts through them.
// Stays: arrays of the greatest size, here and above: the program takes no memory from the heap (docs/DECISIONS.md, No heap).
fn room<const N: usize>() -> [u8; N]
    ensures { length result ≡ N }
{
    [0; N]
}

fn main() {
    let mut input = room::<INPUT_ROOM>();
    let n = io::read_full(STDIN_FILENO, &mut input);
    let mut out = Printer::new();
    print(&input[..n], &mut out);
    out.write_out();
}
