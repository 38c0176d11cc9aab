// What no script shows: what is remembered after Spent, the end of a ROM table, the frame of a call 23 that fails, the steps
// themselves, also those past a call's end; and 01's cases that are not marked P. A line: a name, then for each run the transport
// calls made, the result number and value, and SELECT, CSW, APSEL after; for each step the transport call or the ending.
#![tactic(auto)]

use engine::NextStep;
use engine_calls::EngineCall;
use engine_run::Ran;
use test_calls::{decimal, digits, hex, number, write};
use wire::Remembered;
use wire_numbers::{CallEnding, TransportCall};

// A call that is tested, with the argument that varies.
#[derive(Clone, Copy)]
struct Tested {
    number: u8,
    a: u32,
}

fn byte(x: u8) {
    digits(x, 2);
}

fn show_ending(e: CallEnding) {
    decimal(e.number);
    hex(e.value, 8);
}

fn show_memory(r: Remembered) {
    hex(r.select, 8);
    write(if r.csw { b" csw" } else { b" -" });
    decimal(r.apsel);
    write(b";");
}

fn show(x: Ran) {
    decimal(x.count);
    show_ending(x.ending);
    show_memory(x.remembered);
}

impl Tested {
    // Stays: 01's numbers, as test_calls::call_of takes them.
    // Call 22 looks for "IF", call 23 has a function of four arguments, calls 32 and 35 poll nine times.
    fn call(self) -> EngineCall {
        let args = match self.number {
            22 => [0x49, 0x46, 0, 0, 0, 0, 0, 0],
            23 => [0x101, 1, 2, 3, 4, 0x20001000, 0x20000000, 0],
            _ => [self.a, 9, 0, 0, 0, 0, 0, 0],
        };
        test_calls::call_of(self.number, &args, &[0; 8])
    }

    // One run over a budget of answers; what it leaves.
    fn run(
        self,
        r: Remembered,
        budget: u32,
        answers: &[u64],
        frame: &mut [u32; 8],
        bytes: &mut [u8],
    ) -> Remembered {
        let mut log = [0u64; 1];
        let mut words = [0u32; 4];
        let x = engine_run::run(
            r,
            self.call(),
            budget,
            answers,
            frame,
            &mut words,
            bytes,
            &mut log,
        );
        show(x);
        x.remembered
    }

    // The same where all answers are Ok and every read answers `value`.
    fn run_with(self, r: Remembered, budget: u32, value: u64, bytes: &mut [u8]) -> Remembered {
        self.run(r, budget, &[value; 64], &mut [0; 8], bytes)
    }
}

// The same on a new engine with enough budget.
fn once(number: u8, a: u32, value: u64, bytes: &mut [u8]) {
    Tested { number, a }.run_with(engine::new(), 64, value, bytes);
}

fn budgets() {
    write(b"Spent after 0, 1 and 2 answers:");
    let read_word = Tested {
        number: 9,
        a: 0x20000000,
    };
    let mut r = engine::new();
    for budget in 0..3 {
        r = read_word.run_with(r, budget, 7, &mut []);
    }
}

fn ranges() {
    let mut some = [9u8; 8];
    write(b"\nRange, and no bytes:");
    once(13, 0xFFFFFFF8, 7, &mut some);
    once(14, 0xFFFFFFF9, 7, &mut some);
    once(13, 0xFFFFFFFF, 7, &mut []);
}

fn top_word() {
    let mut some = [9u8; 8];
    write(b"\nthe top word but one byte:");
    once(13, 0xFFFFFFF7, 0x44332211, &mut some);
    number(some[7]);
}

// 01's cases that are not marked P: these three.
fn four_bytes() {
    let mut four = [9u8; 4];
    write(b"\n4 bytes at 0xFFFFFFFC, read and written:");
    once(13, 0xFFFFFFFC, 0x44332211, &mut four);
    once(14, 0xFFFFFFFC, 0x44332211, &mut four);
    number(four[0]);
}

fn three_bytes() {
    let mut three = [9u8; 3];
    write(b"\n3 bytes there:");
    once(13, 0xFFFFFFFC, 0x44332211, &mut three);
    for x in three {
        byte(x);
    }
}

fn programs() {
    write(b"\nprogram at 0x3FD:");
    once(32, 0x3FD, 1, &mut []);
    once(35, 0x3FD, 1, &mut []);
}

// A call on a new engine where all answers are `value` but one. Call 23 has a frame, which is shown.
fn but_one(number: u8, budget: u32, value: u64, place: usize, other: u64) {
    let mut answers = [value; 98309];
    if let Some(answer) = answers.get_mut(place) {
        *answer = other;
    }
    let mut frame = [0x99u32; 8];
    Tested { number, a: 0 }.run(engine::new(), budget, &answers, &mut frame, &mut []);
    if number == 23 {
        hex(frame[0], 8);
        write(b"..");
        digits(frame[7], 8);
    }
}

// Call 22 on a table whose entries neither match nor end it, its last entry answered otherwise: 5 transport calls for the pointer,
// and for each of 16,384 entries 3, or 6 where the table is misaligned. Every read answers an entry, the pointer's too: its low half
// is the table's address.
fn table_ends() {
    write(b"\nTableEnd, and one answer less:");
    but_one(22, 49157, 0x10004, 49156, 0x10004);
    but_one(22, 49156, 0x10004, 49156, 0x10004);
    write(b"\nthe last entry matches, and the last one ends the table:");
    but_one(22, 98309, 0x10004, 49156, 0x12344649);
    but_one(22, 98309, 0x10004, 49156, 0x12340000);
    write(b"\nmisaligned, and one answer less:");
    but_one(22, 98309, 0x10001, 98308, 0x10001);
    but_one(22, 98308, 0x10001, 98308, 0x10001);
}

// Call 23 hands its frame over only with result 0; where it is Spent or ends in FAULT, in the fifth register too, the frame is as it
// was. Every read answers that the register is ready and the core runs: 2 transport calls for SELECT and CSW, and 9 for a register.
fn frames() {
    write(b"\nthe frame of call 23, with enough budget, with none, with too little, and in FAULT:");
    but_one(23, 512, 0x10000, 0, 0x10000);
    but_one(23, 0, 0x10000, 0, 0x10000);
    but_one(23, 40, 0x10000, 0, 0x10000);
    but_one(23, 512, 0x10000, 40, 0x100000004);
}

// A transport call; of one that is no transfer the first byte handed over too.
fn show_made(c: TransportCall, first: u8) {
    write(b" ");
    write(&[c.kind]);
    digits(c.request, 1);
    hex(c.word, 8);
    decimal(c.bits);
    decimal(c.len);
    write(b",");
    if c.kind != b'T' {
        byte(first);
    }
}

fn show_next(next: NextStep<CallEnding>, first: u8) {
    match next {
        NextStep::Make(c) => show_made(c, first),
        NextStep::Finish(e) => show_ending(e),
    }
}

// So many steps of a call, each answered Ok, with so much more each time. What the last few of them answer is shown.
#[derive(Clone, Copy)]
struct Steps {
    call: Tested,
    value: u32,
    more: u32,
    count: u32,
    few: u32,
}

impl Steps {
    // The call asks for some bytes, and its steps are lent others.
    fn take(self, r: Remembered, asked: &mut [u8], bytes: &mut [u8]) {
        let mut room = [0u32; 192];
        let mut x = engine::start(r, self.call.call(), &mut room, &mut [], asked);
        let mut value = self.value;
        for left in (0..self.count).rev() {
            if left < self.few {
                show_next(x.next, x.bytes[0]);
            }
            value = value.wrapping_add(self.more);
            x = engine::step(x.state, Ok(value), &mut room, &mut [], bytes);
        }
    }
}

// Eight bytes asked for; the steps are lent four of them only. The third answer is the first word.
fn read_steps() {
    let mut bytes = [0u8; 8];
    let mut fewer = [0u8; 4];
    let known = Remembered {
        select: 0,
        csw: true,
        apsel: 0,
    };
    let read_mem = Steps {
        call: Tested {
            number: 13,
            a: 0x20000000,
        },
        value: 0x14000000,
        more: 0x10000000,
        count: 5,
        few: 5,
    };
    write(b"\nsteps of read_mem, lent less at the end:");
    read_mem.take(known, &mut bytes, &mut fewer);
    write(b" ");
    byte(fewer[3]);
    byte(bytes[3]);
}

// The last few steps of a call that is lent nothing, each answered alike.
fn last_steps(number: u8, a: u32, value: u32, count: u32, few: u32) {
    let steps = Steps {
        call: Tested { number, a },
        value,
        more: 0,
        count,
        few,
    };
    steps.take(engine::new(), &mut [], &mut []);
}

// A step too many answers the ending again: after resume, of 5 transport calls, which would halt the core; and after a connect of 10
// transport calls and 1,024 polls.
fn ended_calls() {
    write(b"\nthe last step of resume, and four too many:");
    last_steps(17, 0, 0, 10, 6);
    write(b"\nthe last step of a connect that times out, and three too many:");
    last_steps(3, 0, 0x0BC12477, 1038, 5);
    write(b"\n");
}

fn main() {
    budgets();
    ranges();
    top_word();
    four_bytes();
    three_bytes();
    programs();
    table_ends();
    read_steps();
    write(b"\nsteps of reselect:");
    last_steps(5, 0x11002927, 1, 8, 8);
    frames();
    ended_calls();
}
