// Scenarios of transport calls against the model target and the line. A scenario is a table of steps. It starts with `fresh` and memory
// of zeros. A line of the output is the request in hexadecimal, the word sent, and the answer. The file stdout beside src/ has what 01
// and ADIv5.2 say of each, worked out by hand; the comment above a scenario names the rule. Chapters of ADIv5.2: B1 and B2 the debug
// port and its registers, B4 the SW-DP's acks, C1 access ports, C2 the MEM-AP.
#![tactic(auto)]

use Step::*;
use target::{Act, Loss, Target};
use wire::{Answer, Call, DapError, Pattern};

const STDOUT_FILENO: i32 = 1;

// Room for the memory of every scenario.
const ROOM: usize = 2048;

// A step: a transfer or another call over the line; what the line does with the call that follows, where it does not deliver it; a look
// at a byte of memory; or a field of the target is set.
#[derive(Clone, Copy)]
enum Step {
    Read(u8),
    Write(u8, u32),
    Connect,
    Sequence,
    OutputEnable,
    Next(Act),
    Byte(u32),
    SetWidth(u32),
    SetBase(u32),
    SetTar(u32),
    SetSticky(bool),
}

// The registers, by the request that writes them; a read has bit 1 besides.
const READS: u8 = 0x2;

const ABORT: u8 = 0x0;

const DPIDR: u8 = 0x0;

const CTRL_STAT: u8 = 0x4;

const SELECT: u8 = 0x8;

const RDBUFF: u8 = 0xC;

const CSW: u8 = 0x1;

const TAR: u8 = 0x5;

const AP_8: u8 = 0x9;

const DRW: u8 = 0xD;

// What the line does with a call. A lost call was delivered, a missed one was not.
const WAIT: Step = Next(Act::Wait);

const MISSED_ACK_2: Step = Next(Act::Lose {
    delivered: false,
    error: Loss::Ack(2),
});

const LOST_ACK_4: Step = Next(Act::Lose {
    delivered: true,
    error: Loss::Ack(4),
});

const LOST_ACK_1: Step = Next(Act::Lose {
    delivered: true,
    error: Loss::Ack(1),
});

const LOST_NOT_SUPPORTED: Step = Next(Act::Lose {
    delivered: true,
    error: Loss::NotSupported,
});

const MISSED_OTHER: Step = Next(Act::Lose {
    delivered: false,
    error: Loss::Other,
});

const LOST_OTHER: Step = Next(Act::Lose {
    delivered: true,
    error: Loss::Other,
});

// A target of 01 over memory from 0x20000000 on: increments on, an old value in the read buffer, not powered.
fn fresh() -> Target {
    Target {
        dpidr: 0x0BC12477,
        d: 2,
        width: 10,
        base: 0x20000000,
        select: 0,
        cdbgpwrupreq: false,
        csyspwrupreq: false,
        owed: 0,
        sticky: false,
        rdbuff: 0x01DBFF00,
        csw: 0x23000012,
        tar: 0x20000000,
    }
}

fn say(text: &[u8]) {
    io::write_all(STDOUT_FILENO, text);
}

fn show_word(word: u32) {
    say(b" ");
    io::print_hex(STDOUT_FILENO, u64::from(word), 8);
}

fn show_answer(a: Answer) {
    match a {
        Ok(v) => {
            say(b" ok");
            show_word(v);
        }
        Err(DapError::SwdError(ack)) => {
            say(b" ack ");
            io::print_decimal(STDOUT_FILENO, u64::from(ack));
        }
        Err(DapError::NotSupported) => say(b" not supported"),
        Err(DapError::Other) => say(b" other"),
    }
    say(b"\n");
}

// The target of a scenario, and what the line does with the next call.
#[derive(Clone, Copy)]
struct Bench {
    target: Target,
    act: Act,
}

impl Bench {
    // A call over the line, and the end of its line of output.
    fn call(&mut self, c: Call, mem: &mut [u8]) {
        let d = target_line::over_line(self.target, c, self.act, mem);
        show_answer(d.answer);
        self.target = d.target;
        self.act = Act::Deliver;
    }

    fn transfer(&mut self, request: u8, word: u32, mem: &mut [u8]) {
        io::print_hex(STDOUT_FILENO, u64::from(request), 1);
        show_word(word);
        self.call(Call::Transfer { request, word }, mem);
    }

    // A call that is no transfer, by its letter.
    fn other(&mut self, letter: &[u8], c: Call, mem: &mut [u8]) {
        say(letter);
        self.call(c, mem);
    }

    // A byte of memory, or that there is none.
    fn show_byte(&self, addr: u32, mem: &[u8]) {
        say(b"byte");
        show_word(addr);
        match target::byte_at(self.target, mem, addr) {
            Some(v) => {
                say(b" ");
                io::print_hex(STDOUT_FILENO, u64::from(v), 2);
            }
            None => say(b" none"),
        }
        say(b"\n");
    }

    fn step(&mut self, s: Step, mem: &mut [u8]) {
        match s {
            Read(register) => self.transfer(register | READS, 0, mem),
            Write(register, word) => self.transfer(register, word, mem),
            Connect => self.other(b"C", Call::Connect, mem),
            Sequence => self.other(b"Q", Call::Sequence(Pattern::ResetHigh), mem),
            OutputEnable => self.other(b"O", Call::OutputEnable, mem),
            Next(act) => self.act = act,
            Byte(addr) => self.show_byte(addr, mem),
            SetWidth(width) => self.target.width = width,
            SetBase(base) => self.target.base = base,
            SetTar(tar) => self.target.tar = tar,
            SetSticky(sticky) => self.target.sticky = sticky,
        }
    }
}

// A scenario over some bytes of memory.
fn play(title: &[u8], size: usize, steps: &[Step]) {
    say(title);
    say(b"\n");
    let mut mem = [0u8; ROOM];
    let mut bench = Bench {
        target: fresh(),
        act: Act::Deliver,
    };
    if let Some(mem) = mem.get_mut(..size) {
        for s in steps {
            bench.step(*s, mem);
        }
    }
}

// CTRL/STAT (01: "CTRL/STAT exists at DPBANKSEL 0"; ADIv5.2, B2, CTRL/STAT, and B1, power and reset control): after a write that
// makes both requests 1, d reads show no acks. One that leaves them 1 owes nothing; with either request 0 both acks are 0.
fn power_up() {
    play(
        b"power-up, d = 2",
        2048,
        &[
            Read(CTRL_STAT),
            Write(CTRL_STAT, 0x50000000),
            Read(CTRL_STAT),
            Read(CTRL_STAT),
            Read(CTRL_STAT),
            Write(CTRL_STAT, 0x5000001F),
            Read(CTRL_STAT),
            Write(CTRL_STAT, 0x10000000),
            Read(CTRL_STAT),
            Write(CTRL_STAT, 0xF0000000),
            Read(CTRL_STAT),
            Read(CTRL_STAT),
            Read(CTRL_STAT),
        ],
    );
}

// DRW with increments (01: "DRW uses the word at TAR"; ADIv5.2, C2, auto-incrementing the TAR): each write and each read moves
// TAR by 4. The first read answers what the buffer held before (C1, posted reads).
fn words() {
    play(
        b"words with increment",
        2048,
        &[
            Write(DRW, 0x11223344),
            Write(DRW, 0x55667788),
            Write(TAR, 0x20000000),
            Read(DRW),
            Read(DRW),
            Read(RDBUFF),
            Read(TAR),
            Read(RDBUFF),
            Byte(0x20000000),
            Byte(0x20000003),
            Byte(0x20000004),
        ],
    );
}

// Posted reads (01: "An AP read answers the old read buffer"; ADIv5.2, C1, and B2, RDBUFF): RDBUFF answers the buffer and keeps it.
fn posted() {
    play(
        b"posted reads",
        2048,
        &[Read(CSW), Read(TAR), Read(RDBUFF), Read(RDBUFF)],
    );
}

// The wrap at 1 KiB of an increment of ten bits (01: "TAR's low ten bits gain 4 modulo 1024"; ADIv5.2, C2, auto-incrementing the TAR).
// The second word is at the start of the same 1 KiB.
fn wrap() {
    play(
        b"wrap at 1 KiB",
        2048,
        &[
            Write(TAR, 0x200003FC),
            Write(DRW, 0xAABBCCDD),
            Write(DRW, 0x21222324),
            Read(TAR),
            Read(RDBUFF),
            Write(TAR, 0x200007FC),
            Read(DRW),
            Read(TAR),
            Read(RDBUFF),
            Byte(0x200003FF),
            Byte(0x20000400),
            Byte(0x20000000),
        ],
    );
}

// A fault and its recovery (01: "Sticky", "Outside memory it sets sticky and TAR stays"; ADIv5.2, B1, sticky flags, and B4, FAULT):
// the DRW read itself is answered Ok and loads 0. ABORT clears sticky only by bit 2, STKERRCLR.
fn fault() {
    play(
        b"fault and recovery",
        2048,
        &[
            Write(TAR, 0x1FFFFFFC),
            Read(DRW),
            Read(RDBUFF),
            Write(SELECT, 0),
            Read(DPIDR),
            Read(CTRL_STAT),
            Write(ABORT, 0x1A),
            Read(RDBUFF),
            Write(ABORT, 0x1E),
            Read(RDBUFF),
            Read(TAR),
            Read(RDBUFF),
            Read(CTRL_STAT),
        ],
    );
}

// While sticky is set a CTRL/STAT write is not done, nor is a CTRL/STAT read at another DPBANKSEL, which is no CTRL/STAT (01:
// "Sticky"; ADIv5.2, B1, sticky flags). A DRW write outside memory is answered Ok, changes no byte and sets sticky.
fn sticky() {
    play(
        b"sticky",
        2048,
        &[
            Write(TAR, 0x20000800),
            Write(SELECT, 0x00000001),
            Write(DRW, 0xFFFFFFFF),
            Read(CTRL_STAT),
            Write(CTRL_STAT, 0x50000000),
            Write(DRW, 0xFFFFFFFF),
            Write(ABORT, 0x04),
            Read(CTRL_STAT),
            Byte(0x200007FF),
            Byte(0x20000800),
        ],
    );
}

// Another AP (01: "Other APs, banks and offsets read 0 and ignore writes"; ADIv5.2, B2, SELECT.APSEL, and C1): the read is posted as
// any other. AP 0 is as it was.
fn other_ap() {
    play(
        b"another AP",
        2048,
        &[
            Write(SELECT, 0x01000000),
            Read(CSW),
            Read(RDBUFF),
            Write(CSW, 0x00000000),
            Write(DRW, 0xFFFFFFFF),
            Write(SELECT, 0x00000000),
            Read(CSW),
            Read(DRW),
            Read(RDBUFF),
        ],
    );
}

// Another bank of AP 0, and the offset 0x8 of bank 0 (01: the same rule; ADIv5.2, B2, SELECT.APBANKSEL, and C2).
fn other_bank() {
    play(
        b"another bank",
        2048,
        &[
            Write(SELECT, 0x000000F0),
            Read(DRW),
            Read(RDBUFF),
            Write(TAR, 0x20000100),
            Write(SELECT, 0x00000000),
            Read(TAR),
            Read(AP_8),
            Write(AP_8, 0xFFFFFFFF),
            Read(RDBUFF),
        ],
    );
}

// DPBANKSEL (01: "CTRL/STAT exists at DPBANKSEL 0", "So do other DP places"; ADIv5.2, B2, SELECT.DPBANKSEL): only CTRL/STAT is
// banked. The DP's read of 0x8 and write of 0xC are other places too. Of a request byte only the low four bits reach the target.
fn dpbanksel() {
    play(
        b"DPBANKSEL",
        2048,
        &[
            Write(CTRL_STAT, 0x10000000),
            Write(SELECT, 0x00000001),
            Read(CTRL_STAT),
            Write(CTRL_STAT, 0x00000000),
            Read(DPIDR),
            Read(RDBUFF),
            Read(CSW),
            Read(RDBUFF),
            Write(SELECT, 0x00000000),
            Read(CTRL_STAT),
            Read(SELECT),
            Write(RDBUFF, 0xFFFFFFFF),
            Read(0x90),
        ],
    );
}

// CSW (01: "CSW's size field is always 2", "if CSW bits 5:4 are 1"; ADIv5.2, C2, CSW): the size written is not kept, AddrInc 0 and
// 2 are, and neither moves TAR.
fn csw() {
    play(
        b"CSW size and AddrInc",
        2048,
        &[
            Write(CSW, 0x23000050),
            Read(CSW),
            Read(RDBUFF),
            Write(CSW, 0x23000021),
            Read(CSW),
            Read(DRW),
            Read(TAR),
            Write(CSW, 0x23000002),
            Read(DRW),
            Read(TAR),
            Read(RDBUFF),
        ],
    );
}

// TAR's low two bits (01: "the word at TAR with its low two bits cleared"): the word is at 0x20000004; TAR keeps the two bits.
fn unaligned() {
    play(
        b"TAR's low two bits",
        2048,
        &[
            Write(TAR, 0x20000006),
            Write(DRW, 0x99AABBCC),
            Read(TAR),
            Read(RDBUFF),
            Byte(0x20000004),
            Byte(0x20000008),
        ],
    );
}

// The line (01: last rule of "The model target"; ADIv5.2, B4, WAIT and protocol errors): WAIT and an undelivered loss leave the
// target, a delivered loss moves it. No loss shows ack 2 or 4.
fn line() {
    play(
        b"line",
        2048,
        &[
            WAIT,
            Write(DRW, 0x00000001),
            MISSED_ACK_2,
            Write(DRW, 0x00000002),
            LOST_ACK_4,
            Write(DRW, 0x00000003),
            LOST_ACK_1,
            Write(DRW, 0x00000004),
            Write(DRW, 0x00000005),
            LOST_NOT_SUPPORTED,
            Read(TAR),
            MISSED_OTHER,
            Read(RDBUFF),
            Read(RDBUFF),
            Byte(0x20000000),
            Byte(0x20000004),
            Byte(0x20000008),
        ],
    );
}

// Calls that are no transfer reach no register (01: the same rule): delivered they are answered Ok 0, even while sticky is set; they
// may get WAIT or be lost.
fn other_calls() {
    play(
        b"connect and sequence",
        2048,
        &[
            SetSticky(true),
            Connect,
            WAIT,
            Sequence,
            LOST_OTHER,
            OutputEnable,
            Read(CTRL_STAT),
        ],
    );
}

// Memory whose ends are no multiples of 4 (docs/DECISIONS.md): six bytes from 0x20000002 on hold one whole word, at 0x20000004.
fn ragged() {
    play(
        b"six bytes from 20000002",
        6,
        &[
            SetBase(0x20000002),
            SetTar(0x20000004),
            Write(DRW, 0x0D0C0B0A),
            Byte(0x20000001),
            Byte(0x20000004),
            Byte(0x20000008),
            Read(DRW),
            Read(RDBUFF),
        ],
    );
}

// Memory that passes 2^32 (docs/DECISIONS.md): addresses are numbers, so that its last bytes are out of reach. TAR wraps within
// ten bits.
fn top() {
    play(
        b"memory at the top",
        16,
        &[
            SetBase(0xFFFFFFFC),
            SetTar(0xFFFFFFFC),
            Write(DRW, 0x04030201),
            Byte(0xFFFFFFFF),
            Byte(0x00000000),
            Read(TAR),
            Read(RDBUFF),
        ],
    );
}

// An increment of 12 bits (02, c; ADIv5.2, C2, leaves what lies above ten bits to the maker): the second word is behind 1 KiB. At the
// end of 4 KiB the carry out of the twelve bits is dropped.
fn carry_12() {
    play(
        b"carry at 12 bits",
        2048,
        &[
            SetWidth(12),
            Write(TAR, 0x200003FC),
            Write(DRW, 0x11121314),
            Write(DRW, 0x21222324),
            Read(TAR),
            Read(RDBUFF),
            Byte(0x200003FC),
            Byte(0x20000400),
            Byte(0x20000000),
            SetBase(0x20000800),
            Write(TAR, 0x20000FFC),
            Read(DRW),
            Read(TAR),
            Read(RDBUFF),
        ],
    );
}

// An increment of 32 bits: the carry goes through all of them, and out of them at 2^32. A larger width, which no target of 02 has,
// counts as 32 (docs/DECISIONS.md).
fn carry_32() {
    play(
        b"carry at 32 bits",
        2048,
        &[
            SetWidth(32),
            SetBase(0x1FFFFC00),
            Write(TAR, 0x1FFFFFFC),
            Write(DRW, 0x11121314),
            Write(DRW, 0x21222324),
            Read(TAR),
            Read(RDBUFF),
            Byte(0x1FFFFFFC),
            Byte(0x20000000),
            SetBase(0xFFFFF800),
            Write(TAR, 0xFFFFFFFC),
            Read(DRW),
            Read(TAR),
            Read(RDBUFF),
            SetWidth(40),
            Write(TAR, 0xFFFFFFFC),
            Read(DRW),
            Read(TAR),
            Read(RDBUFF),
        ],
    );
}

fn main() {
    power_up();
    words();
    posted();
    wrap();
    fault();
    sticky();
    other_ap();
    other_bank();
    dpbanksel();
    csw();
    unaligned();
    line();
    other_calls();
    carry_12();
    carry_32();
    ragged();
    top();
}
