// The parts of a soak of the session that need no session. What it draws from a generator: targets, their lines, and calls; whatever is
// drawn has a number of its own after the one that is given. What it checks after a call, the four clauses of demand 3. What it counts,
// and how it prints the counts.
#![tactic(auto)]

ghost use Rattle.std.specs.Prelude.{◌≡◌, ◌≢◌, ◌+◌, ◌-◌, ◌*◌, ◌/◌, ◌%◌, ◌^◌, ◌<◌, ◌≤◌, true, false, ◌&&◌, ◌||◌, not, Some, nat_eq};
ghost use Rattle.target.specs.declared.Act.TheVariants as A;
ghost use Rattle.test_soak.specs.Drawn.{drawn};
ghost use Rattle.test_soak.specs.declared.Kind.TheVariants as K;

use target::{Act, Loss, Target};
use wire::Remembered;

// How many bytes of memory a target has: a whole 1 KiB, so that an increment that wraps stays in it, and some more.
pub const BYTES: usize = 1152;

// How many bytes the buffer of a call has.
pub const ROOM: usize = 32;

// A multiplicative generator modulo a prime just below 2^32, by its number.
#[derive(Clone, Copy)]
pub struct Random(pub u32);

const PRIME: u64 = 4294967291;

impl Random {
    fn next(self) -> Random
        ensures { result.0 ≡ self.0 * 1588635695 % 4294967291 }
    {
        Random((u64::from(self.0) * 1588635695 % PRIME) as u32)
    }

    // The next one of another generator.
    fn other(self) -> Random
        ensures { result.0 ≡ self.0 * 279470273 % 4294967291 }
    {
        Random((u64::from(self.0) * 279470273 % PRIME) as u32)
    }

    // The generator after k numbers.
    #[tactic(auto, using(crate::specs::Laws::drawn_none, crate::specs::Laws::drawn_more))]
    pub fn after(self, k: u32) -> Random
        ensures { result.0 ≡ drawn self.0 k }
    {
        let mut x = self;
        for _ in 0..k {
            x = x.next();
        }
        x
    }

    // Number k after this one.
    pub fn nth(self, k: u32) -> u32
        ensures { result ≡ drawn self.0 k }
    {
        self.after(k).0
    }

    // Bytes, by the other generator, so that they are not what is drawn next.
    pub fn bytes(self) -> [u8; ROOM] {
        let mut bytes = [0u8; ROOM];
        let mut x = self;
        for byte in bytes.iter_mut() {
            x = x.other();
            *byte = x.0.to_le_bytes()[0];
        }
        bytes
    }
}

// A line that answers WAIT to the next `waits` transport calls, and else fails at `faults` of 2^32.
#[derive(Clone, Copy)]
pub struct Line {
    pub waits: u32,
    pub faults: u32,
}

impl Line {
    // It never fails, or fails once in 8 to 63, or once in 64 to 463 transport calls.
    pub fn some(x: Random) -> Line
        ensures waits { result.waits ≡ 0 }
        ensures faults { result.faults ≤ 0xFFFFFFFF / 8 }
    {
        let y = x.nth(14);
        let faults = match x.nth(13) % 4 {
            0 => 0,
            1 => 0xFFFFFFFF / (8 + y % 56),
            _ => 0xFFFFFFFF / (64 + y % 400),
        };
        Line { waits: 0, faults }
    }

    // What it does with the next transport call.
    pub fn act(self, x: Random) -> Act
        ensures waits { 0 < self.waits → result ≡ A.Wait }
        ensures delivers { self.waits ≡ 0 → self.faults ≡ 0 → result ≡ A.Deliver }
    {
        let waits = 0 < self.waits;
        if self.faults <= x.nth(1) {
            return if waits { Act::Wait } else { Act::Deliver };
        }
        if waits || x.nth(2) % 4 == 0 {
            return Act::Wait;
        }
        Act::Lose {
            delivered: x.nth(4) % 2 == 0,
            error: Loss::from(x.nth(3) % 320),
        }
    }

    // The line after it. One fault in 32 is followed by a stretch of WAITs, of which 65 end a transfer.
    pub fn after(self, act: Act, x: Random) -> Line
        ensures faults { result.faults ≡ self.faults }
        ensures waits { 0 < self.waits → result.waits ≡ self.waits - 1 }
        ensures delivers { self.waits ≡ 0 → act ≡ A.Deliver → result.waits ≡ 0 }
        ensures few { self.waits ≡ 0 → result.waits < 140 }
    {
        let waits = match act {
            _ if 0 < self.waits => self.waits - 1,
            Act::Deliver => 0,
            _ if x.nth(5) % 32 != 0 => 0,
            _ => x.nth(6) % 140,
        };
        Line { waits, ..self }
    }
}

// Where a target's memory starts: below a multiple of 1 KiB, at the core's debug registers, at the breakpoint unit, or so that it
// ends at 2^32.
fn some_base(x: u32) -> u32
    ensures whole { result % 4 ≡ 0 }
    ensures fits { result + 1152 ≤ 2 ^ 32 }
{
    match x % 16 {
        0 => 0xE000ED80,
        1 => 0xE0002000,
        2 => 0xFFFFFB80,
        _ => 0x1FFFFFC0,
    }
}

// An ID register, now and then one that no target has.
fn some_dpidr(x: u32) -> u32 {
    match x % 64 {
        0 => 0,
        1 => 0xFFFFFFFF,
        _ => 0x0BC12477,
    }
}

// How many reads a power-up takes: a few, and now and then about as many as a connect waits for.
fn some_d(x: u32, y: u32) -> u32
    ensures { result < 1026 }
{
    if x % 256 == 0 {
        return 1022 + y % 4;
    }
    y % 4
}

// How many bits of TAR are incremented, by the other generator, so that all else that is drawn is the same whatever comes here.
fn some_width(x: Random) -> u32
    ensures { (10 ≤ result) × (result ≤ 32) }
{
    10 + x.other().0 % 23
}

// A target whose registers are arbitrary; the size field of CSW is always 2.
pub fn some_target(x: Random) -> Target
    ensures width { (10 ≤ result.width) × (result.width ≤ 32) }
    ensures words { result.csw % 8 ≡ 2 }
    ensures whole { result.base % 4 ≡ 0 }
    ensures fits { result.base + 1152 ≤ 2 ^ 32 }
    ensures d { result.d < 1026 }
    ensures owed { result.owed < 3 }
{
    Target {
        dpidr: some_dpidr(x.nth(1)),
        d: some_d(x.nth(2), x.nth(3)),
        width: some_width(x),
        base: some_base(x.nth(4)),
        select: x.nth(5),
        cdbgpwrupreq: x.nth(6) % 2 == 0,
        csyspwrupreq: x.nth(7) % 2 == 0,
        owed: x.nth(8) % 3,
        sticky: x.nth(9) % 2 == 0,
        rdbuff: x.nth(10),
        csw: x.nth(11) / 8 * 8 + 2,
        tar: x.nth(12),
    }
}

// Stays: 01's numbers: test_session_soak puts them into a record, which list_call::order_of reads.
// The numbers of the calls that are told apart.
const CONNECT_SWD: u8 = 3;

const READ_WORD: u8 = 9;

const WRITE_WORD: u8 = 10;

const READ_MEM: u8 = 13;

const WRITE_MEM: u8 = 14;

// The kinds of calls, in the order in which they are printed.
#[derive(Clone, Copy, PartialEq, Eq)]
pub enum Kind {
    Read,
    Write,
    Connect,
    Other,
}

// A call: its number, its arguments (`len` bytes from `addr` on, or the word to be written), one more than its budget, and the
// generator after all that was drawn.
#[derive(Clone, Copy)]
pub struct Asked {
    pub number: u8,
    pub addr: u32,
    pub word: u32,
    pub len: u32,
    pub turns: u32,
    pub random: Random,
}

// The number of a call; a closed session mostly gets a connect.
fn some_number(open: bool, x: Random) -> u8 {
    if !open && x.nth(1) % 8 != 0 {
        return CONNECT_SWD;
    }
    match x.nth(2) % 16 {
        0..=2 => READ_WORD,
        3..=5 => WRITE_WORD,
        6..=9 => READ_MEM,
        10..=13 => WRITE_MEM,
        14 => CONNECT_SWD,
        _ => 15 + (x.nth(3) % 14) as u8,
    }
}

// A word has 4 bytes.
fn some_len(number: u8, x: Random) -> u32
    ensures { result ≤ 24 }
{
    match number {
        READ_WORD | WRITE_WORD => 4,
        READ_MEM | WRITE_MEM => x.nth(4) % 25,
        _ => 0,
    }
}

// An address near the start of the memory or 1 KiB behind it, few of them of no whole word for a word, half of them for bytes. A call
// that is no read or write gets a small number as register, polls or address.
fn some_addr(number: u8, base: u32, x: Random) -> u32 {
    let n = x.nth(5) % 288;
    let a = base.wrapping_add(n % 144 + n / 144 * 1024).wrapping_sub(8);
    let whole = a - a % 4;
    let odd = x.nth(6) % 16;
    match number {
        READ_WORD | WRITE_WORD => whole + odd / 15,
        READ_MEM | WRITE_MEM => whole + odd % 4,
        _ => odd,
    }
}

// Most calls have budget enough; some do not.
fn some_turns(x: Random) -> u32
    ensures { (0 < result) × (result ≤ 2501) }
{
    if x.nth(7) % 32 == 0 {
        return 1 + x.nth(8) % 40;
    }
    2501
}

impl Asked {
    // A call of a session that is open or closed, over memory that starts at `base`.
    pub fn some(open: bool, base: u32, x: Random) -> Asked
        ensures len { result.len ≤ 24 }
        ensures turns { (0 < result.turns) × (result.turns ≤ 2501) }
    {
        let number = some_number(open, x);
        Asked {
            number,
            addr: some_addr(number, base, x),
            word: x.nth(9),
            len: some_len(number, x),
            turns: some_turns(x),
            random: x.after(10),
        }
    }

    pub fn kind(self) -> Kind
        ensures read_word { self.number ≡ 9 → result ≡ K.Read }
        ensures read_mem { self.number ≡ 13 → result ≡ K.Read }
        ensures write_word { self.number ≡ 10 → result ≡ K.Write }
        ensures write_mem { self.number ≡ 14 → result ≡ K.Write }
        ensures connect { self.number ≡ 3 → result ≡ K.Connect }
        ensures other { 14 < self.number → result ≡ K.Other }
    {
        match self.number {
            READ_WORD | READ_MEM => Kind::Read,
            WRITE_WORD | WRITE_MEM => Kind::Write,
            CONNECT_SWD => Kind::Connect,
            _ => Kind::Other,
        }
    }

    // The bytes that it read or was to write: a word's, lowest first, or those of its buffer.
    pub fn bytes(self, value: u32, buf: &[u8; ROOM]) -> [u8; ROOM]
        ensures buffer { self.number ≢ 9 → self.number ≢ 10 → result ≡ buf.now }
    {
        match self.number {
            READ_WORD => word_bytes(value),
            WRITE_WORD => word_bytes(self.word),
            _ => *buf,
        }
    }
}

fn word_bytes(w: u32) -> [u8; ROOM] {
    let mut b = [0u8; ROOM];
    b[..4].copy_from_slice(&w.to_le_bytes());
    b
}

// Clause 1: whether the session has to be open after a call, by its result and its trace. No result: the call has not ended.
pub fn opens(was: bool, connect: bool, number: Option<u8>, lost: bool) -> bool
    ensures lost { lost ≡ true → result ≡ false }
    ensures ended { number ≡ Some 11 → result ≡ false }
    ensures connected { connect ≡ true → result ≡ true → number ≡ Some 0 }
    ensures opened { connect ≡ true → number ≡ Some 0 → result ≡ not lost }
    ensures stays { connect ≡ false → number ≢ Some 11 → result ≡ (was && not lost) }
{
    let opened = if connect { number == Some(0) } else { was };
    opened && !lost && number != Some(11)
}

// Clause 2.
pub fn agrees(r: Remembered, t: Target) -> bool
    ensures { result
        ≡ ((nat_eq r.select 0xFFFFFFFF || nat_eq r.select t.select) && (not r.csw || nat_eq t.csw 0x23000012)) }
{
    (r.select == 0xFFFFFFFF || r.select == t.select) && (!r.csw || t.csw == 0x23000012)
}

// A read or a write of `len` bytes, `from` behind the start of memory, and whether it succeeded. `bytes` is what it read or was to
// write.
#[derive(Clone, Copy)]
pub struct Access {
    pub writes: bool,
    pub ok: bool,
    pub from: u32,
    pub len: u32,
    pub bytes: [u8; ROOM],
}

impl Access {
    // Whether a byte of memory is as the call has to leave it. In a call that succeeded, what was read there or was to be written
    // has to be there.
    fn keeps(&self, at: u32, old: u8, now: u8) -> bool {
        let k = at.wrapping_sub(self.from);
        let within = k < self.len;
        let must = self.ok && within;
        let given = self.bytes.get(k as usize).copied().unwrap_or(0);
        let new = within && now == given;
        let same = now == old;
        if self.writes {
            return new || (same && !must);
        }
        same && (new || !must)
    }

    fn fits(&self) -> bool
        ensures { result ≡ true → self.now.ok ≡ true → 0 < self.now.len → self.now.from + self.now.len ≤ 1152 }
    {
        !self.ok || self.len == 0 || u64::from(self.from) + u64::from(self.len) <= BYTES as u64
    }

    // Clauses 3 and 4.
    pub fn keeps_memory(&self, before: &[u8; BYTES], after: &[u8; BYTES]) -> bool
        ensures fits { result ≡ true → self.now.ok ≡ true → 0 < self.now.len → self.now.from + self.now.len ≤ 1152 }
    {
        let bytes = before.iter().zip(after);
        self.fits()
            && (0..BYTES as u32)
                .zip(bytes)
                .all(|(at, (old, now))| self.keeps(at, *old, *now))
    }
}

// What a call leaves traces in, for what it found: memory before it, its buffer as it was given, and as it is.
#[derive(Clone, Copy)]
pub struct Traces {
    pub before: [u8; BYTES],
    pub given: [u8; ROOM],
    pub buf: [u8; ROOM],
}

impl Traces {
    // Before the call.
    pub fn new(mem: &[u8; BYTES], given: [u8; ROOM]) -> Traces
        ensures { result ≡ record { before = mem.now; given = given; buf = given } }
    {
        Traces {
            before: *mem,
            given,
            buf: given,
        }
    }

    // Whether a read that failed has given some bytes, or a write that failed has left some new.
    pub fn are_half_done(&self, kind: Kind, ok: bool, after: &[u8; BYTES]) -> bool
        ensures done { ok ≡ true → result ≡ false }
        ensures connect { kind ≡ K.Connect → result ≡ false }
        ensures other { kind ≡ K.Other → result ≡ false }
    {
        match kind {
            Kind::Read => !ok && self.given != self.buf,
            Kind::Write => !ok && self.before != *after,
            Kind::Connect | Kind::Other => false,
        }
    }
}

// What is counted, in the order in which it is printed: lists, calls, transport calls and the losses among them; calls by result and
// kind; reads and writes that failed half done; lists by the width of the target's increment; checks that failed.
#[derive(Clone, Copy)]
pub struct Counts {
    lists: u64,
    calls: u64,
    made: u64,
    lost: u64,
    ended: [[u64; 4]; 13],
    half_done: [u64; 4],
    widths: [u64; 3],
    failed: u64,
}

fn add(count: &mut u64, n: u64)
    ensures { count.new ≡ (count.old + n) % 2 ^ 64 }
{
    *count = count.wrapping_add(n);
}

impl Counts {
    pub fn new() -> Counts
        ensures lists { result.lists ≡ 0 }
        ensures calls { result.calls ≡ 0 }
        ensures made { result.made ≡ 0 }
        ensures lost { result.lost ≡ 0 }
        ensures failed { result.failed ≡ 0 }
    {
        Counts {
            lists: 0,
            calls: 0,
            made: 0,
            lost: 0,
            ended: [[0; 4]; 13],
            half_done: [0; 4],
            widths: [0; 3],
            failed: 0,
        }
    }

    // The call is counted. No result: it has not ended.
    pub fn call(&mut self, kind: Kind, number: Option<u8>, half_done: bool, good: bool)
        ensures calls { self.new.calls ≡ (self.old.calls + 1) % 2 ^ 64 }
        ensures good { good ≡ true → self.new.failed ≡ self.old.failed }
        ensures failed { good ≡ false → self.new.failed ≡ (self.old.failed + 1) % 2 ^ 64 }
    {
        let k = kind as usize;
        add(&mut self.calls, 1);
        if let Some(row) = number.and_then(|n| self.ended.get_mut(usize::from(n))) {
            add(&mut row[k], 1);
        }
        add(&mut self.half_done[k], u64::from(half_done));
        add(&mut self.failed, u64::from(!good));
    }

    // The list is counted, by the width of its target's increment: 10, 11 to 31, and 32.
    pub fn list(&mut self, width: u32, made: u64, losses: u64)
        ensures lists { self.new.lists ≡ (self.old.lists + 1) % 2 ^ 64 }
        ensures made { self.new.made ≡ (self.old.made + made) % 2 ^ 64 }
        ensures lost { self.new.lost ≡ (self.old.lost + losses) % 2 ^ 64 }
        ensures failed { self.new.failed ≡ self.old.failed }
    {
        let column = match width {
            10 => 0,
            32 => 2,
            _ => 1,
        };
        add(&mut self.lists, 1);
        add(&mut self.widths[column], 1);
        add(&mut self.made, made);
        add(&mut self.lost, losses);
    }

    // Prints the text of standard input, with a count for each #.
    pub fn report(&self) {
        let mut text = [0u8; 1024];
        let n = io::read_full(0, &mut text);
        let heads = [self.lists, self.calls, self.made, self.lost];
        let ended = self.ended.iter().flatten();
        let tails = [
            self.half_done[0],
            self.half_done[1],
            self.widths[0],
            self.widths[1],
            self.widths[2],
            self.failed,
        ];
        let mut counts = heads.iter().chain(ended).chain(tails.iter());
        for byte in &text[..n] {
            if *byte == b'#' {
                io::print_decimal(1, counts.next().copied().unwrap_or(0));
            } else {
                io::write_all(1, &[*byte]);
            }
        }
    }
}
