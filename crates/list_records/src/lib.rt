// The records of a list: a record is its kind, a letter, and what it says. Numbers are big-endian.
#![tactic(auto)]

ghost use Rattle.std.specs.Prelude.{ℕ, ◌≡◌, ◌+◌, ◌≤◌, ◌<◌, [], ◌++◌, length, take, drop, nat_le, cond, IsNone, OnSome};
ghost use Rattle.script_form.specs.BigEndian.{word as Number·word};
ghost use Rattle.list_records.specs.Allowed.{fault_count, answer_count, allowed};

use script_form::{byte, half, word};
use target::{Act, Loss, Target};
use wire::Answer;

// No record is longer, as its length has 2 bytes.
const LONGEST: usize = 65535;

// No target has more memory.
const LARGEST: u32 = 65536;

// The target as the list begins, and how many bytes of memory it has.
#[derive(Clone, Copy)]
pub struct Start {
    pub target: Target,
    pub size: usize,
    pub ghost within: { size ≤ 65536 },
}

// What the line does with a transport call of the next call, which counts from 1.
#[derive(Clone, Copy)]
pub struct Fault {
    pub call: u32,
    pub act: Act,
}

// What is given for the next call: what the line does, or the answers in place of target and line. Each entry has the form of its kind.
#[derive(Clone, Copy)]
pub enum Given<'a> {
    Faults(&'a [[u8; 7]]),
    Answers(&'a [[u8; 5]]),
}

// A call of a session: the record with its kind, the call's number and budget, and its arguments.
#[derive(Clone, Copy)]
pub struct CallRecord<'a> {
    pub bytes: &'a [u8],
    pub ghost short: { length bytes.now ≤ 65535 },
}

// What a record says.
#[derive(Clone, Copy)]
pub enum Record<'a> {
    Target(Start),
    Memory { offset: u32, bytes: &'a [u8] },
    Given(Given<'a>),
    Call(CallRecord<'a>),
    Examine { offset: u32, length: u16 },
    Registers,
}

// How many bytes of memory a target has.
pub fn size_of(r: &[u8]) -> usize
    ensures small { result ≤ 65536 }
    ensures value { result ≡ cond (nat_le (Number·word r.now 36) 65536) (Number·word r.now 36) 0 }
{
    let size = word(r, 36);
    if LARGEST < size {
        return 0;
    }
    size as usize
}

// A target: width 10 to 32, two bits of requests, a size of CSW that the model keeps, and whole words of memory below 2^32.
fn is_target(r: &[u8]) -> bool {
    let base = word(r, 32);
    let size = word(r, 36);
    r.len() == 40
        && matches!(byte(r, 9), 10..=32)
        && byte(r, 14) <= 3
        && byte(r, 19) <= 1
        && word(r, 24) % 8 == 2
        && base % 4 == 0
        && size % 4 == 0
        && size <= LARGEST
        && u64::from(base) + u64::from(size) <= 0x100000000
}

impl Start {
    // What a record says of the target; what it does not have reads 0.
    // Stays: each number by its place; read off one after the other, each would need a name and a refusal of its own.
    pub fn of(r: &[u8]) -> Start
        ensures dpidr { result.target.dpidr ≡ Number·word r.now 1 }
        ensures select { result.target.select ≡ Number·word r.now 10 }
        ensures csw { result.target.csw ≡ Number·word r.now 24 }
        ensures tar { result.target.tar ≡ Number·word r.now 28 }
        ensures base { result.target.base ≡ Number·word r.now 32 }
        ensures size { result.size ≡ cond (nat_le (Number·word r.now 36) 65536) (Number·word r.now 36) 0 }
    {
        let requests = byte(r, 14);
        Start {
            target: Target {
                dpidr: word(r, 1),
                d: word(r, 5),
                width: u32::from(byte(r, 9)),
                select: word(r, 10),
                cdbgpwrupreq: requests % 2 == 1,
                csyspwrupreq: requests / 2 % 2 == 1,
                owed: word(r, 15),
                sticky: byte(r, 19) == 1,
                rdbuff: word(r, 20),
                csw: word(r, 24),
                tar: word(r, 28),
                base: word(r, 32),
            },
            size: size_of(r),
        }
    }
}

// The error of a loss: 1 SwdError with an ack that is neither WAIT's nor FAULT's, 2 NotSupported, 3 other.
fn loss_of(error: u8, ack: u8) -> Option<Loss> {
    match (error, ack) {
        (1, 2 | 4) => None,
        (1, _) => Some(Loss::Ack(ack)),
        (2, _) => Some(Loss::NotSupported),
        (3, _) => Some(Loss::Other),
        _ => None,
    }
}

// Stays: numbers, as an entry has them (docs/LISTS.md); here and above they become an Act and a Loss.
// What the line does: 1 WAIT, 2 a loss of what was not delivered, 3 of what was.
fn act_of(act: u8, error: u8, ack: u8) -> Option<Act> {
    match act {
        1 => Some(Act::Wait),
        2 | 3 => Some(Act::Lose {
            delivered: act == 3,
            error: loss_of(error, ack)?,
        }),
        _ => None,
    }
}

impl Fault {
    // The fault of an entry, if it has the form of one.
    fn parse(entry: &[u8; 7]) -> Option<Fault> {
        let [c0, c1, c2, c3, act, error, ack] = *entry;
        Some(Fault {
            call: u32::from_be_bytes([c0, c1, c2, c3]),
            act: act_of(act, error, ack)?,
        })
    }
}

// The answer of an entry, if it has the form of one: a code up to 3, and for code 1, SwdError, an ack.
fn answer_of(entry: &[u8; 5]) -> Option<Answer> {
    let [code, v0, v1, v2, v3] = *entry;
    let value = u32::from_be_bytes([v0, v1, v2, v3]);
    let good = code <= 3 && (code != 1 || value <= 255);
    good.then_some(wire_numbers::answer_at(u32::from(code), value))
}

// Faults, whose transport calls count from 1 and rise.
fn are_faults(entries: &[[u8; 7]]) -> bool {
    let mut last = 0;
    for entry in entries {
        let Some(fault) = Fault::parse(entry) else {
            return false;
        };
        if fault.call <= last {
            return false;
        }
        last = fault.call;
    }
    true
}

impl<'a> Given<'a> {
    // Faults that fill the bytes.
    fn faults(bytes: &'a [u8]) -> Option<Given<'a>> {
        let (entries, left) = bytes.as_chunks::<7>();
        let good = left.is_empty() && are_faults(entries);
        good.then_some(Given::Faults(entries))
    }

    // Answers that fill the bytes.
    fn answers(bytes: &'a [u8]) -> Option<Given<'a>> {
        let (entries, left) = bytes.as_chunks::<5>();
        let good = left.is_empty() && entries.iter().all(|entry| answer_of(entry).is_some());
        good.then_some(Given::Answers(entries))
    }

    // Nothing: what no entry names is delivered.
    pub fn nothing() -> Given<'a>
        ensures faults { fault_count result ≡ 0 }
        ensures budget { (budget : ℕ) → allowed result budget ≡ budget }
    {
        Given::Faults(&[])
    }

    // How many transport calls a call may make: its budget, and no more than there are answers.
    pub fn allowed(&self, budget: u32) -> u32
        ensures value { result ≡ allowed self.now budget }
        ensures within { result ≤ budget }
    {
        match self {
            Given::Faults(_) => budget,
            Given::Answers(entries) => {
                u32::try_from(entries.len()).map_or(budget, |answers| answers.min(budget))
            }
        }
    }

    // Answer k, counted from 0.
    pub fn answer(&self, k: u32) -> Option<Answer>
        ensures past_end { answer_count self.now ≤ k → IsNone result }
    {
        match self {
            Given::Faults(_) => None,
            Given::Answers(entries) => entries.get(k as usize).and_then(answer_of),
        }
    }

    // Fault k, counted from 0.
    pub fn fault(&self, k: usize) -> Option<Fault>
        ensures past_end { fault_count self.now ≤ k → IsNone result }
    {
        match self {
            Given::Faults(entries) => entries.get(k).and_then(Fault::parse),
            Given::Answers(_) => None,
        }
    }
}

// Stays: 01's numbers, as a record has them: the call is made of its bytes only once they are known to be enough.
// Whether a session has a call of this number, which takes so many bytes of arguments.
fn takes(number: u8, bytes: usize) -> bool {
    match number {
        3 | 15..=19 => bytes == 0,
        9 | 26..=28 => bytes == 4,
        10 => bytes == 8,
        13 => bytes == 6,
        // Its address, and behind it what it writes.
        14 => 4 <= bytes,
        20 => bytes == 1,
        21 => bytes == 5,
        22 => bytes == 2,
        23 => bytes == 28,
        24 => bytes == 36,
        25 => bytes == 32,
        _ => false,
    }
}

impl<'a> CallRecord<'a> {
    fn parse(bytes: &'a [u8]) -> Option<CallRecord<'a>> {
        if LONGEST < bytes.len() {
            return None;
        }
        let arguments = bytes.len().checked_sub(6)?;
        takes(byte(bytes, 1), arguments).then_some(CallRecord { bytes })
    }
}

impl<'a> Record<'a> {
    // What a record says, if it has the form of its kind.
    pub fn parse(record: &'a [u8]) -> Option<Record<'a>>
        ensures found { OnSome result (0 < length «record».now) }
    {
        let (kind, rest) = record.split_first()?;
        match *kind {
            b'T' => is_target(record).then_some(Record::Target(Start::of(record))),
            b'M' => {
                let (offset, bytes) = rest.split_first_chunk::<4>()?;
                Some(Record::Memory {
                    offset: u32::from_be_bytes(*offset),
                    bytes,
                })
            }
            b'F' => Given::faults(rest).map(Record::Given),
            b'A' => Given::answers(rest).map(Record::Given),
            b'C' => CallRecord::parse(record).map(Record::Call),
            b'X' => (rest.len() == 6).then_some(Record::Examine {
                offset: word(rest, 0),
                length: half(rest, 4),
            }),
            b'R' => rest.is_empty().then_some(Record::Registers),
            _ => None,
        }
    }
}

// Copies as many bytes as there is room for.
pub fn copy(bytes: &[u8], to: &mut [u8])
    ensures room { length to.new ≡ length to.old }
    ensures after { to.new ≡ take (length to.old) bytes.now ++ drop (length bytes.now) to.old }
{
    let count = bytes.len().min(to.len());
    to[..count].copy_from_slice(&bytes[..count]);
}

// Puts bytes into memory from an offset on.
pub fn store(offset: u32, bytes: &[u8], mem: &mut [u8])
    ensures room { length mem.new ≡ length mem.old }
    ensures before { take offset mem.new ≡ take offset mem.old }
{
    let start = mem.len().min(offset as usize);
    copy(bytes, &mut mem[start..]);
}

// A part of memory.
pub fn part_of(offset: u32, count: u16, mem: &[u8]) -> &[u8]
    ensures within { offset + count ≤ length mem.now → result.now ≡ take count (drop offset mem.now) }
    ensures past_end { length mem.now < offset + count → result.now ≡ [] }
{
    let start = offset as usize;
    mem.get(start..start + usize::from(count)).unwrap_or(&[])
}
