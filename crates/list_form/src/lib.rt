// What is a list of session calls as data: a version byte, then records, each a length of 2 bytes and so many bytes; and the rules that
// the records keep among each other. Numbers are big-endian.
#![tactic(auto)]

ghost use Rattle.std.specs.Prelude.{◌≡◌, ◌+◌, ◌*◌, ◌<◌, ◌≤◌, ◌++◌, length, drop, get_or, slice_get, Some, IfSome, IsNone, IsTrue};
ghost use Rattle.std.specs.Iterator.{at_most};

use list_records::{Given, Record, Start};

// No list is longer.
const LONGEST: usize = 1048576;

const VERSION: u8 = 3;

// The first record's bytes and what stands behind them; nothing where there is no whole record.
pub fn split_record(records: &[u8]) -> Option<(&[u8], &[u8])>
    ensures short { IfSome result (λ r. length r.0.now ≤ 65535) }
    ensures whole { IfSome result (λ r. 2 + length r.0.now + length r.1.now ≡ length records.now) }
    ensures told { IfSome result (λ r. length r.0.now ≡ 256 * get_or records.now 0 0 + get_or records.now 1 0) }
    ensures parts { IfSome result (λ r. r.0.now ++ r.1.now ≡ drop 2 records.now) }
    ensures none { IsNone result → length records.now < 2 + (256 * get_or records.now 0 0 + get_or records.now 1 0) }
{
    let (length, rest) = records.split_first_chunk::<2>()?;
    rest.split_at_checked(usize::from(u16::from_be_bytes(*length)))
}

// The records one after the other, up to the end or to one that is cut short; `left` is what stands behind them.
#[derive(Drop)]
pub struct Records<'a> {
    left: &'a [u8],
}

impl<'a> Records<'a> {
    // The records of a list, behind its version.
    pub fn of(list: &'a [u8]) -> Records<'a>
        ensures { result.left.now ≡ drop 1 list.now }
    {
        match list {
            [_, left @ ..] => Records { left },
            [] => Records { left: list },
        }
    }
}

impl<'a> Iterator for Records<'a> {
    type Item = &'a [u8];

    ghost remaining = { λ s. at_most (length s.left.now) };

    fn next(&mut self) -> Option<&'a [u8]> {
        let (record, left) = split_record(self.left)?;
        self.left = left;
        Some(record)
    }
}

// What the records so far say: whether there are any, how many bytes of memory the target has if there is one, whether there is a call,
// and whether faults or answers wait for theirs.
#[derive(Clone, Copy, Default)]
struct Seen {
    started: bool,
    memory: Option<usize>,
    called: bool,
    given: bool,
}

impl Seen {
    // Whether so many bytes lie within memory.
    fn has(&self, offset: u32, bytes: usize) -> bool {
        match self.memory {
            Some(size) => size
                .checked_sub(offset as usize)
                .is_some_and(|left| bytes <= left),
            None => false,
        }
    }

    // Whether a record may stand here.
    fn allows(&self, record: &Record) -> bool {
        let target = self.memory.is_some();
        match record {
            Record::Target(_) => !self.started,
            Record::Memory { offset, bytes } => !self.called && self.has(*offset, bytes.len()),
            Record::Given(Given::Faults(_)) => target && !self.given,
            Record::Given(Given::Answers(_)) => !self.given,
            Record::Call(_) => target || self.given,
            Record::Examine { offset, length } => self.has(*offset, usize::from(*length)),
            Record::Registers => target,
        }
    }

    // What is seen after a record, if it may stand here.
    fn after(self, record: Record) -> Option<Seen> {
        let seen = Seen {
            started: true,
            ..self
        };
        self.allows(&record).then_some(match record {
            Record::Target(start) => Seen {
                memory: Some(start.size),
                ..seen
            },
            Record::Given(_) => Seen {
                given: true,
                ..seen
            },
            Record::Call(_) => Seen {
                called: true,
                given: false,
                ..seen
            },
            _ => seen,
        })
    }
}

// What is seen of all records, if each has the form of its kind and keeps the rules.
fn seen_of(mut records: Records) -> Option<Seen> {
    let mut seen = Seen::default();
    for record in records.by_ref() {
        seen = seen.after(Record::parse(record)?)?;
    }
    records.left.is_empty().then_some(seen)
}

// Whether bytes are a list: each record keeps the rules, and no faults or answers are left without a call.
pub fn is_list(list: &[u8]) -> bool
    ensures version { IsTrue result → slice_get list.now 0 ≡ Some 3 }
    ensures short { IsTrue result → length list.now ≤ 1048576 }
{
    list.len() <= LONGEST
        && list.first() == Some(&VERSION)
        && seen_of(Records::of(list)).is_some_and(|seen| !seen.given)
}

// The target of a list as its first record has it; where that is none, a target without memory.
pub fn start_of(list: &[u8]) -> Start
    ensures none { length list.now < 3 → result.size ≡ 0 }
{
    let (first, _) = split_record(Records::of(list).left).unwrap_or((&[], &[]));
    Start::of(first)
}
