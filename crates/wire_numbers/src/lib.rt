// Transport calls, answers and endings as numbers: what a step answers with, and what lists of numbers hold.
#![tactic(auto)]

ghost use Rattle.std.specs.Prelude.{◌≡◌, ◌*◌, ◌+◌, ◌/◌, ◌%◌, min, take, set};
ghost use Rattle.wire.specs.Bytes.{handed, padded, le_bytes};
ghost use Rattle.wire_transfer.specs.Laws.Flight.{transfer_of};
ghost use Rattle.wire_numbers.specs.Results.{error_number, error_value, result_of};
ghost use Rattle.wire_numbers.specs.Numbers.{numbers_of};
ghost use Rattle.wire_numbers.specs.Log.{answer_at, answer_of, code_of, call_of};

use wire::{Answer, ArmError, Call, DapError, Outcome, Pattern};
use wire_transfer::words::*;

// A transport call as numbers. `kind` is the letter of a listing: T, C, Q, P, B or O; `word` is T's data or P's wait;
// `len` bytes are handed over.
#[derive(Clone, Copy)]
pub struct TransportCall {
    pub kind: u8,
    pub request: u8,
    pub output: u8,
    pub select: u8,
    pub bits: u8,
    pub len: u8,
    pub word: u32,
}

// How a call ended: 01's result number and value.
#[derive(Clone, Copy)]
pub struct CallEnding {
    pub number: u8,
    pub value: u32,
}

// A failure whose value is 0.
fn failure(number: u8) -> CallEnding
    ensures { result ≡ record { number = number; value = 0 } }
{
    CallEnding { number, value: 0 }
}

// How a call ended that failed, in numbers.
fn error_ending(e: ArmError) -> CallEnding
    ensures { result ≡ record { number = error_number e; value = error_value e } }
{
    match e {
        ArmError::Transfer(ack) => CallEnding {
            number: 1,
            value: u32::from(ack),
        },
        ArmError::Wait => failure(2),
        ArmError::NotSupported => failure(3),
        ArmError::PowerUpTimeout => failure(4),
        ArmError::CoreTimeout => failure(5),
        ArmError::NoTarget => failure(6),
        ArmError::Internal => failure(7),
        ArmError::Range => failure(8),
        ArmError::Align => failure(9),
        ArmError::TableEnd => failure(12),
    }
}

// How a call ended, in numbers.
pub fn result_of(o: Outcome) -> CallEnding
    ensures { result ≡ result_of o }
{
    match o {
        Ok(v) => CallEnding {
            number: 0,
            value: v,
        },
        Err(e) => error_ending(e),
    }
}

// All numbers 0, for the fields that a call leaves out.
const EMPTY: TransportCall = TransportCall {
    kind: 0,
    request: 0,
    output: 0,
    select: 0,
    bits: 0,
    len: 0,
    word: 0,
};

// A sequence of so many bits, in so many bytes.
fn sequence(bits: u8, len: u8) -> TransportCall
    ensures { result ≡ record { kind = 0x51; request = 0; output = 0; select = 0; bits = bits; len = len; word = 0 } }
{
    TransportCall {
        kind: b'Q',
        bits,
        len,
        ..EMPTY
    }
}

// The bits of a fixed sequence and how many bytes are handed over with it.
fn sequence_numbers(p: Pattern) -> TransportCall
    ensures { result ≡ numbers_of (Call.Sequence p) }
{
    match p {
        Pattern::ResetHigh => sequence(51, 8),
        Pattern::ResetIdle => sequence(2, 1),
        Pattern::JtagToSwd => sequence(16, 2),
        Pattern::SwdToDormant => sequence(16, 2),
        Pattern::AlertHigh => sequence(8, 1),
        Pattern::SelectionAlert => sequence(128, 16),
        Pattern::AlertIdle => sequence(4, 1),
        Pattern::SwdActivation => sequence(8, 1),
    }
}

// How many bytes hold so many bits, at most the 4 of a word.
fn bytes_for(bits: u8) -> u8
    ensures { result ≡ min ((bits + 7) / 8) 4 }
{
    bits.div_ceil(8).min(4)
}

// A transport call as numbers.
pub fn numbers_of(c: Call) -> TransportCall
    ensures { result ≡ numbers_of c }
{
    match c {
        Call::Transfer { request, word } => TransportCall {
            kind: b'T',
            request,
            word,
            ..EMPTY
        },
        Call::Connect => TransportCall {
            kind: b'C',
            ..EMPTY
        },
        Call::Sequence(p) => sequence_numbers(p),
        Call::Pins {
            output,
            select,
            wait_us,
        } => TransportCall {
            kind: b'P',
            output,
            select,
            word: wait_us,
            ..EMPTY
        },
        Call::WriteBits { bits, word } => TransportCall {
            kind: b'B',
            bits,
            len: bytes_for(bits),
            word,
            ..EMPTY
        },
        Call::OutputEnable => TransportCall {
            kind: b'O',
            ..EMPTY
        },
    }
}

// The first bytes of a word, as many as hold its bits.
fn bits_bytes(bits: u8, w: u32) -> [u8; 16]
    ensures { result ≡ padded (take ((bits + 7) / 8) (le_bytes w)) }
{
    let [a, b, c, d] = w.to_le_bytes();
    // Stays: a slice of so many bytes takes a call of memcpy, for which `bazkondur_engine_step` saves registers in each transfer.
    match bytes_for(bits) {
        0 => [0; 16],
        1 => wire::padded(&[a]),
        2 => wire::padded(&[a, b]),
        3 => wire::padded(&[a, b, c]),
        _ => wire::padded(&[a, b, c, d]),
    }
}

// The bytes that a transport call hands over, with zeros up to 16.
pub fn bytes_of(c: Call) -> [u8; 16]
    ensures { result ≡ padded (handed c) }
{
    match c {
        Call::Sequence(p) => wire::pattern_bytes(p),
        Call::WriteBits { bits, word } => bits_bytes(bits, word),
        Call::Transfer { .. } | Call::Connect | Call::Pins { .. } | Call::OutputEnable => [0; 16],
    }
}

// An answer by 01's code and its value.
pub fn answer_at(code: u32, value: u32) -> Answer
    ensures { result ≡ answer_at code value }
{
    match code {
        0 => Ok(value),
        1 => Err(DapError::SwdError((value % 256) as u8)),
        2 => Err(DapError::NotSupported),
        _ => Err(DapError::Other),
    }
}

// The answer that a number stands for: the code by 2^32, and the value.
pub fn answer_of(x: u64) -> Answer
    ensures { result ≡ answer_of x }
{
    answer_at((x / 0x100000000) as u32, (x % 0x100000000) as u32)
}

// The number of a transfer in the log.
fn transfer_code(request: u8, word: u32) -> u64
    ensures { result ≡ request * 0x100000000 + word }
{
    u64::from(request) * 0x100000000 + u64::from(word)
}

// The number of a transport call in the log.
fn code_of(c: Call) -> u64
    ensures { (result ≡ code_of c) × (call_of result ≡ c) }
{
    match c {
        Call::Transfer { request, word } => transfer_code(request, word),
        Call::Connect => 0x1000000000000,
        Call::Sequence(p) => 0x2000000000000 + u64::from(u32::from(p)),
        Call::Pins {
            output,
            select,
            wait_us,
        } => 0x3000000000000
            + (u64::from(output) * 0x10000000000
                + (u64::from(select) * 0x100000000 + u64::from(wait_us))),
        Call::WriteBits { bits, word } => 0x4000000000000
            + (u64::from(bits) * 0x100000000 + u64::from(word)),
        Call::OutputEnable => 0x5000000000000,
    }
}

// The transport call that is in flight.
pub fn due(t: &[u32; 7]) -> Call
    ensures { result ≡ (transfer_of t.now).call }
{
    let byte = t[BYTE];
    let word = t[WORD];
    match t[KIND] {
        TRANSFER => Call::Transfer {
            request: (byte % 256) as u8,
            word,
        },
        CONNECT => Call::Connect,
        SEQUENCE => Call::Sequence(Pattern::from(byte)),
        PINS => Call::Pins {
            output: (byte % 256) as u8,
            select: (t[OTHER] % 256) as u8,
            wait_us: word,
        },
        WRITE_BITS => Call::WriteBits {
            bits: (byte % 256) as u8,
            word,
        },
        _ => Call::OutputEnable,
    }
}

// The transport call in flight, noted at place i of the log. Most are transfers, whose number is made at once.
pub fn note_due(log: &mut [u64], i: u32, t: &[u32; 7])
    ensures { (log.new ≡ set log.old i (code_of (transfer_of t.now).call))
        × (call_of (code_of (transfer_of t.now).call) ≡ (transfer_of t.now).call) }
{
    let i = i as usize;
    if t[KIND] == TRANSFER {
        slots::put(log, i, transfer_code((t[BYTE] % 256) as u8, t[WORD]));
        return;
    }
    slots::put(log, i, code_of(due(t)));
}

// The transport call that a number of the log stands for.
pub fn call_of(x: u64) -> Call
    ensures { result ≡ call_of x }
{
    let word = (x % 0x100000000) as u32;
    let a = (x / 0x100000000 % 256) as u8;
    match x / 0x1000000000000 {
        0 => Call::Transfer { request: a, word },
        1 => Call::Connect,
        2 => Call::Sequence(Pattern::from(word)),
        3 => Call::Pins {
            output: (x / 0x10000000000 % 256) as u8,
            select: a,
            wait_us: word,
        },
        4 => Call::WriteBits { bits: a, word },
        _ => Call::OutputEnable,
    }
}
