// Lists of calls, each list on one engine, as the unchanged Rust made them. Standard input and what must be printed for it:
// tools/README.md.
#![tactic(auto)]

use test_calls::{decimal, digits, hex, number, write};
use wire::{Call, Remembered};
use wire_numbers::{CallEnding, TransportCall};

const STDIN_FILENO: i32 = 0;

// As many calls are read.
const CALLS: u32 = 100000;

// As many transport calls are printed; of a longer call only their number.
const SHOWN: usize = 1000;

// The next bytes of the input; zeros where it has ended.
fn next<const N: usize>() -> [u8; N] {
    let mut bytes = [0u8; N];
    io::read_full(STDIN_FILENO, &mut bytes);
    bytes
}

fn next_half() -> u16 {
    u16::from_be_bytes(next())
}

fn next_word() -> u32 {
    u32::from_be_bytes(next())
}

fn fill_words(words: &mut [u32]) {
    for word in words {
        *word = next_word();
    }
}

// So many runs of equal answers, as many as fit.
fn fill_answers(answers: &mut [u64], runs: u16) -> &[u64] {
    let mut end = 0usize;
    for _ in 0..runs {
        let start = end;
        end = answers
            .len()
            .min(start.saturating_add(usize::from(next_half())));
        let [code] = next::<1>();
        let value = next_word();
        answers[start..end].fill(u64::from(code) << 32 | u64::from(value));
    }
    &answers[..end]
}

// Numbers of n digits each, with nothing between them.
fn show_each<T: Copy + Into<u64>>(numbers: &[T], n: usize) {
    for x in numbers {
        digits(*x, n);
    }
}

// The bits of a call that hands bytes over, and these.
fn show_handed(bits: u8, len: u8, bytes: &[u8; 16]) {
    decimal(bits);
    write(b" ");
    if let Some(handed) = bytes.get(..usize::from(len)) {
        show_each(handed, 2);
    }
}

// What follows the letter.
fn show_numbers(c: TransportCall, bytes: &[u8; 16]) {
    match c.kind {
        b'T' => {
            hex(c.request, 1);
            hex(c.word, 8);
        }
        b'P' => {
            hex(c.output, 2);
            hex(c.select, 2);
            hex(c.word, 8);
        }
        b'Q' | b'B' => show_handed(c.bits, c.len, bytes),
        _ => {}
    }
}

// A transport call: its letter, in small.
fn show_call(c: Call) {
    let n = wire_numbers::numbers_of(c);
    write(b" ");
    write(&[n.kind.to_ascii_lowercase()]);
    show_numbers(n, &wire_numbers::bytes_of(c));
}

fn show_log(log: &[u64]) {
    for (i, made) in log.iter().enumerate() {
        number(i as u64 + 1);
        show_call(wire_numbers::call_of(*made));
        write(b"\n");
    }
}

fn show_number(n: u8) {
    write(b"call ");
    number(n);
    write(b"\n");
}

// The first so many of the log.
fn show_calls(log: &[u64], n: usize) {
    if SHOWN < n {
        number(n as u64);
        write(b" transport calls\n");
    } else if let Some(made) = log.get(..n) {
        show_log(made);
    }
}

fn show_result(e: CallEnding) {
    number(e.number);
    hex(e.value, 8);
    write(b"\n");
}

// The line of words or of bytes, one of which is empty.
fn show_data(words: &[u32], bytes: &[u8]) {
    write(b"d");
    if !words.is_empty() {
        write(b" ");
        show_each(words, 8);
    }
    if !bytes.is_empty() {
        write(b" ");
        show_each(bytes, 2);
    }
    write(b"\n");
}

// Stays: 01's numbers, as the input has them.
// What follows the result: the words of 11, the bytes of 13, the frame of 23 if it succeeded.
fn show_left(number: u8, e: CallEnding, frame: &[u32; 8], words: &[u32], bytes: &[u8]) {
    match number {
        11 | 13 => show_data(words, bytes),
        23 if e.number == 0 => show_data(frame, bytes),
        _ => {}
    }
}

// A call: its number and arguments, the answers that it gets, and the words and bytes that it is lent.
#[derive(Drop)]
struct Asked<'a> {
    number: u8,
    args: [u32; 8],
    answers: &'a [u64],
    words: &'a mut [u32],
    bytes: &'a mut [u8],
}

impl Asked<'_> {
    // Runs and shows it; what is remembered after it. Call 24's frame stands in the words that it is lent.
    fn perform(self, r: Remembered) -> Remembered {
        let Asked {
            number,
            args,
            answers,
            words,
            bytes,
        } = self;
        // Stays: arrays of the greatest size: a Vec would bring a failure of its own that no list has.
        let mut log = [0u64; 16384];
        let mut frame = words.first_chunk::<8>().copied().unwrap_or([0; 8]);
        show_number(number);
        let call = test_calls::call_of(number, &args, &frame);
        let x = engine_run::run(
            r,
            call,
            u32::MAX,
            answers,
            &mut frame,
            words,
            bytes,
            &mut log,
        );
        show_calls(&log, x.count as usize);
        show_result(x.ending);
        show_left(number, x.ending, &frame, words, bytes);
        x.remembered
    }
}

// The next call of the input: the lengths of the words and bytes that it is lent and the runs of its answers, its arguments, and then
// all of these. A call that does not fit is passed over.
fn next_call(r: Remembered, number: u8) -> Remembered {
    let n = next_half();
    let m = next_half();
    let runs = next_half();
    let mut args = [0u32; 8];
    fill_words(&mut args);
    let mut words = [0u32; 512];
    let mut bytes = [0u8; 512];
    let mut answers = [0u64; 16384];
    let (Some(words), Some(bytes)) = (
        words.get_mut(..usize::from(n)),
        bytes.get_mut(..usize::from(m)),
    ) else {
        return r;
    };
    fill_words(words);
    io::read_full(STDIN_FILENO, bytes);
    let call = Asked {
        number,
        args,
        answers: fill_answers(&mut answers, runs),
        words,
        bytes,
    };
    call.perform(r)
}

fn main() {
    let mut r = call::new();
    for _ in 0..CALLS {
        let mut head = [0u8; 2];
        if io::read_full(STDIN_FILENO, &mut head) < head.len() {
            return;
        }
        let [begins, number] = head;
        if begins == 1 {
            write(b"list\n");
            r = call::new();
        }
        r = next_call(r, number);
    }
}
