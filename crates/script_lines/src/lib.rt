// The lines that a script prints.
#![tactic(auto)]

ghost use Rattle.std.specs.Prelude.{ℕ, ◌≡◌, [], ◌∷◌, map, ◌+◌, ◌*◌, ◌^◌, ◌≤◌, ◌<◌, max, min, length};
ghost use Rattle.wire.specs.Bytes.{handed, padded};
ghost use Rattle.wire.specs.declared.Call.{Call};
ghost use Rattle.wire_numbers.specs.Numbers.{numbers_of};
ghost use Rattle.wire_numbers.specs.Log.{call_of};
ghost use Rattle.script_lines.specs.Text.{space, digit, digits, decimal, hex, together};
ghost use Rattle.script_lines.specs.Listing.{bits_text, call_text, call_line, call_lines, result_line, malformed_text, data_start, data_line, shown_text, listed};
ghost use Rattle.script_lines.specs.Laws.Puts.{Puts};
ghost use Rattle.script_lines.specs.Laws.Lines.{Adds};
ghost use Rattle.script_lines.specs.Laws.Numbers.{handed_text, numbers_text, numbers_line};

use wire::Call;
use wire_numbers::{CallEnding, TransportCall};

// What stands behind the result: no line, or the line `D` of words or of bytes.
#[derive(Clone, Copy)]
pub enum Shown {
    Nothing,
    Words,
    Bytes,
}

// A number that is printed with a fixed count of hexadecimal digits.
trait Hex: Copy {
    ghost DIGITS: { ℕ };

    ghost number: { Self → ℕ };

    const DIGITS: u32;

    fn number(self) -> u32
        ensures { result ≡ number self };
}

impl Hex for u8 {
    ghost DIGITS = { 2 };

    ghost number = { λ x. x };

    const DIGITS: u32 = 2;

    fn number(self) -> u32 {
        u32::from(self)
    }
}

impl Hex for u32 {
    ghost DIGITS = { 8 };

    ghost number = { λ x. x };

    const DIGITS: u32 = 8;

    fn number(self) -> u32 {
        self
    }
}

// Stays: digits by hand, here and below: a clause knows what write! puts into a String alone, which takes the heap, and nothing of {:X}.
fn digit_of(d: u32) -> u8
    requires { d < 16 }
    ensures { result ≡ digit d }
{
    if d < 10 {
        return 0x30 + (d as u8);
    }
    0x37 + (d as u8)
}

// How many of the sixteen bytes beside a transport call are handed over.
fn handed_bytes(len: u8) -> usize
    ensures { result ≡ min len 16 }
{
    usize::from(len).min(16)
}

// Stays: the lent bytes and a place, and no writer of std's: `at` counts on past the end, as dapscript answers the length of all.
// Text is put into `out`, one behind the other; `at` is the place behind it. What falls outside `out` is dropped.
#[derive(Drop)]
struct Lines<'a> {
    out: &'a mut [u8],
    at: usize,
}

// Stays: a bound on `at` in each method, and no invariant: each of them adds, so that no fixed bound would be kept.
impl<'a> Lines<'a> {
    fn put(&mut self, b: u8)
        requires { self.old.at < 2 ^ 63 }
        ensures { Adds self.old (b ∷ []) self.new }
    {
        slots::put(self.out, self.at, b);
        self.at += 1;
    }

    // At most k decimal digits of n.
    fn digits(&mut self, k: u32, n: u32)
        requires { self.old.at + k ≤ 2 ^ 62 }
        ensures { Adds self.old (digits k n) self.new × (self.new.at ≤ self.old.at + k) }
    {
        if k == 0 {
            return;
        }
        if n < 10 {
            self.put(digit_of(n));
            return;
        }
        self.digits(k - 1, n / 10);
        self.put(digit_of(n % 10));
    }

    fn decimal(&mut self, n: u32)
        requires { self.old.at ≤ 2 ^ 61 }
        ensures { Adds self.old (decimal n) self.new × (self.new.at ≤ self.old.at + 10) }
    {
        self.digits(10, n);
    }

    // The last k hexadecimal digits of n.
    fn hex(&mut self, k: u32, n: u32)
        requires { self.old.at + k ≤ 2 ^ 62 }
        ensures { Adds self.old (hex k n) self.new × (self.new.at ≡ self.old.at + k) }
    {
        if k == 0 {
            return;
        }
        self.hex(k - 1, n / 16);
        self.put(digit_of(n % 16));
    }

    // A space and k hexadecimal digits of n.
    fn field(&mut self, k: u32, n: u32)
        requires { self.old.at + k ≤ 2 ^ 61 }
        ensures { Adds self.old (space ∷ hex k n) self.new × (self.new.at ≡ self.old.at + 1 + k) }
    {
        self.put(b' ');
        self.hex(k, n);
    }

    // Numbers run together.
    fn hex_each<T: Hex>(&mut self, xs: &[T])
        requires { self.old.at + T.DIGITS * length xs.now ≤ 2 ^ 61 }
        ensures { Adds self.old (together (λ x. hex T.DIGITS (T.number x)) xs.now) self.new
            × (self.new.at ≡ self.old.at + T.DIGITS * length xs.now) }
    {
        for x in xs {
            self.hex(T::DIGITS, x.number());
        }
    }

    fn transfer(&mut self, request: u8, word: u32)
        requires { self.old.at ≤ 2 ^ 60 }
        ensures { Adds self.old (call_text (Call.Transfer request word)) self.new × (self.new.at ≤ self.old.at + 12) }
    {
        self.put(b'T');
        self.field(1, u32::from(request));
        self.field(8, word);
    }

    fn pins(&mut self, output: u8, select: u8, wait: u32)
        requires { self.old.at ≤ 2 ^ 60 }
        ensures { Adds self.old (call_text (Call.Pins output select wait)) self.new × (self.new.at ≤ self.old.at + 16) }
    {
        self.put(b'P');
        self.field(2, u32::from(output));
        self.field(2, u32::from(select));
        self.field(8, wait);
    }

    // A letter, a number of bits and the bytes handed over.
    fn bits(&mut self, letter: u8, bits: u8, bytes: &[u8])
        requires { self.old.at + 2 * length bytes.now ≤ 2 ^ 60 }
        ensures { Adds self.old (bits_text letter bits bytes.now) self.new
            × (self.new.at ≤ self.old.at + 13 + 2 * length bytes.now) }
    {
        self.put(letter);
        self.put(b' ');
        self.decimal(u32::from(bits));
        self.put(b' ');
        self.hex_each(bytes);
    }

    // A transport call that hands bytes over.
    fn handed(&mut self, c: TransportCall, bytes: [u8; 16])
        requires { self.old.at ≤ 2 ^ 59 }
        ensures { Adds self.old (handed_text c bytes) self.new × (self.new.at ≤ self.old.at + 45) }
    {
        self.bits(c.kind, c.bits, &bytes[..handed_bytes(c.len)]);
    }

    // A transport call in numbers, with the bytes beside it.
    fn call(&mut self, c: TransportCall, bytes: [u8; 16])
        requires { self.old.at ≤ 2 ^ 59 }
        ensures { Adds self.old (numbers_text c bytes) self.new × (self.new.at ≤ self.old.at + 45) }
    {
        match c.kind {
            b'T' => self.transfer(c.request, c.word),
            b'P' => self.pins(c.output, c.select, c.word),
            b'C' | b'O' => self.put(c.kind),
            _ => self.handed(c, bytes),
        }
    }

    fn numbers(&mut self, number: u32, c: TransportCall, bytes: [u8; 16])
        requires { self.old.at ≤ 2 ^ 58 }
        ensures { Adds self.old (numbers_line number c bytes) self.new × (self.new.at ≤ self.old.at + 57) }
    {
        self.decimal(number);
        self.put(b' ');
        self.call(c, bytes);
        self.put(b'\n');
    }

    fn line(&mut self, number: u32, c: Call)
        requires { self.old.at ≤ 2 ^ 58 }
        ensures { Adds self.old (call_line number c) self.new × (self.new.at ≤ self.old.at + 57) }
    {
        self.numbers(
            number,
            wire_numbers::numbers_of(c),
            wire_numbers::bytes_of(c),
        );
    }

    // A line for each transport call of a log.
    fn calls(&mut self, log: &[u64])
        requires { (self.old.at ≡ 0) × (length log.now < 2 ^ 32) }
        ensures { Adds self.old (call_lines 1 (map call_of log.now)) self.new
            × (self.new.at ≤ 57 * length log.now) }
    {
        for i in 0..log.len() {
            self.line((i + 1) as u32, wire_numbers::call_of(log[i]));
        }
    }

    // The line of the result.
    fn result(&mut self, e: CallEnding)
        requires { self.old.at ≤ 2 ^ 60 }
        ensures { Adds self.old (result_line e) self.new × (self.new.at ≤ self.old.at + 20) }
    {
        self.decimal(u32::from(e.number));
        self.field(8, e.value);
        self.put(b'\n');
    }

    // The start of the line `D` of n numbers.
    fn data_start(&mut self, n: usize)
        requires { self.old.at ≤ 2 ^ 60 }
        ensures { Adds self.old (data_start n) self.new × (self.new.at ≤ self.old.at + 2) }
    {
        self.put(b'D');
        if n != 0 {
            self.put(b' ');
        }
    }

    // The line `D`.
    fn data<T: Hex>(&mut self, xs: &[T])
        requires { self.old.at + T.DIGITS * length xs.now ≤ 2 ^ 60 }
        ensures { Adds self.old (data_line (λ x. hex T.DIGITS (T.number x)) xs.now) self.new
            × (self.new.at ≤ self.old.at + 3 + T.DIGITS * length xs.now) }
    {
        self.data_start(xs.len());
        self.hex_each(xs);
        self.put(b'\n');
    }

    fn shown(&mut self, s: Shown, words: &[u32], buf: &[u8])
        requires { self.old.at + 8 * length words.now + 2 * length buf.now ≤ 2 ^ 60 }
        ensures { Adds self.old (shown_text s words.now buf.now) self.new
            × (self.new.at ≤ self.old.at + 3 + max (8 * length words.now) (2 * length buf.now)) }
    {
        match s {
            Shown::Nothing => {}
            Shown::Words => self.data(words),
            Shown::Bytes => self.data(buf),
        }
    }
}

// The line of a transport call as a step answers with it.
pub fn put_made(out: &mut [u8], number: u32, c: TransportCall, bytes: [u8; 16]) -> usize
    ensures { ((made : Call) → c ≡ numbers_of made → bytes ≡ padded (handed made)
        → Puts out.old 0 (call_line number made) out.new result) × (result ≤ 57) }
{
    let mut lines = Lines { out, at: 0 };
    lines.numbers(number, c, bytes);
    lines.at
}

// The line of a result on its own.
pub fn put_ending(out: &mut [u8], e: CallEnding) -> usize
    ensures { Puts out.old 0 (result_line e) out.new result × (result ≤ 20) }
{
    let mut lines = Lines { out, at: 0 };
    lines.result(e);
    lines.at
}

// What is printed for bytes that are no script.
pub fn put_malformed(out: &mut [u8]) -> usize
    ensures { Puts out.old 0 malformed_text out.new result × (result ≤ 20) }
{
    let e = CallEnding {
        number: 13,
        value: 0,
    };
    put_ending(out, e)
}

// The listing of a run: the calls of its log, its ending and what is shown. Nothing is put for 2^32 numbers or more.
pub fn put_run(
    out: &mut [u8],
    log: &[u64],
    e: CallEnding,
    s: Shown,
    words: &[u32],
    buf: &[u8],
) -> usize
    ensures { Puts out.old 0 (listed log.now e s words.now buf.now) out.new result
        × (result ≤ 57 * length log.now + 23 + max (8 * length words.now) (2 * length buf.now)) }
{
    if 0xFFFFFFFF < log.len() + words.len() + buf.len() {
        return 0;
    }
    let mut lines = Lines { out, at: 0 };
    lines.calls(log);
    lines.result(e);
    lines.shown(s, words, buf);
    lines.at
}
