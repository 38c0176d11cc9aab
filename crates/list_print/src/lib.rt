// The lines that a list prints. They are gathered in a room that is written to standard output whenever it is full, so that no line has a
// bound.
#![tactic(auto)]

ghost use Rattle.wire.specs.Bytes.{handed, padded};
ghost use Rattle.wire.specs.declared.Call.{Call};
ghost use Rattle.wire_numbers.specs.Numbers.{numbers_of};
ghost use Rattle.std.specs.Prelude.{◌≡◌, ◌-◌, ◌<◌, ◌≤◌, Some, slice_get, length};

use call_core::CallFrame;
use std::fmt;
use std::fmt::Write;
use wire::Remembered;
use wire_numbers::{CallEnding, TransportCall};

const STDOUT_FILENO: i32 = 1;

const DIGITS: [u8; 16] = *b"0123456789ABCDEF";

// How the CSW is printed that the session remembers, and one that it does not know.
const CSW: u32 = 0x23000012;

const UNKNOWN: u32 = 0xFFFFFFFF;

// A room for lines, and how many of its bytes wait to be written.
// Stays: an array and a count: std's BufWriter takes memory from the heap (docs/DECISIONS.md, No heap).
#[derive(Drop)]
pub struct Printer {
    room: [u8; 65536],
    waiting: usize,
    ghost within: { waiting ≤ 65536 },
}

impl Write for Printer {
    fn write_str(&mut self, text: &str) -> fmt::Result {
        self.put(text.as_bytes());
        Ok(())
    }
}

impl Printer {
    // A room in which nothing stands yet.
    pub fn new() -> Printer
        ensures { result.waiting ≡ 0 }
    {
        Printer {
            room: [0; 65536],
            waiting: 0,
        }
    }

    // Writes what waits.
    #[inline(never)]
    pub fn write_out(&mut self)
        ensures { self.new.waiting ≡ 0 }
    {
        io::write_all(STDOUT_FILENO, &self.room[..self.waiting]);
        self.waiting = 0;
    }

    // Writes what waits where the room is full.
    fn make_room(&mut self)
        ensures { self.new.waiting < 65536 }
    {
        if self.waiting == self.room.len() {
            self.write_out();
        }
    }

    fn put_byte(&mut self, byte: u8)
        ensures waits { 0 < self.new.waiting }
        ensures last { slice_get self.new.room (self.new.waiting - 1) ≡ Some byte }
    {
        self.make_room();
        self.room[self.waiting] = byte;
        self.waiting += 1;
    }

    fn put(&mut self, text: &[u8])
        ensures waits { 0 < length text.now → 0 < self.new.waiting }
        ensures last { 0 < length text.now → slice_get self.new.room (self.new.waiting - 1) ≡ slice_get text.now (length text.now - 1) }
    {
        if let Some((last, rest)) = text.split_last() {
            for byte in rest {
                self.put_byte(*byte);
            }
            self.put_byte(*last);
        }
    }

    // Stays: digits by a table: most of what a list prints are bytes, and `{:02X}` takes twenty times as long.
    // A byte in two hexadecimal digits, put at once where there is room for both.
    #[inline(always)]
    fn put_hex(&mut self, byte: u8)
        ensures waits { 0 < self.new.waiting }
    {
        let high = DIGITS[usize::from(byte / 16)];
        let low = DIGITS[usize::from(byte % 16)];
        let at = self.waiting;
        if at < self.room.len() - 1 {
            self.room[at] = high;
            self.room[at + 1] = low;
            self.waiting = at + 2;
        } else {
            self.put_byte(high);
            self.put_byte(low);
        }
    }

    // A word in eight.
    fn put_hex_word(&mut self, word: u32)
        ensures waits { 0 < self.new.waiting }
    {
        let [b3, b2, b1, b0] = word.to_be_bytes();
        self.put_hex(b3);
        self.put_hex(b2);
        self.put_hex(b1);
        self.put_hex(b0);
    }

    // `#` and the number of a call.
    pub fn put_head(&mut self, number: u32)
        ensures waits { 0 < self.new.waiting }
        ensures line { slice_get self.new.room (self.new.waiting - 1) ≡ Some 10 }
    {
        let _ = write!(self, "# {number}");
        self.put_byte(b'\n');
    }

    // A transport call with its number, as a script prints it.
    pub fn put_call(&mut self, number: u32, c: TransportCall, bytes: [u8; 16])
        ensures waits { (made : Call) → c ≡ numbers_of made → bytes ≡ padded (handed made) → 0 < self.new.waiting }
    {
        let mut line = [0u8; 57];
        let n = script_lines::put_made(&mut line, number, c, bytes);
        self.put(&line[..n]);
    }

    // A result, as a script prints it.
    pub fn put_result(&mut self, e: CallEnding)
        ensures waits { 0 < self.new.waiting }
    {
        let mut line = [0u8; 20];
        let n = script_lines::put_ending(&mut line, e);
        self.put(&line[..n]);
    }

    // What is printed for bytes that are no list.
    pub fn put_malformed(&mut self)
        ensures waits { 0 < self.new.waiting }
    {
        let mut line = [0u8; 20];
        let n = script_lines::put_malformed(&mut line);
        self.put(&line[..n]);
    }

    // A letter and bytes run together, or the letter alone if there are none.
    pub fn put_bytes(&mut self, letter: u8, bytes: &[u8])
        ensures waits { 0 < self.new.waiting }
        ensures line { slice_get self.new.room (self.new.waiting - 1) ≡ Some 10 }
    {
        self.put_byte(letter);
        if !bytes.is_empty() {
            self.put_byte(b' ');
        }
        for byte in bytes {
            self.put_hex(*byte);
        }
        self.put_byte(b'\n');
    }

    // The frame that call 23 gives.
    pub fn put_frame(&mut self, frame: CallFrame)
        ensures waits { 0 < self.new.waiting }
        ensures line { slice_get self.new.room (self.new.waiting - 1) ≡ Some 10 }
    {
        self.put(b"D ");
        for word in <[u32; 8]>::from(frame) {
            self.put_hex_word(word);
        }
        self.put_byte(b'\n');
    }

    // Whether a session is open, and what it remembers.
    pub fn put_session(&mut self, open: bool, r: Remembered)
        ensures waits { 0 < self.new.waiting }
        ensures line { slice_get self.new.room (self.new.waiting - 1) ≡ Some 10 }
    {
        self.put(if open { b"S 1 " } else { b"S 0 " });
        self.put_hex_word(r.select);
        self.put_byte(b' ');
        self.put_hex_word(if r.csw { CSW } else { UNKNOWN });
        self.put_byte(b' ');
        self.put_hex(r.apsel);
        self.put_byte(b'\n');
    }

    // The registers of a target, in the order in which they are printed.
    pub fn put_registers(&mut self, registers: [u32; 7])
        ensures waits { 0 < self.new.waiting }
        ensures line { slice_get self.new.room (self.new.waiting - 1) ≡ Some 10 }
    {
        self.put_byte(b'R');
        for register in registers {
            self.put_byte(b' ');
            self.put_hex_word(register);
        }
        self.put_byte(b'\n');
    }
}
