// The words of a transport call in flight, which its owner lends and which are updated in place, by their places; and the numbers that
// stand in them.
// Stays: `bazkondur_engine_step` is lent an engine as words of C (include/bazkondur.h), which are updated in place, so a kind or a phase is a number.

// MODE: a try of a transfer, the ABORT after it, whose answer is ignored, or a call that is no transfer.
pub const MODE: usize = 0;

// How often the call was made, this time included.
pub const TRIES: usize = 1;

// The transport call: its kind, a byte and a word; of `swj_pins` another byte too.
pub const KIND: usize = 2;

pub const BYTE: usize = 3;

pub const WORD: usize = 4;

pub const OTHER: usize = 5;

// What the call fails with after its ABORT: the kind of the error, and the ack.
pub const ERROR: usize = 5;

pub const ACK: usize = 6;

// The kinds of transport calls.
pub const TRANSFER: u32 = 0;

pub const CONNECT: u32 = 1;

pub const SEQUENCE: u32 = 2;

pub const PINS: u32 = 3;

pub const WRITE_BITS: u32 = 4;

pub const OUTPUT_ENABLE: u32 = 5;

pub const TRYING: u32 = 0;

pub const ABORTING: u32 = 1;

pub const RAW: u32 = 2;

// The ack that asks for the same transfer again.
pub const WAIT: u8 = 2;

// A transfer is tried so often: the first time and the Rust's 64 retries.
pub const MOST: u32 = 65;
