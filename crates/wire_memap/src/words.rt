// The words of an operation in flight, which its owner lends and which are updated in place, by their places; and the numbers that
// stand in them.
// Stays: `bazkondur_engine_step` is lent an engine as words of C (include/bazkondur.h), which are updated in place, so a kind or a phase is a number.

// PHASE: which access is in flight, and 16 more while SELECT goes before it.
pub const PHASE: usize = 0;

// A run: how many more words, and the place of its last in the row.
pub const LEFT: usize = 1;

pub const LAST: usize = 2;

// What is done once CSW and TAR stand, at which address, with which word.
pub const TASK: usize = 3;

pub const ADDR: usize = 4;

pub const DATA: usize = 5;

// The access's own transfer while SELECT goes before it, and what SELECT becomes.
pub const REQUEST: usize = 6;

pub const WORD: usize = 7;

pub const WANT: usize = 8;

// What is remembered: SELECT, whether CSW is known (1), APSEL.
pub const SELECT: usize = 9;

pub const CSW: usize = 10;

pub const APSEL: usize = 11;

// The phases. An operation is over after one of the first three; after the others one more access follows.
pub const ONLY: u32 = 0;

pub const UNIT: u32 = 1;

pub const LAST_READ: u32 = 2;

pub const PULL: u32 = 3;

pub const PUSH: u32 = 4;

pub const POSTED: u32 = 5;

pub const CSW_SENT: u32 = 6;

pub const TAR_SENT: u32 = 7;

pub const SENT: u32 = 8;

pub const FIRST: u32 = 9;

pub const SELECTING: u32 = 16;

// Registers of the access port.
pub const CSW_ADDR: u8 = 0x0;

pub const TAR: u8 = 0x4;

pub const DRW: u8 = 0xC;

// Requests of transfers.
pub const CSW_WRITE: u32 = 1;

pub const TAR_WRITE: u32 = 5;

pub const SELECT_WRITE: u32 = 8;

pub const DRW_WRITE: u32 = 13;

pub const RDBUFF_READ: u32 = 14;

pub const DRW_READ: u32 = 15;

// What is done once CSW and TAR stand.
pub const READ_WORD: u32 = 0;

pub const WRITE_WORD: u32 = 1;

pub const READ_WORDS: u32 = 2;

pub const WRITE_WORDS: u32 = 3;

// Words, TAR advancing by itself, and the bits that the Rust sets besides.
pub const CSW_DEFAULT: u32 = 0x23000012;
