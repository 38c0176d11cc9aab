// Copyright 2026 Kenta Ida
// SPDX-License-Identifier: Apache-2.0
// Ported from arm-debug/src/lib.rs of ciniml/rust-dap.

// Transport calls and their answers, errors and outcomes, and what the engine remembers; each by number where it stands in a word.
#![tactic(auto)]

ghost use Rattle.std.specs.Prelude.{◌≡◌, ◌%◌, ◌≤◌, take};
ghost use Rattle.wire.specs.Bytes.{pattern_no, pattern_at, pattern_bytes, padded};
ghost use Rattle.wire.specs.Outcomes.{arm_error};
ghost use Rattle.wire.specs.Laws.Told.{error_of, outcome_of};

// What the engine remembers of the target. SELECT 0xFFFFFFFF means unknown.
#[derive(Clone, Copy)]
pub struct Remembered {
    pub select: u32,
    pub csw: bool,
    pub apsel: u8,
}

// The fixed rows of bits that `swj_sequence` sends.
#[derive(Clone, Copy)]
pub enum Pattern {
    ResetHigh,
    ResetIdle,
    JtagToSwd,
    SwdToDormant,
    AlertHigh,
    SelectionAlert,
    AlertIdle,
    SwdActivation,
}

// A transport call, as `DapTransport` has them.
#[derive(Clone, Copy)]
pub enum Call {
    Transfer {
        request: u8,
        word: u32,
    },
    Connect,
    Sequence(Pattern),
    Pins {
        output: u8,
        select: u8,
        wait_us: u32,
    },
    WriteBits {
        bits: u8,
        word: u32,
    },
    OutputEnable,
}

// Why the probe did not make a transport call, as `DapTransport` says it.
#[derive(Clone, Copy, PartialEq, Eq)]
pub enum DapError {
    SwdError(u8),
    NotSupported,
    Other,
}

// What the transport says: a word, or an error.
pub type Answer = Result<u32, DapError>;

// The Rust's errors, and what 01 adds for the engine: Range, Align, TableEnd.
#[derive(Clone, Copy)]
pub enum ArmError {
    Transfer(u8),
    Wait,
    NotSupported,
    PowerUpTimeout,
    CoreTimeout,
    NoTarget,
    Internal,
    Range,
    Align,
    TableEnd,
}

// How an operation or a call ended: with a value, or with an error.
pub type Outcome = Result<u32, ArmError>;

// The bytes of the fixed sequences, first byte first.
const RESET_HIGH: [u8; 8] = [0xFF; 8];

const RESET_IDLE: [u8; 1] = [0x00];

const JTAG_TO_SWD: [u8; 2] = [0x9E, 0xE7];

const SWD_TO_DORMANT: [u8; 2] = [0xBC, 0xE3];

const ALERT_HIGH: [u8; 1] = [0xFF];

const SELECTION_ALERT: [u8; 16] = [
    0x92, 0xF3, 0x09, 0x62, 0x95, 0x2D, 0x85, 0x86, 0xE9, 0xAF, 0xDD, 0xE3, 0xA2, 0x0E, 0xBC, 0x19,
];

const ALERT_IDLE: [u8; 1] = [0x00];

const SWD_ACTIVATION: [u8; 1] = [0x1A];

// Bytes as they stand in an array of 16: zeros after them. What does not fit is left out.
pub fn padded(bytes: &[u8]) -> [u8; 16]
    ensures { result ≡ padded (take 16 bytes.now) }
{
    let n = bytes.len().min(16);
    let mut all = [0u8; 16];
    all[..n].copy_from_slice(&bytes[..n]);
    all
}

// The bytes of a fixed sequence, first byte first.
pub fn pattern_bytes(p: Pattern) -> [u8; 16]
    ensures { result ≡ padded (pattern_bytes p) }
{
    match p {
        Pattern::ResetHigh => padded(&RESET_HIGH),
        Pattern::ResetIdle => padded(&RESET_IDLE),
        Pattern::JtagToSwd => padded(&JTAG_TO_SWD),
        Pattern::SwdToDormant => padded(&SWD_TO_DORMANT),
        Pattern::AlertHigh => padded(&ALERT_HIGH),
        Pattern::SelectionAlert => padded(&SELECTION_ALERT),
        Pattern::AlertIdle => padded(&ALERT_IDLE),
        Pattern::SwdActivation => padded(&SWD_ACTIVATION),
    }
}

// An error or an outcome as two numbers.
#[derive(Clone, Copy)]
pub struct Told {
    pub number: u32,
    pub value: u32,
}

impl Told {
    fn error(number: u32) -> Told
        ensures { result ≡ record { number = number; value = 0 } }
    {
        Told { number, value: 0 }
    }
}

impl From<ArmError> for Told {
    ghost from_gives = { λ e told. (error_of told.number told.value ≡ e) × (told.number ≤ 9) };

    fn from(e: ArmError) -> Told {
        match e {
            ArmError::Transfer(ack) => Told {
                number: 0,
                value: u32::from(ack),
            },
            ArmError::Wait => Told::error(1),
            ArmError::NotSupported => Told::error(2),
            ArmError::PowerUpTimeout => Told::error(3),
            ArmError::CoreTimeout => Told::error(4),
            ArmError::NoTarget => Told::error(5),
            ArmError::Internal => Told::error(6),
            ArmError::Range => Told::error(7),
            ArmError::Align => Told::error(8),
            ArmError::TableEnd => Told::error(9),
        }
    }
}

// The error that two numbers stand for.
impl From<Told> for ArmError {
    ghost from_gives = { λ told e. e ≡ error_of told.number told.value };

    fn from(told: Told) -> ArmError {
        match told.number {
            0 => ArmError::Transfer((told.value % 256) as u8),
            1 => ArmError::Wait,
            2 => ArmError::NotSupported,
            3 => ArmError::PowerUpTimeout,
            4 => ArmError::CoreTimeout,
            5 => ArmError::NoTarget,
            6 => ArmError::Internal,
            7 => ArmError::Range,
            8 => ArmError::Align,
            _ => ArmError::TableEnd,
        }
    }
}

impl From<Outcome> for Told {
    ghost from_gives = { λ o told. outcome_of told.number told.value ≡ o };

    fn from(o: Outcome) -> Told {
        match o {
            Ok(v) => Told {
                number: 10,
                value: v,
            },
            Err(e) => Told::from(e),
        }
    }
}

// The outcome that two numbers stand for.
impl From<Told> for Outcome {
    ghost from_gives = { λ told o. o ≡ outcome_of told.number told.value };

    fn from(told: Told) -> Outcome {
        if told.number == 10 {
            return Ok(told.value);
        }
        Err(ArmError::from(told))
    }
}

// What the probe could not do, as the Rust's error.
impl From<DapError> for ArmError {
    ghost from_gives = { λ e error. error ≡ arm_error e };

    fn from(e: DapError) -> ArmError {
        match e {
            DapError::SwdError(ack) => ArmError::Transfer(ack),
            DapError::NotSupported => ArmError::NotSupported,
            DapError::Other => ArmError::Internal,
        }
    }
}

// The fixed sequences by number.
impl From<Pattern> for u32 {
    ghost from_gives = { λ p n. (n ≡ pattern_no p) × (n ≤ 7) × (pattern_at n ≡ p) };

    fn from(p: Pattern) -> u32 {
        p as u32
    }
}

impl From<u32> for Pattern {
    ghost from_gives = { λ n p. p ≡ pattern_at n };

    fn from(n: u32) -> Pattern {
        match n {
            0 => Pattern::ResetHigh,
            1 => Pattern::ResetIdle,
            2 => Pattern::JtagToSwd,
            3 => Pattern::SwdToDormant,
            4 => Pattern::AlertHigh,
            5 => Pattern::SelectionAlert,
            6 => Pattern::AlertIdle,
            _ => Pattern::SwdActivation,
        }
    }
}
