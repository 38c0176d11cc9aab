// The model target of ADIv5.2, a debug port and a MEM-AP over lent memory: its types, its memory, the register that a request
// reaches, and what the line does as numbers. `target_dp` and `target_ap` have the accesses to registers, `target_line` a transport call to the target and over the line.
#![tactic(auto)]

ghost use Rattle.std.specs.Prelude.{◌≡◌, ◌+◌, ◌≤◌, Err, length};
ghost use Rattle.target.specs.Memory.{byte_at, in_memory, load, store, loaded, stored};
ghost use Rattle.target.specs.Decode.{bank_of, register_of};
ghost use Rattle.target.specs.DebugPort.{done};
ghost use Rattle.target.specs.Deliver.{good};
ghost use Rattle.target.specs.Line.{error_of, loss_of, act_of};

use wire::{Answer, DapError};

// DPIDR, d, the increment's width and the memory's base are fixed for a target, the rest starts arbitrary. `owed` counts the
// reads of CTRL/STAT that do not show the acks yet; d is what a power-up owes. Of TAR the low `width` bits are incremented, 10 to 32.
#[derive(Clone, Copy)]
pub struct Target {
    pub dpidr: u32,
    pub d: u32,
    pub width: u32,
    pub base: u32,
    pub select: u32,
    pub cdbgpwrupreq: bool,
    pub csyspwrupreq: bool,
    pub owed: u32,
    pub sticky: bool,
    pub rdbuff: u32,
    pub csw: u32,
    pub tar: u32,
}

// The registers of the debug port, each with the direction that reaches it.
#[derive(Clone, Copy)]
pub enum DpRegister {
    AbortWrite,
    DpidrRead,
    CtrlStatWrite,
    CtrlStatRead,
    SelectWrite,
    RdbuffRead,
    OtherRead,
    OtherWrite,
}

// The registers of the access ports, likewise.
#[derive(Clone, Copy)]
pub enum ApRegister {
    CswWrite,
    CswRead,
    TarWrite,
    TarRead,
    DrwWrite,
    DrwRead,
    OtherRead,
    OtherWrite,
}

#[derive(Clone, Copy)]
pub enum Register {
    Dp(DpRegister),
    Ap(ApRegister),
}

// An access that was done: the value answered and the target after it.
#[derive(Clone, Copy)]
pub struct Done {
    pub value: u32,
    pub target: Target,
}

// What the engine gets of a transport call, and the target after it.
#[derive(Clone, Copy)]
pub struct Delivered {
    pub target: Target,
    pub answer: Answer,
}

// The error of a lost transport call.
#[derive(Clone, Copy)]
pub enum Loss {
    Ack(u8),
    NotSupported,
    Other,
}

// What the line does with a transport call.
#[derive(Clone, Copy)]
pub enum Act {
    Deliver,
    Wait,
    Lose { delivered: bool, error: Loss },
}

// Stays: load_word and store_word as functions over target and memory, which docs/DECISIONS.md names so; the others go with them.
// The byte of memory at an address, if it has one there.
pub fn byte_at(t: Target, mem: &[u8], addr: u32) -> Option<u8>
    ensures { result ≡ byte_at t mem.now addr }
{
    let i = addr.checked_sub(t.base)?;
    mem.get(i as usize).copied()
}

// Whether memory has all four bytes from an address on.
fn in_memory(t: Target, at: u32, mem: &[u8]) -> bool
    ensures { result ≡ in_memory t mem.now at }
{
    t.base <= at && (at - t.base) as usize + 4 <= mem.len()
}

// The word at an address that is in memory.
fn word_at(t: Target, at: u32, mem: &[u8]) -> u32
    requires { (t.base ≤ at) × (at + 4 ≤ t.base + length mem.now) }
    ensures { result ≡ load t mem.now at }
{
    let i = (at - t.base) as usize;
    u32::from_le_bytes([mem[i], mem[i + 1], mem[i + 2], mem[i + 3]])
}

// Stores a word at such an address.
fn put_word(t: Target, at: u32, word: u32, mem: &mut [u8])
    requires { (t.base ≤ at) × (at + 4 ≤ t.base + length mem.old) }
    ensures { mem.new ≡ store t mem.old at word }
{
    let i = (at - t.base) as usize;
    mem[i..i + 4].copy_from_slice(&word.to_le_bytes());
}

// The word of memory at an address, if it has all of it.
pub fn load_word(t: Target, at: u32, mem: &[u8]) -> Option<u32>
    ensures { result ≡ loaded t mem.now at }
{
    if in_memory(t, at, mem) {
        Some(word_at(t, at, mem))
    } else {
        None
    }
}

// Stores a word where memory has all of it, and says whether it has.
pub fn store_word(t: Target, at: u32, word: u32, mem: &mut [u8]) -> bool
    ensures { (result ≡ in_memory t mem.old at) × (mem.new ≡ stored t mem.old at word) }
{
    let has = in_memory(t, at, &*mem);
    if has {
        put_word(t, at, word, mem);
    }
    has
}

// The bank that SELECT names for a request: DPBANKSEL, or APSEL and APBANKSEL as one number.
fn bank(request: u8, select: u32) -> u32
    ensures { result ≡ bank_of request select }
{
    if request % 2 == 0 {
        select % 16
    } else {
        select / 0x1000000 * 16 + select / 16 % 16
    }
}

// The register that a request reaches.
pub fn decode(request: u8, select: u32) -> Register
    ensures { result ≡ register_of request select }
{
    match (request % 16, bank(request, select)) {
        (0x0, _) => Register::Dp(DpRegister::AbortWrite),
        (0x1, 0) => Register::Ap(ApRegister::CswWrite),
        (0x1, 1..) => Register::Ap(ApRegister::OtherWrite),
        (0x2, _) => Register::Dp(DpRegister::DpidrRead),
        (0x3, 0) => Register::Ap(ApRegister::CswRead),
        (0x3, 1..) => Register::Ap(ApRegister::OtherRead),
        (0x4, 0) => Register::Dp(DpRegister::CtrlStatWrite),
        (0x4, 1..) => Register::Dp(DpRegister::OtherWrite),
        (0x5, 0) => Register::Ap(ApRegister::TarWrite),
        (0x5, 1..) => Register::Ap(ApRegister::OtherWrite),
        (0x6, 0) => Register::Dp(DpRegister::CtrlStatRead),
        (0x6, 1..) => Register::Dp(DpRegister::OtherRead),
        (0x7, 0) => Register::Ap(ApRegister::TarRead),
        (0x7, 1..) => Register::Ap(ApRegister::OtherRead),
        (0x8, _) => Register::Dp(DpRegister::SelectWrite),
        (0x9, _) => Register::Ap(ApRegister::OtherWrite),
        (0xA, _) => Register::Dp(DpRegister::OtherRead),
        (0xB, _) => Register::Ap(ApRegister::OtherRead),
        (0xC, _) => Register::Dp(DpRegister::OtherWrite),
        (0xD, 0) => Register::Ap(ApRegister::DrwWrite),
        (0xD, 1..) => Register::Ap(ApRegister::OtherWrite),
        (0xE, _) => Register::Dp(DpRegister::RdbuffRead),
        (0xF.., 0) => Register::Ap(ApRegister::DrwRead),
        (0xF.., 1..) => Register::Ap(ApRegister::OtherRead),
    }
}

impl Done {
    // An access that was done.
    pub fn new(value: u32, target: Target) -> Done
        ensures { result ≡ done value target }
    {
        Done { value, target }
    }
}

// A done access as the engine hears of it.
impl From<Done> for Delivered {
    ghost from_gives = { λ d x. x ≡ good d };

    fn from(d: Done) -> Delivered {
        Delivered {
            target: d.target,
            answer: Ok(d.value),
        }
    }
}

// What the engine gets of a loss. Acks 2 and 4 would be WAIT and FAULT, so that no loss shows them: they stand for 7, what
// a line that nobody drives reads as.
impl From<Loss> for DapError {
    ghost from_gives = { λ e a. Err a ≡ error_of e };

    fn from(e: Loss) -> DapError {
        match e {
            Loss::Ack(2 | 4) => DapError::SwdError(7),
            Loss::Ack(k) => DapError::SwdError(k),
            Loss::NotSupported => DapError::NotSupported,
            Loss::Other => DapError::Other,
        }
    }
}

// The error of a lost transport call by its number.
impl From<u32> for Loss {
    ghost from_gives = { λ k e. e ≡ loss_of k };

    fn from(k: u32) -> Loss {
        match k {
            0..=255 => Loss::Ack(k as u8),
            256 => Loss::NotSupported,
            _ => Loss::Other,
        }
    }
}

// What the line does, by its number.
impl From<u32> for Act {
    ghost from_gives = { λ x a. a ≡ act_of x };

    fn from(x: u32) -> Act {
        match x % 4 {
            0 => Act::Deliver,
            1 => Act::Wait,
            k => Act::Lose {
                delivered: k == 2,
                error: (x / 4).into(),
            },
        }
    }
}
