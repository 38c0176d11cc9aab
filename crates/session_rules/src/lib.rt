// What a session refuses before any transport call is made: one ordered function over the facts of a call, in numbers.
#![tactic(auto)]

ghost use Rattle.std.specs.Prelude.{◌≡◌, Ok};
ghost use Rattle.session_rules.specs.Refusals.{admitted, aligned, ranged, unless, refusal, refusal_number};

use session_phase::Kind;

// How the address of a call has to lie: anywhere, at a halfword, at a word.
#[derive(Clone, Copy)]
pub enum Align {
    Any,
    Half,
    Word,
}

// What a session knows of a call before it starts. `spans`: the caller's buffer lies from the address on.
#[derive(Clone, Copy)]
pub struct Facts {
    pub kind: Kind,
    pub align: Align,
    pub addr: u32,
    pub spans: bool,
}

// Why a session refuses a call.
#[derive(Clone, Copy)]
pub enum Refusal {
    NoSession,
    Align,
    Range,
}

// 01's number of a refusal.
impl From<Refusal> for u8 {
    ghost from_gives = { λ x n. n ≡ refusal_number x };

    fn from(x: Refusal) -> u8 {
        match x {
            Refusal::NoSession => 10,
            Refusal::Align => 9,
            Refusal::Range => 8,
        }
    }
}

// A closed session admits a connect alone.
fn is_admitted(now_open: bool, kind: Kind) -> bool
    ensures { result ≡ admitted now_open kind }
{
    now_open || matches!(kind, Kind::Connect)
}

// Whether an address lies as it has to.
fn is_aligned(align: Align, addr: u32) -> bool
    ensures { result ≡ aligned align addr }
{
    match align {
        Align::Any => true,
        Align::Half => addr % 2 == 0,
        Align::Word => addr % 4 == 0,
    }
}

// As many addresses as a target has: 2^32.
const ADDRESSES: usize = 0x100000000;

// A buffer that lies from an address on ends below 2^32.
fn is_ranged(spans: bool, addr: u32, bytes: usize) -> bool
    ensures { result ≡ ranged spans addr bytes }
{
    !spans || bytes < ADDRESSES - addr as usize
}

// What a call has to be, or why it is refused.
fn require(good: bool, x: Refusal) -> Result<(), Refusal>
    ensures { result ≡ unless good x (Ok tt) }
{
    if good { Ok(()) } else { Err(x) }
}

// The checks in 01's order: 10, 9, 8. `bytes`: as many as the caller's buffer has.
pub fn check_call(now_open: bool, f: Facts, bytes: usize) -> Result<(), Refusal>
    ensures { result ≡ refusal now_open f bytes }
{
    require(is_admitted(now_open, f.kind), Refusal::NoSession)?;
    require(is_aligned(f.align, f.addr), Refusal::Align)?;
    require(is_ranged(f.spans, f.addr, bytes), Refusal::Range)
}
