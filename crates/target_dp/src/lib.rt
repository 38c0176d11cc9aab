// Accesses to the registers of the model target's debug port.
#![tactic(auto)]

ghost use Rattle.std.specs.Prelude.{◌≡◌, false, cond, ◌≤◌};
ghost use Rattle.target.specs.DebugPort as DebugPort;
ghost use Rattle.target.specs.DebugPort.{has, powered, acked, ctrl_stat, requests, reach_dp};

use target::{Done, DpRegister, Target};

const CDBGPWRUPREQ: u32 = 0x10000000;

const CSYSPWRUPREQ: u32 = 0x40000000;

const ACKS: u32 = 0xA0000000;

const STICKYERR: u32 = 0x20;

const STKERRCLR: u32 = 4;

// A bit of a word, or 0.
fn bit_if(on: bool, bit: u32) -> u32
    ensures { (result ≡ cond on bit 0) × (result ≤ bit) }
{
    if on { bit } else { 0 }
}

// Whether both power-up requests stand.
fn is_powered(t: Target) -> bool
    ensures { result ≡ powered t }
{
    t.cdbgpwrupreq && t.csyspwrupreq
}

// Whether CTRL/STAT shows the acks.
fn is_acked(t: Target) -> bool
    ensures { result ≡ acked t }
{
    is_powered(t) && t.owed == 0
}

// What CTRL/STAT reads as.
fn ctrl_stat(t: Target) -> u32
    ensures { result ≡ ctrl_stat t }
{
    bit_if(t.cdbgpwrupreq, CDBGPWRUPREQ)
        + bit_if(t.csyspwrupreq, CSYSPWRUPREQ)
        + bit_if(is_acked(t), ACKS)
        + bit_if(t.sticky, STICKYERR)
}

// The target after a write of CTRL/STAT.
fn requested(t: Target, word: u32) -> Target
    ensures { result ≡ requests t word }
{
    let u = Target {
        cdbgpwrupreq: word / CDBGPWRUPREQ % 2 == 1,
        csyspwrupreq: word / CSYSPWRUPREQ % 2 == 1,
        ..t
    };
    if !is_powered(t) && is_powered(u) {
        Target { owed: t.d, ..u }
    } else {
        u
    }
}

// Sticky after a write of ABORT.
fn cleared(sticky: bool, word: u32) -> bool
    ensures { result ≡ cond (has DebugPort.STKERRCLR word) false sticky }
{
    word / STKERRCLR % 2 != 1 && sticky
}

// An access to a register of the debug port.
pub fn reach_dp(reg: DpRegister, t: Target, word: u32) -> Done
    ensures { result ≡ reach_dp reg t word }
{
    match reg {
        DpRegister::AbortWrite => {
            let sticky = cleared(t.sticky, word);
            Done::new(0, Target { sticky, ..t })
        }
        DpRegister::DpidrRead => Done::new(t.dpidr, t),
        DpRegister::CtrlStatWrite => Done::new(0, requested(t, word)),
        DpRegister::CtrlStatRead => {
            let owed = t.owed.saturating_sub(1);
            Done::new(ctrl_stat(t), Target { owed, ..t })
        }
        DpRegister::SelectWrite => Done::new(0, Target { select: word, ..t }),
        DpRegister::RdbuffRead => Done::new(t.rdbuff, t),
        DpRegister::OtherRead | DpRegister::OtherWrite => Done::new(0, t),
    }
}
