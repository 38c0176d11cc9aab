// A transport call to the model target, and over the line between engine and target.
#![tactic(auto)]

ghost use Rattle.std.specs.Prelude.{◌≡◌};
ghost use Rattle.target.specs.Deliver.{exempt, barred, given, transfer, deliver};
ghost use Rattle.target.specs.Line.{line, told};

use target::{Act, Delivered, DpRegister, Register, Target};
use wire::{Call, DapError};

// Whether a register is reached although sticky is set.
fn is_exempt(reg: Register) -> bool
    ensures { result ≡ exempt reg }
{
    matches!(
        reg,
        Register::Dp(DpRegister::AbortWrite | DpRegister::DpidrRead | DpRegister::CtrlStatRead)
    )
}

// Whether a transfer is answered FAULT.
fn is_barred(reg: Register, sticky: bool) -> bool
    ensures { result ≡ barred reg sticky }
{
    sticky && !is_exempt(reg)
}

// One transfer that reaches the target.
fn transfer_to(t: Target, request: u8, word: u32, mem: &mut [u8]) -> Delivered
    ensures { (result ≡ given (transfer t mem.old request word))
        × (mem.new ≡ (transfer t mem.old request word).mem) }
{
    let reg = target::decode(request, t.select);
    if is_barred(reg, t.sticky) {
        return Delivered {
            target: t,
            answer: Err(DapError::SwdError(4)),
        };
    }
    match reg {
        Register::Dp(r) => target_dp::reach_dp(r, t, word).into(),
        Register::Ap(r) => target_ap::reach_ap(r, t, word, mem).into(),
    }
}

// A transport call that reaches the target: one that is no transfer leaves everything and is answered Ok 0.
pub fn deliver(t: Target, c: Call, mem: &mut [u8]) -> Delivered
    ensures { (result ≡ given (deliver t mem.old c)) × (mem.new ≡ (deliver t mem.old c).mem) }
{
    let Call::Transfer { request, word } = c else {
        return Delivered {
            target: t,
            answer: Ok(0),
        };
    };
    transfer_to(t, request, word, mem)
}

// A transport call over the line.
pub fn over_line(t: Target, c: Call, act: Act, mem: &mut [u8]) -> Delivered
    ensures { (result ≡ told (line t mem.old c act)) × (mem.new ≡ (line t mem.old c act).mem) }
{
    match act {
        Act::Deliver => deliver(t, c, mem),
        Act::Wait => Delivered {
            target: t,
            answer: Err(DapError::SwdError(2)),
        },
        Act::Lose { delivered, error } => {
            let target = if delivered {
                deliver(t, c, mem).target
            } else {
                t
            };
            Delivered {
                target,
                answer: Err(error.into()),
            }
        }
    }
}
