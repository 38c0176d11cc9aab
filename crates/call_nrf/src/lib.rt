// Copyright 2026 Kenta Ida
// SPDX-License-Identifier: Apache-2.0
// Ported from arm-debug/src/lib.rs of ciniml/rust-dap.

// Calls 29 to 35: protection, mass erase and flash of Nordic chips. Each function says what a call asks for next; none of them touches the line.
#![tactic(auto)]

ghost use Rattle.std.specs.Prelude.{◌≡◌, ◌-◌, ◌*◌, ◌+◌, ◌/◌, ◌%◌, ◌<◌};
ghost use Rattle.wire_memap.specs.Words.{tar_run};
ghost use Rattle.call.specs.Laws.Asks.{asks, op_then};
ghost use Rattle.call.specs.Job.{ends};
ghost use Rattle.call_nrf.specs.Nrf.{nrf_job, nrf52_approtect_status, nrf54_approtect_status, read_status, soft_reset, poll_erased, erase_all, nrf52_erase_page, programmable};
ghost use Rattle.call_nrf.specs.Laws.After.{nrf_after, phase_after, goes_on_of, on_port, leaves, after_erased, releasing, released};
ghost use Rattle.call_nrf.specs.Laws.After.{config, ready, closing, writes, finishing, programming, flashing, waiting, after_ready, flash_after, enabling};
ghost use Rattle.call_places.specs.declared.NrfAt.TheVariants as P;

mod nrf52;
mod nrf54;

use call::{Asks, Change, GoesOn, Group, changing, doing, ended, ended_after};
use call_at::At;
use call_places::{Chip, Flash, FlashStep, NrfAt, Program};
use wire::{ArmError, Outcome};
use wire_memap::Op;

// The words that are programmed are those that the caller lends.
#[derive(Clone, Copy)]
pub enum NrfCall {
    Nrf52ApprotectStatus,
    Nrf52EraseAll(u32),
    Nrf52ErasePage { addr: u32, polls: u32 },
    Nrf52Program { addr: u32, polls: u32 },
    Nrf54ApprotectStatus,
    Nrf54EraseAll(u32),
    Nrf54Program { addr: u32, polls: u32 },
}

// The address n words below `stop`.
fn words_below(stop: u32, n: u32) -> u32
    ensures { result ≡ stop - 4 * n }
{
    stop.saturating_sub(n.saturating_mul(4))
}

// As many words as fit below the next multiple of 1024, up to which every TAR goes on.
fn tar_run(addr: u32, words: u32) -> u32
    ensures { result ≡ tar_run addr words }
{
    ((1024 - addr % 1024) / 4).min(words)
}

// The operation `op`, on the access port `ap`.
fn selecting(ap: u8, at: NrfAt, op: Op) -> Asks
    ensures { on_port ap (op_then op (phase_after at)) ≡ asks result.change result.next (nrf_after result.at) }
{
    changing::<NrfCall>(Change::Apsel(ap), at, op)
}

// The call ends, and the memory's access port is selected again.
fn leaving(o: Outcome) -> Asks
    ensures { leaves o ≡ asks result.change result.next (nrf_after result.at) }
{
    ended_after(Change::Apsel(0), o)
}

// APPROTECTSTATUS is read, whether or not CTRL-AP is known.
fn status_on(known: bool) -> Asks
    ensures { read_status known ≡ asks result.change result.next (nrf_after result.at) }
{
    doing::<NrfCall>(
        NrfAt::Status(known),
        Op::ApRead {
            addr: nrf52::CTRLAP_APPROTECTSTATUS,
        },
    )
}

// APPROTECTSTATUS is read: bit 0 says that access is not protected.
fn status_by(known: bool, status: u32) -> Asks
    ensures { goes_on_of (P.Status known) status ≡ asks result.change result.next (nrf_after result.at) }
{
    let open = status % 2;
    leaving(Ok(if known { open + 2 } else { open }))
}

// The mass erase by the CTRL-AP at `ap`.
fn erase_all(ap: u8, polls: u32) -> Asks
    ensures { erase_all ap polls ≡ asks result.change result.next (nrf_after result.at) }
{
    selecting(
        ap,
        NrfAt::EraseAll(polls),
        Op::ApWrite {
            addr: nrf52::CTRLAP_ERASEALL,
            word: 1,
        },
    )
}

// The soft reset.
fn soft_reset(erased: bool) -> Asks
    ensures { soft_reset erased ≡ asks result.change result.next (nrf_after result.at) }
{
    doing::<NrfCall>(
        NrfAt::Reset(erased),
        Op::ApWrite {
            addr: nrf52::CTRLAP_RESET,
            word: 1,
        },
    )
}

// `left` more reads of ERASEALLSTATUS.
#[tactic(auto, using(crate::specs::Laws::After::erased_more), unfolding(crate::specs::Nrf::poll_erased))]
fn erased_on(left: u32) -> Asks
    ensures { poll_erased left ≡ asks result.change result.next (nrf_after result.at) }
{
    if left == 0 {
        return soft_reset(false);
    }
    doing::<NrfCall>(
        NrfAt::Erasing(left - 1),
        Op::ApRead {
            addr: nrf52::CTRLAP_ERASEALLSTATUS,
        },
    )
}

// ERASEALLSTATUS is read: the erase is over, or it is read again.
fn erased_by(left: u32, status: u32) -> Asks
    ensures { after_erased left status ≡ asks result.change result.next (nrf_after result.at) }
{
    if status % 2 == 0 {
        return soft_reset(true);
    }
    erased_on(left)
}

// The reset is released.
fn release_on(erased: bool) -> Asks
    ensures { releasing erased ≡ asks result.change result.next (nrf_after result.at) }
{
    doing::<NrfCall>(
        NrfAt::Release(erased),
        Op::ApWrite {
            addr: nrf52::CTRLAP_RESET,
            word: 0,
        },
    )
}

// After the reset the call ends by whether the erase came to its end.
fn release_by(erased: bool) -> Asks
    ensures { released erased ≡ asks result.change result.next (nrf_after result.at) }
{
    leaving(if erased {
        Ok(0)
    } else {
        Err(ArmError::CoreTimeout)
    })
}

// The register that lets a chip's flash be written.
fn config_of(chip: Chip) -> u32
    ensures { result ≡ config chip }
{
    match chip {
        Chip::Nrf52 => nrf52::NVMC_CONFIG,
        Chip::Nrf54 => nrf54::RRAMC_CONFIG,
    }
}

// The register that says whether it is ready.
fn ready_of(chip: Chip) -> u32
    ensures { result ≡ ready chip }
{
    match chip {
        Chip::Nrf52 => nrf52::NVMC_READY,
        Chip::Nrf54 => nrf54::RRAMC_READY,
    }
}

// The flash is closed for writing, by 0 on both chips, and the call ends.
fn close(chip: Chip) -> Asks
    ensures { closing chip ≡ asks result.change result.next (nrf_after result.at) }
{
    let addr = config_of(chip);
    doing::<NrfCall>(
        NrfAt::Last,
        Op::WriteWord {
            addr,
            word: nrf52::NVMC_CONFIG_REN,
        },
    )
}

// All words are written.
fn finish(chip: Chip, polls: u32) -> Asks
    ensures { finishing chip polls ≡ asks result.change result.next (nrf_after result.at) }
{
    match chip {
        Chip::Nrf52 => close(chip),
        Chip::Nrf54 => {
            let at = NrfAt::Flash {
                step: FlashStep::Settle(polls),
                chip,
                then: Flash::Close,
            };
            doing::<NrfCall>(
                at,
                Op::WriteWord {
                    addr: nrf54::RRAMC_COMMIT,
                    word: 1,
                },
            )
        }
    }
}

// A write to the flash, and what is done then. The nRF52 is waited for after it.
fn settled(chip: Chip, then: Flash, polls: u32, write: Op) -> Asks
    ensures { writes chip write polls then ≡ asks result.change result.next (nrf_after result.at) }
{
    let step = match chip {
        Chip::Nrf52 => FlashStep::Settle(polls),
        Chip::Nrf54 => FlashStep::Next,
    };
    doing::<NrfCall>(NrfAt::Flash { step, chip, then }, write)
}

// The next run of words.
#[tactic(auto, unfolding(crate::specs::Nrf::runs))]
fn words_on(chip: Chip, p: Program) -> Asks
    ensures { programming chip p ≡ asks result.change result.next (nrf_after result.at) }
{
    if p.left == 0 {
        return finish(chip, p.polls);
    }
    let addr = words_below(p.stop, p.left);
    let n = tar_run(addr, p.left);
    let more = n.saturating_sub(1);
    let place = p.len.saturating_sub(p.left);
    let then = Flash::Words(Program {
        left: p.left - 1 - more,
        ..p
    });
    settled(
        chip,
        then,
        p.polls,
        Op::WriteWords {
            addr,
            n,
            last: place + more,
        },
    )
}

// What is done with the flash, now that it is ready.
fn flash_on(chip: Chip, then: Flash) -> Asks
    ensures { flashing chip then ≡ asks result.change result.next (nrf_after result.at) }
{
    match then {
        Flash::Page { page, polls } => {
            let at = NrfAt::Flash {
                step: FlashStep::Settle(polls),
                chip,
                then: Flash::Close,
            };
            doing::<NrfCall>(
                at,
                Op::WriteWord {
                    addr: nrf52::NVMC_ERASEPAGE,
                    word: page,
                },
            )
        }
        Flash::Words(p) => words_on(chip, p),
        Flash::Close => close(chip),
    }
}

// `left` more reads of READY.
#[tactic(auto, using(crate::specs::Laws::After::waiting_more), unfolding(crate::specs::Nrf::wait_ready))]
fn wait_on(chip: Chip, then: Flash, left: u32) -> Asks
    ensures { waiting chip then left ≡ asks result.change result.next (nrf_after result.at) }
{
    if left == 0 {
        return ended(Err(ArmError::CoreTimeout));
    }
    let addr = ready_of(chip);
    doing::<NrfCall>(
        NrfAt::Flash {
            step: FlashStep::Wait(left - 1),
            chip,
            then,
        },
        Op::ReadWord { addr },
    )
}

// READY is read: the flash is ready, or it is read again.
fn ready_by(chip: Chip, then: Flash, left: u32, v: u32) -> Asks
    ensures { after_ready chip then left v ≡ asks result.change result.next (nrf_after result.at) }
{
    if v % 2 == 1 {
        return flash_on(chip, then);
    }
    wait_on(chip, then, left)
}

// The flash is opened for writing, by 1 on both chips.
#[tactic(auto, using(crate::specs::Laws::After::enabling_is))]
fn enable(chip: Chip, p: Program) -> Asks
    ensures { enabling chip p ≡ asks result.change result.next (nrf_after result.at) }
{
    let open = Op::WriteWord {
        addr: config_of(chip),
        word: nrf52::NVMC_CONFIG_WEN,
    };
    settled(chip, Flash::Words(p), p.polls, open)
}

// A program call: refused, over at once, or begun.
fn program_on(chip: Chip, addr: u32, words: usize, polls: u32) -> Asks
    ensures { programmable addr words (enabling chip (record { stop = addr + 4 * words; len = words; left = words; polls = polls }))
        ≡ asks result.change result.next (nrf_after result.at) }
{
    if words == 0 {
        return ended(Ok(0));
    }
    if addr % 4 != 0 {
        return ended(Err(ArmError::Align));
    }
    let Ok(len) = u32::try_from(words) else {
        return ended(Err(ArmError::Range));
    };
    let stop = len.checked_mul(4).and_then(|bytes| addr.checked_add(bytes));
    let Some(stop) = stop else {
        return ended(Err(ArmError::Range));
    };
    enable(
        chip,
        Program {
            stop,
            len,
            left: len,
            polls,
        },
    )
}

// A page of the nRF52 is erased.
fn erase_page(addr: u32, polls: u32) -> Asks
    ensures { nrf52_erase_page addr polls ≡ asks result.change result.next (nrf_after result.at) }
{
    let then = Flash::Page {
        page: addr - addr % nrf52::FLASH_PAGE,
        polls,
    };
    let at = NrfAt::Flash {
        step: FlashStep::Settle(polls),
        chip: Chip::Nrf52,
        then,
    };
    doing::<NrfCall>(
        at,
        Op::WriteWord {
            addr: nrf52::NVMC_CONFIG,
            word: nrf52::NVMC_CONFIG_EEN,
        },
    )
}

// What a call asks for first, with as many words as the caller lends.
#[tactic(auto, unfolding(crate::specs::Nrf::nrf_job))]
pub fn start(c: NrfCall, words: usize) -> Asks
    ensures { nrf_job c words ≡ asks result.change result.next (nrf_after result.at) }
{
    match c {
        // CTRL-AP is identified before its status is read.
        NrfCall::Nrf52ApprotectStatus => selecting(
            nrf52::CTRL_AP,
            NrfAt::Idr,
            Op::ApRead {
                addr: nrf52::CTRLAP_IDR,
            },
        ),
        NrfCall::Nrf52EraseAll(polls) => erase_all(nrf52::CTRL_AP, polls),
        NrfCall::Nrf52ErasePage { addr, polls } => erase_page(addr, polls),
        NrfCall::Nrf52Program { addr, polls } => program_on(Chip::Nrf52, addr, words, polls),
        NrfCall::Nrf54ApprotectStatus => selecting(
            nrf54::CTRL_AP,
            NrfAt::Status(false),
            Op::ApRead {
                addr: nrf52::CTRLAP_APPROTECTSTATUS,
            },
        ),
        NrfCall::Nrf54EraseAll(polls) => erase_all(nrf54::CTRL_AP, polls),
        NrfCall::Nrf54Program { addr, polls } => program_on(Chip::Nrf54, addr, words, polls),
    }
}

// What follows an operation of the flash that gave the value `v`.
fn flash_after(step: FlashStep, chip: Chip, then: Flash, v: u32) -> Asks
    ensures { flash_after step chip then v ≡ asks result.change result.next (nrf_after result.at) }
{
    match step {
        FlashStep::Settle(polls) => wait_on(chip, then, polls),
        FlashStep::Wait(left) => ready_by(chip, then, left, v),
        FlashStep::Next => flash_on(chip, then),
    }
}

impl Group for NrfCall {
    type Phase = NrfAt;

    ghost after = { phase_after };
}

impl GoesOn for NrfCall {
    fn value_after(p: NrfAt, v: u32) -> Asks {
        match p {
            NrfAt::Idr => status_on(v == nrf52::CTRLAP_IDR_VALUE),
            NrfAt::Status(known) => status_by(known, v),
            NrfAt::EraseAll(polls) => erased_on(polls),
            NrfAt::Erasing(left) => erased_by(left, v),
            NrfAt::Reset(erased) => release_on(erased),
            NrfAt::Release(erased) => release_by(erased),
            NrfAt::Flash { step, chip, then } => flash_after(step, chip, then, v),
            NrfAt::Last => ended(Ok(0)),
        }
    }

    // An error ends the call.
    fn failed_after(_p: NrfAt, e: ArmError) -> Asks {
        ended(Err(e))
    }
}

// What a call in flight asks for, now that its operation has ended.
pub fn call_after(at: At, o: Outcome) -> Asks
    ensures { nrf_after at o ≡ asks result.change result.next (nrf_after result.at) }
{
    call::call_after::<NrfCall>(at, o)
}
