// Where a call stands, and the same in numbers: calls of the core, of breakpoints, of Nordic chips.
#![tactic(auto)]

ghost use Rattle.std.specs.Prelude.{◌≡◌, ◌/◌, ◌%◌, ◌<◌, eqb};
ghost use Rattle.call_places.specs.declared.CoreAt.TheVariants.{Access};
ghost use Rattle.call_places.specs.declared.FpbAt.TheVariants.{Seek};
ghost use Rattle.call_places.specs.declared.NrfAt.TheVariants as P;
ghost use Rattle.call_places.specs.Laws.Core.{access_of, find_of, run_of, plan_of, then_of, core_at_of};
ghost use Rattle.call_places.specs.Laws.Fpb.{fpb_at_of};
ghost use Rattle.call_places.specs.Laws.Nrf.{chip_of, step_of, flash_of, nrf_at_of};

use call_at::{At, Packed, at_step};
use wire::{Outcome, Told};

// What DHCSR is read for: the core's halt, or a register that is being read or written.
#[derive(Clone, Copy)]
pub enum Wait {
    Halt,
    Read,
    Write,
}

// Which operation of an access to the core is in flight. `Whole`: its outcome is the access's. `Asked`: a write that a wait
// follows. `Data`: DCRDR's write, for that register.
#[derive(Clone, Copy)]
pub enum AccessAt {
    Whole,
    Halted,
    Asked(Wait),
    Poll { wait: Wait, left: u32 },
    Data(u8),
}

// An entry of the bootrom's table, with `left` entries from it on.
#[derive(Clone, Copy)]
pub struct Search {
    pub want: u32,
    pub table: u16,
    pub left: u16,
}

// Which read of a search is in flight: of the pointers, of an entry in one word, or of the first or second of its two words.
#[derive(Clone, Copy)]
pub enum FindStep {
    Table,
    Entry,
    Low,
    High,
}

// How a function's call goes on: `finish` with its second half, within so many polls.
#[derive(Clone, Copy)]
pub struct Plan {
    pub trampoline: u32,
    pub finish: bool,
    pub polls: u32,
}

// Which operation of a function's first half is in flight, besides the registers: the trampoline's write, DHCSR's two
// writes, or a look whether the core runs.
#[derive(Clone, Copy)]
pub enum RunStep {
    Planted,
    Masked,
    Released,
    Look,
}

// What an access is for: the call itself, or a part of a function's call; `left` registers from its own on.
#[derive(Clone, Copy)]
pub enum Then {
    End,
    Save { left: u32, plan: Plan },
    Set { left: u32, plan: Plan },
    Result,
    Restore { left: u32, value: u32 },
}

// Which operation of a call is in flight. `Wait`: a poll for a function's end, `left` more after it. `Over`: the writes of
// DHCSR that follow, whatever came of the wait.
#[derive(Clone, Copy)]
pub enum CoreAt {
    Access {
        at: AccessAt,
        then: Then,
    },
    Find {
        step: FindStep,
        low: u32,
        search: Search,
    },
    Run {
        step: RunStep,
        left: u32,
        plan: Plan,
    },
    Wait(u32),
    Over {
        unmasked: bool,
        waited: Outcome,
    },
}

// Which of several things stands here, and the value that it has.
#[derive(Clone, Copy)]
struct Numbers {
    kind: u32,
    n: u32,
}

// A number and a flag in one.
fn with_flag(kind: u32, flag: bool) -> u32
    requires { kind < 16 }
    ensures { (result / 2 ≡ kind) × (eqb (result % 2) 1 ≡ flag) }
{
    2 * kind + u32::from(flag)
}

// Stays: numbers for phases and for what stands in them, here and below: the words of a session hold them, and any words are some phase.
impl Packed<Numbers> for AccessAt {
    ghost told = { λ x. access_of x.kind x.n };

    fn pack(self) -> Numbers
        ensures { (access_of result.kind result.n ≡ self) × (result.kind < 16) }
    {
        match self {
            AccessAt::Whole => Numbers { kind: 0, n: 0 },
            AccessAt::Halted => Numbers { kind: 1, n: 0 },
            AccessAt::Asked(Wait::Halt) => Numbers { kind: 2, n: 0 },
            AccessAt::Asked(Wait::Read) => Numbers { kind: 3, n: 0 },
            AccessAt::Asked(Wait::Write) => Numbers { kind: 4, n: 0 },
            AccessAt::Poll { wait, left: n } => match wait {
                Wait::Halt => Numbers { kind: 5, n },
                Wait::Read => Numbers { kind: 6, n },
                Wait::Write => Numbers { kind: 7, n },
            },
            AccessAt::Data(reg) => Numbers {
                kind: 8,
                n: reg.pack(),
            },
        }
    }

    fn unpack(x: Numbers) -> AccessAt {
        let left = x.n;
        match x.kind {
            0 => AccessAt::Whole,
            1 => AccessAt::Halted,
            2 => AccessAt::Asked(Wait::Halt),
            3 => AccessAt::Asked(Wait::Read),
            4 => AccessAt::Asked(Wait::Write),
            5 => AccessAt::Poll {
                wait: Wait::Halt,
                left,
            },
            6 => AccessAt::Poll {
                wait: Wait::Read,
                left,
            },
            7 => AccessAt::Poll {
                wait: Wait::Write,
                left,
            },
            _ => AccessAt::Data(u8::unpack(left)),
        }
    }
}

impl Packed<u32> for FindStep {
    ghost told = { λ n. find_of n };

    fn pack(self) -> u32 {
        match self {
            FindStep::Table => 0,
            FindStep::Entry => 1,
            FindStep::Low => 2,
            FindStep::High => 3,
        }
    }

    fn unpack(n: u32) -> FindStep {
        match n {
            0 => FindStep::Table,
            1 => FindStep::Entry,
            2 => FindStep::Low,
            _ => FindStep::High,
        }
    }
}

impl Packed<u32> for RunStep {
    ghost told = { λ n. run_of n };

    fn pack(self) -> u32
        ensures { (run_of result ≡ self) × (result < 16) }
    {
        match self {
            RunStep::Planted => 0,
            RunStep::Masked => 1,
            RunStep::Released => 2,
            RunStep::Look => 3,
        }
    }

    fn unpack(n: u32) -> RunStep {
        match n {
            0 => RunStep::Planted,
            1 => RunStep::Masked,
            2 => RunStep::Released,
            _ => RunStep::Look,
        }
    }
}

// An access in flight, in numbers: what it is for counts by 8.
fn pack_access(at: AccessAt, then: Then) -> At
    ensures { core_at_of result ≡ Access at then }
{
    let x = at.pack();
    match then {
        Then::End => at_step(0, x.n, 0, 0, 0, with_flag(x.kind, false)),
        Then::Save { left, plan } => at_step(
            8,
            x.n,
            left,
            plan.trampoline,
            plan.polls,
            with_flag(x.kind, plan.finish),
        ),
        Then::Set { left, plan } => at_step(
            16,
            x.n,
            left,
            plan.trampoline,
            plan.polls,
            with_flag(x.kind, plan.finish),
        ),
        Then::Result => at_step(24, x.n, 0, 0, 0, with_flag(x.kind, false)),
        Then::Restore { left, value } => at_step(32, x.n, left, value, 0, with_flag(x.kind, false)),
    }
}

// Which operation is in flight, in numbers.
pub fn pack_core(p: CoreAt) -> At
    ensures { core_at_of result ≡ p }
{
    match p {
        CoreAt::Access { at, then } => pack_access(at, then),
        CoreAt::Find { step, low, search } => at_step(
            1,
            low,
            search.want,
            search.table.pack(),
            search.left.pack(),
            step.pack(),
        ),
        CoreAt::Run { step, left, plan } => at_step(
            2,
            left,
            0,
            plan.trampoline,
            plan.polls,
            with_flag(step.pack(), plan.finish),
        ),
        CoreAt::Wait(left) => at_step(3, left, 0, 0, 0, 0),
        CoreAt::Over { unmasked, waited } => {
            let w = Told::from(waited);
            at_step(4, w.value, w.number, 0, 0, unmasked.pack())
        }
    }
}

fn plan_of(at: At) -> Plan
    ensures { result ≡ plan_of at }
{
    Plan {
        trampoline: at.c,
        finish: bool::unpack(at.e % 2),
        polls: at.d,
    }
}

// What an access in flight is for.
fn then_of(at: At) -> Then
    ensures { result ≡ then_of at }
{
    let n = at.step / 8 % 8;
    match n {
        0 => Then::End,
        1 => Then::Save {
            left: at.b,
            plan: plan_of(at),
        },
        2 => Then::Set {
            left: at.b,
            plan: plan_of(at),
        },
        3 => Then::Result,
        _ => Then::Restore {
            left: at.b,
            value: at.c,
        },
    }
}

// Which operation is in flight.
pub fn unpack_core(at: At) -> CoreAt
    ensures { result ≡ core_at_of at }
{
    let n = at.step % 8;
    match n {
        0 => CoreAt::Access {
            at: AccessAt::unpack(Numbers {
                kind: at.e / 2,
                n: at.a,
            }),
            then: then_of(at),
        },
        1 => CoreAt::Find {
            step: FindStep::unpack(at.e),
            low: at.a,
            search: Search {
                want: at.b,
                table: u16::unpack(at.c),
                left: u16::unpack(at.d),
            },
        },
        2 => CoreAt::Run {
            step: RunStep::unpack(at.e / 2),
            left: at.a,
            plan: plan_of(at),
        },
        3 => CoreAt::Wait(at.a),
        _ => CoreAt::Over {
            unmasked: bool::unpack(at.e),
            waited: Outcome::from(Told {
                number: at.b,
                value: at.a,
            }),
        },
    }
}

impl Packed<At> for CoreAt {
    ghost told = { λ at. core_at_of at };

    fn pack(self) -> At {
        pack_core(self)
    }

    fn unpack(at: At) -> CoreAt {
        unpack_core(at)
    }
}

// Which operation of a call is in flight. `left` of `n` comparators are still to come, the one in flight among them.
// `Write`: the last operation of a call that then answers yes.
#[derive(Clone, Copy)]
pub enum FpbAt {
    SetCtrl(u32),
    Enable {
        value: u32,
        n: u8,
    },
    Seek {
        value: u32,
        n: u8,
        left: u8,
        free: Option<u8>,
    },
    Revision {
        clears: bool,
        addr: u32,
    },
    Count {
        clears: bool,
        value: u32,
    },
    Find {
        clears: bool,
        value: u32,
        n: u8,
        left: u8,
    },
    Write,
}

// A search for a comparator, in numbers.
fn pack_seek(value: u32, n: u8, left: u8, free: Option<u8>) -> At
    ensures { fpb_at_of result ≡ Seek value n left free }
{
    match free {
        None => at_step(2, value, n.pack(), left.pack(), 0, 0),
        Some(i) => at_step(3, value, n.pack(), left.pack(), i.pack(), 0),
    }
}

// Which operation is in flight, in numbers.
pub fn pack_fpb(p: FpbAt) -> At
    ensures { fpb_at_of result ≡ p }
{
    match p {
        FpbAt::SetCtrl(addr) => at_step(0, addr, 0, 0, 0, 0),
        FpbAt::Enable { value, n } => at_step(1, value, n.pack(), 0, 0, 0),
        FpbAt::Seek {
            value,
            n,
            left,
            free,
        } => pack_seek(value, n, left, free),
        FpbAt::Revision { clears, addr } => at_step(4, addr, 0, 0, clears.pack(), 0),
        FpbAt::Count { clears, value } => at_step(5, value, 0, 0, clears.pack(), 0),
        FpbAt::Find {
            clears,
            value,
            n,
            left,
        } => at_step(6, value, n.pack(), left.pack(), clears.pack(), 0),
        FpbAt::Write => at_step(7, 0, 0, 0, 0, 0),
    }
}

// Which operation is in flight.
pub fn unpack_fpb(at: At) -> FpbAt
    ensures { result ≡ fpb_at_of at }
{
    let value = at.a;
    let n = u8::unpack(at.b);
    let left = u8::unpack(at.c);
    let clears = bool::unpack(at.d);
    let phase = at.step % 32;
    match phase {
        0 => FpbAt::SetCtrl(value),
        1 => FpbAt::Enable { value, n },
        2 => FpbAt::Seek {
            value,
            n,
            left,
            free: None,
        },
        3 => FpbAt::Seek {
            value,
            n,
            left,
            free: Some(u8::unpack(at.d)),
        },
        4 => FpbAt::Revision {
            clears,
            addr: value,
        },
        5 => FpbAt::Count { clears, value },
        6 => FpbAt::Find {
            clears,
            value,
            n,
            left,
        },
        _ => FpbAt::Write,
    }
}

impl Packed<At> for FpbAt {
    ghost told = { λ at. fpb_at_of at };

    fn pack(self) -> At {
        pack_fpb(self)
    }

    fn unpack(at: At) -> FpbAt {
        unpack_fpb(at)
    }
}

#[derive(Clone, Copy)]
pub enum Chip {
    Nrf52,
    Nrf54,
}

// `left` of `len` words to go, up to the address `stop`; each wait has `polls` reads.
#[derive(Clone, Copy)]
pub struct Program {
    pub stop: u32,
    pub len: u32,
    pub left: u32,
    pub polls: u32,
}

// What is done next with the flash: a page is erased, words are written, or it is closed for writing.
#[derive(Clone, Copy)]
pub enum Flash {
    Page { page: u32, polls: u32 },
    Words(Program),
    Close,
}

// What waits for the flash before `then`. `Settle`: a write, after which so many reads wait for READY. `Wait`: one of these, with
// so many more. `Next`: a write with no wait after it.
#[derive(Clone, Copy)]
pub enum FlashStep {
    Settle(u32),
    Wait(u32),
    Next,
}

// Which operation of a call is in flight. `Last`: the call's last write.
#[derive(Clone, Copy)]
pub enum NrfAt {
    Idr,
    Status(bool),
    EraseAll(u32),
    Erasing(u32),
    Reset(bool),
    Release(bool),
    Flash {
        step: FlashStep,
        chip: Chip,
        then: Flash,
    },
    Last,
}

// What is done next with the flash, in numbers.
#[derive(Clone, Copy)]
struct FlashNumbers {
    kind: u32,
    b: u32,
    c: u32,
    d: u32,
    e: u32,
}

impl Packed<u32> for Chip {
    ghost told = { λ n. chip_of n };

    fn pack(self) -> u32
        ensures { (chip_of result ≡ self) × (result < 2) }
    {
        match self {
            Chip::Nrf52 => 0,
            Chip::Nrf54 => 1,
        }
    }

    fn unpack(n: u32) -> Chip {
        match n {
            0 => Chip::Nrf52,
            _ => Chip::Nrf54,
        }
    }
}

impl Packed<Numbers> for FlashStep {
    ghost told = { λ x. step_of x.kind x.n };

    fn pack(self) -> Numbers
        ensures { (step_of result.kind result.n ≡ self) × (result.kind < 4) }
    {
        match self {
            FlashStep::Settle(n) => Numbers { kind: 0, n },
            FlashStep::Wait(n) => Numbers { kind: 1, n },
            FlashStep::Next => Numbers { kind: 2, n: 0 },
        }
    }

    fn unpack(x: Numbers) -> FlashStep {
        match x.kind {
            0 => FlashStep::Settle(x.n),
            1 => FlashStep::Wait(x.n),
            _ => FlashStep::Next,
        }
    }
}

impl Packed<FlashNumbers> for Flash {
    ghost told = { λ x. flash_of x.kind x.b x.c x.d x.e };

    fn pack(self) -> FlashNumbers
        ensures { (flash_of result.kind result.b result.c result.d result.e ≡ self) × (result.kind < 4) }
    {
        match self {
            Flash::Page { page, polls } => FlashNumbers {
                kind: 0,
                b: page,
                c: 0,
                d: 0,
                e: polls,
            },
            Flash::Words(p) => FlashNumbers {
                kind: 1,
                b: p.stop,
                c: p.len,
                d: p.left,
                e: p.polls,
            },
            Flash::Close => FlashNumbers {
                kind: 2,
                b: 0,
                c: 0,
                d: 0,
                e: 0,
            },
        }
    }

    fn unpack(x: FlashNumbers) -> Flash {
        match x.kind {
            0 => Flash::Page {
                page: x.b,
                polls: x.e,
            },
            1 => Flash::Words(Program {
                stop: x.b,
                len: x.c,
                left: x.d,
                polls: x.e,
            }),
            _ => Flash::Close,
        }
    }
}

// The number of an operation of the flash: its step counts by 8, the chip by 64, what is done then by 256.
fn flash_number(step: u32, chip: u32, then: u32) -> u32
    requires { (step < 4) × (chip < 2) × (then < 4) }
    ensures { (result % 8 ≡ 6) × (result / 8 % 4 ≡ step) × (result / 64 % 2 ≡ chip) × (result / 256 % 4 ≡ then) }
{
    6 + 8 * step + 64 * chip + 256 * then
}

fn pack_flash(step: FlashStep, chip: Chip, then: Flash) -> At
    ensures { nrf_at_of result ≡ P.Flash step chip then }
{
    let s = step.pack();
    let c = chip.pack();
    let f = then.pack();
    at_step(flash_number(s.kind, c, f.kind), s.n, f.b, f.c, f.d, f.e)
}

// Which operation is in flight, in numbers.
pub fn pack_nrf(p: NrfAt) -> At
    ensures { nrf_at_of result ≡ p }
{
    match p {
        NrfAt::Idr => at_step(0, 0, 0, 0, 0, 0),
        NrfAt::Status(known) => at_step(1, known.pack(), 0, 0, 0, 0),
        NrfAt::EraseAll(polls) => at_step(2, polls, 0, 0, 0, 0),
        NrfAt::Erasing(left) => at_step(3, left, 0, 0, 0, 0),
        NrfAt::Reset(erased) => at_step(4, erased.pack(), 0, 0, 0, 0),
        NrfAt::Release(erased) => at_step(5, erased.pack(), 0, 0, 0, 0),
        NrfAt::Flash { step, chip, then } => pack_flash(step, chip, then),
        NrfAt::Last => at_step(7, 0, 0, 0, 0, 0),
    }
}

// Which operation is in flight.
pub fn unpack_nrf(at: At) -> NrfAt
    ensures { result ≡ nrf_at_of at }
{
    let n = at.step % 8;
    match n {
        0 => NrfAt::Idr,
        1 => NrfAt::Status(bool::unpack(at.a)),
        2 => NrfAt::EraseAll(at.a),
        3 => NrfAt::Erasing(at.a),
        4 => NrfAt::Reset(bool::unpack(at.a)),
        5 => NrfAt::Release(bool::unpack(at.a)),
        6 => NrfAt::Flash {
            step: FlashStep::unpack(Numbers {
                kind: at.step / 8 % 4,
                n: at.a,
            }),
            chip: Chip::unpack(at.step / 64 % 2),
            then: Flash::unpack(FlashNumbers {
                kind: at.step / 256 % 4,
                b: at.b,
                c: at.c,
                d: at.d,
                e: at.e,
            }),
        },
        _ => NrfAt::Last,
    }
}

impl Packed<At> for NrfAt {
    ghost told = { λ at. nrf_at_of at };

    fn pack(self) -> At {
        pack_nrf(self)
    }

    fn unpack(at: At) -> NrfAt {
        unpack_nrf(at)
    }
}
