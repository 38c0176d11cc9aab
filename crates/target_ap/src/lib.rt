// Accesses to the registers of the model target's MEM-AP, over lent memory.
#![tactic(auto)]

ghost use Rattle.std.specs.Prelude.{◌≡◌, ◌^◌, min};
ghost use Rattle.target.specs.MemAp.{advanced, failed, posted, reach_ap, memory_after};

use target::{ApRegister, Done, Target};

// The number at which TAR's low bits wrap.
fn span_of(width: u32) -> u64
    ensures { result ≡ 2 ^ min width 32 }
{
    1u64 << width.min(32)
}

// The target after a DRW access in memory.
fn advance(t: Target) -> Target
    ensures { result ≡ advanced t }
{
    if t.csw / 16 % 4 != 1 {
        return t;
    }
    let span = span_of(t.width);
    let tar = u64::from(t.tar);
    Target {
        tar: (tar / span * span + (tar % span + 4) % span) as u32,
        ..t
    }
}

// The target after a DRW access outside memory.
fn fail(t: Target) -> Target
    ensures { result ≡ failed t }
{
    Target { sticky: true, ..t }
}

// A posted read: it answers the old read buffer and loads the new value.
fn post(t: Target, value: u32) -> Done
    ensures { result ≡ posted t value }
{
    let u = Target { rdbuff: value, ..t };
    Done::new(t.rdbuff, u)
}

// A DRW read.
fn drw_read(t: Target, mem: &[u8]) -> Done
    ensures { result ≡ reach_ap ApRegister.DrwRead t mem.now 0 }
{
    match target::load_word(t, t.tar / 4 * 4, mem) {
        Some(w) => post(advance(t), w),
        None => post(fail(t), 0),
    }
}

// A DRW write.
fn drw_write(t: Target, word: u32, mem: &mut [u8]) -> Done
    ensures { (result ≡ reach_ap ApRegister.DrwWrite t mem.old word)
        × (mem.new ≡ memory_after ApRegister.DrwWrite t mem.old word) }
{
    if target::store_word(t, t.tar / 4 * 4, word, mem) {
        Done::new(0, advance(t))
    } else {
        Done::new(0, fail(t))
    }
}

// An access to a register of the access ports.
pub fn reach_ap(reg: ApRegister, t: Target, word: u32, mem: &mut [u8]) -> Done
    ensures { (result ≡ reach_ap reg t mem.old word) × (mem.new ≡ memory_after reg t mem.old word) }
{
    match reg {
        ApRegister::CswWrite => {
            let csw = word / 8 * 8 + 2;
            Done::new(0, Target { csw, ..t })
        }
        ApRegister::CswRead => post(t, t.csw),
        ApRegister::TarWrite => Done::new(0, Target { tar: word, ..t }),
        ApRegister::TarRead => post(t, t.tar),
        ApRegister::DrwWrite => drw_write(t, word, mem),
        ApRegister::DrwRead => drw_read(t, &*mem),
        ApRegister::OtherRead => post(t, 0),
        ApRegister::OtherWrite => Done::new(0, t),
    }
}
