// Where a call stands, in numbers: which of its operations is in flight, and what it goes on with.
#![tactic(auto)]

ghost use Rattle.std.specs.Prelude.{◌≡◌, ◌%◌, eqb};

// Which operation of a call is in flight: a number for group and phase, and what it goes on with. 0: its outcome is the call's.
// A group of calls gives the phase alone, below 1024, and looks at nothing above it; who calls the groups puts the group there.
#[derive(Clone, Copy)]
pub struct At {
    pub step: u32,
    pub a: u32,
    pub b: u32,
    pub c: u32,
    pub d: u32,
    pub e: u32,
}

// What stands as the numbers `N` while an operation is in flight. Numbers that come of no value stand for one all the same, since a
// session may hold any.
pub trait Packed<N>: Copy {
    ghost told: { N → Self };

    fn pack(self) -> N
        ensures { told result ≡ self };

    fn unpack(n: N) -> Self
        ensures { result ≡ told n };
}

// A flag as a word: 1 where it stands.
impl Packed<u32> for bool {
    ghost told = { λ n. eqb n 1 };

    fn pack(self) -> u32 {
        u32::from(self)
    }

    fn unpack(n: u32) -> bool {
        n == 1
    }
}

// A byte, and half a word: the lowest bits of a word.
impl Packed<u32> for u8 {
    ghost told = { λ n. n % 256 };

    fn pack(self) -> u32 {
        u32::from(self)
    }

    fn unpack(n: u32) -> u8 {
        (n % 256) as u8
    }
}

impl Packed<u32> for u16 {
    ghost told = { λ n. n % 65536 };

    fn pack(self) -> u32 {
        u32::from(self)
    }

    fn unpack(n: u32) -> u16 {
        (n % 65536) as u16
    }
}

// The phase `step`, and what it goes on with.
pub fn at_step(step: u32, a: u32, b: u32, c: u32, d: u32, e: u32) -> At
    ensures { result ≡ record { step = step; a = a; b = b; c = c; d = d; e = e } }
{
    At {
        step,
        a,
        b,
        c,
        d,
        e,
    }
}
