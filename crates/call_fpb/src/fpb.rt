// The Flash Patch and Breakpoint unit's registers and bits.
pub const FP_CTRL: u32 = 0xE0002000;

pub const FP_COMP0: u32 = 0xE0002008;

pub const CTRL_KEY: u32 = 2;

pub const CTRL_ENABLE: u32 = 1;

pub const COMP_ENABLE: u32 = 1;
