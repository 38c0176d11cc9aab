// The nRF54's debug registers: RRAMC, the controller of its resistive memory. Those of its CTRL-AP lie as the nRF52's.
pub const CTRL_AP: u8 = 2;

pub const RRAMC_READY: u32 = 0x4004B400;

pub const RRAMC_CONFIG: u32 = 0x4004B500;

pub const RRAMC_COMMIT: u32 = 0x4004B008;

pub const RRAMC_CONFIG_WEN: u32 = 1;
