// The nRF52's debug registers: CTRL-AP, an access port of Nordic's own, and NVMC, the flash controller.
pub const CTRL_AP: u8 = 1;

pub const CTRLAP_RESET: u8 = 0x00;

pub const CTRLAP_ERASEALL: u8 = 0x04;

pub const CTRLAP_ERASEALLSTATUS: u8 = 0x08;

pub const CTRLAP_APPROTECTSTATUS: u8 = 0x0C;

pub const CTRLAP_IDR: u8 = 0xFC;

pub const CTRLAP_IDR_VALUE: u32 = 0x02880000;

pub const NVMC_READY: u32 = 0x4001E400;

pub const NVMC_CONFIG: u32 = 0x4001E504;

pub const NVMC_ERASEPAGE: u32 = 0x4001E508;

pub const NVMC_CONFIG_REN: u32 = 0;

pub const NVMC_CONFIG_WEN: u32 = 1;

pub const NVMC_CONFIG_EEN: u32 = 2;

pub const FLASH_PAGE: u32 = 4096;
