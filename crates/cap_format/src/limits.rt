//! The limits of this system. Every size is a number of things, numbered from 0.

/// Harts.
pub const HARTS: u8 = 8;
/// Pages.
pub const PAGES: u16 = 4096;
/// Capability pages.
pub const CAPPAGES: u16 = 256;
/// GPTs.
pub const GPTS: u16 = 1024;
/// Processes.
pub const PROCESSES: u16 = 256;
/// Endpoints.
pub const ENDPOINTS: u16 = 1024;
/// Priorities of a schedule.
pub const PRIORITIES: u8 = 8;
/// The bytes of a page.
pub const PAGE_BYTES: u16 = 4096;
/// The slots of a capability page.
pub const CAPPAGE_SLOTS: u16 = 256;
/// The slots of a GPT.
pub const GPT_SLOTS: u8 = 16;
/// The last allocation count. An object that has it is never destroyed again.
pub const LAST_COUNT: u32 = 1_048_575;
