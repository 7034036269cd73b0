//! How large a machine is.

/// How many harts there are, and how many objects of each kind.
#[derive(Clone, Copy)]
pub struct Sizes {
    /// 1 to 8.
    pub harts: u8,
    /// At most 4,096.
    pub pages: u16,
    /// At most 256.
    pub cappages: u16,
    /// At most 1,024.
    pub gpts: u16,
    /// At most 256.
    pub processes: u16,
    /// At most 1,024.
    pub endpoints: u16,
}
