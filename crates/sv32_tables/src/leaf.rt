/// Where a page of an address space lies, and what may be done there. It may always be read.
#[derive(Clone, Copy)]
pub struct Leaf {
    /// The number of the physical page.
    pub page: u16,
    /// Whether a store may go there.
    pub write: bool,
    /// Whether an instruction may be fetched there.
    pub execute: bool,
}
