/// Where a data access ends: a byte of a page.
#[derive(Clone, Copy)]
pub struct Hit {
    /// The page's number.
    pub page: u16,
    /// The offset in the page in bytes, below 4,096.
    pub offset: u16,
}
