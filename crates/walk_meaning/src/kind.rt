/// What an access does with the place that its walk reaches.
///
/// The first three are the data kinds, which end at a page; the other two end at a slot of a
/// capability page.
#[derive(Clone, Copy, Debug)]
pub enum Kind {
    /// An instruction is read.
    Fetch,
    /// Bytes are read.
    Load,
    /// Bytes are written.
    Store,
    /// A capability is read.
    CapLoad,
    /// A capability is written.
    CapStore,
}
