/// What a frame in use of a shared pool is for. The default is no more than a blank.
#[derive(Clone, Copy, Default)]
pub enum SharedUse {
    /// It is a root: its words lead to the leaf tables of its regions.
    #[default]
    Root,
    /// It is a leaf table: it has the entries of 1,024 pages, for every root that is linked to it.
    Leaf,
}
