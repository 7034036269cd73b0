/// What a frame in use is for. The default is no more than a blank.
#[derive(Clone, Copy, Default)]
pub enum FrameUse {
    /// It is a root: its words lead to the frames of its regions.
    #[default]
    Root,
    /// It has the leaves of one region of 1,024 pages, for the root with this frame number.
    Region { root: u16, region: u16 },
}
