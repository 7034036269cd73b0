/// A word on the way of a walk is not valid.
#[derive(Clone, Copy, Debug)]
pub struct PageFault;

/// A frame is needed, and all are in use.
#[derive(Clone, Copy, Debug)]
pub struct PoolFull;
