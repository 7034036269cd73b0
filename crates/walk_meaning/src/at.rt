use cap_format::Restr;

/// Where a walk stands between two capabilities.
#[derive(Clone, Copy)]
pub struct At {
    /// The GPT whose slot held the capability that is met next.
    pub holding: Option<u16>,
    /// The GPT whose background is in force.
    pub background: Option<u16>,
    /// The GPT whose slot 15 handles a fault.
    pub handler: Option<u16>,
    /// All restrictions that were met so far.
    pub restr: Restr,
    /// What is left of the address.
    pub address: u32,
    /// The least `l2g` or `l2v` that was passed so far, 32 at first.
    pub l2: u8,
}
