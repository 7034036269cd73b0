use gpt_objects::GptHeader;

/// The GPTs that a window may look into, on the walk that met it.
#[derive(Clone, Copy)]
pub struct Context {
    /// The GPT whose slot held the window, with its header.
    pub holding: Option<(u16, GptHeader)>,
    /// The GPT whose background is in force.
    pub background: Option<u16>,
}

/// Where a window leads.
#[derive(Clone, Copy)]
pub struct Next {
    /// The GPT that holds the next capability, and is the holding GPT from here on.
    pub gpt: u16,
    /// The slot of that capability, 0 to 15.
    pub slot: u8,
    /// The address that goes on.
    pub address: u32,
}
