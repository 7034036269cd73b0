//! A message.
use crate::cap_list::CapList;

/// What a receiver is told and given.
#[derive(Drop)]
pub struct Message {
    /// w1 to w4.
    pub words: [u32; 4],
    /// That of the entry through which it was sent.
    pub payload: u32,
    /// How many bytes of the string were delivered, at most 65,536.
    pub length: u32,
    /// Whether these are fewer than were sent.
    pub cut: bool,
    /// The capabilities sent, of which the receiver takes as many as it accepts.
    pub caps: CapList,
}
