//! A request to the kernel, and its reply.

use crate::cap::Cap;
use crate::code::Code;
use crate::item::Item;

/// What is asked of a capability that the kernel answers.
#[derive(Clone, Copy)]
pub struct Request {
    /// The words w1 to w4. The first is the request's number.
    pub words: [u32; 4],
    /// The first capability sent, or Null where none was sent.
    pub sent: Cap,
}

/// What the kernel answers.
#[derive(Clone, Copy, PartialEq, Eq)]
pub struct Reply {
    pub code: Code,
    /// The words w2 to w4.
    pub words: [u32; 3],
    /// The capability that is handed over, if there is one. It may be Null.
    pub cap: Option<Cap>,
    /// The one item that the request changed, if it changed one.
    pub changed: Option<Item>,
}
