//! The image of a listing: the same statements as bytes, each in one spelling, and read up to the first fault.
//!
//! Nothing here knows what a statement does to a machine, or the text of one.
#![tactic(auto)]

mod fault;
mod form;
mod front;
mod head;
mod image_bytes;
mod laws;
mod numbers;
mod packing;
mod pushing;
mod reader;
mod spelled;
mod statements;
mod stop;
mod unpacking;
mod values;

pub use fault::{ImageFault, ImageWord};
pub use laws::{images_are_read, listing_is_packed};
pub use packing::pack;
pub use unpacking::unpack;
