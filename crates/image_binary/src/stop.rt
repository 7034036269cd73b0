//! Why a field gives no value.
use crate::fault::ImageWord;

/// Why the bytes that are there give no value, by how many of them stand from the field's first on.
#[derive(Clone, Copy)]
pub enum Stop {
    /// They end before the last byte of the field.
    Short { left: usize },
    /// The field is whole, and has this fault.
    Wrong { left: usize, fault: ImageWord },
}
