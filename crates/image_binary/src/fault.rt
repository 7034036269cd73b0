//! What can be wrong with an image.

use cap_format::OutOfMemory;

/// What is wrong with a field of an image. Where several hold, the first in this order counts.
#[derive(Clone, Copy, Debug, PartialEq, Eq)]
pub enum ImageWord {
    /// The input ends before the last byte of the field.
    Cut,
    /// The first eight bytes are not `COYIMG02`.
    BadMagic,
    /// A size is out of its limits.
    BadMachine,
    /// A statement's number is that of no form.
    BadType,
    /// The bytes spell no capability without a count, or none that may stand there.
    BadCap,
    /// The number is the word of no instruction, or not the one that is written for it.
    BadInstruction,
    /// The machine has no object of this number.
    NoObject,
    /// Another value is out of its range.
    BadValue,
    /// Bytes follow the last statement.
    Trailing,
}

/// Why there is no listing.
#[derive(Clone, Copy, Debug)]
pub enum ImageFault {
    /// The first fault from the left, and the offset of its field's first byte in the image.
    Refused { offset: u32, fault: ImageWord },
    /// The source failed.
    ReadFault,
    /// The image goes on, or ends and is followed by a byte, behind the last byte that is read.
    TooLong,
    /// Memory ran out.
    OutOfMemory,
}

impl From<OutOfMemory> for ImageFault {
    ghost use Rattle.std.specs.Prelude.{◌≡◌};
    ghost use Rattle.image_binary.specs.declared.fault.ImageFault.TheVariants as faults;

    ghost from_gives = { λ _ e. e ≡ faults.OutOfMemory };

    fn from(_error: OutOfMemory) -> ImageFault {
        ImageFault::OutOfMemory
    }
}
