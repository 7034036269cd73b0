//! What stands at the start of an image.
ghost use Rattle.std.specs.Prelude.{◌≡◌, ◌≤◌, IfOk};
ghost use Rattle.object_store.specs.Ranges.{IsWithinLimits};
ghost use Rattle.image_binary.specs.Fields.{counted};
ghost use Rattle.image_binary.specs.Image.{head_of};

use crate::numbers::{any_word, size_between};
use crate::stop::Stop;
use crate::values::magic;
use object_store::Sizes;

/// The sizes of a machine, and how many statements follow.
#[derive(Clone, Copy)]
pub struct Head {
    pub sizes: Sizes,
    pub count: u32,
}

/// The start of an image, with which the bytes begin.
#[tactic(auto, unfolding(crate::specs::Image::head_of))]
pub(crate) fn head_of(bytes: &[u8]) -> Result<(Head, usize), Stop>
    ensures value { result ≡ counted (head_of bytes.now) }
    ensures range { IfOk result (λ x. IsWithinLimits x.0.sizes) }
{
    let (_, rest) = magic(bytes)?;
    let (harts, rest) = size_between(1, 8, rest)?;
    let (pages, rest) = size_between(0, 4096, rest)?;
    let (cappages, rest) = size_between(0, 256, rest)?;
    let (gpts, rest) = size_between(0, 1024, rest)?;
    let (processes, rest) = size_between(0, 256, rest)?;
    let (endpoints, rest) = size_between(0, 1024, rest)?;
    let (count, rest) = any_word(rest)?;
    let sizes = Sizes {
        harts: harts as u8,
        pages,
        cappages,
        gpts,
        processes,
        endpoints,
    };
    Ok((Head { sizes, count }, rest.len()))
}
