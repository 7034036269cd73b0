//! The bytes at the front.
ghost use Rattle.std.specs.Prelude.{◌≡◌, ◌≤◌, length, drop, IfOk, OnOk};
ghost use Rattle.image_binary.specs.Fields.{GivesBytes, front_of};

use crate::fault::ImageWord;
use crate::stop::Stop;

/// The first `count` bytes, and those behind them.
#[tactic(auto, unfolding(crate::specs::Fields::front_of))]
pub(crate) fn front(count: usize, bytes: &[u8]) -> Result<(&[u8], &[u8]), Stop>
    ensures value { GivesBytes result (front_of count bytes.now) }
    ensures length { IfOk result (λ x. length x.0.now ≡ count) }
    ensures rest { IfOk result (λ x. x.1.now ≡ drop count bytes.now) }
    ensures whole { OnOk result (count ≤ length bytes.now) }
{
    if bytes.len() < count {
        return Err(Stop::Short { left: bytes.len() });
    }
    Ok(bytes.split_at(count))
}

/// The field with which the bytes begin has a fault.
pub(crate) fn wrong(bytes: &[u8], fault: ImageWord) -> Stop
    ensures { result ≡ Stop.Wrong (length bytes.now) fault }
{
    Stop::Wrong {
        left: bytes.len(),
        fault,
    }
}
