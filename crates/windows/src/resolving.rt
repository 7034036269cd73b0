//! What a window comes to.

ghost use Rattle.std.specs.Prelude.{◌≡◌, ◌<◌, ◌+◌, ◌^◌, true};
ghost use Rattle.cap_format.specs.Kind.{is_window};
ghost use Rattle.windows.specs.Resolve.{resolution, next_if_any, looks_through};

use crate::context::{Context, Next};
use cap_format::{Cap, CapKind};
use gpt_objects::GptHeader;

/// The window looks into a GPT that is not there, or into a slot that is no way on.
#[derive(Clone, Copy, Debug)]
pub struct Malformed;

/// Where a window leads that left `r` of an address behind its guard.
pub fn resolve(window: Cap, r: u32, context: Context) -> Result<Next, Malformed>
    requires window { is_window window.kind ≡ true }
    requires left { r < 2 ^ window.guard.l2g }
    ensures { next_if_any result ≡ resolution window.kind window r context }
{
    let address = beyond(window, r);
    if window.kind() == CapKind::Window {
        let Some(gpt) = context.background else {
            return Err(Malformed);
        };
        return Ok(Next {
            gpt,
            slot: 14,
            address,
        });
    }
    let Some((gpt, header)) = context.holding else {
        return Err(Malformed);
    };
    if !looks_through(header, window.slot()) {
        return Err(Malformed);
    }
    Ok(Next {
        gpt,
        slot: window.slot(),
        address,
    })
}

/// Whether a local window looks through a slot of the GPT that holds it.
fn looks_through(header: GptHeader, slot: u8) -> bool
    ensures { result ≡ looks_through header slot }
{
    match slot {
        15 => !header.ha(),
        14 => !header.bg(),
        _ => true,
    }
}

/// The window's offset and what is left of the address. It is below `2^32`, since the offset is a
/// multiple of the guard's size.
fn beyond(window: Cap, r: u32) -> u32
    requires window { is_window window.kind ≡ true }
    requires left { r < 2 ^ window.guard.l2g }
    ensures { result ≡ window.object + r }
{
    window.object() + r
}
