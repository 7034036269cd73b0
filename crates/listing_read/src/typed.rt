//! What reads the values of a statement, so that their types tell their ranges.
ghost use Rattle.std.specs.Prelude.{◌<◌, ◌^◌};
ghost use Rattle.std.specs.List.{All};
ghost use Rattle.cap_format.specs.Capability.{IsCapability};
ghost use Rattle.gpt_objects.specs.Header.{IsHeader};
ghost use Rattle.listing_read.specs.Statement.{IsTyped};

use crate::statement::Statement;
use cap_format::Cap;
use gpt_objects::GptHeader;

/// The values of a statement are in the ranges of their types. It reads them and does nothing else.
pub(crate) fn statement_is_typed(statement: &Statement)
    ensures { IsTyped statement.now }
{
    match statement {
        Statement::Page { bytes, .. } => bytes_are_typed(bytes.as_slice()),
        Statement::Code { .. } => {}
        Statement::CapSlot { slot, cap, .. } => {
            slot_is_typed(*slot);
            capability_is_typed(*cap);
        }
        Statement::Gpt { header, .. } => header_is_typed(*header),
        Statement::GptSlot { cap, .. } => capability_is_typed(*cap),
        Statement::Endpoint {
            recipient,
            id,
            payload,
            ..
        } => {
            capability_is_typed(*recipient);
            word_is_typed(*id);
            word_is_typed(*payload);
        }
        Statement::Process {
            pc,
            space,
            schedule,
            handler,
            ..
        } => {
            word_is_typed(*pc);
            capability_is_typed(*space);
            capability_is_typed(*schedule);
            capability_is_typed(*handler);
        }
        Statement::Reg { value, .. } => word_is_typed(*value),
        Statement::CapReg { cap, .. } => capability_is_typed(*cap),
        Statement::Count { .. } | Statement::Region { .. } => {}
    }
}

/// The bytes of a page have 8 bits.
fn bytes_are_typed(bytes: &[u8])
    ensures { All (λ byte. byte < 256) bytes.now }
{}

/// A slot of a capability page has 8 bits.
fn slot_is_typed(slot: u8)
    ensures { slot < 256 }
{}

/// A pc, an id, a payload or the value of a register has 32 bits.
fn word_is_typed(word: u32)
    ensures { word < 2 ^ 32 }
{}

/// A capability keeps what every capability keeps.
fn capability_is_typed(cap: Cap)
    ensures { IsCapability cap }
{}

/// A header keeps what every header keeps.
fn header_is_typed(header: GptHeader)
    ensures { IsHeader header }
{}
