//! Who comes to an object by capabilities.

/// Who comes to an object by the capabilities that processes and capability pages hold, through GPTs or not.
#[derive(Clone, Copy)]
pub enum ReachedBy {
    /// No process and no capability page.
    Nobody,
    /// This process, and nobody else.
    Alone(u16),
    /// Several processes, or a capability page.
    Several,
}
