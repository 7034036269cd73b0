//! What a property asks.

/// What is asked of the states in which all atoms of one of a property's groups hold.
#[derive(Clone, Copy)]
pub enum Asks {
    /// None is reached.
    Never,
    /// From each state that is reached, some choices lead to one.
    Ever,
    /// From the start one is passed, whatever the choices, as long as each of them comes again and again.
    Must,
    /// The same from each state that is reached in which all atoms of one of the property's first groups hold.
    MustAfter,
    /// How many there are, and how far the first is.
    Count,
}
