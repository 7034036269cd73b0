//! The sides of a cut.

/// The side of a cut on which an object stands.
#[derive(Clone, Copy, PartialEq, Eq)]
pub enum CutSide {
    /// Here stand the objects of which a cut says so, and nothing else.
    Left,
    /// Here stands all else, also what is in no list of a cut.
    Right,
}
