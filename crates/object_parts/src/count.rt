//! Counts of objects.
ghost use Rattle.std.specs.Prelude.{◌≡◌, ◌<◌, ◌≤◌};

/// The allocation count of an object.
#[derive(Clone, Copy)]
pub struct Count {
    pub value: u32,
    ghost fits: { value ≤ 1048575 },
}
