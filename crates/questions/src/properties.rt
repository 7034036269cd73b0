//! Properties by their numbers.
ghost use Rattle.std.specs.Prelude.{◌≡◌, IfOk};
ghost use Rattle.questions.specs.Asking.{asking, asks_this, is_sought, is_want, property_at};

use crate::{Asks, Property};
use cap_format::OutOfMemory;
use std::alloc::Global;

/// Which properties are sought.
#[derive(Clone, Copy)]
enum Sought {
    /// Those that ask this.
    One(Asks),
    /// Those that ask what can come, or must.
    Wants,
}

/// The numbers of the properties that ask this, in their order.
pub fn asking(
    alloc: Global,
    properties: &[Property],
    wanted: Asks,
) -> Result<Vec<usize>, OutOfMemory>
    ensures { IfOk result (λ numbers. numbers.items ≡ asking (asks_this wanted) properties.now) }
{
    numbers(alloc, properties, Sought::One(wanted))
}

/// The numbers of the properties that ask what comes (`Ever`, `Must` and `MustAfter`), in their order.
pub fn wanting(alloc: Global, properties: &[Property]) -> Result<Vec<usize>, OutOfMemory>
    ensures { IfOk result (λ numbers. numbers.items ≡ asking is_want properties.now) }
{
    numbers(alloc, properties, Sought::Wants)
}

/// The numbers of those that are sought.
fn numbers(
    alloc: Global,
    properties: &[Property],
    sought: Sought,
) -> Result<Vec<usize>, OutOfMemory>
    ensures { IfOk result (λ numbers. numbers.items ≡ asking (is_sought sought) properties.now) }
{
    let mut numbers = Vec::new(alloc);
    'each: for n in 0..properties.len() {
        if is_sought(sought, properties[n].asks()) {
            numbers.push(n)?;
        }
    }
    Ok(numbers)
}

/// Whether what a property asks is.
fn is_sought(sought: Sought, asks: Asks) -> bool
    ensures { result ≡ is_sought sought asks }
{
    match sought {
        Sought::One(wanted) => asks_this(wanted, asks),
        Sought::Wants => matches!(asks, Asks::Ever | Asks::Must | Asks::MustAfter),
    }
}

/// Whether something else asks the same.
fn asks_this(wanted: Asks, asks: Asks) -> bool
    ensures { result ≡ asks_this wanted asks }
{
    match wanted {
        Asks::Never => matches!(asks, Asks::Never),
        Asks::Ever => matches!(asks, Asks::Ever),
        Asks::Must => matches!(asks, Asks::Must),
        Asks::MustAfter => matches!(asks, Asks::MustAfter),
        Asks::Count => matches!(asks, Asks::Count),
    }
}

/// The line of a property, 0 where there is none of this number.
pub fn line_of(properties: &[Property], n: usize) -> u32
    ensures { result ≡ (property_at properties.now n).line }
{
    match properties.get(n) {
        Some(property) => property.line(),
        None => 0,
    }
}
