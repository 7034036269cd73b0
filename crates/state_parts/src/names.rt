//! The names of all objects.
ghost use Rattle.std.specs.Prelude.{◌≡◌, ◌<◌, ◌++◌, IfOk, OnOk};
ghost use Rattle.object_store.specs.declared.sizes.Sizes.{Sizes};
ghost use Rattle.object_store.specs.Sizes.{size_in};
ghost use Rattle.machine_state.specs.Taking.{name_of, names_of};
ghost use Rattle.state_parts.specs.Keys.{AreAll, before_kind, in_order, numbered};
ghost use Rattle.state_parts.specs.Looking.{IsPlace};

use cap_format::{CapKind, OutOfMemory};
use machine_state::Name;
use object_store::Sizes;
use std::alloc::Global;

/// The names of all objects of a machine of these sizes.
pub(crate) fn all_names(alloc: Global, sizes: Sizes) -> Result<Vec<Name>, OutOfMemory>
    ensures { IfOk result (λ names. AreAll sizes (names_of names.items)) }
{
    let mut names = Vec::new(alloc);
    add_names(&mut names, CapKind::Page, sizes.pages)?;
    add_names(&mut names, CapKind::CapPage, sizes.cappages)?;
    add_names(&mut names, CapKind::Gpt, sizes.gpts)?;
    add_names(&mut names, CapKind::Process, sizes.processes)?;
    add_names(&mut names, CapKind::Endpoint, sizes.endpoints)?;
    Ok(names)
}

/// Adds the names of so many objects of a kind.
fn add_names(names: &mut Vec<Name>, kind: CapKind, count: u16) -> Result<(), OutOfMemory>
    ensures { OnOk result
        (names_of names.new.items ≡ names_of names.old.items ++ numbered kind count) }
{
    for number in 0..count {
        names.push(Name { kind, number })?;
    }
    Ok(())
}

/// The place of an object's name among the names of all objects of a machine of these sizes.
pub(crate) fn place_of(sizes: Sizes, name: Name) -> usize
    requires { name.number < size_in sizes name.kind }
    ensures { IsPlace (in_order sizes) (name_of name) result }
{
    before_kind(sizes, name.kind) + name.number as usize
}

/// How many names come before those of a kind.
fn before_kind(sizes: Sizes, kind: CapKind) -> usize
    ensures { result ≡ before_kind sizes kind }
{
    let cappages = sizes.pages as usize;
    let gpts = cappages + sizes.cappages as usize;
    let processes = gpts + sizes.gpts as usize;
    let endpoints = processes + sizes.processes as usize;
    match kind {
        CapKind::CapPage => cappages,
        CapKind::Gpt => gpts,
        CapKind::Process => processes,
        CapKind::Endpoint => endpoints,
        _ => 0,
    }
}
