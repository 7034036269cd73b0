//! What is told of lines that a policy doesn't need.
ghost use Rattle.std.specs.Prelude.{◌≡◌, ◌<◌, length, flat_map, slice_index_or};
ghost use Rattle.coy_io.specs.Written.{WroteTo};
ghost use Rattle.separation_program.specs.Text.{channel_text, line_text, right_text, unused_text};

use crate::names::{put_name, put_own};
use coy_io::{Sink, WriteFault, put_text};
use policy_lines::Permission;
use separation_policy::Policy;

/// Writes what is told of each of these lines.
pub(crate) fn put_unused<K: Sink>(
    policy: &Policy,
    unused: &[Permission],
    output: &mut K,
) -> Result<(), WriteFault>
    ensures { WroteTo K.taken K.faults output.old output.new result
        (flat_map (unused_text policy.now) unused.now) }
{
    'each: for place in 0..unused.len() {
        put_one_unused(policy, line_at(unused, place), output)?;
    }
    Ok(())
}

/// The line at a place of a list.
pub(crate) fn line_at(lines: &[Permission], place: usize) -> Permission
    requires { place < length lines.now }
    ensures { result ≡ slice_index_or lines.now place result }
{
    lines[place]
}

fn put_one_unused<K: Sink>(
    policy: &Policy,
    line: Permission,
    output: &mut K,
) -> Result<(), WriteFault>
    ensures { WroteTo K.taken K.faults output.old output.new result
        (unused_text policy.now line) }
{
    put_text("unused ", output)?;
    put_line(policy, line, output)
}

/// Writes a line of a policy.
pub(crate) fn put_line<K: Sink>(
    policy: &Policy,
    line: Permission,
    output: &mut K,
) -> Result<(), WriteFault>
    ensures { WroteTo K.taken K.faults output.old output.new result (line_text policy.now line) }
{
    match line {
        Permission::Reads { reader, read } => put_channel(policy, "reads ", reader, read, output),
        Permission::Writes { writer, written } => {
            put_channel(policy, "writes ", writer, written, output)
        }
        Permission::Halts { domain } => put_right(policy, "halts ", domain, output),
        Permission::Logs { domain } => put_right(policy, "logs ", domain, output),
    }
}

/// Writes a line that lets one domain do something to another.
fn put_channel<K: Sink>(
    policy: &Policy,
    word: &str,
    a: u8,
    b: u8,
    output: &mut K,
) -> Result<(), WriteFault>
    ensures { WroteTo K.taken K.faults output.old output.new result
        (channel_text policy.now word.now a b) }
{
    put_text(word, output)?;
    put_name(policy, a, output)?;
    put_text(" ", output)?;
    put_own(policy, b, "\n", output)
}

/// Writes one that lets a domain do something.
fn put_right<K: Sink>(
    policy: &Policy,
    word: &str,
    domain: u8,
    output: &mut K,
) -> Result<(), WriteFault>
    ensures { WroteTo K.taken K.faults output.old output.new result
        (right_text policy.now word.now domain) }
{
    put_text(word, output)?;
    put_own(policy, domain, "\n", output)
}
