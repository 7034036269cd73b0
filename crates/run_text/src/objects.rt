//! The lines of all objects.
ghost use Rattle.std.specs.Prelude.{◌≡◌, ◌≤◌, ◌<◌, ◌+◌, ◌*◌, ◌++◌, length, OnOk};
ghost use Rattle.cap_format.specs.declared.kind.CapKind.TheVariants.{Gpt, Endpoint as EndpointKind, Process};
ghost use Rattle.object_store.specs.Store.{size_of, endpoint_at, process_at};
ghost use Rattle.object_store.specs.Meaning.{state_map};
ghost use Rattle.run_text.specs.Objects.{endpoint_text, process_text, object_text, heading_text, statement_text, contents_text, reads_of};
ghost use Rattle.run_text.specs.State.{kinds, kind_text, objects_text};
ghost use Rattle.coy_io.specs.Written.{WroteTo};

use crate::parts::{Part, put_parts};
use crate::process::push_process;
use crate::statements::{push_count, push_endpoint, push_header};
use cap_format::CapKind;
use coy_io::{Sink, WriteFault, put_bytes};
use coy_text::LineBuf;
use endpoint_objects::Endpoint;
use object_store::Objects;
use std::sync::ledger::Ledger;
use steps::Steps;

/// Writes the lines of all objects, each of which is made in `line` first. Each slot of a GPT is read once.
pub fn put_objects<K: Sink, L: Ledger>(
    objects: &Objects,
    line: &mut LineBuf,
    output: &mut K,
    fetches: &mut Steps<L>,
) -> Result<(), WriteFault>
    ensures wrote { WroteTo K.taken K.faults output.old output.new result
        (objects_text (state_map objects.now)) }
    ensures counted { OnOk result (fetches.new ≡ fetches.old + 16 * size_of objects.now.items Gpt) }
    ensures most { fetches.new ≤ fetches.old + 16 * size_of objects.now.items Gpt }
{
    let kinds = kinds();
    'each: for place in 0..kinds.len() {
        put_kind(objects, kinds[place], line, output, fetches)?;
    }
    Ok(())
}

/// The kinds of objects, in the order in which they are written.
fn kinds() -> [CapKind; 5]
    ensures { result ≡ kinds }
{
    [
        CapKind::Page,
        CapKind::CapPage,
        CapKind::Gpt,
        CapKind::Endpoint,
        CapKind::Process,
    ]
}

/// Writes the lines of each object of a kind.
fn put_kind<K: Sink, L: Ledger>(
    objects: &Objects,
    kind: CapKind,
    line: &mut LineBuf,
    output: &mut K,
    fetches: &mut Steps<L>,
) -> Result<(), WriteFault>
    ensures wrote { WroteTo K.taken K.faults output.old output.new result
        (kind_text (state_map objects.now) kind) }
    ensures counted { OnOk result
        (fetches.new ≡ fetches.old + reads_of kind * size_of objects.now.items kind) }
    ensures most { fetches.new ≤ fetches.old + reads_of kind * size_of objects.now.items kind }
{
    'each: for n in 0..size(objects, kind) {
        put_object(objects, kind, n, line, output, fetches)?;
    }
    Ok(())
}

/// How many objects of a kind there are.
fn size(objects: &Objects, kind: CapKind) -> u16
    ensures { result ≡ size_of objects.now.items kind }
{
    let sizes = objects.sizes();
    match kind {
        CapKind::Page => sizes.pages,
        CapKind::CapPage => sizes.cappages,
        CapKind::Gpt => sizes.gpts,
        CapKind::Endpoint => sizes.endpoints,
        CapKind::Process => sizes.processes,
        _ => 0,
    }
}

/// Writes the lines of an object.
#[tactic(auto, unfolding(crate::specs::Objects::object_text))]
fn put_object<K: Sink, L: Ledger>(
    objects: &Objects,
    kind: CapKind,
    n: u16,
    line: &mut LineBuf,
    output: &mut K,
    fetches: &mut Steps<L>,
) -> Result<(), WriteFault>
    requires { n < size_of objects.now.items kind }
    ensures wrote { WroteTo K.taken K.faults output.old output.new result
        (object_text (state_map objects.now) kind n) }
    ensures counted { OnOk result (fetches.new ≡ fetches.old + reads_of kind) }
    ensures most { fetches.new ≤ fetches.old + reads_of kind }
{
    put_heading(objects, kind, n, line, output)?;
    put_contents(objects, kind, n, line, output, fetches)
}

/// Writes the lines of the count and of the statement of an object, which are left out where it is as an empty one.
fn put_heading<K: Sink>(
    objects: &Objects,
    kind: CapKind,
    n: u16,
    line: &mut LineBuf,
    output: &mut K,
) -> Result<(), WriteFault>
    requires { n < size_of objects.now.items kind }
    ensures { WroteTo K.taken K.faults output.old output.new result
        (heading_text (state_map objects.now) kind n) }
{
    make_heading(objects, kind, n, line);
    put_bytes(line.as_bytes(), output)
}

fn make_heading(objects: &Objects, kind: CapKind, n: u16, line: &mut LineBuf)
    requires { n < size_of objects.now.items kind }
    ensures { line.new ≡ heading_text (state_map objects.now) kind n }
{
    line.clear();
    push_count(line, kind, n, objects.count(kind, n));
    push_statement(line, objects, kind, n);
}

/// Appends the statement of an object.
#[tactic(auto, using(crate::proofs::Meanings::header_means))]
fn push_statement(line: &mut LineBuf, objects: &Objects, kind: CapKind, n: u16)
    requires room { length line.old ≤ 100 }
    requires there { n < size_of objects.now.items kind }
    ensures { line.new ≡ line.old ++ statement_text (state_map objects.now) kind n }
{
    match kind {
        CapKind::Gpt => push_header(line, n, objects.gpt_header(n)),
        CapKind::Endpoint => push_endpoint_of(line, objects, n),
        CapKind::Process => push_process_of(line, objects, n),
        _ => {}
    }
}

/// Appends an endpoint, with what its recipient means.
#[tactic(auto, using(crate::proofs::Meanings::endpoint_means))]
fn push_endpoint_of(line: &mut LineBuf, objects: &Objects, n: u16)
    requires room { length line.old ≤ 100 }
    requires there { n < size_of objects.now.items EndpointKind }
    ensures { line.new ≡ line.old ++ endpoint_text n (endpoint_at (state_map objects.now) n) }
{
    let endpoint = objects.endpoint(n);
    let recipient = objects.live(endpoint.recipient);
    let meant = Endpoint {
        recipient,
        ..*endpoint
    };
    push_endpoint(line, n, &meant);
}

/// Appends a process, with what its capabilities mean.
#[tactic(auto, using(crate::proofs::Meanings::process_means))]
fn push_process_of(line: &mut LineBuf, objects: &Objects, n: u16)
    requires room { length line.old ≤ 100 }
    requires there { n < size_of objects.now.items Process }
    ensures { line.new ≡ line.old ++ process_text n (process_at (state_map objects.now) n) }
{
    push_process(line, objects, n, objects.process(n));
}

/// Writes the lines of the parts of an object.
fn put_contents<K: Sink, L: Ledger>(
    objects: &Objects,
    kind: CapKind,
    n: u16,
    line: &mut LineBuf,
    output: &mut K,
    fetches: &mut Steps<L>,
) -> Result<(), WriteFault>
    requires { n < size_of objects.now.items kind }
    ensures wrote { WroteTo K.taken K.faults output.old output.new result
        (contents_text (state_map objects.now) kind n) }
    ensures counted { OnOk result (fetches.new ≡ fetches.old + reads_of kind) }
    ensures most { fetches.new ≤ fetches.old + reads_of kind }
{
    match kind {
        CapKind::Page => put_parts(objects, Part::Row, n, line, output, fetches),
        CapKind::CapPage => put_parts(objects, Part::PageSlot, n, line, output, fetches),
        CapKind::Gpt => put_parts(objects, Part::GptSlot, n, line, output, fetches),
        CapKind::Process => put_registers(objects, n, line, output, fetches),
        _ => Ok(()),
    }
}

/// Writes the lines of the registers and then of the capability registers of a process.
fn put_registers<K: Sink, L: Ledger>(
    objects: &Objects,
    n: u16,
    line: &mut LineBuf,
    output: &mut K,
    fetches: &mut Steps<L>,
) -> Result<(), WriteFault>
    requires { n < size_of objects.now.items Process }
    ensures wrote { WroteTo K.taken K.faults output.old output.new result
        (contents_text (state_map objects.now) Process n) }
    ensures counted { OnOk result (fetches.new ≡ fetches.old) }
    ensures most { fetches.new ≤ fetches.old }
{
    put_parts(objects, Part::Register, n, line, output, fetches)?;
    put_parts(objects, Part::CapRegister, n, line, output, fetches)
}
