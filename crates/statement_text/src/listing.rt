//! The migrated text of a listing.
ghost use Rattle.std.specs.Prelude.{◌≡◌, ◌≤◌, ◌++◌, length};
ghost use Rattle.statement_text.specs.ReadsBack.{HasLine};
ghost use Rattle.listing_read.specs.declared.terms.Version.TheVariants.{Two};
ghost use Rattle.statement_text.specs.Text.{format_text, machine_text, statement_text, statements_text, end_text, listing_text};
ghost use Rattle.coy_io.specs.Written.{WroteTo};

use crate::memory_lines::push_three;
use crate::statement::push_statement;
use coy_io::{Sink, WriteFault, put_bytes, put_text};
use coy_text::LineBuf;
use listing_read::{Listing, Statement};
use object_store::Sizes;

/// Writes the migrated text of a listing: a listing of version 2, without names, that says the same. After a fault the
/// sink has taken a front of it.
pub fn write_listing<K: Sink>(listing: &Listing, output: &mut K) -> Result<(), WriteFault>
    ensures { WroteTo K.taken K.faults output.old output.new result (listing_text listing.now) }
{
    let mut line = LineBuf::new();
    put_format(output)?;
    put_machine(listing, &mut line, output)?;
    put_statements(listing, &mut line, output)?;
    put_text("end\n", output)
}

/// Writes the first line.
#[tactic(auto, unfolding(coy_text::specs::Spaced::line_of))]
fn put_format<K: Sink>(output: &mut K) -> Result<(), WriteFault>
    ensures { WroteTo K.taken K.faults output.old output.new result (format_text Two) }
{
    put_text("coyotos 2\n", output)
}

/// Writes the line of the sizes, which is made in `line` first.
fn put_machine<K: Sink>(
    listing: &Listing,
    line: &mut LineBuf,
    output: &mut K,
) -> Result<(), WriteFault>
    ensures { WroteTo K.taken K.faults output.old output.new result
        (machine_text listing.now.sizes) }
{
    make_machine(line, listing.sizes());
    put_bytes(line.as_bytes(), output)
}

/// Leaves the line of the sizes in the buffer.
#[tactic(auto, unfolding(coy_text::specs::Spaced::line_of))]
fn make_machine(line: &mut LineBuf, sizes: Sizes)
    ensures { line.new ≡ machine_text sizes }
{
    line.clear();
    line.push_word("machine");
    push_three(
        line,
        sizes.harts as u32,
        sizes.pages as u32,
        sizes.cappages as u32,
    );
    push_three(
        line,
        sizes.gpts as u32,
        sizes.processes as u32,
        sizes.endpoints as u32,
    );
    line.push_word("\n");
}

/// Writes the lines of all statements, each of which is made in `line` first.
fn put_statements<K: Sink>(
    listing: &Listing,
    line: &mut LineBuf,
    output: &mut K,
) -> Result<(), WriteFault>
    ensures { WroteTo K.taken K.faults output.old output.new result
        (statements_text listing.now.statements) }
{
    'each: for statement in listing.statements() {
        put_statement(statement, line, output)?;
    }
    Ok(())
}

/// Writes the line of a statement, which is made in `line` first.
fn put_statement<K: Sink>(
    statement: &Statement,
    line: &mut LineBuf,
    output: &mut K,
) -> Result<(), WriteFault>
    requires { HasLine statement.now }
    ensures { WroteTo K.taken K.faults output.old output.new result (statement_text statement.now) }
{
    line.clear();
    push_statement(line, statement);
    put_bytes(line.as_bytes(), output)
}
