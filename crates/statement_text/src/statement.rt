//! The line of a statement.
ghost use Rattle.std.specs.Prelude.{◌≡◌, ◌≤◌, ◌+◌, ◌++◌, ◌∷◌, length};
ghost use Rattle.statement_text.specs.ReadsBack.{HasLine};
ghost use Rattle.statement_text.specs.Words.{run_word};
ghost use Rattle.statement_text.specs.Text.{statement_text};

use crate::memory_lines::{push_code, push_region};
use cap_format::Cap;
use coy_text::LineBuf;
use listing_read::Statement;
use object_lines::{
    push_count, push_endpoint, push_gpt, push_held, push_page, push_process_front, push_register,
};

/// Appends the line of a statement, with its line feed.
pub(crate) fn push_statement(line: &mut LineBuf, statement: &Statement)
    requires room { length line.old ≤ 100 }
    requires line { HasLine statement.now }
    ensures { line.new ≡ line.old ++ statement_text statement.now }
{
    match statement {
        Statement::Page { number, at, bytes } => push_page(line, *number, *at, bytes.as_slice()),
        Statement::Code { number, at, insn } => push_code(line, *number, *at, *insn),
        Statement::CapSlot { number, slot, cap } => push_held(line, "cap", *number, *slot, *cap),
        Statement::Gpt { number, header } => push_gpt(line, *number, *header),
        Statement::GptSlot { number, slot, cap } => push_held(line, "slot", *number, *slot, *cap),
        Statement::Endpoint {
            number,
            recipient,
            id,
            payload,
            matching,
        } => push_endpoint(line, *number, *recipient, *id, *payload, *matching),
        Statement::Process {
            number,
            pc,
            space,
            schedule,
            handler,
            runs,
        } => push_process(line, *number, *pc, *space, *schedule, *handler, *runs),
        Statement::Reg {
            number,
            index,
            value,
        } => push_register(line, *number, *index, *value),
        Statement::CapReg { number, index, cap } => {
            push_held(line, "capreg", *number, *index, *cap)
        }
        Statement::Count {
            kind,
            number,
            count,
        } => push_count(line, *kind, *number, *count),
        Statement::Region {
            gpt,
            slot,
            count,
            page,
            restr,
        } => push_region(line, *gpt, *slot, *count, *page, *restr),
    }
}

/// Appends `process N PC SPACE SCHEDULE HANDLER STATE`, for a process that runs or is stopped.
fn push_process(
    line: &mut LineBuf,
    number: u16,
    pc: u32,
    space: Cap,
    schedule: Cap,
    handler: Cap,
    runs: bool,
)
    requires { length line.old ≤ 100 }
    ensures text { let statement = Statement.Process number pc space schedule handler runs in
        line.new ≡ line.old ++ statement_text statement }
    ensures len { length line.new ≤ length line.old + 300 }
{
    push_process_front(line, number, pc, space, schedule, handler);
    push_state(line, runs);
    line.push_word("\n");
}

/// Appends a space and whether a process runs.
fn push_state(line: &mut LineBuf, runs: bool)
    requires { length line.old ≤ 500 }
    ensures text { line.new ≡ line.old ++ 32 ∷ run_word runs }
    ensures len { length line.new ≤ length line.old + 5 }
{
    line.push_word(if runs { " run" } else { " stop" });
}
