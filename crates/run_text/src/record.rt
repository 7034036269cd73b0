//! Records as lines.
ghost use Rattle.std.specs.Prelude.{◌≡◌, ◌≤◌, ◌+◌, ◌++◌, codes, length};
ghost use Rattle.machine_state.specs.Machine.{IsRecord};
ghost use Rattle.rv32_decode.specs.InRange.{InRange};
ghost use Rattle.run_text.specs.Names.{access_name, target_name};
ghost use Rattle.run_text.specs.Record.{place_text, words_text, hearer_text};
ghost use Rattle.run_text.specs.Record.{access_said, insn_said, envelope_said, fault_said, said, record_text};

use crate::names::fault_name;
use cap_format::FaultCode;
use cap_words::kind_word;
use coy_text::{LineBuf, push_bytes};
use machine_state::Record;
use rv32_asm::disassemble;
use rv32_decode::Insn;
use walk_meaning::Kind;

/// Makes the line of a record, with its line feed.
pub fn record_line(entry: &Record, line: &mut LineBuf)
    requires { IsRecord entry.now }
    ensures { line.new ≡ record_text entry.now }
{
    line.clear();
    push_record(line, entry);
}

/// Appends the line of a record, with its line feed. It has at most 801 bytes.
pub fn push_record(line: &mut LineBuf, entry: &Record)
    requires room { length line.old ≤ 200 }
    requires range { IsRecord entry.now }
    ensures text { line.new ≡ line.old ++ record_text entry.now }
    ensures len { length line.new ≤ length line.old + 801 }
{
    push_said(line, entry);
    line.push_word("\n");
}

/// Appends what a record says.
fn push_said(line: &mut LineBuf, entry: &Record)
    requires room { length line.old ≤ 200 }
    requires range { IsRecord entry.now }
    ensures text { line.new ≡ line.old ++ said entry.now }
    ensures len { length line.new ≤ length line.old + 800 }
{
    match entry {
        Record::Access {
            process,
            kind,
            address,
            number,
        } => push_access(line, *process, *kind, *address, *number),
        Record::Insn { process, at, insn } => push_insn(line, *process, *at, *insn),
        Record::Message {
            from,
            to,
            endpoint,
            payload,
            words,
            length,
            caps,
        } => {
            push_envelope(line, *from, *to, *endpoint, *payload);
            push_words(line, words);
            line.push_numbered(" len=", *length);
            line.push_numbered(" caps=", *caps as u32);
        }
        Record::Fault {
            process,
            code,
            address,
            to,
        } => push_fault(line, *process, *code, *address, *to),
        Record::Log { process, bytes } => {
            line.push_numbered("log ", *process as u32);
            line.push_word(" ");
            push_bytes(line, bytes.as_slice());
        }
        Record::Destroy { kind, number } => {
            line.push_word("destroy ");
            line.push_word(kind_word(*kind));
            line.push_numbered(" ", *number as u32);
        }
        Record::Halt { process } => line.push_numbered("halt ", *process as u32),
    }
}

fn push_access(line: &mut LineBuf, process: u16, kind: Kind, address: u32, number: u16)
    requires { length line.old ≤ 200 }
    ensures text { line.new ≡ line.old ++ access_said process kind address number }
    ensures len { length line.new ≤ length line.old + 100 }
{
    push_kind(line, kind);
    push_place(line, process, address);
    push_target(line, kind);
    line.push_number(number as u32);
}

/// Appends an access's kind, and a space.
fn push_kind(line: &mut LineBuf, kind: Kind)
    requires { length line.old ≤ 200 }
    ensures text { line.new ≡ line.old ++ access_name kind ++ codes " " }
    ensures len { length line.new ≤ length line.old + 9 }
{
    match kind {
        Kind::Fetch => line.push_word("fetch "),
        Kind::Load => line.push_word("load "),
        Kind::Store => line.push_word("store "),
        Kind::CapLoad => line.push_word("capload "),
        Kind::CapStore => line.push_word("capstore "),
    }
}

/// Appends what an access of this kind reaches, between spaces.
fn push_target(line: &mut LineBuf, kind: Kind)
    requires { length line.old ≤ 900 }
    ensures text { line.new ≡ line.old ++ codes " " ++ target_name kind ++ codes " " }
    ensures len { length line.new ≤ length line.old + 9 }
{
    match kind {
        Kind::CapLoad | Kind::CapStore => line.push_word(" cappage "),
        _ => line.push_word(" page "),
    }
}

fn push_insn(line: &mut LineBuf, process: u16, at: u32, insn: Insn)
    requires room { length line.old ≤ 200 }
    requires range { InRange insn }
    ensures text { line.new ≡ line.old ++ insn_said process at insn }
    ensures len { length line.new ≤ length line.old + 100 }
{
    line.push_word("insn ");
    push_place(line, process, at);
    line.push_word(" ");
    disassemble(insn, line);
}

fn push_fault(line: &mut LineBuf, process: u16, code: FaultCode, address: u32, to: Option<u16>)
    requires { length line.old ≤ 200 }
    ensures text { line.new ≡ line.old ++ fault_said process code address to }
    ensures len { length line.new ≤ length line.old + 100 }
{
    line.push_numbered("fault ", process as u32);
    line.push_word(" ");
    line.push_word(fault_name(code));
    line.push_value(address);
    line.push_word(" ");
    push_hearer(line, to);
}

/// Who hears a fault.
fn push_hearer(line: &mut LineBuf, to: Option<u16>)
    requires { length line.old ≤ 300 }
    ensures text { line.new ≡ line.old ++ hearer_text to }
    ensures len { length line.new ≤ length line.old + 13 }
{
    match to {
        Some(process) => line.push_numbered("to ", process as u32),
        None => line.push_word("unheard"),
    }
}

/// A process and an address.
#[inline(always)]
fn push_place(line: &mut LineBuf, process: u16, address: u32)
    requires { length line.old ≤ 900 }
    ensures text { line.new ≡ line.old ++ place_text process address }
    ensures len { length line.new ≤ length line.old + 19 }
{
    line.push_number(process as u32);
    line.push_value(address);
}

/// From whom a message came, to whom it went, and through what.
fn push_envelope(line: &mut LineBuf, from: u16, to: u16, endpoint: u16, payload: u32)
    requires { length line.old ≤ 200 }
    ensures text { line.new ≡ line.old ++ envelope_said from to endpoint payload }
    ensures len { length line.new ≤ length line.old + 100 }
{
    line.push_numbered("msg ", from as u32);
    line.push_numbered(" ", to as u32);
    line.push_numbered(" endpoint=", endpoint as u32);
    line.push_word(" payload=");
    line.push_eight(payload);
}

fn push_words(line: &mut LineBuf, words: &[u32; 4])
    requires { length line.old ≤ 300 }
    ensures text { line.new ≡ line.old ++ codes " words=" ++ words_text words.now }
    ensures len { length line.new ≤ length line.old + 50 }
{
    line.push_word(" words=");
    line.push_eight(words[0]);
    line.push_word(",");
    line.push_eight(words[1]);
    line.push_word(",");
    line.push_eight(words[2]);
    line.push_word(",");
    line.push_eight(words[3]);
}
