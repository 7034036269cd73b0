//! What a listing says of a machine.
use crate::page_bytes::PageBytes;
use cap_format::{Cap, CapKind, Restr};
use gpt_objects::GptHeader;
use rv32_decode::Insn;

/// One statement: it assigns what it names. Every capability has count 0.
#[derive(Drop)]
pub enum Statement {
    /// Bytes of a page, from an offset on.
    Page {
        number: u16,
        at: u16,
        bytes: PageBytes,
    },
    /// An instruction in a page.
    Code {
        number: u16,
        at: u16,
        insn: Insn,
    },
    /// A slot of a capability page.
    CapSlot {
        number: u16,
        slot: u8,
        cap: Cap,
    },
    /// The header of a GPT.
    Gpt {
        number: u16,
        header: GptHeader,
    },
    /// A slot of a GPT.
    GptSlot {
        number: u16,
        slot: u8,
        cap: Cap,
    },
    /// An endpoint.
    Endpoint {
        number: u16,
        recipient: Cap,
        id: u32,
        payload: u32,
        matching: bool,
    },
    /// A process, without its registers. One that runs is made ready at the start.
    Process {
        number: u16,
        pc: u32,
        space: Cap,
        schedule: Cap,
        handler: Cap,
        runs: bool,
    },
    /// A register of a process.
    Reg {
        number: u16,
        index: u8,
        value: u32,
    },
    /// A capability register of a process.
    CapReg {
        number: u16,
        index: u8,
        cap: Cap,
    },
    /// The allocation count of an object.
    Count {
        kind: CapKind,
        number: u16,
        count: u32,
    },
    /// Slots of a GPT from one on, for as many pages from one on: each holds its page, behind a guard of 2^12 bytes and
    /// match 0, with these restrictions.
    Region {
        gpt: u16,
        slot: u8,
        count: u8,
        page: u16,
        restr: Restr,
    },
}
