//! What an instruction asks of the machine around it.

/// What is left to be done for an instruction once its registers are written.
#[derive(Clone, Copy)]
pub enum Effect {
    /// Nothing: the pc of the next instruction.
    Next(u32),
    /// `size` bytes at the address `at` are to be read, and handed to `finish_load` with the rest.
    /// `size` is 1, 2 or 4, and the address may be misaligned.
    Load {
        at: u32,
        size: u8,
        signed: bool,
        rd: u8,
    },
    /// The lowest `size` bytes of a register, `value`, are to be written at the address `at`.
    /// `size` is 1, 2 or 4, and the address may be misaligned.
    Store {
        at: u32,
        size: u8,
        value: u32,
    },
    /// The system is called.
    Syscall,
    /// A debugger is called.
    Break,
    /// A jump or a taken branch goes to this address, which is no multiple of 4.
    Misaligned(u32),
}
