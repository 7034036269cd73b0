//! What happens to a machine.

/// One atomic step of a machine.
#[derive(Clone, Copy)]
pub enum Event {
    /// The hart performs one instruction, if it has or gets a process.
    Step(u8),
    /// The hart's timer ticks: its process goes to the end of its ready queue.
    Tick(u8),
}
