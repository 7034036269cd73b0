//! A source and a sink in memory, which move bytes in pieces and fail at the calls that are listed.
ghost use Rattle.std.specs.Prelude.{◌≡◌, ◌≤◌, [], vec_len, vec_capacity, IfOk};

use cap_format::OutOfMemory;
use std::alloc::Global;

/// A source over bytes in memory.
#[derive(Drop)]
pub struct MemSource {
    /// All the bytes, those already given too.
    pub bytes: Vec<u8>,
    /// How many of them were given.
    pub at: usize,
    /// How many calls there were. At `u64::MAX` it stays, and each later call has that number.
    pub calls: u64,
    /// The numbers of the calls that fail. The first call has the number 1.
    pub failing: Vec<u64>,
    /// The most bytes that a call gives.
    pub piece: usize,
    /// Whether a call gives no byte past the next line feed.
    pub by_line: bool,
    /// How many calls failed. At `u64::MAX` it stays.
    pub faults: u64,
    ghost in_range: { at ≤ vec_len bytes },
    ghost some: { 1 ≤ piece },
}

/// A sink into memory.
#[derive(Drop)]
pub struct MemSink {
    /// The bytes taken.
    pub bytes: Vec<u8>,
    /// For how many bytes memory was reserved.
    pub room: usize,
    /// How many calls there were. At `u64::MAX` it stays, and each later call has that number.
    pub calls: u64,
    /// The numbers of the calls that fail. The first call has the number 1.
    pub failing: Vec<u64>,
    /// The most bytes that a call takes.
    pub piece: usize,
    /// How many growths behind the room found no memory. At `u64::MAX` it stays.
    pub starved: u64,
    /// How many calls failed. At `u64::MAX` it stays.
    pub faults: u64,
    ghost reserved: { room ≤ vec_capacity bytes },
    ghost some: { 1 ≤ piece },
}

impl MemSink {
    /// An empty sink with memory for `room` bytes.
    pub fn new(
        alloc: Global,
        room: usize,
        failing: Vec<u64>,
        piece: usize,
    ) -> Result<MemSink, OutOfMemory>
        requires { 1 ≤ piece }
        ensures empty { IfOk result (λ sink. sink.bytes.items ≡ []) }
        ensures room { IfOk result (λ sink. sink.room ≡ room) }
        ensures calls { IfOk result (λ sink. sink.calls ≡ 0) }
        ensures failing { IfOk result (λ sink. sink.failing.items ≡ failing.items) }
        ensures piece { IfOk result (λ sink. sink.piece ≡ piece) }
        ensures starved { IfOk result (λ sink. sink.starved ≡ 0) }
        ensures faults { IfOk result (λ sink. sink.faults ≡ 0) }
    {
        Ok(MemSink {
            bytes: Vec::with_capacity(alloc, room)?,
            room,
            calls: 0,
            failing,
            piece,
            starved: 0,
            faults: 0,
        })
    }
}
