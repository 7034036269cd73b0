//! How far a search is, on standard error. Nothing is claimed of it.
use breadth_first::Watcher;
use std::fs;
use std::time::{Duration, Instant};

/// Tells how far a search is, by a line a second at most, and none in the first two.
#[derive(Drop)]
pub(crate) struct Progress<'a> {
    rt: &'a HostRuntime,
    /// When it began. Without a clock nothing is told.
    start: Option<Instant>,
    /// How long after the start the next line may come.
    next: Duration,
    /// How long after the start the clock was looked at last.
    looked: Duration,
    /// How many states go by between two looks at the clock, at most 255.
    stride: u8,
    /// How many states are left before the next.
    left: u8,
}

impl<'a> Progress<'a> {
    pub(crate) fn new(rt: &'a HostRuntime) -> Progress<'a> {
        Progress {
            rt,
            start: Instant::now(rt).ok(),
            next: Duration::from_secs(2),
            looked: Duration::from_secs(0),
            stride: 0,
            left: 0,
        }
    }

    /// Looks at the clock half as often as before where less than a millisecond went by since the last look, and after each
    /// state where more did.
    fn pace(&mut self, passed: Duration) {
        let since = passed.saturating_sub(self.looked);
        self.looked = passed;
        self.stride = if since < Duration::from_millis(1) {
            2 * self.stride.min(127) + 1
        } else {
            0
        };
        self.left = self.stride;
    }

    /// Writes a line. That it can't be written is no fault of the search.
    fn tell(&self, states: usize, depth: usize, tried: u64, seconds: u64) {
        let a_second = tried / seconds.max(1);
        let _written = match resident(self.rt) {
            Some(mebibytes) => eprintln!(self.rt;
                "explore: {states} states, depth {depth}, {a_second} choices a second, {mebibytes} MiB"
            ),
            None => eprintln!(self.rt;
                "explore: {states} states, depth {depth}, {a_second} choices a second"
            ),
        };
    }
}

impl<'a> Watcher for Progress<'a> {
    fn watch(&mut self, states: usize, depth: usize, tried: u64) {
        if self.left > 0 {
            self.left -= 1;
            return;
        }
        let Some(start) = self.start else {
            return;
        };
        let Ok(passed) = start.elapsed(self.rt) else {
            return;
        };
        self.pace(passed);
        if passed < self.next {
            return;
        }
        self.tell(states, depth, tried, passed.as_secs());
        self.next = passed.saturating_add(Duration::from_secs(1));
    }
}

/// The memory of this process in mebibytes, where the system tells it: the second word of its line, in pages of 4096 bytes.
fn resident(rt: &HostRuntime) -> Option<u64> {
    let text = fs::read_to_string(rt, "/proc/self/statm").ok()?;
    let pages: u64 = text.as_str().split(' ').nth(1)?.parse().ok()?;
    Some(pages / 256)
}
