//! Lines of a schedule.
ghost use Rattle.std.specs.Prelude.{ℕ, ◌<◌, ◌≤◌, ◌≡◌, ◌==◌, length, IfOk, IfSome};
ghost use Rattle.coy_text.specs.Words.{words_of};
ghost use Rattle.listing_read.specs.declared.fault.ScheduleFault.TheVariants.{WrongWords};
ghost use Rattle.listing_read.specs.Faults.{ensured};
ghost use Rattle.listing_read.specs.Schedule.{IsTimed, schedule_number, hart_of, times_of, step_line, tick_line, round_line, timed_of, asked_by, schedule_line, eventless_line};

use crate::fault::ScheduleFault;
use coy_io::LINE_LIMIT;
use coy_text::{is_skipped, is_visible, read_dec, word, word_count};

/// What a line of a schedule asks for.
#[derive(Clone, Copy)]
pub enum Timed {
    /// So many steps of one hart.
    Step { hart: u8, times: u32 },
    /// One tick of a hart's timer.
    Tick { hart: u8 },
    /// So many rounds, each a step of every hart from 0 upwards.
    Round { times: u32 },
}

/// The events of a line, on a machine with so many harts. `None` for a line that is skipped.
#[tactic(auto, unfolding(crate::specs::Schedule::schedule_line))]
pub fn read_event(line: &[u8], harts: u8) -> Result<Option<Timed>, ScheduleFault>
    ensures value { result ≡ schedule_line harts line.now }
    ensures range { IfOk result (λ event. IfSome event (IsTimed harts)) }
{
    if line.len() > LINE_LIMIT {
        return Err(ScheduleFault::LineTooLong);
    }
    if !is_visible(line) {
        return Err(ScheduleFault::BadByte);
    }
    if is_skipped(line) {
        return Ok(None);
    }
    asked(line, harts)
}

/// Reads a line where no event may stand: it is skipped, or this is its fault.
#[tactic(auto, unfolding(crate::specs::Schedule::eventless_line))]
pub fn read_eventless(line: &[u8]) -> Result<(), ScheduleFault>
    ensures { result ≡ eventless_line line.now }
{
    if line.len() > LINE_LIMIT {
        return Err(ScheduleFault::LineTooLong);
    }
    if !is_visible(line) {
        return Err(ScheduleFault::BadByte);
    }
    if !is_skipped(line) {
        return Err(ScheduleFault::EventInPack);
    }
    Ok(())
}

#[tactic(auto, unfolding(crate::specs::Schedule::asked_by))]
fn asked(line: &[u8], harts: u8) -> Result<Option<Timed>, ScheduleFault>
    ensures value { result ≡ asked_by harts (words_of line.now) }
    ensures range { IfOk result (λ event. IfSome event (IsTimed harts)) }
{
    Ok(Some(by_first_word(line, harts)?))
}

#[tactic(auto, unfolding(crate::specs::Schedule::timed_of))]
fn by_first_word(line: &[u8], harts: u8) -> Result<Timed, ScheduleFault>
    ensures value { result ≡ timed_of harts (words_of line.now) }
    ensures range { IfOk result (IsTimed harts) }
{
    let head = word(line, 0);
    if head == b"step".as_slice() {
        return step(line, harts);
    }
    if head == b"tick".as_slice() {
        return tick(line, harts);
    }
    if head == b"round".as_slice() {
        return round(line);
    }
    Err(ScheduleFault::UnknownEvent)
}

#[tactic(auto, unfolding(crate::specs::Schedule::step_line))]
fn step(line: &[u8], harts: u8) -> Result<Timed, ScheduleFault>
    ensures value { result ≡ step_line harts (words_of line.now) }
    ensures range { IfOk result (IsTimed harts) }
{
    has_words(line, 3)?;
    let hart = hart(harts, word(line, 1))?;
    let times = times(word(line, 2))?;
    Ok(Timed::Step { hart, times })
}

#[tactic(auto, unfolding(crate::specs::Schedule::tick_line))]
fn tick(line: &[u8], harts: u8) -> Result<Timed, ScheduleFault>
    ensures value { result ≡ tick_line harts (words_of line.now) }
    ensures range { IfOk result (IsTimed harts) }
{
    has_words(line, 2)?;
    let hart = hart(harts, word(line, 1))?;
    Ok(Timed::Tick { hart })
}

#[tactic(auto, unfolding(crate::specs::Schedule::round_line))]
fn round(line: &[u8]) -> Result<Timed, ScheduleFault>
    ensures value { result ≡ round_line (words_of line.now) }
    ensures range { (harts : ℕ) → IfOk result (IsTimed harts) }
{
    has_words(line, 2)?;
    let times = times(word(line, 1))?;
    Ok(Timed::Round { times })
}

fn has_words(line: &[u8], count: usize) -> Result<(), ScheduleFault>
    ensures { result ≡ ensured (length (words_of line.now) == count) WrongWords }
{
    if word_count(line) != count {
        return Err(ScheduleFault::WrongWords);
    }
    Ok(())
}

fn number(word: &[u8]) -> Result<u32, ScheduleFault>
    ensures { result ≡ schedule_number word.now }
{
    match read_dec(word) {
        Ok(value) => Ok(value),
        Err(_) => Err(ScheduleFault::BadNumber),
    }
}

#[tactic(auto, unfolding(crate::specs::Schedule::hart_of))]
fn hart(harts: u8, word: &[u8]) -> Result<u8, ScheduleFault>
    ensures value { result ≡ hart_of harts word.now }
    ensures there { IfOk result (λ hart. hart < harts) }
{
    let value = number(word)?;
    if value >= harts as u32 {
        return Err(ScheduleFault::NoHart);
    }
    Ok(value as u8)
}

#[tactic(auto, unfolding(crate::specs::Schedule::times_of))]
fn times(word: &[u8]) -> Result<u32, ScheduleFault>
    ensures value { result ≡ times_of word.now }
    ensures least { IfOk result (λ n. 1 ≤ n) }
    ensures most { IfOk result (λ n. n ≤ 1000000) }
{
    let value = number(word)?;
    if value < 1 || value > 1_000_000 {
        return Err(ScheduleFault::BadRepeat);
    }
    Ok(value)
}
