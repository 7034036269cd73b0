//! What is told of an exploration.
ghost use Rattle.std.specs.Prelude.{◌≡◌, ◌≤◌, length, take, drop, codes};
ghost use Rattle.coy_io.specs.Written.{WroteTo};
ghost use Rattle.questions.specs.Question.{is_count};
ghost use Rattle.questions.specs.Asking.{asking, is_want};
ghost use Rattle.explore_program.specs.explored_text.Text.{avoided_text, closed_text, explored_text, led_to, missed_text};

use crate::explored_text::choices::put_choices;
use crate::explored_text::counts::{number_at, put_counts};
use crate::explored_text::sizes::{put_avoided_line, put_led, put_size};
use breadth_first::{Explored, Missed, Size};
use coy_io::{Sink, WriteFault};
use questions::{Choice, Property, line_of};

/// Writes what an exploration came to. `shown` are the choices that lead to the state that it tells, with their steps counted,
/// and behind them those of a cycle, where it tells one; `wants` and `counted` are the numbers of the properties that ask what
/// comes, and of those that say `count`.
#[tactic(auto, unfolding(crate::specs::explored_text::Text::explored_text))]
pub fn put_explored<K: Sink>(
    properties: &[Property],
    shown: &[Choice],
    wants: &[usize],
    counted: &[usize],
    explored: &Explored,
    output: &mut K,
) -> Result<(), WriteFault>
    requires wants { wants.now ≡ asking is_want properties.now }
    requires counted { counted.now ≡ asking is_count properties.now }
    ensures { WroteTo K.taken K.faults output.old output.new result
        (explored_text properties.now shown.now explored.now) }
{
    match explored {
        Explored::Found { property, path } => {
            put_led_to("found", line_of(properties, *property), path, shown, output)
        }
        Explored::Closed {
            size,
            counts,
            missed,
        } => {
            put_counts(properties, counted, counts, output)?;
            put_closed(properties, shown, wants, *size, missed, output)
        }
        Explored::Open { size, counts } => {
            put_counts(properties, counted, counts, output)?;
            put_size("open", *size, output)
        }
    }
}

/// Writes what is told where all states were seen.
fn put_closed<K: Sink>(
    properties: &[Property],
    shown: &[Choice],
    wants: &[usize],
    size: Size,
    missed: &Option<Missed>,
    output: &mut K,
) -> Result<(), WriteFault>
    requires { wants.now ≡ asking is_want properties.now }
    ensures { WroteTo K.taken K.faults output.old output.new result
        (closed_text properties.now shown.now size missed.now) }
{
    match missed {
        None => put_size("holds", size, output),
        Some(missed) => put_missed(properties, shown, wants, missed, output),
    }
}

/// Writes what is told of a property that isn't met.
fn put_missed<K: Sink>(
    properties: &[Property],
    shown: &[Choice],
    wants: &[usize],
    missed: &Missed,
    output: &mut K,
) -> Result<(), WriteFault>
    requires { wants.now ≡ asking is_want properties.now }
    ensures { WroteTo K.taken K.faults output.old output.new result
        (missed_text properties.now shown.now missed.now) }
{
    match missed {
        Missed::Lost(lost) => {
            let line = line_of(properties, number_at(wants, lost.want));
            put_led_to("lost", line, &lost.path, shown, output)
        }
        Missed::Avoided(avoided) => {
            let line = line_of(properties, number_at(wants, avoided.want));
            let (path, cycle) = parted(shown, avoided.path.len());
            put_avoided(line, path, cycle, output)
        }
    }
}

/// The first choices of a list, as many as this, and those behind them.
fn parted(choices: &[Choice], count: usize) -> (&[Choice], &[Choice])
    ensures front { result.0.now ≡ take count choices.now }
    ensures behind { result.1.now ≡ drop count choices.now }
{
    choices.split_at(count.min(choices.len()))
}

/// Writes the line of a property that can be avoided, the choices that lead to a cycle, and behind them the cycle's.
#[tactic(auto, unfolding(crate::specs::explored_text::Text::avoided_text))]
fn put_avoided<K: Sink>(
    line: u32,
    path: &[Choice],
    cycle: &[Choice],
    output: &mut K,
) -> Result<(), WriteFault>
    ensures { WroteTo K.taken K.faults output.old output.new result
        (avoided_text line path.now cycle.now) }
{
    put_avoided_line(line, path.len(), cycle.len(), output)?;
    put_choices(path, output)?;
    put_choices(cycle, output)
}

/// Writes the line of a property, and the choices that lead to a state.
#[tactic(auto, unfolding(crate::specs::explored_text::Text::led_to))]
fn put_led_to<K: Sink>(
    word: &str,
    line: u32,
    path: &[u32],
    shown: &[Choice],
    output: &mut K,
) -> Result<(), WriteFault>
    requires { length word.now ≤ 20 }
    ensures { WroteTo K.taken K.faults output.old output.new result
        (led_to word.now line path.now shown.now) }
{
    put_led(word, line, path.len(), output)?;
    put_choices(shown, output)
}
