//! What may come next.
ghost use Rattle.std.specs.Prelude.{◌≡◌, ◌≤◌, ◌==◌, ◌||◌, IfOk};
ghost use Rattle.coy_text.specs.Words.{words_of};
ghost use Rattle.questions.specs.Choice.{IsChoiceOf};
ghost use Rattle.question_lines.specs.QuestionLine.{choice_line, run_line, step_line, tick_line, times_of};

use crate::fields::{hart, has_words, times};
use coy_text::{word, word_count};
use listing_read::QuestionFault;
use object_store::Sizes;
use questions::Choice;

/// The choice that a line states.
#[tactic(auto, unfolding(crate::specs::QuestionLine::choice_line))]
pub(crate) fn choice(sizes: Sizes, line: &[u8]) -> Result<Choice, QuestionFault>
    ensures value { result ≡ choice_line sizes (words_of line.now) }
    ensures range { IfOk result (IsChoiceOf sizes.harts) }
{
    let second = word(line, 1);
    if second == b"step".as_slice() {
        return step(sizes, line);
    }
    if second == b"run".as_slice() {
        return run(sizes, line);
    }
    if second == b"tick".as_slice() {
        return tick(sizes, line);
    }
    Err(QuestionFault::UnknownEvent)
}

#[tactic(auto, unfolding(crate::specs::QuestionLine::step_line))]
fn step(sizes: Sizes, line: &[u8]) -> Result<Choice, QuestionFault>
    ensures value { result ≡ step_line sizes (words_of line.now) }
    ensures range { IfOk result (IsChoiceOf sizes.harts) }
{
    let count = word_count(line);
    if count != 3 && count != 4 {
        return Err(QuestionFault::WrongWords);
    }
    let hart = hart(sizes.harts, word(line, 2))?;
    let times = times_of(line)?;
    Ok(Choice::Steps { hart, times })
}

/// How many steps, 1 where it isn't said.
#[tactic(auto, unfolding(crate::specs::QuestionLine::times_of))]
fn times_of(line: &[u8]) -> Result<u32, QuestionFault>
    ensures value { result ≡ times_of (words_of line.now) }
    ensures least { IfOk result (λ n. 1 ≤ n) }
    ensures most { IfOk result (λ n. n ≤ 1000000) }
{
    if word_count(line) == 3 {
        return Ok(1);
    }
    times(word(line, 3))
}

#[tactic(auto, unfolding(crate::specs::QuestionLine::run_line))]
fn run(sizes: Sizes, line: &[u8]) -> Result<Choice, QuestionFault>
    ensures value { result ≡ run_line sizes (words_of line.now) }
    ensures range { IfOk result (IsChoiceOf sizes.harts) }
{
    has_words(word_count(line), 3)?;
    let hart = hart(sizes.harts, word(line, 2))?;
    Ok(Choice::Run { hart })
}

#[tactic(auto, unfolding(crate::specs::QuestionLine::tick_line))]
fn tick(sizes: Sizes, line: &[u8]) -> Result<Choice, QuestionFault>
    ensures value { result ≡ tick_line sizes (words_of line.now) }
    ensures range { IfOk result (IsChoiceOf sizes.harts) }
{
    has_words(word_count(line), 3)?;
    let hart = hart(sizes.harts, word(line, 2))?;
    Ok(Choice::Tick { hart })
}
