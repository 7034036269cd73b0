//! Lines of a question.
ghost use Rattle.std.specs.Prelude.{◌≡◌, ◌≢◌, ◌<◌, ◌≤◌, ◌==◌, ◌||◌, bytes_eq, codes, false, length, true, IfOk, IfErr, OnOk, OnErr};
ghost use Rattle.coy_text.specs.Words.{field, words_of};
ghost use Rattle.object_store.specs.declared.sizes.Sizes.{Sizes};
ghost use Rattle.questions.specs.Choice.{IsChoiceOf};
ghost use Rattle.questions.specs.Question.{with_choice};
ghost use Rattle.listing_read.specs.declared.object_fault.QuestionFault.TheVariants.{WrongWords};
ghost use Rattle.question_lines.specs.declared.said.Said.TheVariants.{May};
ghost use Rattle.question_lines.specs.QuestionLine.{after_said, answered, as_untaken, asks_line, depth_line, end_line, is_kept, is_of_policy, line_answer, line_policy, line_question, may_line, must_after, new_said, plain_line, policy_answered, question_line, said_by, states_line, takes_memory, IsSaid, IsUntaken};
ghost use Rattle.separation_lines.specs.PolicyLine.{policy_line, after_line as policy_after_line};

use crate::atoms::groups;
use crate::choices::choice;
use crate::fault::Untaken;
use crate::fields::{has_words, limit, number};
use crate::phrase::Phrase;
use crate::said::{Next, Said};
use coy_io::LINE_LIMIT;
use coy_text::{is_skipped, is_visible, word, word_count, words_from};
use listing_read::QuestionFault;
use object_store::Sizes;
use questions::{Asks, Choice, Property, Question};
use separation_lines::read_policy;
use separation_policy::Policy;
use std::alloc::Global;

/// Takes line `n` in, and answers what the next line belongs to. After a fault, and where memory is wanting, the question
/// and its policy are as before; so they are after a line that is skipped. Lines that say a choice or ask something take memory,
/// and no others: none of the policy does.
pub fn read_question(
    alloc: Global,
    line: &[u8],
    n: u32,
    question: &mut Question,
    policy: &mut Policy,
) -> Result<Next, Untaken>
    ensures answer { result ≢ Err Untaken.OutOfMemory →
        result ≡ as_untaken (line_answer policy.old question.old n line.now) }
    ensures policy { policy.new ≡ line_policy policy.old line.now }
    ensures question { result ≢ Err Untaken.OutOfMemory →
        question.new ≡ line_question question.old n line.now }
    ensures before { result ≡ Err Untaken.OutOfMemory →
        (policy.new ≡ policy.old) × (question.new ≡ question.old) }
    ensures wanting { result ≡ Err Untaken.OutOfMemory → is_of_policy (words_of line.now) ≡ false }
    ensures takes { result ≡ Err Untaken.OutOfMemory → takes_memory (words_of line.now) ≡ true }
{
    if is_of_policy(line) {
        return Ok(state_policy(line, policy)?);
    }
    match said(alloc, question.sizes(), n, line) {
        Ok(said) => take_in(said, question),
        Err(untaken) => Err(untaken),
    }
}

/// Whether a line is one of the policy.
fn is_of_policy(line: &[u8]) -> bool
    ensures { result ≡ is_of_policy (words_of line.now) }
{
    let first = word(line, 0);
    first == b"domain".as_slice()
        || first == b"reads".as_slice()
        || first == b"writes".as_slice()
        || first == b"halts".as_slice()
        || first == b"logs".as_slice()
}

/// Takes a line of the policy in.
fn state_policy(line: &[u8], policy: &mut Policy) -> Result<Next, QuestionFault>
    ensures answer { result ≡ policy_answered (policy_line policy.old line.now) }
    ensures after { policy.new ≡ policy_after_line policy.old (policy_line policy.old line.now) }
{
    match read_policy(line, policy) {
        Ok(_) => Ok(Next::Question),
        Err(fault) => Err(QuestionFault::OfPolicy(fault)),
    }
}

/// Does with a question what a line says, unless it was said.
fn take_in(said: Said, question: &mut Question) -> Result<Next, Untaken>
    requires { IsSaid question.old.sizes said }
    ensures value { IfOk result (λ next. answered (new_said question.old.choices said) ≡ Ok next) }
    ensures after { OnOk result (question.new ≡ after_said question.old said) }
    ensures untaken { IfErr result (IsUntaken (new_said question.old.choices said)) }
    ensures before { OnErr result (question.new ≡ question.old) }
    ensures takes { result ≡ Err Untaken.OutOfMemory → is_kept said ≡ true }
{
    match said {
        Said::Nothing => Ok(Next::Question),
        Said::May(choice) => state_choice(choice, question),
        Said::Asked(property) => match question.ask(property) {
            Ok(()) => Ok(Next::Question),
            Err(_) => Err(Untaken::OutOfMemory),
        },
        Said::Depth(depth) => {
            question.limit_depth(depth);
            Ok(Next::Question)
        }
        Said::States(states) => {
            question.limit_states(states);
            Ok(Next::Question)
        }
        Said::Ends => Ok(Next::Schedule),
    }
}

/// States a choice, unless a line above states it.
fn state_choice(choice: Choice, question: &mut Question) -> Result<Next, Untaken>
    requires { IsChoiceOf question.old.sizes.harts choice }
    ensures value { IfOk result (λ next.
        answered (new_said question.old.choices (May choice)) ≡ Ok next) }
    ensures after { OnOk result (question.new ≡ with_choice question.old choice) }
    ensures untaken { IfErr result (IsUntaken (new_said question.old.choices (May choice))) }
    ensures before { OnErr result (question.new ≡ question.old) }
{
    if question.has_choice(choice) {
        return Err(Untaken::Refused(QuestionFault::Taken));
    }
    match question.may(choice) {
        Ok(()) => Ok(Next::Question),
        Err(_) => Err(Untaken::OutOfMemory),
    }
}

/// What line `n` says.
#[tactic(auto, unfolding(crate::specs::QuestionLine::question_line))]
fn said(alloc: Global, sizes: Sizes, n: u32, line: &[u8]) -> Result<Said, Untaken>
    ensures value { IfOk result (λ said. question_line sizes n line.now ≡ Ok said) }
    ensures range { IfOk result (IsSaid sizes) }
    ensures untaken { IfErr result (IsUntaken (question_line sizes n line.now)) }
    ensures takes { result ≡ Err Untaken.OutOfMemory → takes_memory (words_of line.now) ≡ true }
    ensures kept { let takes = takes_memory (words_of line.now) in
        IfOk result (λ said. is_kept said ≡ true → takes ≡ true) }
{
    if line.len() > LINE_LIMIT {
        return Err(Untaken::Refused(QuestionFault::LineTooLong));
    }
    if !is_visible(line) {
        return Err(Untaken::Refused(QuestionFault::BadByte));
    }
    if is_skipped(line) {
        return Ok(Said::Nothing);
    }
    by_first_word(alloc, sizes, n, line)
}

#[tactic(auto, unfolding(crate::specs::QuestionLine::said_by))]
fn by_first_word(alloc: Global, sizes: Sizes, n: u32, line: &[u8]) -> Result<Said, Untaken>
    ensures value { IfOk result (λ said. said_by sizes n (words_of line.now) ≡ Ok said) }
    ensures range { IfOk result (IsSaid sizes) }
    ensures untaken { IfErr result (IsUntaken (said_by sizes n (words_of line.now))) }
    ensures takes { result ≡ Err Untaken.OutOfMemory → takes_memory (words_of line.now) ≡ true }
    ensures kept { let takes = takes_memory (words_of line.now) in
        IfOk result (λ said. is_kept said ≡ true → takes ≡ true) }
{
    let first = word(line, 0);
    if first == b"never".as_slice() {
        return asks(alloc, sizes, n, Asks::Never, line);
    }
    if first == b"ever".as_slice() {
        return asks(alloc, sizes, n, Asks::Ever, line);
    }
    if first == b"must".as_slice() {
        return asks(alloc, sizes, n, Asks::Must, line);
    }
    if first == b"after".as_slice() {
        return must_after(alloc, sizes, n, &Phrase::of(words_from(line, 1)));
    }
    if first == b"count".as_slice() {
        return asks(alloc, sizes, n, Asks::Count, line);
    }
    match plain(sizes, line) {
        Ok(said) => Ok(said),
        Err(fault) => Err(Untaken::Refused(fault)),
    }
}

/// A line that asks something.
#[tactic(auto, unfolding(crate::specs::QuestionLine::asks_line))]
fn asks(alloc: Global, sizes: Sizes, n: u32, asks: Asks, line: &[u8]) -> Result<Said, Untaken>
    ensures value { IfOk result (λ said. asks_line sizes n asks (words_of line.now) ≡ Ok said) }
    ensures range { IfOk result (IsSaid sizes) }
    ensures untaken { IfErr result (IsUntaken (asks_line sizes n asks (words_of line.now))) }
{
    match groups(alloc, sizes, &Phrase::of(words_from(line, 1))) {
        Ok(groups) => Ok(Said::Asked(Property::new(alloc, n, asks, groups))),
        Err(untaken) => Err(untaken),
    }
}

/// What has to come after something else.
#[tactic(auto, unfolding(crate::specs::QuestionLine::must_after))]
fn must_after(alloc: Global, sizes: Sizes, n: u32, words: &Phrase<'_>) -> Result<Said, Untaken>
    ensures value { IfOk result (λ said. must_after sizes n words.now ≡ Ok said) }
    ensures range { IfOk result (IsSaid sizes) }
    ensures untaken { IfErr result (IsUntaken (must_after sizes n words.now)) }
{
    let count = words.before(b"must".as_slice());
    let first = match groups(alloc, sizes, &words.first(count)) {
        Ok(first) => first,
        Err(untaken) => return Err(untaken),
    };
    match groups(alloc, sizes, &words.behind_word(b"must".as_slice())) {
        Ok(groups) => Ok(Said::Asked(Property::must_after(n, first, groups))),
        Err(untaken) => Err(untaken),
    }
}

/// Any other line.
#[tactic(auto, unfolding(crate::specs::QuestionLine::plain_line))]
fn plain(sizes: Sizes, line: &[u8]) -> Result<Said, QuestionFault>
    ensures value { result ≡ plain_line sizes (words_of line.now) }
    ensures range { IfOk result (IsSaid sizes) }
    ensures kept { let may = bytes_eq (field (words_of line.now) 0) (codes "may") in
        IfOk result (λ said. is_kept said ≡ true → may ≡ true) }
{
    let first = word(line, 0);
    if first == b"may".as_slice() {
        return may(sizes, line);
    }
    if first == b"depth".as_slice() {
        return depth(line);
    }
    if first == b"states".as_slice() {
        return states(line);
    }
    if first == b"end".as_slice() {
        return end(line);
    }
    Err(QuestionFault::UnknownQuestion)
}

#[tactic(auto, unfolding(crate::specs::QuestionLine::may_line))]
fn may(sizes: Sizes, line: &[u8]) -> Result<Said, QuestionFault>
    ensures value { result ≡ may_line sizes (words_of line.now) }
    ensures range { IfOk result (IsSaid sizes) }
{
    let choice = choice(sizes, line)?;
    Ok(Said::May(choice))
}

#[tactic(auto, unfolding(crate::specs::QuestionLine::depth_line))]
fn depth(line: &[u8]) -> Result<Said, QuestionFault>
    ensures value { result ≡ depth_line (words_of line.now) }
    ensures kept { IfOk result (λ said. is_kept said ≡ false) }
    ensures range { (sizes : Sizes) → IfOk result (IsSaid sizes) }
{
    has_words(word_count(line), 2)?;
    let depth = number(word(line, 1))?;
    Ok(Said::Depth(depth))
}

#[tactic(auto, unfolding(crate::specs::QuestionLine::states_line))]
fn states(line: &[u8]) -> Result<Said, QuestionFault>
    ensures value { result ≡ states_line (words_of line.now) }
    ensures kept { IfOk result (λ said. is_kept said ≡ false) }
    ensures range { (sizes : Sizes) → IfOk result (IsSaid sizes) }
{
    has_words(word_count(line), 2)?;
    let states = limit(word(line, 1))?;
    Ok(Said::States(states))
}

#[tactic(auto, unfolding(crate::specs::QuestionLine::end_line))]
fn end(line: &[u8]) -> Result<Said, QuestionFault>
    ensures value { result ≡ end_line (words_of line.now) }
    ensures kept { IfOk result (λ said. is_kept said ≡ false) }
    ensures range { (sizes : Sizes) → IfOk result (IsSaid sizes) }
{
    has_words(word_count(line), 1)?;
    Ok(Said::Ends)
}
