//! The words of a line: what stands between spaces.
ghost use Rattle.std.specs.Prelude.{◌≡◌, ◌≢◌, ◌+◌, ◌≤◌, ◌==◌, not, option_map, [], length, min, drop, position, slice_index, slice_index_or};
ghost use Rattle.coy_text.specs.Words.{words_of, count_of, cut_at};

use memchr::memchr;

/// Where the first byte `mark` stands.
#[tactic(auto, using(crate::proofs::Found::first_byte))]
fn first_mark(line: &[u8], mark: u8) -> Option<usize>
    ensures { result ≡ position (λ byte. byte == mark) line.now }
{
    memchr(mark, line)
}

/// Where the first byte stands that is no space.
fn first_letter(line: &[u8]) -> Option<usize>
    ensures { result ≡ position (λ byte. not (byte == 32)) line.now }
{
    line.iter().position(|byte| *byte != b' ')
}

/// The line without the spaces at its front.
fn without_spaces(line: &[u8]) -> &[u8]
    ensures words { words_of result.now ≡ words_of line.now }
    ensures front { slice_index result.now 0 ≢ 32 }
    ensures len { length result.now ≤ length line.now }
{
    line.split_at(first_letter(line).unwrap_or(line.len())).1
}

/// The first word, empty where there is none, and what follows it.
pub(crate) fn next_word(line: &[u8]) -> (&[u8], &[u8])
    ensures first { result.0.now ≡ slice_index_or (words_of line.now) 0 [] }
    ensures rest { words_of result.1.now ≡ drop 1 (words_of line.now) }
    ensures more { count_of line.now ≡ count_of result.1.now + min 1 (length result.0.now) }
    ensures len { length result.0.now + length result.1.now ≤ length line.now }
{
    let line = without_spaces(line);
    line.split_at(first_mark(line, b' ').unwrap_or(line.len()))
}

/// What follows the first `n` words of a line, which is empty where the line has no more.
pub fn words_from(line: &[u8], n: usize) -> &[u8]
    ensures { words_of result.now ≡ drop n (words_of line.now) }
{
    let mut rest = line;
    for _ in 0..n {
        rest = next_word(rest).1;
    }
    rest
}

/// Word `n` of a line, from 0, which is empty where the line has no more.
pub fn word(line: &[u8], n: usize) -> &[u8]
    ensures { result.now ≡ slice_index_or (words_of line.now) n [] }
{
    next_word(words_from(line, n)).0
}

/// How many words a line has.
pub fn word_count(line: &[u8]) -> usize
    ensures { result ≡ count_of line.now }
{
    let mut count = 0;
    let mut rest = line;
    loop {
        let (word, behind) = next_word(rest);
        if word.is_empty() {
            return count;
        }
        rest = behind;
        count += 1;
    }
}

/// What stands before and behind the first byte `mark` of a word, or none where it has no such byte.
pub fn cut(word: &[u8], mark: u8) -> Option<(&[u8], &[u8])>
    ensures { option_map (λ parts. (parts.0.now, parts.1.now)) result ≡ cut_at mark word.now }
{
    let place = first_mark(word, mark)?;
    let (front, behind) = word.split_at(place);
    Some((front, behind.split_at(1).1))
}
