//! Lines without regard to what they say.
ghost use Rattle.std.specs.Prelude.{◌≡◌};
ghost use Rattle.coy_text.specs.Line.{is_visible_line, is_skipped};
ghost use Rattle.coy_text.specs.Words.{words_of};

use crate::word;

/// Whether all bytes of a line are spaces or visible characters of ASCII.
///
/// It looks at each byte whatever the others were, so that the processor takes several at once.
#[tactic(auto, using(std::proofs::lemmas::List::Folds::list_all_more))]
pub fn is_visible(line: &[u8]) -> bool
    ensures { result ≡ is_visible_line line.now }
{
    let mut visible = true;
    for byte in line {
        visible &= (32 <= *byte) & (*byte <= 126);
    }
    visible
}

/// Whether a line has nothing to say: no word, or a first word that begins with `#`.
pub fn is_skipped(line: &[u8]) -> bool
    ensures { result ≡ is_skipped (words_of line.now) }
{
    match word(line, 0) {
        [] => true,
        [first, ..] => *first == b'#',
    }
}
