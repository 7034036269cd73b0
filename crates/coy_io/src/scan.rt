//! Where a line ends.
ghost use Rattle.std.specs.Prelude.{◌≡◌, ◌≤◌, length, position};
ghost use Rattle.coy_io.specs.Lines.{is_line_feed, line_len};

/// How many bytes stand before the first line feed, or how many there are where there is none.
#[tactic(auto, using(crate::proofs::FirstLine::line_len_without))]
pub(crate) fn first_line(bytes: &[u8]) -> usize
    ensures value { result ≡ line_len bytes.now }
    ensures bound { result ≤ length bytes.now }
{
    match line_end(bytes) {
        Some(end) => end,
        None => bytes.len(),
    }
}

/// The same, where no line feed is among the first `read` bytes.
#[tactic(auto, using(crate::proofs::FirstLine::line_len_from, crate::proofs::FirstLine::line_len_within, std::proofs::lemmas::List::take_rest))]
pub(crate) fn first_line_from(bytes: &[u8], read: usize) -> usize
    requires { read ≤ line_len bytes.now }
    ensures value { result ≡ line_len bytes.now }
    ensures bound { result ≤ length bytes.now }
{
    read + first_line(&bytes[read..])
}

fn line_end(bytes: &[u8]) -> Option<usize>
    ensures { result ≡ position is_line_feed bytes.now }
{
    bytes.iter().position(|byte| *byte == b'\n')
}
