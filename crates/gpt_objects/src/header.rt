//! The header of a GPT.
ghost use Rattle.std.specs.Prelude.{◌≡◌, ◌≤◌};
ghost use Rattle.gpt_objects.specs.Header.{header_of, empty_header, IsHeader};

use std::marker::Model;

/// What a GPT says of its slots. Slots 14 and 15 are ordinary ones where the flag for them is not set.
#[derive(Clone, Copy)]
pub struct GptHeader {
    l2v: u8,
    ha: bool,
    bg: bool,
}

impl Model for GptHeader {
    ghost use Rattle.gpt_objects.specs.Header.{HeaderValue, header_of, IsHeader};

    ghost Value = { HeaderValue };

    ghost view = { λ h. header_of h.l2v h.ha h.bg };

    ghost invariant = { λ h. IsHeader (header_of h.l2v h.ha h.bg) };

    ghost inverse = { λ v. record { l2v = v.l2v; ha = v.ha; bg = v.bg } };
}

impl GptHeader {
    pub fn new(l2v: u8, ha: bool, bg: bool) -> GptHeader
        requires low { 12 ≤ l2v }
        requires high { l2v ≤ 31 }
        ensures { result ≡ header_of l2v ha bg }
    {
        GptHeader { l2v, ha, bg }
    }

    /// The header of an empty GPT.
    pub(crate) fn empty() -> GptHeader
        ensures { result ≡ empty_header }
    {
        GptHeader::new(12, false, false)
    }

    /// The logarithm of the number of bytes that one slot covers.
    pub fn l2v(self) -> u8
        ensures value { result ≡ self.l2v }
        ensures range { IsHeader self }
    {
        self.l2v
    }

    /// Whether slot 15 holds the handler of faults below this GPT.
    pub fn ha(self) -> bool
        ensures { result ≡ self.ha }
    {
        self.ha
    }

    /// Whether slot 14 holds the background of windows below this GPT.
    pub fn bg(self) -> bool
        ensures { result ≡ self.bg }
    {
        self.bg
    }
}
