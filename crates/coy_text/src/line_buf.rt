//! The buffer in which a line is put together before it is written.
ghost use Rattle.std.specs.Prelude.{ℕ, List, ◌≡◌, ◌+◌, ◌%◌, ◌^◌, ◌<◌, ◌≤◌, [], ◌∷◌, ◌++◌, length, codes, decimal};
ghost use Rattle.coy_text.specs.Numeral.{hex_glyph, hex_text};

use arrayvec::ArrayString;
use std::marker::Model;

/// A text of at most 1,024 bytes. A clause sees it as the list of its bytes.
#[derive(Drop)]
pub struct LineBuf {
    text: ArrayString<1024>,
}

impl Model for LineBuf {
    ghost use Rattle.std.specs.Prelude.{ℕ, List};

    ghost Value = { List ℕ };

    ghost view = { λ line. line.text.bytes };
}

impl LineBuf {
    /// A line without text.
    pub fn new() -> Self
        ensures { result ≡ [] }
    {
        Self {
            text: ArrayString::new(),
        }
    }

    /// Takes all text out.
    pub fn clear(&mut self)
        ensures { self.new ≡ [] }
    {
        self.text.clear();
    }

    /// The text so far.
    pub fn as_bytes(&self) -> &[u8]
        ensures text { result.now ≡ self.now }
        ensures bound { length result.now ≤ 1024 }
    {
        self.text.as_str().as_bytes()
    }

    /// Appends a text as it is.
    pub fn push_word(&mut self, word: &str)
        requires { length self.old + length word.now ≤ 1024 }
        ensures text { self.new ≡ self.old ++ word.now }
        ensures len { length self.new ≡ length self.old + length word.now }
    {
        self.text.push_str(word);
    }

    /// Appends a byte of ASCII.
    fn push_byte(&mut self, byte: u8)
        requires room { length self.old + 1 ≤ 1024 }
        requires ascii { byte < 128 }
        ensures text { self.new ≡ self.old ++ byte ∷ [] }
        ensures len { length self.new ≡ length self.old + 1 }
    {
        self.text.push(char::from(byte));
    }

    /// Appends a number in decimal, without leading zeros.
    #[inline(always)]
    #[tactic(auto, using(crate::proofs::NumeralLaws::length_decimal, crate::proofs::Numerals::one_digit, crate::proofs::Numerals::length_one))]
    pub fn push_dec(&mut self, value: u64)
        requires { length self.old + length (decimal value) ≤ 1024 }
        ensures text { self.new ≡ self.old ++ decimal value }
        ensures len { length self.new ≡ length self.old + length (decimal value) }
        ensures bound { length (decimal value) ≤ 20 }
    {
        if value < 10 {
            self.push_byte(b'0' + value as u8);
        } else {
            self.push_digits(value);
        }
    }

    /// Appends a number in decimal as `push_dec` does. It is not inlined, so that a number of one digit costs no call.
    #[inline(never)]
    #[tactic(auto, using(crate::proofs::NumeralLaws::length_decimal, crate::proofs::Numerals::one_digit, crate::proofs::Numerals::more_digits, crate::proofs::Numerals::fewer_digits, crate::proofs::Numerals::length_one))]
    fn push_digits(&mut self, value: u64)
        requires { length self.old + length (decimal value) ≤ 1024 }
        ensures text { self.new ≡ self.old ++ decimal value }
        ensures len { length self.new ≡ length self.old + length (decimal value) }
    {
        if value >= 10 {
            self.push_digits(value / 10);
        }
        self.push_byte(b'0' + (value % 10) as u8);
    }

    /// Appends a number of 32 bits in decimal, which takes at most 10 digits.
    #[tactic(auto, using(crate::proofs::NumeralLaws::length_decimal_32))]
    pub fn push_number(&mut self, number: u32)
        requires { length self.old + 10 ≤ 1024 }
        ensures text { self.new ≡ self.old ++ decimal number }
        ensures len { length self.new ≤ length self.old + 10 }
    {
        self.push_dec(u64::from(number));
    }

    /// Appends a text as it is, and a number in decimal behind it.
    pub fn push_numbered(&mut self, word: &str, number: u32)
        requires { length self.old + length word.now + 10 ≤ 1024 }
        ensures text { self.new ≡ self.old ++ word.now ++ decimal number }
        ensures len { length self.new ≤ length self.old + length word.now + 10 }
    {
        self.push_word(word);
        self.push_number(number);
    }

    /// Appends a space, and a word of 32 bits in eight hexadecimal digits.
    pub fn push_value(&mut self, value: u32)
        requires { length self.old + 9 ≤ 1024 }
        ensures text { self.new ≡ self.old ++ codes " " ++ hex_text 8 value }
        ensures len { length self.new ≡ length self.old + 9 }
    {
        self.push_word(" ");
        self.push_eight(value);
    }

    /// Appends a word of 32 bits in eight hexadecimal digits.
    #[tactic(auto, unfolding(crate::specs::Numeral::hex_text))]
    pub fn push_eight(&mut self, value: u32)
        requires { length self.old + 8 ≤ 1024 }
        ensures text { self.new ≡ self.old ++ hex_text 8 value }
        ensures len { length self.new ≡ length self.old + 8 }
    {
        self.push_four(value / 16 / 16 / 16 / 16);
        self.push_four(value);
    }

    /// Appends the last four hexadecimal digits of a number.
    #[tactic(auto, unfolding(crate::specs::Numeral::hex_text))]
    fn push_four(&mut self, value: u32)
        requires { length self.old + 4 ≤ 1024 }
        ensures text { self.new ≡ self.old ++ hex_text 4 value }
        ensures len { length self.new ≡ length self.old + 4 }
    {
        let second = value / 16;
        let third = second / 16;
        self.push_digit(third / 16);
        self.push_digit(third);
        self.push_digit(second);
        self.push_digit(value);
    }

    /// Appends the last hexadecimal digit of a number.
    fn push_digit(&mut self, value: u32)
        requires { length self.old + 1 ≤ 1024 }
        ensures text { self.new ≡ self.old ++ hex_glyph (value % 16) ∷ [] }
        ensures len { length self.new ≡ length self.old + 1 }
    {
        let digit = (value % 16) as u8;
        let first = if digit < 10 { b'0' } else { b'a' - 10 };
        self.push_byte(first + digit);
    }

    /// Appends a number in exactly `digits` hexadecimal digits, in lower case and with leading zeros.
    #[tactic(auto, unfolding(crate::specs::Numeral::hex_text))]
    pub fn push_hex(&mut self, value: u32, digits: u8)
        requires room { length self.old + digits ≤ 1024 }
        requires some { 1 ≤ digits }
        requires most { digits ≤ 8 }
        requires fits { value < 16 ^ digits }
        ensures text { self.new ≡ self.old ++ hex_text digits value }
        ensures len { length self.new ≡ length self.old + digits }
    {
        if digits > 1 {
            self.push_hex(value / 16, digits - 1);
        }
        self.push_digit(value);
    }
}
