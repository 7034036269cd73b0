//! What terms are made of.
use cap_format::CapKind;

/// How many bytes of a page are read as one number.
#[derive(Clone, Copy)]
pub enum Width {
    /// One.
    Byte,
    /// Two.
    Half,
    /// Four.
    Word,
}

/// A term that has no terms in it.
#[derive(Clone, Copy)]
pub enum Operand {
    /// This number.
    Number {
        value: u32,
    },
    /// The register of this number, 0 to 31.
    Register {
        process: u16,
        register: u8,
    },
    /// The address of the process's next instruction.
    Pc {
        process: u16,
    },
    /// The number that the bytes of the page at this offset spell, the least byte first.
    Bytes {
        width: Width,
        page: u16,
        offset: u16,
    },
    /// How often the object was destroyed.
    Age {
        kind: CapKind,
        number: u16,
    },
    /// The payload that the endpoint is at.
    Payload {
        endpoint: u16,
    },
}

/// What is made of two terms.
#[derive(Clone, Copy)]
pub enum Operator {
    /// Their sum, modulo 2^32.
    Plus,
    /// The first less the second, modulo 2^32.
    Minus,
    /// The bits that both have.
    Both,
}

/// How two terms may stand to each other.
#[derive(Clone, Copy)]
pub enum Comparison {
    /// They are the same number.
    Same,
    /// The first is less than the second, as numbers without a sign.
    Below,
    /// The first is at most the second, as numbers without a sign.
    Most,
    /// The first is less than the second, as numbers in two's complement.
    Less,
}
