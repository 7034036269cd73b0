use cap_format::Restr;

/// The GPT at which a walk joins those of other spaces, with all that decides how it goes on from there: the key of
/// a leaf table that serves them.
#[derive(Clone, Copy, PartialEq, Eq)]
pub struct Producer {
    /// The GPT's number.
    pub gpt: u16,
    /// The GPT's age.
    pub age: u32,
    /// What is left of the address behind the guard of the capability that named the GPT, in regions of `2^22` bytes.
    pub top: u16,
    /// All restrictions that were met up to there.
    pub restr: Restr,
    /// The background in force before the GPT's header is used.
    pub background: Option<Background>,
    /// How many capabilities may still be met.
    pub left: u8,
}

/// A background GPT.
#[derive(Clone, Copy, PartialEq, Eq)]
pub struct Background {
    /// Its number.
    pub gpt: u16,
    /// Its age.
    pub age: u32,
}

/// Where a walk joined others.
#[derive(Clone, Copy)]
pub struct Produced {
    /// The last GPT at which it did.
    pub producer: Producer,
    /// How many reads of the trail lie before that of the GPT's header.
    pub before: usize,
}
