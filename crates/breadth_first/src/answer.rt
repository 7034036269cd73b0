//! What a search is asked, and what it answers.

/// How far a search goes.
#[derive(Clone, Copy, Debug)]
pub struct Limits {
    /// No further than this many choices from the start.
    pub depth: Option<usize>,
    /// No more states than this are kept. The start is kept, so 0 is as 1.
    pub states: Option<usize>,
}

/// How far a search came.
#[derive(Clone, Copy, Debug)]
pub struct Size {
    /// How many states were seen, and kept.
    pub states: usize,
    /// How many choices were tried, the one whose new state wasn't kept with them.
    pub tried: u64,
    /// Of a closed search the least number of choices within which each state is reached; of an open one how many
    /// choices lead to the states whose choices weren't all tried.
    pub depth: usize,
}

/// How many of the states that were seen pass a test.
#[derive(Clone, Copy, Debug)]
pub struct Count {
    pub states: usize,
    /// How many choices lead to the first of them.
    pub first: Option<usize>,
}

/// What is wanted of a search: that states come that pass a test. A round is a list of choices in which each choice of the
/// system occurs at least once.
#[derive(Clone, Copy, Debug)]
pub enum Want {
    /// From each state that is reached, some choices lead to one that passes the test with this number.
    Ever(usize),
    /// From the start, each list of as many rounds as there are states passes a state that passes the test. The start
    /// counts.
    Must(usize),
    /// The same from each state that is reached and is a first one for the test with this number. This state counts.
    MustAfter(usize),
}

/// A state from which nothing leads to one that passes a test.
#[derive(Debug, Drop)]
pub struct Lost {
    /// Which of the wants, from 0.
    pub want: usize,
    /// The choices that lead to the state, the first first.
    pub path: Vec<u32>,
}

/// Choices that avoid a test for ever, however often the cycle is repeated, although each choice occurs in it.
#[derive(Debug, Drop)]
pub struct Avoided {
    /// Which of the wants, from 0.
    pub want: usize,
    /// The choices that lead from the start to a state of the cycle, the first first. A state from which the test must be
    /// passed is on the way, and none from there on passes it.
    pub path: Vec<u32>,
    /// The choices that lead from this state back to it: a round, in which no state passes the test.
    pub cycle: Vec<u32>,
}

/// How a want is missed.
#[derive(Debug, Drop)]
pub enum Missed {
    /// A want by `Ever`.
    Lost(Lost),
    /// A want by `Must` or `MustAfter`.
    Avoided(Avoided),
}

/// How a search ended.
#[derive(Debug, Drop)]
pub enum Explored {
    /// A state violates a property.
    Found {
        /// The first property that it violates.
        property: usize,
        /// The choices that lead to it, the first first.
        path: Vec<u32>,
    },
    /// Each state that is reached was seen, and none violates a property.
    Closed {
        size: Size,
        /// One for each test that was to be counted.
        counts: Vec<Count>,
        /// The first of the wants that is missed. If there is none, each holds.
        missed: Option<Missed>,
    },
    /// A limit ended the search: a choice leads to a state that wasn't kept. None of those that were seen violates a property.
    Open {
        size: Size,
        counts: Vec<Count>,
    },
}
