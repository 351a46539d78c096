//! Comparisons of values, and what is asked of the digits of words.

/// A comparison of two values.
#[derive(Clone, Copy)]
pub enum Comparison {
    Equal,
    Less,
    Greater,
}

/// All of them.
pub const COMPARISONS: [Comparison; 3] = [Comparison::Equal, Comparison::Less, Comparison::Greater];

impl Comparison {
    /// Whether it holds of two values. Written into the rows of every width, it takes the compiler long.
    #[inline(never)]
    pub fn holds<V: PartialOrd + Drop>(self, value: V, other: V) -> bool {
        match self {
            Comparison::Equal => value == other,
            Comparison::Less => value < other,
            Comparison::Greater => value > other,
        }
    }
}

/// Whether numbers have a sign.
#[derive(Clone, Copy)]
pub enum Sign {
    Without,
    With,
}

/// What is asked of each digit of words: whether a comparison holds of it and a value, both as numbers without a sign or with
/// one.
#[derive(Clone, Copy)]
pub struct Question {
    pub comparison: Comparison,
    pub sign: Sign,
    pub value: u64,
}
