//! Questions about records of one length.

use instruction_set::Size;

/// What the highest bit of a number means.
#[derive(Clone, Copy, Debug, PartialEq, Eq)]
pub enum Sign {
    /// It counts as the others do.
    Unsigned,
    /// It is the sign, in two's complement.
    Signed,
}

/// Which byte of a number comes first.
#[derive(Clone, Copy, Debug, PartialEq, Eq)]
pub enum ByteOrder {
    /// The lowest.
    Little,
    /// The highest.
    Big,
}

/// A number in a record.
#[derive(Clone, Copy, Debug, PartialEq, Eq)]
pub struct Field {
    /// The number of its bytes: 1, 2, 4 or 8.
    pub size: Size,
    /// How many bytes of the record come before it.
    pub offset: u16,
    /// Whether it is signed.
    pub sign: Sign,
    /// The order of its bytes.
    pub order: ByteOrder,
}

/// How two numbers compare.
#[derive(Clone, Copy, Debug, PartialEq, Eq)]
pub enum Comparison {
    /// They are the same number.
    Equal,
    /// They are two different numbers.
    NotEqual,
    /// The first is less.
    Less,
    /// The first is less, or they are the same.
    LessOrEqual,
    /// The first is greater.
    Greater,
    /// The first is greater, or they are the same.
    GreaterOrEqual,
}

/// What a field is compared with.
#[derive(Clone, Copy, Debug, PartialEq, Eq)]
pub enum Operand {
    /// A number of the question's own.
    Number(i128),
    /// The argument of the run that asks: a number from 0 to 2^32 - 1, also against a signed field.
    Argument,
    /// Another field of the same record.
    Field(Field),
}

/// What a record has to meet.
#[derive(Drop)]
pub enum Predicate {
    /// A field compares so with an operand.
    Compare {
        /// The first of the two numbers.
        field: Field,
        /// How they compare.
        comparison: Comparison,
        /// The second.
        operand: Operand,
    },
    /// From an offset on, the record has these bytes.
    Bytes {
        /// How many bytes of the record come before them.
        offset: u16,
        /// The bytes.
        bytes: Vec<u8>,
    },
    /// Both are met.
    And(Box<Predicate>, Box<Predicate>),
    /// One of them is met, or both are.
    Or(Box<Predicate>, Box<Predicate>),
    /// It isn't met.
    Not(Box<Predicate>),
}

/// Some bytes of a record.
#[derive(Clone, Copy, Debug, PartialEq, Eq)]
pub struct ByteRange {
    /// How many bytes of the record come before them.
    pub offset: u16,
    /// How many they are.
    pub size: u16,
}

/// What is tallied of the records that match. Each tally has a word of scratch, of 64 bits.
#[derive(Clone, Copy, Debug, PartialEq, Eq)]
pub enum Tally {
    /// Their number, modulo 2^64.
    Count,
    /// The sum of a field, modulo 2^64: in two's complement where the field is signed.
    Sum(Field),
    /// The least value of a field. The word is 2^64 - 1 minus the rank of the value: the value itself, or with 2^63 added where the field
    /// is signed. It is 0 for no record, and where the least is the greatest that 64 bits hold: the count says which.
    Least(Field),
    /// The greatest value of a field. The word is its rank. It is 0 for no record, and where the greatest is the least that 64 bits hold:
    /// the count says which.
    Greatest(Field),
}

/// Groups of the records that match: by the value of a field, one for each of so many values from one on. A record whose value is none of
/// them is in no group.
#[derive(Clone, Copy, Debug, PartialEq, Eq)]
pub struct Grouping {
    /// The field, an unsigned one.
    pub field: Field,
    /// The value of the first group.
    pub first: u16,
    /// How many groups there are.
    pub values: u16,
}

/// A question about the records of a block.
#[derive(Drop)]
pub struct Question {
    /// How many bytes of the block come before its first record.
    pub first: u16,
    /// The number of bytes of each record.
    pub size: u16,
    /// How many records of a block are asked about.
    pub count: u16,
    /// Which of them match.
    pub wanted: Predicate,
    /// Which bytes of each match are emitted, one range after another, in one frame; nothing is where there is no range.
    pub emitted: Vec<ByteRange>,
    /// What is tallied of the matches of each group, group by group, from the first word of scratch on.
    pub tallies: Vec<Tally>,
    /// By what the matches are grouped, if they are; else they are one group.
    pub by: Option<Grouping>,
}
