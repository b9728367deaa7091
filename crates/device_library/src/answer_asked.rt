//! What C says of an operation.

/// What came of an operation, as C says it.
#[derive(Clone, Copy)]
pub struct AnswerAsked<'a> {
    /// Which answer it is.
    pub kind: usize,
    /// How many bytes were taken, the time, what happened beside connections, or whether a signal ends the program.
    pub number: usize,
    /// The bytes that came; or not 0 for each place on which some came.
    pub piece: &'a [u8],
    /// Not 0 for each place that takes bytes.
    pub beside: &'a [u8],
}
