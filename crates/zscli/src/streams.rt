//! The program's standard streams.

/// What a command reads, and what it prints to, beside files.
#[derive(Drop)]
pub struct Streams<I, O, E> {
    /// Standard input; none once a command has taken it.
    pub input: Option<I>,
    /// Standard output.
    pub out: O,
    /// Is standard output a terminal that shows colors?
    pub colored: bool,
    /// Standard error, for what is noted of work that is done.
    pub err: E,
}
