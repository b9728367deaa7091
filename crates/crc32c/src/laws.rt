//! What the definition gives, as a law: this function does nothing.

ghost use Rattle.crc32c.specs.Examples.{GivesTheExamples};

/// The definition gives the sums of the examples of RFC 3720, appendix B.4.
pub fn gives_the_examples()
    ensures { GivesTheExamples }
{}
