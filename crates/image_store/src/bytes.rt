//! What is said of bytes.

ghost use Rattle.common_definitions.specs.Bytes.{AreBytes};

/// Does nothing, but says in a caller's proof what the type of these bytes says: that each is below 256.
pub fn are_bytes(bytes: &[u8])
    ensures { AreBytes bytes.now }
{}
