//! What is asked of bytes.

ghost use Rattle.std.specs.Prelude.{◌≡◌};
ghost use Rattle.image_text.specs.Reading.{are_zeros};

/// Is each of these bytes zero?
pub fn are_zeros(bytes: &[u8]) -> bool
    ensures { result ≡ are_zeros bytes.now }
{
    bytes.iter().all(|byte| *byte == 0)
}
