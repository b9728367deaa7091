//! NVMe Qualified Names.

ghost use Rattle.std.specs.Prelude.{◌≡◌, ◌<◌, ◌==◌, IfSome, length, position};
ghost use Rattle.tcp_target.specs.QualifiedName.{name_in};

/// The bytes of a field that holds an NQN (NVMe Base 2.0, 4.5): at most 223 of a name, and 00h behind them.
pub const NQN_BYTES: usize = 256;

/// The name in a field: the bytes before the first 00h, or all of them where there is none.
pub fn name(field: &[u8]) -> &[u8]
    ensures { result.now ≡ name_in field.now }
{
    field.split_at(first_zero(field).unwrap_or(field.len())).0
}

/// Where the first 00h is.
fn first_zero(field: &[u8]) -> Option<usize>
    ensures value { result ≡ position (λ byte. byte == 0) field.now }
    ensures within { IfSome result (λ at. at < length field.now) }
{
    field.iter().position(|byte| *byte == 0)
}
