//! String tables: names, each with a 0 behind it (gABI, chapter 4, String Table).

ghost use Rattle.std.specs.Prelude.{◌≡◌, ◌≤◌, ◌<◌, ◌==◌, length, position, IfSome};
ghost use Rattle.std.specs.List.{before_first};
ghost use Rattle.ebpf_object.specs.Names.{is_ended, name_in};

/// Is its last byte 0, as that of a string table is?
pub(crate) fn is_ended(table: &[u8]) -> bool
    ensures { result ≡ is_ended table.now }
{
    match table {
        [.., last] => *last == 0,
        [] => false,
    }
}

/// The name that begins at this byte of a string table: what stands there before the next 0.
pub(crate) fn name_in(table: &[u8], at: usize) -> &[u8]
    ensures { result.now ≡ name_in table.now at }
{
    before_zero(&table[at.min(table.len())..])
}

/// What stands before the first 0, or all where there is none.
fn before_zero(text: &[u8]) -> &[u8]
    ensures { result.now ≡ before_first (λ byte. byte == 0) text.now }
{
    text.split_at(first_zero(text).unwrap_or(text.len())).0
}

fn first_zero(text: &[u8]) -> Option<usize>
    ensures value { result ≡ position (λ byte. byte == 0) text.now }
    ensures within { IfSome result (λ at. at < length text.now) }
{
    text.iter().position(|byte| *byte == 0)
}
