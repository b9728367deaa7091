//! Writing output, the data that a command gives.

ghost use Rattle.std.specs.Prelude.{◌≡◌, ◌≤◌, ◌++◌, length, drop};

/// Puts bytes at the front, and leaves those behind them.
pub fn put_front(output: &mut [u8], bytes: &[u8])
    requires { length bytes.now ≤ length output.old }
    ensures { output.new ≡ bytes.now ++ drop (length bytes.now) output.old }
{
    output[..bytes.len()].copy_from_slice(bytes);
}
