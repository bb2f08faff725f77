//! The bytes that may follow the first byte of a name, and where a run of them ends.
ghost use Rattle.std.specs.Prelude.{◌≡◌, ◌≤◌, length};
ghost use Rattle.sdl_lex.specs.Runs.{is_name_byte, IsRun};

/// Whether a byte may follow the first byte of a name: an ASCII letter, a digit or `_`.
pub fn is_name_byte(b: u8) -> bool
    ensures { result ≡ is_name_byte b }
{
    b.is_ascii_alphanumeric() || b == b'_'
}

/// The place after the run of letters, digits and `_` that begins at a place.
pub fn name_end(bytes: &[u8], at: usize) -> usize
    requires { at ≤ length bytes.now }
    ensures { IsRun is_name_byte bytes.now at result }
{
    let mut end = at;
    while end < bytes.len() && is_name_byte(bytes[end]) {
        end += 1;
    }
    end
}
