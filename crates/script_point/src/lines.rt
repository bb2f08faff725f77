//! The line of a text in which a place lies.
ghost use Rattle.std.specs.Prelude.{◌≡◌, ◌+◌, ◌≤◌, ◌==◌, length, take, count_by};
ghost use Rattle.script_point.specs.Pointed.{begins, characters, line_at, IsBegin, IsEnd};

/// Whether a byte begins a character in UTF-8.
pub fn begins(byte: u8) -> bool
    ensures { result ≡ begins byte }
{
    byte < 128 || byte >= 192
}

/// How many characters begin in these bytes.
pub fn characters(bytes: &[u8]) -> usize
    ensures count { result ≡ characters bytes.now }
    ensures within { result ≤ length bytes.now }
{
    bytes.iter().filter(|byte| begins(**byte)).count()
}

/// The number of the line in which a place lies, from 1.
pub fn line_at(text: &[u8], place: usize) -> usize
    requires { place ≤ length text.now }
    ensures { result ≡ line_at text.now place }
{
    text[..place].iter().filter(|byte| **byte == b'\n').count() + 1
}

/// Where the line of a place begins.
pub fn line_begin(text: &[u8], place: usize) -> usize
    requires { place ≤ length text.now }
    ensures { IsBegin text.now place result }
{
    let mut begin = place;
    while begin > 0 && text[begin - 1] != b'\n' {
        begin -= 1;
    }
    begin
}

/// Where the line of a place ends.
pub fn line_end(text: &[u8], place: usize) -> usize
    requires { place ≤ length text.now }
    ensures { IsEnd text.now place result }
{
    let mut end = place;
    while end < text.len() && text[end] != b'\n' {
        end += 1;
    }
    end
}
