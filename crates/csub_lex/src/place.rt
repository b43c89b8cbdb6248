//! Places of a source as people count them.
ghost use Rattle.std.specs.Prelude.{◌≡◌, ◌≤◌, length};
ghost use Rattle.csub_lex.specs.Place.{line_of, column_of, tail_len};

/// The line and the column of the byte at a place, both counted from 1. A line ends with its newline; a column is a byte.
pub fn line_column(source: &[u8], at: usize) -> (u32, u32)
    requires within { at ≤ length source.now }
    requires small { length source.now ≤ 1048576 }
    ensures line { result.0 ≡ line_of source.now at }
    ensures column { result.1 ≡ column_of source.now at }
{
    let front = &source[..at];
    let newlines = front.iter().filter(|byte| **byte == b'\n').count();
    (newlines as u32 + 1, tail_len(front) + 1)
}

/// How many bytes stand behind the last newline.
fn tail_len(bytes: &[u8]) -> u32
    requires { length bytes.now ≤ 1048576 }
    ensures value { result ≡ tail_len bytes.now }
    ensures small { result ≤ length bytes.now }
{
    let mut column = 0;
    for byte in bytes {
        if *byte == b'\n' {
            column = 0;
        } else {
            column += 1;
        }
    }
    column
}
