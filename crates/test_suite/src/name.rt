//! The names of tests.
ghost use Rattle.std.specs.Prelude.{◌≡◌, ◌↔◌, IsTrue};
ghost use Rattle.test_suite.specs.Tests.{IsTestName, starts_name, goes_in_name};

/// Whether these bytes can name a test: 1 to 64 letters, digits, `_`, `-` or `.`, of which the first is
/// a letter, a digit or `_`.
pub fn is_test_name(name: &[u8]) -> bool
    ensures { IsTrue result ↔ IsTestName name.now }
{
    if name.is_empty() || name.len() > 64 {
        return false;
    }
    can_start(name[0]) && name.iter().all(|byte| can_follow(*byte))
}

fn can_start(byte: u8) -> bool
    ensures { result ≡ starts_name byte }
{
    byte.is_ascii_alphanumeric() || byte == b'_'
}

fn can_follow(byte: u8) -> bool
    ensures { result ≡ goes_in_name byte }
{
    can_start(byte) || byte == b'-' || byte == b'.'
}
