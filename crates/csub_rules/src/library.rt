//! The names that `<stdio.h>` and `<stdlib.h>` declare here.
ghost use Rattle.std.specs.Prelude.{◌≡◌, option_map};
ghost use Rattle.csub_rules.specs.Library.{library_name};
ghost use Rattle.csub_rules.specs.Here.{is_reserved};
ghost use Rattle.csub_rules.specs.Views.{the_library_name};

/// A name of the library.
#[derive(Clone, Copy, Debug, PartialEq, Eq)]
pub enum LibraryName {
    /// `getchar` (C11 7.21.7.6).
    Getchar,
    /// `putchar` (C11 7.21.7.8).
    Putchar,
    /// `printf` (C11 7.21.6.3).
    Printf,
    /// `exit` (C11 7.22.4.4).
    Exit,
    /// `EOF` (C11 7.21.1p3).
    Eof,
}

/// The name of the library that a name is.
pub fn library_name(name: &[u8]) -> Option<LibraryName>
    ensures { option_map the_library_name result ≡ library_name name.now }
{
    if name == b"getchar".as_slice() {
        Some(LibraryName::Getchar)
    } else if name == b"putchar".as_slice() {
        Some(LibraryName::Putchar)
    } else if name == b"printf".as_slice() {
        Some(LibraryName::Printf)
    } else if name == b"exit".as_slice() {
        Some(LibraryName::Exit)
    } else if name == b"EOF".as_slice() {
        Some(LibraryName::Eof)
    } else {
        None
    }
}

/// Whether a name is one of the library's, which no source declares (C11 7.1.3).
pub fn is_reserved(name: &[u8]) -> bool
    ensures { result ≡ is_reserved name.now }
{
    library_name(name).is_some()
}
