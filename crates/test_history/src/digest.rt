//! The digest of a source, and of a text.
ghost use Rattle.std.specs.Prelude.{◌≡◌};
ghost use Rattle.sha2.specs.Sha256.{sha256};

use sha2::{Digest, Sha256};

/// The SHA-256 digest of some bytes (FIPS 180-4). It takes no memory.
pub fn digest_of(source: &[u8]) -> [u8; 32]
    ensures { result ≡ sha256 source.now }
{
    Sha256::digest(source)
}
