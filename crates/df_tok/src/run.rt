//! Runs of bytes of one class at the front.

ghost use Rattle.std.specs.Prelude.{◌≡◌, ◌≤◌, ◌==◌, not, length};
ghost use Rattle.std.specs.List.{prefix_len};
ghost use Rattle.df_tok.specs.Byte as spec;

use crate::byte::{continues_identifier, continues_number};

/// How many bytes of an identifier stand at the front.
pub fn identifier_len(bytes: &[u8]) -> usize
    ensures len { result ≡ prefix_len spec.continues_identifier bytes.now }
    ensures within { result ≤ length bytes.now }
{
    let mut n = 0;
    for b in bytes {
        if !continues_identifier(*b) {
            return n;
        }
        n += 1;
    }
    n
}

/// How many bytes that may belong to a number stand at the front.
pub fn number_len(bytes: &[u8]) -> usize
    ensures len { result ≡ prefix_len spec.continues_number bytes.now }
    ensures within { result ≤ length bytes.now }
{
    let mut n = 0;
    for b in bytes {
        if !continues_number(*b) {
            return n;
        }
        n += 1;
    }
    n
}

/// How many bytes stand before the line feed.
pub fn line_len(bytes: &[u8]) -> usize
    ensures len { result ≡ prefix_len (λ b. not (b == 10)) bytes.now }
    ensures within { result ≤ length bytes.now }
{
    let mut n = 0;
    for b in bytes {
        if *b == b'\n' {
            return n;
        }
        n += 1;
    }
    n
}
