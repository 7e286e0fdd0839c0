//! Block comments, which nest.

ghost use Rattle.std.specs.Prelude.{◌≡◌, ◌≤◌, IfSome, length};
ghost use Rattle.df_tok.specs.Scanning.{comment_len};

/// The length of a block comment, behind its first `/*`.
pub fn block_len(bytes: &[u8]) -> Option<usize>
    ensures len { result ≡ comment_len 0 0 bytes.now }
    ensures within { IfSome result (λ n. n ≤ length bytes.now) }
{
    let mut depth: usize = 0;
    let mut before = 0;
    let mut n = 0;
    for b in bytes {
        n += 1;
        if before == b'/' && *b == b'*' {
            depth += 1;
            before = 0;
        } else if before == b'*' && *b == b'/' {
            if depth == 0 {
                return Some(n);
            }
            depth -= 1;
            before = 0;
        } else {
            before = *b;
        }
    }
    None
}
