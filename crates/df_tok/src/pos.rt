//! Positions in the source.

ghost use Rattle.std.specs.Prelude.{◌≡◌, ◌+◌, ◌<◌, ◌≤◌, ◌^◌, length};
ghost use Rattle.df_tok.specs.Division.{after_bytes, start};

use df_base::Pos;

/// Where a source begins.
pub const START: Pos = Pos { line: 1, col: 1 };

/// The position after some bytes.
pub fn after(pos: Pos, bytes: &[u8]) -> Pos
    requires line { pos.line + length bytes.now < 2 ^ 32 }
    requires col { pos.col + length bytes.now < 2 ^ 32 }
    ensures pos { result ≡ after_bytes pos bytes.now }
    ensures line { result.line ≤ pos.line + length bytes.now }
    ensures col { result.col ≤ pos.col + length bytes.now }
{
    let mut line = pos.line;
    let mut col = pos.col;
    for b in bytes {
        if *b == b'\n' {
            line += 1;
            col = 1;
        } else {
            col += 1;
        }
    }
    Pos { line, col }
}
