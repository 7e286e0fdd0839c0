//! Where productions begin.

ghost use Rattle.std.specs.Prelude.{◌≡◌, map, drop};
ghost use Rattle.df_tok.specs.Token.{view};
ghost use Rattle.df_tree.specs.Row.{entry_of};
ghost use Rattle.df_tree.specs.Grammar as spec;

use df_tok::Token;
use df_tree::{GrammarRow, Part, is_anything, is_in, row, terminal_of};

/// The terminal of the token of a number.
#[tactic(auto, using(crate::proofs::Walk::terminal_there), unfolding(df_tree::specs::Terminal::terminal))]
fn terminal_at(tokens: &[Token], at: usize) -> Option<u8>
    ensures { result ≡ spec.first_terminal (drop at (map view tokens.now)) }
{
    match tokens.get(at) {
        Some(token) => Some(terminal_of(token.kind)),
        None => None,
    }
}

fn first_in(class: u8, tokens: &[Token], at: usize) -> bool
    ensures { result ≡ spec.first_in (spec.kinds_of class) (drop at (map view tokens.now)) }
{
    match terminal_at(tokens, at) {
        Some(terminal) => is_in(terminal, class),
        None => false,
    }
}

fn second_in(class: u8, tokens: &[Token], at: usize) -> bool
    ensures { result ≡ spec.second_in (spec.kinds_of class) (drop at (map view tokens.now)) }
{
    is_anything(class) || (at < tokens.len() && first_in(class, tokens, at + 1))
}

/// Whether a production begins there.
pub(crate) fn begins(row: &GrammarRow, tokens: &[Token], at: usize) -> bool
    ensures { result ≡ spec.begins (entry_of row.now) (drop at (map view tokens.now)) }
{
    first_in(row.first, tokens, at) && second_in(row.second, tokens, at)
}

fn begins_part(part: Part, tokens: &[Token], at: usize) -> bool
    ensures { result ≡ spec.begins_part part (drop at (map view tokens.now)) }
{
    match part {
        Part::Terminal(terminal) => match terminal_at(tokens, at) {
            Some(found) => found == terminal,
            None => false,
        },
        Part::Nonterminal(n) => begins(&row(n), tokens, at),
    }
}

/// The part that begins there.
pub(crate) fn chosen(parts: &[Part], tokens: &[Token], at: usize) -> Option<Part>
    ensures { result ≡ spec.chosen parts.now (drop at (map view tokens.now)) }
{
    parts
        .iter()
        .copied()
        .find(|part| begins_part(*part, tokens, at))
}
