//! The parser of files: reads the one that tokens spell.
#![tactic(auto)]

ghost use Rattle.std.specs.Prelude.{◌≡◌, None, map, IfOk, Err};
ghost use Rattle.df_base.specs.declared.refusal.Refusal.{Refusal};
ghost use Rattle.df_base.specs.declared.refusal.Stop.TheVariants.{Refused};
ghost use Rattle.df_tok.specs.Token.{view};
ghost use Rattle.df_tree.specs.Tree as concrete;
ghost use Rattle.df_tree.specs.Grammar.{IsTreeOf};
ghost use Rattle.df_tree.specs.declared.table.TheConstants as rows;
ghost use Rattle.df_pexpr.specs.Position.{CannotGoOn};
ghost use Rattle.df_pdecl.specs.Refusing.{IsRefusal, first_outside as outside_in};
ghost use Rattle.df_pdecl.specs.Source.{IsSource, places_of};

mod outside;

use df_base::{Global, Memory, Pos, Stop};
use df_pexpr::whole;
use df_tok::{Token, Tokens};
use df_tree::{FILE, Tree};
use outside::first_outside;

/// Where the tokens stand.
fn places(alloc: Global, tokens: &[Token]) -> Result<Vec<Pos>, Memory>
    ensures { IfOk result (λ places. places.items ≡ places_of (map view tokens.now)) }
{
    let mut places = Vec::new(alloc);
    for token in tokens {
        places.push(token.pos)?;
    }
    Ok(places)
}

/// The file that all of the tokens spell, as one syntax tree. Where there is none, the first word outside the language is
/// refused, and where there is no such word the syntax, at the token where reading stopped. `Stop::Memory` says that
/// memory was refused.
pub fn parse(alloc: Global, tokens: &Tokens) -> Result<Tree, Stop>
    ensures file { IfOk result (λ tree. IsSource (map view tokens.now.all.items) tree) }
    ensures inside { IfOk result (λ tree. outside_in (map view tokens.now.all.items) ≡ None) }
    ensures refused { (r : Refusal) → result ≡ Err (Refused r) → (t : concrete.Tree) → IsTreeOf rows.FILE (map view tokens.now.all.items) t → ⊥ }
    // Where no word is outside the language, no source that begins like this one, up to the token at the position, is spelled.
    ensures place { (r : Refusal) → result ≡ Err (Refused r) → outside_in (map view tokens.now.all.items) ≡ None → CannotGoOn rows.FILE (map view tokens.now.all.items) r.pos }
    // A word outside the language comes before any fault of the syntax.
    ensures which { (r : Refusal) → result ≡ Err (Refused r) → IsRefusal (map view tokens.now.all.items) r }
{
    match first_outside(&tokens.all) {
        Some(refusal) => Err(Stop::Refused(refusal)),
        None => {
            let file = whole(alloc, tokens, FILE)?;
            let places = places(alloc, &tokens.all)?;
            Ok(Tree { file, places })
        }
    }
}
