//! The tokens that are still to be read.

ghost use Rattle.std.specs.Prelude.{◌≡◌, map, length, drop};
ghost use Rattle.df_tok.specs.Token.{view};
ghost use Rattle.df_ntree.specs.mirror.Reading.{is_word, is_sign, word_at, sign_at, pos_of_word, pos_of_sign, name_at, kind_at, word_stands, sign_stands, some_stands};
ghost use Rattle.df_npexpr.specs.Reads.{Reads};
ghost use Rattle.df_npexpr.specs.Rest.{rest_of};

use df_base::{Code, Detail, Pos, Refusal, Stop};
use df_ntree::Ident;
use df_tok::{Kind, Sign, Token, Word};

/// A source is refused since nothing that is read has a token where this one stands.
pub fn syntax(pos: Pos) -> Stop
    ensures { result ≡ Stop.Refused (record { code = Code.Syntax; pos = pos; detail = Detail.Nothing }) }
{
    Stop::Refused(Refusal {
        code: Code::Syntax,
        pos,
        detail: Detail::Nothing,
    })
}

/// The position of the last token.
fn end(tokens: &[Token]) -> Pos {
    match tokens {
        [.., last] => last.pos,
        [] => Pos { line: 1, col: 1 },
    }
}

/// The tokens from `start` on; there are none where `start` is past the last one.
fn from<'t, 's>(tokens: &'t [Token<'s>], start: usize) -> &'t [Token<'s>]
    ensures { result.now ≡ drop start tokens.now }
{
    let first = if start < tokens.len() {
        start
    } else {
        tokens.len()
    };
    &tokens[first..]
}

fn is_word(kind: Kind, word: Word) -> bool
    ensures { result ≡ is_word word kind }
{
    match kind {
        Kind::Word(found) => found == word,
        _ => false,
    }
}

fn is_sign(kind: Kind, sign: Sign) -> bool
    ensures { result ≡ is_sign sign kind }
{
    match kind {
        Kind::Sign(found) => found == sign,
        _ => false,
    }
}

/// The kind of the first token.
fn first_kind(tokens: &[Token]) -> Option<Kind>
    ensures { result ≡ kind_at (map view tokens.now) }
{
    match tokens {
        [] => None,
        [token, ..] => Some(token.kind),
    }
}

/// Whether the word comes first.
pub fn begins_with_word(tokens: &[Token], word: Word) -> bool
    ensures { result ≡ word_stands word (map view tokens.now) }
{
    match first_kind(tokens) {
        None => false,
        Some(kind) => is_word(kind, word),
    }
}

/// Tokens that are read from the front on.
#[derive(Drop)]
pub struct Cursor<'t, 's> {
    pub rest: &'t [Token<'s>],
    /// The position of the last token.
    end: Pos,
}

impl<'t, 's> Cursor<'t, 's> {
    /// At the token of the number `start`, counted from 0, or at the end where there is none.
    pub fn new(tokens: &'t [Token<'s>], start: usize) -> Self
        ensures { result.rest.now ≡ drop start tokens.now }
    {
        Cursor {
            rest: from(tokens, start),
            end: end(tokens),
        }
    }

    /// How many tokens are left.
    pub fn len(&self) -> usize
        ensures { result ≡ length (rest_of self.now) }
    {
        self.rest.len()
    }

    /// The kind of the next token.
    pub fn kind(&self) -> Option<Kind>
        ensures { result ≡ kind_at (rest_of self.now) }
    {
        first_kind(self.rest)
    }

    /// The position of the next token, or of the last one where none is left.
    pub fn pos(&self) -> Pos {
        match self.rest {
            [] => self.end,
            [token, ..] => token.pos,
        }
    }

    /// Whether a token is left.
    pub fn some_stands(&self) -> bool
        ensures { result ≡ some_stands (rest_of self.now) }
    {
        match self.rest {
            [] => false,
            [_, ..] => true,
        }
    }

    /// Whether the word is next.
    pub fn word_stands(&self, word: Word) -> bool
        ensures { result ≡ word_stands word (rest_of self.now) }
    {
        begins_with_word(self.rest, word)
    }

    /// Whether the sign is next.
    pub fn sign_stands(&self, sign: Sign) -> bool
        ensures { result ≡ sign_stands sign (rest_of self.now) }
    {
        match self.kind() {
            None => false,
            Some(kind) => is_sign(kind, sign),
        }
    }

    /// Takes the word.
    #[tactic(auto, unfolding(df_ntree::specs::mirror::Reading::word_at))]
    pub fn word(&mut self, word: Word) -> Result<(), Stop>
        ensures { Reads (λ _. rest_of self.new) result (word_at word (rest_of self.old)) }
    {
        match self.rest {
            [token, rest @ ..] if is_word(token.kind, word) => {
                self.rest = rest;
                Ok(())
            }
            _ => Err(syntax(self.pos())),
        }
    }

    /// Takes the sign.
    #[tactic(auto, unfolding(df_ntree::specs::mirror::Reading::sign_at))]
    pub fn sign(&mut self, sign: Sign) -> Result<(), Stop>
        ensures { Reads (λ _. rest_of self.new) result (sign_at sign (rest_of self.old)) }
    {
        match self.rest {
            [token, rest @ ..] if is_sign(token.kind, sign) => {
                self.rest = rest;
                Ok(())
            }
            _ => Err(syntax(self.pos())),
        }
    }

    /// Takes the word, and says where it stood.
    #[tactic(auto, unfolding(df_ntree::specs::mirror::Reading::pos_of_word))]
    pub fn pos_of_word(&mut self, word: Word) -> Result<Pos, Stop>
        ensures { Reads (λ x. (x, rest_of self.new)) result (pos_of_word word (rest_of self.old)) }
    {
        match self.rest {
            [token, rest @ ..] if is_word(token.kind, word) => {
                self.rest = rest;
                Ok(token.pos)
            }
            _ => Err(syntax(self.pos())),
        }
    }

    /// Takes the sign, and says where it stood.
    #[tactic(auto, unfolding(df_ntree::specs::mirror::Reading::pos_of_sign))]
    pub fn pos_of_sign(&mut self, sign: Sign) -> Result<Pos, Stop>
        ensures { Reads (λ x. (x, rest_of self.new)) result (pos_of_sign sign (rest_of self.old)) }
    {
        match self.rest {
            [token, rest @ ..] if is_sign(token.kind, sign) => {
                self.rest = rest;
                Ok(token.pos)
            }
            _ => Err(syntax(self.pos())),
        }
    }

    /// Takes a name.
    #[tactic(auto, unfolding(df_ntree::specs::mirror::Reading::name_at))]
    pub fn name(&mut self) -> Result<Ident, Stop>
        ensures { Reads (λ x. (x, rest_of self.new)) result (name_at (rest_of self.old)) }
    {
        let [token, rest @ ..] = self.rest else {
            return Err(syntax(self.pos()));
        };
        let pos = token.pos;
        match token.kind {
            Kind::Name(name) => {
                self.rest = rest;
                Ok(Ident { name, pos })
            }
            _ => Err(syntax(pos)),
        }
    }
}
