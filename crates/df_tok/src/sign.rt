//! The signs of the language.

ghost use Rattle.std.specs.Prelude.{◌≡◌};
ghost use Rattle.std.specs.List.{find};
ghost use Rattle.df_tok.specs.Sign.{sign_text};
ghost use Rattle.df_tok.specs.Scanning as scanning;

use crate::byte::continues_identifier;

/// A sign of the language.
#[derive(Clone, Copy, PartialEq, Eq)]
pub enum Sign {
    /// `<==>`
    Iff,
    /// `==>`
    Implies,
    /// `<==`
    Explies,
    /// `&&`
    And,
    /// `||`
    Or,
    /// `==`
    Equal,
    /// `!=`
    NotEqual,
    /// `<=`
    AtMost,
    /// `>=`
    AtLeast,
    /// `<`
    Less,
    /// `>`
    Greater,
    /// `!in`
    NotIn,
    /// `!!`
    Disjoint,
    /// `!`
    Not,
    /// `+`
    Plus,
    /// `-`
    Minus,
    /// `*`
    Times,
    /// `/`
    Divide,
    /// `%`
    Modulo,
    /// `:=`
    Assign,
    /// `:|`
    SuchThat,
    /// `::`
    DoubleColon,
    /// `:`
    Colon,
    /// `;`
    Semicolon,
    /// `,`
    Comma,
    /// `..`
    DotDot,
    /// `.`
    Dot,
    /// `(`
    OpenParenthesis,
    /// `)`
    CloseParenthesis,
    /// `[`
    OpenBracket,
    /// `]`
    CloseBracket,
    /// `{:`
    OpenAttribute,
    /// `{`
    OpenBrace,
    /// `}`
    CloseBrace,
    /// `|`
    Bar,
    /// `=>`
    Arrow,
    /// `=`
    Define,
}

/// The signs, the longest first.
const SIGNS: [Sign; 37] = [
    Sign::Iff,
    Sign::Implies,
    Sign::Explies,
    Sign::NotIn,
    Sign::And,
    Sign::Or,
    Sign::Equal,
    Sign::NotEqual,
    Sign::AtMost,
    Sign::AtLeast,
    Sign::Disjoint,
    Sign::Assign,
    Sign::SuchThat,
    Sign::DoubleColon,
    Sign::DotDot,
    Sign::OpenAttribute,
    Sign::Arrow,
    Sign::Less,
    Sign::Greater,
    Sign::Not,
    Sign::Plus,
    Sign::Minus,
    Sign::Times,
    Sign::Divide,
    Sign::Modulo,
    Sign::Colon,
    Sign::Semicolon,
    Sign::Comma,
    Sign::Dot,
    Sign::OpenParenthesis,
    Sign::CloseParenthesis,
    Sign::OpenBracket,
    Sign::CloseBracket,
    Sign::OpenBrace,
    Sign::CloseBrace,
    Sign::Bar,
    Sign::Define,
];

impl Sign {
    /// How it is written.
    pub fn text(self) -> &'static [u8]
        ensures { result.now ≡ sign_text self }
    {
        match self {
            Sign::Iff => b"<==>",
            Sign::Implies => b"==>",
            Sign::Explies => b"<==",
            Sign::And => b"&&",
            Sign::Or => b"||",
            Sign::Equal => b"==",
            Sign::NotEqual => b"!=",
            Sign::AtMost => b"<=",
            Sign::AtLeast => b">=",
            Sign::Less => b"<",
            Sign::Greater => b">",
            Sign::NotIn => b"!in",
            Sign::Disjoint => b"!!",
            Sign::Not => b"!",
            Sign::Plus => b"+",
            Sign::Minus => b"-",
            Sign::Times => b"*",
            Sign::Divide => b"/",
            Sign::Modulo => b"%",
            Sign::Assign => b":=",
            Sign::SuchThat => b":|",
            Sign::DoubleColon => b"::",
            Sign::Colon => b":",
            Sign::Semicolon => b";",
            Sign::Comma => b",",
            Sign::DotDot => b"..",
            Sign::Dot => b".",
            Sign::OpenParenthesis => b"(",
            Sign::CloseParenthesis => b")",
            Sign::OpenBracket => b"[",
            Sign::CloseBracket => b"]",
            Sign::OpenAttribute => b"{:",
            Sign::OpenBrace => b"{",
            Sign::CloseBrace => b"}",
            Sign::Bar => b"|",
            Sign::Arrow => b"=>",
            Sign::Define => b"=",
        }
    }
}

/// Whether a byte of an identifier stands at the front.
fn continues(bytes: &[u8]) -> bool
    ensures { result ≡ scanning.continues bytes.now }
{
    match bytes {
        [b, ..] => continues_identifier(*b),
        [] => false,
    }
}

/// Whether a sign stands at the front: `!in` only where no byte of an identifier follows.
fn stands(bytes: &[u8], sign: Sign) -> bool
    ensures { result ≡ scanning.stands bytes.now sign }
{
    bytes.starts_with(sign.text()) && !(sign == Sign::NotIn && continues(&bytes[3..]))
}

/// The first of these signs that stands at the front.
fn first_of(bytes: &[u8], signs: &[Sign]) -> Option<Sign>
    ensures { result ≡ find (scanning.stands bytes.now) signs.now }
{
    for sign in signs {
        if stands(bytes, *sign) {
            return Some(*sign);
        }
    }
    None
}

/// The longest sign at the front.
pub fn sign_at(bytes: &[u8]) -> Option<Sign>
    ensures { result ≡ scanning.sign_at bytes.now }
{
    first_of(bytes, &SIGNS)
}
