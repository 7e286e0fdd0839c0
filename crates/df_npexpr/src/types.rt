//! Types, and the types after an operand.

ghost use Rattle.df_tok.specs.declared.word.Word.TheVariants as words;
ghost use Rattle.df_ntree.specs.mirror.Reading.{all_of, optionally, word_stands, after_word};
ghost use Rattle.df_ntree.specs.mirror.ExprReading.{type_at, cast_target_at};
ghost use Rattle.df_npexpr.specs.Reads.{Reads};
ghost use Rattle.df_npexpr.specs.Rest.{rest_of};

use crate::cursor::{Cursor, syntax};
use df_base::{Global, Stop};
use df_ntree::{BasicType, Ident, TreeType};
use df_tok::{Kind, Word};

impl Cursor<'_, '_> {
    /// Takes a type.
    #[tactic(auto, unfolding(df_ntree::specs::mirror::ExprReading::type_at))]
    pub fn ty(&mut self) -> Result<TreeType, Stop>
        ensures { Reads (λ x. (x, rest_of self.new)) result (type_at (rest_of self.old)) }
    {
        let [token, rest @ ..] = self.rest else {
            return Err(syntax(self.pos()));
        };
        let pos = token.pos;
        let ty = match token.kind {
            Kind::Word(Word::Int) => TreeType::Basic {
                basic: BasicType::Int,
                pos,
            },
            Kind::Word(Word::Nat) => TreeType::Basic {
                basic: BasicType::Nat,
                pos,
            },
            Kind::Word(Word::Bool) => TreeType::Basic {
                basic: BasicType::Bool,
                pos,
            },
            Kind::Word(Word::Char) => TreeType::Basic {
                basic: BasicType::Char,
                pos,
            },
            Kind::Name(name) => TreeType::Named(Ident { name, pos }),
            _ => return Err(syntax(pos)),
        };
        self.rest = rest;
        Ok(ty)
    }

    /// Takes a type that may follow `as`.
    #[tactic(auto, unfolding(df_ntree::specs::mirror::ExprReading::cast_target_at))]
    fn cast_target(&mut self) -> Result<TreeType, Stop>
        ensures { Reads (λ x. (x, rest_of self.new)) result (cast_target_at (rest_of self.old)) }
    {
        let pos = self.pos();
        let ty = self.ty()?;
        if ty.is_cast_target() {
            Ok(ty)
        } else {
            Err(syntax(pos))
        }
    }

    /// Takes `as` and a type, or nothing where the word does not stand.
    fn next_cast(&mut self) -> Result<Option<TreeType>, Stop>
        ensures { Reads (λ x. (x, rest_of self.new)) result (optionally (word_stands words.As) (after_word words.As cast_target_at) (rest_of self.old)) }
    {
        if self.word_stands(Word::As) {
            self.word(Word::As)?;
            Ok(Some(self.cast_target()?))
        } else {
            Ok(None)
        }
    }

    /// Takes the types after an operand, each behind `as`.
    pub(crate) fn casts(&mut self, alloc: Global) -> Result<Vec<TreeType>, Stop>
        ensures { Reads (λ x. (x.items, rest_of self.new)) result (all_of (optionally (word_stands words.As) (after_word words.As cast_target_at)) (rest_of self.old)) }
    {
        let mut types = Vec::new(alloc);
        while let Some(ty) = self.next_cast()? {
            types.push(ty)?;
        }
        Ok(types)
    }
}
