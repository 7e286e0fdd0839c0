//! Expressions, level by level.

ghost use Rattle.std.specs.Prelude.{◌≡◌, ◌<◌, ◌-◌, option_map};
ghost use Rattle.df_ntree.specs.Operator.{rank, tighter};
ghost use Rattle.df_ntree.specs.declared.expr.Level.TheVariants as levels;
ghost use Rattle.df_ntree.specs.mirror.Reading.{next_by};
ghost use Rattle.df_ntree.specs.mirror.ExprReading.{next_operation, operations_at, level_by, cast_by, signed_by, primary_by, atom_by, parentheses_by, next_arguments, arguments_by, expressions_by, expr_at};
ghost use Rattle.df_npexpr.specs.Reads.{Reads};
ghost use Rattle.df_npexpr.specs.Rest.{rest_of};
ghost use Rattle.df_npexpr.specs.Parts.{part_of, parts_of, found_of, row_of};

use crate::cursor::{Cursor, syntax};
use crate::nodes::larger;
use crate::part::{Found, Part, Parts, Row};
use df_base::{Global, Pos, Stop};
use df_ntree::{Expr, Group, Ident, Level, Literal, Operation};
use df_tok::{Kind, Sign, Word};

impl Cursor<'_, '_> {
    /// Takes an expression of the level, of at most the height `room`.
    #[cycle(level)]
    pub(crate) fn level(&mut self, alloc: Global, room: usize, level: Level) -> Result<Part, Stop>
        ensures { Reads (λ x. (part_of x, rest_of self.new)) result (expr_at room level (rest_of self.old)) }
    {
        if room == 0 {
            return Err(syntax(self.pos()));
        }
        match level {
            Level::Primary => self.primary(alloc, room),
            Level::Unary => self.unary(alloc, room),
            Level::Cast => self.cast(alloc, room),
            _ => self.row(alloc, room, level),
        }
    }

    /// Takes an expression of a level of binary operators.
    #[cycle(level)]
    #[tactic(auto, unfolding(df_ntree::specs::mirror::ExprReading::level_by))]
    fn row(&mut self, alloc: Global, room: usize, level: Level) -> Result<Part, Stop>
        requires { rank level < 6 }
        ensures { Reads (λ x. (part_of x, rest_of self.new)) result (level_by room (expr_at room (tighter level)) level (rest_of self.old)) }
    {
        if let Some(operator) = self.leading(level) {
            let row = self.operations(alloc, room, level, operator.group(), 0)?;
            return self.leading_of(room, row);
        }
        let first = self.level(alloc, room, level.tighter())?;
        match self.operator_in(level) {
            None => Ok(first),
            Some(operator) => {
                match self.operations(alloc, room, level, operator.group(), first.height) {
                    Ok(row) => self.operations_of(alloc, room, first.tree, row),
                    Err(stop) => {
                        drop(first);
                        Err(stop)
                    }
                }
            }
        }
    }

    /// Takes the operations of the group; gives the larger of the height and theirs, too.
    #[cycle(level)]
    fn operations(
        &mut self,
        alloc: Global,
        room: usize,
        level: Level,
        group: Group,
        mut height: usize,
    ) -> Result<Row, Stop>
        requires { rank level < 6 }
        ensures { Reads (λ x. (row_of x, rest_of self.new)) result (operations_at group (expr_at room (tighter level)) height (rest_of self.old)) }
    {
        let mut operations = Vec::new(alloc);
        while let Some(found) = self.next_operation(alloc, room, level, group)? {
            height = larger(height, found.height);
            operations.push(found.operation)?;
        }
        Ok(Row { operations, height })
    }

    /// Takes the next operator of the group with its operand, or nothing at the end of the row.
    #[cycle(level)]
    #[tactic(auto, unfolding(df_ntree::specs::mirror::ExprReading::next_operation))]
    fn next_operation(
        &mut self,
        alloc: Global,
        room: usize,
        level: Level,
        group: Group,
    ) -> Result<Option<Found>, Stop>
        requires { rank level < 6 }
        ensures { Reads (λ x. (option_map found_of x, rest_of self.new)) result (next_operation group (expr_at room (tighter level)) (rest_of self.old)) }
    {
        match self.optional_operator(group) {
            None => Ok(None),
            Some((operator, pos)) => {
                let part = self.level(alloc, room, level.tighter())?;
                let operation = Operation {
                    operator,
                    pos,
                    operand: part.tree,
                };
                Ok(Some(Found {
                    operation,
                    height: part.height,
                }))
            }
        }
    }

    /// Takes an operand, and the types after it.
    #[cycle(level)]
    #[tactic(auto, unfolding(df_ntree::specs::mirror::ExprReading::cast_by, df_ntree::specs::mirror::ExprReading::casts_at, df_ntree::specs::mirror::Reading::many))]
    fn cast(&mut self, alloc: Global, room: usize) -> Result<Part, Stop>
        ensures { Reads (λ x. (part_of x, rest_of self.new)) result (cast_by room (expr_at room levels.Unary) (rest_of self.old)) }
    {
        let operand = self.level(alloc, room, Level::Unary)?;
        match self.casts(alloc) {
            Ok(types) => self.cast_of(alloc, room, operand, types),
            Err(stop) => {
                drop(operand);
                Err(stop)
            }
        }
    }

    /// Takes an operand with the signs before it.
    #[cycle(level)]
    #[tactic(auto, unfolding(df_ntree::specs::mirror::ExprReading::signed_by))]
    fn unary(&mut self, alloc: Global, room: usize) -> Result<Part, Stop>
        requires { 0 < room }
        ensures { Reads (λ x. (part_of x, rest_of self.new)) result (signed_by room (expr_at (room - 1) levels.Unary) (expr_at room levels.Primary) (rest_of self.old)) }
    {
        match self.optional_unary() {
            None => self.level(alloc, room, Level::Primary),
            Some((operator, pos)) => {
                let operand = self.level(alloc, room - 1, Level::Unary)?;
                self.signed_of(alloc, room, operator, pos, operand)
            }
        }
    }

    /// Takes an atom with its suffixes.
    #[cycle(level)]
    fn primary(&mut self, alloc: Global, room: usize) -> Result<Part, Stop>
        requires { 0 < room }
        ensures { Reads (λ x. (part_of x, rest_of self.new)) result (primary_by room (expr_at (room - 1) levels.Equivalence) (rest_of self.old)) }
    {
        let mut part = self.atom(alloc, room)?;
        while let Some(arguments) = self.next_arguments(alloc, room)? {
            part = self.call_of(alloc, room, part, arguments)?;
        }
        Ok(part)
    }

    /// Takes an atom.
    #[cycle(level)]
    #[tactic(auto, unfolding(df_ntree::specs::mirror::ExprReading::atom_by))]
    fn atom(&mut self, alloc: Global, room: usize) -> Result<Part, Stop>
        requires { 0 < room }
        ensures { Reads (λ x. (part_of x, rest_of self.new)) result (atom_by room (expr_at (room - 1) levels.Equivalence) (rest_of self.old)) }
    {
        let [token, rest @ ..] = self.rest else {
            return Err(syntax(self.pos()));
        };
        let pos = token.pos;
        let tree = match token.kind {
            Kind::Number(magnitude) => Expr::Number(Literal {
                negative: false,
                magnitude,
                pos,
            }),
            Kind::Character(code) => Expr::Character { code, pos },
            Kind::Name(name) => Expr::Name(Ident { name, pos }),
            Kind::Word(Word::True) => Expr::Truth { value: true, pos },
            Kind::Word(Word::False) => Expr::Truth { value: false, pos },
            Kind::Sign(Sign::OpenParenthesis) => {
                self.rest = rest;
                return self.parentheses(alloc, room, pos);
            }
            _ => return Err(syntax(pos)),
        };
        self.rest = rest;
        Ok(Part { tree, height: 1 })
    }

    /// Takes what follows an opening parenthesis at `pos`.
    #[cycle(level)]
    #[tactic(auto, unfolding(df_ntree::specs::mirror::ExprReading::parentheses_by))]
    fn parentheses(&mut self, alloc: Global, room: usize, pos: Pos) -> Result<Part, Stop>
        requires { 0 < room }
        ensures { Reads (λ x. (part_of x, rest_of self.new)) result (parentheses_by room (expr_at (room - 1) levels.Equivalence) pos (rest_of self.old)) }
    {
        let inner = self.level(alloc, room - 1, Level::Equivalence)?;
        match self.sign(Sign::CloseParenthesis) {
            Ok(()) => self.parentheses_of(alloc, room, pos, inner),
            Err(stop) => {
                drop(inner);
                Err(stop)
            }
        }
    }

    /// Takes the arguments of the next call, or nothing where no parenthesis opens.
    #[cycle(level)]
    #[tactic(auto, unfolding(df_ntree::specs::mirror::ExprReading::next_arguments))]
    fn next_arguments(&mut self, alloc: Global, room: usize) -> Result<Option<Parts>, Stop>
        requires { 0 < room }
        ensures { Reads (λ x. (option_map parts_of x, rest_of self.new)) result (next_arguments (expr_at (room - 1) levels.Equivalence) (rest_of self.old)) }
    {
        if !self.sign_stands(Sign::OpenParenthesis) {
            return Ok(None);
        }
        self.sign(Sign::OpenParenthesis)?;
        let arguments = self.arguments(alloc, room - 1)?;
        self.sign(Sign::CloseParenthesis)?;
        Ok(Some(arguments))
    }

    /// Takes the arguments before a closing parenthesis.
    #[cycle(level)]
    #[tactic(auto, unfolding(df_ntree::specs::mirror::ExprReading::arguments_by))]
    fn arguments(&mut self, alloc: Global, room: usize) -> Result<Parts, Stop>
        ensures { Reads (λ x. (parts_of x, rest_of self.new)) result (arguments_by (expr_at room levels.Equivalence) (rest_of self.old)) }
    {
        if self.sign_stands(Sign::CloseParenthesis) {
            Ok(Parts {
                trees: Vec::new(alloc),
                height: 0,
            })
        } else {
            self.parts(alloc, room, Level::Equivalence)
        }
    }

    /// Takes expressions of the level with commas between them, at least one.
    #[cycle(level)]
    pub(crate) fn parts(&mut self, alloc: Global, room: usize, level: Level) -> Result<Parts, Stop>
        ensures { Reads (λ x. (parts_of x, rest_of self.new)) result (expressions_by (expr_at room level) (rest_of self.old)) }
    {
        let first = self.level(alloc, room, level)?;
        let mut trees = Vec::new(alloc);
        let mut height = first.height;
        trees.push(first.tree)?;
        while let Some(part) = self.next_part(alloc, room, level)? {
            height = larger(height, part.height);
            trees.push(part.tree)?;
        }
        Ok(Parts { trees, height })
    }

    /// Takes a comma and an expression of the level, or nothing where no comma stands.
    #[cycle(level)]
    fn next_part(&mut self, alloc: Global, room: usize, level: Level) -> Result<Option<Part>, Stop>
        ensures { Reads (λ x. (option_map part_of x, rest_of self.new)) result (next_by (expr_at room level) (rest_of self.old)) }
    {
        if self.sign_stands(Sign::Comma) {
            self.sign(Sign::Comma)?;
            Ok(Some(self.level(alloc, room, level)?))
        } else {
            Ok(None)
        }
    }
}
