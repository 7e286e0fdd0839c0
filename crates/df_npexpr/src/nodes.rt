//! Nodes made of parts that were read, with their heights.

ghost use Rattle.df_ntree.specs.mirror.ExprReading.{deeper, leading_of, operations_of, cast_of, signed_of, call_of, parentheses_of, signed};
ghost use Rattle.df_ntree.specs.Expr.{expr_of};
ghost use Rattle.std.specs.Prelude.{◌≡◌, max, IfOk};
ghost use Rattle.df_npexpr.specs.Reads.{Reads};
ghost use Rattle.df_npexpr.specs.Parts.{part_of, parts_of, row_of};

use crate::cursor::{Cursor, syntax};
use crate::part::{Part, Parts, Row};
use df_base::{Global, Memory, Pos, Stop};
use df_ntree::{Expr, Literal, TreeType, UnaryOperator};

/// The larger of two heights.
pub(crate) fn larger(a: usize, b: usize) -> usize
    ensures { result ≡ max a b }
{
    if a < b { b } else { a }
}

/// What a sign before an operand makes: a minus belongs to a number right after it.
fn signed(alloc: Global, operator: UnaryOperator, pos: Pos, operand: Expr) -> Result<Expr, Memory>
    ensures { IfOk result (λ e. expr_of e ≡ signed operator pos (expr_of operand)) }
{
    match (operator, operand) {
        (
            UnaryOperator::Negate,
            Expr::Number(
                Literal {
                    negative: false,
                    magnitude,
                    pos: _,
                },
            ),
        ) => Ok(Expr::Number(Literal {
            negative: true,
            magnitude,
            pos,
        })),
        (operator, operand) => Ok(Expr::Unary {
            operator,
            pos,
            operand: Box::new(alloc, operand)?,
        }),
    }
}

impl Cursor<'_, '_> {
    /// The height of what holds parts of this height, where there is room for it.
    #[tactic(auto, unfolding(df_ntree::specs::mirror::ExprReading::deeper))]
    fn deeper(&self, room: usize, height: usize) -> Result<usize, Stop>
        ensures { Reads (λ x. x) result (deeper room height) }
    {
        if height < room {
            Ok(height + 1)
        } else {
            Err(syntax(self.pos()))
        }
    }

    /// Operands that each have their operator before them.
    #[tactic(auto, unfolding(df_ntree::specs::mirror::ExprReading::leading_of))]
    pub(crate) fn leading_of(&self, room: usize, row: Row) -> Result<Part, Stop>
        ensures { Reads part_of result (leading_of room (row_of row)) }
    {
        let height = self.deeper(room, row.height)?;
        let tree = Expr::Leading {
            operations: row.operations,
        };
        Ok(Part { tree, height })
    }

    /// Operations after a first operand, of which they have the height too.
    #[tactic(auto, unfolding(df_ntree::specs::mirror::ExprReading::operations_of))]
    pub(crate) fn operations_of(
        &self,
        alloc: Global,
        room: usize,
        first: Expr,
        row: Row,
    ) -> Result<Part, Stop>
        ensures { Reads part_of result (operations_of room (expr_of first) (row_of row)) }
    {
        let first = Box::new(alloc, first)?;
        let height = self.deeper(room, row.height)?;
        let tree = Expr::Operations {
            first,
            rest: row.operations,
        };
        Ok(Part { tree, height })
    }

    /// An operand with types after it, if any.
    #[tactic(auto, unfolding(df_ntree::specs::mirror::ExprReading::cast_of))]
    pub(crate) fn cast_of(
        &self,
        alloc: Global,
        room: usize,
        operand: Part,
        types: Vec<TreeType>,
    ) -> Result<Part, Stop>
        ensures { Reads part_of result (cast_of room (part_of operand) types.items) }
    {
        if types.is_empty() {
            return Ok(operand);
        }
        let boxed = Box::new(alloc, operand.tree)?;
        let height = self.deeper(room, operand.height)?;
        let tree = Expr::Cast {
            operand: boxed,
            types,
        };
        Ok(Part { tree, height })
    }

    /// A sign at `pos` before an operand.
    #[tactic(auto, unfolding(df_ntree::specs::mirror::ExprReading::signed_of))]
    pub(crate) fn signed_of(
        &self,
        alloc: Global,
        room: usize,
        operator: UnaryOperator,
        pos: Pos,
        operand: Part,
    ) -> Result<Part, Stop>
        ensures { Reads part_of result (signed_of room operator pos (part_of operand)) }
    {
        match self.deeper(room, operand.height) {
            Ok(height) => {
                let tree = signed(alloc, operator, pos, operand.tree)?;
                Ok(Part { tree, height })
            }
            Err(stop) => {
                drop(operand);
                Err(stop)
            }
        }
    }

    /// A call.
    #[tactic(auto, unfolding(df_ntree::specs::mirror::ExprReading::call_of))]
    pub(crate) fn call_of(
        &self,
        alloc: Global,
        room: usize,
        callee: Part,
        arguments: Parts,
    ) -> Result<Part, Stop>
        ensures { Reads part_of result (call_of room (part_of callee) (parts_of arguments)) }
    {
        let boxed = Box::new(alloc, callee.tree)?;
        let height = self.deeper(room, larger(callee.height, arguments.height))?;
        let tree = Expr::Call {
            callee: boxed,
            arguments: arguments.trees,
        };
        Ok(Part { tree, height })
    }

    /// What stands in parentheses that open at `pos`.
    #[tactic(auto, unfolding(df_ntree::specs::mirror::ExprReading::parentheses_of))]
    pub(crate) fn parentheses_of(
        &self,
        alloc: Global,
        room: usize,
        pos: Pos,
        inner: Part,
    ) -> Result<Part, Stop>
        ensures { Reads part_of result (parentheses_of room pos (part_of inner)) }
    {
        let boxed = Box::new(alloc, inner.tree)?;
        let height = self.deeper(room, inner.height)?;
        let tree = Expr::Parentheses { pos, inner: boxed };
        Ok(Part { tree, height })
    }
}
