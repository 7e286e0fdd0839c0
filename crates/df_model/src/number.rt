//! The numbers of nodes by those of their parts.

ghost use Rattle.std.specs.Prelude.{◌≡◌, ◌≢◌, pos, length, map};
ghost use Rattle.std.specs.Int.{int_div_euclid};
ghost use Rattle.df_lang.specs.declared.ty.Ty.TheVariants as types;
ghost use Rattle.df_form.specs.World.{world_of};
ghost use Rattle.df_form.specs.Types.{has_number};
ghost use Rattle.df_form.specs.Clause.{yes};
ghost use Rattle.df_form.specs.Truth.{quotient, remainder, code_in};
ghost use Rattle.df_rules.specs.Known.{knows};
ghost use Rattle.df_row.specs.RowView.{narrow};
ghost use Rattle.df_table.specs.TableModel.{number_at};
ghost use Rattle.df_model.specs.Numbers.{is_of_type, narrow_symbol, narrow_by, free_by};

use crate::entry::formula_truth;
use crate::parts::{number_at, number_of_truth, part};
use df_form::{Free, Lit, Node, Op, Payload, Sort, Symbol, World};
use df_lang::Ty;
use df_rules::Known;

/// Whether a number is of the newtype of this number.
fn is_of_newtype(world: World, newtype: usize, number: i128) -> bool
    ensures { result ≡ has_number (world_of world.entry) (types.Newtype newtype) number }
{
    match world.interval(newtype) {
        Some(interval) => interval.holds(number),
        None => false,
    }
}

/// Whether what has this number is of the type.
fn is_of(world: World, ty: Ty, number: i128) -> bool
    ensures { result ≡ is_of_type (world_of world.entry) ty number }
{
    match ty {
        Ty::Newtype(newtype) => is_of_newtype(world, newtype, number),
        Ty::Nat => 0 <= number,
        Ty::Int | Ty::Bool | Ty::Char => true,
    }
}

/// The quotient by a divisor that is not 0, where it has 128 bits.
fn divided(number: i128, divisor: i128) -> Option<i128>
    requires { divisor ≢ pos 0 }
    ensures { result ≡ narrow (int_div_euclid number divisor) }
{
    number.checked_div_euclid(divisor)
}

/// The quotient that leaves a remainder of at least 0, where it has 128 bits; by 0 it is 0.
fn quotient(number: i128, divisor: i128) -> Option<i128>
    ensures { result ≡ narrow (quotient number divisor) }
{
    if divisor == 0 {
        return Some(0);
    }
    divided(number, divisor)
}

/// That remainder; by 0 it is 0.
fn remainder(number: i128, divisor: i128) -> i128
    ensures { result ≡ remainder number divisor }
{
    if divisor == 0 {
        return 0;
    }
    number.wrapping_rem_euclid(divisor)
}

/// The number where it is the code of a character, else that of `D`.
fn code_in(number: i128) -> i128
    ensures { result ≡ pos (code_in number) }
{
    if 0 <= number && number < 128 {
        number
    } else {
        68
    }
}

/// The number of a symbol by those of its parts, where it has 128 bits.
fn symbol_number(
    world: World,
    symbol: Symbol,
    payload: Payload,
    table: &[i128],
    parts: &[usize],
) -> Option<i128>
    ensures { result ≡ narrow_symbol (world_of world.entry) symbol payload (map (number_at table.now) parts.now) }
{
    let first = part(table, parts, 0);
    match symbol {
        Symbol::Div => quotient(first, part(table, parts, 1)),
        Symbol::Mod => Some(remainder(first, part(table, parts, 1))),
        Symbol::Code => Some(first),
        Symbol::Chr => Some(code_in(first)),
        Symbol::Is => Some(number_of_truth(is_of(world, payload.ty(), first))),
    }
}

/// The number of a free term by its node.
fn free_number(numbers: &[i128], known: &Known, sort: Sort, node: usize) -> i128
    ensures { result ≡ free_by (number_at numbers.now node) (knows known.now (yes node)) sort }
{
    match sort {
        Sort::Number => number_at(numbers, node),
        Sort::Character => code_in(number_at(numbers, node)),
        Sort::Truth => number_of_truth(known.has(Lit {
            positive: true,
            node,
        })),
    }
}

/// The number of the node that comes next after those of the table, where it has 128 bits.
pub(crate) fn next_number(
    world: World,
    numbers: &[i128],
    known: &Known,
    table: &[i128],
    node: &Node,
) -> Option<i128>
    ensures { result ≡ narrow_by (world_of world.entry) (λ free. free_by (number_at numbers.now (length table.now)) (knows known.now (yes (length table.now))) free.sort) node.now.op (map (number_at table.now) node.now.parts.items) }
{
    let parts = node.parts.as_slice();
    match node.op {
        Op::Number(number) => Some(number),
        Op::Free(Free { sort, .. }) => Some(free_number(numbers, known, sort, table.len())),
        Op::Plus => part(table, parts, 0).checked_add(part(table, parts, 1)),
        Op::Times => part(table, parts, 0).checked_mul(part(table, parts, 1)),
        Op::Equal | Op::AtMost | Op::Not | Op::And | Op::Or | Op::Implies | Op::Iff => {
            Some(number_of_truth(formula_truth(table, node.op, parts)))
        }
        Op::Of(symbol, payload) => symbol_number(world, symbol, payload, table, parts),
    }
}
