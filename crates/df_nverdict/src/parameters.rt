//! The parameters of a method in a table.

ghost use Rattle.std.specs.Prelude.{◌≡◌, ◌++◌, false, map, position, slice_get, OnOk, IfOk};
ghost use Rattle.std.specs.Option.{option_map_or};
ghost use Rattle.df_lang.specs.DeclView.{param_of};
ghost use Rattle.df_report.specs.View.{parameter_of};
ghost use Rattle.df_nverdict.specs.Verdict.{is_numeric as is_numeric_type, is_free as is_free_in, free_number as number_of_free, number_of, numbers_of};

use df_form::{Front, NodeTable, Op, Sort};
use df_lang::{Param, Ty};
use df_report::Parameter;
use df_table::Table;
use std::alloc::{AllocError, Global};

/// Whether the type is one of numbers.
fn is_numeric(ty: Ty) -> bool
    ensures { result ≡ is_numeric_type ty }
{
    match ty {
        Ty::Newtype(_) | Ty::Int | Ty::Nat => true,
        Ty::Bool | Ty::Char => false,
    }
}

/// Whether the operation is the free number.
fn is_free(number: usize, op: Op) -> bool
    ensures { result ≡ is_free_in number op }
{
    match op {
        Op::Free(free) => free.number == number && free.sort == Sort::Number,
        _ => false,
    }
}

/// Whether there is a node of this number, and its operation is the free number.
fn is_free_at(nodes: &Front, index: usize, number: usize) -> bool
    ensures { result ≡ option_map_or (λ node. is_free_in number node.op) (slice_get nodes.now index) false }
{
    match nodes.get(index) {
        Some(node) => is_free(number, node.op),
        None => false,
    }
}

/// The first node of a free number.
fn node_of(nodes: &Front, number: usize) -> Option<usize>
    ensures { result ≡ position (λ node. is_free_in number node.op) nodes.now }
{
    for index in 0..nodes.len() {
        if is_free_at(nodes, index, number) {
            return Some(index);
        }
    }
    None
}

/// The number of a free term in a table; 0 where no node has it.
fn free_number(nodes: &Front, table: &Table, number: usize) -> i128
    ensures { result ≡ number_of_free nodes.now table.now number }
{
    match node_of(nodes, number) {
        Some(node) => table.number(node),
        None => 0,
    }
}

fn parameter(
    alloc: Global,
    nodes: &Front,
    table: &Table,
    param: &Param,
    number: usize,
) -> Result<Parameter, AllocError>
    ensures { IfOk result (λ parameter. parameter_of parameter ≡ record { name = (param_of param.now).declared.text; value = number_of_free nodes.now table.now number }) }
{
    Ok(Parameter {
        name: String::from_str(alloc, param.declared.text.as_str())?,
        value: free_number(nodes, table, number),
    })
}

/// Adds a parameter with the number of the free term that stands for it, if its type is one of numbers.
fn add(
    alloc: Global,
    nodes: &Front,
    table: &Table,
    param: &Param,
    number: usize,
    parameters: &mut Vec<Parameter>,
) -> Result<(), AllocError>
    ensures { OnOk result (map parameter_of parameters.new.items ≡ map parameter_of parameters.old.items ++ number_of nodes.now table.now number (param_of param.now)) }
{
    if is_numeric(param.ty) {
        parameters.push(parameter(alloc, nodes, table, param, number)?)?;
    }
    Ok(())
}

/// The parameters of types of numbers, with the numbers of the free terms that stand for them.
pub(crate) fn parameters(
    alloc: Global,
    nodes: &Front,
    table: &Table,
    params: &[Param],
) -> Result<Vec<Parameter>, AllocError>
    ensures { IfOk result (λ parameters. map parameter_of parameters.items ≡ numbers_of nodes.now table.now 0 (map param_of params.now)) }
{
    let mut parameters = Vec::new(alloc);
    for (number, param) in params.iter().enumerate() {
        add(alloc, nodes, table, param, number, &mut parameters)?;
    }
    Ok(parameters)
}
