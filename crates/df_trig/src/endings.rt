//! Nodes by their last parts.

ghost use Rattle.std.specs.Prelude.{◌≡◌, ◌+◌, length, IfOk, OnOk};
ghost use Rattle.df_trig.specs.Endings.{last_part, AreEndings};

use df_classes::Lists;
use df_form::{NodeTable, Over, Term};
use std::alloc::{AllocError, Global};

/// The last part of the node of a number.
pub(crate) fn last_part(nodes: &Over, number: Term) -> Option<Term>
    ensures { result ≡ last_part nodes.now number }
{
    match nodes.get(number)?.parts.last() {
        Some(last) => Some(*last),
        None => None,
    }
}

/// Adds the node of a number to those with its last part, where it has one.
fn add_ending(lists: &mut Lists, nodes: &Over, number: Term) -> Result<(), AllocError>
    requires { AreEndings nodes.now number lists.old }
    ensures { OnOk result (AreEndings nodes.now (number + 1) lists.new) }
{
    let Some(last) = last_part(nodes, number) else {
        return Ok(());
    };
    if last >= lists.len() {
        return Ok(());
    }
    lists.push(last, number)
}

/// For each node the nodes whose last part it is, in order.
pub(crate) fn endings(alloc: Global, nodes: &Over) -> Result<Lists, AllocError>
    ensures { IfOk result (AreEndings nodes.now (length nodes.now)) }
{
    let mut lists = Lists::new(alloc, nodes.len())?;
    for number in 0..nodes.len() {
        add_ending(&mut lists, nodes, number)?;
    }
    Ok(lists)
}
