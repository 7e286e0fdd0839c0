//! The nodes that have a node among their parts.

ghost use Rattle.std.specs.Prelude.{◌≡◌, ◌+◌, ◌<◌, ◌≤◌, length, IfOk, OnOk};
ghost use Rattle.df_classes.specs.mirror.Closure.{AreUsers};
ghost use Rattle.df_classes.specs.mirror.Users.{AddsUser, AreUsersBelow};

use crate::lists::Lists;
use df_form::{NodeTable, Over};
use std::alloc::{AllocError, Global};

/// Adds a node to the users of each of its parts.
fn add_user(users: &mut Lists, parts: &[usize], user: usize) -> Result<(), AllocError>
    ensures { OnOk result (AddsUser users.old users.new parts.now user) }
{
    for part in parts {
        if *part < users.len() {
            users.push(*part, user)?;
        }
    }
    Ok(())
}

/// Adds the node of a number, where there is one, to the users of its parts.
fn add_node(users: &mut Lists, nodes: &Over, number: usize) -> Result<(), AllocError>
    requires { AreUsersBelow nodes.now users.old number }
    ensures { OnOk result (AreUsersBelow nodes.now users.new (number + 1)) }
{
    match nodes.get(number) {
        Some(node) => add_user(users, &node.parts, number),
        None => Ok(()),
    }
}

/// The users of each node.
pub fn users_of(alloc: Global, nodes: &Over) -> Result<Lists, AllocError>
    ensures { IfOk result (λ users. AreUsers nodes.now users) }
{
    let mut users = Lists::new(alloc, nodes.len())?;
    for number in 0..nodes.len() {
        add_node(&mut users, nodes, number)?;
    }
    Ok(users)
}
