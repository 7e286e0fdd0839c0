//! Closing classes under operations.

ghost use Rattle.std.specs.Prelude.{◌≡◌, ◌∷◌, ◌++◌, [], ◌<◌, None, slice_get, find, length, IfOk, IfSome, IfNone, OnOk};
ghost use Rattle.std.specs.List.{list_any};
ghost use Rattle.std.specs.Cmp.Lexicographic.{pointwise};
ghost use Rattle.df_rules.specs.Classes.{is_together};
ghost use Rattle.df_rules.specs.CongruenceLine.{is_congruent};
ghost use Rattle.df_classes.specs.mirror.State.{label_of, list_at};
ghost use Rattle.df_classes.specs.mirror.Closure.{AreUsers, CanAbsorb, CanJoin, Absorbs, Joins, low_bits, seed_of, mixed, apart_from, alike_to, Enters, IsBucketOf};
ghost use Rattle.df_classes.specs.mirror.Steps.{IsReady, Advances, Closes};
ghost use Rattle.df_classes.specs.PartitionView.{state_of, Extends};

use crate::lists::Lists;
use crate::partition::Partition;
use df_form::{NodeTable, Op, Over, Pair};
use std::alloc::{AllocError, Global};

/// Whether parts have the same labels place by place.
fn have_one_label(partition: &Partition, first: &[usize], second: &[usize]) -> bool
    ensures { result ≡ pointwise (is_together (label_of (state_of partition.now))) first.now second.now }
{
    if first.len() != second.len() {
        return false;
    }
    for (place, part) in first.iter().enumerate() {
        let Some(other) = second.get(place) else {
            return false;
        };
        if partition.label(*part) != partition.label(*other) {
            return false;
        }
    }
    true
}

/// Whether two nodes are of one operation, on parts of the same labels.
#[tactic(auto, unfolding(df_form::specs::Symbol::same_symbol))]
pub fn are_alike(nodes: &Over, partition: &Partition, pair: Pair) -> bool
    ensures { result ≡ is_congruent nodes.now (label_of (state_of partition.now)) pair }
{
    match (nodes.get(pair.left), nodes.get(pair.right)) {
        (Some(first), Some(second)) if first.op == second.op => have_one_label(
            partition,
            &first.parts,
            &second.parts,
        ),
        _ => false,
    }
}

/// A node among some that is like this one, and has another label.
fn alike_and_apart(
    nodes: &Over,
    partition: &Partition,
    node: usize,
    others: &[usize],
) -> Option<usize>
    ensures { result ≡ find (apart_from nodes.now (label_of (state_of partition.now)) node) others.now }
{
    for other in others {
        let pair = Pair {
            left: node,
            right: *other,
        };
        if partition.label(node) != partition.label(*other) && are_alike(nodes, partition, pair) {
            return Some(*other);
        }
    }
    None
}

/// Whether a node among some is like this one.
fn has_alike(nodes: &Over, partition: &Partition, node: usize, others: &[usize]) -> bool
    ensures { result ≡ list_any (alike_to nodes.now (label_of (state_of partition.now)) node) others.now }
{
    for other in others {
        let pair = Pair {
            left: node,
            right: *other,
        };
        if are_alike(nodes, partition, pair) {
            return true;
        }
    }
    false
}

/// The low bits of a number without its sign.
fn low_bits(number: i128) -> usize
    ensures { result ≡ low_bits number }
{
    (number.unsigned_abs() % 0x1_0000_0000) as usize
}

/// A number that an operation decides.
fn seed(op: Op) -> usize
    ensures { result ≡ seed_of op }
{
    match op {
        Op::Number(number) => low_bits(number),
        Op::Free(free) => free.number,
        Op::Plus => 1,
        Op::Times => 2,
        Op::Of(_, _) => 3,
        Op::Equal => 8,
        Op::AtMost => 9,
        Op::Not => 10,
        Op::And => 11,
        Op::Or => 12,
        Op::Implies => 13,
        Op::Iff => 14,
    }
}

/// A number that another and the labels of parts decide.
fn mix(partition: &Partition, seed: usize, parts: &[usize]) -> usize
    ensures { result ≡ mixed (label_of (state_of partition.now)) seed parts.now }
{
    let mut so_far = seed;
    for part in parts {
        let product = so_far.wrapping_mul(6364136223846793005);
        so_far = product.wrapping_add(partition.label(*part));
    }
    so_far
}

/// The bucket of a node, where there is such a node.
fn bucket_for(nodes: &Over, partition: &Partition, node: usize) -> Option<usize>
    requires { IsReady nodes.now (state_of partition.now) }
    ensures some { IfSome result (IsBucketOf nodes.now (state_of partition.now) node) }
    ensures none { IfNone result (slice_get nodes.now node ≡ None) }
{
    let node = nodes.get(node)?;
    let number = mix(partition, seed(node.op), &node.parts);
    Some(number % partition.bucket_count())
}

/// Gives each node of one label another. The nodes that have them among their parts wait.
fn absorb(
    alloc: Global,
    users: &Lists,
    partition: &mut Partition,
    winner: usize,
    loser: usize,
    waiting: &mut Vec<usize>,
) -> Result<(), AllocError>
    requires { CanAbsorb winner loser (state_of partition.old) }
    ensures absorbs { OnOk result (Absorbs (length (state_of partition.old).labels) users.now winner loser (state_of partition.old) (state_of partition.new) waiting.old.items waiting.new.items) }
    ensures pairs { partition.new.pairs.items ≡ partition.old.pairs.items }
    ensures extends { Extends partition.old partition.new }
{
    let leaving = Vec::from_slice(alloc, partition.members(loser))?;
    for node in &leaving {
        partition.relabel(*node, winner)?;
        waiting.extend_from_slice(users.list(*node))?;
    }
    Ok(())
}

/// Makes the classes of two nodes one: the smaller goes to the other. The nodes that have one of its nodes among
/// their parts wait then. An error leaves changes that can be taken back.
pub fn join(
    alloc: Global,
    users: &Lists,
    partition: &mut Partition,
    pair: Pair,
    waiting: &mut Vec<usize>,
) -> Result<(), AllocError>
    requires { CanJoin pair (state_of partition.old) }
    ensures joins { OnOk result (Joins (length (state_of partition.old).labels) users.now (label_of (state_of partition.old) pair.left) (label_of (state_of partition.old) pair.right) (state_of partition.old) (state_of partition.new) waiting.old.items waiting.new.items) }
    ensures pairs { partition.new.pairs.items ≡ partition.old.pairs.items }
    ensures extends { Extends partition.old partition.new }
{
    let left = partition.label(pair.left);
    let right = partition.label(pair.right);
    let first = partition.members(left).len();
    let second = partition.members(right).len();
    if first < second {
        return absorb(alloc, users, partition, right, left, waiting);
    }
    absorb(alloc, users, partition, left, right, waiting)
}

/// Makes the classes of two nodes that are alike one. The first still waits.
fn merge(
    alloc: Global,
    users: &Lists,
    partition: &mut Partition,
    pair: Pair,
    waiting: &mut Vec<usize>,
) -> Result<(), AllocError>
    requires { CanJoin pair (state_of partition.old) }
    ensures joins { OnOk result (Joins (length (state_of partition.old).labels) users.now (label_of (state_of partition.old) pair.left) (label_of (state_of partition.old) pair.right) (state_of partition.old) (state_of partition.new) (waiting.old.items ++ pair.left ∷ []) waiting.new.items) }
    ensures pairs { OnOk result (partition.new.pairs.items ≡ partition.old.pairs.items ++ pair ∷ []) }
    ensures extends { Extends partition.old partition.new }
{
    partition.add(pair)?;
    waiting.push(pair.left)?;
    join(alloc, users, partition, pair, waiting)
}

/// Puts a node into its bucket, where no node like it is there.
fn enter(
    nodes: &Over,
    partition: &mut Partition,
    node: usize,
    bucket: usize,
) -> Result<(), AllocError>
    requires { bucket < length (state_of partition.old).buckets }
    ensures enters { OnOk result (Enters nodes.now node bucket (state_of partition.old) (state_of partition.new)) }
    ensures pairs { partition.new.pairs.items ≡ partition.old.pairs.items }
    ensures extends { Extends partition.old partition.new }
{
    if has_alike(nodes, partition, node, partition.bucket(bucket)) {
        return Ok(());
    }
    partition.enter(bucket, node)
}

/// Looks into the bucket of a node that waits: the node gets the label of a node like it that has another,
/// or it is put there.
fn look_into(
    alloc: Global,
    nodes: &Over,
    users: &Lists,
    partition: &mut Partition,
    node: usize,
    bucket: usize,
    waiting: &mut Vec<usize>,
) -> Result<(), AllocError>
    requires ready { IsReady nodes.now (state_of partition.old) }
    requires users { AreUsers nodes.now users.now }
    requires bucket { IsBucketOf nodes.now (state_of partition.old) node bucket }
    ensures advances { OnOk result (Advances nodes.now partition.old partition.new (node ∷ []) waiting.old.items waiting.new.items) }
    ensures extends { Extends partition.old partition.new }
{
    let other = alike_and_apart(nodes, partition, node, partition.bucket(bucket));
    match other {
        Some(other) => {
            let pair = Pair {
                left: node,
                right: other,
            };
            merge(alloc, users, partition, pair, waiting)
        }
        None => enter(nodes, partition, node, bucket),
    }
}

/// Looks at a node that waits: it gets the label of the nodes that are like it.
fn look_at(
    alloc: Global,
    nodes: &Over,
    users: &Lists,
    partition: &mut Partition,
    node: usize,
    waiting: &mut Vec<usize>,
) -> Result<(), AllocError>
    requires ready { IsReady nodes.now (state_of partition.old) }
    requires users { AreUsers nodes.now users.now }
    ensures advances { OnOk result (Advances nodes.now partition.old partition.new (node ∷ []) waiting.old.items waiting.new.items) }
    ensures extends { Extends partition.old partition.new }
{
    match bucket_for(nodes, partition, node) {
        Some(bucket) => look_into(alloc, nodes, users, partition, node, bucket, waiting),
        None => Ok(()),
    }
}

/// Looks at each node that waits, and answers those that wait then.
fn settle(
    alloc: Global,
    nodes: &Over,
    users: &Lists,
    partition: &mut Partition,
    waiting: &[usize],
) -> Result<Vec<usize>, AllocError>
    requires ready { IsReady nodes.now (state_of partition.old) }
    requires users { AreUsers nodes.now users.now }
    ensures advances { IfOk result (λ later. Advances nodes.now partition.old partition.new waiting.now [] later.items) }
    ensures extends { Extends partition.old partition.new }
{
    let mut later = Vec::new(alloc);
    for node in waiting {
        look_at(alloc, nodes, users, partition, *node, &mut later)?;
    }
    Ok(later)
}

/// Looks at nodes that wait until there are none.
pub(crate) fn close(
    alloc: Global,
    nodes: &Over,
    users: &Lists,
    partition: &mut Partition,
    waiting: Vec<usize>,
) -> Result<(), AllocError>
    requires ready { IsReady nodes.now (state_of partition.old) }
    requires users { AreUsers nodes.now users.now }
    ensures closes { OnOk result (Closes nodes.now partition.old partition.new waiting.items) }
    ensures extends { Extends partition.old partition.new }
{
    let mut waiting = waiting;
    while !waiting.is_empty() {
        waiting = settle(alloc, nodes, users, partition, &waiting)?;
    }
    Ok(())
}
