//! Rounds of instances.

ghost use Rattle.std.specs.Prelude.{◌≡◌, ◌∷◌, ◌+◌, ◌<◌, ◌≤◌, [], length, slice_get, Some, IfOk};
ghost use Rattle.std.specs.Option.{option_map};
ghost use Rattle.std.specs.List.{flat_map, range_with_len};
ghost use Rattle.df_form.specs.Node.{Node as PureNode};
ghost use Rattle.df_form.specs.World.{world_of};
ghost use Rattle.df_form.specs.Log.{Connective, Schema};
ghost use Rattle.df_form.specs.Sequent.{Sequent as Claim};
ghost use Rattle.df_form.specs.SequentView.{sequent_of};
ghost use Rattle.df_axiom.specs.Line.{first_op, instance_line};
ghost use Rattle.df_axiom.specs.Schemas.{template};
ghost use Rattle.df_rules.specs.Instance.{Instantiates as InstantiatesLine};
ghost use Rattle.df_clause.specs.Among.{Among};
ghost use Rattle.df_clause.specs.GroundSet.{with_line, with_lines, with_meaning, with_meanings};
ghost use Rattle.df_clause.specs.GroundView.{set_of};
ghost use Rattle.df_trig.specs.declared.pattern.Pattern.{Pattern as PurePattern};
ghost use Rattle.df_trig.specs.Endings.{IndexFronts};
ghost use Rattle.df_trig.specs.Instances.{with_matches, with_round};
ghost use Rattle.df_trig.specs.Matches.{pattern_lines, first_lines, pair_lines};
ghost use Rattle.df_trig.specs.Rounds.{of_products, Adds, AreFew, Reaches, Rounds, TellsFew, Instantiates};

use crate::endings::{endings, last_part};
use crate::fault::TrigFault;
use crate::pattern::{Named, Pattern, named_terms, patterns};
use df_axiom::{AxiomFault, Schemas};
use df_classes::Lists;
use df_clause::{Ground, clauses};
use df_form::{Lit, NodeTable, Op, Over, Sequent, Step, Term, World};
use std::alloc::{AllocError, Global};

/// So many instances are too many.
const LIMIT: u64 = 200_000;

fn tell_few(ground: &Ground) -> Result<(), TrigFault>
    ensures { TellsFew (set_of ground.now) result }
{
    if ground.clauses.instance_count() as u64 >= LIMIT {
        Err(TrigFault::Many(LIMIT))
    } else {
        Ok(())
    }
}

/// The clause of a schema, as a line of a log has it.
fn clause_of<X: Schemas>(
    alloc: Global,
    world: World,
    nodes: &mut Over,
    schemas: &X,
    pattern: &Pattern,
    terms: &[Term],
) -> Result<Vec<Lit>, AxiomFault>
    ensures { InstantiatesLine nodes.old nodes.new result (instance_line (world_of world.entry) nodes.old pattern.now.schema pattern.now.clause terms.now) }
{
    schemas.instance(alloc, world, nodes, pattern.schema, pattern.clause, terms)
}

/// Adds the clause of a schema for these terms, if there is one and it is new.
fn add_clause<X: Schemas>(
    alloc: Global,
    ground: &mut Ground,
    sequent: &Sequent,
    schemas: &X,
    pattern: &Pattern,
    terms: &[Term],
) -> Result<(), AllocError>
    ensures { Adds (sequent_of sequent.now) (Schema pattern.now.schema pattern.now.clause terms.now) (set_of ground.old) (set_of ground.new) result }
{
    let copy = Vec::from_slice(alloc, terms)?;
    let before = ground.nodes.len();
    match clause_of(
        alloc,
        sequent.world,
        &mut ground.nodes,
        schemas,
        pattern,
        terms,
    ) {
        Ok(literals) => {
            let line = Step::Schema {
                schema: pattern.schema,
                clause: pattern.clause,
                terms: copy,
            };
            ground.keep(before, line, None, literals)
        }
        Err(AxiomFault::NoSuch) => Ok(()),
        Err(AxiomFault::Memory) => Err(AllocError),
    }
}

/// The same, and whether there are too many instances then.
fn add_instance<X: Schemas>(
    alloc: Global,
    ground: &mut Ground,
    sequent: &Sequent,
    schemas: &X,
    pattern: &Pattern,
    terms: &[Term],
) -> Result<(), TrigFault>
    requires few { AreFew (set_of ground.old) }
    ensures { Reaches (set_of ground.old) (with_line (sequent_of sequent.now) (set_of ground.old) (Schema pattern.now.schema pattern.now.clause terms.now)) (set_of ground.new) result }
{
    // The nodes are a table.
    let _nodes = ground.nodes.len();
    add_clause(alloc, ground, sequent, schemas, pattern, terms)?;
    tell_few(ground)
}

/// Adds the instances of a pattern of two terms, of which this is the first, and the second one of these.
fn add_pairs<X: Schemas>(
    alloc: Global,
    ground: &mut Ground,
    sequent: &Sequent,
    schemas: &X,
    pattern: &Pattern,
    first: Term,
    others: &[Term],
) -> Result<(), TrigFault>
    requires few { AreFew (set_of ground.old) }
    ensures { Reaches (set_of ground.old) (with_lines (sequent_of sequent.now) (set_of ground.old) (pair_lines pattern.now first others.now)) (set_of ground.new) result }
{
    // The nodes are a table.
    let _nodes = ground.nodes.len();
    for second in others {
        add_instance(alloc, ground, sequent, schemas, pattern, &[first, *second])?;
    }
    Ok(())
}

/// The numbers below a count.
fn first_numbers(alloc: Global, count: usize) -> Result<Vec<Term>, AllocError>
    ensures { IfOk result (λ numbers. numbers.items ≡ range_with_len 0 count) }
{
    (0..count).collect(alloc)
}

/// Adds the instances of a pattern of two terms, of which this is the first, for so many nodes.
fn add_all_pairs<X: Schemas>(
    alloc: Global,
    ground: &mut Ground,
    sequent: &Sequent,
    schemas: &X,
    count: usize,
    pattern: &Pattern,
    first: Term,
) -> Result<(), TrigFault>
    requires few { AreFew (set_of ground.old) }
    ensures { Reaches (set_of ground.old) (with_lines (sequent_of sequent.now) (set_of ground.old) (pair_lines pattern.now first (range_with_len 0 count))) (set_of ground.new) result }
{
    // The nodes are a table.
    let _nodes = ground.nodes.len();
    let others = first_numbers(alloc, count)?;
    add_pairs(alloc, ground, sequent, schemas, pattern, first, &others)
}

/// Adds the instances of the pattern of two products, of which this is the first, for the nodes that stood
/// at the start: those that end in one part.
fn add_joined<X: Schemas>(
    alloc: Global,
    ground: &mut Ground,
    sequent: &Sequent,
    schemas: &X,
    lists: &Lists,
    pattern: &Pattern,
    first: Term,
) -> Result<(), TrigFault>
    requires few { AreFew (set_of ground.old) }
    requires index { IndexFronts ground.old.nodes lists.now }
    requires first { first < length lists.now }
    requires op { first_op ground.old.nodes (first ∷ []) ≡ Some pattern.now.op }
    requires two { template (world_of sequent.now.world) pattern.now.op pattern.now.schema pattern.now.clause ≡ Some of_products }
    ensures { Reaches (set_of ground.old) (with_lines (sequent_of sequent.now) (set_of ground.old) (pair_lines pattern.now first (range_with_len 0 (length lists.now)))) (set_of ground.new) result }
{
    // The nodes are a table.
    let _nodes = ground.nodes.len();
    match last_part(&ground.nodes, first) {
        Some(last) => add_pairs(
            alloc,
            ground,
            sequent,
            schemas,
            pattern,
            first,
            lists.list(last),
        ),
        None => Ok(()),
    }
}

/// Adds the instances of a pattern for the nodes that stood at the start, of which this is the first term.
fn add_pattern<X: Schemas>(
    alloc: Global,
    ground: &mut Ground,
    sequent: &Sequent,
    schemas: &X,
    lists: &Lists,
    pattern: &Pattern,
    first: Term,
) -> Result<(), TrigFault>
    requires few { AreFew (set_of ground.old) }
    requires index { IndexFronts ground.old.nodes lists.now }
    requires first { first < length lists.now }
    requires op { first_op ground.old.nodes (first ∷ []) ≡ Some pattern.now.op }
    ensures { Reaches (set_of ground.old) (with_lines (sequent_of sequent.now) (set_of ground.old) (pattern_lines (sequent_of sequent.now).world (length lists.now) first pattern.now)) (set_of ground.new) result }
{
    // The nodes are a table.
    let _nodes = ground.nodes.len();
    let terms = named_terms(alloc, sequent.world, pattern)?;
    match terms {
        Named::Nothing => Ok(()),
        Named::One => add_instance(alloc, ground, sequent, schemas, pattern, &[first]),
        Named::Two => add_all_pairs(alloc, ground, sequent, schemas, lists.len(), pattern, first),
        Named::Products => add_joined(alloc, ground, sequent, schemas, lists, pattern, first),
    }
}

/// Adds the instances of these patterns, of which this is the first term.
fn add_patterns<X: Schemas>(
    alloc: Global,
    ground: &mut Ground,
    sequent: &Sequent,
    schemas: &X,
    lists: &Lists,
    list: &[Pattern],
    first: Term,
) -> Result<(), TrigFault>
    requires few { AreFew (set_of ground.old) }
    requires index { IndexFronts ground.old.nodes lists.now }
    requires first { first < length lists.now }
    requires ops { (p : PurePattern) → Among list.now p → first_op ground.old.nodes (first ∷ []) ≡ Some p.op }
    ensures { Reaches (set_of ground.old) (with_lines (sequent_of sequent.now) (set_of ground.old) (flat_map (pattern_lines (sequent_of sequent.now).world (length lists.now) first) list.now)) (set_of ground.new) result }
{
    // The nodes are a table.
    let _nodes = ground.nodes.len();
    for pattern in list {
        add_pattern(alloc, ground, sequent, schemas, lists, pattern, first)?;
    }
    Ok(())
}

/// The operation of the node of a number.
fn op_at(nodes: &Over, number: Term) -> Option<Op>
    ensures { result ≡ option_map (λ (node : PureNode). node.op) (slice_get nodes.now number) }
{
    Some(nodes.get(number)?.op)
}

/// Adds the instances of all patterns, of which this is the first term.
fn add_first<X: Schemas>(
    alloc: Global,
    ground: &mut Ground,
    sequent: &Sequent,
    schemas: &X,
    lists: &Lists,
    first: Term,
) -> Result<(), TrigFault>
    requires few { AreFew (set_of ground.old) }
    requires index { IndexFronts ground.old.nodes lists.now }
    requires first { first < length lists.now }
    ensures { Reaches (set_of ground.old) (with_lines (sequent_of sequent.now) (set_of ground.old) (first_lines (sequent_of sequent.now).world (length lists.now) ground.old.nodes first)) (set_of ground.new) result }
{
    // The nodes are a table.
    let _nodes = ground.nodes.len();
    match op_at(&ground.nodes, first) {
        Some(op) => {
            let list = patterns(alloc, op)?;
            add_patterns(alloc, ground, sequent, schemas, lists, &list, first)
        }
        None => Ok(()),
    }
}

/// Adds every match of a pattern whose first term is below the count of lists.
fn add_firsts<X: Schemas>(
    alloc: Global,
    ground: &mut Ground,
    sequent: &Sequent,
    schemas: &X,
    lists: &Lists,
) -> Result<(), TrigFault>
    requires few { AreFew (set_of ground.old) }
    requires index { IndexFronts ground.old.nodes lists.now }
    ensures { Reaches (set_of ground.old) (with_lines (sequent_of sequent.now) (set_of ground.old) (flat_map (first_lines (sequent_of sequent.now).world (length lists.now) ground.old.nodes) (range_with_len 0 (length lists.now)))) (set_of ground.new) result }
{
    // The nodes are a table.
    let _nodes = ground.nodes.len();
    for first in 0..lists.len() {
        add_first(alloc, ground, sequent, schemas, lists, first)?;
    }
    Ok(())
}

/// Adds every match of a pattern against the terms that stand.
fn add_matches<X: Schemas>(
    alloc: Global,
    ground: &mut Ground,
    sequent: &Sequent,
    schemas: &X,
) -> Result<(), TrigFault>
    requires few { AreFew (set_of ground.old) }
    ensures { Reaches (set_of ground.old) (with_matches (sequent_of sequent.now) (set_of ground.old)) (set_of ground.new) result }
{
    // The nodes are a table.
    let _nodes = ground.nodes.len();
    let lists = endings(alloc, &ground.nodes)?;
    add_firsts(alloc, ground, sequent, schemas, &lists)
}

/// Adds a clause that the connective of a node means.
fn add_connective(
    alloc: Global,
    ground: &mut Ground,
    number: usize,
    clause: usize,
) -> Result<(), TrigFault>
    requires few { AreFew (set_of ground.old) }
    ensures { (s : Claim) → Reaches (set_of ground.old) (with_line s (set_of ground.old) (Connective number clause)) (set_of ground.new) result }
{
    // The nodes are a table.
    let _nodes = ground.nodes.len();
    ground.add_connective(alloc, number, clause)?;
    tell_few(ground)
}

/// Adds what the connective of a node means.
fn add_meaning(alloc: Global, ground: &mut Ground, number: usize) -> Result<(), TrigFault>
    requires few { AreFew (set_of ground.old) }
    ensures { (s : Claim) → Reaches (set_of ground.old) (with_meaning s (set_of ground.old) number) (set_of ground.new) result }
{
    // The nodes are a table.
    let _nodes = ground.nodes.len();
    for clause in 0..ground.meaning_count(number) {
        add_connective(alloc, ground, number, clause)?;
    }
    Ok(())
}

/// Adds what the connectives of so many nodes from this number on mean.
fn add_meanings(
    alloc: Global,
    ground: &mut Ground,
    first: usize,
    count: usize,
) -> Result<(), TrigFault>
    requires few { AreFew (set_of ground.old) }
    requires within { first + count ≤ length ground.old.nodes }
    ensures { (s : Claim) → Reaches (set_of ground.old) (with_meanings s (set_of ground.old) (range_with_len first count)) (set_of ground.new) result }
{
    // The nodes are a table.
    let _nodes = ground.nodes.len();
    for place in 0..count {
        add_meaning(alloc, ground, first + place)?;
    }
    Ok(())
}

/// Adds a round of instances.
fn add_round<X: Schemas>(
    alloc: Global,
    ground: &mut Ground,
    sequent: &Sequent,
    schemas: &X,
) -> Result<(), TrigFault>
    requires few { AreFew (set_of ground.old) }
    ensures { Reaches (set_of ground.old) (with_round (sequent_of sequent.now) (set_of ground.old)) (set_of ground.new) result }
{
    let first = ground.nodes.len();
    add_matches(alloc, ground, sequent, schemas)?;
    let count = ground.nodes.len() - first;
    add_meanings(alloc, ground, first, count)
}

/// Adds to a ground set the clauses of every match of a pattern of a schema against the terms that stand
/// at its start, equal ones once, and what the connectives mean that come with them. How many instances
/// are new. Nothing is taken away. It is `Many` exactly where there are 200000 instances, those of the set
/// with them, and then the set has so many; after want of memory it has the first ones of the round.
pub fn round<X: Schemas>(
    alloc: Global,
    ground: &mut Ground,
    sequent: &Sequent,
    schemas: &X,
) -> Result<u64, TrigFault>
    ensures { Rounds (sequent_of sequent.now) (set_of ground.old) (set_of ground.new) result }
{
    // The nodes are a table.
    let _nodes = ground.nodes.len();
    tell_few(ground)?;
    let before = ground.clauses.instance_count();
    add_round(alloc, ground, sequent, schemas)?;
    let added = ground.clauses.instance_count() - before;
    Ok(added as u64)
}

/// The ground set of a sequent with so many rounds of instances. It is `Many` where one of the rounds is.
pub fn instances<'a, X: Schemas>(
    alloc: Global,
    sequent: &'a Sequent<'a>,
    schemas: &X,
    rounds: u32,
) -> Result<Ground<'a>, TrigFault>
    ensures set { Instantiates (sequent_of sequent.now) rounds result }
    ensures lines { IfOk result (λ g. length g.clauses ≡ length g.lines.items) }
{
    let mut ground = clauses(alloc, sequent)?;
    for _done in 0..rounds {
        round(alloc, &mut ground, &*sequent, schemas)?;
    }
    // The nodes are a table.
    let _nodes = ground.nodes.len();
    Ok(ground)
}
