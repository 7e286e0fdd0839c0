//! Clauses that are open beside known literals.

ghost use Rattle.std.specs.Prelude.{◌≡◌, ◌||◌, List, map};
ghost use Rattle.std.specs.List.{list_any};
ghost use Rattle.df_form.specs.declared.log.Lit.{Lit};
ghost use Rattle.df_form.specs.Clause.{yes, no, negation, is_among};
ghost use Rattle.df_rules.specs.Known.{knows, IsSetOf};
ghost use Rattle.df_closure.specs.Closure.{ground_of, counts_for};
ghost use Rattle.df_branch.specs.Filling.{TellsMember, TellsOpen, TellsUndecided};

use df_clause::GroundClause;
use df_form::{Formula, Lit};
use df_rules::Known;

/// Whether a clause that is bound to an equality counts.
fn counts(known: &Known, bound: Option<Formula>) -> bool
    ensures { (literals : List Lit) → IsSetOf literals known.now → result ≡ counts_for literals bound }
{
    match bound {
        None => true,
        Some(node) => {
            known.has(Lit {
                positive: true,
                node,
            }) || known.has(Lit {
                positive: false,
                node,
            })
        }
    }
}

/// Whether a literal of the clause is known.
fn is_met(known: &Known, clause: &[Lit]) -> bool
    ensures { result ≡ list_any (knows known.now) clause.now }
{
    clause.iter().any(|literal| known.has(*literal))
}

/// The first literal of a clause whose negation is not known.
fn undecided(known: &Known, clause: &[Lit]) -> Option<Lit>
    ensures { (literals : List Lit) → IsSetOf literals known.now → TellsUndecided literals clause.now result }
{
    for literal in clause {
        if !known.has(literal.negation()) {
            return Some(*literal);
        }
    }
    None
}

/// A literal of the clause to be decided, where it is open.
fn member(known: &Known, clause: &GroundClause) -> Option<Lit>
    ensures { (literals : List Lit) → IsSetOf literals known.now → TellsMember literals (ground_of clause.now) result }
{
    if !counts(known, clause.bound) || is_met(known, &clause.literals) {
        return None;
    }
    undecided(known, &clause.literals)
}

/// An undecided literal of a clause that is open beside the known ones, if one is.
pub(crate) fn open_member(clauses: &[GroundClause], known: &Known) -> Option<Lit>
    ensures { (literals : List Lit) → IsSetOf literals known.now → TellsOpen (map ground_of clauses.now) literals result }
{
    for clause in clauses {
        if let Some(literal) = member(known, clause) {
            return Some(literal);
        }
    }
    None
}
