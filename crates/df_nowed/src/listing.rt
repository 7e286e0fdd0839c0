//! The obligations of declarations and programs.

ghost use Rattle.std.proofs.Props.{props};
ghost use Rattle.std.specs.Prelude.{◌≡◌, ◌<◌, ◌≤◌, ◌++◌, ℕ, [], Some, flat_map, length, map, slice_get, IfOk, OnOk};
ghost use Rattle.std.specs.List.{AllByRecursion};
ghost use Rattle.df_form.specs.Sorting.{IsTable};
ghost use Rattle.df_lang.specs.DeclView.{decl_of, method_of};
ghost use Rattle.df_lang.specs.Program.{method_at};
ghost use Rattle.df_lang.specs.View.{program_of};
ghost use Rattle.df_nledger.specs.Said.{said_in};
ghost use Rattle.df_npass.specs.Methods.{obligations as all_of, obligations_of as from_said, obligations_of_decl, obligations_of_method as of_method};
ghost use Rattle.df_nowed.specs.Listing.{ArePlaces, known_once, group_of_decl, all_groups};
ghost use Rattle.df_nowed.specs.Owed.{IsOwed};
ghost use Rattle.df_nowed.specs.Obligation.{with_goal, obligation_in, obligations_in, obligations_of, grouped_in, methods_of};
ghost use Rattle.df_nenc.specs.Standing.{IsTerm};
ghost use Rattle.df_nterm.specs.Term.{Truths};

use crate::numbering::{Numbering, numbered};
use crate::obligation::{MethodObligations, Obligation, Obligations};
use df_form::{Formula, Formulas, Front, NodeTable, Nodes};
use df_lang::{Decl, DeclId, Method, Program};
use df_nflow::{Passage, method as pass};
use df_nledger::Said;
use std::alloc::{AllocError, Global};

/// Formulas in order, each once: the place of a node, if it is among them, is kept by its number.
#[derive(Drop)]
struct Known {
    formulas: Vec<Formula>,
    places: Vec<Option<usize>>,
    ghost are_places: { ArePlaces places.items formulas.items } by { Prim.hlevel props },
}

impl Known {
    /// A formula is known once. Its place.
    fn add(&mut self, formula: Formula) -> Result<usize, AllocError>
        requires { formula < length self.old.places.items }
        ensures formulas { OnOk result (self.new.formulas.items ≡ known_once self.old.formulas.items formula) }
        ensures place { IfOk result (λ place. slice_get self.new.formulas.items place ≡ Some formula) }
        ensures within { IfOk result (λ place. place ≤ length self.old.formulas.items) }
        ensures long { length self.new.places.items ≡ length self.old.places.items }
    {
        if let Some(place) = self.places[formula] {
            return Ok(place);
        }
        let place = self.formulas.len();
        self.formulas.push(formula)?;
        self.places[formula] = Some(place);
        Ok(place)
    }
}

/// What is owed among what was said of a declaration, over the nodes of its passage.
#[derive(Drop)]
struct Listed {
    nodes: Nodes,
    known: Vec<Formula>,
    obligations: Vec<Obligation>,
    ghost are_known: { AllByRecursion (IsTerm Truths nodes) known.items } by { Prim.hlevel props },
    ghost are_owed: { AllByRecursion (IsOwed known.items) obligations.items } by { Prim.hlevel props },
}

/// Lists what was said, in order: an obligation, once asked, is known as well.
fn list(
    known: &mut Known,
    obligations: &mut Vec<Obligation>,
    passage: &Passage,
) -> Result<(), AllocError>
    requires table { IsTable passage.now.nodes }
    requires long { length known.old.places.items ≡ length passage.now.nodes }
    requires none_known { known.old.formulas.items ≡ [] }
    requires none_owed { obligations.old.items ≡ [] }
    ensures are_known { OnOk result (AllByRecursion (IsTerm Truths passage.now.nodes) known.new.formulas.items) }
    ensures are_owed { OnOk result (AllByRecursion (IsOwed known.new.formulas.items) obligations.new.items) }
    ensures owed { OnOk result ((declaration : ℕ) → map (obligation_in declaration passage.now.nodes known.new.formulas.items) obligations.new.items ≡ from_said declaration [] (said_in passage.now.nodes passage.now.said.items)) }
{
    for said in &passage.said {
        match said {
            Said::Known(formula) => {
                known.add(*formula)?;
            }
            Said::Owed { pos, kind, formula } => {
                let hypothesis_count = known.formulas.len();
                let place = known.add(*formula)?;
                obligations.push(Obligation {
                    pos: *pos,
                    kind: *kind,
                    hypothesis_count,
                    goal: *formula,
                    place,
                })?;
            }
        }
    }
    Ok(())
}

/// The obligations among what was said.
fn owed(alloc: Global, passage: Passage) -> Result<Listed, AllocError>
    ensures { IfOk result (λ listed. (declaration : ℕ) → map (obligation_in declaration listed.nodes listed.known.items) listed.obligations.items ≡ from_said declaration [] (said_in passage.nodes passage.said.items)) }
{
    let mut known = Known {
        formulas: Vec::new(alloc),
        places: vec![in alloc; None; passage.nodes.len()]?,
    };
    let mut obligations = Vec::new(alloc);
    list(&mut known, &mut obligations, &passage)?;
    Ok(Listed {
        nodes: passage.nodes,
        known: known.formulas,
        obligations,
    })
}

/// The same obligations with the goals that stand at their places.
fn with_goals(
    alloc: Global,
    obligations: &[Obligation],
    known: &[Formula],
) -> Result<Vec<Obligation>, AllocError>
    requires { AllByRecursion (λ o. (o.hypothesis_count ≤ length known.now) × (o.place ≤ o.hypothesis_count) × (o.place < length known.now)) obligations.now }
    ensures owed { IfOk result (λ all. AllByRecursion (IsOwed known.now) all.items) }
    ensures same { IfOk result (λ all. all.items ≡ map (with_goal known.now) obligations.now) }
{
    let mut all = Vec::with_capacity(alloc, obligations.len())?;
    for obligation in obligations {
        all.push(Obligation {
            goal: known[obligation.place],
            ..*obligation
        })?;
    }
    Ok(all)
}

/// The same obligations over nodes that are numbered in postorder of first occurrence, and shared.
fn numbered_anew(
    alloc: Global,
    program: &Program,
    declaration: DeclId,
    listed: &Listed,
) -> Result<MethodObligations, AllocError>
    ensures owed { IfOk result (λ found. obligations_in found ≡ map (obligation_in declaration listed.now.nodes listed.now.known.items) listed.now.obligations.items) }
    ensures declaration { IfOk result (λ found. found.declaration ≡ declaration) }
{
    let Numbering {
        nodes,
        formulas,
        counts,
    } = numbered(alloc, program, &listed.nodes, &listed.known)?;
    let obligations = with_goals(alloc, &listed.obligations, &formulas)?;
    Ok(MethodObligations {
        declaration,
        nodes: Front::new(alloc, nodes)?,
        known: Formulas::new(alloc, formulas)?,
        counts,
        obligations,
    })
}

/// The obligations of a method of a program over the groups of its declarations, in the order of evaluation.
pub fn obligations_of_method(
    alloc: Global,
    program: &Program,
    groups: &[usize],
    number: DeclId,
    method: &Method,
) -> Result<MethodObligations, AllocError>
    requires { method_at (program_of program.now) number ≡ Some (method_of method.now) }
    ensures owed { IfOk result (λ found. obligations_in found ≡ of_method (program_of program.now) groups.now number (method_of method.now)) }
    ensures declaration { IfOk result (λ found. found.declaration ≡ number) }
{
    let passage = pass(alloc, program, groups, number, method)?;
    let listed = owed(alloc, passage)?;
    numbered_anew(alloc, program, number, &listed)
}

/// Adds the obligations of a declaration, if it is a method.
fn add_declaration(
    alloc: Global,
    program: &Program,
    groups: &[usize],
    number: DeclId,
    decl: &Decl,
    methods: &mut Vec<MethodObligations>,
) -> Result<(), AllocError>
    requires { slice_get (program_of program.now).decls number ≡ Some (decl_of decl.now) }
    ensures owed { OnOk result (flat_map obligations_in methods.new.items ≡ flat_map obligations_in methods.old.items ++ obligations_of_decl (program_of program.now) groups.now number (decl_of decl.now)) }
    ensures groups { OnOk result (map grouped_in methods.new.items ≡ map grouped_in methods.old.items ++ group_of_decl (program_of program.now) groups.now number (decl_of decl.now)) }
{
    match decl {
        Decl::Newtype(_) => Ok(()),
        Decl::Method(method) => {
            let found = obligations_of_method(alloc, program, groups, number, method)?;
            methods.push(found)?;
            Ok(())
        }
    }
}

/// The obligations of a program over the groups of its declarations: of its methods in the order of the source, each in
/// the order of evaluation.
pub fn obligations(
    alloc: Global,
    program: &Program,
    groups: &[usize],
) -> Result<Obligations, AllocError>
    ensures owed { IfOk result (λ os. obligations_of os ≡ all_of (program_of program.now) groups.now) }
    // One list for each method, and no other.
    ensures methods { IfOk result (λ os. methods_of os ≡ all_groups (program_of program.now) groups.now) }
{
    let mut methods = Vec::new(alloc);
    for (number, decl) in program.decls.iter().enumerate() {
        add_declaration(alloc, program, groups, number, decl, &mut methods)?;
    }
    Ok(Obligations { methods })
}
