//! Tables: the numbers of all nodes, where the free terms are what the engine has found, or where all
//! operations have the numbers that it gave them.

use crate::candidate::Candidate;
use crate::codes::{Codes, is_code};
use crate::grounding::term_at;
use df_axiom::Written;
use df_clause::Ground;
use df_form::{Lit, NodeTable, Op, Over, Pair, Sequent, Sort, Symbol, World};
use df_model::{Tabulation, Valuation, tabulate, valuation};
use df_rules::Known;
use df_table::Table;
use df_theory::Column;
use df_trig::{TrigFault, instances};
use std::alloc::{AllocError, Global};

/// The code of what is made of no code.
const OTHER: i128 = 68;

/// What the engine has found, as a table.
#[derive(Drop)]
pub enum Tabled {
    Table(Table),
    /// Two numbers are to be equal, or not, since operations on them have other numbers.
    Apart(Pair),
    Nothing,
}

/// Whether the hypotheses are true and the goal is false.
fn is_counterexample(sequent: &Sequent, table: &Table) -> bool {
    for hypothesis in sequent.hypotheses.as_slice().iter() {
        if !table.is_true(*hypothesis) {
            return false;
        }
    }
    !table.is_true(sequent.goal)
}

/// The ground set with so many rounds of instances, if these are not too many.
fn ground_of<'a>(
    alloc: Global,
    sequent: &'a Sequent<'a>,
    rounds: u32,
) -> Result<Option<Ground<'a>>, AllocError> {
    match instances(alloc, sequent, &Written {}, rounds) {
        Ok(ground) => Ok(Some(ground)),
        Err(TrigFault::Many(_)) => Ok(None),
        Err(TrigFault::Memory) => Err(AllocError),
    }
}

/// The table of these free terms, where all operations are what their parts make them, if it is a counterexample. It
/// is of the nodes of instances, too, unless these are too many.
pub(crate) fn counterexample_of(
    alloc: Global,
    sequent: &Sequent,
    rounds: u32,
    numbers: &[i128],
    known: &Known,
) -> Result<Option<Table>, AllocError> {
    let nodes = sequent.nodes.over(alloc);
    match valued_table(alloc, sequent.world, &nodes, numbers, known)? {
        Some(own) => {
            if is_counterexample(sequent, &own) {
                with_instances(alloc, sequent, rounds, numbers, known, own)
            } else {
                Ok(None)
            }
        }
        None => Ok(None),
    }
}

/// Whether these free terms are a counterexample, where all operations are what their parts make them.
fn is_counterexample_of(
    alloc: Global,
    sequent: &Sequent,
    numbers: &[i128],
    known: &Known,
) -> Result<bool, AllocError> {
    let nodes = sequent.nodes.over(alloc);
    match valued_table(alloc, sequent.world, &nodes, numbers, known)? {
        Some(own) => Ok(is_counterexample(sequent, &own)),
        None => Ok(false),
    }
}

/// The table of the nodes of instances, unless these are too many; then the one of the sequent's own nodes.
fn with_instances(
    alloc: Global,
    sequent: &Sequent,
    rounds: u32,
    numbers: &[i128],
    known: &Known,
    own: Table,
) -> Result<Option<Table>, AllocError> {
    match ground_of(alloc, sequent, rounds) {
        Ok(Some(ground)) => valued_table(alloc, sequent.world, &ground.nodes, numbers, known),
        Ok(None) => Ok(Some(own)),
        Err(error) => Err(error),
    }
}

/// The table of nodes by these free terms, if its numbers are not too wide.
fn valued_table(
    alloc: Global,
    world: World,
    nodes: &Over,
    numbers: &[i128],
    known: &Known,
) -> Result<Option<Table>, AllocError> {
    match valuation(alloc, world, nodes, numbers, known)? {
        Valuation::Table(table) => Ok(Some(table)),
        Valuation::Wide => Ok(None),
    }
}

impl<'a> Candidate<'a> {
    /// The label of a term's class.
    pub(crate) fn label(&self, node: usize) -> usize {
        self.graph.labels().get(node).copied().unwrap_or(node)
    }

    /// The codes of characters by what operations on them are. What is made of no code is `D`, whatever the engine
    /// has as its code.
    fn codes(&self) -> Result<Codes, AllocError> {
        let mut codes = Codes::new(self.alloc);
        for &node in self.operations.iter() {
            let part = self.terms.part(node, 0).unwrap_or(0);
            match self.terms.op(node) {
                Some(Op::Of(Symbol::Code, _)) => {
                    if let Some(code) = self.theory.value(node) {
                        codes.offer(self.label(part), code)?;
                    }
                }
                Some(Op::Of(Symbol::Chr, _)) => {
                    if let Some(number) = self.theory.value(part) {
                        let code = if is_code(number) { number } else { OTHER };
                        codes.set(self.label(node), code)?;
                    }
                }
                _ => {}
            }
        }
        Ok(codes)
    }

    /// The numbers of nodes that are columns; 0 for other nodes.
    fn numbers(&self, nodes: usize) -> Result<Vec<i128>, AllocError> {
        let mut numbers = vec![in self.alloc; 0i128; nodes]?;
        for column in 0..self.theory.forms.len() {
            if let Some(Column::Node(node)) = self.theory.forms.column(column) {
                let number = self.theory.column_value(column).unwrap_or(0);
                if let Some(slot) = numbers.get_mut(node) {
                    *slot = number;
                }
            }
        }
        Ok(numbers)
    }

    fn is_free_character(&self, node: usize) -> bool {
        match self.terms.op(node) {
            Some(Op::Free(free)) => free.sort == Sort::Character,
            _ => false,
        }
    }

    /// Gives free characters their codes.
    fn give_codes(&self, numbers: &mut Vec<i128>) -> Result<(), AllocError> {
        let mut codes = self.codes()?;
        for node in 0..numbers.len() {
            if self.is_free_character(node) {
                let code = codes.code(self.label(node))?;
                if let Some(slot) = numbers.get_mut(node) {
                    *slot = code;
                }
            }
        }
        Ok(())
    }

    /// The same, with the codes of free characters.
    fn numbers_and_codes(&self, nodes: usize) -> Result<Vec<i128>, AllocError> {
        let mut numbers = self.numbers(nodes)?;
        if self.terms.has_operations {
            self.give_codes(&mut numbers)?;
        }
        Ok(numbers)
    }

    /// The formulas that have a value.
    fn valued(&self) -> Result<Vec<Lit>, AllocError> {
        let mut facts = Vec::new(self.alloc);
        for variable in 0..self.variables.len() {
            if let (Some(node), Some(assignment)) = (
                self.variables.node(variable),
                self.trail.assignment(variable),
            ) {
                facts.push(Lit {
                    positive: assignment.positive,
                    node,
                })?;
            }
        }
        Ok(facts)
    }

    /// The formulas that have a value, to be asked for.
    fn known(&self) -> Result<Known, AllocError> {
        let mut known = Known::new(self.alloc);
        let facts = self.valued()?;
        for fact in facts.iter() {
            known.insert(*fact)?;
        }
        Ok(known)
    }

    /// The table of the engine's free terms, if it is a counterexample.
    pub fn counterexample(&self, sequent: &Sequent) -> Result<Option<Table>, AllocError> {
        let numbers = self.numbers_and_codes(sequent.nodes.len())?;
        match self.known() {
            Ok(known) => counterexample_of(self.alloc, sequent, self.rounds, &numbers, &known),
            Err(error) => Err(error),
        }
    }

    /// Whether the engine's free terms are a counterexample, where all operations are what their parts make them.
    pub fn is_counterexample(&self, sequent: &Sequent) -> Result<bool, AllocError> {
        let numbers = self.numbers_and_codes(sequent.nodes.len())?;
        match self.known() {
            Ok(known) => is_counterexample_of(self.alloc, sequent, &numbers, &known),
            Err(error) => Err(error),
        }
    }

    /// The formulas of the sequent that have a value.
    fn valued_in(&self, own: usize) -> Result<Vec<Lit>, AllocError> {
        let mut facts = Vec::new(self.alloc);
        let all = self.valued()?;
        for fact in all.iter() {
            if fact.node < own {
                facts.push(*fact)?;
            }
        }
        Ok(facts)
    }

    /// What the numbers that the engine gave operations come to for these nodes, of which so many first ones are the
    /// sequent's, and which are like these terms.
    fn tabulated(
        &self,
        nodes: &Over,
        terms: &[Option<usize>],
        own: usize,
    ) -> Result<Tabulation, AllocError> {
        let facts = self.valued_in(own)?;
        match self.grounded(nodes, terms) {
            Ok(grounding) => tabulate(
                self.alloc,
                nodes,
                &grounding.numbers,
                &grounding.labels,
                &facts,
            ),
            Err(error) => Err(error),
        }
    }

    /// The table of these nodes, of which the sequent's are the first, where operations have the numbers
    /// that the engine gave them.
    fn table_of(&self, sequent: &Sequent, nodes: &Over) -> Result<Tabled, AllocError> {
        let own = sequent.nodes.len();
        let terms = self.terms_like(nodes, own)?;
        match self.tabulated(nodes, &terms, own)? {
            Tabulation::Table(table) if is_counterexample(sequent, &table) => {
                Ok(Tabled::Table(table))
            }
            Tabulation::Table(_) | Tabulation::Wide => Ok(Tabled::Nothing),
            Tabulation::Apart { left, right } => {
                match (term_at(&terms, left), term_at(&terms, right)) {
                    (Some(left), Some(right)) => Ok(Tabled::Apart(Pair { left, right })),
                    (None, _) | (Some(_), None) => Ok(Tabled::Nothing),
                }
            }
        }
    }

    /// The table where operations have the numbers that the engine gave them, and the nodes of instances
    /// those that their parts give: first of the sequent's own nodes.
    pub fn tabled(&self, sequent: &Sequent) -> Result<Tabled, AllocError> {
        let nodes = sequent.nodes.over(self.alloc);
        match self.table_of(sequent, &nodes)? {
            Tabled::Table(_) => self.tabled_in_ground(sequent),
            Tabled::Apart(pair) => Ok(Tabled::Apart(pair)),
            Tabled::Nothing => Ok(Tabled::Nothing),
        }
    }

    /// The same, of all nodes of the ground set.
    fn tabled_in_ground(&self, sequent: &Sequent) -> Result<Tabled, AllocError> {
        match ground_of(self.alloc, sequent, self.rounds)? {
            Some(ground) => self.table_of(sequent, &ground.nodes),
            None => Ok(Tabled::Nothing),
        }
    }
}
