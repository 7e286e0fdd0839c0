//! The proof forest: why terms are in one class. Each class is a tree, and each of its edges a merge.

use df_clauses::Literal;
use std::alloc::{AllocError, Global};

/// Why two terms are equal.
#[derive(Clone, Copy)]
pub(crate) enum Cause {
    /// The equality is true.
    Literal(Literal),
    /// They are of one operation, on equal parts.
    Congruence,
}

/// Two terms that became equal.
#[derive(Clone, Copy)]
pub(crate) struct Merge {
    pub left: usize,
    pub right: usize,
    pub cause: Cause,
}

/// The edge of a term to its parent.
#[derive(Clone, Copy)]
struct Edge {
    parent: usize,
    merge: usize,
}

/// The merges in order, and the edges of terms.
#[derive(Drop)]
pub(crate) struct Forest {
    alloc: Global,
    merges: Vec<Merge>,
    edges: Vec<Option<Edge>>,
}

impl Forest {
    pub fn new(alloc: Global) -> Forest {
        Forest {
            alloc,
            merges: Vec::new(alloc),
            edges: Vec::new(alloc),
        }
    }

    /// One more term, alone in its tree.
    pub fn add(&mut self) -> Result<(), AllocError> {
        self.edges.push(None)?;
        Ok(())
    }

    pub fn merge(&self, number: usize) -> Option<Merge> {
        self.merges.get(number).copied()
    }

    fn edge(&self, term: usize) -> Option<Edge> {
        match self.edges.get(term) {
            Some(edge) => *edge,
            None => None,
        }
    }

    fn set_edge(&mut self, term: usize, edge: Option<Edge>) {
        if let Some(slot) = self.edges.get_mut(term) {
            *slot = edge;
        }
    }

    /// Makes a term the root of its tree.
    fn reroot(&mut self, term: usize) {
        let mut child = term;
        let mut edge = None;
        for _ in 0..self.edges.len() {
            let old = self.edge(child);
            self.set_edge(child, edge);
            let Some(old) = old else {
                break;
            };
            edge = Some(Edge {
                parent: child,
                merge: old.merge,
            });
            child = old.parent;
        }
    }

    /// The tree of a merge's left term goes under its right one.
    pub fn join(&mut self, merge: Merge) -> Result<(), AllocError> {
        let number = self.merges.len();
        self.merges.push(merge)?;
        self.reroot(merge.left);
        self.set_edge(
            merge.left,
            Some(Edge {
                parent: merge.right,
                merge: number,
            }),
        );
        Ok(())
    }

    /// Takes the last merge back.
    pub fn part(&mut self) {
        let Some(merge) = self.merges.pop() else {
            return;
        };
        let number = self.merges.len();
        for term in [merge.left, merge.right] {
            if let Some(edge) = self.edge(term) {
                if edge.merge == number {
                    self.set_edge(term, None);
                }
            }
        }
    }

    /// How many edges lead from a term to its root.
    fn depth(&self, term: usize) -> usize {
        let mut depth = 0usize;
        let mut place = term;
        for _ in 0..self.edges.len() {
            let Some(edge) = self.edge(place) else {
                break;
            };
            place = edge.parent;
            depth = depth.saturating_add(1);
        }
        depth
    }

    /// The merges on the way between two terms of one tree.
    pub fn path(&self, left: usize, right: usize) -> Result<Vec<usize>, AllocError> {
        let mut path = Vec::new(self.alloc);
        let mut one = left;
        let mut other = right;
        let mut height = self.depth(left);
        let mut other_height = self.depth(right);
        for _ in 0..height.saturating_add(other_height) {
            if one == other {
                break;
            }
            if height < other_height {
                other = self.climb(other, &mut path)?;
                other_height = other_height.saturating_sub(1);
            } else {
                one = self.climb(one, &mut path)?;
                height = height.saturating_sub(1);
            }
        }
        Ok(path)
    }

    /// The parent of a term, by one more merge of a path.
    fn climb(&self, term: usize, path: &mut Vec<usize>) -> Result<usize, AllocError> {
        match self.edge(term) {
            Some(edge) => {
                path.push(edge.merge)?;
                Ok(edge.parent)
            }
            None => Ok(term),
        }
    }
}
