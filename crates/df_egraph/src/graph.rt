//! The terms and their classes, level by level.

use crate::classes::{Classes, Union};
use crate::forest::{Cause, Forest, Merge};
use crate::signatures::{Application, Entry, Signatures};
use df_clauses::Literal;
use df_form::Op;
use std::alloc::{AllocError, Global};
use std::collections::VecDeque;

/// What follows of classes.
#[derive(Clone, Copy)]
pub enum Event {
    /// Two different numbers are in one class.
    Clash { left: usize, right: usize },
    /// The sides of an equality are in one class.
    Equal(usize),
    /// Two applications are equal, since their parts are.
    Congruent { left: usize, right: usize },
}

/// What came at a decision level.
#[derive(Clone, Copy)]
pub(crate) struct Given<T> {
    pub level: usize,
    pub item: T,
}

/// One change.
#[derive(Clone, Copy)]
pub(crate) enum Change {
    United(Union),
    Entered(Entry),
    /// A term was looked up for the first time.
    Met(usize),
}

/// Terms in classes, which grow by levels and shrink with them.
#[derive(Drop)]
pub struct Graph {
    pub(crate) alloc: Global,
    /// By term, whether it was added.
    is_known: Vec<bool>,
    pub(crate) applications: Vec<Option<Application>>,
    /// By term, the applications that have it as a part.
    pub(crate) users: Vec<Vec<usize>>,
    pub(crate) classes: Classes,
    pub(crate) forest: Forest,
    pub(crate) signatures: Signatures,
    /// Merges to come.
    pub(crate) pending: VecDeque<Given<Merge>>,
    /// Terms that are to be looked up.
    pub(crate) waiting: Vec<usize>,
    pub(crate) events: VecDeque<Given<Event>>,
    pub(crate) trail: Vec<Change>,
    /// How many changes there were where each decision level began.
    starts: Vec<usize>,
    /// How much work was done since it was asked for.
    pub(crate) work: usize,
}

impl Graph {
    pub fn new(alloc: Global) -> Graph {
        Graph {
            alloc,
            is_known: Vec::new(alloc),
            applications: Vec::new(alloc),
            users: Vec::new(alloc),
            classes: Classes::new(alloc),
            forest: Forest::new(alloc),
            signatures: Signatures::new(alloc),
            pending: VecDeque::new(alloc),
            waiting: Vec::new(alloc),
            events: VecDeque::new(alloc),
            trail: Vec::new(alloc),
            starts: Vec::new(alloc),
            work: 0,
        }
    }

    /// Whether the term was added.
    pub fn knows(&self, term: usize) -> bool {
        match self.is_known.get(term) {
            Some(is_known) => *is_known,
            None => false,
        }
    }

    /// The work since the last call.
    pub fn take_work(&mut self) -> usize {
        let work = self.work;
        self.work = 0;
        work
    }

    /// Has room for a term, and for all before it.
    fn reach(&mut self, term: usize) -> Result<(), AllocError> {
        for _ in self.is_known.len()..term.saturating_add(1) {
            self.is_known.push(false)?;
            self.applications.push(None)?;
            self.users.push(Vec::new(self.alloc))?;
            self.classes.add()?;
            self.forest.add()?;
        }
        Ok(())
    }

    /// The literal of a number is a term.
    pub fn add_number(&mut self, term: usize) -> Result<(), AllocError> {
        self.add_other(term)?;
        self.classes.name(term);
        Ok(())
    }

    /// What is no application is a term.
    pub fn add_other(&mut self, term: usize) -> Result<(), AllocError> {
        self.reach(term)?;
        if let Some(is_known) = self.is_known.get_mut(term) {
            *is_known = true;
        }
        Ok(())
    }

    /// An application is a term, after its parts.
    pub fn add(&mut self, term: usize, application: Application) -> Result<(), AllocError> {
        self.add_other(term)?;
        self.use_part(application.left, term)?;
        if let Some(right) = application.right {
            if right != application.left {
                self.use_part(right, term)?;
            }
        }
        if let Some(slot) = self.applications.get_mut(term) {
            *slot = Some(application);
        }
        self.waiting.push(term)?;
        Ok(())
    }

    fn use_part(&mut self, part: usize, term: usize) -> Result<(), AllocError> {
        self.reach(part)?;
        if let Some(users) = self.users.get_mut(part) {
            users.push(term)?;
        }
        Ok(())
    }

    /// The literal makes two terms equal.
    pub fn assert_equal(
        &mut self,
        literal: Literal,
        left: usize,
        right: usize,
    ) -> Result<(), AllocError> {
        self.defer(Merge {
            left,
            right,
            cause: Cause::Literal(literal),
        })
    }

    pub fn are_equal(&self, left: usize, right: usize) -> bool {
        self.classes.label(left) == self.classes.label(right)
    }

    /// The next term of a class, after which all others come before this one.
    pub fn next(&self, term: usize) -> usize {
        self.classes.next(term)
    }

    /// The labels of terms, the same for those that are equal.
    pub fn labels(&self) -> &[usize] {
        self.classes.labels()
    }

    /// Whether there is something to do.
    pub fn is_quiet(&self) -> bool {
        self.pending.is_empty() && self.waiting.is_empty() && self.events.is_empty()
    }

    /// What follows next.
    pub fn next_event(&mut self) -> Option<Event> {
        let given = self.events.pop_front()?;
        Some(given.item)
    }

    /// A decision level begins.
    pub fn open(&mut self) -> Result<(), AllocError> {
        self.starts.push(self.trail.len())?;
        Ok(())
    }

    /// Takes the changes of the levels after this one back.
    pub fn cancel(&mut self, level: usize) -> Result<(), AllocError> {
        let Some(start) = self.starts.get(level).copied() else {
            return Ok(());
        };
        self.starts.truncate(level);
        self.keep_pending(level)?;
        self.keep_events(level)?;
        for _ in start..self.trail.len() {
            self.retract()?;
        }
        Ok(())
    }

    /// Only the merges to come of this level and those before it stay.
    fn keep_pending(&mut self, level: usize) -> Result<(), AllocError> {
        for _ in 0..self.pending.len() {
            if let Some(pending) = self.pending.pop_front() {
                if pending.level <= level {
                    self.pending.push_back(pending)?;
                }
            }
        }
        Ok(())
    }

    /// Only what follows at this level and those before it stays.
    fn keep_events(&mut self, level: usize) -> Result<(), AllocError> {
        for _ in 0..self.events.len() {
            if let Some(given) = self.events.pop_front() {
                if given.level <= level {
                    self.events.push_back(given)?;
                }
            }
        }
        Ok(())
    }

    /// The merge comes later.
    pub(crate) fn defer(&mut self, merge: Merge) -> Result<(), AllocError> {
        self.pending.push_back(Given {
            level: self.starts.len(),
            item: merge,
        })?;
        Ok(())
    }

    /// The event follows.
    pub(crate) fn report(&mut self, event: Event) -> Result<(), AllocError> {
        self.events.push_back(Given {
            level: self.starts.len(),
            item: event,
        })?;
        Ok(())
    }

    /// Takes the last change back.
    fn retract(&mut self) -> Result<(), AllocError> {
        self.work = self.work.saturating_add(1);
        match self.trail.pop() {
            Some(Change::United(union)) => {
                self.classes.divide(union);
                self.forest.part();
            }
            Some(Change::Entered(entry)) => self.signatures.restore(entry)?,
            Some(Change::Met(term)) => self.waiting.push(term)?,
            None => {}
        }
        Ok(())
    }

    /// The signature of a term, where it is an application that may be congruent to others.
    pub(crate) fn signature(&self, term: usize) -> Option<Application> {
        let application = self.application(term)?;
        Some(Application {
            op: application.op,
            left: self.classes.label(application.left),
            right: match application.right {
                Some(right) => Some(self.classes.label(right)),
                None => None,
            },
        })
    }

    pub(crate) fn application(&self, term: usize) -> Option<Application> {
        match self.applications.get(term) {
            Some(application) => *application,
            None => None,
        }
    }

    /// Whether a term is an equality whose sides are in one class.
    pub(crate) fn is_true_equality(&self, term: usize) -> bool {
        match self.signature(term) {
            Some(signature) => {
                signature.op == Op::Equal && signature.right == Some(signature.left)
            }
            None => false,
        }
    }
}
