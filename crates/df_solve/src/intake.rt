//! In which order hypotheses are taken in: from both ends of their list, wide ones last.

use std::alloc::{AllocError, Global};

/// How many of each end come first.
const FIRST: usize = 4;

/// What became of a hypothesis.
#[derive(Clone, Copy, PartialEq, Eq)]
enum State {
    Waiting,
    /// It is wide, and waits for the others.
    Wide,
    TakenIn,
}

/// The hypotheses, and which come next.
#[derive(Drop)]
pub(crate) struct Intake {
    states: Vec<State>,
    /// Those before this one were looked at,
    first: usize,
    /// and so were those from this one on.
    end: usize,
    /// How many of each end come next.
    chunk: usize,
    /// Whether the wide ones come, or the others.
    pub takes_wide: bool,
    /// Whether there are wide ones that wait.
    has_wide: bool,
}

impl Intake {
    /// No hypotheses.
    pub fn new(alloc: Global) -> Intake {
        Intake {
            states: Vec::new(alloc),
            first: 0,
            end: 0,
            chunk: FIRST,
            takes_wide: false,
            has_wide: false,
        }
    }

    /// How many hypotheses there are.
    pub fn len(&self) -> usize {
        self.states.len()
    }

    fn state(&self, number: usize) -> State {
        match self.states.get(number) {
            Some(state) => *state,
            None => State::TakenIn,
        }
    }

    fn set_state(&mut self, number: usize, state: State) {
        if let Some(slot) = self.states.get_mut(number) {
            *slot = state;
        }
    }

    /// There are so many hypotheses now, of which the first ones are those before.
    pub fn begin(&mut self, count: usize) -> Result<(), AllocError> {
        for _ in self.states.len()..count {
            self.states.push(State::Waiting)?;
        }
        self.end = count;
        self.chunk = FIRST;
        self.takes_wide = false;
        Ok(())
    }

    /// Whether some may come next.
    pub fn is_open(&self) -> bool {
        self.first < self.end
    }

    /// Whether none came yet that might be needed.
    pub fn is_at_start(&self) -> bool {
        self.chunk == FIRST && self.is_open()
    }

    /// How many of each end come now.
    pub fn next_chunk(&mut self) -> usize {
        let chunk = self.chunk;
        self.chunk = chunk.saturating_mul(4);
        chunk
    }

    /// Whether it is the turn of hypotheses of this state.
    fn is_wanted(&self, number: usize) -> bool {
        match self.state(number) {
            State::Waiting => true,
            State::Wide => self.takes_wide,
            State::TakenIn => false,
        }
    }

    /// The next one from the start of the list.
    pub fn next_first(&mut self) -> Option<usize> {
        for number in self.first..self.end {
            self.first = number.saturating_add(1);
            if self.is_wanted(number) {
                return Some(number);
            }
        }
        None
    }

    /// The next one from the end of the list.
    pub fn next_last(&mut self) -> Option<usize> {
        for number in (self.first..self.end).rev() {
            self.end = number;
            if self.is_wanted(number) {
                return Some(number);
            }
        }
        None
    }

    /// The hypothesis is taken in.
    pub fn take(&mut self, number: usize) {
        self.set_state(number, State::TakenIn);
    }

    /// The hypothesis waits for those that are not wide.
    pub fn defer(&mut self, number: usize) {
        self.set_state(number, State::Wide);
        self.has_wide = true;
    }

    /// Goes on with the wide ones, if some wait. Whether they do.
    pub fn widen(&mut self) -> bool {
        if self.takes_wide || !self.has_wide {
            return false;
        }
        self.takes_wide = true;
        self.first = 0;
        self.end = self.states.len();
        self.is_open()
    }
}
