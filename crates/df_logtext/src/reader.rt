//! Logs that are read line by line.

ghost use Rattle.std.specs.Prelude.{◌≡◌, ◌+◌, ◌++◌, ◌∷◌, [], IfOk, OnOk};
ghost use Rattle.std.specs.Option.{option_map};
ghost use Rattle.df_form.specs.Log.{step_of};
ghost use Rattle.df_logtext.specs.Reading.{is_part_line, begin, with_step, after_first, after_between, after_within, after_line, Takes};
ghost use Rattle.df_logtext.specs.ReaderView.{state_of};
ghost use Rattle.df_logtext.specs.View.{names_of};

use crate::line::step;
use df_form::Step;
use itoa::Buffer;
use std::alloc::{AllocError, Global};
use std::mem::replace;

/// Where in a text the lines so far end.
#[derive(Clone, Copy, PartialEq, Eq)]
pub enum Stage {
    /// At its beginning.
    Before,
    /// Where a log may begin.
    Between,
    /// In a log.
    Within,
    /// Past the last line.
    After,
}

/// What the lines so far hold.
#[derive(Drop)]
pub struct Reader {
    pub stage: Stage,
    /// The logs that have ended.
    pub logs: Vec<Vec<Step>>,
    /// The steps of the log that has not.
    pub steps: Vec<Step>,
}

/// Whether the line begins the log of this number.
fn is_part_line(line: &[u8], number: u64) -> bool
    ensures { result ≡ is_part_line number line.now }
{
    if !line.starts_with(b"o ") {
        return false;
    }
    let mut buffer = Buffer::new();
    &line[2..] == buffer.format(number).as_bytes()
}

impl Reader {
    /// No lines.
    pub fn new(alloc: Global) -> Reader
        ensures { state_of result ≡ begin }
    {
        Reader {
            stage: Stage::Before,
            logs: Vec::new(alloc),
            steps: Vec::new(alloc),
        }
    }

    fn take_first(&mut self, line: &[u8]) -> bool
        ensures { Takes (after_first (state_of self.old) line.now) (state_of self.new) result }
    {
        if line != b"dfylog 1".as_slice() {
            return false;
        }
        self.stage = Stage::Between;
        true
    }

    fn take_between(&mut self, alloc: Global, line: &[u8]) -> bool
        ensures { Takes (after_between (state_of self.old) line.now) (state_of self.new) result }
    {
        if line == b"end".as_slice() {
            self.stage = Stage::After;
            return true;
        }
        if !is_part_line(line, self.logs.len() as u64 + 1) {
            return false;
        }
        self.stage = Stage::Within;
        self.steps = Vec::new(alloc);
        true
    }

    /// Ends the log.
    fn end_log(&mut self, alloc: Global) -> Result<(), AllocError>
        ensures { OnOk result (state_of self.new ≡ record { stage = Stage.Between; logs = (state_of self.old).logs ++ (state_of self.old).steps ∷ []; steps = [] }) }
    {
        let steps = replace(&mut self.steps, Vec::new(alloc));
        self.logs.push(steps)?;
        self.stage = Stage::Between;
        Ok(())
    }

    fn add_step(&mut self, step: Option<Step>) -> Result<bool, AllocError>
        ensures { IfOk result (λ taken. Takes (option_map (λ step. with_step (state_of self.old) (step_of step)) step) (state_of self.new) taken) }
    {
        let Some(step) = step else {
            return Ok(false);
        };
        self.steps.push(step)?;
        Ok(true)
    }

    fn take_within(
        &mut self,
        alloc: Global,
        names: &[String],
        line: &[u8],
    ) -> Result<bool, AllocError>
        ensures { IfOk result (λ taken. Takes (after_within (names_of names.now) (state_of self.old) line.now) (state_of self.new) taken) }
    {
        if line == b".".as_slice() {
            self.end_log(alloc)?;
            return Ok(true);
        }
        let step = step(alloc, names, line)?;
        self.add_step(step)
    }

    /// Takes a line more, if it may stand there.
    pub fn take(&mut self, alloc: Global, names: &[String], line: &[u8]) -> Result<bool, AllocError>
        ensures { IfOk result (λ taken. Takes (after_line (names_of names.now) (state_of self.old) line.now) (state_of self.new) taken) }
    {
        match self.stage {
            Stage::Before => Ok(self.take_first(line)),
            Stage::Between => Ok(self.take_between(alloc, line)),
            Stage::Within => self.take_within(alloc, names, line),
            Stage::After => Ok(false),
        }
    }
}
