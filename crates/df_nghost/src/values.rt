//! Which locals have a value, and how many results have none.

ghost use Rattle.std.specs.Prelude.{◌≡◌, ◌==◌, ◌<◌, ℕ, true, false, set, nat_lt, length, if◌then◌else◌, IfOk, OnOk};
ghost use Rattle.df_nghost.specs.mirror.Listed.{holds, cleared, is_counted, without};

use df_base::{Global, Memory};

/// Which locals have a value, by their numbers, and how many results have none.
#[derive(Drop)]
pub(crate) struct Values {
    /// A local that is not listed has no value.
    pub(crate) listed: Vec<bool>,
    /// How many parameters there are. The results are numbered behind them.
    parameters: usize,
    /// How many results there are.
    results: usize,
    /// How many results have no value.
    missing: usize,
    ghost counted: { missing ≡ without (holds listed.items) parameters results },
}

/// Lists the local, and those before it that are not listed.
fn list(listed: &mut Vec<bool>, local: usize) -> Result<(), Memory>
    ensures listed { OnOk result (local < length listed.new.items) }
    ensures same { (k : ℕ) → holds listed.new.items k ≡ holds listed.old.items k }
{
    while listed.len() <= local {
        listed.push(false)?;
    }
    Ok(())
}

impl Values {
    /// The parameters have a value, and the results have none.
    pub(crate) fn at_entry(
        alloc: Global,
        parameters: usize,
        results: usize,
    ) -> Result<Values, Memory>
        ensures { IfOk result (λ values. (k : ℕ) → holds values.listed.items k ≡ nat_lt k parameters) }
    {
        Ok(Values {
            listed: vec![in alloc; true; parameters]?,
            parameters,
            results,
            missing: results,
        })
    }

    /// Whether the local has a value.
    pub(crate) fn holds(&self, local: usize) -> bool
        ensures { result ≡ holds self.now.listed.items local }
    {
        local < self.listed.len() && self.listed[local]
    }

    /// Whether the local is a result.
    fn is_result(&self, local: usize) -> bool
        ensures { result ≡ is_counted self.now.parameters self.now.results local }
    {
        self.parameters <= local && local - self.parameters < self.results
    }

    /// Whether the results are so many, behind so many parameters, and each has a value.
    pub(crate) fn has_results(&self, parameters: usize, results: usize) -> bool
        ensures { result ≡ true → without (holds self.now.listed.items) parameters results ≡ 0 }
    {
        self.missing == 0 && self.parameters == parameters && self.results == results
    }

    /// The local, which has no value, takes one.
    pub(crate) fn put(&mut self, local: usize) -> Result<(), Memory>
        requires { holds self.old.listed.items local ≡ false }
        ensures { OnOk result ((k : ℕ) → holds self.new.listed.items k ≡ (if k == local then true else holds self.old.listed.items k)) }
    {
        let is_result = self.is_result(local);
        list(&mut self.listed, local)?;
        self.listed[local] = true;
        if is_result {
            self.missing -= 1;
        }
        Ok(())
    }

    /// The local has no value.
    fn unset(&mut self, local: usize)
        ensures { self.new.listed.items ≡ set self.old.listed.items local false }
    {
        if self.holds(local) {
            let is_result = self.is_result(local);
            self.listed[local] = false;
            if is_result {
                self.missing += 1;
            }
        }
    }

    /// The locals have no value.
    pub(crate) fn clear(&mut self, locals: &[usize])
        ensures { self.new.listed.items ≡ cleared self.old.listed.items locals.now }
    {
        for local in locals {
            self.unset(*local);
        }
    }
}
