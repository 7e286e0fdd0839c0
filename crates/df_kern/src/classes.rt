//! Classes of equal numbers.

ghost use Rattle.df_kern.specs.Links.{AreFalling};

use df_form::Pair;
use std::alloc::{AllocError, Global};
use std::collections::BTreeMap;

/// Classes of numbers, each of which goes by its least.
#[derive(Drop)]
pub(crate) struct Classes {
    /// A lesser number of its class, for each that isn't the least.
    links: BTreeMap<usize, usize>,
    ghost falling: { AreFalling links.entries },
}

impl Classes {
    ghost use Rattle.std.specs.Prelude.{◌≡◌, ◌<◌, ◌==◌, IfOk, IfSome, OnOk, if◌then◌else◌};
    ghost use Rattle.std.specs.Option.{option_map_or};
    ghost use Rattle.df_rules.specs.Classes.{alone, joined, joined_all, is_together};
    ghost use Rattle.df_kern.specs.ClassesView.{class_of};

    /// Each number is alone.
    pub(crate) fn new(alloc: Global) -> Classes
        ensures { class_of result ≡ alone }
    {
        Classes {
            links: BTreeMap::new(alloc),
        }
    }

    /// A lesser number of its class; none of the least.
    fn lesser(&self, number: usize) -> Option<usize>
        ensures class { class_of self.now number ≡ option_map_or (class_of self.now) result number }
        ensures falls { IfSome result (λ lesser. lesser < number) }
    {
        self.links.get(&number).copied()
    }

    /// Links a number to a lesser one of its class.
    fn relink(&mut self, number: usize, lesser: usize) -> Result<(), AllocError>
        requires falls { lesser < number }
        requires class { class_of self.old number ≡ class_of self.old lesser }
        ensures { OnOk result (class_of self.new ≡ class_of self.old) }
    {
        self.links.insert(number, lesser)?;
        Ok(())
    }

    /// A lesser number of the class where a number's link leads to another. The number is then linked to
    /// where that one leads, so that the next way is shorter.
    fn shorten(&mut self, number: usize, lesser: usize) -> Result<usize, AllocError>
        requires falls { lesser < number }
        requires class { class_of self.old number ≡ class_of self.old lesser }
        ensures falls { IfOk result (λ next. next < number) }
        ensures class { IfOk result (λ next. class_of self.old next ≡ class_of self.old number) }
        ensures same { OnOk result (class_of self.new ≡ class_of self.old) }
    {
        match self.lesser(lesser) {
            Some(next) => {
                self.relink(number, next)?;
                Ok(next)
            }
            None => Ok(lesser),
        }
    }

    /// The least number of its class.
    pub(crate) fn least(&mut self, number: usize) -> Result<usize, AllocError>
        ensures least { IfOk result (λ least. least ≡ class_of self.old number) }
        ensures own { IfOk result (λ least. class_of self.old least ≡ least) }
        ensures same { OnOk result (class_of self.new ≡ class_of self.old) }
    {
        let mut at = number;
        while let Some(lesser) = self.lesser(at) {
            at = self.shorten(at, lesser)?;
        }
        Ok(at)
    }

    /// Whether two numbers are in one class.
    pub(crate) fn are_together(&mut self, a: usize, b: usize) -> Result<bool, AllocError>
        ensures together { IfOk result (λ yes. yes ≡ is_together (class_of self.old) a b) }
        ensures same { OnOk result (class_of self.new ≡ class_of self.old) }
    {
        let first = self.least(a)?;
        let second = self.least(b)?;
        Ok(first == second)
    }

    /// Links the least number of a class to that of another, which is lesser.
    fn link(&mut self, high: usize, low: usize) -> Result<(), AllocError>
        requires falls { low < high }
        requires high { class_of self.old high ≡ high }
        requires low { class_of self.old low ≡ low }
        ensures { OnOk result (class_of self.new ≡ (λ n. if class_of self.old n == high then low else class_of self.old n)) }
    {
        self.links.insert(high, low)?;
        Ok(())
    }

    /// Makes the classes of two numbers one.
    pub(crate) fn join(&mut self, pair: Pair) -> Result<(), AllocError>
        ensures { OnOk result (class_of self.new ≡ joined (class_of self.old) pair) }
    {
        let left = self.least(pair.left)?;
        let right = self.least(pair.right)?;
        if left < right {
            return self.link(right, left);
        }
        if right < left {
            return self.link(left, right);
        }
        Ok(())
    }

    /// And so for pairs in their order.
    pub(crate) fn join_all(&mut self, pairs: &[Pair]) -> Result<(), AllocError>
        ensures { OnOk result (class_of self.new ≡ joined_all (class_of self.old) pairs.now) }
    {
        for pair in pairs {
            self.join(*pair)?;
        }
        Ok(())
    }
}
