//! Cells.

ghost use Rattle.std.specs.Prelude.{◌≡◌, ◌≢◌, ◌≤◌, ◌<◌, ◌^◌, ◌+◌, take, drop, [], ◌∷◌, ◌++◌, map, length, true, false, slice_get, slice_set, vec_len, vec_capacity, OnOk, OnErr, IfOk, IfSome, is_ok, if◌then◌else◌, Err};
ghost use Rattle.df_vm_store.specs.Meaning.{are_founded, are_within, is_within, Grows};
ghost use Rattle.df_mach2.specs.Row.{row, found, taken};
ghost use Rattle.df_vm_store.specs.Makes.{makes};
ghost use Rattle.df_vm_store.specs.Answers.{Answers};

use crate::equal::{Pair, are_same};
use crate::halt::Halt;
use crate::numbers::{
    bound, character, difference, fitting, negation, place, product, quotient, remainder, sum,
};
use crate::word::Word;
use df_mach2::{Op, Range};
use std::alloc::{AllocError, Global};

/// Cells, each a word over those before it.
#[derive(Drop)]
pub struct Store {
    cells: Vec<Word>,
    /// Room for what is left to be compared of two values.
    pending: Vec<Pair>,
    ghost founded: { are_founded 0 cells.items ≡ true },
    ghost room: { vec_len cells ≤ vec_capacity pending },
}

fn one(words: &[Word]) -> Word
    requires { length words.now ≡ 1 }
    ensures { words.now ≡ result ∷ [] }
{
    words[0]
}

fn two(words: &[Word]) -> (Word, Word)
    requires { length words.now ≡ 2 }
    ensures { words.now ≡ result.0 ∷ result.1 ∷ [] }
{
    (words[0], words[1])
}

fn three(words: &[Word]) -> (Word, Word, Word)
    requires { length words.now ≡ 3 }
    ensures { words.now ≡ result.0 ∷ result.1 ∷ result.2 ∷ [] }
{
    (words[0], words[1], words[2])
}

/// Makes room for the pairs that comparing takes with so many more cells than this. It fails for want of memory.
fn prepare(pending: &mut Vec<Pair>, size: usize, count: usize) -> Result<(), AllocError>
    ensures room { OnOk result (size + count ≤ vec_capacity pending.new) }
    ensures kept { vec_capacity pending.old ≤ vec_capacity pending.new }
{
    let Some(size) = size.checked_add(count) else {
        return Err(AllocError);
    };
    pending.clear();
    pending.reserve(size)
}

impl Store {
    ghost use Rattle.df_vm_store.specs.View.{cells_of, size_of, values_in, value_at, Stands};

    pub fn new(alloc: Global) -> Store
        ensures { cells_of result ≡ [] }
    {
        Store {
            cells: Vec::new(alloc),
            pending: Vec::new(alloc),
        }
    }

    pub fn allocator(&self) -> Global {
        *self.cells.allocator()
    }

    /// The word of a cell, which speaks of cells before it.
    pub fn cell(&self, place: usize) -> Option<Word>
        ensures word { result ≡ slice_get (cells_of self.now) place }
        ensures within { IfSome result (λ word. is_within (size_of self.now) word ≡ true) }
        ensures place { IfSome result (λ _. place < 2 ^ 63) }
    {
        if place < self.cells.len() {
            Some(self.cells[place])
        } else {
            None
        }
    }

    /// How many cells there are.
    pub fn size(&self) -> usize
        ensures { result ≡ size_of self.now }
    {
        self.cells.len()
    }

    /// Puts a word behind the cells. It fails for want of memory, and then changes nothing.
    pub(crate) fn put(&mut self, word: Word) -> Result<(), AllocError>
        requires { is_within (size_of self.old) word ≡ true }
        ensures { cells_of self.new ≡ (if is_ok result then cells_of self.old ++ word ∷ [] else cells_of self.old) }
    {
        prepare(&mut self.pending, self.cells.len(), 1)?;
        self.cells.push(word)?;
        Ok(())
    }

    /// Puts words behind the cells. It fails for want of memory, and then changes nothing.
    fn keep(&mut self, words: &[Word]) -> Result<usize, AllocError>
        requires { are_within (size_of self.old) words.now ≡ true }
        ensures ok { OnOk result (cells_of self.new ≡ cells_of self.old ++ words.now) }
        ensures from { IfOk result (λ from. from ≡ size_of self.old) }
        ensures err { OnErr result (cells_of self.new ≡ cells_of self.old) }
        ensures small { OnOk result (length words.now < 2 ^ 63) }
    {
        let from = self.cells.len();
        prepare(&mut self.pending, from, words.len())?;
        self.cells.extend_from_slice(words)?;
        Ok(from)
    }

    /// The sum of two numbers.
    fn add(&self, range: Range, left: Word, right: Word) -> Result<Word, Halt>
        ensures answers { Answers result (value_at self.now) (found (row (Op.Add range) (value_at self.now left ∷ value_at self.now right ∷ []))) }
        ensures stands { Stands (size_of self.now) result }
        ensures memory { result ≢ Err Halt.Memory }
    {
        let (Word::Number(left), Word::Number(right)) = (left, right) else {
            return Err(Halt::Broken);
        };
        match sum(range, left, right) {
            Some(number) => Ok(Word::Number(number)),
            None => Err(Halt::Broken),
        }
    }

    /// The left number less the right one.
    fn subtract(&self, range: Range, left: Word, right: Word) -> Result<Word, Halt>
        ensures answers { Answers result (value_at self.now) (found (row (Op.Subtract range) (value_at self.now left ∷ value_at self.now right ∷ []))) }
        ensures stands { Stands (size_of self.now) result }
        ensures memory { result ≢ Err Halt.Memory }
    {
        let (Word::Number(left), Word::Number(right)) = (left, right) else {
            return Err(Halt::Broken);
        };
        match difference(range, left, right) {
            Some(number) => Ok(Word::Number(number)),
            None => Err(Halt::Broken),
        }
    }

    /// The product of two numbers.
    fn multiply(&self, range: Range, left: Word, right: Word) -> Result<Word, Halt>
        ensures answers { Answers result (value_at self.now) (found (row (Op.Multiply range) (value_at self.now left ∷ value_at self.now right ∷ []))) }
        ensures stands { Stands (size_of self.now) result }
        ensures memory { result ≢ Err Halt.Memory }
    {
        let (Word::Number(left), Word::Number(right)) = (left, right) else {
            return Err(Halt::Broken);
        };
        match product(range, left, right) {
            Some(number) => Ok(Word::Number(number)),
            None => Err(Halt::Broken),
        }
    }

    /// The Euclidean quotient of two numbers.
    fn divide(&self, range: Range, left: Word, right: Word) -> Result<Word, Halt>
        ensures answers { Answers result (value_at self.now) (found (row (Op.Divide range) (value_at self.now left ∷ value_at self.now right ∷ []))) }
        ensures stands { Stands (size_of self.now) result }
        ensures memory { result ≢ Err Halt.Memory }
    {
        let (Word::Number(left), Word::Number(right)) = (left, right) else {
            return Err(Halt::Broken);
        };
        if right == 0 {
            return Err(Halt::Broken);
        }
        match quotient(range, left, right) {
            Some(number) => Ok(Word::Number(number)),
            None => Err(Halt::Broken),
        }
    }

    /// The Euclidean remainder of two numbers.
    fn modulo(&self, range: Range, left: Word, right: Word) -> Result<Word, Halt>
        ensures answers { Answers result (value_at self.now) (found (row (Op.Modulo range) (value_at self.now left ∷ value_at self.now right ∷ []))) }
        ensures stands { Stands (size_of self.now) result }
        ensures memory { result ≢ Err Halt.Memory }
    {
        let (Word::Number(left), Word::Number(right)) = (left, right) else {
            return Err(Halt::Broken);
        };
        if right == 0 {
            return Err(Halt::Broken);
        }
        match remainder(range, left, right) {
            Some(number) => Ok(Word::Number(number)),
            None => Err(Halt::Broken),
        }
    }

    /// The number with its sign turned.
    fn negate(&self, range: Range, operand: Word) -> Result<Word, Halt>
        ensures answers { Answers result (value_at self.now) (found (row (Op.Negate range) (value_at self.now operand ∷ []))) }
        ensures stands { Stands (size_of self.now) result }
        ensures memory { result ≢ Err Halt.Memory }
    {
        let Word::Number(number) = operand else {
            return Err(Halt::Broken);
        };
        match negation(range, number) {
            Some(number) => Ok(Word::Number(number)),
            None => Err(Halt::Broken),
        }
    }

    /// The number, if it lies in the range.
    fn fit(&self, range: Range, operand: Word) -> Result<Word, Halt>
        ensures answers { Answers result (value_at self.now) (found (row (Op.Fit range) (value_at self.now operand ∷ []))) }
        ensures stands { Stands (size_of self.now) result }
        ensures memory { result ≢ Err Halt.Memory }
    {
        let Word::Number(number) = operand else {
            return Err(Halt::Broken);
        };
        match fitting(range, number) {
            Some(number) => Ok(Word::Number(number)),
            None => Err(Halt::Broken),
        }
    }

    /// Whether the left number or character is below the right one.
    fn less(&self, left: Word, right: Word) -> Result<Word, Halt>
        ensures answers { Answers result (value_at self.now) (found (row Op.Less (value_at self.now left ∷ value_at self.now right ∷ []))) }
        ensures stands { Stands (size_of self.now) result }
        ensures memory { result ≢ Err Halt.Memory }
    {
        match (left, right) {
            (Word::Number(left), Word::Number(right)) => Ok(Word::Truth(left < right)),
            (Word::Char(left), Word::Char(right)) => Ok(Word::Truth(left < right)),
            _ => Err(Halt::Broken),
        }
    }

    /// Whether the left number or character is at most the right one.
    fn at_most(&self, left: Word, right: Word) -> Result<Word, Halt>
        ensures answers { Answers result (value_at self.now) (found (row Op.AtMost (value_at self.now left ∷ value_at self.now right ∷ []))) }
        ensures stands { Stands (size_of self.now) result }
        ensures memory { result ≢ Err Halt.Memory }
    {
        match (left, right) {
            (Word::Number(left), Word::Number(right)) => Ok(Word::Truth(left <= right)),
            (Word::Char(left), Word::Char(right)) => Ok(Word::Truth(left <= right)),
            _ => Err(Halt::Broken),
        }
    }

    /// The other truth.
    fn not(&self, operand: Word) -> Result<Word, Halt>
        ensures answers { Answers result (value_at self.now) (found (row Op.Not (value_at self.now operand ∷ []))) }
        ensures stands { Stands (size_of self.now) result }
        ensures memory { result ≢ Err Halt.Memory }
    {
        let Word::Truth(truth) = operand else {
            return Err(Halt::Broken);
        };
        Ok(Word::Truth(!truth))
    }

    /// The number of a character.
    fn code(&self, operand: Word) -> Result<Word, Halt>
        ensures answers { Answers result (value_at self.now) (found (row Op.Code (value_at self.now operand ∷ []))) }
        ensures stands { Stands (size_of self.now) result }
        ensures memory { result ≢ Err Halt.Memory }
    {
        let Word::Char(character) = operand else {
            return Err(Halt::Broken);
        };
        Ok(Word::Number(i128::from(character)))
    }

    /// The character of a number.
    fn character(&self, operand: Word) -> Result<Word, Halt>
        ensures answers { Answers result (value_at self.now) (found (row Op.Character (value_at self.now operand ∷ []))) }
        ensures stands { Stands (size_of self.now) result }
        ensures memory { result ≢ Err Halt.Memory }
    {
        let Word::Number(number) = operand else {
            return Err(Halt::Broken);
        };
        match character(number) {
            Some(character) => Ok(Word::Char(character)),
            None => Err(Halt::Broken),
        }
    }

    /// The argument at a place of a constructor.
    fn part(&self, place: usize, whole: Word) -> Result<Word, Halt>
        requires { is_within (size_of self.now) whole ≡ true }
        ensures answers { Answers result (value_at self.now) (found (row (Op.Part place) (value_at self.now whole ∷ []))) }
        ensures stands { Stands (size_of self.now) result }
        ensures memory { result ≢ Err Halt.Memory }
    {
        let Word::Data(_, from, count) = whole else {
            return Err(Halt::Broken);
        };
        if place >= count {
            return Err(Halt::Broken);
        }
        Ok(self.cells[from + place])
    }

    /// The number of a constructor.
    fn tag(&self, whole: Word) -> Result<Word, Halt>
        ensures answers { Answers result (value_at self.now) (found (row Op.Tag (value_at self.now whole ∷ []))) }
        ensures stands { Stands (size_of self.now) result }
        ensures memory { result ≢ Err Halt.Memory }
    {
        let Word::Data(tag, _, _) = whole else {
            return Err(Halt::Broken);
        };
        Ok(Word::Number(tag as i128))
    }

    /// The length of a sequence.
    fn length(&self, whole: Word) -> Result<Word, Halt>
        requires { is_within (size_of self.now) whole ≡ true }
        ensures answers { Answers result (value_at self.now) (found (row Op.Length (value_at self.now whole ∷ []))) }
        ensures stands { Stands (size_of self.now) result }
        ensures memory { result ≢ Err Halt.Memory }
    {
        let Word::Sequence(_, count) = whole else {
            return Err(Halt::Broken);
        };
        Ok(Word::Number(count as i128))
    }

    /// The member of a sequence at a place.
    fn at(&self, whole: Word, index: Word) -> Result<Word, Halt>
        requires { is_within (size_of self.now) whole ≡ true }
        ensures answers { Answers result (value_at self.now) (found (row Op.At (value_at self.now whole ∷ value_at self.now index ∷ []))) }
        ensures stands { Stands (size_of self.now) result }
        ensures memory { result ≢ Err Halt.Memory }
    {
        let (Word::Sequence(from, count), Word::Number(index)) = (whole, index) else {
            return Err(Halt::Broken);
        };
        let Some(place) = place(index, count) else {
            return Err(Halt::Broken);
        };
        Ok(self.cells[from + place])
    }

    /// The part of a sequence between two places.
    fn slice(&self, whole: Word, start: Word, end: Word) -> Result<Word, Halt>
        requires { is_within (size_of self.now) whole ≡ true }
        ensures answers { Answers result (value_at self.now) (found (row Op.Slice (value_at self.now whole ∷ value_at self.now start ∷ value_at self.now end ∷ []))) }
        ensures stands { Stands (size_of self.now) result }
        ensures memory { result ≢ Err Halt.Memory }
    {
        let (Word::Sequence(from, count), Word::Number(start), Word::Number(end)) = (
            whole, start, end,
        ) else {
            return Err(Halt::Broken);
        };
        let Some(end) = bound(end, count) else {
            return Err(Halt::Broken);
        };
        let Some(start) = bound(start, end) else {
            return Err(Halt::Broken);
        };
        Ok(Word::Sequence(from + start, end - start))
    }

    /// A constructor with these arguments.
    fn construct(&mut self, tag: usize, words: &[Word]) -> Result<Word, Halt>
        requires { are_within (size_of self.old) words.now ≡ true }
        ensures answers { Answers result (value_at self.new) (found (row (Op.Construct tag (length words.now)) (map (value_at self.old) words.now))) }
        ensures grows { Grows (values_in self.old) (values_in self.new) }
        ensures stands { Stands (size_of self.new) result }
    {
        let from = self.keep(words)?;
        Ok(Word::Data(tag, from, words.len()))
    }

    /// A sequence with these members.
    fn sequence(&mut self, words: &[Word]) -> Result<Word, Halt>
        requires { are_within (size_of self.old) words.now ≡ true }
        ensures answers { Answers result (value_at self.new) (found (row (Op.Sequence (length words.now)) (map (value_at self.old) words.now))) }
        ensures grows { Grows (values_in self.old) (values_in self.new) }
        ensures stands { Stands (size_of self.new) result }
    {
        let from = self.keep(words)?;
        Ok(Word::Sequence(from, words.len()))
    }
    /// Lays so many cells from one on behind the others once more. It fails for want of memory, and then changes nothing.
    fn repeat(&mut self, from: usize, count: usize) -> Result<usize, AllocError>
        requires { from + count ≤ size_of self.old }
        ensures ok { OnOk result (cells_of self.new ≡ cells_of self.old ++ take count (drop from (cells_of self.old))) }
        ensures from { IfOk result (λ start. start ≡ size_of self.old) }
        ensures err { OnErr result (cells_of self.new ≡ cells_of self.old) }
        ensures small { size_of self.new < 2 ^ 63 }
    {
        let start = self.cells.len();
        prepare(&mut self.pending, start, count)?;
        self.cells.extend_from_within(from..from + count)?;
        Ok(start)
    }

    /// So many cells from one on, so that they are the last.
    fn lay(&mut self, from: usize, count: usize) -> Result<usize, AllocError>
        requires { from + count ≤ size_of self.old }
        ensures end { IfOk result (λ start. start + count ≡ size_of self.new) }
        ensures piece { IfOk result (λ start. take count (drop start (values_in self.new)) ≡ take count (drop from (values_in self.old))) }
        ensures grows { Grows (values_in self.old) (values_in self.new) }
        ensures longer { size_of self.old ≤ size_of self.new }
    {
        if from + count == self.cells.len() {
            return Ok(from);
        }
        let start = self.repeat(from, count)?;
        Ok(start)
    }

    /// One sequence behind another. Where they stand side by side, or the left one is last, it is not copied.
    fn join(&mut self, left: Word, right: Word) -> Result<Word, Halt>
        requires left { is_within (size_of self.old) left ≡ true }
        requires right { is_within (size_of self.old) right ≡ true }
        ensures answers { Answers result (value_at self.new) (found (row Op.Join (value_at self.old left ∷ value_at self.old right ∷ []))) }
        ensures grows { Grows (values_in self.old) (values_in self.new) }
        ensures stands { Stands (size_of self.new) result }
    {
        let (Word::Sequence(from, count), Word::Sequence(other, more)) = (left, right) else {
            return Err(Halt::Broken);
        };
        if from + count == other {
            return Ok(Word::Sequence(from, count + more));
        }
        let start = self.lay(from, count)?;
        self.repeat(other, more)?;
        Ok(Word::Sequence(start, count + more))
    }
    /// Lays so many cells from one on behind the others once more, with another word at a place. It fails for want of
    /// memory, and then changes nothing.
    fn revise(
        &mut self,
        from: usize,
        count: usize,
        place: usize,
        word: Word,
    ) -> Result<usize, AllocError>
        requires piece { from + count ≤ size_of self.old }
        requires place { place < count }
        requires word { is_within (size_of self.old) word ≡ true }
        ensures ok { OnOk result (cells_of self.new ≡ cells_of self.old ++ slice_set (take count (drop from (cells_of self.old))) place word) }
        ensures from { IfOk result (λ start. start ≡ size_of self.old) }
        ensures err { OnErr result (cells_of self.new ≡ cells_of self.old) }
        ensures small { size_of self.new < 2 ^ 63 }
    {
        let start = self.repeat(from, count)?;
        self.cells[start + place] = word;
        Ok(start)
    }

    /// A sequence with another member at a place.
    fn update(&mut self, whole: Word, index: Word, word: Word) -> Result<Word, Halt>
        requires whole { is_within (size_of self.old) whole ≡ true }
        requires word { is_within (size_of self.old) word ≡ true }
        ensures answers { Answers result (value_at self.new) (found (row Op.Update (value_at self.old whole ∷ value_at self.old index ∷ value_at self.old word ∷ []))) }
        ensures grows { Grows (values_in self.old) (values_in self.new) }
        ensures stands { Stands (size_of self.new) result }
    {
        let (Word::Sequence(from, count), Word::Number(index)) = (whole, index) else {
            return Err(Halt::Broken);
        };
        let Some(place) = place(index, count) else {
            return Err(Halt::Broken);
        };
        let start = self.revise(from, count, place, word)?;
        Ok(Word::Sequence(start, count))
    }

    /// Whether two values are equal.
    fn same(&mut self, left: Word, right: Word) -> Result<Word, Halt>
        requires left { is_within (size_of self.old) left ≡ true }
        requires right { is_within (size_of self.old) right ≡ true }
        ensures answers { Answers result (value_at self.new) (found (row Op.Same (value_at self.old left ∷ value_at self.old right ∷ []))) }
        ensures cells { self.new.cells ≡ self.old.cells }
        ensures stands { Stands (size_of self.new) result }
        ensures memory { result ≢ Err Halt.Memory }
    {
        let same = are_same(&self.cells, &mut self.pending, left, right);
        Ok(Word::Truth(same))
    }

    /// The result of an operation. Where it is no word, the cells may be more, and those that stood stand.
    pub fn apply(&mut self, op: &Op, words: &[Word]) -> Result<Word, Halt>
        requires count { length words.now ≡ taken op.now }
        requires within { are_within (size_of self.old) words.now ≡ true }
        ensures answers { Answers result (value_at self.new) (found (row op.now (map (value_at self.old) words.now))) }
        ensures grows { Grows (values_in self.old) (values_in self.new) }
        ensures stands { Stands (size_of self.new) result }
        // Only what makes a list takes memory.
        ensures memory { makes op.now ≡ false → result ≢ Err Halt.Memory }
    {
        match op {
            Op::Number(number) => Ok(Word::Number(*number)),
            Op::Truth(truth) => Ok(Word::Truth(*truth)),
            Op::Char(character) => Ok(Word::Char(*character)),
            Op::Null => Ok(Word::Null),
            Op::Add(range) => {
                let (left, right) = two(words);
                self.add(*range, left, right)
            }
            Op::Subtract(range) => {
                let (left, right) = two(words);
                self.subtract(*range, left, right)
            }
            Op::Multiply(range) => {
                let (left, right) = two(words);
                self.multiply(*range, left, right)
            }
            Op::Divide(range) => {
                let (left, right) = two(words);
                self.divide(*range, left, right)
            }
            Op::Modulo(range) => {
                let (left, right) = two(words);
                self.modulo(*range, left, right)
            }
            Op::Negate(range) => self.negate(*range, one(words)),
            Op::Fit(range) => self.fit(*range, one(words)),
            Op::Less => {
                let (left, right) = two(words);
                self.less(left, right)
            }
            Op::AtMost => {
                let (left, right) = two(words);
                self.at_most(left, right)
            }
            Op::Same => {
                let (left, right) = two(words);
                self.same(left, right)
            }
            Op::Not => self.not(one(words)),
            Op::Code => self.code(one(words)),
            Op::Character => self.character(one(words)),
            Op::Construct { tag, count: _ } => self.construct(*tag, words),
            Op::Part(place) => self.part(*place, one(words)),
            Op::Tag => self.tag(one(words)),
            Op::Sequence(_) => self.sequence(words),
            Op::Length => self.length(one(words)),
            Op::At => {
                let (whole, index) = two(words);
                self.at(whole, index)
            }
            Op::Slice => {
                let (whole, start, end) = three(words);
                self.slice(whole, start, end)
            }
            Op::Join => {
                let (left, right) = two(words);
                self.join(left, right)
            }
            Op::Update => {
                let (whole, index, word) = three(words);
                self.update(whole, index, word)
            }
        }
    }
}
