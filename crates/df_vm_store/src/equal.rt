//! Equality of values, however deep they are, without a call for each part and without memory of its own.

ghost use Rattle.std.specs.Prelude.{◌≡◌, ◌≤◌, ◌<◌, ◌+◌, ◌-◌, ◌^◌, ◌++◌, ◌&&◌, [], ◌∷◌, true, take, drop, length, slice_get, Some, vec_capacity};
ghost use Rattle.df_mach2.specs.Value as pure;
ghost use Rattle.df_vm_store.specs.Meaning.{are_founded, is_within, meanings, value_in};
ghost use Rattle.df_vm_store.specs.Equal.{is_same_pair, are_same_pairs, fall, falls_with, deferred, pair_work, work, Tells, Compares, GoesInto, Deepens, EndsWithin, next_pair};

use crate::word::Word;

/// Two pieces of the cells, of so many each.
#[derive(Clone, Copy)]
pub(crate) struct Pair {
    left: usize,
    right: usize,
    count: usize,
}

/// What two words tell.
#[derive(Clone, Copy)]
enum Shallow {
    Differ,
    Equal,
    /// They are the same if these are.
    Deeper(Pair),
}

/// Puts a pair that is left to be compared, if there is anything in it.
fn defer(size: usize, pending: &mut Vec<Pair>, pair: Pair)
    requires falls { falls_with size pending.old.items pair ≡ true }
    requires room { size ≤ vec_capacity pending.old }
    ensures items { pending.new.items ≡ deferred pending.old.items pair }
    ensures room { vec_capacity pending.new ≡ vec_capacity pending.old }
{
    let _ = size;
    if pair.count != 0 {
        pending.push_reserved(pair);
    }
}

/// Two pieces of so many and of so many, which are the same only if they are as long.
fn pieces(cells: &[Word], left: usize, count: usize, right: usize, other: usize) -> Shallow
    requires left { left + count ≤ length cells.now }
    requires right { right + other ≤ length cells.now }
    ensures tells { Tells result (meanings cells.now) (pure.all_same (pure.values_of (take count (drop left (meanings cells.now)))) (pure.values_of (take other (drop right (meanings cells.now))))) }
    ensures deepens { Deepens result (record { left = left; right = right; count = count }) }
    ensures within { EndsWithin result (length cells.now) }
{
    if count != other {
        Shallow::Differ
    } else if left == right {
        Shallow::Equal
    } else {
        Shallow::Deeper(Pair { left, right, count })
    }
}

/// What two words tell of whether their values are the same.
fn compare_words(cells: &[Word], left: Word, right: Word) -> Shallow
    requires left { is_within (length cells.now) left ≡ true }
    requires right { is_within (length cells.now) right ≡ true }
    ensures tells { Tells result (meanings cells.now) (pure.same (value_in (meanings cells.now) left) (value_in (meanings cells.now) right)) }
    ensures deeper { GoesInto result left (length cells.now) (meanings cells.now) }
{
    match (left, right) {
        (Word::Number(left), Word::Number(right)) => {
            if left == right {
                Shallow::Equal
            } else {
                Shallow::Differ
            }
        }
        (Word::Truth(left), Word::Truth(right)) => {
            if left == right {
                Shallow::Equal
            } else {
                Shallow::Differ
            }
        }
        (Word::Char(left), Word::Char(right)) => {
            if left == right {
                Shallow::Equal
            } else {
                Shallow::Differ
            }
        }
        (Word::Null, Word::Null) => Shallow::Equal,
        (Word::Reference(left), Word::Reference(right)) => {
            if left == right {
                Shallow::Equal
            } else {
                Shallow::Differ
            }
        }
        (Word::Data(tag, left, count), Word::Data(other_tag, right, other)) => {
            if tag != other_tag {
                Shallow::Differ
            } else {
                pieces(cells, left, count, right, other)
            }
        }
        (Word::Sequence(left, count), Word::Sequence(right, other)) => {
            pieces(cells, left, count, right, other)
        }
        _ => Shallow::Differ,
    }
}

/// The word of a cell, which speaks of cells before it.
fn word(cells: &[Word], place: usize) -> Word
    requires founded { are_founded 0 cells.now ≡ true }
    requires place { place < length cells.now }
    ensures word { slice_get cells.now place ≡ Some result }
    ensures within { is_within place result ≡ true }
{
    cells[place]
}

/// What is left of two pieces behind the first of each.
fn rest(cells: &[Word], pair: Pair) -> Pair
    requires some { 0 < pair.count }
    requires left { pair.left + pair.count ≤ length cells.now }
    requires right { pair.right + pair.count ≤ length cells.now }
    ensures { result ≡ next_pair pair }
{
    let _ = cells.len();
    Pair {
        left: pair.left + 1,
        right: pair.right + 1,
        count: pair.count - 1,
    }
}

/// Compares the first of two pieces, and puts what is left to be compared.
fn compare(cells: &[Word], pending: &mut Vec<Pair>, pair: Pair) -> bool
    requires founded { are_founded 0 cells.now ≡ true }
    requires falls { fall (length cells.now) (length cells.now) (pending.old.items ++ pair ∷ []) ≡ true }
    requires room { length cells.now ≤ vec_capacity pending.old }
    ensures compares { Compares result (is_same_pair (meanings cells.now) pair) (are_same_pairs (meanings cells.now) pending.old.items) (are_same_pairs (meanings cells.now) pending.new.items) }
    ensures falls { fall (length cells.now) (length cells.now) pending.new.items ≡ true }
    ensures room { vec_capacity pending.new ≡ vec_capacity pending.old }
    ensures less { work (meanings cells.now) pending.new.items < work (meanings cells.now) pending.old.items + pair_work (meanings cells.now) pair }
{
    let size = cells.len();
    let left = word(cells, pair.left);
    let right = word(cells, pair.right);
    match compare_words(cells, left, right) {
        Shallow::Differ => false,
        Shallow::Equal => {
            defer(size, pending, rest(cells, pair));
            true
        }
        Shallow::Deeper(inner) => {
            defer(size, pending, rest(cells, pair));
            defer(size, pending, inner);
            true
        }
    }
}

/// Compares all pairs, in what room is there for them.
fn compare_all(cells: &[Word], pending: &mut Vec<Pair>, first: Pair) -> bool
    requires founded { are_founded 0 cells.now ≡ true }
    requires left { first.left + first.count ≤ length cells.now }
    requires right { first.right + first.count ≤ length cells.now }
    requires room { length cells.now ≤ vec_capacity pending.old }
    ensures same { result ≡ is_same_pair (meanings cells.now) first }
    ensures room { vec_capacity pending.new ≡ vec_capacity pending.old }
{
    pending.clear();
    defer(cells.len(), pending, first);
    while let Some(pair) = pending.pop() {
        if !compare(cells, pending, pair) {
            return false;
        }
    }
    true
}

/// Whether two values are equal. The room there is for pairs is enough, and stays.
pub(crate) fn are_same(cells: &[Word], pending: &mut Vec<Pair>, left: Word, right: Word) -> bool
    requires founded { are_founded 0 cells.now ≡ true }
    requires left { is_within (length cells.now) left ≡ true }
    requires right { is_within (length cells.now) right ≡ true }
    requires room { length cells.now ≤ vec_capacity pending.old }
    ensures same { result ≡ pure.same (value_in (meanings cells.now) left) (value_in (meanings cells.now) right) }
    ensures room { vec_capacity pending.new ≡ vec_capacity pending.old }
{
    match compare_words(cells, left, right) {
        Shallow::Differ => false,
        Shallow::Equal => true,
        Shallow::Deeper(first) => compare_all(cells, pending, first),
    }
}
