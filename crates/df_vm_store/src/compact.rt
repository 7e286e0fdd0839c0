//! A store without the cells that nothing speaks of any more. Whoever marks the cells need not be right: a word is
//! carried over only where all that it speaks of was kept, which two numbers tell.

ghost use Rattle.std.specs.Prelude.{◌≡◌, ◌≤◌, ◌<◌, ◌^◌, ◌+◌, cond, slice_get, Some, map, true, IfOk, IfSome, MatchOption};
ghost use Rattle.df_vm_store.specs.Meaning.{is_within, are_within, value_in, Grows};
ghost use Rattle.df_vm_store.specs.Compact.{kept, ranks_from};
ghost use Rattle.df_vm_store.specs.View.{size_of, values_in, value_at};
ghost use Rattle.df_vm_store.specs.Carried.{IfCopied, IfCarried, HasRoom, IfCompacted};

use crate::marking::marks;
use crate::store::Store;
use crate::word::Word;
use std::alloc::{AllocError, Global};

/// How many cells are marked before each one, and in all.
fn ranks(alloc: Global, live: &[bool]) -> Result<Vec<usize>, AllocError>
    ensures { IfOk result (λ places. places.items ≡ ranks_from 0 live.now) }
{
    let mut places = Vec::new(alloc);
    let mut total: usize = 0;
    for marked in live {
        places.push(total)?;
        total = after(total, *marked);
    }
    places.push(total)?;
    Ok(places)
}

/// One more, where it is marked.
fn after(total: usize, marked: bool) -> usize
    requires { total < 2 ^ 63 }
    ensures value { result ≡ cond marked (total + 1) total }
    ensures bound { result ≤ total + 1 }
{
    if marked { total + 1 } else { total }
}

/// Where so many cells from one on stand among those that are marked, if all of them are, and if that is below a size.
fn carried(places: &[usize], size: usize, from: usize, count: usize) -> Option<usize>
    ensures from { IfSome result (λ place. slice_get places.now from ≡ Some place) }
    ensures past { IfSome result (λ place. slice_get places.now (from + count) ≡ Some (place + count)) }
    ensures size { IfSome result (λ place. place + count ≤ size) }
{
    let Some(end) = from.checked_add(count) else {
        return None;
    };
    let Some(place) = places.get(from) else {
        return None;
    };
    let Some(past) = places.get(end) else {
        return None;
    };
    if *past <= size && count <= *past && *past - count == *place {
        Some(*place)
    } else {
        None
    }
}

/// The word that speaks of the marked cells in place of all, if all that it speaks of are marked and stand below a size.
fn carry(store: &Store, live: &[bool], places: &[usize], size: usize, word: Word) -> Option<Word>
    requires places { places.now ≡ ranks_from 0 live.now }
    requires within { is_within (size_of store.now) word ≡ true }
    ensures value { IfSome result (λ w. value_in (kept live.now (values_in store.now)) w ≡ value_at store.now word) }
    ensures within { IfSome result (λ w. is_within size w ≡ true) }
{
    match word {
        Word::Data(tag, from, count) => match carried(places, size, from, count) {
            Some(place) => Some(Word::Data(tag, place, count)),
            None => None,
        },
        Word::Sequence(from, count) => match carried(places, size, from, count) {
            Some(place) => Some(Word::Sequence(place, count)),
            None => None,
        },
        Word::Number(number) => Some(Word::Number(number)),
        Word::Truth(truth) => Some(Word::Truth(truth)),
        Word::Char(character) => Some(Word::Char(character)),
        Word::Null => Some(Word::Null),
        Word::Reference(reference) => Some(Word::Reference(reference)),
    }
}

/// The mark of a cell.
fn mark(live: &[bool], cell: usize) -> Option<bool>
    ensures { result ≡ slice_get live.now cell }
{
    match live.get(cell) {
        Some(marked) => Some(*marked),
        None => None,
    }
}

/// How many cells are marked before one.
fn place(places: &[usize], cell: usize) -> Option<usize>
    ensures { result ≡ slice_get places.now cell }
{
    match places.get(cell) {
        Some(place) => Some(*place),
        None => None,
    }
}

/// Copies a cell, if it is marked. It tells whether that went well, or fails for want of memory.
fn copy_cell(
    store: &Store,
    live: &[bool],
    places: &[usize],
    copy: &mut Store,
    cell: usize,
) -> Result<bool, AllocError>
    requires places { places.now ≡ ranks_from 0 live.now }
    requires grows { Grows (values_in copy.old) (kept live.now (values_in store.now)) }
    ensures { Grows (values_in copy.new) (kept live.now (values_in store.now)) }
{
    let Some(marked) = mark(live, cell) else {
        return Ok(false);
    };
    if !marked {
        return Ok(true);
    }
    let Some(place) = place(places, cell) else {
        return Ok(false);
    };
    let Some(word) = store.cell(cell) else {
        return Ok(false);
    };
    let size = copy.size();
    if place != size {
        return Ok(false);
    }
    let Some(moved) = carry(store, live, places, size, word) else {
        return Ok(false);
    };
    copy.put(moved)?;
    Ok(true)
}

/// The marked cells alone, if all that they speak of are marked.
fn copy(
    alloc: Global,
    store: &Store,
    live: &[bool],
    places: &[usize],
) -> Result<Option<Store>, AllocError>
    requires { places.now ≡ ranks_from 0 live.now }
    ensures { IfCopied result live.now store.now }
{
    let mut copy = Store::new(alloc);
    for cell in 0..store.size() {
        if !copy_cell(store, live, places, &mut copy, cell)? {
            return Ok(None);
        }
    }
    Ok(Some(copy))
}

/// Words that speak of the cells of a copy in place of those of a store, with the same values, if all that they speak of
/// was copied, in room for so many.
fn carry_all(
    alloc: Global,
    store: &Store,
    live: &[bool],
    places: &[usize],
    copy: &Store,
    words: &[Word],
    room: usize,
) -> Result<Option<Vec<Word>>, AllocError>
    requires places { places.now ≡ ranks_from 0 live.now }
    requires grows { Grows (values_in copy.now) (kept live.now (values_in store.now)) }
    requires within { are_within (size_of store.now) words.now ≡ true }
    ensures carried { IfCarried result copy.now store.now words.now }
    ensures room { HasRoom result room }
{
    let mut moved = Vec::with_capacity(alloc, room)?;
    let size = copy.size();
    for word in words {
        let Some(word) = carry(store, live, places, size, *word) else {
            return Ok(None);
        };
        moved.push(word)?;
    }
    Ok(Some(moved))
}

/// A store without the cells that nothing speaks of any more, and the words that speak of it.
#[derive(Drop)]
pub struct Compacted {
    pub store: Store,
    pub locals: Vec<Word>,
    pub operands: Vec<Word>,
    pub slots: Vec<Word>,
}

/// The same values over fewer cells, unless the marks were wrong: those of the locals and operands of a machine, and of
/// the slots of its objects. There is no less room for them than before. It fails for want of memory.
pub fn compact_store(
    alloc: Global,
    store: &Store,
    locals: &Vec<Word>,
    operands: &Vec<Word>,
    slots: &Vec<Word>,
) -> Result<Option<Compacted>, AllocError>
    requires locals { are_within (size_of store.now) locals.now.items ≡ true }
    requires operands { are_within (size_of store.now) operands.now.items ≡ true }
    requires slots { are_within (size_of store.now) slots.now.items ≡ true }
    ensures { IfCompacted result store.now locals.now operands.now slots.now }
{
    let live = marks(alloc, store, locals, operands, slots)?;
    let places = ranks(alloc, &live)?;
    let Some(copy) = copy(alloc, store, &live, &places)? else {
        return Ok(None);
    };
    let room = locals.capacity();
    let Some(locals) = carry_all(alloc, store, &live, &places, &copy, locals, room)? else {
        return Ok(None);
    };
    let room = operands.capacity();
    let Some(operands) = carry_all(alloc, store, &live, &places, &copy, operands, room)? else {
        return Ok(None);
    };
    let room = slots.capacity();
    let Some(slots) = carry_all(alloc, store, &live, &places, &copy, slots, room)? else {
        return Ok(None);
    };
    Ok(Some(Compacted {
        store: copy,
        locals,
        operands,
        slots,
    }))
}
