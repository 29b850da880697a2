// A store of tables that are published as coefficients.
ghost use Rattle.std.specs.Prelude.{◌≡◌, ◌+◌, ◌*◌, ◌^◌, ◌<◌, ◌≤◌, map, length, find, IfOk, vec_items, MatchOption, MatchResult};
ghost use Rattle.std.specs.Option.{option_map};
ghost use Rattle.elements.specs.Kind.{evaluated};
ghost use Rattle.openings.specs.Coefficients.{ClearV, entry_view, empty_clear, with_entry, with_number, of_id, reach, column_of, columns_at, held_at, held_by};

use elements::commitment::Commitment;
use elements::field::Field;
use elements::lists::horner_u32;
use std::alloc::{AllocError, Global};
use std::marker::Model;

// The bits of a `usize`. Not `usize::BITS` with `checked_shl`, which are of `u32`: each would be converted.
const WORD_BITS: usize = 64;

// Which matrix of a commitment, and its degree bits.
#[derive(Clone, Copy, Debug, PartialEq, Eq)]
pub struct MatrixId {
    pub commitment: Commitment,
    pub matrix: usize,
    pub bits: usize,
}

// A matrix: `columns` polynomials of 2^bits coefficients, one after the other from `start`. Plain data, which clauses see by `entry_view`: a model
// would hide the fields that they name.
#[derive(Clone, Copy)]
pub struct ClearEntry {
    pub id: MatrixId,
    pub start: usize,
    pub columns: usize,
}

// `zk` and the limits of the degree bits are the caller's. Entries name places of the one list: the published form has it so, entries may share
// numbers, and one may reach past the list.
#[derive(Drop)]
pub struct Clear {
    zk: bool,
    smallest: usize,
    largest: usize,
    entries: Vec<ClearEntry>,
    numbers: Vec<u32>,
}

// Clauses see a store as its limits, its entries and its list of numbers.
impl Model for Clear {
    ghost Value = { ClearV };

    ghost view = { λ c. record {
      zk = c.zk;
      smallest = c.smallest;
      largest = c.largest;
      entries = map entry_view (vec_items c.entries);
      numbers = vec_items c.numbers;
    } };
}

impl Clear {
    pub fn new(heap: Global, zk: bool, smallest: usize, largest: usize) -> Clear
        ensures { result ≡ empty_clear zk smallest largest }
    {
        Clear {
            zk,
            smallest,
            largest,
            entries: Vec::new(heap),
            numbers: Vec::new(heap),
        }
    }

    // One entry more, after those in use.
    pub fn add_entry(&mut self, entry: ClearEntry) -> Result<(), AllocError>
        ensures { MatchResult result (λ _. self.new ≡ with_entry self.old (entry_view entry)) (λ _. self.new ≡ self.old) }
    {
        self.entries.push(entry)?;
        Ok(())
    }

    // One number more, after those in use.
    pub fn add_number(&mut self, number: u32) -> Result<(), AllocError>
        ensures { MatchResult result (λ _. self.new ≡ with_number self.old number) (λ _. self.new ≡ self.old) }
    {
        self.numbers.push(number)?;
        Ok(())
    }

    // The values at a point of the first entry with this id.
    pub fn values<E: Field>(
        &self,
        heap: Global,
        id: &MatrixId,
        point: E,
    ) -> Result<Option<Vec<E>>, AllocError>
        ensures { IfOk result (λ held. option_map vec_items held ≡ held_at E.Field.kind self.now id.now.commitment.bytes id.now.matrix id.now.bits point) }
    {
        let entry = first_match(self.entries.as_slice(), id);
        let columns = entry.and_then(|entry| Columns::new(entry, self.numbers.as_slice()));
        columns
            .map(|columns| columns.values(heap, point))
            .transpose()
    }
}

fn is_of(entry: &ClearEntry, id: &MatrixId) -> bool
    ensures { result ≡ of_id id.now (entry_view entry.now) }
{
    entry.id == *id
}

fn first_match(entries: &[ClearEntry], id: &MatrixId) -> Option<ClearEntry>
    ensures { option_map entry_view result ≡ find (of_id id.now) (map entry_view entries.now) }
{
    entries.iter().find(|entry| is_of(entry, id)).copied()
}

// The size of a column of an entry that lies within its list; places never wrap.
fn column_size(entry: ClearEntry, len: usize) -> Option<usize>
    ensures { MatchOption result (len < reach (entry_view entry)) (λ size. (reach (entry_view entry) ≤ len) × (0 < entry.columns → size ≡ 2 ^ entry.id.bits)) }
{
    // An entry of no columns has no size; any will do.
    if entry.columns == 0 {
        return (entry.start <= len).then_some(1);
    }
    if entry.id.bits >= WORD_BITS {
        return None;
    }
    let size = 1usize << entry.id.bits;
    let end = size.checked_mul(entry.columns)?.checked_add(entry.start)?;
    (end <= len).then_some(size)
}

// An entry whose columns lie within a list of numbers.
#[derive(Clone, Copy)]
struct Columns<'a> {
    entry: ClearEntry,
    numbers: &'a [u32],
    size: usize,
    ghost within: { reach (entry_view entry) ≤ length numbers.now },
    ghost size_of_column: { 0 < entry.columns → size ≡ 2 ^ entry.id.bits },
}

impl<'a> Columns<'a> {
    fn new(entry: ClearEntry, numbers: &'a [u32]) -> Option<Columns<'a>>
        ensures { MatchOption result (length numbers.now < reach (entry_view entry)) (λ columns. (columns.entry ≡ entry) × (columns.numbers.now ≡ numbers.now)) }
    {
        let size = column_size(entry, numbers.len())?;
        Some(Columns {
            entry,
            numbers,
            size,
        })
    }

    // The polynomial of one column at the point.
    fn value<E: Field>(&self, column: usize, point: E) -> E
        requires { column < self.now.entry.columns }
        ensures { result ≡ evaluated E.kind point (map E.kind.embed (column_of self.now.numbers.now (entry_view self.now.entry) column)) }
    {
        let from = self.entry.start + column * self.size;
        horner_u32(&self.numbers[from..from + self.size], point)
    }

    fn values<E: Field>(&self, heap: Global, point: E) -> Result<Vec<E>, AllocError>
        ensures { IfOk result (λ v. v.items ≡ columns_at E.Field.kind self.now.numbers.now (entry_view self.now.entry) point) }
    {
        // The closure states what `value` asks: with the bounds of a kind's `Coefficients` that is no longer read off its body.
        (0..self.entry.columns)
            .map(
                |column|
                    requires { column < self.now.entry.columns }
                { self.value(column, point) },
            )
            .collect(heap)
    }
}
