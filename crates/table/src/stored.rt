// The records of a table: their order, and the search by key.
ghost use Rattle.std.specs.Prelude.{◌≡◌, ◌≤◌, ◌<◌, true, length};
ghost use Rattle.laws.specs.Lists.{any};
ghost use Rattle.slice.specs.Record.{key_of};
ghost use Rattle.table.specs.Header.{count_of, records_of, record_at};
ghost use Rattle.table.specs.Rules.{fails, in_order};
ghost use Rattle.table.specs.Steps.{Roomy, place_for, searched};

use crate::header::count_of;
use slice::{Key, check_records, key_of};

// A table whose records have a size, and their number, which its room takes.
#[derive(Clone, Copy)]
pub(crate) struct Records<'a> {
    pub table: &'a [u8],
    pub size: usize,
    pub count: usize,
    ghost counted: { count ≡ count_of table.now },
    ghost roomy: { Roomy size table.now },
}

impl<'a> Records<'a> {
    // The records of a table.
    pub(crate) fn of(table: &'a [u8], size: usize) -> Records<'a>
        requires { Roomy size table.now }
        ensures table { result.table.now ≡ table.now }
        ensures size { result.size ≡ size }
    {
        let count = usize::from(count_of(table));
        Records { table, size, count }
    }

    // The key of record i, read at its place.
    #[tactic(auto, using(crate::proofs::Records::record_fits), unfolding(crate::specs::Header::header))]
    fn key(&self, i: usize) -> Key
        requires { i < self.now.count }
        ensures { result ≡ key_of (record_at self.now.size i self.now.table.now) }
    {
        let at = 32 + i * self.size;
        key_of(&self.table[at..at + self.size])
    }

    // Whether one of them fails 11 to 16, read with `stride` bytes a property, on a side.
    #[tactic(auto, using(crate::proofs::Walks::review_tells))]
    pub(crate) fn is_faulty(&self, stride: usize, side: u8) -> bool
        requires { 32 ≤ length self.now.table.now }
        ensures { result ≡ any (fails stride side) (records_of self.now.size self.now.table.now) }
    {
        check_records(&self.table[32..], self.size, self.count, stride, side).is_err()
    }

    // Whether they stand in strictly rising order.
    #[tactic(auto, using(crate::proofs::Walks::rise_next, crate::proofs::Walks::rise_last))]
    pub(crate) fn is_in_order(&self) -> bool
        ensures { result ≡ in_order (records_of self.now.size self.now.table.now) }
    {
        for i in 1..self.count {
            if !self.key(i - 1).precedes(self.key(i)) {
                return false;
            }
        }
        true
    }

    // The place of the first record whose key is not below a key: the records stand in rising order, so
    // that half of what is left is passed over at each turn.
    #[tactic(auto, using(crate::proofs::Search::halving))]
    fn place_of(&self, key: Key) -> usize
        requires { in_order (records_of self.now.size self.now.table.now) ≡ true }
        ensures { (result ≡ place_for key (records_of self.now.size self.now.table.now)) × (result ≤ self.now.count) }
    {
        let mut low = 0;
        let mut high = self.count;
        while low < high {
            let middle = low + (high - low) / 2;
            if self.key(middle).precedes(key) {
                low = middle + 1;
            } else {
                high = middle;
            }
        }
        low
    }

    // The place of the record that has a key, or else the place that such a record would take.
    #[tactic(auto, using(crate::proofs::Search::ending), unfolding(crate::specs::Steps::searched))]
    pub(crate) fn search(&self, key: Key) -> Result<usize, usize>
        requires { in_order (records_of self.now.size self.now.table.now) ≡ true }
        ensures { result ≡ searched key (records_of self.now.size self.now.table.now) }
    {
        let at = self.place_of(key);
        if at < self.count && key.is(self.key(at)) {
            Ok(at)
        } else {
            Err(at)
        }
    }
}
