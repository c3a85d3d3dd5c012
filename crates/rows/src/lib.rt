//! Up to a given number of rows in fixed memory: they stand in the value itself, and nothing is
//! allocated.
#![tactic(auto)]

ghost use Rattle.std.specs.Prelude.{◌≡◌, ◌≤◌, ⊤, length};

use std::alloc::AllocError;
use std::error::Error;
use std::fmt;

/// There are as many rows as there can be.
#[derive(Clone, Copy, PartialEq, Eq, Debug)]
pub struct Full;

impl fmt::Display for Full {
    ghost use Rattle.std.specs.Prelude.{Some, codes};

    ghost output = { λ _. Some (codes "there are as many rows as there can be") };

    fn fmt<W: fmt::Write>(&self, f: &mut fmt::Formatter<W>) -> fmt::Result {
        f.write_str("there are as many rows as there can be")
    }
}

impl Error for Full {}

/// Up to `MOST` rows, the oldest first; the first `count` places are in use.
// An array and a count: no call of a library allocates, and the library's `ArrayVec` is not `Copy`
// and asks a default of each row, which a priced project has not.
pub struct Rows<T, const MOST: usize> {
    places: [T; MOST],
    count: usize,
    ghost few: { count ≤ MOST },
    ghost all_places: { length places ≡ MOST },
}

impl<T: Copy, const MOST: usize> Copy for Rows<T, MOST> {}

// By hand: over ghost fields the derive is refused for a type that is `Copy` only where its rows are.
impl<T: Copy, const MOST: usize> Clone for Rows<T, MOST> {
    ghost is_clone = { λ rows copy. copy ≡ rows };

    ghost is_infallible = { λ _. ⊤ };

    fn clone(&self) -> Result<Self, AllocError> {
        Ok(*self)
    }
}

impl<T: Copy, const MOST: usize> Rows<T, MOST> {
    ghost use Rattle.std.specs.Prelude.{[], ◌<◌, ◌↔◌, IsTrue};
    ghost use Rattle.rows.specs.Rows.{Gives, added, rows_in};

    /// No rows. A place that is not in use holds the blank.
    pub fn new(blank: T) -> Self
        ensures { rows_in result ≡ [] }
    {
        Rows {
            places: [blank; MOST],
            count: 0,
        }
    }

    /// Whether there are as many rows as there can be.
    pub fn is_full(&self) -> bool
        ensures { IsTrue result ↔ (MOST ≤ length (rows_in self.now)) }
    {
        self.count >= MOST
    }

    /// Adds a row after the others; where they are as many as can be, they stay as they are.
    pub fn push(&mut self, row: T) -> Result<(), Full>
        ensures { Gives (added MOST (rows_in self.old) row) result (rows_in self.new) }
    {
        if self.is_full() {
            return Err(Full);
        }
        self.places[self.count] = row;
        self.count += 1;
        Ok(())
    }

    /// The rows.
    pub fn as_slice(&self) -> &[T]
        ensures rows { result.now ≡ rows_in self.now }
        ensures no_more_than_the_limit { length result.now ≤ MOST }
    {
        &self.places[..self.count]
    }
}

#[cfg(test)]
mod tests {
    use super::*;

    #[test]
    fn rows_stand_in_their_order_until_there_are_as_many_as_can_be(rt: HostRuntime) {
        let mut rows = Rows::<u8, 2>::new(0);
        assert!(rt; rows.as_slice().is_empty());
        assert_eq!(rt; rows.push(7), Ok(()));
        assert!(rt; !rows.is_full());
        assert_eq!(rt; rows.push(5), Ok(()));
        assert!(rt; rows.is_full());
        assert_eq!(rt; rows.push(9), Err(Full));
        assert!(rt; rows.as_slice() == [7, 5].as_slice());
    }

    #[test]
    fn there_may_be_no_place_at_all(rt: HostRuntime) {
        let mut rows = Rows::<u8, 0>::new(0);
        assert!(rt; rows.is_full());
        assert_eq!(rt; rows.push(7), Err(Full));
        assert!(rt; rows.as_slice().is_empty());
    }

    #[test]
    fn a_copy_has_the_rows(rt: HostRuntime) {
        let mut rows = Rows::<u8, 2>::new(0);
        assert_eq!(rt; rows.push(7), Ok(()));
        let copy = rows;
        assert_eq!(rt; rows.push(5), Ok(()));
        assert!(rt; copy.as_slice() == [7].as_slice());
    }
}
