// A table with room for more cells than its limit names, of which a call is lent the first ones.
ghost use Rattle.std.specs.Prelude.{◌≡◌, ◌≤◌, ◌<◌, ℕ, ⊤, take, set, IfOk, MatchResult, slice_index_or};
ghost use Rattle.std.specs.Array.{AllZipBelow};
ghost use Rattle.std.specs.Array.Iter.{IntoIterFitsInMemory};
ghost use Rattle.std.specs.Borrow.{sem};
ghost use Rattle.trial.specs.Lending.{LendsFront};

use crate::BadCommand;
use std::alloc::AllocError;

#[derive(Copy, PartialEq, Eq)]
pub struct Table<T, const ROOM: usize> {
    pub cells: [T; ROOM],
    // How many cells a call is lent. It may be any number: where it is more than there are, they are all lent.
    pub lent: usize,
}

// By hand, since a derive clones each cell, and that can fail.
impl<T: Copy, const ROOM: usize> Clone for Table<T, ROOM> {
    ghost is_clone = { λ t u. u ≡ t };

    ghost is_infallible = { λ _. ⊤ };

    fn clone(&self) -> Result<Self, AllocError> {
        Ok(*self)
    }
}

impl<T: Clone, const ROOM: usize> Table<T, ROOM> {
    // Each cell is cloned, for cells that are not copied.
    pub fn clone_each(&self) -> Result<Self, AllocError>
        ensures lends { IfOk result (λ t. t.lent ≡ self.now.lent) }
        ensures cells { MatchResult result (λ t. AllZipBelow T.is_clone self.now.cells t.cells ROOM) (λ _. ¬ (IntoIterFitsInMemory T.row ROOM.row × ((i : ℕ) (d : T) → i < ROOM → T.is_infallible (slice_index_or self.now.cells i d)))) }
    {
        let cells = self.cells.clone()?;
        Ok(Table {
            cells,
            lent: self.lent,
        })
    }
}

impl<T: Copy, const ROOM: usize> Table<T, ROOM> {
    // The same cell throughout, with so many lent, or all.
    pub fn filled(cell: T, count: usize) -> Self
        ensures { (count ≤ ROOM → result.lent ≡ count) × (ROOM ≤ count → result.lent ≡ ROOM) }
    {
        Table {
            cells: [cell; ROOM],
            lent: count.min(ROOM),
        }
    }

    // Lends so many cells from now on, or all.
    pub fn lend(&mut self, count: usize)
        ensures { (count ≤ ROOM → self.new.lent ≡ count) × (ROOM ≤ count → self.new.lent ≡ ROOM) }
    {
        self.lent = count.min(ROOM);
    }

    pub fn lent(&self) -> &[T]
        ensures { result.now ≡ take self.now.lent self.now.cells }
    {
        &self.cells[..self.lent.min(ROOM)]
    }

    // Once they come back, the rest and the count are as they were.
    pub fn lent_mut(&mut self) -> &mut [T]
        ensures* writes_back { sem 𝓛 (LendsFront T.row ROOM.row self.entry result) }
        ensures value { result.now ≡ take self.old.lent self.old.cells }
    {
        let lent = self.lent.min(ROOM);
        let cells = &mut self.cells;
        &mut cells[..lent]
    }

    // Writes a cell that is lent.
    pub fn set(&mut self, at: usize, cell: T) -> Result<(), BadCommand>
        ensures lends { self.new.lent ≡ self.old.lent }
        ensures refused { self.old.lent ≤ at → self.new ≡ self.old }
        ensures writes { IfOk result (λ _. self.new.cells ≡ set self.old.cells at cell) }
    {
        if self.lent.min(ROOM) <= at {
            return Err(BadCommand);
        }
        self.cells[at] = cell;
        Ok(())
    }
}

#[cfg(test)]
mod tests {
    use super::*;

    // It can be copied, and not cloned.
    #[derive(Copy, PartialEq, Eq)]
    struct Copied;

    impl Clone for Copied {
        fn clone(&self) -> Result<Self, AllocError> {
            Err(AllocError)
        }
    }

    #[test]
    fn a_table_is_copied_where_no_cell_can_be_cloned(rt: HostRuntime) {
        let table = Table::<Copied, 3>::filled(Copied, 2);
        let copy: Result<_, _> = table.clone();
        assert!(rt; copy == Ok(table));
        assert!(rt; table.clone_each() == Err(AllocError));
    }

    #[test]
    fn what_is_written_to_the_front_stays(rt: HostRuntime) {
        let mut table = Table::<u16, 3> {
            cells: [7; 3],
            lent: 2,
        };
        table.lent_mut().fill(9);
        assert!(rt; table.cells == [9, 9, 7]);
        assert_eq!(rt; table.lent, 2);
        table.lent = 4;
        table.lent_mut().fill(8);
        assert!(rt; table.cells == [8, 8, 8]);
        assert_eq!(rt; table.lent, 4);
    }

    #[test]
    fn each_cell_is_cloned(rt: HostRuntime) {
        let mut table = Table::<u16, 3>::filled(7, 2);
        assert!(rt; table.set(1, 8).is_ok());
        assert!(rt; table.clone_each() == Ok(table));
        let copy: Result<_, _> = table.clone();
        assert!(rt; copy == Ok(table));
    }
}
