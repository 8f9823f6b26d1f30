// A check table: for each of n places, r check symbols below q. Only a reader makes one.
ghost use Rattle.std.specs.Prelude.{◌≡◌, ℕ, ◌*◌, ◌<◌, ◌≤◌, length, take, slice_index};
ghost use Rattle.checkfile.specs.Symbols.{check_at};

use crate::lent::LentTable;
use crate::sizes::Sizes;
use rules::lists::padded;

#[derive(Clone, Copy)]
pub struct Code {
    pub(crate) sizes: Sizes,
    // In fixed memory, for a host with no heap: the most that any sizes have, 24 places of 8.
    pub(crate) checks: [u8; 192],
    ghost long: { length checks ≡ 192 },
    ghost symbols: { (k : ℕ) → k < sizes.places.n * sizes.r → slice_index checks k < sizes.q },
    // So that codes with the same table are equal.
    ghost past: { (k : ℕ) → sizes.places.n * sizes.r ≤ k → slice_index checks k ≡ 0 },
}

impl Code {
    pub(crate) fn new(table: &LentTable<'_>) -> Code
        ensures { (result.sizes ≡ table.now.sizes) × (take (result.sizes.places.n * result.sizes.r) result.checks ≡ table.now.symbols.now) }
    {
        Code {
            sizes: table.sizes,
            checks: padded(0, table.symbols),
        }
    }

    pub fn q(&self) -> u8
        ensures { result ≡ self.now.sizes.q }
    {
        self.sizes.q
    }

    pub fn n(&self) -> usize
        ensures { result ≡ self.now.sizes.places.n }
    {
        self.sizes.places.get()
    }

    pub fn r(&self) -> usize
        ensures { result ≡ self.now.sizes.r }
    {
        usize::from(self.sizes.r)
    }

    // All check symbols, those of the first place first.
    pub(crate) fn symbols(&self) -> &[u8]
        ensures value { result.now ≡ take (self.now.sizes.places.n * self.now.sizes.r) self.now.checks }
        ensures len { length result.now ≡ self.now.sizes.places.n * self.now.sizes.r }
    {
        &self.checks[0..self.sizes.table()]
    }

    // Check symbol j of a place, both counted from 0; 0 where there is none.
    pub fn check(&self, place: usize, j: usize) -> u8
        ensures { result ≡ check_at self.now.sizes.places.n self.now.sizes.r self.now.checks place j }
    {
        let r = self.r();
        if place < self.n() && j < r {
            self.checks[place * r + j]
        } else {
            0
        }
    }
}
