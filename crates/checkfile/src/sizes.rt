// The sizes of a check table.
ghost use Rattle.std.specs.Prelude.{◌≡◌, ◌*◌, ◌≤◌, true, false, MatchOption};
ghost use Rattle.checkfile.specs.Tests.{Limits, sizes_fit};

use rules::length::Length;

// q symbols, the places of a mark, and r check symbols a place.
#[derive(Clone, Copy)]
pub(crate) struct Sizes {
    pub(crate) q: u8,
    pub(crate) places: Length,
    pub(crate) r: u8,
    ghost limits: { Limits q places.n r },
    // What the limits come to.
    ghost rows: { r ≤ 8 },
    ghost room: { places.n * r ≤ 192 },
}

// That q is from 2 to 4 is asked here and below: a type for q alone would be opened again at each use.
fn sizes_fit(q: u8, n: u8, r: u8) -> bool
    requires { (2 ≤ q) × (q ≤ 4) }
    ensures { result ≡ sizes_fit q n r }
{
    let rows = u32::from(q).checked_pow(u32::from(r));
    let few = rows.is_some_and(|rows| rows <= 256);
    1 <= n && 1 <= r && u32::from(n) * u32::from(q - 1) <= 24 && few
}

impl Sizes {
    // None where they pass the limits.
    pub(crate) fn new(q: u8, n: u8, r: u8) -> Option<Sizes>
        requires { (2 ≤ q) × (q ≤ 4) }
        ensures { MatchOption result (sizes_fit q n r ≡ false) (λ s. (sizes_fit q n r ≡ true) × (s.q ≡ q) × (s.places.n ≡ n) × (s.r ≡ r)) }
    {
        let Ok(places) = Length::try_from(usize::from(n)) else {
            return None;
        };
        if sizes_fit(q, n, r) {
            Some(Sizes { q, places, r })
        } else {
            None
        }
    }

    // How many check symbols the table has.
    pub(crate) fn table(&self) -> usize
        ensures { result ≡ self.now.places.n * self.now.r }
    {
        self.places.get() * usize::from(self.r)
    }
}
