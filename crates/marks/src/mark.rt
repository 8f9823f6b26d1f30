// A mark packed into 64 bits, two bits a place, the first place lowest. Places count from 0 here, and from 1 in a refusal.
ghost use Rattle.std.specs.Prelude.{◌≡◌, ℕ, ◌*◌, ◌%◌, ◌^◌, ◌<◌, min, length, IfOk};
ghost use Rattle.algebra.specs.Digits.{digit};
ghost use Rattle.algebra.specs.Marks.{number_of, bytes_of, put, blank as blanked, plus as sum_of, minus as difference_of, weight as weight_of};
ghost use Rattle.marks.specs.Reading.{first_outside, reading};
ghost use Rattle.marks.specs.Symbols.{SymbolsOf};

use crate::alphabet::Alphabet;
use refusals::Refusal;

// How many places fit 64 bits.
pub const PLACES: usize = 32;

#[derive(Clone, Copy, PartialEq, Eq, Debug)]
pub struct Mark {
    pub number: u64,
}

// The index of the first byte that is no symbol below `q`.
pub fn first_outside(q: u8, bytes: &[u8]) -> Option<usize>
    ensures { result ≡ first_outside q bytes.now }
{
    bytes.iter().position(|symbol| *symbol >= q)
}

// A symbol as the digit of a place.
fn digit_at(symbol: u8, place: usize) -> u64
    requires { (symbol < 4) × (place < 32) }
    ensures { result ≡ symbol * 4 ^ place }
{
    u64::from(symbol) << (2 * place)
}

impl Mark {
    // The mark with these symbols at the first n places, of 32 at most; of each the two low bits count.
    pub fn from_fn<F: Fn(usize) -> u8>(n: usize, symbol: F) -> Mark
        requires { (i : ℕ) → i < min n 32 → F.pre symbol i }
        ensures { SymbolsOf (F.post symbol) (min n 32) result.number }
    {
        let mut number = 0;
        // The one loop over the places of a mark: a chain that ends in `sum` would need each digit's bound in its closure.
        for i in 0..n.min(PLACES) {
            number += digit_at(symbol(i) & 3, i);
        }
        Mark { number }
    }

    // The mark of n places that the bytes spell, one symbol each.
    pub fn read<A: Alphabet>(n: usize, bytes: &[u8]) -> Result<Mark, Refusal>
        ensures value { result ≡ reading A.symbols n bytes.now }
        ensures back { IfOk result (λ mark. bytes_of n mark.number ≡ bytes.now) }
    {
        if bytes.len() != n || n > PLACES {
            return Err(Refusal::MarkLength);
        }
        if let Some(place) = first_outside(A::Q, bytes) {
            return Err(Refusal::MarkSymbol(place + 1));
        }
        Ok(Mark::from_fn(n, |i| bytes[i]))
    }

    // Writes the symbols of the first places, as many as the buffer has bytes.
    pub fn write(self, buffer: &mut [u8])
        ensures after { buffer.new ≡ bytes_of (length buffer.old) self.number }
        ensures back { self.number < 4 ^ length buffer.old → number_of buffer.new ≡ self.number }
    {
        for (i, byte) in buffer.iter_mut().enumerate() {
            *byte = self.symbol(i);
        }
    }

    pub fn symbol(self, place: usize) -> u8
        ensures { result ≡ digit self.number place }
    {
        if place >= PLACES {
            return 0;
        }
        (self.number >> (2 * place) & 3) as u8
    }

    // Of a symbol the two low bits count; a place past the last one is none, and the mark stays.
    pub fn set(self, place: usize, symbol: u8) -> Mark
        ensures { result.number ≡ put 32 self.number place (symbol % 4) }
    {
        if place >= PLACES {
            return self;
        }
        let cleared = self.number - digit_at(self.symbol(place), place);
        Mark {
            number: cleared + digit_at(symbol & 3, place),
        }
    }

    pub fn blank(self, place: usize) -> Mark
        ensures { result.number ≡ blanked 32 self.number place }
    {
        self.set(place, 0)
    }

    // The sum of the first n places, of 32 at most.
    pub fn plus<A: Alphabet>(self, alphabet: &A, n: usize, other: Mark) -> Mark
        ensures { result.number ≡ sum_of A.symbols (min n 32) self.number other.number }
    {
        Mark::from_fn(n, |i| alphabet.sum(self.symbol(i), other.symbol(i)))
    }

    // The difference of the first n places, of 32 at most.
    pub fn minus<A: Alphabet>(self, alphabet: &A, n: usize, other: Mark) -> Mark
        ensures { result.number ≡ difference_of A.symbols (min n 32) self.number other.number }
    {
        Mark::from_fn(n, |i| {
            alphabet.sum(self.symbol(i), alphabet.opposite(other.symbol(i)))
        })
    }

    // Folds each place's two bits into the lower one, and counts the ones.
    pub fn weight(self) -> u32
        ensures { result ≡ weight_of 32 self.number }
    {
        ((self.number | self.number >> 1) & 0x5555_5555_5555_5555).count_ones()
    }
}
