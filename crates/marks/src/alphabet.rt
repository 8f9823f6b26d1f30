// The symbols of a dot: how many there are, and how they add and multiply.
ghost use Rattle.std.specs.Prelude.{◌≡◌, ℕ, ◌≤◌, refl};
ghost use Rattle.std.proofs.Common.{lit≤};
ghost use Rattle.algebra.specs.Symbols.{Symbols, Lawful, modulo, quads};
ghost use Rattle.algebra.proofs.Symbols.{modulo_lawful, quads_lawful};

// An alphabet means its `symbols`: a count and plain functions, which keep the laws.
// Given a number that is no symbol, each operation answers 0.
pub trait Alphabet {
    const Q: u8;

    ghost Q: { ℕ };

    ghost symbols: { Symbols };

    fn sum(&self, s: u8, t: u8) -> u8
        ensures { result ≡ symbols.sum s t };

    fn opposite(&self, s: u8) -> u8
        ensures { result ≡ symbols.opposite s };

    fn product(&self, s: u8, h: u8) -> u8
        ensures { result ≡ symbols.product s h };

    ghost counted: { Q ≡ symbols.q };

    ghost lawful: { Lawful symbols };
}

// Symbols that add and multiply modulo their count.
pub trait Modular {
    const COUNT: u8;

    ghost COUNT: { ℕ };

    ghost bounded: { (2 ≤ COUNT) × (COUNT ≤ 4) };
}

impl<M: Modular> Alphabet for M {
    const Q: u8 = M::COUNT;

    ghost Q = { M.COUNT };

    ghost symbols = { modulo M.COUNT };

    ghost counted = { refl };

    ghost lawful = { modulo_lawful M.COUNT M.bounded.0 M.bounded.1 };

    fn sum(&self, s: u8, t: u8) -> u8 {
        let q = Self::Q;
        if s < q && t < q { (s + t) % q } else { 0 }
    }

    fn opposite(&self, s: u8) -> u8 {
        let q = Self::Q;
        if s < q { (q - s) % q } else { 0 }
    }

    // Beside `sum` no closure for the two: `+` and `%` are as short as its call.
    fn product(&self, s: u8, h: u8) -> u8 {
        let q = Self::Q;
        if s < q && h < q { s * h % q } else { 0 }
    }
}

// Two symbols, modulo 2.
#[derive(Clone, Copy)]
pub struct Bits;

impl Modular for Bits {
    const COUNT: u8 = 2;

    ghost COUNT = { 2 };

    ghost bounded = { (lit≤ tt, lit≤ tt) };
}

// Three symbols, modulo 3.
#[derive(Clone, Copy)]
pub struct Thirds;

impl Modular for Thirds {
    const COUNT: u8 = 3;

    ghost COUNT = { 3 };

    ghost bounded = { (lit≤ tt, lit≤ tt) };
}

// Four symbols: the field of four elements, where every symbol is its own opposite.
#[derive(Clone, Copy)]
pub struct Quads;

// What 2 and 3 make of each symbol.
const TWICE: [u8; 4] = [0, 2, 3, 1];

const THRICE: [u8; 4] = [0, 3, 1, 2];

impl Alphabet for Quads {
    const Q: u8 = 4;

    ghost Q = { 4 };

    ghost symbols = { quads };

    ghost counted = { refl };

    ghost lawful = { quads_lawful };

    fn sum(&self, s: u8, t: u8) -> u8 {
        if s < 4 && t < 4 { s ^ t } else { 0 }
    }

    fn opposite(&self, s: u8) -> u8 {
        if s < 4 { s } else { 0 }
    }

    fn product(&self, s: u8, h: u8) -> u8 {
        if h >= 4 {
            return 0;
        }
        match s {
            1 => h,
            2 => TWICE[h as usize],
            3 => THRICE[h as usize],
            _ => 0,
        }
    }
}
