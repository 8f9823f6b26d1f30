// What a file says, with its lists still in the file: no `Result` is to hold an array.
ghost use Rattle.std.specs.Prelude.{◌≡◌, ℕ, ◌*◌, ◌%◌, ◌<◌, ◌≤◌, length, slice_index};
ghost use Rattle.checkfile.specs.Tests.{pair};

use crate::sizes::Sizes;
use rules::length::Length;
use std::array;

// A check table: symbols below q, those of the first place first.
#[derive(Drop)]
pub(crate) struct LentTable<'a> {
    pub(crate) sizes: Sizes,
    pub(crate) symbols: &'a [u8],
    ghost long: { length symbols.now ≡ sizes.places.n * sizes.r },
    ghost below: { (k : ℕ) → k < sizes.places.n * sizes.r → slice_index symbols.now k < sizes.q },
}

// The costs of so many places, two bytes each.
#[derive(Drop)]
pub(crate) struct LentCosts<'a> {
    pub(crate) places: Length,
    pub(crate) bytes: &'a [u8],
    ghost long: { length bytes.now ≡ 2 * places.n },
    ghost affordable: { (k : ℕ) → k < places.n → pair bytes.now (2 * k) ≤ 1000 },
}

// The rule of so many places.
#[derive(Drop)]
pub(crate) enum LentRule<'a> {
    Plain(Length),
    Weight(Length),
    Cost(LentCosts<'a>),
}

// Number k of those that two bytes each make, the high one first; 0 past them.
fn number_at(bytes: &[u8], k: usize) -> u16
    requires { length bytes.now % 2 ≡ 0 }
    ensures { result ≡ pair bytes.now (2 * k) }
{
    match bytes.chunks_exact(2).nth(k) {
        Some([hi, lo]) => u16::from_be_bytes([*hi, *lo]),
        _ => 0,
    }
}

// The first 24 of those numbers, and 0 past them, in fixed memory.
pub(crate) fn numbers(bytes: &[u8]) -> [u16; 24]
    requires { length bytes.now % 2 ≡ 0 }
    ensures len { length result ≡ 24 }
    ensures items { (k : ℕ) → k < 24 → slice_index result k ≡ pair bytes.now (2 * k) }
{
    array::from_fn(|k| number_at(bytes, k))
}
