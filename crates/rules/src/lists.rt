// Lists of costs and bytes.
ghost use Rattle.std.specs.Prelude.{◌≡◌, ℕ, ◌<◌, ◌≤◌, length, nat_lt, position, slice_index_or};

// The first N items, and `blank` past them where there are fewer.
pub fn padded<T: Copy, const N: usize>(blank: T, items: &[T]) -> [T; N]
    ensures len { length result ≡ N }
    ensures front { (k : ℕ) → k < N → slice_index_or result k blank ≡ slice_index_or items.now k blank }
    ensures whole { length items.now ≤ N → (k : ℕ) → slice_index_or result k blank ≡ slice_index_or items.now k blank }
{
    let mut padded = [blank; N];
    let filled = items.len().min(N);
    padded[..filled].copy_from_slice(&items[..filled]);
    padded
}

// The index of the first number above a limit.
pub fn first_above(limit: u16, numbers: &[u16]) -> Option<usize>
    ensures { result ≡ position (nat_lt limit) numbers.now }
{
    numbers.iter().position(|number| *number > limit)
}
