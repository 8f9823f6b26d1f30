// Which of two items comes out first.
ghost use Rattle.std.specs.Prelude.{◌≡◌, Bool};
ghost use Rattle.std.specs.Cmp.{IsStrictWeakOrder};

// A ranking means its `before`, a strict weak order: items that neither ranks before the other may differ.
pub trait Ranking<T> {
    ghost before: { Self → T → T → Bool };

    fn before(&self, a: T, b: T) -> bool
        ensures { result ≡ before self.now a b };

    ghost orders: { (s : Self) → IsStrictWeakOrder (before s) };
}
