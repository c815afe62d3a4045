// A range of offsets, and what may be its tag.

/// What a range carries. Ranges that follow one another with the same tag become one.
pub trait Tag: Copy {
    ghost use Rattle.std.specs.Prelude.{◌≡◌, Bool, true};

    ghost same: { Self → Self → Bool };

    /// Whether two tags are the same.
    fn is_same(self, other: Self) -> bool
        ensures { result ≡ same self other };

    ghost same_only: { (a b : Self) → same a b ≡ true → a ≡ b };
}

/// Consecutive offsets with one tag: the first and the last of them.
#[derive(Clone, Copy, Debug, PartialEq, Eq)]
pub struct Range<T> {
    pub first: u64,
    pub last: u64,
    pub tag: T,
}

impl Tag for () {
    ghost use Rattle.std.specs.Prelude.{refl};
    ghost use Rattle.udt_ranges.specs.Merging.{untagged};

    ghost same = { untagged };

    fn is_same(self, _other: ()) -> bool {
        true
    }

    ghost same_only = { λ _ _ _. refl };
}
