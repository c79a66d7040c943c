//! Integers as they are written.
ghost use Rattle.std.specs.Prelude.{◌≡◌, ◌≤ℤ◌, pos, neg_ℤ, negsuc, int_lt};
ghost use Rattle.std.specs.Ordering.{int_eq};
ghost use Rattle.structure_entries.specs.WholeViews.{whole_view};

/// An integer by its sign and its digits, which may be more than 63 bits take.
#[derive(Clone, Copy)]
pub struct Whole {
    pub negative: bool,
    pub digits: u64,
}

impl Whole {
    /// The integer, which lies well within 128 bits.
    pub fn value(self) -> i128
        ensures value { result ≡ whole_view self }
        ensures low { negsuc 18446744073709551615 ≤ℤ result }
        ensures high { result ≤ℤ pos 18446744073709551615 }
    {
        if self.negative {
            -i128::from(self.digits)
        } else {
            i128::from(self.digits)
        }
    }

    pub fn same(self, other: Whole) -> bool
        ensures { result ≡ int_eq (whole_view self) (whole_view other) }
    {
        self.value() == other.value()
    }

    pub fn is_below(self, other: Whole) -> bool
        ensures { result ≡ int_lt (whole_view self) (whole_view other) }
    {
        self.value() < other.value()
    }
}
