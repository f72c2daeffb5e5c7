// The index origin.
ghost use Rattle.std.specs.Prelude.{◌≡◌, ◌≤◌};
ghost use Rattle.apl_arrays.specs.Origins.{origin_number, origin_of};

/// The index origin: the number that counts the first element along an axis.
#[derive(Clone, Copy, Debug, PartialEq, Eq)]
pub enum Origin {
    /// Elements are counted from 0.
    Zero,
    /// Elements are counted from 1.
    One,
}

impl Origin {
    /// The origin that a number names: 0 or 1. No other number names one.
    pub fn of(number: usize) -> Option<Origin>
        ensures { result ≡ origin_of number }
    {
        match number {
            0 => Some(Origin::Zero),
            1 => Some(Origin::One),
            _ => None,
        }
    }

    /// Its number, 0 or 1.
    #[inline]
    pub fn number(self) -> usize
        ensures value { result ≡ origin_number self }
        ensures few { result ≤ 1 }
    {
        match self {
            Origin::Zero => 0,
            Origin::One => 1,
        }
    }
}
