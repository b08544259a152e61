// The two disks of a pair.
ghost use Rattle.std.specs.Prelude.{◌≡◌};
ghost use Rattle.pair_log.specs.Sides.{number_of, other_side};

/// One of the two disks.
#[derive(Clone, Copy, Debug, PartialEq, Eq)]
pub enum Side {
    First,
    Second,
}

impl Side {
    /// 0 for the first one, 1 for the second one.
    pub fn number(self) -> u8
        ensures { result ≡ number_of self }
    {
        match self {
            Side::First => 0,
            Side::Second => 1,
        }
    }

    // The other one.
    pub(crate) fn other(self) -> Side
        ensures { result ≡ other_side self }
    {
        match self {
            Side::First => Side::Second,
            Side::Second => Side::First,
        }
    }
}
