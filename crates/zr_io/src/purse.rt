ghost use Rattle.std.specs.Prelude.{◌≡◌, ◌+◌, ◌≤◌, ◌↔◌, IsErr, OnOk, OnErr};

use thiserror::Error;

/// A unit of work. Branches and cuts are paid for; pivots are only counted.
#[derive(Clone, Copy, Debug, PartialEq, Eq)]
pub enum Unit {
    /// A pivot of the simplex method.
    Pivot,
    /// A split of a search, or a point or ray that separation adds.
    Branch,
    /// A cut that is added.
    Cut,
}

/// The purse was at its limit when a unit was due.
#[derive(Clone, Copy, Debug, PartialEq, Eq, Drop, Error)]
#[error("the limit of branches and cuts is reached")]
pub struct Spent;

/// Counts units of work. Branches and cuts are counted up to a limit; pivots are counted beside them,
/// up to the last value of a `u64`.
#[derive(Clone, Copy, Debug, PartialEq, Eq)]
pub struct Purse {
    /// The most branches and cuts that may be spent.
    pub limit: u64,
    /// The pivots so far.
    pub pivots: u64,
    /// The branches so far.
    pub branches: u64,
    /// The cuts so far.
    pub cuts: u64,
    pub ghost within: { branches + cuts ≤ limit },
}

impl Purse {
    ghost use Rattle.zr_io.specs.Purses.{IsCounted, Spends, StartsAt, counted};

    /// A purse with nothing counted yet.
    pub fn new(limit: u64) -> Purse
        ensures { StartsAt result limit }
    {
        Purse {
            limit,
            pivots: 0,
            branches: 0,
            cuts: 0,
        }
    }

    /// Counts one unit. The number of pivots stands still at the last value of a `u64`.
    ///
    /// # Errors
    ///
    /// `Spent` where a branch or a cut is due and the branches and cuts so far equal the limit. The
    /// purse is then unchanged. A pivot is never refused.
    pub fn spend(&mut self, unit: Unit) -> Result<(), Spent>
        ensures ok { OnOk result (Spends self.old self.new unit) }
        ensures spent { IsErr result ↔ (IsCounted unit × (counted self.old ≡ self.old.limit)) }
        ensures err { OnErr result (self.new ≡ self.old) }
    {
        let is_full = self.branches + self.cuts == self.limit;
        match unit {
            Unit::Pivot => self.pivots = self.pivots.saturating_add(1),
            _ if is_full => return Err(Spent),
            Unit::Branch => self.branches += 1,
            Unit::Cut => self.cuts += 1,
        }
        Ok(())
    }
}

#[cfg(test)]
mod tests {
    use super::*;

    #[test]
    fn units_are_spent_to_the_limit(rt: HostRuntime) {
        let mut purse = Purse::new(2);
        for unit in [Unit::Pivot, Unit::Cut, Unit::Branch, Unit::Pivot] {
            assert_eq!(rt; purse.spend(unit), Ok(()), "{unit:?}");
        }
        let full = purse;
        assert_eq!(rt; (full.pivots, full.branches, full.cuts), (2, 1, 1));
        for unit in [Unit::Branch, Unit::Cut] {
            assert_eq!(rt; purse.spend(unit), Err(Spent), "{unit:?}");
        }
        assert_eq!(rt; purse, full);
        assert_eq!(rt; purse.spend(Unit::Pivot), Ok(()));
        assert_eq!(rt; purse.pivots, 3);
    }
}
