ghost use Rattle.std.specs.Prelude.{◌≡◌, IfOk};
ghost use Rattle.zr_source.specs.Sources.{leaders_of};
ghost use Rattle.zr_gen.specs.Families.{family_name, game_of_number};

use crate::following::leaders;
use crate::packing::knapsack;
use std::alloc::Global;
use zr_base::NoMemory;
use zr_source::Source;

/// A family of games, with a game for each number.
#[derive(Clone, Copy, Debug, PartialEq, Eq)]
pub enum Family {
    /// Knapsack games of 2 to 4 players and 4 to 12 items.
    Knapsack,
    /// Games of 2 to 5 leaders with a follower each.
    Leaders,
}

impl Family {
    /// The family's name, by which it is asked for.
    pub fn name(self) -> &'static str
        ensures { result.now ≡ family_name self }
    {
        match self {
            Family::Knapsack => "knapsack",
            Family::Leaders => "leaders",
        }
    }

    /// The family's game of a number, of which its size is made too: `2 + number mod 3` players and
    /// `4 + number mod 9` items, or `2 + number mod 4` leaders.
    ///
    /// # Errors
    ///
    /// `NoMemory` for want of memory.
    pub fn game(self, alloc: Global, number: u64) -> Result<Source, NoMemory>
        ensures { IfOk result (λ source.
            leaders_of source.leaders.items ≡ game_of_number self number) }
    {
        match self {
            Family::Knapsack => {
                let players = 2 + (number % 3) as u32;
                let items = 4 + (number % 9) as u32;
                knapsack(alloc, players, items, number)
            }
            Family::Leaders => leaders(alloc, 2 + (number % 4) as u32, number),
        }
    }
}
