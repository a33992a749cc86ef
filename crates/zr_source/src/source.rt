ghost use Rattle.std.specs.Prelude.{◌≡◌, ◌↔◌, IsOk, IfOk, IfErr};
ghost use Rattle.zr_source.specs.Sources.{leaders_of};
ghost use Rattle.zr_source.specs.SourceForms.{IsSource};
ghost use Rattle.zr_source.specs.SourceFormLaws.{IsSource-prop};

use crate::form::is_source;
use smallvec::SmallVec;
use zr_base::Row;
use zr_game::Player;

/// A follower of a leader: a linear program over `count` of the leader's variables, from number
/// `first` on, which are its own.
///
/// It minimises, over its own variables of at least 0 that meet `rows`, the sum of its numbers in
/// `cost` times its own variables, and of each number in `cross` times the own variable and the
/// other variable that it names. All other variables are given to it; terms of `cost` in them
/// count for nothing.
#[derive(Debug, Drop)]
pub struct Follower {
    pub first: u32,
    pub count: u32,
    pub rows: Vec<Row>,
    pub cost: SmallVec<(u32, i64), 8>,
    /// An own variable, another variable of the same leader, and a number.
    pub cross: Vec<(u32, u32, i64)>,
}

/// A player with followers. `base.vars` holds the leader's own variables, and then those of its
/// followers, follower by follower.
#[derive(Debug, Drop)]
pub struct Leader {
    pub base: Player,
    pub followers: Vec<Follower>,
}

/// A game as read: 1 to 16 leaders, whose bases are a game.
///
/// Names have 1 to 32 ASCII letters, digits or `_`; those of the leaders differ, and so do those of
/// a leader's variables. A leader has a variable of its own, and at most 16 followers, whose
/// variables are the last, continuous, with low 0 and without an upper bound. A follower has at
/// most 32 rows and 65,536 cross terms, over the leader's variables: numbers are within
/// ±1,000,000,000, and those of terms aren't 0; terms stand in the order of their variables, and
/// cross terms in the order of the own and then of the other variable, which isn't the follower's
/// own.
#[derive(Debug, Drop)]
pub struct Source {
    /// The leaders in the order of their numbers.
    pub leaders: Vec<Leader>,
    ghost sound: { IsSource (leaders_of leaders.items) } by { IsSource-prop (leaders_of leaders.items) },
}

impl Source {
    /// The source of these leaders, or the list back exactly where they break a rule of sources.
    pub fn new(leaders: Vec<Leader>) -> Result<Source, Vec<Leader>>
        ensures valid { IsOk result ↔ IsSource (leaders_of leaders.items) }
        ensures ok { IfOk result (λ source. source.leaders.items ≡ leaders.items) }
        ensures err { IfErr result (λ list. list.items ≡ leaders.items) }
    {
        if is_source(&leaders) {
            Ok(Source { leaders })
        } else {
            Err(leaders)
        }
    }
}
