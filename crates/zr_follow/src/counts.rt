//! How many variables and pairs expanded leaders have.
ghost use Rattle.std.specs.Prelude.{◌≡◌, ◌≤◌, ◌↔◌, IsTrue, length, map};
ghost use Rattle.std.specs.List.{All};
ghost use Rattle.zr_source.specs.Sources.{follower_of, leader_of};
ghost use Rattle.zr_source.specs.SourceForms.{IsFollowerForm, IsLeaderForm};
ghost use Rattle.zr_follow.specs.Expansion.{IsWithinCounts, added_pairs, multipliers};

use zr_source::{Follower, Leader};

/// Whether the expanded leader has at most 64 variables and 32 pairs.
pub(crate) fn is_within_counts(leader: &Leader) -> bool
    requires form { IsLeaderForm (leader_of leader.now) }
    requires vars { length leader.now.base.vars.items ≤ 64 }
    requires pairs { length leader.now.base.pairs.items ≤ 32 }
    ensures { IsTrue result ↔ IsWithinCounts (leader_of leader.now) }
{
    leader.base.vars.len() + multiplier_count(&leader.followers) <= 64
        && leader.base.pairs.len() + pair_count(&leader.followers, leader.base.vars.len()) <= 32
}

/// One multiplier per row.
pub(crate) fn multiplier_count(followers: &[Follower]) -> usize
    requires few { length followers.now ≤ 16 }
    requires rows { All (λ f. length f.rows ≤ 32) (map follower_of followers.now) }
    ensures value { result ≡ multipliers (map follower_of followers.now) }
    ensures most { result ≤ 512 }
{
    let mut sum = 0;
    for follower in followers {
        sum += follower.rows.len();
    }
    sum
}

/// A pair per variable and per row of the followers of a leader with so many variables.
fn pair_count(followers: &[Follower], columns: usize) -> usize
    requires few { length followers.now ≤ 16 }
    requires columns { columns ≤ 64 }
    requires forms { All (IsFollowerForm columns) (map follower_of followers.now) }
    ensures value { result ≡ added_pairs (map follower_of followers.now) }
    ensures most { result ≤ 1536 }
{
    let mut sum = 0;
    for follower in followers {
        sum += follower.count as usize + follower.rows.len();
    }
    sum
}
