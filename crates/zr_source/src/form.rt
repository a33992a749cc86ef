//! The test of the rules that every source keeps.
ghost use Rattle.std.specs.Prelude.{◌≡◌, ◌↔◌, ◌≤◌, ℕ, IsTrue, length, map, take};
ghost use Rattle.zr_game.specs.Counts.{var_count};
ghost use Rattle.zr_game.specs.Forms.{IsPlayer, IsPlayerForm};
ghost use Rattle.zr_game.specs.Players.{PlayerOf};
ghost use Rattle.zr_source.specs.Sources.{IsLeader, LeaderOf, bases, leader_of, leaders_of};
ghost use Rattle.zr_source.specs.SourceForms.{IsLeaderForm, IsSource};

use crate::followers::{are_followers, are_free, have_own_variable, stand_in_order};
use crate::names::{are_leader_names, are_var_names};
use crate::source::Leader;
use zr_game::is_player;

/// Whether the leaders are a source.
pub(crate) fn is_source(leaders: &[Leader]) -> bool
    ensures { IsTrue result ↔ IsSource (leaders_of leaders.now) }
{
    if leaders.is_empty() || leaders.len() > 16 {
        return false;
    }
    let counts = var_counts(leaders);
    are_bases(leaders, &counts[..leaders.len()]) & are_leaders(leaders) & are_leader_names(leaders)
}

/// How many variables each leader has, those of its followers included.
fn var_counts(leaders: &[Leader]) -> [usize; 16]
    requires { length leaders.now ≤ 16 }
    ensures { take (length leaders.now) result ≡ map var_count (bases (leaders_of leaders.now)) }
{
    let mut counts = [0; 16];
    for (i, leader) in leaders.iter().enumerate() {
        counts[i] = leader.base.vars.len();
    }
    counts
}

/// Whether the bases are players of one game.
fn are_bases(leaders: &[Leader], counts: &[usize]) -> bool
    requires { counts.now ≡ map var_count (bases (leaders_of leaders.now)) }
    ensures { IsTrue result ↔ ((i : ℕ) (player : PlayerOf)
        → IsPlayer (bases (leaders_of leaders.now)) i player
        → IsPlayerForm (bases (leaders_of leaders.now)) i player) }
{
    let mut all = true;
    for (i, leader) in leaders.iter().enumerate() {
        all &= is_player(&leader.base, i, counts);
    }
    all
}

/// Whether each leader's followers keep the rules, and its variables' names.
fn are_leaders(leaders: &[Leader]) -> bool
    ensures { IsTrue result ↔ ((i : ℕ) (leader : LeaderOf)
        → IsLeader (leaders_of leaders.now) i leader → IsLeaderForm leader) }
{
    let mut all = true;
    for leader in leaders {
        all &= is_leader(leader);
    }
    all
}

fn is_leader(leader: &Leader) -> bool
    ensures { IsTrue result ↔ IsLeaderForm (leader_of leader.now) }
{
    let columns = leader.base.vars.len();
    have_own_variable(&leader.followers, columns)
        & are_followers(&leader.followers, columns)
        & stand_in_order(&leader.followers, columns)
        & are_free(&leader.base.vars, &leader.followers)
        & are_var_names(&leader.base.vars)
}
