//! The expansion of sources.
ghost use Rattle.std.specs.Prelude.{pos, ◌<ℤ◌, ◌≡◌, ◌↔◌, ◌<◌, ◌≤◌, ℕ, Some, None, Err, IfOk, IfSome, List, length, map, ◌++◌};
ghost use Rattle.std.specs.List.{All};
ghost use Rattle.zr_game.specs.Games.{game_of};
ghost use Rattle.zr_game.specs.Players.{PlayerOf, pair_of, player_of, players_of};
ghost use Rattle.zr_base.specs.Points.{IsSamePoint, PointOf};
ghost use Rattle.zr_game.specs.Forms.{IsPlayer};
ghost use Rattle.zr_game.specs.Feasible.{IsFeasible};
ghost use Rattle.zr_game.specs.Costs.{cost_of};
ghost use Rattle.zr_game.specs.Profiles.{IsOfKind, IsProfile, Profile, expected, expected_cost};
ghost use Rattle.zr_game.specs.Equilibria.{HasNoEquilibrium, IsEquilibrium};
ghost use Rattle.zr_game.specs.declared.kind.Kind.{Kind};
ghost use Rattle.zr_source.specs.Optimal.{IsLeaderFeasible};
ghost use Rattle.zr_source.specs.SourceEquilibria.{HasNoSourceEquilibrium, IsSourceEquilibrium, leader_cost};
ghost use Rattle.zr_follow.specs.BaseParts.{base_part, base_points, base_profile};
ghost use Rattle.zr_follow.specs.SameProfiles.{IsSameProfile};
ghost use Rattle.zr_source.specs.Sources.{IsLeader, LeaderOf, leader_of, leaders_of};
ghost use Rattle.zr_source.specs.SourceForms.{IsLeaderForm, IsSource};
ghost use Rattle.zr_follow.specs.Expansion.{IsFirstPast, IsWithinCounts, all_pairs, expanded, expansion};

use crate::conditions::add_all_pairs;
use crate::copies::{add_multipliers, copied_pairs, copied_rows, copied_vars};
use crate::counts::{is_within_counts, multiplier_count};
use smallvec::SmallVec;
use std::alloc::{AllocError, Global};
use zr_game::{Game, Pair, Player};
use zr_source::{Leader, Source};

/// Why a source isn't expanded.
#[derive(Clone, Copy, Debug, PartialEq, Eq)]
pub enum FollowError {
    /// The leader of this number is the first that would have more than 64 variables or 32 pairs.
    Count(u32),
    NoMemory,
}

/// The game in which each leader has its followers' optimality as pairs.
///
/// Each follower gets a multiplier for each of its rows, which is a continuous variable with low 0
/// and without an upper bound; a pair for each of its variables, with its slope there plus its
/// rows' numbers times their multipliers; and a pair for each of its rows, with its multiplier and
/// what the row leaves. A leader's multipliers stand after its variables, follower by follower; its
/// followers' pairs stand after its own, for each follower first those of the variables. All else
/// of a leader stays as it is. These are the conditions of A. W. Tucker and H. W. Kuhn (1951).
///
/// So a point of a leader is feasible, its followers' answers being optimal, exactly where some
/// multipliers make it a feasible point of the player. Multipliers cost nothing: a player's cost,
/// and so its expected cost, is the leader's without them. A profile of the game is an equilibrium
/// exactly where it is one of the source without its multipliers; each equilibrium of the source is
/// some equilibrium of the game, of the same kind, with the multipliers left out; and the game has
/// none of a kind exactly where the source has none.
pub fn expand(alloc: Global, source: &Source) -> Result<Game, FollowError>
    ensures ok { IfOk result (λ game.
        game_of game ≡ expansion (leaders_of source.now.leaders.items)) }
    ensures feasible { IfOk result (λ game. (i : ℕ) (leader : LeaderOf) (player : PlayerOf)
        → IsLeader (leaders_of source.now.leaders.items) i leader
        → IsPlayer (game_of game) i player → (x : PointOf) → pos 0 <ℤ x.den
        → (IsLeaderFeasible leader x
        ↔ ((z : PointOf) × IsSamePoint (base_part leader z) x × IsFeasible player z))) }
    ensures costs { IfOk result (λ game. (i : ℕ) (leader : LeaderOf) (player : PlayerOf)
        → IsLeader (leaders_of source.now.leaders.items) i leader
        → IsPlayer (game_of game) i player → (points : List PointOf)
        → length points ≡ length source.now.leaders.items → cost_of player i points
        ≡ leader_cost leader i (base_points (leaders_of source.now.leaders.items) points)) }
    ensures expected_costs { IfOk result (λ game. (i : ℕ) (leader : LeaderOf) (player : PlayerOf)
        → IsLeader (leaders_of source.now.leaders.items) i leader
        → IsPlayer (game_of game) i player → (profile : Profile)
        → length profile ≡ length source.now.leaders.items → expected_cost player i profile
        ≡ expected (leader_cost leader i)
        (base_profile (leaders_of source.now.leaders.items) profile)) }
    ensures equilibria { IfOk result (λ game. (profile : Profile)
        → IsProfile (game_of game) profile → (IsEquilibrium (game_of game) profile
        ↔ IsSourceEquilibrium (leaders_of source.now.leaders.items)
        (base_profile (leaders_of source.now.leaders.items) profile))) }
    ensures lifts { IfOk result (λ game. (kind : Kind) (profile : Profile)
        → IsOfKind kind profile
        → IsSourceEquilibrium (leaders_of source.now.leaders.items) profile
        → ((lift : Profile) × IsOfKind kind lift × IsEquilibrium (game_of game) lift
        × IsSameProfile (base_profile (leaders_of source.now.leaders.items) lift) profile)) }
    ensures none { IfOk result (λ game. (kind : Kind) → (HasNoEquilibrium (game_of game) kind
        ↔ HasNoSourceEquilibrium (leaders_of source.now.leaders.items) kind)) }
    ensures count { (i : ℕ) → (result ≡ Err (FollowError.Count i))
        ↔ IsFirstPast (leaders_of source.now.leaders.items) i }
{
    if let Some(i) = first_past(&source.leaders) {
        return Err(FollowError::Count(i));
    }
    match expanded_players(alloc, &source.leaders) {
        Err(_) => Err(FollowError::NoMemory),
        Ok(players) => Ok(Game::new(players).unwrap()),
    }
}

/// The first leader that would have too many variables or pairs.
fn first_past(leaders: &[Leader]) -> Option<u32>
    requires { IsSource (leaders_of leaders.now) }
    ensures some { IfSome result (IsFirstPast (leaders_of leaders.now)) }
    ensures none { result ≡ None → (k : ℕ) (leader : LeaderOf)
        → IsLeader (leaders_of leaders.now) k leader → IsWithinCounts leader }
{
    for (i, leader) in leaders.iter().enumerate() {
        if !is_within_counts(leader) {
            return Some(i as u32);
        }
    }
    None
}

/// The leaders, each expanded.
fn expanded_players(alloc: Global, leaders: &[Leader]) -> Result<Vec<Player>, AllocError>
    requires { IsSource (leaders_of leaders.now) }
    ensures { IfOk result (λ players.
        players_of players.items ≡ expansion (leaders_of leaders.now)) }
{
    let mut players = Vec::new(alloc);
    for leader in leaders {
        players.push(expanded_player(alloc, leader)?)?;
    }
    Ok(players)
}

/// The leader, expanded.
fn expanded_player(alloc: Global, leader: &Leader) -> Result<Player, AllocError>
    requires form { IsLeaderForm (leader_of leader.now) }
    requires vars { length leader.now.base.vars.items ≤ 64 }
    ensures { IfOk result (λ player. player_of player ≡ expanded (leader_of leader.now)) }
{
    let name = leader.base.name.clone()?;
    let mut vars = copied_vars(alloc, &leader.base.vars)?;
    add_multipliers(alloc, &mut vars, multiplier_count(&leader.followers))?;
    let rows = copied_rows(alloc, &leader.base.rows)?;
    let pairs = expanded_pairs(alloc, leader)?;
    let cost = SmallVec::from_slice(alloc, leader.base.cost.as_slice())?;
    let cross = leader.base.cross.clone()?;
    let others = leader.base.others.clone()?;
    Ok(Player {
        name,
        vars,
        rows,
        pairs,
        cost,
        cross,
        others,
    })
}

/// The leader's pairs, and then those of its followers.
fn expanded_pairs(alloc: Global, leader: &Leader) -> Result<Vec<Pair>, AllocError>
    requires form { IsLeaderForm (leader_of leader.now) }
    requires vars { length leader.now.base.vars.items ≤ 64 }
    ensures { IfOk result (λ pairs. map pair_of pairs.items
        ≡ (leader_of leader.now).base.pairs ++ all_pairs
        (length (leader_of leader.now).base.vars) (leader_of leader.now).followers) }
{
    let mut pairs = copied_pairs(alloc, &leader.base.pairs)?;
    let columns = leader.base.vars.len();
    add_all_pairs(
        alloc,
        &mut pairs,
        &leader.followers,
        columns as u32,
        columns,
    )?;
    Ok(pairs)
}
