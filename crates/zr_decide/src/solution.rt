ghost use Rattle.std.specs.Prelude.{◌≡◌, ◌<◌, ◌≤◌, ℕ, IfErr, IfOk, List, Some, length, map, set};
ghost use Rattle.zr_game.specs.Games.{game_of};
ghost use Rattle.zr_best.specs.Works.{SpendsBestWork};
ghost use Rattle.zr_tree.specs.Trees.{Loose, TreeOf, preorder};
ghost use Rattle.zr_branch.specs.Replies.{CountsPivotsAlone};
ghost use Rattle.zr_cert.specs.Certs.{named_list, nodes_of};
ghost use Rattle.zr_cert.specs.Listed.{cert_of};
ghost use Rattle.zr_check.specs.Right.{IsRightCert};
ghost use Rattle.zr_comp.specs.Answers.{IsSolution};
ghost use Rattle.zr_system.specs.Asked.{AreLeaves};
ghost use Rattle.zr_system.specs.Regions.{leaves_of};
ghost use Rattle.zr_system.specs.System.{cell_count};
ghost use Rattle.zr_decide.specs.Answers.{IsVerdictWithin};
ghost use Rattle.zr_decide.specs.DrawnCerts.{IsDrawnCert};
ghost use Rattle.zr_decide.specs.Equilibria.{AreSettledLeaves};
ghost use Rattle.zr_decide.specs.Later.{IsBoundsStop, open_player, stop_with};
ghost use Rattle.zr_decide.specs.NamedCovers.{AreNamedOver};
ghost use Rattle.zr_decide.specs.Naming.{IsNamingStop};

use crate::certificate::certificate;
use crate::stop::DecideStop;
use crate::system::loosened;
use std::alloc::Global;
use zr_base::Point;
use zr_cert::{Cert, Verdict};
use zr_costs::{CostStop, bounds};
use zr_draw::draw;
use zr_game::{Game, Kind, Named};
use zr_io::Purse;
use zr_system::Leaves;
use zr_tree::Tree;

/// The certificate of the equilibrium that a solution draws, over the leaves of covers none of
/// which is loose.
///
/// Where it is open what a player pays at least, points and rays are named as if its cover were one
/// loose leaf.
pub(crate) fn equilibrium(
    alloc: Global,
    game: &Game,
    kind: Kind,
    covers: Vec<Tree>,
    leaves: &Leaves,
    x: &Point,
    purse: &mut Purse,
) -> Result<Cert, DecideStop>
    requires leaves { AreLeaves (game_of game.now) leaves.now }
    requires covers { AreSettledLeaves (game_of game.now) (map nodes_of covers.items)
        (leaves_of leaves.now) }
    requires cells { cell_count (game_of game.now) (leaves_of leaves.now) ≤ 16777216 }
    requires solution { IsSolution (game_of game.now) (leaves_of leaves.now) kind x.now }
    requires limit { purse.old.limit ≤ 1000000000 }
    ensures right { IfOk result (λ cert. (cert.kind ≡ kind)
        × IsRightCert (game_of game.now) (cert_of cert)) }
    ensures drawn { IfOk result (λ cert. IsDrawnCert (game_of game.now) (cert_of cert)) }
    ensures within { IfOk result (λ cert.
        IsVerdictWithin (game_of game.now) (cert_of cert).verdict) }
    ensures cause { IfErr result (IsBoundsStop (game_of game.now) kind purse.old purse.new) }
    ensures spends { SpendsBestWork (game_of game.now) purse.old purse.new }
{
    let profile = match draw(alloc, game, leaves, kind, x) {
        Ok(profile) => profile,
        Err(_) => return Err(DecideStop::NoMemory),
    };
    match bounds(alloc, game, &profile, purse) {
        Ok(bounds) => {
            let verdict = Verdict::Profile { profile, bounds };
            Ok(certificate(game, kind, verdict))
        }
        Err(stop) => match names_with(alloc, game, covers, &stop, purse) {
            Ok(named) => Err(stop_of(stop, named)),
            Err(stop) => Err(stop),
        },
    }
}

/// What is named where the bounds stopped so: where it is open what a player pays at least, what is
/// named as if its cover were one loose leaf.
fn names_with(
    alloc: Global,
    game: &Game,
    covers: Vec<Tree>,
    stop: &CostStop,
    purse: &mut Purse,
) -> Result<Vec<Vec<Named>>, DecideStop>
    requires player { (i : ℕ) → open_player stop.now ≡ Some i → i < length (game_of game.now) }
    requires covers { length covers.items ≡ length (game_of game.now) }
    ensures named { (trees : List TreeOf) → map preorder trees ≡ map nodes_of covers.items
        → (i : ℕ) → open_player stop.now ≡ Some i
        → IfOk result (λ lists. AreNamedOver (game_of game.now) (set trees i Loose)
        (map named_list lists.items)) }
    ensures cause { IfErr result (IsNamingStop (game_of game.now)) }
    ensures purse { CountsPivotsAlone purse.old purse.new }
{
    // What is read fits its type: the count so far is a `u64`.
    let _pivots = purse.pivots;
    match open_player(stop) {
        None => Ok(Vec::new(alloc)),
        Some(i) => loosened(alloc, game, covers, i, purse),
    }
}

/// The player of whom it is open what it pays at least.
fn open_player(stop: &CostStop) -> Option<u32>
    ensures { result ≡ open_player stop.now }
{
    match stop {
        CostStop::Endless {
            player,
            var: _,
            dir: _,
        } => Some(*player),
        CostStop::Spent | CostStop::Wide(_) | CostStop::Step(_) | CostStop::NoMemory => None,
    }
}

/// The stop of a decision whose bounds stopped so.
fn stop_of(stop: CostStop, named: Vec<Vec<Named>>) -> DecideStop
    ensures { result ≡ stop_with named stop }
{
    match stop {
        CostStop::Spent => DecideStop::Spent,
        CostStop::Wide(asked) => DecideStop::Wide(asked),
        CostStop::Step(wide) => DecideStop::Step(wide),
        CostStop::Endless { player, var, dir } => DecideStop::Endless {
            player,
            var,
            dir,
            named,
        },
        CostStop::NoMemory => DecideStop::NoMemory,
    }
}
