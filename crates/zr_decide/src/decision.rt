ghost use Rattle.std.specs.Prelude.{◌≡◌, ◌<◌, ◌⊎◌, ◌+◌, ◌*◌, ◌≤◌, IfErr, IfOk, IfSome, None, length, map};
ghost use Rattle.zr_game.specs.Games.{game_of};
ghost use Rattle.zr_cert.specs.Certs.{nodes_of};
ghost use Rattle.zr_cert.specs.Lines.{sum_lines, tree_lines};
ghost use Rattle.zr_cert.specs.Listed.{cert_of};
ghost use Rattle.zr_check.specs.Right.{IsRightCert};
ghost use Rattle.zr_decide.specs.Answers.{HasNoWholeRay, IsBoxVerdict, IsByBoxes, IsEndless, IsVerdictWithin, IsWithin, MayLackBoxes};
ghost use Rattle.zr_decide.specs.Causes.{IsDecideCause};
ghost use Rattle.zr_decide.specs.Coverings.{AreCoversTo};
ghost use Rattle.zr_decide.specs.DrawnCerts.{IsDrawnCert};
ghost use Rattle.zr_decide.specs.Later.{IsLaterCause, SpendsLaterWork};
ghost use Rattle.zr_decide.specs.Works.{IsBelowMostWork, SpendsDecideWork};
ghost use Rattle.zr_works.specs.Most.{AreAllBounded, most_work};

use crate::boxes::box_tree;
use crate::certificate::certificate;
use crate::covers::{Covering, Covers, covers_of};
use crate::solution::equilibrium;
use crate::stop::DecideStop;
use crate::system::{named_system, solve};
use std::alloc::Global;
use zr_base::NoMemory;
use zr_cert::{Cert, Verdict};
use zr_comp::Found;
use zr_game::{Game, Kind};
use zr_io::Purse;

/// A certificate for the game: an equilibrium of the kind, or what shows that there is none.
///
/// For the pure kind boxes are searched first, with a purse of their own of the same limit. Then
/// each player's points are covered, points and rays are named of each player whose cover is one
/// loose leaf, and the system over the leaves of the covers is solved or refuted. The purse pays the
/// branches of covers, choices and bounds, and its limit is at most 1,000,000,000. Where all whole
/// variables have both bounds, fewer branches are spent than `most_work` tells by the game's sizes,
/// and `Spent` comes only where less than that was left.
///
/// A certificate is drawn: its trees are open, its multipliers and points are those of bases of the
/// questions that were asked, and its profile is one that a solution draws.
///
/// # Errors
///
/// `Spent` where a unit is due and the purse is at its limit: there is then more work than the purse
/// had left. `Wide` where a linear program is stuck, and `Step` where a step of a cost is too wide.
/// `Endless` where a ray of a player's relaxation changes a whole variable, so that its cover is one
/// loose leaf, and the system has a solution. `TooLarge` where the system over the leaves has more
/// than 16,777,216 cells with nothing named; no item is named that would make them more. `NoMemory`
/// for want of memory.
pub fn decide(alloc: Global, game: &Game, kind: Kind, purse: &mut Purse) -> Result<Cert, DecideStop>
    requires limit { purse.old.limit ≤ 1000000000 }
    ensures right { IfOk result (λ cert. (cert.kind ≡ kind)
        × IsRightCert (game_of game.now) (cert_of cert)) }
    ensures drawn { IfOk result (λ cert. IsDrawnCert (game_of game.now) (cert_of cert)) }
    ensures cause { IfErr result (IsDecideCause (game_of game.now) kind purse.old purse.new) }
    ensures boxes { kind ≡ Kind.Pure
        → IsByBoxes result ⊎ MayLackBoxes (game_of game.now) purse.old.limit }
    ensures within { IsWithin (game_of game.now) result }
    ensures ended { HasNoWholeRay (game_of game.now) → IsEndless result → ⊥ }
    ensures spends { SpendsDecideWork (game_of game.now) kind purse.old purse.new }
    ensures small { AreAllBounded (game_of game.now)
        → purse.new.branches < purse.old.branches + most_work (game_of game.now) }
    ensures below { IfErr result (λ stop. stop ≡ DecideStop.Spent
        → IsBelowMostWork (game_of game.now) purse.old) }
{
    match boxes_cert(alloc, game, kind, purse.limit) {
        Err(_) => Err(DecideStop::NoMemory),
        Ok(Some(cert)) => Ok(cert),
        Ok(None) => decide_by_covers(alloc, game, kind, purse),
    }
}

/// The certificate of a box tree, where the kind is pure and the search finds one.
fn boxes_cert(alloc: Global, game: &Game, kind: Kind, limit: u64) -> Result<Option<Cert>, NoMemory>
    requires limit { limit ≤ 1000000000 }
    ensures right { IfOk result (λ found. IfSome found (λ cert. (cert.kind ≡ kind)
        × IsRightCert (game_of game.now) (cert_of cert))) }
    ensures drawn { IfOk result (λ found. IfSome found (λ cert.
        IsDrawnCert (game_of game.now) (cert_of cert))) }
    ensures boxes { IfOk result (λ found. IfSome found (λ cert.
        IsBoxVerdict (cert_of cert).verdict)) }
    ensures none { kind ≡ Kind.Pure → IfOk result (λ found. found ≡ None
        → MayLackBoxes (game_of game.now) limit) }
{
    match kind {
        Kind::Mixed => Ok(None),
        Kind::Pure => match box_tree(alloc, game, limit) {
            Err(_) => Err(NoMemory),
            Ok(None) => Ok(None),
            Ok(Some(tree)) => {
                let verdict = Verdict::NoneBoxes { tree };
                Ok(Some(certificate(game, kind, verdict)))
            }
        },
    }
}

/// The decision by covers of the players' points.
fn decide_by_covers(
    alloc: Global,
    game: &Game,
    kind: Kind,
    purse: &mut Purse,
) -> Result<Cert, DecideStop>
    requires limit { purse.old.limit ≤ 1000000000 }
    ensures right { IfOk result (λ cert. (cert.kind ≡ kind)
        × IsRightCert (game_of game.now) (cert_of cert)) }
    ensures drawn { IfOk result (λ cert. IsDrawnCert (game_of game.now) (cert_of cert)) }
    ensures within { IfOk result (λ cert.
        IsVerdictWithin (game_of game.now) (cert_of cert).verdict) }
    ensures cause { IfErr result (IsDecideCause (game_of game.now) kind purse.old purse.new) }
    ensures spends { SpendsDecideWork (game_of game.now) kind purse.old purse.new }
{
    match covers_of(alloc, game, purse) {
        Err(stop) => Err(stop),
        Ok(Covering::Empty { player, tree }) => {
            let verdict = Verdict::NoneEmpty { player, tree };
            Ok(certificate(game, kind, verdict))
        }
        Ok(Covering::All(covers)) => decide_over(alloc, game, kind, covers, purse),
    }
}

/// The decision over the leaves of covers.
fn decide_over(
    alloc: Global,
    game: &Game,
    kind: Kind,
    covers: Covers,
    purse: &mut Purse,
) -> Result<Cert, DecideStop>
    requires covers { AreCoversTo (game_of game.now) (length (game_of game.now))
        covers.trees.items covers.ray }
    requires few { sum_lines tree_lines (map nodes_of covers.trees.items)
        ≤ length (game_of game.now) + 2 * purse.old.branches }
    requires limit { purse.old.limit ≤ 1000000000 }
    ensures right { IfOk result (λ cert. (cert.kind ≡ kind)
        × IsRightCert (game_of game.now) (cert_of cert)) }
    ensures drawn { IfOk result (λ cert. IsDrawnCert (game_of game.now) (cert_of cert)) }
    ensures within { IfOk result (λ cert.
        IsVerdictWithin (game_of game.now) (cert_of cert).verdict) }
    ensures cause { IfErr result (IsLaterCause (game_of game.now) kind purse.old purse.new) }
    ensures spends { SpendsLaterWork (game_of game.now) kind purse.old purse.new }
{
    let Covers { trees, ray } = covers;
    let (named, leaves) = match named_system(alloc, game, &trees, purse) {
        Ok(system) => system,
        Err(stop) => return Err(stop),
    };
    match solve(alloc, game, &leaves, kind, purse) {
        Err(stop) => Err(stop),
        Ok(Found::Refuted(proof)) => {
            let verdict = Verdict::NoneCover {
                covers: trees,
                named,
                proof,
            };
            Ok(certificate(game, kind, verdict))
        }
        Ok(Found::Solved(x)) => match ray {
            Some(ray) => Err(DecideStop::Endless {
                player: ray.player,
                var: ray.var,
                dir: ray.dir,
                named,
            }),
            None => equilibrium(alloc, game, kind, trees, &leaves, &x, purse),
        },
    }
}
