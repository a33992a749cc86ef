ghost use Rattle.std.specs.Prelude.{◌≡◌, ◌↔◌, ◌^◌, ◌<◌, IfOk, IsTrue, length, map};
ghost use Rattle.std.specs.List.{All};
ghost use Rattle.zr_game.specs.Games.{game_of};
ghost use Rattle.zr_game.specs.Named.{named_of};
ghost use Rattle.zr_cert.specs.Certs.{cases_of, named_list, nodes_of, verdict_of};
ghost use Rattle.zr_cert.specs.Forms.{IsCoverForm};
ghost use Rattle.zr_cert.specs.Lines.{named_lines, sum_lines};
ghost use Rattle.zr_check.specs.Covers.{IsItemOfLength};
ghost use Rattle.zr_check.specs.CoverPlaces.{AreOfLengths, FitPlayers, HasCoverPlaces, HasPlacesFor};

use crate::room::CoverRoom;
use std::alloc::Global;
use zr_base::NoMemory;
use zr_cases::Refutation;
use zr_cert::{Cert, Verdict};
use zr_game::{Game, Named};
use zr_refute::{CaseRoom, leaves_over};
use zr_tree::Tree;

/// Room for a verdict of covers, where there is one and it fits the players.
pub(crate) fn room_for_covers(
    alloc: Global,
    game: &Game,
    cert: &Cert,
) -> Result<Option<CoverRoom>, NoMemory>
    ensures { IfOk result (HasPlacesFor (game_of game.now) (verdict_of cert.now.verdict)) }
{
    match &cert.verdict {
        Verdict::NoneCover {
            covers,
            named,
            proof,
        } => room_over(alloc, game, covers, named, proof),
        Verdict::Profile {
            profile: _,
            bounds: _,
        }
        | Verdict::NoneEmpty { player: _, tree: _ }
        | Verdict::NoneBoxes { tree: _ } => Ok(None),
    }
}

/// The leaves of the covers and room for the refutation over them, where the covers and what is
/// named fit the players.
fn room_over(
    alloc: Global,
    game: &Game,
    covers: &[Tree],
    named: &[Vec<Named>],
    proof: &Refutation,
) -> Result<Option<CoverRoom>, NoMemory>
    requires form { (players : _) × IsCoverForm players (map nodes_of covers.now)
        (map named_list named.now) (cases_of proof.now) }
    requires lines { sum_lines named_lines (map named_list named.now) < 2 ^ 32 }
    ensures { IfOk result (HasCoverPlaces (game_of game.now) (map nodes_of covers.now)
        (map named_list named.now) (cases_of proof.now)) }
{
    if !fit_players(game, covers, named) {
        return Ok(None);
    }
    let leaves = leaves_over(alloc, game, covers, named)?;
    let cases = CaseRoom::new(alloc, game, &leaves, proof.nodes.len())?;
    Ok(Some(CoverRoom { leaves, cases }))
}

/// Whether there is a cover and a list of items for each player, and the items are of the players'
/// lengths.
fn fit_players(game: &Game, covers: &[Tree], named: &[Vec<Named>]) -> bool
    ensures { IsTrue result ↔ FitPlayers (game_of game.now) (map nodes_of covers.now)
        (map named_list named.now) }
{
    covers.len() == game.players.len()
        && named.len() == game.players.len()
        && are_of_lengths(game, named)
}

/// Whether each item has as many numbers as its player has variables.
fn are_of_lengths(game: &Game, named: &[Vec<Named>]) -> bool
    requires { length named.now ≡ length (game_of game.now) }
    ensures { IsTrue result ↔ AreOfLengths (game_of game.now) (map named_list named.now) }
{
    let mut all = true;
    for i in 0..named.len() {
        all &= are_of_length(&named[i], game.players[i].vars.len());
    }
    all
}

/// Whether each item has so many numbers.
fn are_of_length(items: &[Named], vars: usize) -> bool
    ensures { IsTrue result ↔ All (IsItemOfLength vars) (map named_of items.now) }
{
    let mut all = true;
    for item in items {
        all &= is_of_length(item, vars);
    }
    all
}

fn is_of_length(item: &Named, vars: usize) -> bool
    ensures { IsTrue result ↔ IsItemOfLength vars (named_of item.now) }
{
    match item {
        Named::Point(point) => point.len() == vars,
        Named::Ray { base, dir } => base.len() == vars && dir.len() == vars,
    }
}
