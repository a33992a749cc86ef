ghost use Rattle.std.specs.Prelude.{◌≡◌, ◌+◌, ◌^◌, ◌<◌, ◌≤◌, IfOk, IfErr, OnOk, Ok, false, List, [], ◌∷◌, length, map};
ghost use Rattle.std.specs.List.{All};
ghost use Rattle.zr_base.specs.Tests.{Tells};
ghost use Rattle.zr_game.specs.Players.{PlayerOf};
ghost use Rattle.zr_game.specs.Games.{game_of};
ghost use Rattle.zr_game.specs.Forms.{IsPlayer};
ghost use Rattle.zr_game.specs.Named.{IsNamed, named_of};
ghost use Rattle.zr_cases.specs.Forms.{IsWhole};
ghost use Rattle.zr_system.specs.Asked.{AreLeaves};
ghost use Rattle.zr_system.specs.Regions.{leaves_of};
ghost use Rattle.zr_refute.specs.Refuting.{leaf_counts};
ghost use Rattle.zr_refute.specs.Rooms.{IsRoomFor};
ghost use Rattle.zr_cert.specs.Certs.{CoverVerdict, cases_of, named_list, nodes_of};
ghost use Rattle.zr_cert.specs.Forms.{AreNamed, IsCoverForm, IsNamedForm};
ghost use Rattle.zr_cert.specs.Lines.{verdict_lines};
ghost use Rattle.zr_cert.specs.Places.{case_line_number};
ghost use Rattle.zr_check.specs.Checks.{VerdictPasses, VerdictRefused};
ghost use Rattle.zr_check.specs.Covers.{CasesPass, CasesRefused, CoverLinesPass, CoverLinesRefused, CoverTreePasses, CoverTreeRefused, CoversPass, CoversRefused, IsItemOfLength, ItemPasses, ItemRefused, ItemsPass, ItemsRefused, item_wide};
ghost use Rattle.zr_check.specs.CoverPlaces.{HasCoverPlaces, HasTreePlaces};

use crate::costs::at_line;
use crate::room::CoverRoom;
use zr_base::Wide;
use zr_cases::Refutation;
use zr_cert::CertFault;
use zr_game::{Game, Kind, Named, feasible, is_ray};
use zr_refute::refuted;
use zr_tree::{Scratch, Tree, cover};

/// Tests the covers with the points and rays that are named, from line 4 on, and then the
/// refutation over the covers' leaves.
pub(crate) fn check_covers(
    game: &Game,
    kind: Kind,
    covers: &[Tree],
    named: &[Vec<Named>],
    proof: &Refutation,
    scratch: &mut Scratch,
    places: &mut Option<CoverRoom>,
) -> Result<(), CertFault>
    requires form { IsCoverForm (length (game_of game.now)) (map nodes_of covers.now)
        (map named_list named.now) (cases_of proof.now) }
    requires lines { 4 + verdict_lines (CoverVerdict (map nodes_of covers.now)
        (map named_list named.now) (cases_of proof.now)) < 2 ^ 32 }
    requires scratch { HasTreePlaces (game_of game.now) (map nodes_of covers.now) scratch.old }
    requires places { HasCoverPlaces (game_of game.now) (map nodes_of covers.now)
        (map named_list named.now) (cases_of proof.now) places.old }
    ensures ok { OnOk result (VerdictPasses (game_of game.now) kind (CoverVerdict
        (map nodes_of covers.now) (map named_list named.now) (cases_of proof.now))) }
    ensures err { IfErr result (VerdictRefused (game_of game.now) kind (CoverVerdict
        (map nodes_of covers.now) (map named_list named.now) (cases_of proof.now))) }
    ensures scratch { scratch.new ≡ scratch.old }
    ensures places { places.new ≡ places.old }
{
    let line = check_players(game, covers, named, scratch)?;
    match places {
        Some(room) => check_cases(game, kind, proof, line, room),
        None => unreachable!(),
    }
}

/// Tests the lines of each player's cover and of what is named of it. The answer is the number of
/// the line after them.
fn check_players(
    game: &Game,
    covers: &[Tree],
    named: &[Vec<Named>],
    scratch: &mut Scratch,
) -> Result<u32, CertFault>
    requires covers { length covers.now ≡ length (game_of game.now) }
    requires named { length named.now ≡ length (game_of game.now) }
    requires forms { All AreNamed (map named_list named.now) }
    requires lines { case_line_number (map nodes_of covers.now) (map named_list named.now)
        < 2 ^ 32 }
    requires scratch { HasTreePlaces (game_of game.now) (map nodes_of covers.now) scratch.old }
    ensures ok { OnOk result (CoversPass (game_of game.now) (map nodes_of covers.now)
        (map named_list named.now)) }
    ensures line { IfOk result (λ line. line ≡ case_line_number (map nodes_of covers.now)
        (map named_list named.now)) }
    ensures err { IfErr result (CoversRefused (game_of game.now) (map nodes_of covers.now)
        (map named_list named.now)) }
    ensures scratch { scratch.new ≡ scratch.old }
{
    let mut line = 4;
    for i in 0..covers.len() {
        let tree = &covers[i];
        let items = &named[i];
        check_player(game, i as u32, tree, items, line, scratch)?;
        line += tree.nodes.len() as u32 + (1 + items.len() as u32);
    }
    Ok(line)
}

/// Tests the cover of player `i`, whose first line is `line`, and what is named of the player: its
/// lines follow the one of their count.
fn check_player(
    game: &Game,
    i: u32,
    tree: &Tree,
    items: &[Named],
    line: u32,
    scratch: &mut Scratch,
) -> Result<(), CertFault>
    requires number { i < length (game_of game.now) }
    requires forms { AreNamed (map named_of items.now) }
    requires lines { line + (length (nodes_of tree.now) + (1 + length items.now)) < 2 ^ 32 }
    requires scratch { HasTreePlaces (game_of game.now) (nodes_of tree.now ∷ []) scratch.old }
    ensures ok { (player : PlayerOf) → IsPlayer (game_of game.now) i player
        → OnOk result (CoverLinesPass player (nodes_of tree.now) (map named_of items.now)) }
    ensures err { (player : PlayerOf) → IsPlayer (game_of game.now) i player
        → IfErr result (CoverLinesRefused player (nodes_of tree.now) (map named_of items.now)
        line) }
    ensures scratch { scratch.new ≡ scratch.old }
{
    check_cover(game, i, tree, line, scratch)?;
    check_items(game, i, items, line + tree.nodes.len() as u32 + 1)
}

/// Tests the nodes of the cover of player `i`, the first of which stands at `line`.
fn check_cover(
    game: &Game,
    i: u32,
    tree: &Tree,
    line: u32,
    scratch: &mut Scratch,
) -> Result<(), CertFault>
    requires number { i < length (game_of game.now) }
    requires lines { line + length (nodes_of tree.now) < 2 ^ 32 }
    requires scratch { HasTreePlaces (game_of game.now) (nodes_of tree.now ∷ []) scratch.old }
    ensures ok { (player : PlayerOf) → IsPlayer (game_of game.now) i player
        → OnOk result (CoverTreePasses player (nodes_of tree.now)) }
    ensures err { (player : PlayerOf) → IsPlayer (game_of game.now) i player
        → IfErr result (CoverTreeRefused player (nodes_of tree.now) line) }
    ensures scratch { scratch.new ≡ scratch.old }
{
    match cover(game, i, tree, scratch) {
        Ok(()) => Ok(()),
        Err(fault) => Err(at_line(line, fault)),
    }
}

/// Tests the points and rays that are named of player `i`, the first of which stands at `line`.
fn check_items(game: &Game, i: u32, items: &[Named], line: u32) -> Result<(), CertFault>
    requires number { i < length (game_of game.now) }
    requires forms { AreNamed (map named_of items.now) }
    requires lines { line + length items.now < 2 ^ 32 }
    ensures ok { (player : PlayerOf) → IsPlayer (game_of game.now) i player
        → OnOk result (ItemsPass player (map named_of items.now)) }
    ensures err { (player : PlayerOf) → IsPlayer (game_of game.now) i player
        → IfErr result (ItemsRefused player (map named_of items.now) line) }
{
    for (k, item) in items.iter().enumerate() {
        check_item(game, i, item, line + k as u32)?;
    }
    Ok(())
}

/// Tests a point or ray of player `i`, which stands at `line`.
fn check_item(game: &Game, i: u32, item: &Named, line: u32) -> Result<(), CertFault>
    requires number { i < length (game_of game.now) }
    requires form { IsNamedForm (named_of item.now) }
    ensures ok { (player : PlayerOf) → IsPlayer (game_of game.now) i player → (k : _)
        → OnOk result (ItemPasses player k (named_of item.now)) }
    ensures err { (player : PlayerOf) → IsPlayer (game_of game.now) i player
        → IfErr result (ItemRefused player line (named_of item.now)) }
{
    match is_point_or_ray(game, i, item) {
        Ok(true) => Ok(()),
        Ok(false) => Err(CertFault::Bad(line)),
        Err(_) => Err(CertFault::Wide(line)),
    }
}

/// Whether the item is a point of player `i`, or a ray at one.
fn is_point_or_ray(game: &Game, i: u32, item: &Named) -> Result<bool, Wide>
    requires number { i < length (game_of game.now) }
    requires form { IsNamedForm (named_of item.now) }
    ensures length { (player : PlayerOf) → IsPlayer (game_of game.now) i player
        → (IsItemOfLength (length player.vars) (named_of item.now) → ⊥) → result ≡ Ok false }
    ensures tells { (player : PlayerOf) → IsPlayer (game_of game.now) i player
        → IsItemOfLength (length player.vars) (named_of item.now)
        → Tells result (IsNamed player (named_of item.now)) (item_wide player
        (named_of item.now)) }
{
    match item {
        Named::Point(point) => feasible(game, i, point),
        Named::Ray { base, dir } => is_ray(game, i, base, dir),
    }
}

/// Tests the nodes of the refutation over the leaves of the room, the first of which stands at
/// `line`.
fn check_cases(
    game: &Game,
    kind: Kind,
    proof: &Refutation,
    line: u32,
    room: &mut CoverRoom,
) -> Result<(), CertFault>
    requires leaves { AreLeaves (game_of game.now) room.old.leaves }
    requires room { IsRoomFor (game_of game.now) (leaves_of room.old.leaves) room.old.cases }
    requires whole { IsWhole (leaf_counts (leaves_of room.old.leaves)) (cases_of proof.now) }
    requires choices { length (cases_of proof.now) ≤ room.old.cases.choices }
    requires lines { line + length (cases_of proof.now) < 2 ^ 32 }
    ensures ok { OnOk result (CasesPass (game_of game.now) (leaves_of room.old.leaves) kind
        (cases_of proof.now)) }
    ensures err { IfErr result (CasesRefused (game_of game.now) (leaves_of room.old.leaves) kind
        (cases_of proof.now) line) }
    ensures room { room.new ≡ room.old }
{
    match refuted(game, &room.leaves, kind, proof, &mut room.cases) {
        Ok(()) => Ok(()),
        Err(fault) => Err(at_line(line, fault)),
    }
}
