ghost use Rattle.std.specs.Prelude.{◌≡◌, ◌↔◌, ◌+◌, ◌^◌, ◌<◌, ◌≤◌, IsTrue, IfErr, OnOk, length};
ghost use Rattle.zr_game.specs.Games.{game_of};
ghost use Rattle.zr_boxes.specs.Places.{FitsGame};
ghost use Rattle.zr_cert.specs.Certs.{BoxVerdict, boxes_of};
ghost use Rattle.zr_check.specs.Boxes.{BoxesPass, BoxesRefused};
ghost use Rattle.zr_check.specs.Checks.{VerdictPasses, VerdictRefused};

use crate::costs::at_line;
use zr_boxes::{BoxScratch, BoxTree, box_refuted};
use zr_cert::CertFault;
use zr_game::{Game, Kind};

/// Tests that boxes are for the pure kind, at line 3, and the box tree from line 4 on.
pub(crate) fn check_boxes(
    game: &Game,
    kind: Kind,
    tree: &BoxTree,
    scratch: &mut BoxScratch,
) -> Result<(), CertFault>
    requires lines { 4 + length (boxes_of tree.now) < 2 ^ 32 }
    requires nodes { length (boxes_of tree.now) ≤ scratch.old.nodes }
    requires leaves { FitsGame (game_of game.now) scratch.old }
    ensures ok { OnOk result (VerdictPasses (game_of game.now) kind
        (BoxVerdict (boxes_of tree.now))) }
    ensures err { IfErr result (VerdictRefused (game_of game.now) kind
        (BoxVerdict (boxes_of tree.now))) }
    ensures places { scratch.new ≡ scratch.old }
{
    if !is_pure(kind) {
        return Err(CertFault::Bad(3));
    }
    check_box_tree(game, tree, scratch)
}

fn is_pure(kind: Kind) -> bool
    ensures { IsTrue result ↔ (kind ≡ Kind.Pure) }
{
    match kind {
        Kind::Pure => true,
        Kind::Mixed => false,
    }
}

fn check_box_tree(game: &Game, tree: &BoxTree, scratch: &mut BoxScratch) -> Result<(), CertFault>
    requires lines { 4 + length (boxes_of tree.now) < 2 ^ 32 }
    requires nodes { length (boxes_of tree.now) ≤ scratch.old.nodes }
    requires leaves { FitsGame (game_of game.now) scratch.old }
    ensures ok { OnOk result (BoxesPass (game_of game.now) (boxes_of tree.now)) }
    ensures err { IfErr result (BoxesRefused (game_of game.now) (boxes_of tree.now) 4) }
    ensures places { scratch.new ≡ scratch.old }
{
    match box_refuted(game, tree, scratch) {
        Ok(()) => Ok(()),
        Err(fault) => Err(at_line(4, fault)),
    }
}
