ghost use Rattle.std.specs.Prelude.{◌≡◌, ◌<◌, ◌≤◌, ◌↔◌, ◌^◌, ◌≤ℤ◌, IsOk, IsTrue, IfErr, OnOk, length, map};
ghost use Rattle.std.specs.List.{All};
ghost use Rattle.zr_game.specs.Games.{game_of};
ghost use Rattle.zr_game.specs.Equilibria.{HasNoEquilibrium};
ghost use Rattle.zr_game.specs.declared.kind.Kind.TheVariants.{Pure};
ghost use Rattle.zr_tree.specs.Form.{greatest_split};
ghost use Rattle.zr_cases.specs.Cases.{CutNode, bnode_of};
ghost use Rattle.zr_cases.specs.Forms.{IsBoxForm, box_count};
ghost use Rattle.zr_cases.specs.Trees.{BoxTreeOf, box_preorder};
ghost use Rattle.zr_boxes.specs.Boxes.{root_box};
ghost use Rattle.zr_boxes.specs.Listed.{IsBoxTreeOf};
ghost use Rattle.zr_boxes.specs.Paths.{Entered, IsPathOf, box_of, places_of};
ghost use Rattle.zr_boxes.specs.Places.{FitsGame};
ghost use Rattle.zr_boxes.specs.Right.{HasWholeVar, IsRightBox};
ghost use Rattle.zr_boxes.specs.Steps.{BoxPasses, HasWideBox, IsRefusedBox};
ghost use Rattle.zr_boxes.specs.Visits.{NodePasses, NodeRefused, children};

use crate::close::closes;
use crate::path::{Path, enter_split, go_on, start};
use crate::scratch::BoxScratch;
use zr_cases::{BNode, BoxTree};
use zr_game::Game;
use zr_tree::Fault;

/// Whether the tree shows, box by box, that no pure profile is an equilibrium.
///
/// The tree is walked from the box of all profiles, each node before its children. The first node
/// that is refused is the answer: a split of a variable that isn't whole or doesn't exist; an empty
/// box whose player doesn't exist, or where the player's rows and the box's bounds, multiplied,
/// aren't refuted; and a deviation by a player that doesn't exist or to none of its points, one
/// that needs a bound that the box hasn't, and one whose least gain isn't above zero. The least
/// gain is summed over the player's variables, of each the least product of an end of its way to
/// the point and an end of its slope (as in interval arithmetic: R. E. Moore, 1966). Where all
/// slots are present, and where the point has a number for each variable and no bound is missing, a
/// sum that is too wide comes before that.
///
/// `scratch` has places for the tree's nodes, and a leaf for each player of the game with places
/// for just its variables and pairs; it keeps them.
pub fn box_refuted(game: &Game, tree: &BoxTree, scratch: &mut BoxScratch) -> Result<(), Fault>
    requires nodes { length tree.now.nodes.items ≤ scratch.old.nodes }
    requires leaves { FitsGame (game_of game.now) scratch.old }
    ensures ok { OnOk result ((t : BoxTreeOf) → IsBoxTreeOf tree.now t
        → BoxPasses (game_of game.now) (root_box (game_of game.now)) t) }
    ensures err { IfErr result (λ fault. (t : BoxTreeOf) → IsBoxTreeOf tree.now t
        → IsRefusedBox (game_of game.now) 0 (root_box (game_of game.now)) t fault) }
    ensures exact { (t : BoxTreeOf) → IsBoxTreeOf tree.now t
        → IsOk result ↔ (IsRightBox (game_of game.now) (root_box (game_of game.now)) t
        × (HasWideBox (game_of game.now) (root_box (game_of game.now)) t → ⊥)) }
    ensures sound { OnOk result (HasNoEquilibrium (game_of game.now) Pure) }
    ensures places { scratch.new ≡ scratch.old }
{
    walk(game, &tree.nodes, &mut scratch.path)
}

/// Walks the tree from its root.
fn walk(game: &Game, nodes: &[BNode], path: &mut Path) -> Result<(), Fault>
    requires fits { FitsGame (game_of game.now) (places_of path.old) }
    requires frames { length nodes.now ≤ length path.old.frames.items }
    requires few { length nodes.now < 2 ^ 32 }
    requires nodes { All IsBoxForm (map bnode_of nodes.now) }
    ensures ok { OnOk result ((t : BoxTreeOf) → box_preorder t ≡ map bnode_of nodes.now
        → BoxPasses (game_of game.now) (root_box (game_of game.now)) t) }
    ensures err { IfErr result (λ fault. (t : BoxTreeOf) → box_preorder t ≡ map bnode_of nodes.now
        → IsRefusedBox (game_of game.now) 0 (root_box (game_of game.now)) t fault) }
    ensures places { places_of path.new ≡ places_of path.old }
{
    start(game, path);
    for (k, node) in nodes.iter().enumerate() {
        visit(game, node, k as u32, path)?;
    }
    Ok(())
}

/// Tests node `k` and goes on to its children or to the next box that is due.
fn visit(game: &Game, node: &BNode, k: u32, path: &mut Path) -> Result<(), Fault>
    requires path { IsPathOf (game_of game.now) path.old }
    requires place { path.old.depth < length path.old.frames.items }
    requires node { IsBoxForm (bnode_of node.now) }
    ensures ok { OnOk result (NodePasses (game_of game.now) (box_of path.old.leaves.items)
        (bnode_of node.now)) }
    ensures entered { OnOk result (Entered (game_of game.now)
        (children (box_of path.old.leaves.items) (bnode_of node.now))
        path.old path.new) }
    ensures err { IfErr result (NodeRefused (game_of game.now) k
        (box_of path.old.leaves.items) (bnode_of node.now)) }
    ensures places { places_of path.new ≡ places_of path.old }
{
    match node {
        BNode::Split { player, var, at } => { visit_split(game, *player, *var, *at, k, path) }
        BNode::Empty { player: _, mult: _ }
        | BNode::Deviate {
            player: _,
            point: _,
        } => visit_end(game, node, k, path),
    }
}

fn visit_split(game: &Game, i: u32, var: u32, at: i64, k: u32, path: &mut Path) -> Result<(), Fault>
    requires at { at ≤ℤ greatest_split }
    requires path { IsPathOf (game_of game.now) path.old }
    requires place { path.old.depth < length path.old.frames.items }
    ensures ok { OnOk result (HasWholeVar (game_of game.now) i var) }
    ensures entered { OnOk result (Entered (game_of game.now)
        (children (box_of path.old.leaves.items) (CutNode i var at)) path.old path.new) }
    ensures err { IfErr result (λ fault. (HasWholeVar (game_of game.now) i var → ⊥)
        × (fault ≡ Fault.Bad k)) }
    ensures places { places_of path.new ≡ places_of path.old }
{
    if !has_whole_var(game, i, var) {
        return Err(Fault::Bad(k));
    }
    enter_split(game, i, var, at, path);
    Ok(())
}

/// Tests node `k`, which has no children, and goes on to the next box that is due.
fn visit_end(game: &Game, node: &BNode, k: u32, path: &mut Path) -> Result<(), Fault>
    requires path { IsPathOf (game_of game.now) path.old }
    requires node { IsBoxForm (bnode_of node.now) }
    requires end { box_count (bnode_of node.now) ≡ 0 }
    ensures ok { OnOk result (NodePasses (game_of game.now) (box_of path.old.leaves.items)
        (bnode_of node.now)) }
    ensures entered { OnOk result (Entered (game_of game.now)
        (children (box_of path.old.leaves.items) (bnode_of node.now))
        path.old path.new) }
    ensures err { IfErr result (NodeRefused (game_of game.now) k
        (box_of path.old.leaves.items) (bnode_of node.now)) }
    ensures places { places_of path.new ≡ places_of path.old }
{
    match closes(game, path, node) {
        Ok(true) => {
            go_on(game, path);
            Ok(())
        }
        Ok(false) => Err(Fault::Bad(k)),
        Err(_) => Err(Fault::Wide(k)),
    }
}

/// Whether the game has a player `i` with a whole variable of this number.
fn has_whole_var(game: &Game, i: u32, var: u32) -> bool
    ensures { IsTrue result ↔ HasWholeVar (game_of game.now) i var }
{
    let i = i as usize;
    if i >= game.players.len() {
        return false;
    }
    let player = &game.players[i];
    let var = var as usize;
    if var >= player.vars.len() {
        return false;
    }
    player.vars[var].whole
}
