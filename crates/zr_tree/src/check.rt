ghost use Rattle.std.specs.Prelude.{◌≡◌, ◌<◌, ◌≤◌, ◌↔◌, ◌^◌, ◌≤ℤ◌, IsOk, IsTrue, IfErr, OnOk, length, map};
ghost use Rattle.std.specs.List.{All};
ghost use Rattle.zr_base.specs.Points.{PointOf};
ghost use Rattle.zr_game.specs.Players.{PlayerOf, player_of};
ghost use Rattle.zr_game.specs.Games.{game_of};
ghost use Rattle.zr_game.specs.Forms.{IsPlayer};
ghost use Rattle.zr_game.specs.Feasible.{IsFeasible};
ghost use Rattle.zr_game.specs.Leaves.{BoundHolds, IsOpenPair, IsWholeVar, bound_with, leaf_of, root_leaf};
ghost use Rattle.zr_tree.specs.Nodes.{ChooseNode, SplitNode, node_of};
ghost use Rattle.zr_tree.specs.Form.{IsNodeForm, child_count, greatest_split};
ghost use Rattle.zr_tree.specs.Trees.{TreeOf, preorder};
ghost use Rattle.zr_tree.specs.Listed.{IsTreeOf};
ghost use Rattle.zr_tree.specs.Right.{IsRight};
ghost use Rattle.zr_tree.specs.Steps.{HasWideProof, IsRefusedAt, Passes};
ghost use Rattle.zr_tree.specs.Scratches.{most_pairs, most_vars};
ghost use Rattle.zr_tree.specs.Paths.{Entered, HasPlaces, IsPathOf, IsSameSize};
ghost use Rattle.zr_tree.specs.Visits.{HasForms, children};
ghost use Rattle.zr_tree.specs.Covers.{HoldPoints, IsCoverTree, cover_leaves};
ghost use Rattle.zr_tree.specs.CoverSteps.{CoverPasses, IsRefusedCover, IsWideCover};
ghost use Rattle.zr_tree.specs.Tasks.{FitsColumns, NodeDoes, NodeFails, TreeDoes, TreeFails};

use crate::end::keeps;
use crate::fault::Fault;
use crate::node::Node;
use crate::path::{Path, enter_choice, enter_split, go_on, start};
use crate::scratch::{Room, Scratch};
use crate::task::Task;
use crate::tree::Tree;
use zr_game::{Game, Leaf, Player, Side};

/// Whether the tree proves the row `coef * x <= le` on the points of player `i`, which is below
/// the number of players. `coef` has a number for each of the player's variables.
///
/// The tree is walked from its root leaf, each node before its children (A. H. Land and A. G. Doig,
/// 1960; as a proof that is checked by itself: K. K. H. Cheung, A. Gleixner and D. E. Steffy,
/// 2017). The first node that is refused is the answer: a split of a variable that isn't whole or
/// doesn't exist, a choice of a pair that is decided or doesn't exist, a leaf whose slots,
/// multiplied, don't prove the row and don't refute the leaf, and a node that says nothing of the
/// row. At a leaf where all slots are present, a sum that is too wide comes before that.
///
/// `scratch` has places for the tree's nodes, the player's columns, and the greatest numbers of
/// variables and pairs of the game; it keeps them.
pub fn bounds(
    game: &Game,
    i: u32,
    tree: &Tree,
    coef: &[i128],
    le: i128,
    scratch: &mut Scratch,
) -> Result<(), Fault>
    requires number { i < length (game_of game.now) }
    requires coef { (player : PlayerOf) → IsPlayer (game_of game.now) i player
        → length coef.now ≡ length player.vars }
    requires nodes { length tree.now.nodes.items ≤ scratch.old.nodes }
    requires columns { (player : PlayerOf) → IsPlayer (game_of game.now) i player
        → length player.vars ≤ scratch.old.columns }
    requires vars { most_vars (game_of game.now) ≤ scratch.old.vars }
    requires pairs { most_pairs (game_of game.now) ≤ scratch.old.pairs }
    ensures ok { OnOk result ((player : PlayerOf) → IsPlayer (game_of game.now) i player
        → (t : TreeOf) → IsTreeOf tree.now t
        → Passes player (bound_with coef.now le) (root_leaf player) t) }
    ensures err { IfErr result (λ fault. (player : PlayerOf) → IsPlayer (game_of game.now) i player
        → (t : TreeOf) → IsTreeOf tree.now t
        → IsRefusedAt player (bound_with coef.now le) 0 (root_leaf player) t fault) }
    ensures exact { (player : PlayerOf) → IsPlayer (game_of game.now) i player
        → (t : TreeOf) → IsTreeOf tree.now t
        → IsOk result ↔ (IsRight player (bound_with coef.now le) (root_leaf player) t
        × (HasWideProof player (bound_with coef.now le) (root_leaf player) t → ⊥)) }
    ensures sound { OnOk result ((player : PlayerOf) → IsPlayer (game_of game.now) i player
        → (x : PointOf) → IsFeasible player x → BoundHolds player x (bound_with coef.now le)) }
    ensures places { scratch.new ≡ scratch.old }
{
    let player = &game.players[i as usize];
    walk(
        player,
        &tree.nodes,
        Task::Row { coef, le },
        &mut scratch.room,
    )
}

/// Whether the tree is a cover of the points of player `i`, which is below the number of players:
/// the leaves at its Known and Loose nodes hold all of them, and those of a Known node's leaf are
/// the points that meet its rows.
///
/// The tree is walked as `bounds` walks it. The first node that is refused is the answer: a split
/// of a variable that isn't whole or doesn't exist; a choice of a pair that is decided or doesn't
/// exist; a leaf whose slots, multiplied, don't refute it with the scale 0; and a Known node whose
/// leaf isn't settled, or whose point has another number of variables or fails the row of a slot
/// that is present. Where all slots are present, and where the point has a number for each
/// variable, a sum that is too wide comes before that.
///
/// `scratch` has places for the tree's nodes, the player's variables, and the greatest numbers of
/// variables and pairs of the game; it keeps them.
pub fn cover(game: &Game, i: u32, tree: &Tree, scratch: &mut Scratch) -> Result<(), Fault>
    requires number { i < length (game_of game.now) }
    requires nodes { length tree.now.nodes.items ≤ scratch.old.nodes }
    requires columns { (player : PlayerOf) → IsPlayer (game_of game.now) i player
        → length player.vars ≤ scratch.old.columns }
    requires vars { most_vars (game_of game.now) ≤ scratch.old.vars }
    requires pairs { most_pairs (game_of game.now) ≤ scratch.old.pairs }
    ensures ok { OnOk result ((player : PlayerOf) → IsPlayer (game_of game.now) i player
        → (t : TreeOf) → IsTreeOf tree.now t → CoverPasses player (root_leaf player) t) }
    ensures err { IfErr result (λ fault. (player : PlayerOf) → IsPlayer (game_of game.now) i player
        → (t : TreeOf) → IsTreeOf tree.now t
        → IsRefusedCover player 0 (root_leaf player) t fault) }
    ensures exact { (player : PlayerOf) → IsPlayer (game_of game.now) i player
        → (t : TreeOf) → IsTreeOf tree.now t
        → IsOk result ↔ (IsCoverTree player (root_leaf player) t
        × (IsWideCover player (root_leaf player) t → ⊥)) }
    ensures sound { OnOk result ((player : PlayerOf) → IsPlayer (game_of game.now) i player
        → (t : TreeOf) → IsTreeOf tree.now t
        → HoldPoints player (cover_leaves player (root_leaf player) t)) }
    ensures places { scratch.new ≡ scratch.old }
{
    let player = &game.players[i as usize];
    walk(player, &tree.nodes, Task::Cover, &mut scratch.room)
}

/// Walks the tree from its root.
fn walk(player: &Player, nodes: &[Node], task: Task, room: &mut Room) -> Result<(), Fault>
    requires forms { HasForms (player_of player.now) }
    requires places { HasPlaces (player_of player.now) room.old.path.leaf }
    requires task { FitsColumns (length (player_of player.now).vars) task }
    requires columns { length (player_of player.now).vars ≤ length room.old.sums.items }
    requires frames { length nodes.now ≤ length room.old.path.frames.items }
    requires few { length nodes.now < 2 ^ 32 }
    requires nodes { All IsNodeForm (map node_of nodes.now) }
    ensures ok { OnOk result ((t : TreeOf) → preorder t ≡ map node_of nodes.now
        → TreeDoes task.entry (player_of player.now) (root_leaf (player_of player.now)) t) }
    ensures err { IfErr result (λ fault. (t : TreeOf) → preorder t ≡ map node_of nodes.now
        → TreeFails task.entry (player_of player.now) 0 (root_leaf (player_of player.now)) t fault) }
    ensures size { IsSameSize room.old.path room.new.path }
    ensures sums { length room.new.sums.items ≡ length room.old.sums.items }
{
    start(player, &mut room.path);
    for (k, node) in nodes.iter().enumerate() {
        visit(player, node, k as u32, task, room)?;
    }
    Ok(())
}

/// Tests node `k` and goes on to its children or to the next leaf that is due.
fn visit(player: &Player, node: &Node, k: u32, task: Task, room: &mut Room) -> Result<(), Fault>
    requires forms { HasForms (player_of player.now) }
    requires path { IsPathOf (player_of player.now) room.old.path }
    requires task { FitsColumns (length (player_of player.now).vars) task }
    requires columns { length (player_of player.now).vars ≤ length room.old.sums.items }
    requires place { room.old.path.depth < length room.old.path.frames.items }
    requires node { IsNodeForm (node_of node.now) }
    ensures ok { OnOk result (NodeDoes task.entry (player_of player.now)
        (leaf_of room.old.path.leaf) (node_of node.now)) }
    ensures entered { OnOk result (Entered (player_of player.now)
        (children (leaf_of room.old.path.leaf) (node_of node.now)) room.old.path room.new.path) }
    ensures err { IfErr result (NodeFails task.entry (player_of player.now) k
        (leaf_of room.old.path.leaf) (node_of node.now)) }
    ensures size { IsSameSize room.old.path room.new.path }
    ensures sums { length room.new.sums.items ≡ length room.old.sums.items }
{
    match node {
        Node::Split { var, at } => visit_split(player, *var, *at, k, &mut room.path),
        Node::Choose { pair } => visit_choice(player, *pair, k, &mut room.path),
        Node::Leaf { scale: _, mult: _ } | Node::Known { point: _ } | Node::Loose => {
            visit_end(player, node, k, task, room)
        }
    }
}

fn visit_split(player: &Player, var: u32, at: i64, k: u32, path: &mut Path) -> Result<(), Fault>
    requires at { at ≤ℤ greatest_split }
    requires path { IsPathOf (player_of player.now) path.old }
    requires place { path.old.depth < length path.old.frames.items }
    ensures ok { OnOk result (IsWholeVar (player_of player.now) var) }
    ensures entered { OnOk result (Entered (player_of player.now)
        (children (leaf_of path.old.leaf) (SplitNode var at)) path.old path.new) }
    ensures err { IfErr result (λ fault. (IsWholeVar (player_of player.now) var → ⊥)
        × (fault ≡ Fault.Bad k)) }
    ensures size { IsSameSize path.old path.new }
{
    if !is_whole(player, var) {
        return Err(Fault::Bad(k));
    }
    enter_split(player, var, at, path);
    Ok(())
}

fn visit_choice(player: &Player, pair: u32, k: u32, path: &mut Path) -> Result<(), Fault>
    requires path { IsPathOf (player_of player.now) path.old }
    requires place { path.old.depth < length path.old.frames.items }
    ensures ok { OnOk result (IsOpenPair (player_of player.now) (leaf_of path.old.leaf) pair) }
    ensures entered { OnOk result (Entered (player_of player.now)
        (children (leaf_of path.old.leaf) (ChooseNode pair)) path.old path.new) }
    ensures err { IfErr result (λ fault.
        (IsOpenPair (player_of player.now) (leaf_of path.old.leaf) pair → ⊥)
        × (fault ≡ Fault.Bad k)) }
    ensures size { IsSameSize path.old path.new }
{
    if !is_open(player, pair, &path.leaf) {
        return Err(Fault::Bad(k));
    }
    enter_choice(player, pair, path);
    Ok(())
}

/// Tests node `k`, which has no children, and goes on to the next leaf that is due.
fn visit_end(player: &Player, node: &Node, k: u32, task: Task, room: &mut Room) -> Result<(), Fault>
    requires forms { HasForms (player_of player.now) }
    requires path { IsPathOf (player_of player.now) room.old.path }
    requires task { FitsColumns (length (player_of player.now).vars) task }
    requires columns { length (player_of player.now).vars ≤ length room.old.sums.items }
    requires node { IsNodeForm (node_of node.now) }
    requires end { child_count (node_of node.now) ≡ 0 }
    ensures ok { OnOk result (NodeDoes task.entry (player_of player.now)
        (leaf_of room.old.path.leaf) (node_of node.now)) }
    ensures entered { OnOk result (Entered (player_of player.now)
        (children (leaf_of room.old.path.leaf) (node_of node.now)) room.old.path room.new.path) }
    ensures err { IfErr result (NodeFails task.entry (player_of player.now) k
        (leaf_of room.old.path.leaf) (node_of node.now)) }
    ensures size { IsSameSize room.old.path room.new.path }
    ensures sums { length room.new.sums.items ≡ length room.old.sums.items }
{
    match keeps(player, &room.path.leaf, node, task, &mut room.sums) {
        Ok(true) => {
            go_on(player, &mut room.path);
            Ok(())
        }
        Ok(false) => Err(Fault::Bad(k)),
        Err(_) => Err(Fault::Wide(k)),
    }
}

/// Whether the player has a whole variable of this number.
fn is_whole(player: &Player, var: u32) -> bool
    ensures { IsTrue result ↔ IsWholeVar (player_of player.now) var }
{
    if var as usize >= player.vars.len() {
        return false;
    }
    player.vars[var as usize].whole
}

/// Whether the player has a pair of this number, which is undecided at the leaf.
fn is_open(player: &Player, pair: u32, leaf: &Leaf) -> bool
    requires { HasPlaces (player_of player.now) leaf.now }
    ensures { IsTrue result ↔ IsOpenPair (player_of player.now) (leaf_of leaf.now) pair }
{
    let pair = pair as usize;
    pair < player.pairs.len() && leaf.sides[pair] == Side::Undecided
}
