ghost use Rattle.std.specs.Prelude.{◌≡◌, ◌<◌, ◌≤ℤ◌, ◌++◌, [], ◌∷◌, IfOk, OnOk, MatchOption, length, map};
ghost use Rattle.std.specs.List.{All};
ghost use Rattle.zr_game.specs.Players.{PlayerOf, player_of};
ghost use Rattle.zr_game.specs.Games.{game_of};
ghost use Rattle.zr_game.specs.Forms.{IsPlayer};
ghost use Rattle.zr_game.specs.Leaves.{IsLeafOf, leaf_of, root_leaf};
ghost use Rattle.zr_tree.specs.Nodes.{node_of};
ghost use Rattle.zr_tree.specs.Form.{IsNodeForm, greatest_split};
ghost use Rattle.zr_tree.specs.Trees.{TreeOf, preorder};
ghost use Rattle.zr_tree.specs.Listed.{IsTreeOf};
ghost use Rattle.zr_tree.specs.Covers.{high_child, leaves_at, low_child, side_child};
ghost use Rattle.zr_tree.specs.Openings.{Opened, upcoming, kid_leaves, own_leaves};

use crate::node::Node;
use crate::path::{greater_of, lesser_of};
use crate::tree::Tree;
use std::alloc::{AllocError, Global};
use zr_base::NoMemory;
use zr_game::{Game, Leaf, Player, Side};

/// The leaves at the tree's Known and Loose nodes, in order, of player `i`, which is below the
/// number of players.
///
/// At a split of a variable that doesn't exist, and at a choice of a pair that doesn't exist, both
/// children have the node's leaf. Each leaf has a low and a high for each variable of the player,
/// and a side for each of its pairs.
pub fn leaves_of(alloc: Global, game: &Game, i: u32, tree: &Tree) -> Result<Vec<Leaf>, NoMemory>
    requires { i < length (game_of game.now) }
    ensures lengths { (player : PlayerOf) → IsPlayer (game_of game.now) i player
        → IfOk result (λ leaves. All (IsLeafOf player) leaves.items) }
    ensures leaves { (player : PlayerOf) → IsPlayer (game_of game.now) i player
        → (t : TreeOf) → IsTreeOf tree.now t
        → IfOk result (λ leaves.
        map leaf_of leaves.items ≡ leaves_at player (root_leaf player) t) }
{
    let player = &game.players[i as usize];
    let root = Leaf::root(alloc, game, i)?;
    match leaves_from(alloc, player, root, &tree.nodes) {
        Ok(leaves) => Ok(leaves),
        Err(_) => Err(NoMemory),
    }
}

/// The leaves at the Known and Loose nodes of a tree that stands at this leaf.
fn leaves_from(
    alloc: Global,
    player: &Player,
    root: Leaf,
    nodes: &[Node],
) -> Result<Vec<Leaf>, AllocError>
    requires root { IsLeafOf (player_of player.now) root }
    requires nodes { All IsNodeForm (map node_of nodes.now) }
    ensures lengths { IfOk result (λ leaves. All (IsLeafOf (player_of player.now)) leaves.items) }
    ensures leaves { (t : TreeOf) → preorder t ≡ map node_of nodes.now
        → IfOk result (λ leaves.
        map leaf_of leaves.items ≡ leaves_at (player_of player.now) (leaf_of root) t) }
{
    let mut due = Vec::new(alloc);
    due.push(root)?;
    let mut leaves = Vec::new(alloc);
    for node in nodes {
        let Some(leaf) = take_next(&mut due) else {
            return Ok(leaves);
        };
        open(alloc, player, node, leaf, &mut due, &mut leaves)?;
    }
    Ok(leaves)
}

/// Takes the leaf that is next.
fn take_next(due: &mut Vec<Leaf>) -> Option<Leaf>
    ensures { MatchOption result (upcoming due.old.items ≡ [])
        (λ leaf. upcoming due.old.items ≡ leaf ∷ upcoming due.new.items) }
{
    due.pop()
}

/// Makes a leaf the next one.
fn put_next(due: &mut Vec<Leaf>, leaf: Leaf) -> Result<(), AllocError>
    ensures { OnOk result (upcoming due.new.items ≡ leaf ∷ upcoming due.old.items) }
{
    due.push(leaf)?;
    Ok(())
}

/// Makes the leaves of a node's children the next ones, the first child's first; or adds the leaf
/// of a Known or Loose node to the list.
fn open(
    alloc: Global,
    player: &Player,
    node: &Node,
    leaf: Leaf,
    due: &mut Vec<Leaf>,
    leaves: &mut Vec<Leaf>,
) -> Result<(), AllocError>
    requires leaf { IsLeafOf (player_of player.now) leaf }
    requires node { IsNodeForm (node_of node.now) }
    ensures due { OnOk result (Opened (player_of player.now)
        (kid_leaves (player_of player.now) (leaf_of leaf) (node_of node.now))
        due.old.items due.new.items) }
    ensures lengths { OnOk result (All (IsLeafOf (player_of player.now)) leaves.old.items
        → All (IsLeafOf (player_of player.now)) leaves.new.items) }
    ensures leaves { OnOk result (map leaf_of leaves.new.items
        ≡ map leaf_of leaves.old.items ++ own_leaves (leaf_of leaf) (node_of node.now)) }
{
    match node {
        Node::Split { var, at } => split(alloc, player, *var as usize, *at, leaf, due),
        Node::Choose { pair } => choose(alloc, player, *pair as usize, leaf, due),
        Node::Leaf { scale: _, mult: _ } => Ok(()),
        Node::Known { point: _ } | Node::Loose => add(leaves, leaf),
    }
}

/// Adds a leaf at the end of the list.
fn add(leaves: &mut Vec<Leaf>, leaf: Leaf) -> Result<(), AllocError>
    ensures { OnOk result (leaves.new.items ≡ leaves.old.items ++ leaf ∷ []) }
{
    leaves.push(leaf)?;
    Ok(())
}

fn split(
    alloc: Global,
    player: &Player,
    var: usize,
    at: i64,
    leaf: Leaf,
    due: &mut Vec<Leaf>,
) -> Result<(), AllocError>
    requires leaf { IsLeafOf (player_of player.now) leaf }
    requires at { at ≤ℤ greatest_split }
    ensures { OnOk result (Opened (player_of player.now)
        (low_child (player_of player.now) (leaf_of leaf) var at
        ∷ high_child (player_of player.now) (leaf_of leaf) var at ∷ [])
        due.old.items due.new.items) }
{
    let mut second = copy_leaf(alloc, &leaf)?;
    raise_low(player, &mut second, var, at);
    put_next(due, second)?;
    let mut first = leaf;
    lower_high(player, &mut first, var, at);
    put_next(due, first)
}

fn choose(
    alloc: Global,
    player: &Player,
    pair: usize,
    leaf: Leaf,
    due: &mut Vec<Leaf>,
) -> Result<(), AllocError>
    requires leaf { IsLeafOf (player_of player.now) leaf }
    ensures { OnOk result (Opened (player_of player.now)
        (side_child (player_of player.now) (leaf_of leaf) pair Side.VarZero
        ∷ side_child (player_of player.now) (leaf_of leaf) pair Side.RowZero ∷ [])
        due.old.items due.new.items) }
{
    let mut second = copy_leaf(alloc, &leaf)?;
    set_side(player, &mut second, pair, Side::RowZero);
    put_next(due, second)?;
    let mut first = leaf;
    set_side(player, &mut first, pair, Side::VarZero);
    put_next(due, first)
}

/// A leaf with the same bounds and sides.
pub fn copy_leaf(alloc: Global, leaf: &Leaf) -> Result<Leaf, AllocError>
    ensures low { IfOk result (λ copy. copy.low.items ≡ leaf.now.low.items) }
    ensures high { IfOk result (λ copy. copy.high.items ≡ leaf.now.high.items) }
    ensures sides { IfOk result (λ copy. copy.sides.items ≡ leaf.now.sides.items) }
{
    Ok(Leaf {
        low: leaf.low.to_vec(alloc)?,
        high: leaf.high.to_vec(alloc)?,
        sides: leaf.sides.to_vec(alloc)?,
    })
}

/// Goes to the child of a split where the variable is at most `at`; where the player has no such
/// variable, the leaf stays as it is.
pub fn lower_high(player: &Player, leaf: &mut Leaf, var: usize, at: i64)
    requires { IsLeafOf (player_of player.now) leaf.old }
    ensures lengths { IsLeafOf (player_of player.now) leaf.new }
    ensures leaf { leaf_of leaf.new ≡ low_child (player_of player.now) (leaf_of leaf.old) var at }
{
    if var < player.vars.len() {
        let high = leaf.high[var];
        leaf.high[var] = Some(lesser_of(high, at));
    }
}

/// Goes to the child of a split where the variable is above `at`, which is less than 2^62; where
/// the player has no such variable, the leaf stays as it is.
pub fn raise_low(player: &Player, leaf: &mut Leaf, var: usize, at: i64)
    requires leaf { IsLeafOf (player_of player.now) leaf.old }
    requires at { at ≤ℤ greatest_split }
    ensures lengths { IsLeafOf (player_of player.now) leaf.new }
    ensures leaf { leaf_of leaf.new ≡ high_child (player_of player.now) (leaf_of leaf.old) var at }
{
    if var < player.vars.len() {
        let low = leaf.low[var];
        leaf.low[var] = Some(greater_of(low, at));
    }
}

/// Goes to the child of a choice where the pair has this side; where the player has no such pair,
/// the leaf stays as it is.
pub fn set_side(player: &Player, leaf: &mut Leaf, pair: usize, side: Side)
    requires { IsLeafOf (player_of player.now) leaf.old }
    ensures lengths { IsLeafOf (player_of player.now) leaf.new }
    ensures leaf { leaf_of leaf.new
        ≡ side_child (player_of player.now) (leaf_of leaf.old) pair side }
{
    if pair < player.pairs.len() {
        leaf.sides[pair] = side;
    }
}
