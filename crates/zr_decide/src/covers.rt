ghost use Rattle.std.specs.Prelude.{◌≡◌, ◌↔◌, ◌+◌, ◌-◌, ◌*◌, ◌<◌, ◌≤◌, ◌∷◌, [], IfErr, IfOk, IsTrue, None, Some, length, map};
ghost use Rattle.std.specs.List.{All};
ghost use Rattle.zr_game.specs.Games.{game_of};
ghost use Rattle.zr_game.specs.Forms.{IsPlayer};
ghost use Rattle.zr_game.specs.Players.{PlayerOf};
ghost use Rattle.zr_tree.specs.Nodes.{LooseNode, node_of};
ghost use Rattle.zr_bnb.specs.Causes.{SpendsWork};
ghost use Rattle.zr_best.specs.Works.{SpendsBestWork};
ghost use Rattle.zr_cert.specs.Certs.{nodes_of};
ghost use Rattle.zr_cert.specs.Forms.{leaf_count, leaf_number};
ghost use Rattle.zr_game.specs.declared.kind.Kind.{Kind as AKind};
ghost use Rattle.zr_decide.specs.Causes.{IsDecideCause};
ghost use Rattle.zr_decide.specs.Coverings.{HasPointForm, IsCoverOf, IsCoverStop, IsCovering};

use crate::stop::DecideStop;
use std::alloc::{AllocError, Global};
use zr_cover::{CoverStop, exact_cover};
use zr_game::Game;
use zr_io::Purse;
use zr_tree::{Node, Tree};

/// A player whose cover is loose: the ray `dir` of its relaxation changes the whole variable `var`.
#[derive(Debug, Drop)]
pub(crate) struct WholeRay {
    pub(crate) player: u32,
    pub(crate) var: u32,
    pub(crate) dir: Vec<i128>,
}

/// A cover for each player, and the first player whose cover is loose.
#[derive(Debug, Drop)]
pub(crate) struct Covers {
    pub(crate) trees: Vec<Tree>,
    pub(crate) ray: Option<WholeRay>,
}

/// What the covers of the players tell.
#[derive(Debug, Drop)]
pub(crate) enum Covering {
    /// The player has no feasible point.
    Empty { player: u32, tree: Tree },
    /// Each player has a cover with a leaf.
    All(Covers),
}

/// The covers of all players, in order: exact ones, or loose leaves where a ray changes a whole
/// variable.
pub(crate) fn covers_of(
    alloc: Global,
    game: &Game,
    purse: &mut Purse,
) -> Result<Covering, DecideStop>
    requires limit { purse.old.limit ≤ 1000000000 }
    ensures covering { IfOk result (IsCovering (game_of game.now) purse.new.branches) }
    ensures cause { (kind : AKind)
        → IfErr result (IsDecideCause (game_of game.now) kind purse.old purse.new) }
    ensures spends { SpendsBestWork (game_of game.now) purse.old purse.new }
{
    let mut trees = Vec::new(alloc);
    let mut ray = None;
    for i in 0..game.players.len() {
        let (tree, found) = match cover_of(alloc, game, i as u32, purse) {
            Ok(cover) => cover,
            Err(stop) => return Err(stop),
        };
        if !has_leaf(&tree.nodes) {
            return Ok(Covering::Empty {
                player: i as u32,
                tree,
            });
        }
        let Ok(()) = trees.push(tree) else {
            return Err(DecideStop::NoMemory);
        };
        ray = first_of(ray, found);
    }
    Ok(Covering::All(Covers { trees, ray }))
}

/// The first one, where it is there, and else the second.
fn first_of(first: Option<WholeRay>, second: Option<WholeRay>) -> Option<WholeRay>
    ensures some { (ray : WholeRay) → first ≡ Some ray → result ≡ Some ray }
    ensures none { first ≡ None → result ≡ second }
{
    match first {
        Some(ray) => Some(ray),
        None => second,
    }
}

/// The cover of player `i`, with its ray where it is loose.
fn cover_of(
    alloc: Global,
    game: &Game,
    i: u32,
    purse: &mut Purse,
) -> Result<(Tree, Option<WholeRay>), DecideStop>
    requires number { i < length (game_of game.now) }
    requires limit { purse.old.limit ≤ 1000000000 }
    ensures cover { (player : PlayerOf) → IsPlayer (game_of game.now) i player
        → IfOk result (λ cover. IsCoverOf player i (nodes_of cover.0) cover.1) }
    ensures few { IfOk result (λ cover.
        length (nodes_of cover.0) ≤ 1 + 2 * (purse.new.branches - purse.old.branches)) }
    ensures cause { (player : PlayerOf) → IsPlayer (game_of game.now) i player
        → IfErr result (IsCoverStop i player purse.old purse.new) }
    ensures spends { (player : PlayerOf) → IsPlayer (game_of game.now) i player
        → SpendsWork player purse.old purse.new }
{
    match exact_cover(alloc, game, i, purse) {
        Ok(tree) => {
            read_points(&tree.nodes);
            Ok((tree, None))
        }
        Err(CoverStop::Endless { var, dir }) => match loose_tree(alloc) {
            Ok(tree) => Ok((
                tree,
                Some(WholeRay {
                    player: i,
                    var,
                    dir,
                }),
            )),
            Err(_) => Err(DecideStop::NoMemory),
        },
        Err(CoverStop::Spent) => Err(DecideStop::Spent),
        Err(CoverStop::Wide(asked)) => Err(DecideStop::Wide(asked)),
        Err(CoverStop::NoMemory) => Err(DecideStop::NoMemory),
    }
}

/// Reads each known point. A point keeps the rules of points, and tells so when it is read.
fn read_points(nodes: &[Node])
    ensures { All HasPointForm (map node_of nodes.now) }
{
    for node in nodes {
        read_point(node);
    }
}

fn read_point(node: &Node)
    ensures { HasPointForm (node_of node.now) }
{
    if let Node::Known { point } = node {
        let _den = point.den();
    }
}

/// The cover that is one loose leaf.
pub(crate) fn loose_tree(alloc: Global) -> Result<Tree, AllocError>
    ensures { IfOk result (λ tree. nodes_of tree ≡ LooseNode ∷ []) }
{
    let nodes = vec![in alloc; Node::Loose]?;
    match Tree::new(nodes) {
        Ok(tree) => Ok(tree),
        Err(_) => unreachable!(),
    }
}

/// Whether a cover has a known or a loose leaf.
fn has_leaf(nodes: &[Node]) -> bool
    ensures { IsTrue result ↔ (1 ≤ leaf_count (map node_of nodes.now)) }
{
    for node in nodes {
        if is_leaf(node) {
            return true;
        }
    }
    false
}

fn is_leaf(node: &Node) -> bool
    ensures { IsTrue result ↔ (1 ≤ leaf_number (node_of node.now)) }
{
    matches!(node, Node::Known { point: _ } | Node::Loose)
}
