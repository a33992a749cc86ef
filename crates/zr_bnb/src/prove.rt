ghost use Rattle.std.specs.Prelude.{◌≡◌, ℕ, ◌<◌, ◌^◌, ℤ, List, IfOk, IfErr, true, length, map, option_map};
ghost use Rattle.std.specs.List.{All};
ghost use Rattle.zr_base.specs.Fractions.{whole};
ghost use Rattle.zr_base.specs.Steps.{IsNarrow};
ghost use Rattle.zr_io.specs.declared.purse.Purse.{Purse as APurse};
ghost use Rattle.zr_game.specs.Players.{player_of};
ghost use Rattle.zr_game.specs.Games.{game_of};
ghost use Rattle.zr_game.specs.Forms.{IsPlayer};
ghost use Rattle.zr_tree.specs.Form.{IsNodeForm, IsTree};
ghost use Rattle.zr_tree.specs.Nodes.{ProofNode, node_of};
ghost use Rattle.zr_asked.specs.Paths.{IsOpenPath, branch};
ghost use Rattle.zr_branch.specs.Replies.{CountsPivotsAlone, IsMoveForm, IsSomePlayer};
ghost use Rattle.zr_bnb.specs.Answers.{MayAsk};
ghost use Rattle.zr_bnb.specs.Causes.{IsBnbCause};
ghost use Rattle.zr_bnb.specs.Fates.{IsClosed};
ghost use Rattle.zr_bnb.specs.Found.{AreClosed, AreForms, AreNodesOf, AreProved, IsClosedPlan, IsEnd, IsEndProof, IsNodeOf, IsPlanForm, IsPlanOfTree, IsProvedPlan, IsTreeFor, proofs_for};

use crate::answer::BnbStop;
use crate::plan::{EndProof, Plan};
use crate::stop::stop_of;
use std::alloc::Global;
use zr_asked::Move;
use zr_branch::{Reply, ask, leaf_at};
use zr_game::{Game, Player};
use zr_io::Purse;
use zr_tree::{Node, Tree};

/// The end with the multipliers that a search kept.
fn kept_end(alloc: Global, end: &EndProof) -> Result<Node, BnbStop>
    ensures node { IfOk result (λ node. node_of node ≡ ProofNode end.now.scale end.now.mult.items) }
    ensures none { IfErr result (λ stop. stop ≡ BnbStop.NoMemory) }
{
    let Ok(mult) = end.mult.to_vec(alloc) else {
        return Err(BnbStop::NoMemory);
    };
    Ok(Node::Leaf {
        scale: end.scale,
        mult,
    })
}

/// The end of a branch that is closed, from its question with this aim: that the aim is at least
/// `least` there, or where there is none that the branch has no point.
fn asked_end(
    alloc: Global,
    game: &Game,
    i: u32,
    player: &Player,
    path: &[Move],
    aim: &[i128],
    least: Option<i128>,
    purse: &mut Purse,
) -> Result<Node, BnbStop>
    requires number { i < length (game_of game.now) }
    requires player { IsPlayer (game_of game.now) i (player_of player.now) }
    requires some { IsSomePlayer i (player_of player.now) }
    requires path { IsOpenPath (player_of player.now) path.now }
    requires forms { All IsMoveForm path.now }
    requires aim { length aim.now ≡ length (player_of player.now).vars }
    requires narrow { All IsNarrow aim.now }
    requires closed { IsClosed (player_of player.now) aim.now (option_map whole least)
        (branch (player_of player.now) path.now) }
    ensures node { IfOk result (λ node. IsEnd (player_of player.now) (proofs_for aim.now least)
        (branch (player_of player.now) path.now) (node_of node)) }
    ensures form { IfOk result (λ node. IsNodeForm (node_of node)) }
    ensures cause { (main : List ℤ) → MayAsk (player_of player.now) main aim.now
        → (old new : APurse) → IfErr result (IsBnbCause i (player_of player.now) main old new) }
    ensures purse { CountsPivotsAlone purse.old purse.new }
{
    let Ok(leaf) = leaf_at(alloc, game, i, player, path) else {
        return Err(BnbStop::NoMemory);
    };
    match ask(alloc, i, player, path, &leaf, aim, purse) {
        Err(stop) => Err(stop_of(stop)),
        Ok(
            Reply::Best {
                point: _,
                value: _,
                scale,
                mult,
            },
        ) => Ok(Node::Leaf { scale, mult }),
        Ok(Reply::Empty { mult }) => Ok(Node::Leaf { scale: 0, mult }),
        Ok(Reply::Unbounded { point: _, ray: _ }) => unreachable!(),
    }
}

/// The same, with the multipliers that the search `kept`, or where these are of another aim, asked
/// again.
fn end_of(
    alloc: Global,
    game: &Game,
    i: u32,
    player: &Player,
    path: &[Move],
    end: &EndProof,
    kept: bool,
    aim: &[i128],
    least: Option<i128>,
    purse: &mut Purse,
) -> Result<Node, BnbStop>
    requires number { i < length (game_of game.now) }
    requires player { IsPlayer (game_of game.now) i (player_of player.now) }
    requires some { IsSomePlayer i (player_of player.now) }
    requires path { IsOpenPath (player_of player.now) path.now }
    requires forms { All IsMoveForm path.now }
    requires aim { length aim.now ≡ length (player_of player.now).vars }
    requires narrow { All IsNarrow aim.now }
    requires closed { IsClosed (player_of player.now) aim.now (option_map whole least)
        (branch (player_of player.now) path.now) }
    requires kept { kept ≡ true → IsEndProof (player_of player.now) aim.now
        (branch (player_of player.now) path.now) end.now }
    ensures node { IfOk result (λ node. IsEnd (player_of player.now) (proofs_for aim.now least)
        (branch (player_of player.now) path.now) (node_of node)) }
    ensures form { IfOk result (λ node. IsNodeForm (node_of node)) }
    ensures cause { (main : List ℤ) → MayAsk (player_of player.now) main aim.now
        → (old new : APurse) → IfErr result (IsBnbCause i (player_of player.now) main old new) }
    ensures purse { CountsPivotsAlone purse.old purse.new }
{
    if kept {
        kept_end(alloc, end)
    } else {
        asked_end(alloc, game, i, player, path, aim, least, purse)
    }
}

/// The node of a plan.
fn node_for(
    alloc: Global,
    game: &Game,
    i: u32,
    player: &Player,
    plan: &Plan,
    kept: bool,
    aim: &[i128],
    least: Option<i128>,
    purse: &mut Purse,
) -> Result<Node, BnbStop>
    requires number { i < length (game_of game.now) }
    requires player { IsPlayer (game_of game.now) i (player_of player.now) }
    requires some { IsSomePlayer i (player_of player.now) }
    requires aim { length aim.now ≡ length (player_of player.now).vars }
    requires narrow { All IsNarrow aim.now }
    requires closed { IsClosedPlan (player_of player.now) aim.now (option_map whole least) plan.now }
    requires form { IsPlanForm plan.now }
    requires kept { kept ≡ true → IsProvedPlan (player_of player.now) aim.now plan.now }
    ensures node { IfOk result (λ node. IsNodeOf (player_of player.now) (proofs_for aim.now least)
        plan.now (node_of node)) }
    ensures form { IfOk result (λ node. IsNodeForm (node_of node)) }
    ensures cause { (main : List ℤ) → MayAsk (player_of player.now) main aim.now
        → (old new : APurse) → IfErr result (IsBnbCause i (player_of player.now) main old new) }
    ensures purse { CountsPivotsAlone purse.old purse.new }
{
    match plan {
        Plan::SplitAt { var, at } => Ok(Node::Split { var: *var, at: *at }),
        Plan::ChooseOf { pair } => Ok(Node::Choose { pair: *pair }),
        Plan::Close { path, end } => {
            end_of(alloc, game, i, player, path, end, kept, aim, least, purse)
        }
    }
}

/// The nodes of the plans.
fn nodes_of(
    alloc: Global,
    game: &Game,
    i: u32,
    player: &Player,
    plans: &[Plan],
    kept: bool,
    aim: &[i128],
    least: Option<i128>,
    purse: &mut Purse,
) -> Result<Vec<Node>, BnbStop>
    requires number { i < length (game_of game.now) }
    requires player { IsPlayer (game_of game.now) i (player_of player.now) }
    requires some { IsSomePlayer i (player_of player.now) }
    requires aim { length aim.now ≡ length (player_of player.now).vars }
    requires narrow { All IsNarrow aim.now }
    requires closed { AreClosed (player_of player.now) aim.now (option_map whole least) plans.now }
    requires forms { AreForms plans.now }
    requires kept { kept ≡ true → AreProved (player_of player.now) aim.now plans.now }
    ensures nodes { IfOk result (λ nodes. AreNodesOf (player_of player.now)
        (proofs_for aim.now least) plans.now (map node_of nodes.items)) }
    ensures forms { IfOk result (λ nodes. All IsNodeForm (map node_of nodes.items)) }
    ensures cause { (main : List ℤ) → MayAsk (player_of player.now) main aim.now
        → (old new : APurse) → IfErr result (IsBnbCause i (player_of player.now) main old new) }
    ensures purse { CountsPivotsAlone purse.old purse.new }
{
    let mut nodes = Vec::new(alloc);
    'plans: for plan in plans {
        match node_for(alloc, game, i, player, plan, kept, aim, least, purse) {
            Err(stop) => return Err(stop),
            Ok(node) => {
                let Ok(()) = nodes.push(node) else {
                    return Err(BnbStop::NoMemory);
                };
            }
        }
    }
    Ok(nodes)
}

/// A list of nodes that is known to be a tree.
fn make_tree(nodes: Vec<Node>) -> Tree
    requires { IsTree (map node_of nodes.items) }
    ensures { result.nodes.items ≡ nodes.items }
{
    match Tree::new(nodes) {
        Ok(tree) => tree,
        Err(_) => unreachable!(),
    }
}

/// The tree of the plans, which shows that the aim is at least `least`, or where there is none that
/// there is no point. Its ends are those that the search `kept`, or are asked again where it had
/// another aim.
pub(crate) fn prove(
    alloc: Global,
    game: &Game,
    i: u32,
    player: &Player,
    plans: &[Plan],
    kept: bool,
    aim: &[i128],
    least: Option<i128>,
    purse: &mut Purse,
) -> Result<Tree, BnbStop>
    requires number { i < length (game_of game.now) }
    requires player { IsPlayer (game_of game.now) i (player_of player.now) }
    requires some { IsSomePlayer i (player_of player.now) }
    requires aim { length aim.now ≡ length (player_of player.now).vars }
    requires narrow { All IsNarrow aim.now }
    requires closed { AreClosed (player_of player.now) aim.now (option_map whole least) plans.now }
    requires forms { AreForms plans.now }
    requires kept { kept ≡ true → AreProved (player_of player.now) aim.now plans.now }
    requires few { length plans.now < 2 ^ 32 }
    requires tree { (count : ℕ) × IsPlanOfTree (player_of player.now) count plans.now }
    ensures tree { (count : ℕ) → IsPlanOfTree (player_of player.now) count plans.now
        → IfOk result (IsTreeFor (player_of player.now) (proofs_for aim.now least) count) }
    ensures cause { (main : List ℤ) → MayAsk (player_of player.now) main aim.now
        → (old new : APurse) → IfErr result (IsBnbCause i (player_of player.now) main old new) }
    ensures purse { CountsPivotsAlone purse.old purse.new }
{
    match nodes_of(alloc, game, i, player, plans, kept, aim, least, purse) {
        Err(stop) => Err(stop),
        Ok(nodes) => Ok(make_tree(nodes)),
    }
}
