ghost use Rattle.std.specs.Prelude.{◌≡◌, ◌<◌, ◌≤◌, ◌↔◌, ◌^◌, [], IsOk, IfErr, OnOk, length, map};
ghost use Rattle.std.specs.List.{All};
ghost use Rattle.zr_game.specs.Games.{game_of};
ghost use Rattle.zr_cases.specs.Cases.{OnOffNode, RowNode, WhichNode, rnode_of};
ghost use Rattle.zr_cases.specs.Forms.{AreCounted, IsCaseForm, IsWhole};
ghost use Rattle.zr_cases.specs.Trees.{CasesOf, preorder};
ghost use Rattle.zr_system.specs.Asked.{AreLeaves};
ghost use Rattle.zr_system.specs.Choices.{HasCompleteSolution};
ghost use Rattle.zr_system.specs.Regions.{leaves_of};
ghost use Rattle.zr_refute.specs.Refuting.{Closes, IsOpenLeaf, IsOpenPlayer, IsOpenSlot, RefutesUnder, leaf_counts};
ghost use Rattle.zr_refute.specs.Rooms.{IsRoomFor, room_of};
ghost use Rattle.zr_refute.specs.Steps.{EndPasses, EndRefused, HasWideCase, IsRefused, IsWideEnd, Passes};
ghost use Rattle.zr_refute.specs.Sums.{EndTells};
ghost use Rattle.zr_refute.specs.Visits.{NodePasses, NodeRefused};
ghost use Rattle.zr_refute.specs.Walks.{Entered, IsPathOf, children, path_of};

use crate::open::{is_open_leaf, is_open_player, is_open_slot};
use crate::path::{CasePath, enter, go_on, made};
use crate::room::{CaseRoom, Table};
use crate::sum::closes;
use zr_base::Wide;
use zr_cases::{RNode, Refutation};
use zr_game::{Choice, Game, Kind};
use zr_system::{Leaves, leaf_count};
use zr_tree::Fault;

/// Whether the refutation refutes the system of the game over the leaves, for the kind: by cases of
/// choices, until the rows under each path of choices, multiplied, are a contradiction.
///
/// The nodes are walked in their order. The first node that is refused is the answer: a case of a
/// leaf that doesn't exist or is decided on its path; a case of a slot that isn't present in an
/// exact leaf with weight, or is decided; a choice among a player's leaves for another kind, of a
/// player that doesn't exist, or of one that has a decided leaf; and multipliers of rows that don't
/// exist, or whose combination isn't a contradiction. Where all rows exist, a number of one of them
/// or a step of the sums that is too wide comes before that. Where no node is refused, no fractions
/// solve the system under any complete list of choices.
///
/// The nodes are one whole tree over the leaves, as `Refutation::is_whole` tells. `room` is for
/// these leaves and as many nodes; it keeps what it has. The call takes no memory.
pub fn refuted(
    game: &Game,
    leaves: &Leaves,
    kind: Kind,
    proof: &Refutation,
    room: &mut CaseRoom,
) -> Result<(), Fault>
    requires leaves { AreLeaves (game_of game.now) leaves.now }
    requires whole { IsWhole (leaf_counts (leaves_of leaves.now))
        (map rnode_of proof.now.nodes.items) }
    requires room { IsRoomFor (game_of game.now) (leaves_of leaves.now) room.old }
    requires nodes { length proof.now.nodes.items ≤ room.old.choices }
    ensures ok { OnOk result ((t : CasesOf)
        → preorder (leaf_counts (leaves_of leaves.now)) t ≡ map rnode_of proof.now.nodes.items
        → Passes (game_of game.now) (leaves_of leaves.now) kind [] t) }
    ensures err { IfErr result (λ fault. (t : CasesOf)
        → preorder (leaf_counts (leaves_of leaves.now)) t ≡ map rnode_of proof.now.nodes.items
        → IsRefused (game_of game.now) (leaves_of leaves.now) kind 0 [] t fault) }
    ensures exact { (t : CasesOf)
        → preorder (leaf_counts (leaves_of leaves.now)) t ≡ map rnode_of proof.now.nodes.items
        → IsOk result ↔ (RefutesUnder (game_of game.now) (leaves_of leaves.now) kind [] t
        × (HasWideCase (game_of game.now) (leaves_of leaves.now) kind [] t → ⊥)) }
    ensures sound { OnOk result
        (HasCompleteSolution (game_of game.now) (leaves_of leaves.now) kind → ⊥) }
    ensures room { room.new ≡ room.old }
{
    walk(game, leaves, kind, &proof.nodes, &mut room.table)
}

/// Walks the tree from its root.
fn walk(
    game: &Game,
    leaves: &Leaves,
    kind: Kind,
    nodes: &[RNode],
    table: &mut Table,
) -> Result<(), Fault>
    requires leaves { AreLeaves (game_of game.now) leaves.now }
    requires room { IsRoomFor (game_of game.now) (leaves_of leaves.now) (room_of table.old) }
    requires places { length nodes.now ≤ length table.old.path.choices.items }
    requires few { length nodes.now < 2 ^ 32 }
    requires nodes { All IsCaseForm (map rnode_of nodes.now) }
    ensures ok { OnOk result ((t : CasesOf)
        → preorder (leaf_counts (leaves_of leaves.now)) t ≡ map rnode_of nodes.now
        → Passes (game_of game.now) (leaves_of leaves.now) kind [] t) }
    ensures err { IfErr result (λ fault. (t : CasesOf)
        → preorder (leaf_counts (leaves_of leaves.now)) t ≡ map rnode_of nodes.now
        → IsRefused (game_of game.now) (leaves_of leaves.now) kind 0 [] t fault) }
    ensures room { room_of table.new ≡ room_of table.old }
{
    table.path.depth = 0;
    for (n, node) in nodes.iter().enumerate() {
        visit(game, leaves, kind, node, n as u32, table)?;
    }
    Ok(())
}

/// Tests node `n` and goes on to its choices or to the next path that is due.
fn visit(
    game: &Game,
    leaves: &Leaves,
    kind: Kind,
    node: &RNode,
    n: u32,
    table: &mut Table,
) -> Result<(), Fault>
    requires leaves { AreLeaves (game_of game.now) leaves.now }
    requires room { IsRoomFor (game_of game.now) (leaves_of leaves.now) (room_of table.old) }
    requires path { IsPathOf (game_of game.now) (leaves_of leaves.now) table.old.path }
    requires place { table.old.path.depth < length table.old.path.choices.items }
    requires node { IsCaseForm (rnode_of node.now) }
    ensures ok { OnOk result (NodePasses (game_of game.now) (leaves_of leaves.now) kind
        (path_of table.old.path) (rnode_of node.now)) }
    ensures entered { OnOk result (Entered (game_of game.now) (leaves_of leaves.now)
        (children (leaves_of leaves.now) (path_of table.old.path) (rnode_of node.now))
        table.old.path table.new.path) }
    ensures err { IfErr result (NodeRefused (game_of game.now) (leaves_of leaves.now) kind n
        (path_of table.old.path) (rnode_of node.now)) }
    ensures room { room_of table.new ≡ room_of table.old }
{
    match node {
        RNode::OnOff { player, leaf } => {
            visit_leaf(game, leaves, *player, *leaf, n, &mut table.path)
        }
        RNode::RowSplit { player, leaf, slot } => {
            visit_slot(game, leaves, *player, *leaf, *slot, n, &mut table.path)
        }
        RNode::Which { player } => visit_player(game, leaves, kind, *player, n, &mut table.path),
        RNode::Close { mult } => visit_close(game, leaves, mult, n, table),
    }
}

/// Tests node `n`, a case of a leaf, and goes to its first choice.
fn visit_leaf(
    game: &Game,
    leaves: &Leaves,
    i: u32,
    k: u32,
    n: u32,
    path: &mut CasePath,
) -> Result<(), Fault>
    requires leaves { AreLeaves (game_of game.now) leaves.now }
    requires path { IsPathOf (game_of game.now) (leaves_of leaves.now) path.old }
    requires place { path.old.depth < length path.old.choices.items }
    ensures ok { OnOk result (IsOpenLeaf (game_of game.now) (leaves_of leaves.now)
        (path_of path.old) i k) }
    ensures entered { OnOk result (Entered (game_of game.now) (leaves_of leaves.now)
        (children (leaves_of leaves.now) (path_of path.old) (OnOffNode i k)) path.old path.new) }
    ensures err { IfErr result (λ fault. (IsOpenLeaf (game_of game.now) (leaves_of leaves.now)
        (path_of path.old) i k → ⊥) × (fault ≡ Fault.Bad n)) }
    ensures size { length path.new.choices.items ≡ length path.old.choices.items }
{
    if !is_open_leaf(game, leaves, made(path), i, k) {
        return Err(Fault::Bad(n));
    }
    enter(Choice::On { player: i, leaf: k }, path);
    Ok(())
}

/// Tests node `n`, a case of a slot, and goes to its first choice.
fn visit_slot(
    game: &Game,
    leaves: &Leaves,
    i: u32,
    k: u32,
    s: u32,
    n: u32,
    path: &mut CasePath,
) -> Result<(), Fault>
    requires leaves { AreLeaves (game_of game.now) leaves.now }
    requires path { IsPathOf (game_of game.now) (leaves_of leaves.now) path.old }
    requires place { path.old.depth < length path.old.choices.items }
    ensures ok { OnOk result (IsOpenSlot (game_of game.now) (leaves_of leaves.now)
        (path_of path.old) i k s) }
    ensures entered { OnOk result (Entered (game_of game.now) (leaves_of leaves.now)
        (children (leaves_of leaves.now) (path_of path.old) (RowNode i k s)) path.old path.new) }
    ensures err { IfErr result (λ fault. (IsOpenSlot (game_of game.now) (leaves_of leaves.now)
        (path_of path.old) i k s → ⊥) × (fault ≡ Fault.Bad n)) }
    ensures size { length path.new.choices.items ≡ length path.old.choices.items }
{
    if !is_open_slot(game, leaves, made(path), i, k, s) {
        return Err(Fault::Bad(n));
    }
    enter(
        Choice::Zero {
            player: i,
            leaf: k,
            slot: s,
        },
        path,
    );
    Ok(())
}

/// Tests node `n`, a choice among the player's leaves, and goes to the first of them, or where the
/// player has no leaf, to the next path that is due.
fn visit_player(
    game: &Game,
    leaves: &Leaves,
    kind: Kind,
    i: u32,
    n: u32,
    path: &mut CasePath,
) -> Result<(), Fault>
    requires leaves { AreLeaves (game_of game.now) leaves.now }
    requires path { IsPathOf (game_of game.now) (leaves_of leaves.now) path.old }
    requires place { path.old.depth < length path.old.choices.items }
    ensures ok { OnOk result (IsOpenPlayer (game_of game.now) kind (path_of path.old) i) }
    ensures entered { OnOk result (Entered (game_of game.now) (leaves_of leaves.now)
        (children (leaves_of leaves.now) (path_of path.old) (WhichNode i)) path.old path.new) }
    ensures err { IfErr result (λ fault. (IsOpenPlayer (game_of game.now) kind (path_of path.old) i
        → ⊥) × (fault ≡ Fault.Bad n)) }
    ensures size { length path.new.choices.items ≡ length path.old.choices.items }
{
    if !is_open_player(game, kind, made(path), i) {
        return Err(Fault::Bad(n));
    }
    enter_leaves(game, leaves, i, path);
    Ok(())
}

/// Goes to the choice of the player's first leaf, or where it has none, to the next path that is
/// due.
fn enter_leaves(game: &Game, leaves: &Leaves, i: u32, path: &mut CasePath)
    requires leaves { AreLeaves (game_of game.now) leaves.now }
    requires player { i < length (game_of game.now) }
    requires path { IsPathOf (game_of game.now) (leaves_of leaves.now) path.old }
    requires place { path.old.depth < length path.old.choices.items }
    ensures { Entered (game_of game.now) (leaves_of leaves.now)
        (children (leaves_of leaves.now) (path_of path.old) (WhichNode i)) path.old path.new }
{
    if leaf_count(game, leaves, i as usize) == 0 {
        go_on(game, leaves, path);
    } else {
        enter(Choice::Which { player: i, leaf: 0 }, path);
    }
}

/// Tests node `n`, the multipliers at the end of a path, and goes on to the next path that is due.
fn visit_close(
    game: &Game,
    leaves: &Leaves,
    mult: &[(u32, i128)],
    n: u32,
    table: &mut Table,
) -> Result<(), Fault>
    requires leaves { AreLeaves (game_of game.now) leaves.now }
    requires room { IsRoomFor (game_of game.now) (leaves_of leaves.now) (room_of table.old) }
    requires path { IsPathOf (game_of game.now) (leaves_of leaves.now) table.old.path }
    requires mult { AreCounted mult.now }
    ensures ok { OnOk result (EndPasses (Closes (game_of game.now) (leaves_of leaves.now))
        (IsWideEnd (game_of game.now) (leaves_of leaves.now)) (path_of table.old.path) mult.now) }
    ensures entered { OnOk result (Entered (game_of game.now) (leaves_of leaves.now) []
        table.old.path table.new.path) }
    ensures err { IfErr result (EndRefused (Closes (game_of game.now) (leaves_of leaves.now))
        (IsWideEnd (game_of game.now) (leaves_of leaves.now)) n (path_of table.old.path)
        mult.now) }
    ensures room { room_of table.new ≡ room_of table.old }
{
    match closes_at(game, leaves, mult, table) {
        Ok(true) => {
            go_on(game, leaves, &mut table.path);
            Ok(())
        }
        Ok(false) => Err(Fault::Bad(n)),
        Err(_) => Err(Fault::Wide(n)),
    }
}

/// Whether the multipliers refute the rows under the path.
fn closes_at(
    game: &Game,
    leaves: &Leaves,
    mult: &[(u32, i128)],
    table: &mut Table,
) -> Result<bool, Wide>
    requires leaves { AreLeaves (game_of game.now) leaves.now }
    requires room { IsRoomFor (game_of game.now) (leaves_of leaves.now) (room_of table.old) }
    requires path { IsPathOf (game_of game.now) (leaves_of leaves.now) table.old.path }
    requires mult { AreCounted mult.now }
    ensures told { EndTells result (Closes (game_of game.now) (leaves_of leaves.now))
        (IsWideEnd (game_of game.now) (leaves_of leaves.now)) (path_of table.old.path) mult.now }
    ensures path { table.new.path ≡ table.old.path }
    ensures room { room_of table.new ≡ room_of table.old }
{
    closes(
        game,
        leaves,
        &table.order,
        &table.base,
        made(&table.path),
        mult,
        &mut table.sums,
    )
}
