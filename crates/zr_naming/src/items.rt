ghost use Rattle.std.specs.Prelude.{◌≡◌, ℕ, ◌<◌, ◌+◌, true, IfOk, IfErr, OnOk, [], length, map};
ghost use Rattle.std.specs.List.{All, Contains};
ghost use Rattle.zr_game.specs.Players.{PlayerOf, player_of};
ghost use Rattle.zr_game.specs.Games.{game_of};
ghost use Rattle.zr_game.specs.Forms.{IsPlayer};
ghost use Rattle.zr_game.specs.Leaves.{IsLeafOf, leaf_of, root_leaf};
ghost use Rattle.zr_game.specs.Named.{NamedOf, named_of};
ghost use Rattle.zr_system.specs.Asked.{IsNamedForm};
ghost use Rattle.zr_branch.specs.Replies.{CountsPivotsAlone, IsSomePlayer};
ghost use Rattle.zr_naming.specs.Causes.{IsNamingCause};
ghost use Rattle.zr_naming.specs.Items.{AreNamedItems};
ghost use Rattle.zr_naming.specs.Offers.{AreNamedBelow, ItemChanges, with_found};

use crate::offer::{offered, passes};
use crate::ray::changing_ray;
use crate::start::start_point;
use crate::stop::NamingStop;
use std::alloc::Global;
use zr_game::{Game, Leaf, Named, Player};
use zr_io::Purse;

/// The items that are named of player `i`, which is below the number of players: where it has no
/// pairs and its start point is feasible, that point, and rays from there.
///
/// For each variable that no named ray changes, a ray of the relaxation is asked for along which
/// it rises, and if there is none, one along which it falls. An item is left out where a step of
/// its test or of its row is too wide. The purse counts the pivots, and pays no branch.
///
/// # Errors
///
/// `Wide` where such a question is stuck. `NoMemory` for want of memory.
pub fn named_items(
    alloc: Global,
    game: &Game,
    i: u32,
    purse: &mut Purse,
) -> Result<Vec<Named>, NamingStop>
    requires number { i < length (game_of game.now) }
    ensures items { (player : PlayerOf) → IsPlayer (game_of game.now) i player
        → IfOk result (λ list. AreNamedItems (game_of game.now) i player
        (map named_of list.items)) }
    ensures cause { (player : PlayerOf) → IsPlayer (game_of game.now) i player
        → IfErr result (IsNamingCause i player) }
    ensures purse { CountsPivotsAlone purse.old purse.new }
{
    let player = &game.players[i as usize];
    items_of(alloc, game, i, player, purse)
}

/// The same, for the player itself.
fn items_of(
    alloc: Global,
    game: &Game,
    i: u32,
    player: &Player,
    purse: &mut Purse,
) -> Result<Vec<Named>, NamingStop>
    requires number { i < length (game_of game.now) }
    requires player { IsPlayer (game_of game.now) i (player_of player.now) }
    requires some { IsSomePlayer i (player_of player.now) }
    ensures items { IfOk result (λ list. AreNamedItems (game_of game.now) i
        (player_of player.now) (map named_of list.items)) }
    ensures cause { IfErr result (IsNamingCause i (player_of player.now)) }
    ensures purse { CountsPivotsAlone purse.old purse.new }
{
    // What is read fits its type: the count so far is a `u64`.
    let _pivots = purse.pivots;
    if !player.pairs.is_empty() {
        return Ok(Vec::new(alloc));
    }
    let Ok(start) = start_point(alloc, player) else {
        return Err(NamingStop::NoMemory);
    };
    if !passes(game, i, player, &Named::Point(start)) {
        return Ok(Vec::new(alloc));
    }
    from_start(alloc, game, i, player, purse)
}

/// The start point, and rays from there.
fn from_start(
    alloc: Global,
    game: &Game,
    i: u32,
    player: &Player,
    purse: &mut Purse,
) -> Result<Vec<Named>, NamingStop>
    requires number { i < length (game_of game.now) }
    requires player { IsPlayer (game_of game.now) i (player_of player.now) }
    requires some { IsSomePlayer i (player_of player.now) }
    ensures items { IfOk result (λ list. AreNamedItems (game_of game.now) i
        (player_of player.now) (map named_of list.items)) }
    ensures cause { IfErr result (IsNamingCause i (player_of player.now)) }
    ensures purse { CountsPivotsAlone purse.old purse.new }
{
    let Ok(root) = Leaf::root(alloc, game, i) else {
        return Err(NamingStop::NoMemory);
    };
    let mut items = Vec::new(alloc);
    if let Err(stop) = put_start(alloc, game, i, player, &mut items) {
        return Err(stop);
    }
    for v in 0..player.vars.len() {
        if let Err(stop) = put_ray(alloc, game, i, player, &root, v, &mut items, purse) {
            return Err(stop);
        }
    }
    Ok(items)
}

/// Puts the start point, which is feasible, into the list of items, which is empty.
fn put_start(
    alloc: Global,
    game: &Game,
    i: u32,
    player: &Player,
    items: &mut Vec<Named>,
) -> Result<(), NamingStop>
    requires number { i < length (game_of game.now) }
    requires player { IsPlayer (game_of game.now) i (player_of player.now) }
    requires some { IsSomePlayer i (player_of player.now) }
    requires empty { items.old.items ≡ [] }
    ensures items { OnOk result (AreNamedBelow (game_of game.now) i (player_of player.now) 0
        (map named_of items.new.items)) }
    ensures cause { IfErr result (IsNamingCause i (player_of player.now)) }
{
    let Ok(start) = start_point(alloc, player) else {
        return Err(NamingStop::NoMemory);
    };
    let item = offered(game, i, player, Named::Point(start));
    put(items, item)
}

/// Puts a ray that changes variable `v` into the list of items, unless one there does.
fn put_ray(
    alloc: Global,
    game: &Game,
    i: u32,
    player: &Player,
    root: &Leaf,
    v: usize,
    items: &mut Vec<Named>,
    purse: &mut Purse,
) -> Result<(), NamingStop>
    requires number { i < length (game_of game.now) }
    requires player { IsPlayer (game_of game.now) i (player_of player.now) }
    requires some { IsSomePlayer i (player_of player.now) }
    requires lengths { IsLeafOf (player_of player.now) root.now }
    requires root { leaf_of root.now ≡ root_leaf (player_of player.now) }
    requires below { v < length (player_of player.now).vars }
    requires items { AreNamedBelow (game_of game.now) i (player_of player.now) v
        (map named_of items.old.items) }
    ensures items { OnOk result (AreNamedBelow (game_of game.now) i (player_of player.now) (v + 1)
        (map named_of items.new.items)) }
    ensures cause { IfErr result (IsNamingCause i (player_of player.now)) }
    ensures purse { CountsPivotsAlone purse.old purse.new }
{
    // What is read fits its type: the count so far is a `u64`.
    let _pivots = purse.pivots;
    if is_changed(items, player.vars.len(), v) {
        return Ok(());
    }
    match changing_ray(alloc, game, i, player, root, v, purse) {
        Err(stop) => Err(stop),
        Ok(item) => put(items, item),
    }
}

/// Puts an item, if there is one, at the end of the list.
fn put(items: &mut Vec<Named>, item: Option<Named>) -> Result<(), NamingStop>
    ensures items { OnOk result (map named_of items.new.items
        ≡ with_found (map named_of items.old.items) item) }
    ensures cause { (i : ℕ) (player : PlayerOf) → IfErr result (IsNamingCause i player) }
{
    match item {
        None => Ok(()),
        Some(item) => match items.push(item) {
            Ok(()) => Ok(()),
            Err(_) => Err(NamingStop::NoMemory),
        },
    }
}

/// Whether a ray of the list changes variable `v`, where each direction has `vars` numbers.
fn is_changed(items: &[Named], vars: usize, v: usize) -> bool
    requires forms { All (IsNamedForm vars) (map named_of items.now) }
    requires below { v < vars }
    ensures { result ≡ true → (item : NamedOf) × Contains (map named_of items.now) item
        × ItemChanges v item }
{
    for item in items {
        if changes(item, vars, v) {
            return true;
        }
    }
    false
}

/// Whether the item is a ray that changes variable `v`.
fn changes(item: &Named, vars: usize, v: usize) -> bool
    requires form { IsNamedForm vars (named_of item.now) }
    requires below { v < vars }
    ensures { result ≡ true → ItemChanges v (named_of item.now) }
{
    match item {
        Named::Point(_) => false,
        Named::Ray { base: _, dir } => dir[v] != 0,
    }
}
