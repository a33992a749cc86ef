ghost use Rattle.std.specs.Prelude.{◌≡◌, ◌<◌, ℕ, true, None, IsTrue, IfSome, length};
ghost use Rattle.std.specs.List.{All};
ghost use Rattle.zr_game.specs.Games.{game_of};
ghost use Rattle.zr_system.specs.Regions as content;
ghost use Rattle.zr_system.specs.Regions.{leaves_of};
ghost use Rattle.zr_system.specs.Asked.{AreLeaves, ChoiceExists, LeafExists};
ghost use Rattle.zr_system.specs.Choices.{AreSlotsDecided, IsComplete, IsSlotDecided, IsUsed};
ghost use Rattle.zr_comp.specs.Cases.{AreFewSlots, HasChosen, HasSide, IsCase};
ghost use Rattle.zr_comp.specs.OpenPaths.{SuitsKind};

use crate::case::Case;
use crate::path::has;
use zr_game::{Choice, Game, Kind};
use zr_system::{Leaves, is_exact, is_present, leaf_count, player_count, slot_count};

/// The case of a leaf, if it is neither On nor Off.
pub(crate) fn leaf_case(
    game: &Game,
    leaves: &Leaves,
    path: &[Choice],
    i: u32,
    k: u32,
) -> Option<Case>
    requires leaves { AreLeaves (game_of game.now) leaves.now }
    requires path { SuitsKind Kind.Mixed path.now }
    requires leaf { LeafExists (game_of game.now) (leaves_of leaves.now) i k }
    ensures some { IfSome result
        (IsCase (game_of game.now) (leaves_of leaves.now) Kind.Mixed path.now) }
    ensures none { result ≡ None → HasSide path.now i k }
{
    if has(path, Choice::Off { player: i, leaf: k }) {
        return None;
    }
    if has(path, Choice::On { player: i, leaf: k }) {
        return None;
    }
    Some(Case::Leaf { player: i, leaf: k })
}

/// The case of a slot of an exact leaf that is On or chosen, if it is present and not decided.
pub(crate) fn slot_case(
    game: &Game,
    leaves: &Leaves,
    kind: Kind,
    path: &[Choice],
    i: u32,
    k: u32,
    s: u32,
) -> Option<Case>
    requires leaves { AreLeaves (game_of game.now) leaves.now }
    requires leaf { LeafExists (game_of game.now) (leaves_of leaves.now) i k }
    requires exact { content.is_exact (leaves_of leaves.now) i k ≡ true }
    requires used { IsUsed path.now i k }
    ensures some { IfSome result (IsCase (game_of game.now) (leaves_of leaves.now) kind path.now) }
    ensures none { result ≡ None
        → IsTrue (content.is_present (game_of game.now) (leaves_of leaves.now) i k s)
        → IsSlotDecided path.now i k s }
{
    if !is_present(game, leaves, i as usize, k as usize, s as usize) {
        return None;
    }
    if has(
        path,
        Choice::Zero {
            player: i,
            leaf: k,
            slot: s,
        },
    ) {
        return None;
    }
    if has(
        path,
        Choice::Tight {
            player: i,
            leaf: k,
            slot: s,
        },
    ) {
        return None;
    }
    Some(Case::Slot {
        player: i,
        leaf: k,
        slot: s,
    })
}

/// The first case of a slot of an exact leaf that is On or chosen.
fn slots_case(
    game: &Game,
    leaves: &Leaves,
    kind: Kind,
    path: &[Choice],
    i: u32,
    k: u32,
) -> Option<Case>
    requires leaves { AreLeaves (game_of game.now) leaves.now }
    requires few { AreFewSlots (game_of game.now) (leaves_of leaves.now) }
    requires leaf { LeafExists (game_of game.now) (leaves_of leaves.now) i k }
    requires exact { content.is_exact (leaves_of leaves.now) i k ≡ true }
    requires used { IsUsed path.now i k }
    ensures some { IfSome result (IsCase (game_of game.now) (leaves_of leaves.now) kind path.now) }
    ensures none { result ≡ None
        → AreSlotsDecided (game_of game.now) (leaves_of leaves.now) path.now i k }
{
    for s in 0..slot_count(game, leaves, i as usize, k as usize) as u32 {
        let case = slot_case(game, leaves, kind, path, i, k, s);
        if case.is_some() {
            return case;
        }
    }
    None
}

/// The first case of a slot of a leaf, if the leaf is exact, and On or chosen.
fn used_case(
    game: &Game,
    leaves: &Leaves,
    kind: Kind,
    path: &[Choice],
    i: u32,
    k: u32,
) -> Option<Case>
    requires leaves { AreLeaves (game_of game.now) leaves.now }
    requires few { AreFewSlots (game_of game.now) (leaves_of leaves.now) }
    requires leaf { LeafExists (game_of game.now) (leaves_of leaves.now) i k }
    ensures some { IfSome result (IsCase (game_of game.now) (leaves_of leaves.now) kind path.now) }
    ensures none { result ≡ None → IsUsed path.now i k
        → AreSlotsDecided (game_of game.now) (leaves_of leaves.now) path.now i k }
{
    if !is_exact(game, leaves, i as usize, k as usize) {
        return None;
    }
    if has(path, Choice::On { player: i, leaf: k }) {
        return slots_case(game, leaves, kind, path, i, k);
    }
    if has(path, Choice::Which { player: i, leaf: k }) {
        return slots_case(game, leaves, kind, path, i, k);
    }
    None
}

/// The case of a player, if none of its leaves is chosen.
pub(crate) fn player_case(game: &Game, leaves: &Leaves, path: &[Choice], i: u32) -> Option<Case>
    requires leaves { AreLeaves (game_of game.now) leaves.now }
    requires exist { All (ChoiceExists (game_of game.now) (leaves_of leaves.now)) path.now }
    requires path { SuitsKind Kind.Pure path.now }
    requires player { i < length (game_of game.now) }
    ensures some { IfSome result
        (IsCase (game_of game.now) (leaves_of leaves.now) Kind.Pure path.now) }
    ensures same { IfSome result (λ case. case ≡ Case.Player i) }
    ensures none { result ≡ None → HasChosen (leaves_of leaves.now) path.now i }
{
    for k in 0..leaf_count(game, leaves, i as usize) as u32 {
        if has(path, Choice::Which { player: i, leaf: k }) {
            return None;
        }
    }
    Some(Case::Player { player: i })
}

/// The first case of a player of whom no leaf is chosen.
pub(crate) fn players_case(game: &Game, leaves: &Leaves, path: &[Choice]) -> Option<Case>
    requires leaves { AreLeaves (game_of game.now) leaves.now }
    requires exist { All (ChoiceExists (game_of game.now) (leaves_of leaves.now)) path.now }
    requires path { SuitsKind Kind.Pure path.now }
    ensures some { IfSome result
        (IsCase (game_of game.now) (leaves_of leaves.now) Kind.Pure path.now) }
    ensures none { result ≡ None → (i : ℕ) → i < length (game_of game.now)
        → HasChosen (leaves_of leaves.now) path.now i }
{
    for i in 0..player_count(game) as u32 {
        let case = player_case(game, leaves, path, i);
        if case.is_some() {
            return case;
        }
    }
    None
}

/// The first case of a leaf of a player that is neither On nor Off.
fn leaves_case(game: &Game, leaves: &Leaves, path: &[Choice], i: u32) -> Option<Case>
    requires leaves { AreLeaves (game_of game.now) leaves.now }
    requires path { SuitsKind Kind.Mixed path.now }
    requires player { i < length (game_of game.now) }
    ensures some { IfSome result
        (IsCase (game_of game.now) (leaves_of leaves.now) Kind.Mixed path.now) }
    ensures none { result ≡ None → (k : ℕ) → k < content.leaf_count (leaves_of leaves.now) i
        → HasSide path.now i k }
{
    for k in 0..leaf_count(game, leaves, i as usize) as u32 {
        let case = leaf_case(game, leaves, path, i, k);
        if case.is_some() {
            return case;
        }
    }
    None
}

/// The first case of a leaf that is neither On nor Off.
fn sides_case(game: &Game, leaves: &Leaves, path: &[Choice]) -> Option<Case>
    requires leaves { AreLeaves (game_of game.now) leaves.now }
    requires path { SuitsKind Kind.Mixed path.now }
    ensures some { IfSome result
        (IsCase (game_of game.now) (leaves_of leaves.now) Kind.Mixed path.now) }
    ensures none { result ≡ None → (i k : ℕ) → i < length (game_of game.now)
        → k < content.leaf_count (leaves_of leaves.now) i → HasSide path.now i k }
{
    for i in 0..player_count(game) as u32 {
        let case = leaves_case(game, leaves, path, i);
        if case.is_some() {
            return case;
        }
    }
    None
}

/// The first case of a slot of a player's leaves that are On or chosen.
fn player_slots_case(
    game: &Game,
    leaves: &Leaves,
    kind: Kind,
    path: &[Choice],
    i: u32,
) -> Option<Case>
    requires leaves { AreLeaves (game_of game.now) leaves.now }
    requires few { AreFewSlots (game_of game.now) (leaves_of leaves.now) }
    requires player { i < length (game_of game.now) }
    ensures some { IfSome result (IsCase (game_of game.now) (leaves_of leaves.now) kind path.now) }
    ensures none { result ≡ None → (k : ℕ) → k < content.leaf_count (leaves_of leaves.now) i
        → IsUsed path.now i k
        → AreSlotsDecided (game_of game.now) (leaves_of leaves.now) path.now i k }
{
    for k in 0..leaf_count(game, leaves, i as usize) as u32 {
        let case = used_case(game, leaves, kind, path, i, k);
        if case.is_some() {
            return case;
        }
    }
    None
}

/// The first case of a slot of the leaves that are On or chosen.
fn all_slots_case(game: &Game, leaves: &Leaves, kind: Kind, path: &[Choice]) -> Option<Case>
    requires leaves { AreLeaves (game_of game.now) leaves.now }
    requires few { AreFewSlots (game_of game.now) (leaves_of leaves.now) }
    ensures some { IfSome result (IsCase (game_of game.now) (leaves_of leaves.now) kind path.now) }
    ensures none { result ≡ None → (i k : ℕ) → i < length (game_of game.now)
        → k < content.leaf_count (leaves_of leaves.now) i → IsUsed path.now i k
        → AreSlotsDecided (game_of game.now) (leaves_of leaves.now) path.now i k }
{
    for i in 0..player_count(game) as u32 {
        let case = player_slots_case(game, leaves, kind, path, i);
        if case.is_some() {
            return case;
        }
    }
    None
}

/// The first case that isn't decided on the path, by numbers: leaves, or for the pure kind
/// players, before slots. Where there is none, the path is complete.
pub(crate) fn first_case(game: &Game, leaves: &Leaves, kind: Kind, path: &[Choice]) -> Option<Case>
    requires leaves { AreLeaves (game_of game.now) leaves.now }
    requires few { AreFewSlots (game_of game.now) (leaves_of leaves.now) }
    requires exist { All (ChoiceExists (game_of game.now) (leaves_of leaves.now)) path.now }
    requires path { SuitsKind kind path.now }
    ensures some { IfSome result (IsCase (game_of game.now) (leaves_of leaves.now) kind path.now) }
    ensures none { result ≡ None
        → IsComplete (game_of game.now) (leaves_of leaves.now) kind path.now }
{
    match kind {
        Kind::Mixed => {
            let case = sides_case(game, leaves, path);
            if case.is_some() {
                return case;
            }
            all_slots_case(game, leaves, kind, path)
        }
        Kind::Pure => {
            let case = players_case(game, leaves, path);
            if case.is_some() {
                return case;
            }
            all_slots_case(game, leaves, kind, path)
        }
    }
}
