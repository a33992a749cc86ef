ghost use Rattle.std.specs.Prelude.{◌≡◌, ◌+◌, ◌-◌, ◌≤◌, ℕ};
ghost use Rattle.zr_game.specs.Forms.{IsGame, IsPlayer};
ghost use Rattle.zr_game.specs.Leaves.{root_leaf};
ghost use Rattle.zr_game.specs.Players.{GameOf, PlayerOf};
ghost use Rattle.zr_tree.specs.Trees.{TreeOf};
ghost use Rattle.zr_asked.specs.OpenTrees.{IsOpenTree, Work, units};
ghost use Rattle.zr_sizes.specs.Sizes.{AreBounded, leaf_choices};
ghost use Rattle.zr_sizes.specs.Worked.{paired_binaries};

/// Where a player's whole variables all have both bounds, an open tree over its points has fewer
/// inner nodes than the player has leaf choices; and so has the work of each search.
///
/// Each split or choice parts a leaf's choices in two, and leaves none of the children without.
pub fn law_of_few_units()
    ensures tree { (game : GameOf) → IsGame game
        → (i : ℕ) (player : PlayerOf) → IsPlayer game i player → AreBounded player
        → (tree : TreeOf) → IsOpenTree player (root_leaf player) tree
        → (units tree + 1) ≤ leaf_choices player }
    ensures work { (game : GameOf) → IsGame game
        → (i : ℕ) (player : PlayerOf) → IsPlayer game i player → AreBounded player
        → (work : Work player) → units work.tree ≤ (leaf_choices player - 1) }
{}

/// A player with two variables that are 0 or 1, and one pair, has 8 leaf choices.
pub fn law_of_worked_choices()
    ensures { leaf_choices paired_binaries ≡ 8 }
{}
