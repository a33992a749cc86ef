ghost use Rattle.std.specs.Prelude.{◌≡◌, ◌+◌, ◌^◌, ◌<◌, ◌≤◌, ℕ, [], List, length};
ghost use Rattle.zr_io.specs.Purses.{counted};
ghost use Rattle.zr_io.specs.declared.purse.Purse.{Purse};
ghost use Rattle.zr_game.specs.Forms.{IsGame};
ghost use Rattle.zr_game.specs.Named.{NamedOf};
ghost use Rattle.zr_game.specs.Players.{GameOf};
ghost use Rattle.zr_game.specs.declared.kind.Kind.{Kind};
ghost use Rattle.zr_tree.specs.Trees.{TreeOf};
ghost use Rattle.zr_cases.specs.Trees.{CasesOf};
ghost use Rattle.zr_refute.specs.Covered.{covered};
ghost use Rattle.zr_comp.specs.OpenCases.{IsOpenCases, case_units};
ghost use Rattle.zr_best.specs.Works.{AreOpenTrees, HasMoreBestWork, SpendsBestWork, all_units};
ghost use Rattle.zr_works.specs.Most.{AreAllBounded, all_choices, all_places, most_work};
ghost use Rattle.zr_works.specs.Worked.{matching_pennies};

/// Where all whole variables have both bounds, open trees, one per player, have together fewer units
/// than the players have leaf choices: at each player one less.
pub fn law_of_all_trees()
    ensures { (game : GameOf) → IsGame game → AreAllBounded game
        → (trees : List TreeOf) → AreOpenTrees game trees
        → all_units trees + length game ≤ all_choices game }
{}

/// Then the work of finding every player's least cost is less than the players' leaf choices.
pub fn law_of_best_work()
    ensures left { (game : GameOf) → IsGame game → AreAllBounded game
        → (purse : Purse) → HasMoreBestWork game purse
        → purse.limit < counted purse + all_choices game }
    ensures spent { (game : GameOf) → IsGame game → AreAllBounded game
        → (old new : Purse) → SpendsBestWork game old new
        → new.branches < old.branches + all_choices game }
{}

/// Then an open tree of cases over the leaves of open trees, one per player, has fewer than 2^n
/// units, where n counts the leaves that there may be and their slots.
///
/// An open tree has a leaf more than inner nodes, and a case is one of a leaf or of a slot.
pub fn law_of_bounded_cases()
    ensures { (game : GameOf) → IsGame game → AreAllBounded game
        → (trees : List TreeOf) → AreOpenTrees game trees
        → (named : List (List NamedOf)) (kind : Kind) (t : CasesOf)
        → IsOpenCases game (covered game trees named) kind [] t
        → case_units (covered game trees named) t + 1 ≤ 2 ^ all_places game }
{}

/// Then the work of deciding the game is less than `most_work`: that of open trees, one per player,
/// of an open tree of cases over the leaves of such trees, and of open trees, one per player.
pub fn law_of_all_work()
    ensures { (game : GameOf) → IsGame game → AreAllBounded game
        → (covers trees bounds : List TreeOf)
        → AreOpenTrees game covers → AreOpenTrees game trees → AreOpenTrees game bounds
        → (named : List (List NamedOf)) (kind : Kind) (t : CasesOf)
        → IsOpenCases game (covered game trees named) kind [] t
        → all_units covers + case_units (covered game trees named) t + all_units bounds
        < most_work game }
{}

/// Of matching pennies, where each of two players has one variable that is 0 or 1, there are fewer
/// than 8,200 units of work.
pub fn law_of_worked_pennies()
    ensures work { most_work matching_pennies ≡ 8200 }
    ensures best { all_choices matching_pennies ≡ 4 }
{}
