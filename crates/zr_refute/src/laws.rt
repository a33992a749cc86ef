ghost use Rattle.std.specs.Prelude.{◌≡◌, ◌↔◌, ℕ, List, []};
ghost use Rattle.zr_game.specs.Forms.{IsGame};
ghost use Rattle.zr_game.specs.Named.{NamedOf};
ghost use Rattle.zr_game.specs.Players.{GameOf};
ghost use Rattle.zr_game.specs.declared.choice.Choice.{Choice as AChoice};
ghost use Rattle.zr_game.specs.declared.kind.Kind.{Kind as AKind};
ghost use Rattle.zr_tree.specs.declared.fault.Fault.{Fault as AFault};
ghost use Rattle.zr_tree.specs.Trees.{TreeOf};
ghost use Rattle.zr_cases.specs.Trees.{CasesOf};
ghost use Rattle.zr_system.specs.Choices.{HasCompleteSolution};
ghost use Rattle.zr_system.specs.Covers.{AreCovers};
ghost use Rattle.zr_system.specs.Regions.{LeavesOf};
ghost use Rattle.zr_refute.specs.Covered.{AreRightCovers, covered};
ghost use Rattle.zr_refute.specs.Refuting.{RefutesUnder};
ghost use Rattle.zr_refute.specs.Steps.{HasWideCase, IsRefused, Passes};

/// A refutation passes exactly where it refutes and no step of its sums is too wide; it is then not
/// refused, and a refutation that is refused has one fault.
pub fn law_of_passing_cases()
    ensures passes { (game : GameOf) (leaves : LeavesOf) (kind : AKind) (path : List AChoice)
        (t : CasesOf) → Passes game leaves kind path t
        ↔ (RefutesUnder game leaves kind path t × (HasWideCase game leaves kind path t → ⊥)) }
    ensures apart { (game : GameOf) (leaves : LeavesOf) (kind : AKind) (n : ℕ)
        (path : List AChoice) (t : CasesOf) (fault : AFault) → Passes game leaves kind path t
        → IsRefused game leaves kind n path t fault → ⊥ }
    ensures one { (game : GameOf) (leaves : LeavesOf) (kind : AKind) (n : ℕ)
        (path : List AChoice) (t : CasesOf) (f g : AFault)
        → IsRefused game leaves kind n path t f → IsRefused game leaves kind n path t g → f ≡ g }
{}

/// Where a tree refutes the system, no fractions solve it under any complete list of choices of the
/// kind.
pub fn law_of_no_solutions()
    ensures { (game : GameOf) (leaves : LeavesOf) (kind : AKind) (t : CasesOf)
        → RefutesUnder game leaves kind [] t → HasCompleteSolution game leaves kind → ⊥ }
{}

/// The leaves of right covers hold all of the players' feasible points; the points of a leaf that
/// counts as exact are feasible, and there is one.
pub fn law_of_covered_points()
    ensures { (game : GameOf) → IsGame game → (trees : List TreeOf) (named : List (List NamedOf))
        → AreRightCovers game trees named → AreCovers game (covered game trees named) }
{}
