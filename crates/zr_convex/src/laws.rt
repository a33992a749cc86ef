ghost use Rattle.std.specs.Prelude.{◌↔◌, List, [], ℕ, ℤ};
ghost use Rattle.zr_base.specs.Points.{PointOf};
ghost use Rattle.zr_game.specs.Named.{NamedOf};
ghost use Rattle.zr_game.specs.Players.{GameOf};
ghost use Rattle.zr_game.specs.Forms.{IsGame};
ghost use Rattle.zr_game.specs.Profiles.{IsOfKind, IsProfile, Profile};
ghost use Rattle.zr_game.specs.declared.choice.Choice.{Choice as AChoice};
ghost use Rattle.zr_game.specs.Equilibria.{HasNoEquilibrium, IsEquilibrium};
ghost use Rattle.zr_game.specs.declared.kind.Kind.{Kind as AKind};
ghost use Rattle.zr_system.specs.declared.unknown.Unknown.{Unknown as AnUnknown};
ghost use Rattle.zr_system.specs.Alike.{AreAlike};
ghost use Rattle.zr_system.specs.Choices.{HasCompleteSolution, SolvesComplete};
ghost use Rattle.zr_system.specs.Covers.{AreCovers, AreExact};
ghost use Rattle.zr_system.specs.Drawn.{drawn_profile};
ghost use Rattle.zr_system.specs.Regions.{LeavesOf};
ghost use Rattle.zr_system.specs.Unions.{IsMixture, IsSumOfShares};
ghost use Rattle.zr_tree.specs.Trees.{TreeOf};
ghost use Rattle.zr_cases.specs.Trees.{CasesOf};
ghost use Rattle.zr_refute.specs.Covered.{AreRightCovers, ShowsNone, covered};
ghost use Rattle.zr_refute.specs.Refuting.{RefutesUnder};

/// Every equilibrium of a kind gives fractions that solve the system under some complete list of
/// choices of this kind, whatever the covers are, and whatever feasible points, and rays at such, are
/// named.
///
/// A point that lies in several leaves is counted to one of them. The multipliers of exact leaves
/// are those of J. Farkas (1902). That the mean of points of several leaves is a sum of shares is
/// E. Balas's description of a union of polyhedra (1979).
pub fn law_of_solutions()
    ensures leaves { (game : GameOf) → IsGame game → (leaves : LeavesOf) → AreCovers game leaves
        → (kind : AKind) (profile : Profile) → IsOfKind kind profile → IsEquilibrium game profile
        → HasCompleteSolution game leaves kind }
    ensures covers { (game : GameOf) → IsGame game → (trees : List TreeOf)
        (named : List (List NamedOf)) → AreRightCovers game trees named
        → (kind : AKind) (profile : Profile) → IsOfKind kind profile → IsEquilibrium game profile
        → HasCompleteSolution game (covered game trees named) kind }
{}

/// Where a tree of choices refutes the system over covers of the players' points, with named points
/// and rays, no profile of the kind is an equilibrium.
pub fn law_of_none()
    ensures leaves { (game : GameOf) → IsGame game → (leaves : LeavesOf) → AreCovers game leaves
        → (kind : AKind) (t : CasesOf) → RefutesUnder game leaves kind [] t
        → HasNoEquilibrium game kind }
    ensures covers { (game : GameOf) → IsGame game → (kind : AKind) (trees : List TreeOf)
        (named : List (List NamedOf)) (t : CasesOf) → ShowsNone game kind trees named t
        → HasNoEquilibrium game kind }
{}

/// Over covers all of whose leaves count as exact, fractions that solve the system under a complete
/// list of choices draw an equilibrium of the kind: each leaf with weight is played with this weight,
/// at its shares over it. Each profile of the game under which all quantities of points have the same
/// expected values is an equilibrium too, though maybe not a pure one where the kind is pure.
pub fn law_of_drawn_profiles()
    ensures drawn { (game : GameOf) → IsGame game → (leaves : LeavesOf) → AreCovers game leaves
        → AreExact game leaves → (kind : AKind) (path : List AChoice) (x : AnUnknown → ℤ)
        → SolvesComplete game leaves kind path x
        → IsOfKind kind (drawn_profile game leaves x)
        × IsEquilibrium game (drawn_profile game leaves x) }
    ensures alike { (game : GameOf) → IsGame game → (leaves : LeavesOf) → AreCovers game leaves
        → AreExact game leaves → (kind : AKind) (path : List AChoice) (x : AnUnknown → ℤ)
        → SolvesComplete game leaves kind path x
        → (profile : Profile) → IsProfile game profile
        → AreAlike (drawn_profile game leaves x) profile → IsEquilibrium game profile }
{}

/// A point is the mean of finitely many weighted points of a player's leaves exactly where it is the
/// sum of the shares of a solution of the union's rows in which each leaf is on or off.
///
/// The rows are E. Balas's description of a union of polyhedra (1979).
pub fn law_of_unions()
    ensures { (game : GameOf) (leaves : LeavesOf) (i : ℕ) (x : PointOf)
        → IsMixture game leaves i x ↔ IsSumOfShares game leaves i x }
{}
