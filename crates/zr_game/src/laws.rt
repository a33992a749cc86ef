ghost use Rattle.std.specs.Prelude.{◌≡◌, ◌↔◌, ℕ, List, [], ◌∷◌, length, slice_set};
ghost use Rattle.zr_base.specs.Fractions.{IsSame, plus};
ghost use Rattle.zr_base.specs.Points.{IsSamePoint, PointOf, value_of};
ghost use Rattle.zr_game.specs.Players.{GameOf, PlayerOf};
ghost use Rattle.zr_game.specs.Forms.{IsGame, IsPlayer};
ghost use Rattle.zr_game.specs.Feasible.{IsFeasible};
ghost use Rattle.zr_game.specs.Costs.{cost_of, point_of};
ghost use Rattle.zr_game.specs.Profiles.{IsOfKind, IsProfile, Profile, deviation, expected_cost, strategy_of};
ghost use Rattle.zr_game.specs.PureProfiles.{IsStableAt, points_of};
ghost use Rattle.zr_game.specs.Equilibria.{HasNoEquilibrium, IsEquilibrium};
ghost use Rattle.zr_game.specs.Means.{IsBestAlongSlope, along_slope, mean, rest};
ghost use Rattle.zr_game.specs.Leaves.{MeetsLeaf, root_leaf};
ghost use Rattle.zr_game.specs.Rays.{Direction, IsRay, IsRelaxedRay, StaysFeasible};
ghost use Rattle.zr_game.specs.Pennies.{half_half, pennies};
ghost use Rattle.zr_game.specs.declared.kind.Kind.TheVariants.{Pure};

/// Points of the same values are feasible alike.
pub fn law_of_same_points()
    ensures { (player : PlayerOf) (x y : PointOf) → IsFeasible player x → IsSamePoint x y
        → IsFeasible player y }
{}

/// Points of the same values cost the same.
pub fn law_of_same_costs()
    ensures { (player : PlayerOf) (i : ℕ) (points others : List PointOf)
        → ((k v : ℕ) → IsSame (value_of (point_of points k) v) (value_of (point_of others k) v))
        → IsSame (cost_of player i points) (cost_of player i others) }
{}

/// The expected cost of a pure profile is the cost at its points, and so it is where one player
/// plays another point.
pub fn law_of_pure_costs()
    ensures played { (game : GameOf) (profile : Profile) → IsProfile game profile
        → IsOfKind Pure profile
        → (i : ℕ) (player : PlayerOf) → IsPlayer game i player
        → IsSame (expected_cost player i profile) (cost_of player i (points_of profile)) }
    ensures deviated { (game : GameOf) (profile : Profile) → IsProfile game profile
        → IsOfKind Pure profile
        → (i : ℕ) (player : PlayerOf) → IsPlayer game i player → (x : PointOf) → IsFeasible player x
        → IsSame (expected_cost player i (deviation profile i x))
        (cost_of player i (slice_set (points_of profile) i x)) }
{}

/// A pure profile is an equilibrium exactly where no player has a feasible point at which its cost
/// is smaller.
pub fn law_of_pure_equilibria()
    ensures { (game : GameOf) (profile : Profile) → IsProfile game profile → IsOfKind Pure profile
        → (IsEquilibrium game profile ↔ IsStableAt game (points_of profile)) }
{}

/// An expected cost is the sum of slope times mean, plus the player's terms in the others'
/// variables alone at the others' means.
pub fn law_of_means()
    ensures { (game : GameOf) → IsGame game → (profile : Profile) → IsProfile game profile
        → (i : ℕ) (player : PlayerOf) → IsPlayer game i player
        → IsSame (expected_cost player i profile)
        (plus (along_slope player profile (mean (strategy_of profile i))) (rest player profile)) }
{}

/// A deviation costs the sum of slope times value, plus the same.
pub fn law_of_deviations()
    ensures { (game : GameOf) → IsGame game → (profile : Profile) → IsProfile game profile
        → (i : ℕ) (player : PlayerOf) → IsPlayer game i player → (x : PointOf) → IsFeasible player x
        → IsSame (expected_cost player i (deviation profile i x))
        (plus (along_slope player profile (value_of x)) (rest player profile)) }
{}

/// A profile is an equilibrium exactly where no feasible point is below a player's mean along its
/// slope.
pub fn law_of_equilibria()
    ensures { (game : GameOf) → IsGame game → (profile : Profile) → IsProfile game profile
        → (IsEquilibrium game profile ↔ IsBestAlongSlope game profile) }
{}

/// Matching pennies: playing 0 and 1 alike is an equilibrium, and no pure profile is one.
pub fn law_of_pennies()
    ensures halves { IsEquilibrium pennies (half_half ∷ half_half ∷ []) }
    ensures pure { HasNoEquilibrium pennies Pure }
{}

/// A direction is a ray at a base exactly where each whole multiple of it leads from the base to a
/// feasible point.
pub fn law_of_rays()
    ensures { (game : GameOf) → IsGame game → (i : ℕ) (player : PlayerOf) → IsPlayer game i player
        → (base : PointOf) (dir : Direction) → length base.num ≡ length player.vars
        → length dir ≡ length player.vars
        → (IsRay player base dir ↔ StaysFeasible player base dir) }
{}

/// A ray is one of the relaxation.
pub fn law_of_relaxed_rays()
    ensures { (game : GameOf) → IsGame game → (i : ℕ) (player : PlayerOf) → IsPlayer game i player
        → (base : PointOf) (dir : Direction) → IsRay player base dir → IsRelaxedRay player dir }
{}

/// A feasible point meets the leaf of all points.
pub fn law_of_root_leaf()
    ensures { (game : GameOf) → IsGame game → (i : ℕ) (player : PlayerOf) → IsPlayer game i player
        → (x : PointOf) → IsFeasible player x → MeetsLeaf player (root_leaf player) x }
{}
