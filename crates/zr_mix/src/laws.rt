ghost use Rattle.std.specs.Prelude.{◌≡◌, ℕ, ℤ, List, Ok};
ghost use Rattle.zr_base.specs.Fractions.{Fraction, IsSame, plus};
ghost use Rattle.zr_base.specs.Lowest.{add_of};
ghost use Rattle.zr_base.specs.Points.{PointOf, value_of};
ghost use Rattle.zr_game.specs.Players.{GameOf, PlayerOf};
ghost use Rattle.zr_game.specs.Forms.{IsGame, IsPlayer};
ghost use Rattle.zr_game.specs.Feasible.{IsFeasible};
ghost use Rattle.zr_game.specs.Profiles.{IsProfile, Profile as ProfileOf, deviation, expected_cost, strategy_of};
ghost use Rattle.zr_game.specs.Equilibria.{IsEquilibrium};
ghost use Rattle.zr_game.specs.Means.{along_slope, mean, rest as rest_of};
ghost use Rattle.zr_mix.specs.Values.{IsReduced};
ghost use Rattle.zr_mix.specs.Checks.{ClaimHolds, HasClaims, IsClaimOf};

/// Costs go by means: a player's expected cost is the sum over its variables of slope times mean,
/// plus its terms in the others' variables alone at the others' means, so that the sum that is made
/// of these two is the expected cost in lowest terms; and a deviation to a point costs the sum of
/// slope times value, plus the same.
pub fn law_of_costs_by_means()
    ensures played { (game : GameOf) → IsGame game → (profile : ProfileOf) → IsProfile game profile
        → (i : ℕ) (player : PlayerOf) → IsPlayer game i player
        → IsSame (expected_cost player i profile)
        (plus (along_slope player profile (mean (strategy_of profile i)))
        (rest_of player profile)) }
    ensures made { (game : GameOf) → IsGame game → (profile : ProfileOf) → IsProfile game profile
        → (i : ℕ) (player : PlayerOf) → IsPlayer game i player → (value rest f : Fraction)
        → IsReduced value (along_slope player profile (mean (strategy_of profile i)))
        → IsReduced rest (rest_of player profile) → add_of value rest ≡ Ok f
        → IsReduced f (expected_cost player i profile) }
    ensures deviated { (game : GameOf) → IsGame game → (profile : ProfileOf)
        → IsProfile game profile
        → (i : ℕ) (player : PlayerOf) → IsPlayer game i player → (x : PointOf) → IsFeasible player x
        → IsSame (expected_cost player i (deviation profile i x))
        (plus (along_slope player profile (value_of x)) (rest_of player profile)) }
{}

/// A profile is an equilibrium where each player has a claim that holds at each feasible point, and
/// the claims of an equilibrium do.
pub fn law_of_claims()
    ensures enough { (game : GameOf) → IsGame game → (profile : ProfileOf) → IsProfile game profile
        → HasClaims game profile → IsEquilibrium game profile }
    ensures needed { (game : GameOf) → IsGame game → (profile : ProfileOf)
        → IsEquilibrium game profile → (i : ℕ) (player : PlayerOf) → IsPlayer game i player
        → (left : List ℤ) (right : ℤ) → IsClaimOf player i profile left right → ClaimHolds player
        left right }
{}
