ghost use Rattle.std.specs.Prelude.{◌≡◌, ℕ, ℤ, pos, neg_ℤ, ◌<ℤ◌, List, map};
ghost use Rattle.zr_base.specs.Fractions.{Fraction, whole};
ghost use Rattle.zr_base.specs.Points.{PointOf};
ghost use Rattle.zr_game.specs.Equilibria.{IsEquilibrium};
ghost use Rattle.zr_game.specs.Forms.{IsGame, IsPlayer};
ghost use Rattle.zr_game.specs.Leaves.{bound_with};
ghost use Rattle.zr_game.specs.Players.{GameOf, PlayerOf};
ghost use Rattle.zr_game.specs.Profiles.{Profile as ProfileOf};
ghost use Rattle.zr_game.specs.Rays.{Direction, IsRay, change_of};
ghost use Rattle.zr_branch.specs.Values.{aim_value};
ghost use Rattle.zr_bnb.specs.Values.{IsLeastAt, least_row};
ghost use Rattle.zr_mix.specs.Checks.{IsClaimOf};

/// Let a player's aim in an equilibrium be the left side of its claim with the signs turned. Then
/// the least value along the aim is the right side with its sign turned, a whole number, so that
/// the row that says that the aim is at least this value is the claim; and along no ray does the
/// aim fall.
pub fn law_of_least()
    ensures value { (game : GameOf) → IsGame game → (profile : ProfileOf)
        → IsEquilibrium game profile
        → (i : ℕ) (player : PlayerOf) → IsPlayer game i player → (left : List ℤ) (right : ℤ)
        → IsClaimOf player i profile left right → (f : Fraction) (x : PointOf)
        → IsLeastAt player (map neg_ℤ left) f x → f ≡ whole (neg_ℤ right) }
    ensures row { (left : List ℤ) (right : ℤ)
        → least_row (map neg_ℤ left) (whole (neg_ℤ right)) ≡ bound_with left right }
    ensures ray { (game : GameOf) → IsGame game → (profile : ProfileOf)
        → IsEquilibrium game profile
        → (i : ℕ) (player : PlayerOf) → IsPlayer game i player → (left : List ℤ) (right : ℤ)
        → IsClaimOf player i profile left right → (base : PointOf) (dir : Direction)
        → IsRay player base dir → aim_value player (map neg_ℤ left) (change_of dir) <ℤ pos 0 → ⊥ }
{}
