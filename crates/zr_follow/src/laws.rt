ghost use Rattle.std.specs.Prelude.{◌≡◌, ◌↔◌, ℕ, ℤ, pos, ◌<ℤ◌, List, length};
ghost use Rattle.zr_base.specs.Fractions.{IsSame};
ghost use Rattle.zr_base.specs.Points.{IsSamePoint, PointOf};
ghost use Rattle.zr_game.specs.Forms.{IsPlayer};
ghost use Rattle.zr_game.specs.Feasible.{IsFeasible};
ghost use Rattle.zr_game.specs.Costs.{cost_of};
ghost use Rattle.zr_game.specs.Profiles.{IsOfKind, IsProfile, Profile, deviation, expected_cost};
ghost use Rattle.zr_game.specs.Equilibria.{HasNoEquilibrium, IsEquilibrium};
ghost use Rattle.zr_game.specs.declared.kind.Kind.{Kind};
ghost use Rattle.zr_follow.specs.Programs.{HasMultipliers, IsIn, IsLeast, Program};
ghost use Rattle.zr_source.specs.Sources.{IsLeader, LeaderOf, SourceOf};
ghost use Rattle.zr_source.specs.SourceForms.{IsSource};
ghost use Rattle.zr_source.specs.Optimal.{IsLeaderFeasible};
ghost use Rattle.zr_follow.specs.Expansion.{expanded, expansion};
ghost use Rattle.zr_source.specs.SourceEquilibria.{HasNoSourceEquilibrium, IsSourceEquilibrium};
ghost use Rattle.zr_follow.specs.BaseParts.{base_part, base_points, base_profile};
ghost use Rattle.zr_follow.specs.SameProfiles.{IsSameProfile};

/// A point of a linear program is least exactly where the rows have multipliers there.
///
/// This is the duality of linear programs (D. Gale, H. W. Kuhn and A. W. Tucker, 1951).
pub fn law_of_multipliers()
    ensures { (program : Program) (x : ℕ → ℤ) (d : ℤ) → IsIn program x d
        → (IsLeast program x d ↔ HasMultipliers program x d) }
{}

/// A point is feasible for a leader, its followers' answers being optimal, exactly where some
/// multipliers make it a feasible point of the expanded player.
pub fn law_of_expansion()
    ensures exactly { (source : SourceOf) → IsSource source → (i : ℕ) (leader : LeaderOf)
        → IsLeader source i leader → (x : PointOf) → pos 0 <ℤ x.den
        → (IsLeaderFeasible leader x
        ↔ ((z : PointOf) × IsSamePoint (base_part leader z) x × IsFeasible (expanded leader) z)) }
    ensures base { (source : SourceOf) → IsSource source → (i : ℕ) (leader : LeaderOf)
        → IsLeader source i leader → (z : PointOf)
        → IsFeasible (expanded leader) z → IsLeaderFeasible leader (base_part leader z) }
    ensures players { (source : SourceOf) (i : ℕ) (leader : LeaderOf)
        → IsLeader source i leader → IsPlayer (expansion source) i (expanded leader) }
{}

/// Multipliers cost nothing: costs and expected costs of an expanded player are those of the leader
/// without the multipliers, also where the player plays another point, and each point that the
/// leader may play instead costs what some point of the expanded player costs.
pub fn law_of_expanded_costs()
    ensures points { (source : SourceOf) → IsSource source → (i : ℕ) (leader : LeaderOf)
        → IsLeader source i leader → (points : List PointOf) → length points ≡ length source
        → cost_of (expanded leader) i points
        ≡ cost_of leader.base i (base_points source points) }
    ensures profiles { (source : SourceOf) → IsSource source → (i : ℕ) (leader : LeaderOf)
        → IsLeader source i leader → (profile : Profile) → length profile ≡ length source
        → expected_cost (expanded leader) i profile
        ≡ expected_cost leader.base i (base_profile source profile) }
    ensures deviations { (source : SourceOf) → IsSource source → (profile : Profile)
        → IsProfile (expansion source) profile → (i : ℕ) (leader : LeaderOf)
        → IsLeader source i leader → (z : PointOf) → IsFeasible (expanded leader) z
        → expected_cost (expanded leader) i (deviation profile i z)
        ≡ expected_cost leader.base i
        (deviation (base_profile source profile) i (base_part leader z)) }
    ensures all_deviations { (source : SourceOf) → IsSource source → (profile : Profile)
        → IsProfile (expansion source) profile → (i : ℕ) (leader : LeaderOf)
        → IsLeader source i leader → (x : PointOf) → IsLeaderFeasible leader x
        → (z : PointOf) × IsFeasible (expanded leader) z
        × IsSame (expected_cost (expanded leader) i (deviation profile i z))
        (expected_cost leader.base i (deviation (base_profile source profile) i x)) }
{}

/// A profile of the expansion is an equilibrium exactly where it is one of the source without its
/// multipliers, and it is then of the same kind. Each equilibrium of the source is some equilibrium
/// of the expansion, of the same kind, with the multipliers left out; so the expansion has none of a
/// kind exactly where the source has none.
pub fn law_of_expanded_equilibria()
    ensures profiles { (source : SourceOf) → IsSource source → (profile : Profile)
        → IsProfile (expansion source) profile → (IsEquilibrium (expansion source) profile
        ↔ IsSourceEquilibrium source (base_profile source profile)) }
    ensures kinds { (source : SourceOf) (profile : Profile) → length profile ≡ length source
        → (kind : Kind)
        → (IsOfKind kind profile ↔ IsOfKind kind (base_profile source profile)) }
    ensures lifts { (source : SourceOf) → IsSource source → (kind : Kind) (profile : Profile)
        → IsOfKind kind profile → IsSourceEquilibrium source profile
        → ((lift : Profile) × IsOfKind kind lift × IsEquilibrium (expansion source) lift
        × IsSameProfile (base_profile source lift) profile) }
    ensures none { (source : SourceOf) → IsSource source → (kind : Kind)
        → (HasNoEquilibrium (expansion source) kind ↔ HasNoSourceEquilibrium source kind) }
{}
