ghost use Rattle.std.specs.Prelude.{◌↔◌, ◌≡◌, [], ◌∷◌, pos};
ghost use Rattle.zr_base.specs.Points.{PointOf};
ghost use Rattle.zr_game.specs.Equilibria.{HasNoEquilibrium, IsEquilibrium};
ghost use Rattle.zr_game.specs.Feasible.{IsFeasible};
ghost use Rattle.zr_game.specs.Profiles.{Profile};
ghost use Rattle.zr_game.specs.declared.kind.Kind.{Kind};
ghost use Rattle.zr_source.specs.Examples.{chosen, generous};
ghost use Rattle.zr_source.specs.Optimal.{IsLeaderFeasible};
ghost use Rattle.zr_source.specs.SourceForms.{IsSource};
ghost use Rattle.zr_source.specs.SourceEquilibria.{HasNoFollowers, HasNoSourceEquilibrium, IsSourceEquilibrium};
ghost use Rattle.zr_source.specs.Sources.{LeaderOf, SourceOf, bases};

/// Leaders without followers are players: their points, their equilibria and that there is none are
/// those of the game of the bases.
pub fn law_of_leaders_alone()
    ensures points { (leader : LeaderOf) → leader.followers ≡ [] → (x : PointOf)
        → (IsLeaderFeasible leader x ↔ IsFeasible leader.base x) }
    ensures profiles { (source : SourceOf) → HasNoFollowers source → (profile : Profile)
        → (IsSourceEquilibrium source profile ↔ IsEquilibrium (bases source) profile) }
    ensures none { (source : SourceOf) → HasNoFollowers source → (kind : Kind)
        → (HasNoSourceEquilibrium source kind ↔ HasNoEquilibrium (bases source) kind) }
{}

/// A leader whose follower takes the greatest value is a source, and taking a smaller one isn't
/// feasible.
pub fn law_of_greatest()
    ensures source { IsSource (generous ∷ []) }
    ensures greatest { IsLeaderFeasible generous (chosen (pos 2) (pos 2)) }
    ensures smaller { IsLeaderFeasible generous (chosen (pos 2) (pos 1)) → ⊥ }
{}
