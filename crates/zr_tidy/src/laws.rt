ghost use Rattle.std.specs.Prelude.{ℕ, ℤ, pos, ◌<ℤ◌, ◌≤ℤ◌, unsigned_abs, []};
ghost use Rattle.std.specs.Int.{◌∣◌};
ghost use Rattle.std.specs.List.{All};
ghost use Rattle.zr_game.specs.Profiles.{Strategy, total};
ghost use Rattle.zr_system.specs.Alike.{IsAlike};
ghost use Rattle.zr_tidy.specs.Merges.{AreDivided, AreMerged};
ghost use Rattle.zr_tidy.specs.Tidy.{IsTidy};

/// Where parts are merged by their points in lowest terms, in ascending order, and the weights are
/// divided by their greatest common divisor, the strategy is tidy; and every quantity of points has
/// the same expected value under it.
pub fn law_of_tidying()
    ensures tidy { (raw merged parts : Strategy) (by : ℤ) → (pos 0) <ℤ by
        → All (λ part. (pos 1) ≤ℤ part.weight) raw
        → AreMerged [] raw merged → AreDivided by merged parts
        → ((d : ℕ) → All (λ part. d ∣ unsigned_abs part.weight) merged → d ∣ unsigned_abs by)
        → IsTidy parts }
    ensures alike { (raw merged parts : Strategy) (by : ℤ) → (pos 0) <ℤ by
        → (pos 0) <ℤ total raw → All (λ part. (pos 0) <ℤ part.point.den) raw
        → AreMerged [] raw merged → AreDivided by merged parts → IsAlike raw parts }
{}
