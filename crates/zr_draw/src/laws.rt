ghost use Rattle.std.specs.Prelude.{◌≡◌, ℕ, List, Some, slice_get};
ghost use Rattle.zr_base.specs.Points.{PointOf, num_of};
ghost use Rattle.zr_game.specs.Players.{GameOf};
ghost use Rattle.zr_game.specs.declared.choice.Choice.{Choice as AChoice};
ghost use Rattle.zr_game.specs.declared.kind.Kind.{Kind as AKind};
ghost use Rattle.zr_choices.specs.Replies.{IsSolvedBy};
ghost use Rattle.zr_comp.specs.Answers.{IsCompleteList};
ghost use Rattle.zr_draw.specs.Numbers.{numbers_of};
ghost use Rattle.zr_system.specs.Choices.{SolvesComplete};
ghost use Rattle.zr_system.specs.Regions.{LeavesOf};
ghost use Rattle.zr_system.specs.Unknowns.{columns};
ghost use Rattle.zr_system.specs.declared.unknown.Unknown.{Unknown as AnUnknown};
ghost use Rattle.zr_system.specs.declared.unknown.Unknown.TheVariants.{One};

/// The numbers of the unknowns are those that the point has at their columns, over its
/// denominator; and where the point meets the rows under a complete list of choices, these numbers
/// solve the system under it.
pub fn law_of_numbers()
    ensures columns { (game : GameOf) (leaves : LeavesOf) (x : PointOf) (j : ℕ) (u : AnUnknown)
        → slice_get (columns game leaves) j ≡ Some u → numbers_of game leaves x u ≡ num_of x j }
    ensures one { (game : GameOf) (leaves : LeavesOf) (x : PointOf)
        → numbers_of game leaves x One ≡ x.den }
    ensures solves { (game : GameOf) (leaves : LeavesOf) (kind : AKind) (path : List AChoice)
        (x : PointOf) → IsCompleteList game leaves kind path → IsSolvedBy game leaves path x
        → SolvesComplete game leaves kind path (numbers_of game leaves x) }
{}
