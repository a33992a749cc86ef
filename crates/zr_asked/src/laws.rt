ghost use Rattle.std.specs.Prelude.{◌≡◌, ◌↔◌, ◌<◌, ◌≤◌, ℕ, ℤ, pos, ◌*ℤ◌, ◌<ℤ◌, ◌≤ℤ◌, List, length};
ghost use Rattle.zr_base.specs.Sums.{sum_to};
ghost use Rattle.zr_base.specs.Points.{PointOf, num_of};
ghost use Rattle.zr_game.specs.Forms.{IsGame, IsPlayer};
ghost use Rattle.zr_game.specs.Players.{GameOf, PlayerOf, VarOf};
ghost use Rattle.zr_game.specs.Leaves.{LeafOf, MeetsLeaf};
ghost use Rattle.zr_asked.specs.declared.question.Move.{Move};
ghost use Rattle.zr_asked.specs.Branches.{SolvesProgram, branch_program};
ghost use Rattle.zr_asked.specs.Parts.{by_part, parts_of, value_by};
ghost use Rattle.zr_asked.specs.Paths.{branch};

/// A row or an aim has the same value at the columns as at the values of the variables.
pub fn law_of_branch_values()
    ensures { (vars : List VarOf) (coef y : ℕ → ℤ)
        → sum_to (length (parts_of vars)) (λ c. by_part (parts_of vars) coef c *ℤ y c)
        ≡ sum_to (length vars) (λ v. coef v *ℤ value_by (parts_of vars) y v) }
{}

/// Columns that are at least 0 solve a branch's program exactly where their values meet the rows of
/// its leaf; and each point that meets them has such columns.
pub fn law_of_branch_points()
    ensures same { (player : PlayerOf) (leaf : LeafOf) (aim y : ℕ → ℤ) (x : PointOf)
        → (pos 0) <ℤ x.den → length x.num ≡ length player.vars
        → ((v : ℕ) → v < length player.vars → num_of x v ≡ value_by (parts_of player.vars) y v)
        → ((c : ℕ) → c < length (parts_of player.vars) → (pos 0) ≤ℤ y c)
        → MeetsLeaf player leaf x ↔ SolvesProgram (branch_program player leaf aim) y x.den }
    ensures some { (game : GameOf) → IsGame game
        → (i : ℕ) (player : PlayerOf) → IsPlayer game i player
        → (path : List Move) (aim : ℕ → ℤ) (x : PointOf)
        → MeetsLeaf player (branch player path) x
        → (y : ℕ → ℤ) × SolvesProgram (branch_program player (branch player path) aim) y x.den
        × ((v : ℕ) → v < length player.vars
        → num_of x v ≡ value_by (parts_of player.vars) y v) }
{}
