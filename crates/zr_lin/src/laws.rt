ghost use Rattle.std.specs.Prelude.{◌↔◌, ◌⊎◌, ℕ, ℤ, pos, ◌*ℤ◌, ◌<ℤ◌, List, length};
ghost use Rattle.std.specs.List.{All};
ghost use Rattle.zr_base.specs.Terms.{Terms};
ghost use Rattle.zr_lin.specs.DenseRows.{AreMultipliers, DenseHolds, DenseRow, DenseSolves, HasDenseSolution, HasNoDenseSolution, HasRefutation, combination};
ghost use Rattle.zr_lin.specs.Ineqs.{HasNoSolution, HasSolution, IneqHolds, IneqOf, IsIneq, IsRefuted, Solves, row_at};

/// A row holds at `p / d` exactly where it holds at `(p * e) / (d * e)`, for `e` above zero.
pub fn law_of_scaling()
    ensures dense { (columns : ℕ) (row : DenseRow) (p : ℕ → ℤ) (d e : ℤ) → (pos 0) <ℤ e → DenseHolds columns p d row ↔ DenseHolds columns (λ j. p j *ℤ e) (d *ℤ e) row }
    ensures ineqs { (row : IneqOf) (p : ℕ → ℤ) (d e : ℤ) → (pos 0) <ℤ e → IneqHolds p d row ↔ IneqHolds (λ j. p j *ℤ e) (d *ℤ e) row }
{}

/// What meets the rows meets each combination of them.
pub fn law_of_combination()
    ensures dense { (columns count : ℕ) (row : ℕ → DenseRow) (p : ℕ → ℤ) (d : ℤ) → DenseSolves columns count row p d → (mult : Terms) → AreMultipliers count mult → DenseHolds columns p d (combination row mult) }
    ensures ineqs { (columns : ℕ) (rows : List IneqOf) → All (IsIneq columns) rows → (p : ℕ → ℤ) (d : ℤ) → Solves rows p d → (mult : Terms) → AreMultipliers (length rows) mult → DenseHolds columns p d (combination (row_at rows) mult) }
{}

/// Weak and strict rows have a solution in fractions, or some multipliers refute them, and never both.
///
/// The clauses on dense rows speak of numbers of any size, those on inequalities of numbers that
/// aren't too wide. The method is elimination, which takes the columns away one by one (J. Fourier,
/// 1826). The law is J. Farkas's (1902) for weak rows and T. Motzkin's (1936) for strict ones.
pub fn law_of_alternative()
    ensures dense_either { (columns count : ℕ) (row : ℕ → DenseRow) → HasDenseSolution columns count row ⊎ HasRefutation columns count row }
    ensures dense { (columns count : ℕ) (row : ℕ → DenseRow) → HasNoDenseSolution columns count row ↔ HasRefutation columns count row }
    ensures ineqs_either { (columns : ℕ) (rows : List IneqOf) → All (IsIneq columns) rows → HasSolution rows ⊎ IsRefuted columns rows }
    ensures ineqs { (columns : ℕ) (rows : List IneqOf) → All (IsIneq columns) rows → HasNoSolution rows ↔ IsRefuted columns rows }
{}
