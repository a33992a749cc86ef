ghost use Rattle.std.specs.Prelude.{◌≡◌, ℕ, ◌+◌, ◌<◌, ◌≤◌, ℤ, pos, ◌<ℤ◌, List, length};
ghost use Rattle.std.specs.List.{All, AllPairs};
ghost use Rattle.zr_basis.specs.Programs.{Program};
ghost use Rattle.zr_basis.specs.BasicForms.{AreSlacks, HoldsAt, IsBasicForm, right_column, value_column};
ghost use Rattle.zr_basis.specs.Orders.{IsColumnOrder, IsOrder, IsValueOrder, Order};
ghost use Rattle.zr_basis.specs.Bases.{Exchanges, IsBasis, IsOtherBasis, IsSameBasis};
ghost use Rattle.zr_basis.specs.Choices.{choose};
ghost use Rattle.zr_basis.specs.Stages.{Determines, IsDualFeasibleForm, IsFeasibleForm, Stage};
ghost use Rattle.zr_basis.specs.Primal.{AreVectorsPositive, Drops, IsPrimalDue};
ghost use Rattle.zr_basis.specs.Dual.{AreDirectionsPositive, IsDualDue, IsDualDueByNumbers, Rises};
ghost use Rattle.zr_basis.specs.Runs.{AreFalling, IsRun};

/// The columns of a basis determine the equations, bases with the same columns have the same
/// equations, and what solves the equations of a basis solves the program's.
pub fn law_of_bases()
    ensures determines { (p : Program) (basis : ℕ → ℕ) (form : ℕ → ℕ → ℤ) → IsBasicForm p basis form
        → Determines p basis }
    ensures equations { (p : Program) (basis other : ℕ → ℕ) (form made : ℕ → ℕ → ℤ)
        → IsBasicForm p basis form → IsBasicForm p other made → IsSameBasis p.rows basis other
        → (i k : ℕ) → i ≤ p.rows → k ≤ p.rows → basis i ≡ other k → (j : ℕ) → j ≤ right_column p
        → form i j ≡ made k j }
    ensures complete { (p : Program) (basis : ℕ → ℕ) (form : ℕ → ℕ → ℤ) → IsBasicForm p basis form
        → (x : ℕ → ℤ) (d : ℤ) → ((i : ℕ) → i < p.rows → HoldsAt p (form i) x d) → AreSlacks p x d }
{}

/// Bases of which no two are the same are at most as many as the ways to choose their columns, and
/// there are as many.
pub fn law_of_choices()
    ensures bases { (columns size : ℕ) (bases : List (ℕ → ℕ)) → All (IsBasis columns size) bases
        → AllPairs (IsOtherBasis size) bases → length bases ≤ choose columns size }
    ensures most { (columns size : ℕ) → (bases : List (ℕ → ℕ)) × All (IsBasis columns size) bases
        × AllPairs (IsOtherBasis size) bases × (length bases ≡ choose columns size) }
{}

/// The primal rule: the vectors of the rows are positive from a basis with no right side below zero
/// on, a pivot keeps them so, and the value's vector falls.
pub fn law_of_primal_rule()
    ensures chooses { (p : Program) (start : ℕ → ℕ) (form : ℕ → ℕ → ℤ) (col i : ℕ)
        → col < value_column p → (pos 0) <ℤ form p.rows col → i < p.rows → (pos 0) <ℤ form i col
        → (row : ℕ) × IsPrimalDue p start form row col }
    ensures starts { (p : Program) (basis : ℕ → ℕ) (form : ℕ → ℕ → ℤ) → IsBasicForm p basis form
        → IsFeasibleForm p form → AreVectorsPositive p basis form }
    ensures feasible { (p : Program) (start : ℕ → ℕ) (form : ℕ → ℕ → ℤ)
        → AreVectorsPositive p start form → IsFeasibleForm p form }
    ensures keeps { (p : Program) (start : Stage p) (basis : ℕ → ℕ) (form : ℕ → ℕ → ℤ)
        → IsBasicForm p basis form → AreVectorsPositive p start.basis form → (row col : ℕ)
        → IsPrimalDue p start.basis form row col → (next : ℕ → ℕ) → Exchanges basis row col next
        → (made : ℕ → ℕ → ℤ) → IsBasicForm p next made → AreVectorsPositive p start.basis made }
    ensures drops { (p : Program) (start : Stage p) (basis : ℕ → ℕ) (form : ℕ → ℕ → ℤ)
        → IsBasicForm p basis form → AreVectorsPositive p start.basis form → (row col : ℕ)
        → IsPrimalDue p start.basis form row col → (next : ℕ → ℕ) → Exchanges basis row col next
        → (made : ℕ → ℕ → ℤ) → IsBasicForm p next made → Drops p start.basis form made }
{}

/// The dual rule, in an order of the columns: the directions are positive at the slacks, in the
/// order of the columns, and with the value first where the value falls along no column; a pivot
/// keeps them so, and the basic solution rises.
pub fn law_of_dual_rule()
    ensures orders { (p : Program) (order : Order) → IsColumnOrder p order → IsOrder p order }
    ensures chooses { (p : Program) (order : Order) → IsOrder p order
        → (basis : ℕ → ℕ) (form : ℕ → ℕ → ℤ) → IsBasicForm p basis form → (row : ℕ) → row < p.rows
        → (k : ℕ) → k < value_column p → form row k <ℤ (pos 0)
        → form row (right_column p) <ℤ (pos 0) → (col : ℕ) × IsDualDue p order basis form row col }
    ensures starts { (p : Program) (order : Order) (basis : ℕ → ℕ) (form : ℕ → ℕ → ℤ)
        → IsColumnOrder p order → ((i : ℕ) → i ≤ p.rows → basis i ≡ p.columns + i)
        → AreDirectionsPositive p order basis form }
    ensures goes_on { (p : Program) (order : Order) (basis : ℕ → ℕ) (form : ℕ → ℕ → ℤ)
        → IsBasicForm p basis form → IsDualFeasibleForm p form → IsValueOrder p basis order
        → AreDirectionsPositive p order basis form }
    ensures value { (p : Program) (order : Order) (basis : ℕ → ℕ) (form : ℕ → ℕ → ℤ)
        → IsBasicForm p basis form → IsOrder p order → order.column 0 ≡ value_column p
        → AreDirectionsPositive p order basis form → IsDualFeasibleForm p form }
    ensures numbers { (p : Program) (order : Order) → IsOrder p order
        → (basis : ℕ → ℕ) (form : ℕ → ℕ → ℤ) → IsBasicForm p basis form → (row col : ℕ)
        → IsDualDueByNumbers p order basis form row col → IsDualDue p order basis form row col }
    ensures keeps { (p : Program) (order : Order) → IsOrder p order
        → (basis : ℕ → ℕ) (form : ℕ → ℕ → ℤ) → IsBasicForm p basis form
        → AreDirectionsPositive p order basis form → (row col : ℕ)
        → IsDualDue p order basis form row col → (next : ℕ → ℕ) → Exchanges basis row col next
        → (made : ℕ → ℕ → ℤ) → IsBasicForm p next made → AreDirectionsPositive p order next made }
    ensures rises { (p : Program) (order : Order) → IsOrder p order
        → (basis : ℕ → ℕ) (form : ℕ → ℕ → ℤ) → IsBasicForm p basis form
        → AreDirectionsPositive p order basis form → (row col : ℕ)
        → IsDualDue p order basis form row col → (next : ℕ → ℕ) → Exchanges basis row col next
        → (made : ℕ → ℕ → ℤ) → IsBasicForm p next made → Rises p order basis form next made }
{}

/// A run comes to no basis twice, so its pivots are fewer than the ways to choose the columns of a
/// basis.
pub fn law_of_runs()
    ensures falls { (p : Program) (order : Order) (turn last : ℕ) (stage : ℕ → Stage p)
        → IsRun p order turn last stage → AreFalling p order (stage turn) last stage }
    ensures apart { (p : Program) (order : Order) (turn last : ℕ) (stage : ℕ → Stage p)
        → IsRun p order turn last stage → (i j : ℕ) → i < j → j ≤ last
        → IsOtherBasis p.rows (stage i).basis (stage j).basis }
    ensures few { (p : Program) (order : Order) (turn last : ℕ) (stage : ℕ → Stage p)
        → IsRun p order turn last stage → last < choose (value_column p) p.rows }
{}
