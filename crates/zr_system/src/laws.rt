ghost use Rattle.std.specs.Prelude.{◌≡◌, ◌↔◌, ℕ, ℤ, List, Some, length, slice_get, slice_index_or};
ghost use Rattle.std.specs.List.{All};
ghost use Rattle.zr_lin.specs.Ineqs.{Solves};
ghost use Rattle.zr_game.specs.Players.{GameOf};
ghost use Rattle.zr_game.specs.declared.choice.Choice.{Choice as AChoice};
ghost use Rattle.zr_system.specs.declared.unknown.Unknown.{Unknown as AnUnknown};
ghost use Rattle.zr_system.specs.declared.unknown.Unknown.TheVariants.{One};
ghost use Rattle.zr_system.specs.Asked.{ChoiceExists, IsInColumns};
ghost use Rattle.zr_system.specs.Choices.{rows_under};
ghost use Rattle.zr_system.specs.Forms.{SolvesForms};
ghost use Rattle.zr_system.specs.Lines.{base_lines};
ghost use Rattle.zr_system.specs.Regions.{LeavesOf};
ghost use Rattle.zr_system.specs.System.{cell_count, system_rows};
ghost use Rattle.zr_system.specs.Unknowns.{columns};
ghost use Rattle.zr_system.specs.Worked.{all_corners, two_binary};

/// Over all settled leaves, two players of eight binary variables have 25,604 rows and 12,802
/// columns, and two players of six have 11,848,712 cells.
pub fn law_of_worked_counts()
    ensures rows { length (base_lines (two_binary 8) (all_corners 8)) ≡ 25604 }
    ensures columns { length (columns (two_binary 8) (all_corners 8)) ≡ 12802 }
    ensures cells { cell_count (two_binary 6) (all_corners 6) ≡ 11848712 }
{}

/// Numbers of the unknowns meet the rows' forms under a path of choices exactly where they meet the
/// system's rows over the columns.
pub fn law_of_columns()
    ensures { (game : GameOf) (leaves : LeavesOf) (path : List AChoice)
        → All (ChoiceExists game leaves) path → (x : AnUnknown → ℤ)
        → SolvesForms (rows_under game leaves path) x ↔ Solves (system_rows game leaves path)
        (λ j. x (slice_index_or (columns game leaves) j One)) (x One) }
{}

/// The values of players, the shares and weights of leaves, and the multipliers of slots that are
/// present in exact leaves have one column each, and nothing else has one.
pub fn law_of_unknowns()
    ensures once { (game : GameOf) (leaves : LeavesOf) (u : AnUnknown)
        → IsInColumns game leaves u
        → (j : ℕ) × (slice_get (columns game leaves) j ≡ Some u)
        × ((k : ℕ) → slice_get (columns game leaves) k ≡ Some u → k ≡ j) }
    ensures alone { (game : GameOf) (leaves : LeavesOf) (j : ℕ) (u : AnUnknown)
        → slice_get (columns game leaves) j ≡ Some u → IsInColumns game leaves u }
{}
