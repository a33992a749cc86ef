ghost use Rattle.std.specs.Prelude.{◌+◌, ◌^◌, ◌<◌, ◌≤◌, ℕ, [], length, slice_index_or};
ghost use Rattle.zr_game.specs.Forms.{IsGame};
ghost use Rattle.zr_game.specs.Players.{GameOf};
ghost use Rattle.zr_game.specs.declared.kind.Kind.{Kind as AKind};
ghost use Rattle.zr_cases.specs.Trees.{CasesOf};
ghost use Rattle.zr_system.specs.Regions.{LeavesOf};
ghost use Rattle.zr_comp.specs.Cases.{AreFewSlots};
ghost use Rattle.zr_comp.specs.OpenCases.{IsOpenCases, case_units};
ghost use Rattle.zr_comp.specs.Sizes.{all_nodes};

/// Each leaf of a game has fewer than 2^31 slots where its player has fewer than 2^31 - 448 cuts.
pub fn law_of_few_slots()
    ensures { (game : GameOf) → IsGame game → (leaves : LeavesOf)
        → ((i : ℕ) → i < length game → length (slice_index_or leaves.cuts i []) < 2147483200)
        → AreFewSlots game leaves }
{}

/// An open tree of cases has fewer than 2^n units, where n counts the leaves and the present slots
/// of the exact ones.
pub fn law_of_few_cases()
    ensures { (game : GameOf) (leaves : LeavesOf) (kind : AKind) (t : CasesOf)
        → IsOpenCases game leaves kind [] t
        → case_units leaves t + 1 ≤ 2 ^ length (all_nodes game leaves) }
{}
