ghost use Rattle.std.specs.Prelude.{◌≡◌, ◌↔◌, ℕ, List, true};
ghost use Rattle.zr_cases.specs.Cases.{BNodeOf, RNodeOf};
ghost use Rattle.zr_cases.specs.Forms.{box_count, case_count, is_forest_by};
ghost use Rattle.zr_cases.specs.Trees.{BoxTreeOf, CasesOf, box_preorder, preorder};

/// Nodes are one tree exactly where they are those of a refutation as a tree, with a tree for each
/// leaf of the player at a choice among leaves; and so it is of box trees.
pub fn law_of_cases()
    ensures cases { (leaves : List ℕ) (nodes : List RNodeOf)
        → (is_forest_by (case_count leaves) 1 nodes ≡ true)
        ↔ ((t : CasesOf) × (preorder leaves t ≡ nodes)) }
    ensures boxes { (nodes : List BNodeOf) → (is_forest_by box_count 1 nodes ≡ true)
        ↔ ((t : BoxTreeOf) × (box_preorder t ≡ nodes)) }
{}
