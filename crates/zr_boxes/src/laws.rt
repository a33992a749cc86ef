ghost use Rattle.std.specs.Prelude.{◌≡◌, ◌↔◌, ℕ, List, slice_set};
ghost use Rattle.zr_base.specs.Fractions.{IsLess};
ghost use Rattle.zr_base.specs.Points.{PointOf};
ghost use Rattle.zr_game.specs.Players.{GameOf, PlayerOf};
ghost use Rattle.zr_game.specs.Costs.{cost_of};
ghost use Rattle.zr_game.specs.Forms.{IsGame, IsPlayer};
ghost use Rattle.zr_game.specs.Equilibria.{HasNoEquilibrium};
ghost use Rattle.zr_game.specs.declared.kind.Kind.TheVariants.{Pure};
ghost use Rattle.zr_tree.specs.declared.fault.Fault.{Fault};
ghost use Rattle.zr_cases.specs.Trees.{BoxTreeOf, box_preorder};
ghost use Rattle.zr_boxes.specs.Boxes.{BoxOf, IsInBox, root_box};
ghost use Rattle.zr_boxes.specs.Right.{IsBetter, IsRightBox};
ghost use Rattle.zr_boxes.specs.Steps.{BoxPasses, HasWideBox, IsRefusedBox};

/// A list of nodes is that of one box tree at most.
pub fn law_of_box_nodes()
    ensures { (s t : BoxTreeOf) → box_preorder s ≡ box_preorder t → s ≡ t }
{}

/// A box tree passes exactly where it is right and no step of its sums is too wide; it is then not
/// refused, and a box tree that is refused has one fault.
pub fn law_of_passing_boxes()
    ensures passes { (game : GameOf) (box : BoxOf) (t : BoxTreeOf) → BoxPasses game box t
        ↔ (IsRightBox game box t × (HasWideBox game box t → ⊥)) }
    ensures apart { (game : GameOf) (k : ℕ) (box : BoxOf) (t : BoxTreeOf) (fault : Fault)
        → BoxPasses game box t → IsRefusedBox game k box t fault → ⊥ }
    ensures one { (game : GameOf) (k : ℕ) (box : BoxOf) (t : BoxTreeOf) (f g : Fault)
        → IsRefusedBox game k box t f → IsRefusedBox game k box t g → f ≡ g }
{}

/// Where the least gain of a feasible point is above zero in a box, all bounds that it needs being
/// there, the player pays less at this point than at its own one, whatever the profile of the box.
pub fn law_of_gains()
    ensures { (game : GameOf) → IsGame game
        → (box : BoxOf) (points : List PointOf) → IsInBox game box points
        → (i : ℕ) (player : PlayerOf) → IsPlayer game i player
        → (x : PointOf) → IsBetter player i box x
        → IsLess (cost_of player i (slice_set points i x)) (cost_of player i points) }
{}

/// A right box tree leaves no pure equilibrium.
pub fn law_of_box_trees()
    ensures { (game : GameOf) → IsGame game
        → (t : BoxTreeOf) → IsRightBox game (root_box game) t
        → HasNoEquilibrium game Pure }
{}
