ghost use Rattle.std.specs.Prelude.{◌≡◌, ◌↔◌, ◌<◌, ◌+◌, ◌*◌, ◌++◌, ℕ, List, Option, length};
ghost use Rattle.zr_base.specs.Points.{PointOf};
ghost use Rattle.zr_game.specs.Players.{GameOf, PlayerOf};
ghost use Rattle.zr_game.specs.Forms.{IsGame, IsPlayer};
ghost use Rattle.zr_game.specs.Feasible.{IsFeasible};
ghost use Rattle.zr_game.specs.declared.leaf.Leaf.{Leaf};
ghost use Rattle.zr_game.specs.Leaves.{Bound, BoundHolds, IsLeafOf, LeafOf, root_leaf, slot_of, slots};
ghost use Rattle.zr_tree.specs.Nodes.{NodeOf};
ghost use Rattle.zr_tree.specs.Form.{IsTree};
ghost use Rattle.zr_tree.specs.Paths.{HasPlaces};
ghost use Rattle.zr_tree.specs.Visits.{HasForms};
ghost use Rattle.zr_tree.specs.Trees.{TreeOf, preorder};
ghost use Rattle.zr_tree.specs.Right.{IsRefuted, IsRight};
ghost use Rattle.zr_tree.specs.Steps.{HasWideProof, IsRefusedAt, Passes};
ghost use Rattle.zr_tree.specs.Covers.{HoldPoints, IsCoverTree, cover_leaves};
ghost use Rattle.zr_tree.specs.CoverSteps.{CoverPasses, IsRefusedCover, IsWideCover};
ghost use Rattle.zr_tree.specs.declared.fault.Fault.{Fault};

/// A list of nodes that keeps the rules is the nodes of one tree, and of no other.
pub fn law_of_nodes()
    ensures some { (nodes : List NodeOf) → IsTree nodes → (t : TreeOf) × (preorder t ≡ nodes) }
    ensures one { (s t : TreeOf) → preorder s ≡ preorder t → s ≡ t }
{}

/// A tree passes exactly where it is right and no step of its proofs is too wide; it is then not
/// refused, and a tree that is refused has one fault.
pub fn law_of_passing()
    ensures passes { (player : PlayerOf) (bound : Bound) (leaf : LeafOf) (t : TreeOf)
        → Passes player bound leaf t
        ↔ (IsRight player bound leaf t × (HasWideProof player bound leaf t → ⊥)) }
    ensures apart { (player : PlayerOf) (bound : Bound) (k : ℕ) (leaf : LeafOf) (t : TreeOf)
        → (fault : Fault) → Passes player bound leaf t
        → IsRefusedAt player bound k leaf t fault → ⊥ }
    ensures one { (player : PlayerOf) (bound : Bound) (k : ℕ) (leaf : LeafOf) (t : TreeOf)
        → (f g : Fault) → IsRefusedAt player bound k leaf t f
        → IsRefusedAt player bound k leaf t g → f ≡ g }
{}

/// A row that a right tree proves holds at every feasible point.
pub fn law_of_right_trees()
    ensures { (game : GameOf) → IsGame game → (i : ℕ) (player : PlayerOf) → IsPlayer game i player
        → (bound : Bound) (t : TreeOf) → IsRight player bound (root_leaf player) t
        → (x : PointOf) → IsFeasible player x → BoundHolds player x bound }
{}

/// Where a tree refutes its root leaf, a player has no feasible point; and a tree that refutes a
/// leaf is right there for every row.
pub fn law_of_refuted_trees()
    ensures none { (game : GameOf) → IsGame game
        → (i : ℕ) (player : PlayerOf) → IsPlayer game i player
        → (t : TreeOf) → IsRefuted player (root_leaf player) t
        → (x : PointOf) → IsFeasible player x → ⊥ }
    ensures every { (player : PlayerOf) (bound : Bound) (leaf : LeafOf) (t : TreeOf)
        → IsRefuted player leaf t → IsRight player bound leaf t }
{}

/// A tree passes as a cover exactly where it is one and no step of its sums is too wide; it is then
/// not refused, and a tree that is refused has one fault.
pub fn law_of_passing_covers()
    ensures passes { (player : PlayerOf) (leaf : LeafOf) (t : TreeOf) → CoverPasses player leaf t
        ↔ (IsCoverTree player leaf t × (IsWideCover player leaf t → ⊥)) }
    ensures apart { (player : PlayerOf) (k : ℕ) (leaf : LeafOf) (t : TreeOf) (fault : Fault)
        → CoverPasses player leaf t → IsRefusedCover player k leaf t fault → ⊥ }
    ensures one { (player : PlayerOf) (k : ℕ) (leaf : LeafOf) (t : TreeOf) (f g : Fault)
        → IsRefusedCover player k leaf t f → IsRefusedCover player k leaf t g → f ≡ g }
{}

/// Each feasible point meets the rows of one of a cover's leaves; the points that meet the rows of
/// an exact leaf are feasible, and there is one.
pub fn law_of_covers()
    ensures { (game : GameOf) → IsGame game → (i : ℕ) (player : PlayerOf) → IsPlayer game i player
        → (t : TreeOf) → IsCoverTree player (root_leaf player) t
        → HoldPoints player (cover_leaves player (root_leaf player) t) }
{}

/// What the rows of slots are read from: a game's players have it, and so has a leaf of a player.
pub fn law_of_slots()
    ensures player { (game : GameOf) → IsGame game
        → (i : ℕ) (player : PlayerOf) → IsPlayer game i player → HasForms player }
    ensures leaf { (player : PlayerOf) (leaf : Leaf) → IsLeafOf player leaf
        → HasPlaces player leaf }
{}

/// A leaf has a slot for each of the player's rows, and two for each variable and for each pair.
/// Rows that follow them change neither these numbers nor what stands there, and are numbered on.
pub fn law_of_later_rows()
    ensures count { (player : PlayerOf) (leaf : LeafOf) → length (slots player leaf)
        ≡ length player.rows + (length player.vars + length player.pairs) * 2 }
    ensures first { (player : PlayerOf) (leaf : LeafOf) (more : List (Option Bound)) (k : ℕ)
        → k < length (slots player leaf)
        → slot_of (slots player leaf ++ more) k ≡ slot_of (slots player leaf) k }
    ensures later { (player : PlayerOf) (leaf : LeafOf) (more : List (Option Bound)) (k : ℕ)
        → slot_of (slots player leaf ++ more) (length (slots player leaf) + k) ≡ slot_of more k }
{}
