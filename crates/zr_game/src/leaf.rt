ghost use Rattle.std.specs.Prelude.{◌≡◌, ◌↔◌, ◌<◌, ℕ, ℤ, None, Some, true, IsTrue, IfOk, length, map, replicate, slice_get, slice_index_or};
ghost use Rattle.zr_game.specs.Players.{PlayerOf, VarOf, var_of};
ghost use Rattle.zr_game.specs.Games.{game_of};
ghost use Rattle.zr_game.specs.Forms.{IsPlayer};
ghost use Rattle.zr_game.specs.Leaves.{IsLeafOf, IsSettled, leaf_of, root_leaf};

use crate::game::Game;
use crate::player::Var;
use std::alloc::{AllocError, Global};
use zr_base::NoMemory;

/// Which of a pair's two conditions is known to hold on a branch.
#[derive(Clone, Copy, Debug, PartialEq, Eq)]
pub enum Side {
    Undecided,
    /// The variable is 0.
    VarZero,
    /// The row `coef * x + add` is 0.
    RowZero,
}

/// A branch of a player's points: for each variable a low and a high bound, where it has them, and
/// a side for each pair.
#[derive(Debug, Drop)]
pub struct Leaf {
    pub low: Vec<Option<i64>>,
    pub high: Vec<Option<i64>>,
    pub sides: Vec<Side>,
}

impl Leaf {
    /// The leaf of all points of player `i`, which is below the number of players: the bounds are
    /// the variables' own, and every side is undecided.
    pub fn root(alloc: Global, game: &Game, i: u32) -> Result<Leaf, NoMemory>
        requires { i < length (game_of game.now) }
        ensures lengths { (player : PlayerOf) → IsPlayer (game_of game.now) i player
            → IfOk result (IsLeafOf player) }
        ensures root { (player : PlayerOf) → IsPlayer (game_of game.now) i player
            → IfOk result (λ leaf. leaf_of leaf ≡ root_leaf player) }
    {
        let player = &game.players[i as usize];
        let Ok(low) = lower_bounds(alloc, &player.vars) else {
            return Err(NoMemory);
        };
        let Ok(high) = upper_bounds(alloc, &player.vars) else {
            return Err(NoMemory);
        };
        let sides = undecided(alloc, player.pairs.len())?;
        Ok(Leaf { low, high, sides })
    }

    /// Whether each whole variable has one value and no pair is undecided.
    ///
    /// The leaf has a low and a high for each variable of player `i`, which is below the number of
    /// players, and a side for each of its pairs.
    pub fn settled(&self, game: &Game, i: u32) -> bool
        requires number { i < length (game_of game.now) }
        requires lengths { (player : PlayerOf) → IsPlayer (game_of game.now) i player
            → IsLeafOf player self.now }
        ensures { (player : PlayerOf) → IsPlayer (game_of game.now) i player
            → (IsTrue result ↔ IsSettled player (leaf_of self.now)) }
    {
        let player = &game.players[i as usize];
        are_fixed(&player.vars, &self.low, &self.high) & are_decided(&self.sides)
    }
}

fn lower_bounds(alloc: Global, vars: &[Var]) -> Result<Vec<Option<i64>>, AllocError>
    ensures { IfOk result (λ low. low.items ≡ map (λ var. var.low) vars.now) }
{
    vars.iter().map(|var| var.low).collect(alloc)
}

fn undecided(alloc: Global, count: usize) -> Result<Vec<Side>, NoMemory>
    ensures { IfOk result (λ sides. sides.items ≡ replicate count Side.Undecided) }
{
    vec![in alloc; Side::Undecided; count].map_err(|_| NoMemory)
}

fn upper_bounds(alloc: Global, vars: &[Var]) -> Result<Vec<Option<i64>>, AllocError>
    ensures { IfOk result (λ high. high.items ≡ map (λ var. var.up) vars.now) }
{
    vars.iter().map(|var| var.up).collect(alloc)
}

/// Whether each whole variable has one value.
fn are_fixed(vars: &[Var], low: &[Option<i64>], high: &[Option<i64>]) -> bool
    requires lows { length low.now ≡ length vars.now }
    requires highs { length high.now ≡ length vars.now }
    ensures { IsTrue result ↔ ((v : ℕ) (var : VarOf) → slice_get (map var_of vars.now) v ≡ Some var
        → var.whole ≡ true
        → (value : ℤ) × (slice_index_or low.now v None ≡ Some value) ×
        (slice_index_or high.now v None ≡ Some value)) }
{
    let mut all = true;
    for (v, var) in vars.iter().enumerate() {
        all &= is_fixed(var, low[v], high[v]);
    }
    all
}

fn is_fixed(var: &Var, low: Option<i64>, high: Option<i64>) -> bool
    ensures { IsTrue result ↔ (var.now.whole ≡ true → (value : ℤ) × (low ≡ Some value)
        × (high ≡ Some value)) }
{
    !var.whole || low.is_some() && low == high
}

/// Whether no side is undecided.
fn are_decided(sides: &[Side]) -> bool
    ensures { IsTrue result ↔ ((p : ℕ) → p < length sides.now
        → slice_index_or sides.now p Side.Undecided ≡ Side.Undecided → ⊥) }
{
    sides.iter().all(|side| *side != Side::Undecided)
}
