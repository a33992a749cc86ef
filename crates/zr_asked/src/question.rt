use zr_game::Choice;
use zr_lin::Stuck;

/// A side of a split or of a choice: a step from a leaf to one of its children.
#[derive(Clone, Copy, Debug, PartialEq, Eq)]
pub enum Move {
    /// The whole variable `var` is at most `at`.
    Low { var: u32, at: i64 },
    /// The whole variable `var` is at least `at + 1`.
    High { var: u32, at: i64 },
    /// The pair's variable is 0.
    VarZero { pair: u32 },
    /// The pair's row is 0.
    RowZero { pair: u32 },
}

/// A linear program that is asked of a game.
#[derive(Debug, Drop)]
pub enum Asked {
    /// To minimise the aim, which has a number for each variable of player `player`, over the rows
    /// of the leaf to which the path leads from the leaf of all its points.
    Branch {
        player: u32,
        path: Vec<Move>,
        aim: Vec<i128>,
    },
    /// To solve the system of the equilibria with the choices of the path.
    Choices {
        path: Vec<Choice>,
    },
}

/// A linear program that was asked, and the step at which it is stuck.
#[derive(Debug, Drop)]
pub struct AskedLp {
    pub question: Asked,
    pub stuck: Stuck,
}
