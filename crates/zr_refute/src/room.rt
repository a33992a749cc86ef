ghost use Rattle.std.specs.Prelude.{◌≡◌, IfOk, length};
ghost use Rattle.zr_game.specs.Games.{game_of};
ghost use Rattle.zr_system.specs.Asked.{AreLeaves};
ghost use Rattle.zr_system.specs.Lines as in_order;
ghost use Rattle.zr_system.specs.Regions.{leaves_of};
ghost use Rattle.zr_system.specs.Unknowns.{columns};

use crate::path::CasePath;
use std::alloc::Global;
use std::marker::Model;
use zr_base::NoMemory;
use zr_game::{Choice, Game};
use zr_system::{Leaves, Line, Unknown, base_lines, unknowns};

/// Room for the checks of refutations over some leaves: it takes memory once and serves many checks.
#[derive(Drop)]
pub struct CaseRoom {
    pub(crate) table: Table,
}

#[derive(Drop)]
pub(crate) struct Table {
    /// The unknowns by column.
    pub(crate) order: Vec<Unknown>,
    /// The rows where no choice is made.
    pub(crate) base: Vec<Line>,
    /// A sum for each column.
    pub(crate) sums: Vec<i128>,
    pub(crate) path: CasePath,
}

impl Model for CaseRoom {
    ghost use Rattle.zr_refute.specs.Rooms.{CaseRoomOf, room_of};

    ghost Value = { CaseRoomOf };

    ghost view = { λ r. room_of r.table };
}

impl CaseRoom {
    /// Room for refutations of so many nodes over these leaves. The call fails for want of memory
    /// alone.
    pub fn new(
        alloc: Global,
        game: &Game,
        leaves: &Leaves,
        nodes: usize,
    ) -> Result<CaseRoom, NoMemory>
        requires { AreLeaves (game_of game.now) leaves.now }
        ensures { IfOk result (λ room. room ≡ record {
          order = columns (game_of game.now) (leaves_of leaves.now);
          lines = in_order.base_lines (game_of game.now) (leaves_of leaves.now);
          sums = length (columns (game_of game.now) (leaves_of leaves.now));
          choices = nodes;
        }) }
    {
        let order = unknowns(alloc, game, leaves)?;
        let base = base_lines(alloc, game, leaves)?;
        let sums = vec![in alloc; 0; order.len()].map_err(|_| NoMemory)?;
        let choices = places(alloc, nodes)?;
        let path = CasePath { choices, depth: 0 };
        let table = Table {
            order,
            base,
            sums,
            path,
        };
        Ok(CaseRoom { table })
    }
}

/// Places for so many choices.
fn places(alloc: Global, count: usize) -> Result<Vec<Choice>, NoMemory>
    ensures { IfOk result (λ list. length list.items ≡ count) }
{
    let any = Choice::Off { player: 0, leaf: 0 };
    vec![in alloc; any; count].map_err(|_| NoMemory)
}
