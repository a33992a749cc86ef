//! What the players of a knapsack game draw.
ghost use Rattle.std.specs.Prelude.{◌≡◌, ◌≢◌, ◌*◌, ◌<◌, ◌≤◌, IfOk, length};
ghost use Rattle.zr_gen.specs.Packing.{gain, meeting, player_draw, player_draws, weight};

use crate::draws::{Draws, rank};
use std::alloc::{AllocError, Global};

/// The draws of a game of so many players and items.
#[derive(Debug, Drop)]
pub(crate) struct ItemDraws {
    pub(crate) players: u32,
    pub(crate) items: u32,
    pub(crate) draws: Draws,
    ghost few_players: { players ≤ 16 },
    ghost few_items: { items ≤ 64 },
    ghost all: { length draws.heads.items ≡ players * player_draws players items },
}

impl ItemDraws {
    pub(crate) fn new(
        alloc: Global,
        players: u32,
        items: u32,
        number: u64,
    ) -> Result<ItemDraws, AllocError>
        requires players { players ≤ 16 }
        requires items { items ≤ 64 }
        ensures players { IfOk result (λ drawn. drawn.players ≡ players) }
        ensures items { IfOk result (λ drawn. drawn.items ≡ items) }
        ensures number { IfOk result (λ drawn. drawn.draws.number ≡ number) }
    {
        let count = players as usize * player_draws(players, items);
        let draws = Draws::new(alloc, number, count)?;
        Ok(ItemDraws {
            players,
            items,
            draws,
        })
    }

    /// Player `i`'s draw below `m` at this place, from 0 on.
    fn player_draw(&self, i: u32, place: usize, m: u32) -> u32
        requires player { i < self.now.players }
        requires place { place < player_draws self.now.players self.now.items }
        requires some { 1 ≤ m }
        ensures value { result
            ≡ player_draw self.now.players self.now.items self.now.draws.number i place m }
        ensures below { result < m }
    {
        let first = i as usize * player_draws(self.players, self.items);
        self.draws.below(first + place, m)
    }

    /// The weight of item `k` of player `i`, 1 to 20.
    pub(crate) fn weight(&self, i: u32, k: u32) -> u32
        requires player { i < self.now.players }
        requires item { k < self.now.items }
        ensures value { result
            ≡ weight self.now.players self.now.items self.now.draws.number i k }
        ensures most { result ≤ 20 }
    {
        1 + self.player_draw(i, k as usize, 20)
    }

    /// What player `i` gains by its item `k` alone, 1 to 30.
    pub(crate) fn gain(&self, i: u32, k: u32) -> u32
        requires player { i < self.now.players }
        requires item { k < self.now.items }
        ensures value { result
            ≡ gain self.now.players self.now.items self.now.draws.number i k }
        ensures most { result ≤ 30 }
    {
        1 + self.player_draw(i, self.items as usize + k as usize, 30)
    }

    /// What item `k` costs player `i` more where player `j` takes its own, 0 to 10.
    pub(crate) fn meeting(&self, i: u32, j: u32, k: u32) -> u32
        requires player { i < self.now.players }
        requires other { j < self.now.players }
        requires two { j ≢ i }
        requires item { k < self.now.items }
        ensures { result
            ≡ meeting self.now.players self.now.items self.now.draws.number i j k }
    {
        let round = 2 + rank(i, j) as usize;
        self.player_draw(i, round * self.items as usize + k as usize, 11)
    }
}

/// How many draws a player makes.
fn player_draws(players: u32, items: u32) -> usize
    requires players { players ≤ 16 }
    requires items { items ≤ 64 }
    ensures value { result ≡ player_draws players items }
    ensures most { result ≤ 1088 }
{
    (players as usize + 1) * items as usize
}
