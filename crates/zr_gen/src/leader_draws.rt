//! What leaders draw.
ghost use Rattle.std.specs.Prelude.{◌≡◌, ◌≢◌, ◌*◌, ◌<◌, ◌≤◌, IfOk, length};
ghost use Rattle.zr_gen.specs.Following.{answer_gain, bound, lead, leader_draw, leader_draws, leader_gain, price, rivalry};

use crate::draws::{Draws, rank};
use std::alloc::{AllocError, Global};

/// The draws of a game of so many leaders.
#[derive(Debug, Drop)]
pub(crate) struct LeaderDraws {
    pub(crate) players: u32,
    pub(crate) draws: Draws,
    ghost few_players: { players ≤ 16 },
    ghost all: { length draws.heads.items ≡ players * leader_draws players },
}

impl LeaderDraws {
    pub(crate) fn new(alloc: Global, players: u32, number: u64) -> Result<LeaderDraws, AllocError>
        requires { players ≤ 16 }
        ensures players { IfOk result (λ drawn. drawn.players ≡ players) }
        ensures number { IfOk result (λ drawn. drawn.draws.number ≡ number) }
    {
        let count = players as usize * leader_draws(players);
        let draws = Draws::new(alloc, number, count)?;
        Ok(LeaderDraws { players, draws })
    }

    /// Leader `i`'s draw below `m` at this place, from 0 on.
    fn leader_draw(&self, i: u32, place: usize, m: u32) -> u32
        requires player { i < self.now.players }
        requires place { place < leader_draws self.now.players }
        requires some { 1 ≤ m }
        ensures value { result
            ≡ leader_draw self.now.players self.now.draws.number i place m }
        ensures below { result < m }
    {
        let first = i as usize * leader_draws(self.players);
        self.draws.below(first + place, m)
    }

    /// The greatest value of leader `i`'s variable, 1 to 20.
    pub(crate) fn bound(&self, i: u32) -> u32
        requires { i < self.now.players }
        ensures { result ≡ bound self.now.players self.now.draws.number i }
    {
        1 + self.leader_draw(i, 0, 20)
    }

    /// How far the follower's variable may be above the leader's, 0 to 4.
    pub(crate) fn lead(&self, i: u32) -> u32
        requires { i < self.now.players }
        ensures { result ≡ lead self.now.players self.now.draws.number i }
    {
        self.leader_draw(i, 1, 5)
    }

    /// What the follower gains by each unit of its variable, 1 to 3.
    pub(crate) fn answer_gain(&self, i: u32) -> u32
        requires { i < self.now.players }
        ensures { result ≡ answer_gain self.now.players self.now.draws.number i }
    {
        1 + self.leader_draw(i, 2, 3)
    }

    /// What leader `i` pays for each unit of its variable, 1 to 9.
    pub(crate) fn price(&self, i: u32) -> u32
        requires { i < self.now.players }
        ensures { result ≡ price self.now.players self.now.draws.number i }
    {
        1 + self.leader_draw(i, 3, 9)
    }

    /// What leader `i` gains by each unit of its follower's variable, 1 to 9.
    pub(crate) fn leader_gain(&self, i: u32) -> u32
        requires { i < self.now.players }
        ensures { result ≡ leader_gain self.now.players self.now.draws.number i }
    {
        1 + self.leader_draw(i, 4, 9)
    }

    /// The number of the cross term of leader `i`'s follower with leader `j`'s, 0 to 3.
    pub(crate) fn rivalry(&self, i: u32, j: u32) -> u32
        requires player { i < self.now.players }
        requires other { j < self.now.players }
        requires two { j ≢ i }
        ensures { result ≡ rivalry self.now.players self.now.draws.number i j }
    {
        self.leader_draw(i, 5 + rank(i, j) as usize, 4)
    }
}

/// How many draws a leader makes.
fn leader_draws(players: u32) -> usize
    requires { players ≤ 16 }
    ensures { result ≡ leader_draws players }
{
    players as usize + 4
}
