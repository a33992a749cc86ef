ghost use Rattle.std.specs.Prelude.{◌≡◌, ◌<◌, ◌≤◌, length, map, IfOk};
ghost use Rattle.std.specs.List.{All};
ghost use Rattle.zr_game.specs.Games.{game_of};
ghost use Rattle.zr_game.specs.Forms.{IsPlayer};
ghost use Rattle.zr_game.specs.Players.{PlayerOf, players_of};
ghost use Rattle.zr_tree.specs.Scratches.{most_vars};
ghost use Rattle.zr_mix.specs.Steps.{place_of};
ghost use Rattle.zr_cert.specs.Certs.{bound_of, nodes_of, verdict_of};
ghost use Rattle.zr_cert.specs.Listed.{cert_of};
ghost use Rattle.zr_check.specs.Rooms.{HasRoom, box_trees_of, trees_of};

use crate::cover_room::room_for_covers;
use std::alloc::Global;
use std::marker::Model;
use zr_base::{Frac, NoMemory};
use zr_boxes::BoxScratch;
use zr_cert::{Bound, Cert, Verdict};
use zr_game::{Game, Player};
use zr_refute::CaseRoom;
use zr_system::Leaves;
use zr_tree::{Scratch, Tree};

/// Room for the checks of certificates: it takes memory once and serves many checks.
#[derive(Drop)]
pub struct Room {
    /// The means of all players, one after another.
    pub(crate) means: Vec<Frac>,
    pub(crate) bench: Bench,
    pub(crate) boxes: BoxScratch,
    /// For a verdict of covers that fits the players.
    pub(crate) covers: Option<CoverRoom>,
}

/// The leaves of covers, and room for a refutation over them.
#[derive(Drop)]
pub(crate) struct CoverRoom {
    pub(crate) leaves: Leaves,
    pub(crate) cases: CaseRoom,
}

/// Room for the check of one player's bound.
#[derive(Drop)]
pub(crate) struct Bench {
    pub(crate) scratch: Scratch,
    pub(crate) slopes: Vec<Frac>,
    /// The left side of a row.
    pub(crate) left: Vec<i128>,
}

impl Model for Room {
    ghost use Rattle.std.specs.Prelude.{length};
    ghost use Rattle.zr_check.specs.Rooms.{RoomOf};

    ghost Value = { RoomOf };

    ghost view = { λ r. record { scratch = r.bench.scratch; means = length r.means.items; slopes = length r.bench.slopes.items; claims = length r.bench.left.items; boxes = r.boxes; covers = r.covers } };
}

/// Room for both checks of this certificate, whose places are enough for it. The call fails for want
/// of memory alone.
pub fn scratch_for(alloc: Global, game: &Game, cert: &Cert) -> Result<Room, NoMemory>
    ensures { IfOk result (HasRoom (game_of game.now) (cert_of cert.now)) }
{
    let vars = greatest_vars(&game.players);
    let nodes = greatest_tree(&cert.verdict);
    let scratch = Scratch::new(alloc, game, nodes, vars)?;
    let means = fractions(alloc, place(game, game.players.len()))?;
    let slopes = fractions(alloc, vars)?;
    let left = vec![in alloc; 0; vars].map_err(|_| NoMemory)?;
    let bench = Bench {
        scratch,
        slopes,
        left,
    };
    let boxes = BoxScratch::new(alloc, game, greatest_box_tree(&cert.verdict))?;
    let covers = room_for_covers(alloc, game, cert)?;
    Ok(Room {
        means,
        bench,
        boxes,
        covers,
    })
}

fn fractions(alloc: Global, count: usize) -> Result<Vec<Frac>, NoMemory>
    ensures { IfOk result (λ list. length list.items ≡ count) }
{
    let zero = Frac::new(0, 1).unwrap();
    vec![in alloc; zero; count].map_err(|_| NoMemory)
}

/// The place of the first variable of player `k` among the variables of all players; where `k` is
/// the number of players, how many variables there are.
pub(crate) fn place(game: &Game, k: usize) -> usize
    requires { k ≤ length (game_of game.now) }
    ensures { result ≡ place_of (game_of game.now) k 0 }
{
    let mut before = 0;
    for player in &game.players[..k] {
        before += player.vars.len();
    }
    before
}

/// How many variables player `i` has.
pub(crate) fn var_count(game: &Game, i: u32) -> usize
    requires { i < length (game_of game.now) }
    ensures { (player : PlayerOf) → IsPlayer (game_of game.now) i player
        → result ≡ length player.vars }
{
    game.players[i as usize].vars.len()
}

/// The greatest number of variables among the players.
fn greatest_vars(players: &[Player]) -> usize
    ensures { result ≡ most_vars (players_of players.now) }
{
    let mut most = 0;
    for player in players {
        most = player.vars.len().max(most);
    }
    most
}

/// The greatest number of nodes of a tree that is checked.
fn greatest_tree(verdict: &Verdict) -> usize
    ensures { All (λ nodes. length nodes ≤ result) (trees_of (verdict_of verdict.now)) }
{
    match verdict {
        Verdict::Profile { profile: _, bounds } => greatest_bound(bounds),
        Verdict::NoneEmpty { player: _, tree } => tree.nodes.len(),
        Verdict::NoneCover {
            covers,
            named: _,
            proof: _,
        } => greatest_cover(covers),
        Verdict::NoneBoxes { tree: _ } => 0,
    }
}

/// The greatest number of nodes of a box tree that is checked.
fn greatest_box_tree(verdict: &Verdict) -> usize
    ensures { All (λ nodes. length nodes ≤ result) (box_trees_of (verdict_of verdict.now)) }
{
    match verdict {
        Verdict::NoneBoxes { tree } => tree.nodes.len(),
        Verdict::Profile {
            profile: _,
            bounds: _,
        }
        | Verdict::NoneCover {
            covers: _,
            named: _,
            proof: _,
        }
        | Verdict::NoneEmpty { player: _, tree: _ } => 0,
    }
}

/// The greatest number of nodes of a bound's tree.
fn greatest_bound(bounds: &[Bound]) -> usize
    ensures { All (λ nodes. length nodes ≤ result) (map (λ b. b.tree) (map bound_of bounds.now)) }
{
    let mut most = 0;
    for bound in bounds {
        most = bound.tree.nodes.len().max(most);
    }
    most
}

/// The greatest number of nodes of a cover.
fn greatest_cover(covers: &[Tree]) -> usize
    ensures { All (λ nodes. length nodes ≤ result) (map nodes_of covers.now) }
{
    let mut most = 0;
    for cover in covers {
        most = cover.nodes.len().max(most);
    }
    most
}
