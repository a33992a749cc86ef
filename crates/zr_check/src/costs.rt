ghost use Rattle.std.specs.Prelude.{◌≡◌, ◌↔◌, ◌+◌, ◌^◌, ◌<◌, ◌≤◌, IsTrue, IfErr, OnOk, Ok, length, map, take, List};
ghost use Rattle.std.specs.List.{All};
ghost use Rattle.zr_game.specs.Players.{PlayerOf};
ghost use Rattle.zr_game.specs.Games.{game_of};
ghost use Rattle.zr_game.specs.Forms.{IsPlayer};
ghost use Rattle.zr_tree.specs.Scratches.{most_pairs, most_vars};
ghost use Rattle.zr_game.specs.Leaves.{bound_with};
ghost use Rattle.zr_mix.specs.Steps.{var_total};
ghost use Rattle.zr_cert.specs.Certs.{MixtureOf, bound_of, nodes_of};
ghost use Rattle.zr_cert.specs.Lines.{bound_lines, mixture_lines, sum_lines};
ghost use Rattle.zr_check.specs.Bounds.{BoundPasses, BoundRefused, BoundsPass, BoundsRefused, TreePasses, TreeRefused, all_means, at_line as line_of, cost_steps, own_means as means_of_player};
ghost use Rattle.zr_check.specs.Benches.{GivesCost, HasBench, IsSameBench, node_number};

use crate::room::{Bench, place, var_count};
use zr_base::{Frac, Wide};
use zr_cert::{Bound, CertFault};
use zr_game::Game;
use zr_mix::{claim, rest, slope, value};
use zr_tree::{Fault, Scratch, Tree, bounds};

/// Tests the cost lines and the nodes of their trees, the first of which is `line`, where `means`
/// has the means of all players, one after another.
pub(crate) fn check_bounds(
    game: &Game,
    list: &[Bound],
    line: u32,
    means: &[Frac],
    bench: &mut Bench,
) -> Result<(), CertFault>
    requires count { length list.now ≡ length (game_of game.now) }
    requires lines { line + sum_lines bound_lines (map bound_of list.now) < 2 ^ 32 }
    requires means { length means.now ≡ var_total (game_of game.now) }
    requires places { HasBench (game_of game.now) bench.old }
    requires trees { All (λ b. length b.tree ≤ bench.old.scratch.nodes) (map bound_of list.now) }
    ensures ok { (mixtures : List MixtureOf) → all_means (game_of game.now) mixtures ≡ Ok means.now
        → OnOk result (BoundsPass (game_of game.now) mixtures (map bound_of list.now)) }
    ensures err { (mixtures : List MixtureOf) → all_means (game_of game.now) mixtures ≡ Ok means.now
        → line ≡ 4 + sum_lines mixture_lines mixtures
        → IfErr result (BoundsRefused (game_of game.now) mixtures (map bound_of list.now)) }
    ensures places { IsSameBench bench.old bench.new }
{
    let mut line = line;
    for i in 0..list.len() {
        let bound = &list[i];
        check_bound(game, i as u32, bound, line, means, bench)?;
        line += 1 + bound.tree.nodes.len() as u32;
    }
    Ok(())
}

/// Tests the cost line of player `i`, which is `line`, and the nodes of its tree.
fn check_bound(
    game: &Game,
    i: u32,
    bound: &Bound,
    line: u32,
    means: &[Frac],
    bench: &mut Bench,
) -> Result<(), CertFault>
    requires number { i < length (game_of game.now) }
    requires lines { line + bound_lines (bound_of bound.now) < 2 ^ 32 }
    requires means { length means.now ≡ var_total (game_of game.now) }
    requires places { HasBench (game_of game.now) bench.old }
    requires nodes { length (bound_of bound.now).tree ≤ bench.old.scratch.nodes }
    ensures ok { (player : PlayerOf) → IsPlayer (game_of game.now) i player
        → (mixtures : List MixtureOf) → all_means (game_of game.now) mixtures ≡ Ok means.now
        → OnOk result (BoundPasses (game_of game.now) mixtures i player (bound_of bound.now)) }
    ensures err { (player : PlayerOf) → IsPlayer (game_of game.now) i player
        → (mixtures : List MixtureOf) → all_means (game_of game.now) mixtures ≡ Ok means.now
        → IfErr result (BoundRefused (game_of game.now) mixtures line i player
        (bound_of bound.now)) }
    ensures places { IsSameBench bench.old bench.new }
{
    let Ok(made) = make_claim(game, i, means, &mut bench.slopes, &mut bench.left) else {
        return Err(CertFault::Wide(line));
    };
    let (cost, right) = made;
    if !is_same(cost, bound.cost) {
        return Err(CertFault::Bad(line));
    }
    let vars = var_count(game, i);
    check_tree(
        game,
        i,
        &bound.tree,
        &bench.left[..vars],
        right,
        line + 1,
        &mut bench.scratch,
    )
}

fn is_same(cost: Frac, printed: Frac) -> bool
    ensures { IsTrue result ↔ (cost ≡ printed) }
{
    cost == printed
}

/// The cost of player `i` at the means, and the right side of its claim, whose left side is put
/// into the first places of `left`. `slopes` is room for a number per variable.
fn make_claim(
    game: &Game,
    i: u32,
    means: &[Frac],
    slopes: &mut [Frac],
    left: &mut [i128],
) -> Result<(Frac, i128), Wide>
    requires number { i < length (game_of game.now) }
    requires means { length means.now ≡ var_total (game_of game.now) }
    requires slopes { most_vars (game_of game.now) ≤ length slopes.old }
    requires left { most_vars (game_of game.now) ≤ length left.old }
    ensures { (player : PlayerOf) → IsPlayer (game_of game.now) i player
        → GivesCost (cost_steps (game_of game.now) player i means.now) result (take
        (length player.vars) left.new) }
{
    let vars = var_count(game, i);
    write_claim(game, i, means, &mut slopes[..vars], &mut left[..vars])
}

fn write_claim(
    game: &Game,
    i: u32,
    means: &[Frac],
    slopes: &mut [Frac],
    left: &mut [i128],
) -> Result<(Frac, i128), Wide>
    requires number { i < length (game_of game.now) }
    requires means { length means.now ≡ var_total (game_of game.now) }
    requires slopes { (player : PlayerOf) → IsPlayer (game_of game.now) i player
        → length slopes.old ≡ length player.vars }
    requires left { (player : PlayerOf) → IsPlayer (game_of game.now) i player
        → length left.old ≡ length player.vars }
    ensures { (player : PlayerOf) → IsPlayer (game_of game.now) i player
        → GivesCost (cost_steps (game_of game.now) player i means.now) result left.new }
{
    slope(game, i, means, slopes)?;
    let value = value(slopes, own_means(game, i, means))?;
    let cost = value.add(rest(game, i, means)?)?;
    let right = claim(slopes, value, left)?;
    Ok((cost, right))
}

/// The means of player `i`.
fn own_means<'a>(game: &Game, i: u32, means: &'a [Frac]) -> &'a [Frac]
    requires number { i < length (game_of game.now) }
    requires means { length means.now ≡ var_total (game_of game.now) }
    ensures list { (player : PlayerOf) → IsPlayer (game_of game.now) i player
        → result.now ≡ means_of_player (game_of game.now) player i means.now }
    ensures len { (player : PlayerOf) → IsPlayer (game_of game.now) i player
        → length result.now ≡ length player.vars }
{
    let from = place(game, i as usize);
    &means[from..from + var_count(game, i)]
}

/// Tests the nodes of a tree, the first of which stands at `line`, for the row `left * x <= right`
/// on the points of player `i`.
pub(crate) fn check_tree(
    game: &Game,
    i: u32,
    tree: &Tree,
    left: &[i128],
    right: i128,
    line: u32,
    scratch: &mut Scratch,
) -> Result<(), CertFault>
    requires number { i < length (game_of game.now) }
    requires left { (player : PlayerOf) → IsPlayer (game_of game.now) i player
        → length left.now ≡ length player.vars }
    requires lines { line + length (nodes_of tree.now) ≤ 2 ^ 32 }
    requires nodes { length (nodes_of tree.now) ≤ scratch.old.nodes }
    requires columns { most_vars (game_of game.now) ≤ scratch.old.columns }
    requires vars { most_vars (game_of game.now) ≤ scratch.old.vars }
    requires pairs { most_pairs (game_of game.now) ≤ scratch.old.pairs }
    ensures ok { (player : PlayerOf) → IsPlayer (game_of game.now) i player
        → OnOk result (TreePasses player (bound_with left.now right) (nodes_of tree.now)) }
    ensures err { (player : PlayerOf) → IsPlayer (game_of game.now) i player
        → IfErr result (TreeRefused player (bound_with left.now right) (nodes_of tree.now) line) }
    ensures places { scratch.new ≡ scratch.old }
{
    match bounds(game, i, tree, left, right, scratch) {
        Ok(()) => Ok(()),
        Err(fault) => Err(at_line(line, fault)),
    }
}

/// The fault of a node, where the first node stands at `line`.
pub(crate) fn at_line(line: u32, fault: Fault) -> CertFault
    requires { line + node_number fault < 2 ^ 32 }
    ensures { result ≡ line_of line fault }
{
    match fault {
        Fault::Bad(k) => CertFault::Bad(line + k),
        Fault::Wide(k) => CertFault::Wide(line + k),
    }
}
