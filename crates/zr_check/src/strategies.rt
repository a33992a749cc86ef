ghost use Rattle.std.specs.Prelude.{◌≡◌, ◌↔◌, ◌+◌, ◌^◌, ◌<◌, ◌≤◌, ℕ, IsTrue, IfOk, IfErr, OnOk, Ok, Some, length, map, slice_get};
ghost use Rattle.std.specs.List.{All};
ghost use Rattle.zr_game.specs.Players.{PlayerOf};
ghost use Rattle.zr_game.specs.Games.{game_of};
ghost use Rattle.zr_game.specs.Forms.{IsPlayer};
ghost use Rattle.zr_game.specs.Feasible.{IsFeasible};
ghost use Rattle.zr_game.specs.Profiles.{Part as PartOf, total};
ghost use Rattle.zr_mix.specs.Mixtures.{parts_of};
ghost use Rattle.zr_mix.specs.Steps.{var_total};
ghost use Rattle.zr_cert.specs.Certs.{mixture_of};
ghost use Rattle.zr_cert.specs.Forms.{IsMixtureForm};
ghost use Rattle.zr_cert.specs.Lines.{mixture_lines, sum_lines};
ghost use Rattle.zr_check.specs.Parts.{IsLastPart, IsPartRight, IsWidePart, MixturePasses, MixtureRefused, StrategiesPass, StrategiesRefused, mean_list, weight_steps};
ghost use Rattle.zr_check.specs.PartSums.{IsPartMade, weights_before};
ghost use Rattle.zr_check.specs.Bounds.{all_means};

use crate::room::place;
use zr_base::{Frac, Wide, add_product};
use zr_cert::CertFault;
use zr_game::{Game, Kind, feasible};
use zr_mix::{Strategy, means as write_means};

/// Tests the lines of the players and their parts, and puts the means of all players, one after
/// another, into `means`. The answer is the number of the line after them.
pub(crate) fn check_strategies(
    game: &Game,
    kind: Kind,
    strategies: &[Strategy],
    means: &mut [Frac],
) -> Result<u32, CertFault>
    requires count { length strategies.now ≡ length (game_of game.now) }
    requires forms { All IsMixtureForm (map mixture_of strategies.now) }
    requires lines { 4 + sum_lines mixture_lines (map mixture_of strategies.now) < 2 ^ 32 }
    requires places { length means.old ≡ var_total (game_of game.now) }
    ensures ok { OnOk result (StrategiesPass (game_of game.now) kind
        (map mixture_of strategies.now)) }
    ensures means { OnOk result (all_means (game_of game.now)
        (map mixture_of strategies.now) ≡ Ok means.new) }
    ensures line { IfOk result (λ line. line ≡ 4 + sum_lines mixture_lines
        (map mixture_of strategies.now)) }
    ensures err { IfErr result (StrategiesRefused (game_of game.now) kind
        (map mixture_of strategies.now)) }
{
    let mut line = 4;
    for i in 0..strategies.len() {
        let strategy = &strategies[i];
        let (from, to) = (place(game, i), place(game, i + 1));
        check_strategy(game, i as u32, kind, strategy, line, &mut means[from..to])?;
        line += 1 + strategy.parts.len() as u32;
    }
    Ok(line)
}

/// Tests the lines of the parts of player `i`, whose own line is `line`, and puts its means into
/// `means`.
fn check_strategy(
    game: &Game,
    i: u32,
    kind: Kind,
    strategy: &Strategy,
    line: u32,
    means: &mut [Frac],
) -> Result<(), CertFault>
    requires number { i < length (game_of game.now) }
    requires form { IsMixtureForm (mixture_of strategy.now) }
    requires lines { line + mixture_lines (mixture_of strategy.now) < 2 ^ 32 }
    requires places { (player : PlayerOf) → IsPlayer (game_of game.now) i player
        → length means.old ≡ length player.vars }
    ensures ok { (player : PlayerOf) → IsPlayer (game_of game.now) i player
        → OnOk result (MixturePasses kind player (mixture_of strategy.now)) }
    ensures means { (player : PlayerOf) → IsPlayer (game_of game.now) i player
        → OnOk result (mean_list player (mixture_of strategy.now) ≡ Ok means.new) }
    ensures err { (player : PlayerOf) → IsPlayer (game_of game.now) i player
        → IfErr result (MixtureRefused kind player (mixture_of strategy.now) line) }
{
    let mut sum = 0;
    for k in 0..strategy.parts.len() {
        let at = line + 1 + k as u32;
        if strategy.parts[k].point.len() != means.len() {
            return Err(CertFault::Bad(at));
        }
        let Ok((weights, feasible)) = sums_of_part(game, i, strategy, k, sum, means) else {
            return Err(CertFault::Wide(at));
        };
        if !is_right(kind, strategy, k, weights, feasible) {
            return Err(CertFault::Bad(at));
        }
        sum = weights;
    }
    Ok(())
}

/// The sums of the line of part `k`, where `sum` is the weight of the parts before it: the weight
/// with the part, whether its point is feasible, and at the last part the means.
fn sums_of_part(
    game: &Game,
    i: u32,
    strategy: &Strategy,
    k: usize,
    sum: i128,
    means: &mut [Frac],
) -> Result<(i128, bool), Wide>
    requires number { i < length (game_of game.now) }
    requires part { k < length (parts_of strategy.now) }
    requires form { IsMixtureForm (mixture_of strategy.now) }
    requires sum { weights_before (parts_of strategy.now) k ≡ Ok sum }
    requires lengths { (j : ℕ) (part : PartOf) → j ≤ k
        → slice_get (parts_of strategy.now) j ≡ Some part
        → length part.point.num ≡ length means.old }
    requires places { (player : PlayerOf) → IsPlayer (game_of game.now) i player
        → length means.old ≡ length player.vars }
    ensures ok { (player : PlayerOf) → IsPlayer (game_of game.now) i player → (part : PartOf)
        → slice_get (parts_of strategy.now) k ≡ Some part
        → IfOk result (λ made. IsPartMade player (mixture_of strategy.now) k part made.0 made.1) }
    ensures means { (player : PlayerOf) → IsPlayer (game_of game.now) i player
        → OnOk result (IsLastPart (mixture_of strategy.now) k
        → mean_list player (mixture_of strategy.now) ≡ Ok means.new) }
    ensures wide { (player : PlayerOf) → IsPlayer (game_of game.now) i player → (part : PartOf)
        → slice_get (parts_of strategy.now) k ≡ Some part
        → IfErr result (λ _. IsWidePart player (mixture_of strategy.now) k part) }
{
    let part = &strategy.parts[k];
    let weights = add_product(sum, part.weight, 1)?;
    let feasible = feasible(game, i, &part.point)?;
    if k + 1 == strategy.parts.len() {
        write_means(strategy, means)?;
    }
    Ok((weights, feasible))
}

/// Whether the rules of the line of part `k` hold.
fn is_right(kind: Kind, strategy: &Strategy, k: usize, weights: i128, feasible: bool) -> bool
    requires part { k < length (parts_of strategy.now) }
    requires weights { weight_steps (parts_of strategy.now) k ≡ Ok weights }
    ensures { (player : PlayerOf) (part : PartOf) → (IsTrue feasible ↔ IsFeasible player part.point)
        → (IsTrue result ↔ IsPartRight kind player (mixture_of strategy.now) k part) }
{
    feasible && is_alone(kind, k) && is_whole(strategy, k, weights)
}

/// Whether a strategy of the kind may have a part `k`.
fn is_alone(kind: Kind, k: usize) -> bool
    ensures { IsTrue result ↔ (kind ≡ Kind.Pure → k ≡ 0) }
{
    match kind {
        Kind::Pure => k == 0,
        Kind::Mixed => true,
    }
}

/// Whether there are more parts, or their weights make up the total.
fn is_whole(strategy: &Strategy, k: usize, weights: i128) -> bool
    requires part { k < length (parts_of strategy.now) }
    requires weights { weight_steps (parts_of strategy.now) k ≡ Ok weights }
    ensures { IsTrue result ↔ (IsLastPart (mixture_of strategy.now) k
        → strategy.now.total ≡ total (parts_of strategy.now)) }
{
    k + 1 < strategy.parts.len() || is_total(strategy, weights)
}

fn is_total(strategy: &Strategy, weights: i128) -> bool
    ensures { IsTrue result ↔ (strategy.now.total ≡ weights) }
{
    strategy.total == weights
}
