ghost use Rattle.std.specs.Prelude.{◌≡◌, ◌↔◌, ◌+◌, ◌^◌, ◌<◌, ◌≤◌, IsOk, IfErr, OnOk, length, map};
ghost use Rattle.std.specs.List.{All};
ghost use Rattle.zr_game.specs.Games.{game_of};
ghost use Rattle.zr_mix.specs.Steps.{var_total};
ghost use Rattle.zr_cert.specs.Certs.{EmptyVerdict, ProfileVerdict, bound_of, mixture_of, nodes_of, verdict_of};
ghost use Rattle.zr_cert.specs.Forms.{IsMixtureForm, IsVerdictForm};
ghost use Rattle.zr_cert.specs.Lines.{mixture_lines, sum_lines, verdict_lines};
ghost use Rattle.zr_cert.specs.Listed.{cert_of};
ghost use Rattle.zr_check.specs.Right.{IsRightCert, IsRightHead};
ghost use Rattle.zr_check.specs.Truth.{IsTrueVerdict};
ghost use Rattle.zr_check.specs.WideSteps.{HasWideStep, HeadIsWide};
ghost use Rattle.zr_check.specs.Rooms.{HasRoom};
ghost use Rattle.zr_check.specs.Parts.{StrategiesPass, StrategiesRefused};
ghost use Rattle.zr_check.specs.Checks.{CertPasses, CertRefused, HeadPasses, HeadRefused, VerdictPasses, VerdictRefused};
ghost use Rattle.zr_check.specs.Benches.{HasBench, IsSameBench};

use crate::boxes::check_boxes;
use crate::costs::{check_bounds, check_tree};
use crate::covers::check_covers;
use crate::room::{Bench, Room, place, var_count};
use crate::strategies::check_strategies;
use zr_base::Frac;
use zr_cert::{Bound, Cert, CertFault, Verdict};
use zr_game::{Game, Kind};
use zr_mix::Strategy;
use zr_tree::Tree;

/// Whether the certificate's verdict is shown: the first line of its text that is refused, or none.
///
/// Line 2 has the number of players. Under a profile the lines of the players and their parts are
/// tested, and then the players' costs and trees; under an empty player, its number at line 3 and
/// its tree; under covers each player's cover and what is named of the player, and then the
/// refutation; under boxes, which are refused at line 3 for the mixed kind, the box tree. Where no
/// line is refused the certificate is right, no step of its check is too wide, and its verdict is
/// true of the game. `room` has places for this certificate; it keeps them.
pub fn check_cert(game: &Game, cert: &Cert, room: &mut Room) -> Result<(), CertFault>
    requires { HasRoom (game_of game.now) (cert_of cert.now) room.old }
    ensures ok { OnOk result (CertPasses (game_of game.now) (cert_of cert.now)) }
    ensures err { IfErr result (CertRefused (game_of game.now) (cert_of cert.now)) }
    ensures exact { IsOk result ↔ (IsRightCert (game_of game.now) (cert_of cert.now)
        × (HasWideStep (game_of game.now) (cert_of cert.now) → ⊥)) }
    ensures sound { OnOk result (IsTrueVerdict (game_of game.now) cert.now.kind
        (verdict_of cert.now.verdict)) }
    ensures room { room.new ≡ room.old }
{
    if cert.players as usize != game.players.len() {
        return Err(CertFault::Bad(2));
    }
    match &cert.verdict {
        Verdict::Profile { profile, bounds } => check_equilibrium(
            game,
            cert.kind,
            &profile.strategies,
            bounds,
            &mut room.means,
            &mut room.bench,
        ),
        Verdict::NoneCover {
            covers,
            named,
            proof,
        } => check_covers(
            game,
            cert.kind,
            covers,
            named,
            proof,
            &mut room.bench.scratch,
            &mut room.covers,
        ),
        Verdict::NoneEmpty { player, tree } => check_empty(game, *player, tree, &mut room.bench),
        Verdict::NoneBoxes { tree } => check_boxes(game, cert.kind, tree, &mut room.boxes),
    }
}

/// Whether the certificate's strategies are right, whatever its bounds: the first of the lines 2 and
/// 3 and of the lines of the players and their parts that is refused, or none.
///
/// A verdict that is no profile is refused at line 3. `room` has places for this certificate; it
/// keeps them.
pub fn check_profile(game: &Game, cert: &Cert, room: &mut Room) -> Result<(), CertFault>
    requires { HasRoom (game_of game.now) (cert_of cert.now) room.old }
    ensures ok { OnOk result (HeadPasses (game_of game.now) (cert_of cert.now)) }
    ensures err { IfErr result (HeadRefused (game_of game.now) (cert_of cert.now)) }
    ensures exact { IsOk result ↔ ((cert.now.players ≡ length (game_of game.now))
        × IsRightHead (game_of game.now) cert.now.kind (verdict_of cert.now.verdict)
        × (HeadIsWide (game_of game.now) (verdict_of cert.now.verdict) → ⊥)) }
    ensures room { room.new ≡ room.old }
{
    if cert.players as usize != game.players.len() {
        return Err(CertFault::Bad(2));
    }
    match &cert.verdict {
        Verdict::Profile { profile, bounds: _ } => {
            check_head(game, cert.kind, &profile.strategies, &mut room.means)
        }
        Verdict::NoneCover {
            covers: _,
            named: _,
            proof: _,
        } => Err(CertFault::Bad(3)),
        Verdict::NoneEmpty { player: _, tree: _ } => Err(CertFault::Bad(3)),
        Verdict::NoneBoxes { tree: _ } => Err(CertFault::Bad(3)),
    }
}

/// Tests the lines of the players, the costs and the trees.
fn check_equilibrium(
    game: &Game,
    kind: Kind,
    strategies: &[Strategy],
    bounds: &[Bound],
    means: &mut [Frac],
    bench: &mut Bench,
) -> Result<(), CertFault>
    requires form { IsVerdictForm (length (game_of game.now)) (ProfileVerdict
        (map mixture_of strategies.now) (map bound_of bounds.now)) }
    requires lines { 4 + verdict_lines (ProfileVerdict (map mixture_of strategies.now)
        (map bound_of bounds.now)) < 2 ^ 32 }
    requires means { var_total (game_of game.now) ≤ length means.old }
    requires places { HasBench (game_of game.now) bench.old }
    requires trees { All (λ b. length b.tree ≤ bench.old.scratch.nodes) (map bound_of bounds.now) }
    ensures ok { OnOk result (VerdictPasses (game_of game.now) kind (ProfileVerdict
        (map mixture_of strategies.now) (map bound_of bounds.now))) }
    ensures err { IfErr result (VerdictRefused (game_of game.now) kind (ProfileVerdict
        (map mixture_of strategies.now) (map bound_of bounds.now))) }
    ensures places { IsSameBench bench.old bench.new }
{
    let count = place(game, game.players.len());
    let means = &mut means[..count];
    let line = check_strategies(game, kind, strategies, means)?;
    check_bounds(game, bounds, line, means, bench)
}

/// Tests the lines of the players alone.
fn check_head(
    game: &Game,
    kind: Kind,
    strategies: &[Strategy],
    means: &mut [Frac],
) -> Result<(), CertFault>
    requires count { length strategies.now ≡ length (game_of game.now) }
    requires forms { All IsMixtureForm (map mixture_of strategies.now) }
    requires lines { 4 + sum_lines mixture_lines (map mixture_of strategies.now) < 2 ^ 32 }
    requires means { var_total (game_of game.now) ≤ length means.old }
    ensures ok { OnOk result (StrategiesPass (game_of game.now) kind
        (map mixture_of strategies.now)) }
    ensures err { IfErr result (StrategiesRefused (game_of game.now) kind
        (map mixture_of strategies.now)) }
{
    let count = place(game, game.players.len());
    check_strategies(game, kind, strategies, &mut means[..count])?;
    Ok(())
}

/// Tests the number of a player without a point at line 3, and its tree from line 4 on.
fn check_empty(game: &Game, i: u32, tree: &Tree, bench: &mut Bench) -> Result<(), CertFault>
    requires lines { 4 + length (nodes_of tree.now) < 2 ^ 32 }
    requires places { HasBench (game_of game.now) bench.old }
    requires nodes { length (nodes_of tree.now) ≤ bench.old.scratch.nodes }
    ensures ok { (kind : Kind)
        → OnOk result (VerdictPasses (game_of game.now) kind (EmptyVerdict i (nodes_of tree.now))) }
    ensures err { (kind : Kind)
        → IfErr result (VerdictRefused (game_of game.now) kind (EmptyVerdict i
        (nodes_of tree.now))) }
    ensures places { IsSameBench bench.old bench.new }
{
    if i as usize >= game.players.len() {
        return Err(CertFault::Bad(3));
    }
    bench.left.fill(0);
    let vars = var_count(game, i);
    check_tree(
        game,
        i,
        tree,
        &bench.left[..vars],
        -1,
        4,
        &mut bench.scratch,
    )
}
