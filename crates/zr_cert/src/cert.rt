ghost use Rattle.std.specs.Prelude.{◌≡◌, ◌↔◌, IsOk, IfOk, IfErr};
ghost use Rattle.zr_cert.specs.Certs.{cert_with, verdict_of};
ghost use Rattle.zr_cert.specs.Forms.{IsCert};
ghost use Rattle.zr_cert.specs.FormLaws.{IsCert-prop};

use crate::form::is_cert;
use zr_base::Frac;
use zr_cases::{BoxTree, Refutation};
use zr_game::{Kind, Named};
use zr_mix::Profile;
use zr_tree::Tree;

/// What a player pays, and a tree that proves that it can't pay less.
#[derive(Debug, Drop)]
pub struct Bound {
    /// What the player pays in the profile.
    pub cost: Frac,
    /// A tree that proves the player's claim. Its nodes are splits, choices and leaves.
    pub tree: Tree,
}

/// What a certificate claims, with what shows it.
#[derive(Debug, Drop)]
pub enum Verdict {
    /// The profile is an equilibrium.
    Profile {
        /// A strategy for each player, in the order of their numbers.
        profile: Profile,
        /// A bound for each player, in the same order.
        bounds: Vec<Bound>,
    },
    /// There is no equilibrium, since the system over the leaves of all players has no solution.
    NoneCover {
        /// A tree for each player whose leaves cover the player's points. Its nodes are splits,
        /// choices, leaves of scale 0, known points and loose leaves.
        covers: Vec<Tree>,
        /// For each player the points and rays whose rows the system has.
        named: Vec<Vec<Named>>,
        /// Cases of the choices in which the system's rows are refuted.
        proof: Refutation,
    },
    /// There is no equilibrium, since the player has no feasible point.
    NoneEmpty {
        /// The player's number. Whether the game has such a player is for a check to tell.
        player: u32,
        /// A tree that refutes each of its leaves. Its nodes are splits, choices and leaves of
        /// scale 0.
        tree: Tree,
    },
    /// There is no pure equilibrium, since in each of these boxes a player has no point or deviates.
    NoneBoxes {
        /// The boxes, by cases of the players' bounds.
        tree: BoxTree,
    },
}

/// A certificate for a game of so many players.
///
/// Each certificate has a text: there are 1 to 16 players; a profile has a strategy and a bound for
/// each; a strategy has at least one part, weights and totals are at least 1, and each point has a
/// number; a bound's tree has splits, choices and leaves alone, and the tree of an empty player has
/// leaves of scale 0; there is a cover and a list of named points and rays for each player, a ray's
/// direction has as many numbers as its base, and a refutation is one whole tree over the leaves of
/// the covers; a leaf has fewer than 2^32 multipliers, and the text fewer than 2^32 lines.
/// Nothing is said of a game: that the certificate holds for one, with totals that are the sums of
/// their weights, is for a check to tell.
#[derive(Debug, Drop)]
pub struct Cert {
    /// Which profiles are meant.
    pub kind: Kind,
    /// How many players there are, 1 to 16.
    pub players: u32,
    /// What is claimed.
    pub verdict: Verdict,
    ghost sound: { IsCert (cert_with kind players verdict) } by { IsCert-prop (cert_with kind players verdict) },
}

impl Cert {
    ghost use Rattle.zr_cert.specs.Listed.{cert_of};

    /// The certificate of this verdict, for a game of so many players.
    ///
    /// Hands the verdict back exactly where a rule of certificates is broken: there are 1 to 16
    /// players; a profile has a strategy for each of them, and there are as many bounds; a strategy
    /// has at least one part; totals and weights are at least 1; each point has a number; a bound's
    /// tree has splits, choices and leaves alone, and so has the tree of an empty player, whose
    /// leaves are of scale 0; there are as many covers and lists of named points and rays as
    /// players; a cover's leaves are of scale 0, known or loose; the numbers of a ray's direction
    /// are as many as its base's, and none is `i128::MIN`; a refutation is one whole tree over the
    /// known and loose leaves of the covers; a leaf has fewer than 2^32 multipliers; and the text
    /// has fewer than 2^32 lines, which are four, one for each strategy, part, bound, list of named
    /// points and rays, and point or ray of it, and one for each node of a tree.
    pub fn new(kind: Kind, players: u32, verdict: Verdict) -> Result<Cert, Verdict>
        ensures valid { IsOk result ↔ IsCert (cert_with kind players verdict) }
        ensures ok { IfOk result (λ cert. cert_of cert ≡ cert_with kind players verdict) }
        ensures err { IfErr result (λ v. verdict_of v ≡ verdict_of verdict) }
    {
        if is_cert(players, &verdict) {
            Ok(Cert {
                kind,
                players,
                verdict,
            })
        } else {
            Err(verdict)
        }
    }
}
