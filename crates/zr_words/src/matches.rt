//! What the matches of `clap` say.
ghost use Rattle.std.specs.Prelude.{◌≡◌, ℕ, ◌<◌, ◌≤◌, ◌^◌, List, [], ◌∷◌, IfSome, IfNone, length, option_map};
ghost use Rattle.clap.specs.Words.{first_of, found_of, rows_of};
ghost use Rattle.zr_words.specs.Words.{OptionName, Said, kind_option, option_name, texts_of};
ghost use Rattle.zr_words.specs.Commands.{AreOptions, HasNumber, IsAction, IsNoAction, IsValue, kind_name};
ghost use Rattle.zr_words.specs.Matches.{AreRowsOf, IsKindRow, IsNumberRow};

use crate::command::{Command, Options};
use clap::ArgMatches;
use zr_game::Kind;

/// The command of the texts, if they are of one.
pub(crate) fn command_of<'a>(matches: &ArgMatches<'a>, options: Options) -> Option<Command<'a>>
    ensures some { (said : List Said) → AreRowsOf (rows_of (found_of matches.now)) said
        → length (texts_of said) ≤ 3 → IfSome result (IsAction (texts_of said) options) }
    ensures none { IfNone result ((said : List Said) → AreRowsOf (rows_of (found_of matches.now)) said
        → IsNoAction (texts_of said)) }
{
    let Some(action) = text_at(matches, "ACTION") else {
        return None;
    };
    let Some(game) = text_at(matches, "GAME") else {
        return None;
    };
    match text_at(matches, "CERT") {
        Some(cert) => with_cert(action, game, cert, options),
        None => without_cert(action, game, options),
    }
}

/// The command of an action, a game and a certificate, if there is one.
fn with_cert<'a>(
    action: &'a str,
    game: &'a str,
    cert: &'a str,
    options: Options,
) -> Option<Command<'a>>
    ensures some { IfSome result (IsAction (action.now ∷ game.now ∷ cert.now ∷ []) options) }
    ensures none { IfNone result (IsNoAction (action.now ∷ game.now ∷ cert.now ∷ [])) }
{
    if action == "check" {
        Some(Command::Check { game, cert })
    } else if action == "best" {
        Some(Command::Best {
            game,
            cert,
            options,
        })
    } else {
        None
    }
}

/// The command of an action and a game alone, if there is one.
fn without_cert<'a>(action: &'a str, game: &'a str, options: Options) -> Option<Command<'a>>
    ensures some { IfSome result (IsAction (action.now ∷ game.now ∷ []) options) }
    ensures none { IfNone result (IsNoAction (action.now ∷ game.now ∷ [])) }
{
    if action == "solve" {
        Some(Command::Solve { game, options })
    } else if action == "migrate" {
        Some(Command::Migrate { game })
    } else {
        None
    }
}

/// The options.
pub(crate) fn options_of(matches: &ArgMatches<'_>) -> Options
    ensures { (said : List Said) → AreRowsOf (rows_of (found_of matches.now)) said
        → AreOptions said result }
{
    Options {
        kind: kind_at(matches),
        budget: number_at(matches, "budget"),
        rounds: number_at(matches, "rounds"),
        order: number_at(matches, "order"),
    }
}

fn text_at<'a>(matches: &ArgMatches<'a>, id: &str) -> Option<&'a str>
    ensures { option_map (λ s. s.now) result ≡ first_of id.now (rows_of (found_of matches.now)) }
{
    matches.get_str(id)
}

fn kind_at(matches: &ArgMatches<'_>) -> Kind
    ensures { (said : List Said) → IsKindRow (rows_of (found_of matches.now)) said
        → IsValue said kind_option (kind_name result) }
{
    match text_at(matches, "kind") {
        Some(text) if text == "pure" => Kind::Pure,
        _ => Kind::Mixed,
    }
}

/// The number of an option. One without a number counts as 0.
fn number_at(matches: &ArgMatches<'_>, id: &str) -> u32
    ensures { (said : List Said) (o : OptionName) (most : ℕ) → id.now ≡ option_name o
        → most < 2 ^ 32 → IsNumberRow (rows_of (found_of matches.now)) said o most
        → HasNumber said o most result }
{
    matches.get_one::<u32>(id).unwrap_or(0)
}
