//! The arguments, as `clap` is told of them.
ghost use Rattle.std.specs.Prelude.{◌≡◌, IfOk, codes, false};
ghost use Rattle.clap.specs.Words.{app_of, new_rule, rule_of};
ghost use Rattle.clap.specs.declared.builder.value_parser.ValueParser.{ValueParser as ParserView};
ghost use Rattle.zr_words.specs.Words.{budget_option, kind_option, order_option, rounds_option};
ghost use Rattle.zr_words.specs.Arguments.{TakesKinds, option_rule, required_rule, up_to, zero_app};

use clap::{Arg, Command};
use std::alloc::{AllocError, Global};

static KINDS: [&str; 2] = ["pure", "mixed"];

/// The command line: an action, a game, maybe a certificate, and the options.
pub(crate) fn zero_command<'a>(alloc: Global) -> Result<Command<'a>, AllocError>
    ensures { IfOk result (λ command. (kinds : ParserView) × TakesKinds kinds
        × (app_of command ≡ zero_app kinds)) }
{
    let named = Command::new(alloc, "zero");
    let with_action = named.arg(action_arg(alloc))?;
    let with_game = with_action.arg(game_arg(alloc))?;
    let with_cert = with_game.arg(cert_arg(alloc))?;
    let with_kind = with_cert.arg(kind_arg(alloc))?;
    let with_budget = with_kind.arg(budget_arg(alloc))?;
    let with_rounds = with_budget.arg(rounds_arg(alloc))?;
    let with_order = with_rounds.arg(order_arg(alloc))?;
    Ok(with_order.no_binary_name(true))
}

fn action_arg<'a>(alloc: Global) -> Arg<'a>
    ensures rule { rule_of result ≡ required_rule (codes "ACTION") }
    ensures local { result.global ≡ false }
{
    Arg::new(alloc, "ACTION")
        .required(true)
        .help("solve, check, best or migrate")
}

fn game_arg<'a>(alloc: Global) -> Arg<'a>
    ensures rule { rule_of result ≡ required_rule (codes "GAME") }
    ensures local { result.global ≡ false }
{
    Arg::new(alloc, "GAME")
        .required(true)
        .help("The file of the game, or - for standard input")
}

fn cert_arg<'a>(alloc: Global) -> Arg<'a>
    ensures rule { rule_of result ≡ new_rule (codes "CERT") }
    ensures local { result.global ≡ false }
{
    Arg::new(alloc, "CERT").help("The file of the certificate, or - for standard input")
}

fn kind_arg<'a>(alloc: Global) -> Arg<'a>
    ensures rule { (kinds : ParserView) × TakesKinds kinds
        × (rule_of result ≡ option_rule kind_option kinds) }
    ensures local { result.global ≡ false }
{
    Arg::new(alloc, "kind")
        .long("kind")
        .default_value("mixed")
        .value_parser(KINDS.as_slice())
        .help("The kind of the strategies")
}

fn budget_arg<'a>(alloc: Global) -> Arg<'a>
    ensures rule { rule_of result ≡ option_rule budget_option (up_to 1000000000) }
    ensures local { result.global ≡ false }
{
    Arg::new(alloc, "budget")
        .long("budget")
        .default_value("1000000")
        .value_parser(clap::value_parser!(u32).range(0..=1_000_000_000))
        .help("The most steps that each search may take, at most 1000000000")
}

fn rounds_arg<'a>(alloc: Global) -> Arg<'a>
    ensures rule { rule_of result ≡ option_rule rounds_option (up_to 10000) }
    ensures local { result.global ≡ false }
{
    Arg::new(alloc, "rounds")
        .long("rounds")
        .default_value("20")
        .value_parser(clap::value_parser!(u32).range(0..=10_000))
        .help("The most rounds of play, at most 10000")
}

fn order_arg<'a>(alloc: Global) -> Arg<'a>
    ensures rule { rule_of result ≡ option_rule order_option (up_to 1000000) }
    ensures local { result.global ≡ false }
{
    Arg::new(alloc, "order")
        .long("order")
        .default_value("0")
        .value_parser(clap::value_parser!(u32).range(0..=1_000_000))
        .help("The number of the order in which oracles answer, at most 1000000")
}
