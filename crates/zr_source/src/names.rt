//! The rule for names, and that names differ.
ghost use Rattle.std.specs.Prelude.{◌≡◌, ◌≢◌, ◌↔◌, IsTrue, map, string_bytes};
ghost use Rattle.std.specs.List.{All, list_all};
ghost use Rattle.zr_game.specs.Players.{var_of};
ghost use Rattle.zr_source.specs.Names.{AreNames, is_name, is_name_byte, leader_name, var_name};
ghost use Rattle.zr_source.specs.Sources.{leaders_of};

use crate::source::Leader;
use zr_game::Var;

/// Whether a text has 1 to 32 bytes, which are ASCII letters, digits or `_`.
pub fn is_name(s: &str) -> bool
    ensures { result ≡ is_name s.now }
{
    1 <= s.len() && s.len() <= 32 && has_name_bytes(s)
}

fn has_name_bytes(s: &str) -> bool
    ensures { result ≡ list_all is_name_byte s.now }
{
    s.as_bytes().iter().all(|b| is_name_byte(*b))
}

fn is_name_byte(b: u8) -> bool
    ensures { result ≡ is_name_byte b }
{
    b.is_ascii_lowercase() || b.is_ascii_uppercase() || b.is_ascii_digit() || b == b'_'
}

/// Whether the leaders' names keep the rule and differ.
pub(crate) fn are_leader_names(leaders: &[Leader]) -> bool
    ensures { IsTrue result ↔ AreNames (map leader_name (leaders_of leaders.now)) }
{
    let mut all = true;
    for (i, leader) in leaders.iter().enumerate() {
        all &= is_name(&leader.base.name) & is_new_leader(&leader.base.name, &leaders[..i]);
    }
    all
}

fn is_new_leader(name: &str, before: &[Leader]) -> bool
    ensures { IsTrue result ↔ All (λ leader. string_bytes leader.base.name ≢ name.now) before.now }
{
    before
        .iter()
        .all(|leader| leader.base.name.as_str() != name)
}

/// Whether the variables' names keep the rule and differ.
pub(crate) fn are_var_names(vars: &[Var]) -> bool
    ensures { IsTrue result ↔ AreNames (map var_name (map var_of vars.now)) }
{
    let mut all = true;
    for (v, var) in vars.iter().enumerate() {
        all &= is_name(&var.name) & is_new_var(&var.name, &vars[..v]);
    }
    all
}

fn is_new_var(name: &str, before: &[Var]) -> bool
    ensures { IsTrue result ↔ All (λ var. string_bytes var.name ≢ name.now) before.now }
{
    before.iter().all(|var| var.name.as_str() != name)
}
