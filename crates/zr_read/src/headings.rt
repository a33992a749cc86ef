ghost use Rattle.std.specs.Prelude.{◌≡◌, ◌≤◌, ◌+◌, ◌∷◌, [], false, length, map, codes, OnOk, IfOk};
ghost use Rattle.serde_json.specs.View.{view};
ghost use Rattle.zr_game.specs.Players.{var_of};
ghost use Rattle.zr_source.specs.Names.{var_name};
ghost use Rattle.zr_value.specs.Faults.{Reads};
ghost use Rattle.zr_value.specs.Values.{needed, optional, each};
ghost use Rattle.zr_value.specs.Names.{is_among, new_name_in};
ghost use Rattle.zr_value.specs.Variables.{variables_in};
ghost use Rattle.zr_read.specs.Followers.{add_free, free_in, add_follower_heading, alone, follower_headings_in};
ghost use Rattle.zr_read.specs.Passes.{heading_name, variable_names, add_heading};
ghost use Rattle.zr_read.specs.Seen.{IsNamedBy, members_of, heading_of};

use serde_json::Value;
use std::alloc::Global;
use zr_game::Var;
use zr_value::{
    Aim, GameError, GameFault, GameFormat, Known, Names, Vars, at, missing, numbered, placed,
    read_aim_member, read_items, read_listed, read_name, read_new_name, read_object,
    read_variables,
};

/// A follower's value, and which of its leader's variables are its own: `count` of them, from
/// number `first` on.
#[derive(Drop)]
pub(crate) struct FollowerHeading<'v> {
    pub(crate) first: u32,
    pub(crate) count: u32,
    pub(crate) value: &'v Value,
}

/// A leader's variables, its own and then those of its followers, and the followers.
#[derive(Drop)]
pub(crate) struct Members<'v> {
    pub(crate) vars: Vars<'v>,
    pub(crate) followers: Vec<FollowerHeading<'v>>,
}

/// A player's name, aim, variables and followers, and its value.
#[derive(Drop)]
pub(crate) struct Heading<'v> {
    pub(crate) name: String,
    pub(crate) aim: Aim,
    pub(crate) vars: Vec<Var>,
    pub(crate) followers: Vec<FollowerHeading<'v>>,
    pub(crate) value: &'v Value,
}

/// What the first pass reads: the players' headings, and all names by number.
#[derive(Drop)]
pub(crate) struct Headings<'v> {
    pub(crate) list: Vec<Heading<'v>>,
    pub(crate) known: Known<'v>,
}

/// Adds a follower's variable to those before it, and its name to theirs.
fn add_free<'v>(
    alloc: Global,
    list: &mut Vec<Var>,
    names: &mut Names<'v>,
    value: &'v Value,
) -> Result<(), GameError>
    requires { names.old ≡ map var_name (map var_of list.old.items) }
    ensures read { Reads (λ _. map var_of list.new.items) result
        (add_free (map var_of list.old.items) (view value.now)) }
    ensures names { OnOk result (names.new ≡ map var_name (map var_of list.new.items)) }
    ensures one_more { OnOk result (length names.new ≡ length names.old + 1) }
{
    let name = read_new_name(alloc, value, names)?;
    let text = String::from_str(alloc, name)?;
    names.push(name)?;
    list.push(Var {
        name: text,
        whole: false,
        low: Some(0),
        up: None,
    })?;
    Ok(())
}

/// Variables, and then those of the names that are the items of a list.
fn read_each_free<'v>(
    alloc: Global,
    before: Vars<'v>,
    items: &'v [Value],
) -> Result<Vars<'v>, GameError>
    requires { IsNamedBy before }
    ensures read { Reads (λ v. map var_of v.list.items) result
        (each add_free 0 (map var_of before.entry.list.items) (map view items.now)) }
    ensures names { IfOk result IsNamedBy }
    ensures longer { IfOk result (λ v. length before.entry.names ≤ length v.names) }
{
    let mut list = before.list;
    let mut names = before.names;
    for (i, item) in items.iter().enumerate() {
        let added = add_free(alloc, &mut list, &mut names, item);
        if let Err(e) = numbered(alloc, i, added) {
            return Err(e);
        }
    }
    Ok(Vars { list, names })
}

/// Variables, and then those of the names in a list.
fn read_free<'v>(alloc: Global, before: Vars<'v>, value: &'v Value) -> Result<Vars<'v>, GameError>
    requires { IsNamedBy before }
    ensures read { Reads (λ v. map var_of v.list.items) result
        (free_in (map var_of before.entry.list.items) (view value.now)) }
    ensures names { IfOk result IsNamedBy }
    ensures longer { IfOk result (λ v. length before.entry.names ≤ length v.names) }
{
    let items = read_items(alloc, value)?;
    read_each_free(alloc, before, items)
}

/// Variables, and then those of a follower's member `vars`.
fn read_free_member<'v>(
    alloc: Global,
    before: Vars<'v>,
    object: &'v Value,
) -> Result<Vars<'v>, GameError>
    requires { IsNamedBy before }
    ensures read { Reads (λ v. map var_of v.list.items) result
        (needed (codes "vars") (free_in (map var_of before.entry.list.items)) (view object.now)) }
    ensures names { IfOk result IsNamedBy }
    ensures longer { IfOk result (λ v. length before.entry.names ≤ length v.names) }
{
    match object.get("vars") {
        None => Err(missing(alloc, "vars")),
        Some(value) => placed(alloc, "vars", read_free(alloc, before, value)),
    }
}

/// Adds a follower and its variables.
fn add_follower_heading<'v>(
    alloc: Global,
    before: Members<'v>,
    value: &'v Value,
) -> Result<Members<'v>, GameError>
    requires { IsNamedBy before.vars }
    ensures read { Reads members_of result
        (add_follower_heading (members_of before.entry) (view value.now)) }
    ensures names { IfOk result (λ m. IsNamedBy m.vars) }
{
    read_object(alloc, value)?;
    let first = before.vars.names.len();
    let vars = read_free_member(alloc, before.vars, value)?;
    let count = vars.names.len() - first;
    let mut followers = before.followers;
    followers.push(FollowerHeading {
        first,
        count,
        value,
    })?;
    Ok(Members { vars, followers })
}

/// A leader's variables and the followers of the items of a list.
fn read_each_follower_heading<'v>(
    alloc: Global,
    own: Vars<'v>,
    items: &'v [Value],
) -> Result<Members<'v>, GameError>
    requires { IsNamedBy own }
    ensures read { Reads members_of result
        (each add_follower_heading 0 (alone (map var_of own.entry.list.items)) (map view items.now)) }
    ensures names { IfOk result (λ m. IsNamedBy m.vars) }
{
    let mut all = Members {
        vars: own,
        followers: Vec::new(alloc),
    };
    for (i, item) in items.iter().enumerate() {
        match numbered(alloc, i, add_follower_heading(alloc, all, item)) {
            Ok(more) => all = more,
            Err(e) => return Err(e),
        }
    }
    Ok(all)
}

/// A leader's variables and the followers of a list: at most 16, and at most 64 variables.
fn read_follower_headings<'v>(
    alloc: Global,
    own: Vars<'v>,
    value: &'v Value,
) -> Result<Members<'v>, GameError>
    requires { IsNamedBy own }
    ensures read { Reads members_of result
        (follower_headings_in (map var_of own.entry.list.items) (view value.now)) }
    ensures names { IfOk result (λ m. IsNamedBy m.vars) }
{
    let items = read_listed(alloc, value, 0, 16)?;
    let all = read_each_follower_heading(alloc, own, items)?;
    if all.vars.list.len() <= 64 {
        Ok(all)
    } else {
        Err(at(alloc, GameFault::Count))
    }
}

/// A leader's variables and the followers of the member `followers`.
fn read_followers_member<'v>(
    alloc: Global,
    own: Vars<'v>,
    object: &'v Value,
) -> Result<Members<'v>, GameError>
    requires { IsNamedBy own }
    ensures read { Reads members_of result (let vars = map var_of own.entry.list.items in
        optional (codes "followers") (alone vars) (follower_headings_in vars) (view object.now)) }
    ensures names { IfOk result (λ m. IsNamedBy m.vars) }
{
    match object.get("followers") {
        None => Ok(Members {
            vars: own,
            followers: Vec::new(alloc),
        }),
        Some(value) => placed(
            alloc,
            "followers",
            read_follower_headings(alloc, own, value),
        ),
    }
}

/// The member `vars`: the leader's own variables.
fn read_vars_member<'v>(
    alloc: Global,
    object: &'v Value,
    format: GameFormat,
) -> Result<Vars<'v>, GameError>
    ensures read { Reads (λ v. map var_of v.list.items) result
        (needed (codes "vars") (variables_in format) (view object.now)) }
    ensures names { IfOk result IsNamedBy }
{
    match object.get("vars") {
        None => Err(missing(alloc, "vars")),
        Some(value) => placed(alloc, "vars", read_variables(alloc, value, format)),
    }
}

/// The name of a player, which is neither taken nor that of a player before.
fn read_player_name<'v>(
    alloc: Global,
    value: &'v Value,
    taken: &str,
    players: &Names<'v>,
) -> Result<&'v str, GameError>
    ensures read { Reads (λ s. s.now) result
        (new_name_in (taken.now ∷ players.now) (view value.now)) }
    ensures new { IfOk result (λ s. is_among players.now s.now ≡ false) }
{
    let name = read_name(alloc, value)?;
    if name == taken || players.contains(name) {
        Err(at(alloc, GameFault::Twice))
    } else {
        Ok(name)
    }
}

/// The member `name` of a player.
fn read_player_name_member<'v>(
    alloc: Global,
    object: &'v Value,
    taken: &str,
    players: &Names<'v>,
) -> Result<&'v str, GameError>
    ensures read { Reads (λ s. s.now) result
        (needed (codes "name") (new_name_in (taken.now ∷ players.now)) (view object.now)) }
    ensures new { IfOk result (λ s. is_among players.now s.now ≡ false) }
{
    match object.get("name") {
        None => Err(missing(alloc, "name")),
        Some(value) => placed(
            alloc,
            "name",
            read_player_name(alloc, value, taken, players),
        ),
    }
}

/// Adds a player's heading to those before it.
fn add_heading<'v>(
    alloc: Global,
    list: &mut Vec<Heading<'v>>,
    players: &mut Names<'v>,
    variables: &mut Vec<Names<'v>>,
    value: &'v Value,
    format: GameFormat,
    taken: &str,
) -> Result<(), GameError>
    requires players { players.old ≡ map heading_name (map heading_of list.old.items) }
    requires variables { variables.old.items ≡ map variable_names (map heading_of list.old.items) }
    ensures read { Reads (λ _. map heading_of list.new.items) result
        (add_heading format taken.now (map heading_of list.old.items) (view value.now)) }
    ensures players { OnOk result (players.new ≡ map heading_name (map heading_of list.new.items)) }
    ensures variables { OnOk result (variables.new.items
        ≡ map variable_names (map heading_of list.new.items)) }
    ensures one_more { OnOk result (length list.new.items ≡ length list.old.items + 1) }
{
    read_object(alloc, value)?;
    let name = read_player_name_member(alloc, value, taken, players)?;
    let aim = read_aim_member(alloc, value, format)?;
    let own = read_vars_member(alloc, value, format)?;
    let Members { vars, followers } = read_followers_member(alloc, own, value)?;
    let Vars { list: vars, names } = vars;
    let text = String::from_str(alloc, name)?;
    players.push(name)?;
    variables.push(names)?;
    list.push(Heading {
        name: text,
        aim,
        vars,
        followers,
        value,
    })?;
    Ok(())
}

/// The headings of the items of a list.
pub(crate) fn read_each_heading<'v>(
    alloc: Global,
    items: &'v [Value],
    format: GameFormat,
    taken: &str,
) -> Result<Headings<'v>, GameError>
    ensures read { Reads (λ h. map heading_of h.list.items) result
        (each (add_heading format taken.now) 0 [] (map view items.now)) }
    ensures players { IfOk result (λ h. h.known.players
        ≡ map heading_name (map heading_of h.list.items)) }
    ensures variables { IfOk result (λ h. h.known.variables.items
        ≡ map variable_names (map heading_of h.list.items)) }
    ensures all { IfOk result (λ h. length h.list.items ≡ length items.now) }
{
    let mut list = Vec::new(alloc);
    let mut players = Names::new(alloc);
    let mut variables = Vec::new(alloc);
    for (i, item) in items.iter().enumerate() {
        let added = add_heading(
            alloc,
            &mut list,
            &mut players,
            &mut variables,
            item,
            format,
            taken,
        );
        if let Err(e) = numbered(alloc, i, added) {
            return Err(e);
        }
    }
    Ok(Headings {
        list,
        known: Known { players, variables },
    })
}
