use std::alloc::{AllocError, Global};
use zr_base::{Wide, cross};
use zr_game::{Game, Leaf, Player};
use zr_system::{Leaves, Region};

/// The most leaves of all players over which supports are tried.
const LEAF_LIMIT: usize = 64;

/// A leaf that is a single point.
#[derive(Drop)]
pub(crate) struct Atom {
    pub(crate) player: usize,
    pub(crate) leaf: usize,
    pub(crate) point: Vec<i64>,
}

/// A game over leaves that are single points, which are numbered through all players.
#[derive(Drop)]
pub(crate) struct Finite {
    /// The points, by player and then by leaf.
    pub(crate) atoms: Vec<Atom>,
    /// What each point costs: a number for each point of the others', at its weight, and last one
    /// by itself.
    costs: Vec<Vec<i128>>,
}

impl Finite {
    /// What point `a` costs at the weight of point `b`; by itself where `b` is the number of points.
    pub(crate) fn cost(&self, a: usize, b: usize) -> i128 {
        if a < self.costs.len() && b < self.costs[a].len() {
            self.costs[a][b]
        } else {
            0
        }
    }

    /// How many points there are.
    pub(crate) fn count(&self) -> usize {
        self.atoms.len()
    }

    /// The player whose point it is.
    pub(crate) fn player_of(&self, a: usize) -> usize {
        if a < self.atoms.len() {
            self.atoms[a].player
        } else {
            0
        }
    }
}

/// The only point of the leaf, if each variable has one value.
fn only_point(alloc: Global, leaf: &Leaf) -> Result<Option<Vec<i64>>, AllocError> {
    let mut point = Vec::new(alloc);
    for (low, high) in leaf.low.iter().zip(leaf.high.iter()) {
        match (*low, *high) {
            (Some(low), Some(high)) if low == high => point.push(low)?,
            _ => return Ok(None),
        }
    }
    Ok(Some(point))
}

/// Appends the points of a player's leaves; whether each of them is a single point.
fn push_atoms(
    alloc: Global,
    atoms: &mut Vec<Atom>,
    player: usize,
    regions: &[Region],
) -> Result<bool, AllocError> {
    for (leaf, region) in regions.iter().enumerate() {
        if !region.exact {
            return Ok(false);
        }
        match only_point(alloc, &region.leaf)? {
            Some(point) => atoms.push(Atom {
                player,
                leaf,
                point,
            })?,
            None => return Ok(false),
        }
    }
    Ok(true)
}

/// The points of all leaves, if each leaf is a single point.
fn all_atoms(alloc: Global, leaves: &Leaves) -> Result<Option<Vec<Atom>>, AllocError> {
    let mut atoms = Vec::new(alloc);
    for (player, regions) in leaves.regions.iter().enumerate() {
        if regions.len() > LEAF_LIMIT || !push_atoms(alloc, &mut atoms, player, regions)? {
            return Ok(None);
        }
    }
    Ok(Some(atoms))
}

/// The value of a variable, or 0 past the last one.
fn value_at(point: &[i64], v: u32) -> i128 {
    let v = v as usize;
    if v < point.len() {
        i128::from(point[v])
    } else {
        0
    }
}

/// What the first player's point costs it at the weight of the second one's.
fn cost_between(players: &[Player], first: &Atom, second: &Atom) -> Result<i128, Wide> {
    let mut sum = 0;
    if first.player >= players.len() {
        return Ok(0);
    }
    for term in &players[first.player].cross {
        if term.player as usize == second.player {
            let coef = i128::from(term.coef);
            let by = cross((coef, value_at(&first.point, term.own)), (0, 0))?;
            sum = cross((by, value_at(&second.point, term.var)), (-1, sum))?;
        }
    }
    Ok(sum)
}

/// What the point costs by itself.
fn own_cost(players: &[Player], atom: &Atom) -> Result<i128, Wide> {
    let mut sum = 0;
    if atom.player >= players.len() {
        return Ok(0);
    }
    for (v, coef) in players[atom.player].cost.as_slice() {
        sum = cross((i128::from(*coef), value_at(&atom.point, *v)), (-1, sum))?;
    }
    Ok(sum)
}

/// What a point costs, if no step is too wide.
fn costs_of(
    alloc: Global,
    players: &[Player],
    atoms: &[Atom],
    atom: &Atom,
) -> Result<Option<Vec<i128>>, AllocError> {
    let mut costs = Vec::new(alloc);
    for other in atoms {
        match cost_between(players, atom, other) {
            Ok(cost) => costs.push(cost)?,
            Err(_) => return Ok(None),
        }
    }
    match own_cost(players, atom) {
        Ok(cost) => costs.push(cost)?,
        Err(_) => return Ok(None),
    }
    Ok(Some(costs))
}

/// What all points cost, if no step is too wide.
fn all_costs(
    alloc: Global,
    players: &[Player],
    atoms: &[Atom],
) -> Result<Option<Vec<Vec<i128>>>, AllocError> {
    let mut all = Vec::new(alloc);
    for atom in atoms {
        match costs_of(alloc, players, atoms, atom)? {
            Some(costs) => all.push(costs)?,
            None => return Ok(None),
        }
    }
    Ok(Some(all))
}

/// The game over the leaves, if all are single points, no more than the limit, and no cost is too
/// wide.
pub(crate) fn finite_game(
    alloc: Global,
    game: &Game,
    leaves: &Leaves,
) -> Result<Option<Finite>, AllocError> {
    let Some(atoms) = all_atoms(alloc, leaves)? else {
        return Ok(None);
    };
    if atoms.len() > LEAF_LIMIT {
        return Ok(None);
    }
    match all_costs(alloc, &game.players, &atoms)? {
        Some(costs) => Ok(Some(Finite { atoms, costs })),
        None => Ok(None),
    }
}
