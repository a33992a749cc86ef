//! The draws of a number.
ghost use Rattle.std.specs.Prelude.{◌≡◌, ◌≢◌, ◌+◌, ◌*◌, ◌/◌, ◌%◌, ◌^◌, ◌<◌, ◌≤◌, ◌++◌, IfOk, OnOk, length, map, string_bytes};
ghost use Rattle.std.specs.List.{range_with_len};
ghost use Rattle.zr_gen.specs.Draws.{draw, head, player_name, rank, term_with};

use std::alloc::{AllocError, Global};
use zr_game::CrossTerm;

/// The draws of a number, as many as were asked for.
///
/// They are made by the congruential method of D. H. Lehmer (1951), with the multiplier of C. E.
/// Haynes that D. E. Knuth tells of (1998). The lowest 33 binary digits of a state, which repeat
/// soon, aren't used.
#[derive(Debug, Drop)]
pub(crate) struct Draws {
    pub(crate) number: u64,
    /// The states after the first, second and further steps, without those digits.
    pub(crate) heads: Vec<u32>,
    ghost drawn: { heads.items ≡ map (head number) (range_with_len 1 (length heads.items)) },
}

impl Draws {
    pub(crate) fn new(alloc: Global, number: u64, count: usize) -> Result<Draws, AllocError>
        ensures number { IfOk result (λ draws. draws.number ≡ number) }
        ensures count { IfOk result (λ draws. length draws.heads.items ≡ count) }
    {
        let mut heads = Vec::new(alloc);
        let mut state = number;
        for _ in 0..count {
            state = next(state);
            heads.push(without_low_digits(state))?;
        }
        Ok(Draws { number, heads })
    }

    /// The draw at this place, from 0 on, below `m`.
    pub(crate) fn below(&self, place: usize, m: u32) -> u32
        requires place { place < length self.now.heads.items }
        requires some { 1 ≤ m }
        ensures value { result ≡ draw self.now.number (place + 1) m }
        ensures below { result < m }
    {
        self.heads[place] % m
    }
}

/// One step of the generator.
fn next(state: u64) -> u64
    ensures { result ≡ (state * 6364136223846793005 + 1442695040888963407) % (2 ^ 64) }
{
    state
        .wrapping_mul(6_364_136_223_846_793_005)
        .wrapping_add(1_442_695_040_888_963_407)
}

fn without_low_digits(state: u64) -> u32
    ensures { result ≡ state / (2 ^ 33) }
{
    (state >> 33) as u32
}

/// The name of player `i`.
pub(crate) fn player_name(alloc: Global, i: u32) -> Result<String, AllocError>
    ensures { IfOk result (λ name. string_bytes name ≡ player_name i) }
{
    format!(in alloc; "p{i}")
}

/// The place of player `j` among the others than `i`.
pub(crate) fn rank(i: u32, j: u32) -> u32
    requires { j ≢ i }
    ensures { result ≡ rank i j }
{
    if j < i { j } else { j - 1 }
}

/// Adds the cross term of variable `v` with variable `v` of player `j`, unless its number is 0.
pub(crate) fn add_term(
    terms: &mut Vec<CrossTerm>,
    v: u32,
    j: u32,
    number: u32,
) -> Result<(), AllocError>
    ensures { OnOk result (terms.new.items ≡ terms.old.items ++ term_with v j number) }
{
    if number != 0 {
        terms.push(CrossTerm {
            own: v,
            player: j,
            var: v,
            coef: i64::from(number),
        })?;
    }
    Ok(())
}
