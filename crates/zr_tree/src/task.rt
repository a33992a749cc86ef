/// What is asked of a tree over a player's points.
#[derive(Clone, Copy)]
pub(crate) enum Task<'a> {
    /// That the row `coef * x <= le` holds at each point.
    Row { coef: &'a [i128], le: i128 },
    /// That the leaves at its Known and Loose nodes hold all points.
    Cover,
}
