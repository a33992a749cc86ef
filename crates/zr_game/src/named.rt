use zr_base::Point;

/// A point of a player, or a ray at a base: from the base on, each whole multiple of the direction
/// leads to a point of the player.
///
/// No number of a direction is `i128::MIN`.
#[derive(Debug, Drop)]
pub enum Named {
    Point(Point),
    Ray { base: Point, dir: Vec<i128> },
}
