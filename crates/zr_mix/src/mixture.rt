use zr_base::Point;

/// A point that is played, with a weight of at least 1.
#[derive(Debug, Drop)]
pub struct Part {
    pub weight: i128,
    pub point: Point,
}

/// Points with weights. The probability of a part is its weight over `total`.
#[derive(Debug, Drop)]
pub struct Strategy {
    pub total: i128,
    pub parts: Vec<Part>,
}

/// One strategy per player.
#[derive(Debug, Drop)]
pub struct Profile {
    pub strategies: Vec<Strategy>,
}
