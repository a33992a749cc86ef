ghost use Rattle.std.specs.Prelude.{◌≡◌, ◌<◌, ◌↔◌, pos, length, IsTrue, IfOk};
ghost use Rattle.std.specs.List.{All};
ghost use Rattle.zr_base.specs.Sums.{sum_steps};
ghost use Rattle.zr_base.specs.Rows.{products};

use crate::point::Point;
use crate::step::{Wide, add_product, cross};
use smallvec::SmallVec;

/// The row `coef * x <= le`: numbers by column, columns ascending strictly and no number 0.
#[derive(Debug, Drop)]
pub struct Row {
    pub coef: SmallVec<(u32, i64), 8>,
    pub le: i64,
}

/// The row `coef * x <= le` with a number for each column.
///
/// No number is `i128::MIN`.
#[derive(Debug, Drop)]
pub struct Cut {
    pub coef: Vec<i128>,
    pub le: i128,
}

impl Row {
    ghost use Rattle.zr_base.specs.Rows.{RowHolds, holds_of, row_of};

    /// Whether the row holds at a point.
    ///
    /// The sum of `coef * num` is made from the left, and then `le * den`; the answer is the first
    /// step of these that is too wide, where there is one. Each column is below the point's length.
    pub fn holds(&self, point: &Point) -> Result<bool, Wide>
        requires { All (λ t. t.0 < length point.now.num) self.now.coef.items }
        ensures exact { IfOk result (λ yes. IsTrue yes ↔ RowHolds point.now (row_of self.now)) }
        ensures steps { result ≡ holds_of point.now (row_of self.now) }
    {
        let left = sum_at(self.coef.as_slice(), point)?;
        let right = cross((i128::from(self.le), point.den()), (0, 0))?;
        Ok(left <= right)
    }
}

/// The sum of the terms at a point's numerators, from the left.
///
/// Each column is below the point's length. The answer is the first step that is too wide, where
/// there is one.
pub fn sum_at(coef: &[(u32, i64)], point: &Point) -> Result<i128, Wide>
    requires { All (λ t. t.0 < length point.now.num) coef.now }
    ensures { result ≡ sum_steps (pos 0) (products coef.now point.now.num) }
{
    let mut sum = 0;
    for (column, number) in coef {
        sum = add_product(sum, i128::from(*number), point.num(*column as usize))?;
    }
    Ok(sum)
}
