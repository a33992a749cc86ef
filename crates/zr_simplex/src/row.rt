ghost use Rattle.std.specs.Prelude.{◌≡◌, ◌≢◌, ◌<◌, ℕ, ℤ, pos, ◌<ℤ◌, ◌*ℤ◌, unsigned_abs, length, IfOk, IfErr, OnOk, Ok, Err};
ghost use Rattle.std.specs.List.{All};
ghost use Rattle.std.specs.Int.{IsGcd, ◌∣◌};
ghost use Rattle.zr_base.specs.Steps.{IsNarrow, cross_of};
ghost use Rattle.zr_simplex.specs.Programs.{numbers};
ghost use Rattle.zr_basis.specs.BasicForms.{IsPrimitive};
ghost use Rattle.zr_simplex.specs.StuckSteps.{AreCoprimeParts};
ghost use Rattle.zr_simplex.specs.RowSteps.{IsCleared, IsGreatest, IsQuotient, IsWideClear, entered};

use zr_base::{Wide, cross, divided, gcd};

/// The place of an equation at which a step was too wide.
#[derive(Clone, Copy)]
pub(crate) struct At {
    pub place: usize,
    pub wide: Wide,
}

/// Where a column comes in, where an equation's own number stands, and the number of the pivot's
/// equation at the column.
#[derive(Clone, Copy)]
pub(crate) struct Entry {
    pub place: usize,
    pub own: usize,
    pub number: i128,
}

/// The greatest common divisor of two numbers, the first of which isn't zero.
fn common(p: i128, a: i128) -> i128
    requires apart { p ≢ pos 0 }
    requires narrow { IsNarrow p }
    ensures positive { pos 0 <ℤ result }
    ensures gcd { IsGcd (unsigned_abs p) (unsigned_abs a) (unsigned_abs result) }
{
    gcd(p.unsigned_abs(), a.unsigned_abs()) as i128
}

/// Two numbers, the first of which isn't zero, divided by their greatest common divisor.
pub(crate) fn coprime_parts(p: i128, a: i128) -> (i128, i128)
    requires apart { p ≢ pos 0 }
    requires narrow { IsNarrow p }
    ensures { AreCoprimeParts p a result.0 result.1 }
{
    let over = common(p, a);
    (divided(p, over), divided(a, over))
}

/// `by * own - less * other`, without a step where nothing changes.
pub(crate) fn difference(by: i128, own: i128, less: i128, other: i128) -> Result<i128, Wide>
    requires { IsNarrow own }
    ensures { result ≡ cross_of (by, own) (less, other) }
{
    if other == 0 && (own == 0 || by == 1) {
        return Ok(own);
    }
    cross((by, own), (less, other))
}

/// A divisor's greatest common divisor with one number more; 1 stays as it is.
pub(crate) fn with_number(common: u128, number: i128) -> u128
    ensures { IsGcd common (unsigned_abs number) result }
{
    if common == 1 {
        return 1;
    }
    gcd(common, number.unsigned_abs())
}

/// Makes a row `by` times itself less `less` times the pivot's, and gives the greatest common
/// divisor of its numbers then.
fn subtract(row: &mut [i128], pivot: &[i128], by: i128, less: i128) -> Result<u128, At>
    requires len { length row.old ≡ length pivot.now }
    requires narrow { All IsNarrow row.old }
    ensures len { length row.new ≡ length row.old }
    ensures ok { OnOk result ((j : ℕ) → j < length row.old
        → cross_of (by, numbers row.old j) (less, numbers pivot.now j) ≡ Ok (numbers row.new j)) }
    ensures greatest { IfOk result (IsGreatest (length row.old) (numbers row.new)) }
    ensures narrow { All IsNarrow row.new }
    ensures err { IfErr result (λ at. (at.place < length row.old)
        × (cross_of (by, numbers row.old at.place)
        (less, numbers pivot.now at.place) ≡ Err at.wide)) }
{
    let mut common = 0;
    for place in 0..row.len() {
        match difference(by, row[place], less, pivot[place]) {
            Ok(number) => {
                row[place] = number;
                common = with_number(common, number);
            }
            Err(wide) => return Err(At { place, wide }),
        }
    }
    Ok(common)
}

/// A row's greatest common divisor with the sign of its number at column `own`.
fn signed_divisor(row: &[i128], own: usize, common: u128) -> i128
    requires own { own < length row.now }
    requires narrow { IsNarrow (numbers row.now own) }
    requires apart { numbers row.now own ≢ pos 0 }
    requires greatest { IsGreatest (length row.now) (numbers row.now) common }
    ensures narrow { IsNarrow result }
    ensures greatest { IsGreatest (length row.now) (numbers row.now) (unsigned_abs result) }
    ensures above { pos 0 <ℤ numbers row.now own → pos 0 <ℤ result }
    ensures below { numbers row.now own <ℤ pos 0 → result <ℤ pos 0 }
{
    let divisor = common as i128;
    if row[own] < 0 { -divisor } else { divisor }
}

/// What is left of a number where a divisor of either sign is taken out.
pub(crate) fn quotient(a: i128, by: i128) -> i128
    requires narrow { IsNarrow a }
    requires narrow_by { IsNarrow by }
    requires apart { by ≢ pos 0 }
    requires divides { unsigned_abs by ∣ unsigned_abs a }
    ensures exact { result *ℤ by ≡ a }
    ensures narrow { IsNarrow result }
{
    if by < 0 {
        divided(-a, -by)
    } else {
        divided(a, by)
    }
}

/// Divides each number of a row.
fn divide(row: &mut [i128], by: i128)
    requires narrow { All IsNarrow row.old }
    requires narrow_by { IsNarrow by }
    requires apart { by ≢ pos 0 }
    requires divides { (j : ℕ) → j < length row.old
        → unsigned_abs by ∣ unsigned_abs (numbers row.old j) }
    ensures len { length row.new ≡ length row.old }
    ensures exact { (j : ℕ) → j < length row.old → numbers row.new j *ℤ by ≡ numbers row.old j }
    ensures narrow { All IsNarrow row.new }
{
    for number in row.iter_mut() {
        *number = quotient(*number, by);
    }
}

/// Takes the greatest common divisor out of a row, and makes its number at column `own` positive.
pub(crate) fn reduce(row: &mut [i128], own: usize, common: u128)
    requires own { own < length row.old }
    requires narrow { All IsNarrow row.old }
    requires apart { numbers row.old own ≢ pos 0 }
    requires greatest { IsGreatest (length row.old) (numbers row.old) common }
    ensures len { length row.new ≡ length row.old }
    ensures quotient { IsQuotient (length row.old) (numbers row.old) (numbers row.new) }
    ensures own { pos 0 <ℤ numbers row.new own }
    ensures primitive { IsPrimitive (length row.old) (numbers row.new) }
    ensures narrow { All IsNarrow row.new }
{
    let by = signed_divisor(row, own, common);
    if by != 1 {
        divide(row, by);
    }
}

/// Clears the number at the place where a column comes in, by what the pivot's equation leaves for
/// the others.
pub(crate) fn clear(row: &mut [i128], pivot: &[i128], entry: Entry) -> Result<(), At>
    requires len { length row.old ≡ length pivot.now }
    requires own { entry.own < length row.old }
    requires place { entry.place < entry.own }
    requires narrow { All IsNarrow row.old }
    requires narrow_pivot { All IsNarrow pivot.now }
    requires narrow_entry { IsNarrow entry.number }
    requires above { pos 0 <ℤ numbers row.old entry.own }
    requires primitive { IsPrimitive (length row.old) (numbers row.old) }
    requires apart { entry.number ≢ pos 0 }
    requires other { numbers pivot.now entry.own ≡ pos 0 }
    ensures len { length row.new ≡ length row.old }
    ensures ok { OnOk result (IsCleared (length row.old) entry.number (numbers row.old entry.place)
        (numbers pivot.now) (numbers (entered entry.place row.old)) (numbers row.new) entry.own) }
    ensures narrow { All IsNarrow row.new }
    ensures err { IfErr result (λ at. (at.place < length row.old)
        × IsWideClear entry.number (numbers row.old entry.place) (numbers pivot.now)
        (numbers (entered entry.place row.old)) at.place at.wide) }
{
    let number = row[entry.place];
    if number == 0 {
        return Ok(());
    }
    let (by, less) = coprime_parts(entry.number, number);
    row[entry.place] = 0;
    let common = subtract(row, pivot, by, less)?;
    reduce(row, entry.own, common);
    Ok(())
}
