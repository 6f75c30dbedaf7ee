// How close together the rows of a range lie.
ghost use Rattle.std.specs.Prelude.{ℕ, ◌+◌, ◌≤◌, length};
ghost use Rattle.matching.specs.Definitions.Columns.{Inside};
ghost use Rattle.matching.specs.Definitions.Rows.{x_at, y_at};
ghost use Rattle.matching.specs.Definitions.Sizes.{node_rows};
ghost use Rattle.stability.specs.Ranges.{RowOf};

use matching::Range;

// The squared distances of the rows from the ones before them, as a sum.
pub fn spread(at: &[[i16; 2]], r: Range) -> u64
    requires { (r.from ≤ r.to) × (r.to ≤ length at.now) × (r.to ≤ r.from + node_rows)
        × ((k : ℕ) → RowOf r k → Inside (x_at at.now k) (y_at at.now k)) }
{
    let mut sum = 0;
    // By k, which bounds the sum: so many squared distances have been added.
    for k in r.from + 1..r.to {
        sum += u64::from(matching::apart(at[k - 1], at[k]));
    }
    sum
}
