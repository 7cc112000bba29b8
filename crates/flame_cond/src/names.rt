//! What the names of a condition stand for.

ghost use Rattle.std.specs.Prelude.{◌≡◌, ◌<◌, ◌^◌, pos, ◌≤ℤ◌, ◌*ℤ◌, IsTrue, All, Some, int_le};
ghost use Rattle.flame_spec.specs.Columns.{column, width};
ghost use Rattle.flame_spec.specs.TimeUnits.{unit_length};
ghost use Rattle.flame_spec.specs.Conditions.{is_length};

use crate::periods::Period;
use flame_rows::Text;
use flame_spec::{TimeUnit, Variable};

/// The column of the variable of this name: the widths before it together.
pub fn column(variables: &[Variable], name: &str) -> u32
    requires { width variables.now < 2 ^ 32 }
    ensures { result ≡ column name.now variables.now }
{
    let mut at: u32 = 0;
    for variable in variables {
        if variable.name.as_str() == name {
            return at;
        }
        at += variable.width();
    }
    at
}

/// `product` times a period. Both have 31 bits.
fn times(product: i64, period: i32) -> i64
    requires low { pos 1 ≤ℤ product }
    requires high { product ≤ℤ pos 2147483647 }
    ensures { result ≡ product *ℤ period }
{
    product * i64::from(period)
}

/// The length of the time unit of this name, from the last unit to the first: a unit is measured in one before it.
pub fn period(units: &[TimeUnit], name: &Text) -> Period
    requires known { IsTrue (is_length (unit_length units.now name.now)) }
    requires periods { All (λ unit. IsTrue (int_le (pos 1) unit.period)) units.now }
    ensures { unit_length units.now name.now ≡ Some result.length }
{
    let mut product: i64 = 1;
    let mut wanted = name;
    for done in 0..units.len() {
        let unit = &units[units.len() - 1 - done];
        if unit.name.as_str() == wanted.as_str() {
            product = times(product, unit.period);
            wanted = &unit.unit;
        }
    }
    Period {
        length: product as i32,
    }
}
