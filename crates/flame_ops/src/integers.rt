//! Whole numbers of `int` and the operators on them.

ghost use Rattle.std.specs.Prelude.{◌≡◌};
ghost use Rattle.flame_ops.specs.CauseNames.{name_of_cause};
ghost use Rattle.flame_ops.specs.Integers.{applied, negated};

/// A binary operator on `int`: the multiplicative, additive, relational and equality operators of the C standard,
/// sections 6.5.5, 6.5.6, 6.5.8 and 6.5.9.
#[derive(Clone, Copy, Debug, PartialEq, Eq)]
pub enum Op {
    Add,
    Sub,
    Mul,
    Div,
    Rem,
    Lt,
    Gt,
    Le,
    Ge,
    Eq,
    Ne,
}

/// Why a run of a transition function ends in a fault.
#[derive(Clone, Copy, Debug, PartialEq, Eq)]
pub enum Cause {
    /// A result that `int` does not hold.
    Overflow,
    /// A divisor of 0.
    DivideByZero,
    /// A further turn of a loop or a call of a helper, and no fuel left for it.
    Fuel,
    /// An index of an array that is below 0 or not below the array's length.
    BadIndex,
}

impl Cause {
    /// The cause's name, as it is printed.
    pub fn name(&self) -> &'static str
        ensures { result.now ≡ name_of_cause self.now }
    {
        match self {
            Cause::Overflow => "Overflow",
            Cause::DivideByZero => "DivideByZero",
            Cause::Fuel => "Fuel",
            Cause::BadIndex => "BadIndex",
        }
    }
}

/// One arm of an operator's body: a checked call, a checked call with its divisor, or a comparison.
macro_rules! answer {
    (held $value:expr) => {
        match $value {
            Some(held) => Ok(held),
            None => Err(Cause::Overflow),
        }
    };
    (divided by $divisor:ident, $value:expr) => {
        if $divisor == 0 {
            Err(Cause::DivideByZero)
        } else {
            answer!(held $value)
        }
    };
    (tested $test:expr) => {
        Ok(i32::from($test))
    };
}

/// What the operator gives for two numbers of `int`, by its value over whole numbers without a bound. A quotient is
/// truncated towards zero (C standard, 6.5.5), and a comparison gives 1 or 0 (6.5.8, 6.5.9).
///
/// `DivideByZero` comes exactly where the operator is `/` or `%` and `b` is 0. Else `Overflow` comes exactly where the
/// value is outside -2147483648 to 2147483647 (which 6.5 leaves open), and for `%` where the quotient is: of
/// -2147483648 by -1 neither quotient nor remainder is given, as 6.5.5 has it. `Fuel` and
/// `BadIndex` never come.
pub fn apply(op: Op, a: i32, b: i32) -> Result<i32, Cause>
    ensures { result ≡ applied op a b }
{
    match op {
        Op::Add => answer!(held a.checked_add(b)),
        Op::Sub => answer!(held a.checked_sub(b)),
        Op::Mul => answer!(held a.checked_mul(b)),
        Op::Div => answer!(divided by b, a.checked_div(b)),
        Op::Rem => answer!(divided by b, a.checked_rem(b)),
        Op::Lt => answer!(tested a < b),
        Op::Gt => answer!(tested a > b),
        Op::Le => answer!(tested a <= b),
        Op::Ge => answer!(tested a >= b),
        Op::Eq => answer!(tested a == b),
        Op::Ne => answer!(tested a != b),
    }
}

/// What the sign `-` gives for a number of `int` (C standard, 6.5.3.3): `Overflow` exactly for -2147483648.
pub fn negate(a: i32) -> Result<i32, Cause>
    ensures { result ≡ negated a }
{
    answer!(held a.checked_neg())
}
