//! Decimals: which there are, and their parts.
ghost use Rattle.std.specs.Prelude.{◌≡◌, ◌≤◌, nat_abs};
ghost use Rattle.edm_values.specs.Parts.{mantissa_max, scale_max};
ghost use Rattle.edm_values.specs.Values.{decimal_of};

use crate::Dec;

/// The greatest mantissa, which has 18 digits; the least is its negation.
pub const MANTISSA_MAX: i64 = 999_999_999_999_999_999;

/// The digits of the greatest mantissa.
pub const PRECISION_MAX: u8 = 18;

/// The greatest scale.
pub const SCALE_MAX: u8 = 9;

impl Dec {
    /// The decimal `m / 10^s`, if the mantissa and the scale keep their limits.
    pub fn new(m: i64, s: u8) -> Option<Dec>
        ensures value { result ≡ decimal_of m s }
    {
        if m < -MANTISSA_MAX || m > MANTISSA_MAX || s > SCALE_MAX {
            return None;
        }
        Some(Dec {
            mantissa: m,
            scale: s,
        })
    }

    /// The mantissa.
    pub fn mantissa(&self) -> i64
        ensures value { result ≡ self.now.mantissa }
        ensures limit { nat_abs result ≤ mantissa_max }
    {
        self.mantissa
    }

    /// The number of digits after the point.
    pub fn scale(&self) -> u8
        ensures value { result ≡ self.now.scale }
        ensures limit { result ≤ scale_max }
    {
        self.scale
    }
}
