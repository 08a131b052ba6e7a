//! Exact numbers: a mantissa and a scale, in 128 bits.
ghost use Rattle.std.specs.Prelude.{◌≡◌, ◌≤◌, ◌<◌, ◌*ℤ◌, ◌^◌, pos, nat_abs, neg_ℤ};
ghost use Rattle.edm_values.specs.Parts.{scale_max};
ghost use Rattle.edm_values.specs.Values as spec;

/// The sum, at the greater scale.
pub(crate) fn sum(a: (i128, u8), b: (i128, u8)) -> (i128, u8)
    requires left { nat_abs a.0 ≤ 2 ^ 63 }
    requires right { nat_abs b.0 ≤ 2 ^ 63 }
    requires left_scale { a.1 ≤ scale_max }
    requires right_scale { b.1 ≤ scale_max }
    ensures { result ≡ spec.number_plus a b }
{
    let scale = a.1.max(b.1);
    (raised(a.0, scale - a.1) + raised(b.0, scale - b.1), scale)
}

/// The number with the other sign.
pub(crate) fn negated(a: (i128, u8)) -> (i128, u8)
    requires { nat_abs a.0 ≤ 2 ^ 63 }
    ensures value { result ≡ (neg_ℤ a.0, a.1) }
    ensures size { nat_abs result.0 ≤ 2 ^ 63 }
{
    (-a.0, a.1)
}

/// The product, at the sum of the scales.
pub(crate) fn product(a: (i128, u8), b: (i128, u8)) -> (i128, u8)
    requires left { nat_abs a.0 ≤ 2 ^ 63 }
    requires right { nat_abs b.0 ≤ 2 ^ 63 }
    requires left_scale { a.1 ≤ scale_max }
    requires right_scale { b.1 ≤ scale_max }
    ensures { result ≡ spec.number_times a b }
{
    (a.0 * b.0, a.1 + b.1)
}

/// A number times a power of ten.
pub(crate) fn raised(m: i128, by: u8) -> i128
    requires size { nat_abs m ≤ 2 ^ 63 }
    requires power { by ≤ scale_max }
    ensures value { result ≡ m *ℤ pos (10 ^ by) }
    ensures size { nat_abs result < 2 ^ 126 }
{
    m * i128::from(10u64.pow(u32::from(by)))
}
