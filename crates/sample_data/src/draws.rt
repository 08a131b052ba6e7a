//! The numbers that sales are drawn from: a linear congruential sequence from 0.
ghost use Rattle.std.specs.Prelude.{◌≡◌, ◌<◌, ◌+◌, ◌^◌, ℕ};
ghost use Rattle.sample_data.specs.Generator.{drawn};

const MULTIPLIER: u64 = 1_103_515_245;

const INCREMENT: u64 = 12_345;

const MODULUS: u64 = 1 << 31;

/// The number that follows one of the sequence.
pub fn next_drawn(x: u32) -> u32
    requires { x < 2 ^ 31 }
    ensures small { result < 2 ^ 31 }
    ensures next { (i : ℕ) → x ≡ drawn i → result ≡ drawn (i + 1) }
{
    ((u64::from(x) * MULTIPLIER + INCREMENT) % MODULUS) as u32
}
