//! Numbers of the values of a list.
ghost use Rattle.std.specs.Prelude.{◌≡◌, ◌<◌, All, IfOk, IfSome, false, map};
ghost use Rattle.std.specs.List.{list_any};
ghost use Rattle.edm_values.specs.Values.{is_beyond, seen_value};
ghost use Rattle.value_codes.specs.Codes.{AreCodes};

use crate::above::{bound_of, codes_above, spread_of};
use edm_values::Seen;
use std::alloc::{AllocError, Global};
use std::marker::Model;

/// A number for each value of a list: two values are the same exactly where their numbers are equal. All are below a bound.
#[derive(Drop)]
pub struct Codes {
    codes: Vec<u32>,
    bound: usize,
}

impl Model for Codes {
    ghost use Rattle.std.specs.Prelude.{◌<◌, All};
    ghost use Rattle.value_codes.specs.Codes.{CodeList};

    ghost Value = { CodeList };

    ghost view = { λ c. record { codes = c.codes.items; bound = c.bound } };

    ghost invariant = { λ c. All (λ n. n < c.bound) c.codes.items };
}

impl Codes {
    /// These numbers.
    pub fn new(codes: Vec<u32>, bound: usize) -> Codes
        requires below { All (λ n. n < bound) codes.items }
        ensures value { result ≡ record { codes = codes.items; bound = bound } }
    {
        Codes { codes, bound }
    }

    /// The numbers, in the order of the list.
    pub fn as_slice(&self) -> &[u32]
        ensures value { result.now ≡ self.now.codes }
        ensures below { All (λ n. n < self.now.bound) result.now }
    {
        self.codes.as_slice()
    }

    /// What all numbers are below.
    pub fn bound(&self) -> usize
        ensures value { result ≡ self.now.bound }
    {
        self.bound
    }

    /// The numbers of integers, or of decimals of one scale, of which some may be null: one more than how far each lies above the
    /// least, and 0 of null. There are none where another value stands in the list, or where the greatest lies further above the
    /// least than four times as many as there are values and 65,536.
    pub fn of_seen(alloc: Global, list: &[Seen<'_>]) -> Result<Option<Codes>, AllocError>
        ensures value { IfOk result (λ o. IfSome o (AreCodes (map (λ v. seen_value v) list.now))) }
        ensures within { IfOk result (λ o. IfSome o (λ _. list_any is_beyond (map (λ v. seen_value v) list.now) ≡ false)) }
    {
        let Some(spread) = spread_of(list) else {
            return Ok(None);
        };
        let Some(bound) = bound_of(list.len(), spread) else {
            return Ok(None);
        };
        match codes_above(alloc, list, &spread, bound)? {
            Some(codes) => Ok(Some(Codes::new(codes, bound as usize))),
            None => Ok(None),
        }
    }
}
