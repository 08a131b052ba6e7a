//! The entities of the sample world as JSON.
ghost use Rattle.std.specs.Prelude.{◌≡◌, ◌<◌, ◌≤◌, IfOk, pos, string_bytes};
ghost use Rattle.serde_json.specs.View.{view};
ghost use Rattle.edm_values.specs.Literals.{decimal_text};
ghost use Rattle.sample_data.specs.Generator as spec;

use edm_values::{Dec, Seen, print_value};
use serde_json::{Value, json};
use std::alloc::{AllocError, Global};

/// The number of customers.
pub const CUSTOMERS: u32 = 8;

/// How many sales there are to one organisation.
const SALES_EACH: u32 = 200;

/// The number of organisations in the world of n sales.
pub fn org_count(n: u32) -> u32
    requires { n ≤ 200000 }
    ensures { result ≡ spec.org_count n }
{
    n / SALES_EACH + 1
}

/// The identifier of a customer.
fn customer_name(alloc: Global, j: u32) -> Result<String, AllocError>
    ensures { IfOk result (λ name. string_bytes name ≡ spec.customer_name j) }
{
    format!(in alloc; "C{j}")
}

/// The identifier of an organisation.
fn org_name(alloc: Global, j: u32) -> Result<String, AllocError>
    ensures { IfOk result (λ name. string_bytes name ≡ spec.org_name j) }
{
    format!(in alloc; "O{j}")
}

/// The country of a customer.
fn country(j: u32) -> &'static str
    ensures { result.now ≡ spec.country j }
{
    match j % 4 {
        0 => "US",
        1 => "NL",
        2 => "FR",
        _ => "DE",
    }
}

/// A customer, whose name is its identifier.
pub fn customer(alloc: Global, j: u32) -> Result<Value, AllocError>
    ensures { IfOk result (λ v. view v ≡ spec.customer_tree j) }
{
    let name = customer_name(alloc, j)?;
    json!(in alloc; {"ID": &name, "Name": &name, "Country": country(j)})
}

/// An organisation. The first is a root, and four stand below each.
pub fn org(alloc: Global, j: u32) -> Result<Value, AllocError>
    ensures { IfOk result (λ v. view v ≡ spec.org_tree j) }
{
    let name = org_name(alloc, j)?;
    if j == 0 {
        return json!(in alloc; {"ID": &name});
    }
    let parent = org_name(alloc, (j - 1) / 4)?;
    json!(in alloc; {"ID": &name, "ParentID": &parent})
}

/// An amount of so many hundredths.
fn amount(alloc: Global, hundredths: u32) -> Result<String, AllocError>
    requires { hundredths < 10000 }
    ensures { IfOk result (λ text. string_bytes text ≡ decimal_text (pos hundredths) 2) }
{
    let mut bytes = Vec::new(alloc);
    match Dec::new(i64::from(hundredths), 2) {
        Some(amount) => print_value(Seen::Dec(amount), &mut bytes)?,
        None => unreachable!(),
    }
    match String::from_utf8(bytes) {
        Ok(text) => Ok(text),
        Err(_) => unreachable!(),
    }
}

/// The sale of this number, from 1, for which x was drawn. Its last four digits are the amount in hundredths; its higher
/// bits choose the customer and the organisation.
pub fn sale(alloc: Global, n: u32, i: u32, x: u32) -> Result<Value, AllocError>
    requires few { n ≤ 200000 }
    requires drawn { x ≡ spec.drawn i }
    ensures { IfOk result (λ v. view v ≡ spec.sale_tree n i) }
{
    let amount = amount(alloc, x % 10000)?;
    let customer = customer_name(alloc, x / 65536 % CUSTOMERS)?;
    let org = org_name(alloc, x / 1024 % org_count(n))?;
    json!(in alloc; {"ID": i, "Amount": &amount, "CustomerID": &customer, "OrgID": &org})
}
