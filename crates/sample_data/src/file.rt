//! The data file of the world of n sales.
ghost use Rattle.std.specs.Prelude.{◌≡◌, ◌≤◌, ◌+◌, IfOk, map};
ghost use Rattle.serde_json.specs.View.{view};
ghost use Rattle.edm_values.specs.Lists.{places};
ghost use Rattle.edm_model.specs.SampleModel.{sample_model};
ghost use Rattle.edm_data.specs.DataFile.{data_reading, World'};
ghost use Rattle.sample_data.specs.Generator as spec;

use crate::draws::next_drawn;
use crate::entities::{CUSTOMERS, customer, org, org_count, sale};
use serde_json::{Value, json};
use std::alloc::{AllocError, Global};

/// The customers.
fn customers(alloc: Global) -> Result<Vec<Value>, AllocError>
    ensures { IfOk result (λ list. map view list.items ≡ map spec.customer_tree (places spec.customer_count)) }
{
    let mut list = Vec::new(alloc);
    for j in 0..CUSTOMERS {
        list.push(customer(alloc, j)?)?;
    }
    Ok(list)
}

/// The organisations of the world of n sales.
fn orgs(alloc: Global, n: u32) -> Result<Vec<Value>, AllocError>
    requires { n ≤ 200000 }
    ensures { IfOk result (λ list. map view list.items ≡ map spec.org_tree (places (spec.org_count n))) }
{
    let mut list = Vec::new(alloc);
    for j in 0..org_count(n) {
        list.push(org(alloc, j)?)?;
    }
    Ok(list)
}

/// The n sales.
fn sales(alloc: Global, n: u32) -> Result<Vec<Value>, AllocError>
    requires { n ≤ 200000 }
    ensures { IfOk result (λ list. map view list.items ≡ map (λ k. spec.sale_tree n (k + 1)) (places n)) }
{
    let mut list = Vec::new(alloc);
    let mut x = 0;
    for k in 0..n {
        x = next_drawn(x);
        list.push(sale(alloc, n, k + 1, x)?)?;
    }
    Ok(list)
}

/// The world of n sales as JSON.
fn data_tree(alloc: Global, n: u32) -> Result<Value, AllocError>
    requires { n ≤ 200000 }
    ensures { IfOk result (λ v. view v ≡ spec.generated_tree n) }
{
    let customers = Value::Array(customers(alloc)?);
    let orgs = Value::Array(orgs(alloc, n)?);
    let sales = Value::Array(sales(alloc, n)?);
    json!(in alloc; {"Customers": customers, "Orgs": orgs, "Sales": sales})
}

/// The data file of the world of n sales. A refusal is want of memory.
pub fn gen_data(alloc: Global, n: u32) -> Result<Vec<u8>, AllocError>
    requires some { 1 ≤ n }
    requires few { n ≤ 200000 }
    ensures value { IfOk result (λ file. data_reading sample_model file.items ≡ World' (spec.generated_world n)) }
{
    let tree = data_tree(alloc, n)?;
    Ok(tree.to_string(alloc)?.into_bytes())
}
