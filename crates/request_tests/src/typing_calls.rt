//! Public calls of typing once, where memory is ample: custom aggregates by their ids, and which expressions are sure. The expected answers come from the rules.
use crate::typing_table::own_shape;
use apply_grammar::read_expr;
use context_typing::{is_sure, type_customs};
use custom_readings::read_customs;
use edm_model::read_model;
use std::test::Fail;
use test_support::samples::SAMPLE;

#[test]
fn a_custom_aggregate_is_read_back(rt: HostRuntime) -> Result<(), Fail> {
    let alloc = rt.alloc();
    let m = read_model(alloc, SAMPLE.as_bytes())?;
    let list = read_customs(alloc, &m)?;
    let customs = type_customs(alloc, &m, list)?;
    for custom in m.customs() {
        assert!(rt; customs.has(custom.id));
        let read = customs.read(custom.id);
        let is_one = read.id == custom.id && read.per.as_slice().len() == 1;
        assert!(rt; is_one);
    }
    Ok(())
}

/// Expressions, and whether they are sure by their form.
const SURE: &[(&str, bool)] = &[
    ("Amount", true),
    ("-Amount", true),
    ("-ID", false),
    ("-5", true),
    ("Amount add 1 gt 2", false),
    ("not (Amount gt 1)", true),
    ("contains(CustomerID,'C')", true),
];

#[test]
fn sure_by_form(rt: HostRuntime) -> Result<(), Fail> {
    let alloc = rt.alloc();
    let m = read_model(alloc, SAMPLE.as_bytes())?;
    let Some(set) = m.set_named("Sales") else {
        panic!(rt; "no set");
    };
    let shape = own_shape(alloc, m.set_type(set));
    for (text, wanted) in SURE {
        let e = read_expr(alloc, text)?;
        assert_eq!(rt; is_sure(&m, &shape, &e), *wanted, "{text}");
    }
    Ok(())
}
