//! The printed texts of the items of steps. Each function appends one to a text.
ghost use Rattle.std.specs.Prelude.{◌≡◌, ◌++◌, [], ◌∷◌, OnOk, string_bytes, map, decimal, codes, if◌then◌else◌};
ghost use Rattle.std.specs.List.{join_with_byte};
ghost use Rattle.apply_ast.specs.Views.{expr_of, named_of, item_of, agg_of, hier_of, number_literal_of, limit_of};
ghost use Rattle.apply_ast.specs.Printing as spec;
ghost use Rattle.apply_ast.specs.Printing.{each_behind_byte, print_path, print_named, print_direction, print_item, own_name, print_agg, print_hier, print_literal, print_limit};

use crate::expression_texts::{put, put_comma, put_expr, put_number, put_path, put_value};
use crate::items::{AggItem, HierName, Limit, Named, Number, OrderItem};
use crate::names::{Name, Path};
use edm_values::{Method, Seen};
use std::alloc::AllocError;

/// Appends the name that a result gets.
pub(crate) fn put_alias(out: &mut String, name: &Name) -> Result<(), AllocError>
    ensures { OnOk result (string_bytes out.new ≡ string_bytes out.old ++ (codes " as " ++ name.now)) }
{
    put(out, " as ")?;
    put(out, name.text())
}

fn put_named(out: &mut String, named: &Named) -> Result<(), AllocError>
    ensures { OnOk result (string_bytes out.new ≡ string_bytes out.old ++ print_named (named_of named.now)) }
{
    put_expr(out, &named.expr)?;
    put_alias(out, &named.name)
}

/// Appends the items with a comma between each two.
pub(crate) fn put_named_list(out: &mut String, items: &[Named]) -> Result<(), AllocError>
    ensures { OnOk result (string_bytes out.new ≡ string_bytes out.old ++ join_with_byte 44 (map print_named (map named_of items.now))) }
{
    for (i, item) in items.iter().enumerate() {
        put_comma(out, i)?;
        put_named(out, item)?;
    }
    Ok(())
}

fn put_direction(out: &mut String, desc: bool) -> Result<(), AllocError>
    ensures { OnOk result (string_bytes out.new ≡ string_bytes out.old ++ print_direction desc) }
{
    if desc { put(out, " desc") } else { Ok(()) }
}

fn put_item(out: &mut String, item: &OrderItem) -> Result<(), AllocError>
    ensures { OnOk result (string_bytes out.new ≡ string_bytes out.old ++ print_item (item_of item.now)) }
{
    put_expr(out, &item.expr)?;
    put_direction(out, item.desc)
}

/// Appends the items with a comma between each two.
pub(crate) fn put_order_list(out: &mut String, items: &[OrderItem]) -> Result<(), AllocError>
    ensures { OnOk result (string_bytes out.new ≡ string_bytes out.old ++ join_with_byte 44 (map print_item (map item_of items.now))) }
{
    for (i, item) in items.iter().enumerate() {
        put_comma(out, i)?;
        put_item(out, item)?;
    }
    Ok(())
}

/// Appends the items, each behind a comma.
pub(crate) fn put_more_items(out: &mut String, items: &[OrderItem]) -> Result<(), AllocError>
    ensures { OnOk result (string_bytes out.new ≡ string_bytes out.old ++ each_behind_byte 44 (map print_item (map item_of items.now))) }
{
    for item in items {
        put(out, ",")?;
        put_item(out, item)?;
    }
    Ok(())
}

/// The method as it is written.
fn method_word(method: Method) -> &'static str
    ensures { result.now ≡ spec.method_word method }
{
    match method {
        Method::Sum => "sum",
        Method::Min => "min",
        Method::Max => "max",
        Method::CountDistinct => "countdistinct",
    }
}

/// Appends the name of the result where it is another than the aggregate's.
fn put_own_name(out: &mut String, custom: &Name, name: &Name) -> Result<(), AllocError>
    ensures { OnOk result (string_bytes out.new ≡ string_bytes out.old ++ own_name custom.now name.now) }
{
    if custom.text() == name.text() {
        Ok(())
    } else {
        put_alias(out, name)
    }
}

fn put_agg(out: &mut String, item: &AggItem) -> Result<(), AllocError>
    ensures { OnOk result (string_bytes out.new ≡ string_bytes out.old ++ print_agg (agg_of item.now)) }
{
    match item {
        AggItem::Count(name) => {
            put(out, "$count")?;
            put_alias(out, name)
        }
        AggItem::Standard(e, method, name) => {
            put_expr(out, e)?;
            put(out, " with ")?;
            put(out, method_word(*method))?;
            put_alias(out, name)
        }
        AggItem::Custom(custom, name) => {
            put(out, custom.text())?;
            put_own_name(out, custom, name)
        }
    }
}

/// Appends the items with a comma between each two.
pub(crate) fn put_agg_list(out: &mut String, items: &[AggItem]) -> Result<(), AllocError>
    ensures { OnOk result (string_bytes out.new ≡ string_bytes out.old ++ join_with_byte 44 (map print_agg (map agg_of items.now))) }
{
    for (i, item) in items.iter().enumerate() {
        put_comma(out, i)?;
        put_agg(out, item)?;
    }
    Ok(())
}

/// Appends the hierarchy.
pub(crate) fn put_hier(out: &mut String, hier: &HierName) -> Result<(), AllocError>
    ensures { OnOk result (string_bytes out.new ≡ string_bytes out.old ++ print_hier (hier_of hier.now)) }
{
    put(out, "$root/")?;
    put(out, hier.set.text())?;
    put(out, ",")?;
    put(out, hier.qualifier.text())
}

fn put_literal(out: &mut String, number: &Number) -> Result<(), AllocError>
    ensures { OnOk result (string_bytes out.new ≡ string_bytes out.old ++ print_literal (number_literal_of number.now)) }
{
    match number {
        Number::Int(n) => put_value(out, Seen::Int(*n)),
        Number::Dec(d) => put_value(out, Seen::Dec(*d)),
    }
}

/// Appends what a selection reaches for.
pub(crate) fn put_limit(out: &mut String, limit: &Limit) -> Result<(), AllocError>
    ensures { OnOk result (string_bytes out.new ≡ string_bytes out.old ++ print_limit (limit_of limit.now)) }
{
    match limit {
        Limit::Count(n) => put_number(out, *n),
        Limit::Sum(x) => put_literal(out, x),
        Limit::Percent(p) => put_number(out, u64::from(*p)),
    }
}

/// What a selection reaches for, as a word.
pub(crate) fn limit_word(limit: &Limit) -> &'static str
    ensures { result.now ≡ spec.limit_word (limit_of limit.now) }
{
    match limit {
        Limit::Count(_) => "count",
        Limit::Sum(_) => "sum",
        Limit::Percent(_) => "percent",
    }
}

/// Appends the paths with a comma between each two.
pub(crate) fn put_paths(out: &mut String, paths: &[Path]) -> Result<(), AllocError>
    ensures { OnOk result (string_bytes out.new ≡ string_bytes out.old ++ join_with_byte 44 (map print_path paths.now)) }
{
    for (i, path) in paths.iter().enumerate() {
        put_comma(out, i)?;
        put_path(out, path)?;
    }
    Ok(())
}

/// Appends the paths, each behind a comma.
pub(crate) fn put_more_paths(out: &mut String, paths: &[Path]) -> Result<(), AllocError>
    ensures { OnOk result (string_bytes out.new ≡ string_bytes out.old ++ each_behind_byte 44 (map print_path paths.now)) }
{
    for path in paths {
        put(out, ",")?;
        put_path(out, path)?;
    }
    Ok(())
}
