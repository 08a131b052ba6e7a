//! The printed texts of pipelines. Each function appends one to a text.
ghost use Rattle.std.specs.Prelude.{◌≡◌, ◌++◌, [], ◌∷◌, IsTrue, IfOk, OnOk, string_bytes, map, decimal, codes, if◌then◌else◌, option_map};
ghost use Rattle.std.specs.List.{join_with_byte};
ghost use Rattle.apply_ast.specs.AstLaws.{PrintsText, TextsAreWritable};
ghost use Rattle.apply_ast.specs.Grammar.{Text, is_writable};
ghost use Rattle.apply_ast.specs.Views.{expr_of, named_of, item_of, agg_of, hier_of, top_of, traverse_of, inner_of, key_of, step_of, pipe_of};
ghost use Rattle.apply_ast.specs.Printing as spec;
ghost use Rattle.apply_ast.specs.Printing.{call, climb_word, each_behind_byte, join_word, print_agg, print_distance, print_expr, print_hier, print_inner, print_item, print_keep, print_key, print_levels, print_limit, print_named, print_path, print_step, top_word, walk_word};

use crate::expression_texts::{put, put_comma, put_expr, put_number, put_path, put_slash};
use crate::expressions::Expr;
use crate::item_texts::{
    limit_word, put_agg_list, put_alias, put_hier, put_limit, put_more_items, put_more_paths,
    put_named_list, put_order_list, put_paths,
};
use crate::items::{AggItem, HierName, Named, OrderItem, TopStep, TraverseStep};
use crate::names::{Name, Path};
use crate::steps::{KeyItem, Pipe, Step};
use std::alloc::{AllocError, Global};

fn put_filter(out: &mut String, e: &Expr) -> Result<(), AllocError>
    ensures { OnOk result (string_bytes out.new ≡ string_bytes out.old ++ call (codes "filter") (print_expr (expr_of e.now) ∷ [])) }
{
    put(out, "filter(")?;
    put_expr(out, e)?;
    put(out, ")")
}

fn put_compute(out: &mut String, items: &[Named]) -> Result<(), AllocError>
    ensures { OnOk result (string_bytes out.new ≡ string_bytes out.old ++ call (codes "compute") (map print_named (map named_of items.now))) }
{
    put(out, "compute(")?;
    put_named_list(out, items)?;
    put(out, ")")
}

fn put_orderby(out: &mut String, items: &[OrderItem]) -> Result<(), AllocError>
    ensures { OnOk result (string_bytes out.new ≡ string_bytes out.old ++ call (codes "orderby") (map print_item (map item_of items.now))) }
{
    put(out, "orderby(")?;
    put_order_list(out, items)?;
    put(out, ")")
}

fn put_skip(out: &mut String, n: u64) -> Result<(), AllocError>
    ensures { OnOk result (string_bytes out.new ≡ string_bytes out.old ++ call (codes "skip") (decimal n ∷ [])) }
{
    put(out, "skip(")?;
    put_number(out, n)?;
    put(out, ")")
}

fn put_top(out: &mut String, n: u64) -> Result<(), AllocError>
    ensures { OnOk result (string_bytes out.new ≡ string_bytes out.old ++ call (codes "top") (decimal n ∷ [])) }
{
    put(out, "top(")?;
    put_number(out, n)?;
    put(out, ")")
}

fn put_aggregate(out: &mut String, items: &[AggItem]) -> Result<(), AllocError>
    ensures { OnOk result (string_bytes out.new ≡ string_bytes out.old ++ call (codes "aggregate") (map print_agg (map agg_of items.now))) }
{
    put(out, "aggregate(")?;
    put_agg_list(out, items)?;
    put(out, ")")
}

fn put_top_word(out: &mut String, top: &TopStep) -> Result<(), AllocError>
    ensures { OnOk result (string_bytes out.new ≡ string_bytes out.old ++ (let t = top_of top.now in top_word t.bottom t.limit)) }
{
    put(out, if top.bottom { "bottom" } else { "top" })?;
    put(out, limit_word(&top.limit))
}

fn put_top_by(out: &mut String, top: &TopStep) -> Result<(), AllocError>
    ensures { OnOk result (string_bytes out.new ≡ string_bytes out.old ++ (let t = top_of top.now in call (top_word t.bottom t.limit) (print_limit t.limit ∷ print_expr t.expr ∷ []))) }
{
    put_top_word(out, top)?;
    put(out, "(")?;
    put_limit(out, &top.limit)?;
    put(out, ",")?;
    put_expr(out, &top.expr)?;
    put(out, ")")
}

fn put_hier_and_path(out: &mut String, hier: &HierName, path: &Path) -> Result<(), AllocError>
    ensures { OnOk result (string_bytes out.new ≡ string_bytes out.old ++ (print_hier (hier_of hier.now) ++ (codes "," ++ print_path path.now))) }
{
    put_hier(out, hier)?;
    put(out, ",")?;
    put_path(out, path)
}

fn put_walk_word(out: &mut String, post: bool) -> Result<(), AllocError>
    ensures { OnOk result (string_bytes out.new ≡ string_bytes out.old ++ walk_word post) }
{
    put(out, if post { "postorder" } else { "preorder" })
}

fn put_traverse(out: &mut String, walk: &TraverseStep) -> Result<(), AllocError>
    ensures { OnOk result (string_bytes out.new ≡ string_bytes out.old ++ (let t = traverse_of walk.now in call (codes "traverse") (print_hier t.hier ∷ print_path t.path ∷ walk_word t.post ∷ map print_item t.items))) }
{
    put(out, "traverse(")?;
    put_hier_and_path(out, &walk.hier, &walk.path)?;
    put(out, ",")?;
    put_walk_word(out, walk.post)?;
    put_more_items(out, walk.items.as_slice())?;
    put(out, ")")
}

fn put_levels(out: &mut String, all: bool, paths: &[Path]) -> Result<(), AllocError>
    ensures { OnOk result (string_bytes out.new ≡ string_bytes out.old ++ join_with_byte 44 (print_levels all paths.now)) }
{
    if all {
        put(out, "$all")?;
        put_more_paths(out, paths)
    } else {
        put_paths(out, paths)
    }
}

fn put_rollup(out: &mut String, all: bool, paths: &[Path]) -> Result<(), AllocError>
    ensures { OnOk result (string_bytes out.new ≡ string_bytes out.old ++ call (codes "rollup") (print_levels all paths.now)) }
{
    put(out, "rollup(")?;
    put_levels(out, all, paths)?;
    put(out, ")")
}

/// Appends a join up to its inner pipeline.
fn put_join_head(out: &mut String, outer: bool, nav: &Name, alias: &Name) -> Result<(), AllocError>
    ensures { OnOk result (string_bytes out.new ≡ string_bytes out.old ++ (join_word outer ++ (codes "(" ++ (nav.now ++ (codes " as " ++ alias.now))))) }
{
    put(out, if outer { "outerjoin" } else { "join" })?;
    put(out, "(")?;
    put(out, nav.text())?;
    put_alias(out, alias)
}

/// Appends a climb up to its inner pipeline.
fn put_climb_head(
    out: &mut String,
    up: bool,
    hier: &HierName,
    path: &Path,
) -> Result<(), AllocError>
    ensures { OnOk result (string_bytes out.new ≡ string_bytes out.old ++ (climb_word up ++ (codes "(" ++ ((print_hier (hier_of hier.now) ++ (codes "," ++ print_path path.now)) ++ codes ",")))) }
{
    put(out, if up { "ancestors" } else { "descendants" })?;
    put(out, "(")?;
    put_hier_and_path(out, hier, path)?;
    put(out, ",")
}

fn put_keep(out: &mut String, keep: bool) -> Result<(), AllocError>
    ensures { OnOk result (string_bytes out.new ≡ string_bytes out.old ++ each_behind_byte 44 (print_keep keep)) }
{
    if keep {
        put(out, ",keep start")
    } else {
        Ok(())
    }
}

/// Appends what stands behind the inner pipeline of a climb.
fn put_distance(out: &mut String, distance: Option<u64>, keep: bool) -> Result<(), AllocError>
    ensures { OnOk result (string_bytes out.new ≡ string_bytes out.old ++ each_behind_byte 44 (print_distance distance keep)) }
{
    match distance {
        None => put_keep(out, keep),
        Some(d) => {
            put(out, ",")?;
            put_number(out, d)?;
            put_keep(out, keep)
        }
    }
}

/// Appends the keys with a comma between each two.
#[cycle(put_steps)]
fn put_keys(out: &mut String, keys: &[KeyItem]) -> Result<(), AllocError>
    ensures { OnOk result (string_bytes out.new ≡ string_bytes out.old ++ join_with_byte 44 (map print_key (map key_of keys.now))) }
{
    for (i, key) in keys.iter().enumerate() {
        put_comma(out, i)?;
        put_key(out, key)?;
    }
    Ok(())
}

/// Appends the pipelines with a comma between each two.
#[cycle(put_steps)]
fn put_pipes(out: &mut String, pipes: &[Pipe]) -> Result<(), AllocError>
    ensures { OnOk result (string_bytes out.new ≡ string_bytes out.old ++ join_with_byte 44 (map spec.print (map pipe_of pipes.now))) }
{
    for (i, pipe) in pipes.iter().enumerate() {
        put_comma(out, i)?;
        put_pipe(out, pipe)?;
    }
    Ok(())
}

/// Appends the steps with a slash between each two.
#[cycle(put_steps)]
fn put_pipe(out: &mut String, pipe: &Pipe) -> Result<(), AllocError>
    ensures { OnOk result (string_bytes out.new ≡ string_bytes out.old ++ spec.print (pipe_of pipe.now)) }
{
    for (i, step) in pipe.steps().iter().enumerate() {
        put_slash(out, i)?;
        put_step(out, step)?;
    }
    Ok(())
}

/// Appends the inner pipeline behind a comma, where there is one.
#[cycle(put_steps)]
fn put_inner(out: &mut String, inner: &Option<Pipe>) -> Result<(), AllocError>
    ensures { OnOk result (string_bytes out.new ≡ string_bytes out.old ++ each_behind_byte 44 (print_inner (inner_of (option_map pipe_of inner.now)))) }
{
    match inner {
        None => Ok(()),
        Some(pipe) => {
            put(out, ",")?;
            put_pipe(out, pipe)
        }
    }
}

/// Appends the key.
#[cycle(put_steps)]
fn put_key(out: &mut String, key: &KeyItem) -> Result<(), AllocError>
    ensures { OnOk result (string_bytes out.new ≡ string_bytes out.old ++ print_key (key_of key.now)) }
{
    match key {
        KeyItem::Plain(path) => put_path(out, path),
        KeyItem::Rollup(all, paths) => put_rollup(out, *all, paths.as_slice()),
        KeyItem::Recursive(hier, path, inner) => {
            put(out, "rolluprecursive(")?;
            put_hier_and_path(out, hier, path)?;
            put_inner(out, inner)?;
            put(out, ")")
        }
    }
}

/// Appends the transformation.
#[cycle(put_steps)]
fn put_step(out: &mut String, step: &Step) -> Result<(), AllocError>
    ensures { OnOk result (string_bytes out.new ≡ string_bytes out.old ++ print_step (step_of step.now)) }
{
    match step {
        Step::Identity => put(out, "identity"),
        Step::Filter(e) => put_filter(out, e),
        Step::Compute(items) => put_compute(out, items.as_slice()),
        Step::OrderBy(items) => put_orderby(out, items.as_slice()),
        Step::Skip(n) => put_skip(out, *n),
        Step::Top(n) => put_top(out, *n),
        Step::Aggregate(items) => put_aggregate(out, items.as_slice()),
        Step::GroupBy(keys, inner) => {
            put(out, "groupby((")?;
            put_keys(out, keys.as_slice())?;
            put(out, ")")?;
            put_inner(out, inner)?;
            put(out, ")")
        }
        Step::Concat(pipes) => {
            put(out, "concat(")?;
            put_pipes(out, pipes.as_slice())?;
            put(out, ")")
        }
        Step::Join(join) => {
            put_join_head(out, join.outer, &join.nav, &join.alias)?;
            put_inner(out, &join.inner)?;
            put(out, ")")
        }
        Step::TopBy(top) => put_top_by(out, top),
        Step::Climb(climb) => {
            put_climb_head(out, climb.up, &climb.hier, &climb.path)?;
            put_pipe(out, &climb.inner)?;
            put_distance(out, climb.distance, climb.keep)?;
            put(out, ")")
        }
        Step::Traverse(walk) => put_traverse(out, walk),
    }
}

/// The text of the pipeline: one space where the grammar asks for blanks, and no other blank; no leading zero; no
/// parentheses round an expression but those that its tree needs; ascending orders and own names of custom aggregates left
/// out.
pub fn print(alloc: Global, p: &Pipe) -> Result<String, AllocError>
    ensures text { IfOk result (λ s. string_bytes s ≡ spec.print (pipe_of p.now)) }
    ensures grammar { IfOk result (λ s. IsTrue (is_writable (pipe_of p.now)) → Text (pipe_of p.now) (string_bytes s)) }
{
    let mut out = String::new(alloc);
    put_pipe(&mut out, p)?;
    Ok(out)
}

/// The law that the printed text of a pipeline is one of its texts. It does nothing when it runs.
pub fn printed_is_text()
    ensures value { PrintsText }
{}

/// The law that a pipeline with a text meets what printing asks for. It does nothing when it runs.
pub fn texts_are_writable()
    ensures value { TextsAreWritable }
{}
