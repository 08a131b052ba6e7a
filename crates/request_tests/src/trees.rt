//! Trees that are made by hand, names, and the laws on texts.
use apply_ast::{BinOp, Expr, Name, Path, Pipe, Step, print, printed_is_text, texts_are_writable};
use std::alloc::{AllocError, Global};

type Made<T> = Result<T, AllocError>;

fn name(alloc: Global, text: &str) -> Made<Name> {
    Name::new(alloc, text)?.ok_or(AllocError)
}

fn names(alloc: Global, text: &str) -> Made<Path> {
    let name = name(alloc, text)?;
    Ok(Path::new(vec![in alloc; name]?))
}

fn binary(alloc: Global, a: Expr, op: BinOp, b: Expr) -> Made<Expr> {
    let a = Box::new(alloc, a)?;
    Ok(Expr::Binary(op, a, Box::new(alloc, b)?))
}

/// `1 sub 2 sub 3`, grouped to the left or to the right.
fn differences(alloc: Global, right: bool) -> Made<Expr> {
    if right {
        let behind = binary(alloc, Expr::Int(2), BinOp::Sub, Expr::Int(3))?;
        binary(alloc, Expr::Int(1), BinOp::Sub, behind)
    } else {
        let front = binary(alloc, Expr::Int(1), BinOp::Sub, Expr::Int(2))?;
        binary(alloc, front, BinOp::Sub, Expr::Int(3))
    }
}

/// The printed text of the filter by this expression.
fn filtered(alloc: Global, e: Made<Expr>) -> Made<String> {
    let step = Step::Filter(e?);
    let pipe = Pipe::new(vec![in alloc; step]?);
    print(alloc, &pipe)
}

/// Whether the text was printed.
fn is(printed: Made<String>, text: &str) -> bool {
    match printed {
        Ok(printed) => printed.as_str() == text,
        Err(_) => false,
    }
}

#[test]
fn groups_that_are_made_by_hand(rt: HostRuntime) {
    let a = rt.alloc();
    assert!(rt; is(filtered(a, differences(a, false)), "filter(1 sub 2 sub 3)"));
    assert!(rt; is(filtered(a, differences(a, true)), "filter(1 sub (2 sub 3))"));
}

#[test]
fn names_and_paths(rt: HostRuntime) {
    let a = rt.alloc();
    for (text, is_one) in [("and", false), ("1a", false), ("", false), ("_a1", true)] {
        assert!(rt; name(a, text).is_ok() == is_one, "{text}");
    }
    assert!(rt; matches!(names(a, "A"), Ok(p) if p.names().len() == 1));
    printed_is_text();
    texts_are_writable();
}
