//! The two calls that read from a place in a list of tokens: no call of the program reads by them.

ghost use Rattle.std.specs.Prelude.{◌≤◌, length};

use oss_expressions::expression;
use oss_lex::tokens;
use oss_pragma::pragma;
use oss_syntax::{BinOp, Directive, Expr, ExprKind, List, Refusal, Refused, RefusedKind, Token};
use std::alloc::Global;
use std::test::Fail;

const TEXT: &str = "x = a - 1;\n#pragma oss taskwait on(x)\n#pragma oss task on(x)\n";

/// Whether an expression is the name `a`.
fn is_name(value: &Expr) -> bool {
    match &value.what {
        ExprKind::Name(name) => name.as_slice() == b"a".as_slice(),
        _ => false,
    }
}

/// Whether an expression is a difference with `a` on its left.
fn is_difference(value: &Expr) -> bool {
    match &value.what {
        ExprKind::Binary(BinOp::Sub, left, _) => is_name(left.get()),
        _ => false,
    }
}

/// Whether a directive is a wait on so many sections.
fn is_wait_on(directive: &Directive, sections: usize) -> bool {
    match directive {
        Directive::TaskWait(Some(on)) => on.len() == sections,
        _ => false,
    }
}

/// Whether a refusal is of this kind, on this line and behind so many tokens.
fn is(refused: &Refused, kind: RefusedKind, line: u32, token: u32) -> bool {
    refused.kind == kind && refused.line == line && refused.token == token
}

/// Whether a difference is read from the third token on, up to the sixth.
fn reads_a_difference(alloc: Global, tokens: &List<Token>) -> bool
    requires few { length tokens.now ≤ 20 }
    requires enough { 20 ≤ length tokens.now }
{
    match expression(alloc, tokens, 2) {
        Ok((value, behind)) => behind == 5 && is_difference(&value),
        Err(_) => false,
    }
}

/// Whether no expression is read from the second token on.
fn refuses_an_equals_sign(alloc: Global, tokens: &List<Token>) -> bool
    requires few { length tokens.now ≤ 20 }
    requires enough { 20 ≤ length tokens.now }
{
    match expression(alloc, tokens, 1) {
        Ok(_) => false,
        Err(Refusal::Refused(refused)) => is(&refused, RefusedKind::Syntax, 1, 1),
        Err(Refusal::Memory(_)) => false,
    }
}

/// Whether a wait is read from the seventh token on, up to the pragma behind it.
fn reads_a_wait(alloc: Global, tokens: &List<Token>) -> bool
    requires few { length tokens.now ≤ 20 }
    requires enough { 20 ≤ length tokens.now }
{
    match pragma(alloc, tokens, 6) {
        Ok((directive, behind)) => behind == 13 && is_wait_on(&directive, 1),
        Err(_) => false,
    }
}

/// Whether the pragma behind that is refused at its `on`.
fn refuses_on(alloc: Global, tokens: &List<Token>) -> bool
    requires few { length tokens.now ≤ 20 }
    requires enough { 20 ≤ length tokens.now }
{
    match pragma(alloc, tokens, 13) {
        Ok(_) => false,
        Err(Refusal::Refused(refused)) => is(&refused, RefusedKind::BadPragma, 3, 15),
        Err(Refusal::Memory(_)) => false,
    }
}

#[test]
fn an_expression_and_a_pragma_are_read_at_their_places(rt: HostRuntime) -> Result<(), Fail> {
    let alloc = rt.alloc();
    match tokens(alloc, TEXT.as_bytes()) {
        Ok(found) => {
            assert_eq!(rt; found.len(), 20);
            assert!(rt; reads_a_difference(alloc, &found));
            assert!(rt; refuses_an_equals_sign(alloc, &found));
            assert!(rt; reads_a_wait(alloc, &found));
            assert!(rt; refuses_on(alloc, &found));
        }
        Err(_) => assert!(rt; false, "the text has tokens"),
    }
    Ok(())
}
