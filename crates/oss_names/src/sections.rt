//! The rules on array sections and on the clauses of a pragma.
ghost use Rattle.std.specs.Prelude.{◌≡◌, ◌∷◌, ◌++◌, ◌+◌, ◌≤◌, [], None, length, nat_le, take};
ghost use Rattle.oss_grammar.specs.Broken.{first, where_so};
ghost use Rattle.oss_grammar.specs.ExpressionRules.{value_rules};
ghost use Rattle.oss_grammar.specs.StaticRules.{wait_rules};
ghost use Rattle.oss_grammar.specs.SectionRules.{begins_with_base, clause_rules, clauses_rules, ends_with_base, fits_base, form_rules, has_elements, has_ints, inner_rules, is_array, is_fold, is_global, is_grid, is_int, is_missing, is_wrong_section, loop_clause_rules, loop_clauses_rules, many_rules, optional_rules, section_rules, sections_in, sections_rules};

use oss_grammar::{Named, Wanted};
use oss_syntax::{
    Clause, Expr, Form, Inner, Kind, List, Mode, NumKind, Refused, RefusedKind, Section, Turns,
};
use oss_types::{Globals, Locals, Scope, before, refused_if, value, value_in};

/// The most sections of a pragma.
const MOST_SECTIONS: usize = 64;

/// The most locals of a function that are in scope at one place.
pub(crate) const MOST_LOCALS: usize = 255;

/// The first rule that the clauses of a pragma break.
pub(crate) fn clauses(
    globals: &Globals<'_>,
    locals: &Locals<'_>,
    clauses: &[Clause],
) -> Option<Refused>
    ensures { result ≡ first (clauses_rules globals.now locals.now 0 clauses.now) }
{
    loop_clauses(globals, locals, locals.len(), clauses)
}

/// The first rule that the clauses of a task loop break, whose grainsize knows the first `outer` locals alone.
pub(crate) fn loop_clauses(
    globals: &Globals<'_>,
    locals: &Locals<'_>,
    outer: usize,
    clauses: &[Clause],
) -> Option<Refused>
    ensures { result ≡ first (loop_clauses_rules globals.now (take outer locals.now) locals.now 0 clauses.now) }
{
    let mut count = 0usize;
    for one in clauses {
        match loop_clause(globals, locals, outer, count, one) {
            Some(broken) => return Some(broken),
            None => {}
        }
        count += sections_of(one);
    }
    None
}

/// How many sections a clause has.
fn sections_of(clause: &Clause) -> usize
    ensures { result ≡ length (sections_in clause.now) }
{
    match clause {
        Clause::Depend(_, _, _, sections) => sections.len(),
        _ => 0,
    }
}

/// The first rule that a clause of a task loop breaks behind so many sections of its pragma.
fn loop_clause(
    globals: &Globals<'_>,
    locals: &Locals<'_>,
    outer: usize,
    before: usize,
    one: &Clause,
) -> Option<Refused>
    requires { before ≤ 64 }
    ensures rules { result ≡ first (loop_clause_rules globals.now (take outer locals.now) locals.now before one.now) }
    ensures few { result ≡ None → before + length (sections_in one.now) ≤ 64 }
{
    match one {
        Clause::Grain(expr) => {
            value_in(globals, &Scope::first(locals, outer), Wanted::Number, expr)
        }
        _ => clause(globals, locals, before, one),
    }
}

/// The first rule that a clause breaks behind so many sections of its pragma.
fn clause(
    globals: &Globals<'_>,
    locals: &Locals<'_>,
    before: usize,
    clause: &Clause,
) -> Option<Refused>
    requires { before ≤ 64 }
    ensures rules { result ≡ first (clause_rules globals.now locals.now before clause.now) }
    ensures few { result ≡ None → before + length (sections_in clause.now) ≤ 64 }
{
    match clause {
        Clause::Depend(mode, _, _, list) => {
            sections(globals, locals, folds(*mode), before, list.as_slice())
        }
        Clause::If(expr) => value(globals, locals, Wanted::Number, expr),
        Clause::Final(expr) => value(globals, locals, Wanted::Number, expr),
        Clause::Wait => None,
        Clause::Label(_) => None,
        Clause::Priority(expr) => value(globals, locals, Wanted::Number, expr),
        Clause::Grain(expr) => value(globals, locals, Wanted::Number, expr),
    }
}

/// Whether a clause is a reduction, which allows fewer types than a dependency.
fn folds(mode: Mode) -> bool
    ensures { result ≡ is_fold mode }
{
    match mode {
        Mode::Read => false,
        Mode::Write => false,
        Mode::Fold(_) => true,
    }
}

/// The first rule that sections break behind so many others of their pragma; where they break none, there are
/// at most 64 with them. The sections of a reduction name numbers of 64 bits.
pub(crate) fn sections(
    globals: &Globals<'_>,
    locals: &Locals<'_>,
    fold: bool,
    before: usize,
    sections: &[Section],
) -> Option<Refused>
    requires { before ≤ 64 }
    ensures rules { result ≡ first (sections_rules globals.now locals.now fold before sections.now) }
    ensures few { result ≡ None → before + length sections.now ≤ 64 }
{
    let mut count = before;
    for one in sections {
        match section(globals, locals, fold, count, one) {
            Some(broken) => return Some(broken),
            None => {}
        }
        count += 1;
    }
    None
}

/// The first rule that a section breaks behind so many others of its pragma.
#[tactic(auto, using(oss_types::proofs::Firsts::firsts))]
fn section(
    globals: &Globals<'_>,
    locals: &Locals<'_>,
    fold: bool,
    count: usize,
    section: &Section,
) -> Option<Refused>
    ensures { result ≡ first (section_rules globals.now locals.now fold count section.now) }
{
    let named = globals.named(&Scope::all(locals), section.base.as_slice());
    let line = section.line;
    let base_first = begins(&section.form);
    let base_last = ends(&section.form);
    let missing = is_unknown(named);
    let wrong = is_wrong(fold, &section.form, named);
    let inside = expressions(globals, locals, &section.form);
    let last = refused_if(
        base_last && missing,
        RefusedKind::UnknownName,
        section.base_line,
    );
    let between = refused_if(
        !(base_first || base_last) && missing,
        RefusedKind::UnknownName,
        section.base_line,
    );
    let large = refused_if(count == MOST_SECTIONS, RefusedKind::TooLarge, line);
    let from_large = before(large, before(between, before(inside, last)));
    let from_wrong = before(refused_if(wrong, RefusedKind::WrongKind, line), from_large);
    before(
        refused_if(base_first && missing, RefusedKind::UnknownName, line),
        from_wrong,
    )
}

/// Whether a base is not in scope. It is refused for this alone.
fn is_unknown(named: Named) -> bool
    ensures { result ≡ is_missing named }
{
    match named {
        Named::Missing => true,
        _ => false,
    }
}

/// Whether the base is the first token of a section.
fn begins(form: &Form) -> bool
    ensures { result ≡ begins_with_base form.now }
{
    match form {
        Form::Deref => false,
        Form::Shape(_) => false,
        Form::Many(_, _, _) => false,
        _ => true,
    }
}

/// Whether the base is the last token of a section.
fn ends(form: &Form) -> bool
    ensures { result ≡ ends_with_base form.now }
{
    match form {
        Form::Deref => true,
        Form::Shape(_) => true,
        _ => false,
    }
}

/// The first rule that the expressions of a section break.
#[tactic(auto, using(oss_types::proofs::Firsts::firsts))]
fn expressions(globals: &Globals<'_>, locals: &Locals<'_>, form: &Form) -> Option<Refused>
    ensures { result ≡ first (form_rules globals.now locals.now form.now) }
{
    match form {
        Form::Whole => None,
        Form::Deref => None,
        Form::Shape(count) => value(globals, locals, Wanted::Number, count),
        Form::Element(place) => value(globals, locals, Wanted::Number, place),
        Form::Length(from, count) => both(globals, locals, from, count),
        Form::Span(lower, upper) => both_ends(globals, locals, lower, upper),
        Form::Grid(rows, columns) => both_dimensions(globals, locals, rows, columns),
        Form::Many(index, second, turns) => several(globals, locals, index, second, turns),
    }
}

/// The first rule that the expressions of a multidependency break. Its variable is in scope in the indices alone.
fn several(
    globals: &Globals<'_>,
    locals: &Locals<'_>,
    index: &Expr,
    second: &Option<Expr>,
    turns: &Turns,
) -> Option<Refused>
    ensures { result ≡ first (many_rules globals.now locals.now index.now second.now turns.now) }
{
    let scope = Scope::with(locals, &turns.variable);
    let row = value_in(globals, &scope, Wanted::Number, index);
    let column = optional_in(globals, &scope, second);
    before(row, before(column, turns_alone(globals, locals, turns)))
}

/// The first rule that the turns of a multidependency break, in which its variable is not in scope.
#[tactic(auto, using(oss_types::proofs::Firsts::firsts))]
fn turns_alone(globals: &Globals<'_>, locals: &Locals<'_>, turns: &Turns) -> Option<Refused>
    ensures { result ≡ first (where_so (nat_le 255 (length locals.now)) RefusedKind.TooLarge
        turns.now.variable.line ++ (optional_rules globals.now locals.now turns.now.variable.first ++
        value_rules globals.now locals.now Wanted.Number turns.now.count)) }
{
    let many = MOST_LOCALS <= locals.len();
    let large = refused_if(many, RefusedKind::TooLarge, turns.variable.line);
    let from = optional(globals, locals, &turns.variable.first);
    let count = value(globals, locals, Wanted::Number, &turns.count);
    before(large, before(from, count))
}

/// The first rule that the expressions of two dimensions break.
#[tactic(auto, using(oss_types::proofs::Firsts::firsts))]
fn both_dimensions(
    globals: &Globals<'_>,
    locals: &Locals<'_>,
    rows: &Inner,
    columns: &Inner,
) -> Option<Refused>
    ensures { result ≡ first (inner_rules globals.now locals.now rows.now ++
        inner_rules globals.now locals.now columns.now) }
{
    before(
        dimension(globals, locals, rows),
        dimension(globals, locals, columns),
    )
}

/// The first rule that the expressions of one dimension break.
fn dimension(globals: &Globals<'_>, locals: &Locals<'_>, inner: &Inner) -> Option<Refused>
    ensures { result ≡ first (inner_rules globals.now locals.now inner.now) }
{
    match inner {
        Inner::Element(place) => value(globals, locals, Wanted::Number, place),
        Inner::Length(from, count) => both(globals, locals, from, count),
        Inner::Span(lower, upper) => both_ends(globals, locals, lower, upper),
    }
}

/// The first rule that two numbers break.
#[tactic(auto, using(oss_types::proofs::Firsts::firsts))]
fn both(globals: &Globals<'_>, locals: &Locals<'_>, one: &Expr, other: &Expr) -> Option<Refused>
    ensures { result ≡ first (value_rules globals.now locals.now Wanted.Number one.now ++
        value_rules globals.now locals.now Wanted.Number other.now) }
{
    before(
        value(globals, locals, Wanted::Number, one),
        value(globals, locals, Wanted::Number, other),
    )
}

/// The first rule that two numbers break that may be left out.
#[tactic(auto, using(oss_types::proofs::Firsts::firsts))]
fn both_ends(
    globals: &Globals<'_>,
    locals: &Locals<'_>,
    lower: &Option<Expr>,
    upper: &Option<Expr>,
) -> Option<Refused>
    ensures { result ≡ first (optional_rules globals.now locals.now lower.now ++
        optional_rules globals.now locals.now upper.now) }
{
    before(
        optional(globals, locals, lower),
        optional(globals, locals, upper),
    )
}

/// The first rule that a number breaks that may be left out.
pub(crate) fn optional(
    globals: &Globals<'_>,
    locals: &Locals<'_>,
    expr: &Option<Expr>,
) -> Option<Refused>
    ensures { result ≡ first (optional_rules globals.now locals.now expr.now) }
{
    match expr {
        Some(expr) => value(globals, locals, Wanted::Number, expr),
        None => None,
    }
}

/// The same where these locals are in scope.
fn optional_in(
    globals: &Globals<'_>,
    locals: &Scope<'_, '_>,
    expr: &Option<Expr>,
) -> Option<Refused>
    ensures { result ≡ first (optional_rules globals.now locals.now expr.now) }
{
    match expr {
        Some(expr) => value_in(globals, locals, Wanted::Number, expr),
        None => None,
    }
}

/// Whether a form does not allow a base that is in scope, or a reduction its type.
fn is_wrong(fold: bool, form: &Form, named: Named) -> bool
    ensures { result ≡ is_wrong_section fold form.now named }
{
    match named {
        Named::Missing => false,
        _ => !fits(form, named) || (fold && names_ints(named)),
    }
}

/// Whether the base has what a form counts in: cells of a global, elements, or rows and columns.
fn fits(form: &Form, named: Named) -> bool
    ensures { result ≡ fits_base form.now named }
{
    match form {
        Form::Whole => is_a_global(named),
        Form::Deref => names_elements(named),
        Form::Shape(_) => names_elements(named),
        Form::Span(_, None) => is_an_array(named),
        Form::Grid(_, _) => is_a_grid(named),
        Form::Many(_, Some(_), _) => is_a_grid(named),
        _ => names_elements(named) || is_a_grid(named),
    }
}

/// Whether the text tells how many cells a base has in all, so that its name alone is a section.
fn is_a_global(named: Named) -> bool
    ensures { result ≡ is_global named }
{
    match named {
        Named::Scalar(_) => true,
        Named::Array(_) => true,
        Named::Grid(_) => true,
        _ => false,
    }
}

/// Whether the text tells how many elements or rows a base has, so that an upper end may be left out.
fn is_an_array(named: Named) -> bool
    ensures { result ≡ is_array named }
{
    match named {
        Named::Array(_) => true,
        Named::Grid(_) => true,
        _ => false,
    }
}

/// Whether a base has rows and columns.
fn is_a_grid(named: Named) -> bool
    ensures { result ≡ is_grid named }
{
    match named {
        Named::Grid(_) => true,
        _ => false,
    }
}

/// Whether a base is counted in single elements: an array of one dimension, or a pointer.
fn names_elements(named: Named) -> bool
    ensures { result ≡ has_elements named }
{
    match named {
        Named::Array(_) => true,
        Named::Local(Kind::Pointer(_)) => true,
        _ => false,
    }
}

/// Whether the cells of a base are numbers of 32 bits, into which no reduction folds.
fn names_ints(named: Named) -> bool
    ensures { result ≡ has_ints named }
{
    match named {
        Named::Scalar(number) => is_of_ints(number),
        Named::Array(number) => is_of_ints(number),
        Named::Grid(number) => is_of_ints(number),
        Named::Local(Kind::Pointer(number)) => is_of_ints(number),
        _ => false,
    }
}

/// Whether this is the type `int`.
pub(crate) fn is_of_ints(number: NumKind) -> bool
    ensures { result ≡ is_int number }
{
    match number {
        NumKind::Int => true,
        NumKind::Long => false,
        NumKind::Ulong => false,
    }
}

/// The first rule that the sections of a wait break.
pub(crate) fn wait(
    globals: &Globals<'_>,
    locals: &Locals<'_>,
    list: &Option<List<Section>>,
) -> Option<Refused>
    ensures { result ≡ first (wait_rules globals.now locals.now list.now) }
{
    match list {
        Some(list) => sections(globals, locals, false, 0, list.as_slice()),
        None => None,
    }
}
