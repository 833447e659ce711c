//! The rules on the heads of task loops.
ghost use Rattle.std.specs.Prelude.{◌≡◌, ◌++◌, length, nat_le, OnOk};
ghost use Rattle.oss_grammar.specs.Broken.{first, where_so};
ghost use Rattle.oss_grammar.specs.ExpressionRules.{value_rules};
ghost use Rattle.oss_grammar.specs.Scopes.{loop_locals};
ghost use Rattle.oss_grammar.specs.SectionRules.{optional_rules};
ghost use Rattle.oss_grammar.specs.StaticRules.{head_rules, judged, last_name_rules, name_rules};
ghost use Rattle.oss_names.specs.PartChecks.{IsPartChecked};

use crate::sections::{loop_clauses, optional};
use oss_grammar::Wanted;
use oss_syntax::{LoopHead, Refusal, Refused, RefusedKind};
use oss_types::{Globals, Locals, before, refused_if, value};
use std::alloc::AllocError;

/// With so many locals in scope a task loop has no room for its five.
const NO_ROOM: usize = 251;

/// Checks the pragma and the head of a task loop, and puts its locals in scope.
pub(crate) fn enter<'p>(
    globals: &Globals<'_>,
    head: &'p LoopHead,
    locals: &mut Locals<'p>,
) -> Result<(), Refusal>
    ensures { IsPartChecked locals.old (judged (head_rules globals.now locals.old head.now)
        (loop_locals head.now locals.old)) result locals.new }
{
    let outer = locals.len();
    let behind = refusal_of_head(globals, locals, head);
    match add_locals(head, locals) {
        Ok(()) => {}
        Err(full) => return Err(Refusal::Memory(full)),
    }
    let clauses = loop_clauses(globals, locals, outer, head.mark.clauses.as_slice());
    match before(clauses, behind) {
        Some(broken) => Err(Refusal::Refused(broken)),
        None => Ok(()),
    }
}

/// Adds the locals of a task loop: its variable, and before it four that no text can name.
fn add_locals<'p>(head: &'p LoopHead, locals: &mut Locals<'p>) -> Result<(), AllocError>
    ensures { OnOk result (locals.new ≡ loop_locals head.now locals.old) }
{
    locals.add_hidden()?;
    locals.add_hidden()?;
    locals.add_hidden()?;
    locals.add_hidden()?;
    locals.add(&head.variable)
}

/// The first rule that the head of a task loop breaks behind its pragma.
#[tactic(auto, using(oss_types::proofs::Firsts::firsts))]
fn refusal_of_head(globals: &Globals<'_>, locals: &Locals<'_>, head: &LoopHead) -> Option<Refused>
    ensures { result ≡ first (where_so (nat_le 251 (length locals.now)) RefusedKind.TooLarge
        head.now.variable.line ++ (optional_rules globals.now locals.now head.now.variable.first ++
        (name_rules head.now.variable.name head.now.tested head.now.stepped ++
        (value_rules globals.now locals.now Wanted.Number head.now.end ++ last_name_rules head.now.variable.name
        head.now.tested head.now.stepped)))) }
{
    let variable = &head.variable;
    let many = NO_ROOM <= locals.len();
    let large = refused_if(many, RefusedKind::TooLarge, variable.line);
    let from = optional(globals, locals, &variable.first);
    let end = value(globals, locals, Wanted::Number, &head.end);
    let tested = head.tested.name.as_slice() == variable.name.as_slice();
    let stepped = head.stepped.name.as_slice() == variable.name.as_slice();
    let one = refused_if(!tested, RefusedKind::WrongKind, head.tested.line);
    let other = refused_if(
        tested && !stepped,
        RefusedKind::WrongKind,
        head.stepped.line,
    );
    before(large, before(from, before(one, before(end, other))))
}
