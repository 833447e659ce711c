//! The reply that draws the graph of a program's tasks.

ghost use Rattle.std.specs.Prelude.{◌≡◌, ◌≤◌, length, Some, IfOk};
ghost use Rattle.oss_lower_laws.specs.Lowered.{IsLowered};
ghost use Rattle.oss_top.specs.Drawn.{IsGraphOfProgram, IsGraphReply, drawn_reply};

use crate::reply::Reply;
use crate::run::{are_words, reply_to_fault};
use oss_code::Code;
use oss_graph::graph;
use oss_graph_laws::graphs_alike;
use oss_graph_text::graph_text;
use oss_labels::{codes_stand_at_places, labels_by_entry};
use oss_lower::lower;
use oss_names::Known;
use oss_syntax::Bytes;
use oss_task_graph::{Graph, Stop};
use std::alloc::{AllocError, Global};

/// Runs a program that breaks no rule, and draws the graph of its tasks, with the fault to which it comes, if it comes to
/// one.
pub(crate) fn reply_to_graph(alloc: Global, fuel: u32, known: &Known) -> Result<Reply, AllocError>
    ensures { IfOk result (λ reply. IsGraphReply fuel known.now reply) }
{
    let code = lower(alloc, known)?;
    let labels = labels_by_entry(alloc, known, &code)?;
    let graph = graph_of(alloc, fuel, known, &code)?;
    let text = graph_text(alloc, known.program(), &labels, &graph)?;
    reply_to_drawn(alloc, &graph.fault, text)
}

/// The graph of a program, by its code. Condition: that is what lowering makes of the program.
fn graph_of(alloc: Global, fuel: u32, known: &Known, code: &Code) -> Result<Graph, AllocError>
    requires lowered { IsLowered known.now.items code.now }
    requires few { length code.now.first ≤ 1048576 }
    ensures { IfOk result (λ graph. IsGraphOfProgram fuel known.now graph) }
{
    are_words(code.first().as_slice());
    codes_stand_at_places();
    graphs_alike();
    graph(alloc, known.program(), code, fuel)
}

/// The reply with this text to a run that came to its end, or to this fault.
fn reply_to_drawn(alloc: Global, fault: &Option<Stop>, text: Bytes) -> Result<Reply, AllocError>
    ensures { IfOk result (λ reply. reply ≡ drawn_reply text fault.now) }
{
    match fault {
        Some(stop) => reply_to_fault(alloc, stop.kind, stop.line, text),
        None => Ok(Reply::done(alloc, text)),
    }
}
