//! What is kept of the access lists of a task's children.

ghost use Rattle.std.specs.Prelude.{◌≡◌, ◌≤◌, ◌<◌, ◌+◌, ℕ, [], List as Items, OnErr, OnOk, IfOk, Some};
ghost use Rattle.oss_syntax.specs.declared.tree.program.Item.{Item};
ghost use Rattle.oss_judge.specs.Joined.{IsRising};
ghost use Rattle.oss_pieces.specs.Layouts.{grids_from};
ghost use Rattle.oss_ranges.specs.Cells.{Assigns, value_at};
ghost use Rattle.oss_task_graph.specs.Edges.{Accesses, AreEdges};
ghost use Rattle.oss_task_edges.specs.declared.groups.Groups.{Groups as Kept};
ghost use Rattle.oss_task_edges.specs.Kept.{AreEntered, Enters, HasAccesses, Keeps};
ghost use Rattle.oss_task_edges.specs.Members.{spot_in};

use crate::edges::edges_of;
use crate::groups::{Groups, Spot, go_together, kept_behind};
use crate::members::Members;
use crate::part::Part;
use oss_pieces::Layout;
use oss_ranges::RangeMap;
use oss_syntax::{Access, List, Mode, Range};
use oss_task_graph::Edge;
use std::alloc::{AllocError, Global};

/// The children of one task so far: of each cell the last groups of its access list.
pub struct Siblings {
    alloc: Global,
    cells: RangeMap<Groups>,
    members: Members,
}

// By hand, so that who lets one go calls this, and does not take it apart at each exit.
impl Drop for Siblings {
    fn drop(self) {
        let Siblings {
            alloc: _,
            cells,
            members,
        } = self;
        drop(cells);
        drop(members);
    }
}

impl Siblings {
    /// No child. It takes no memory.
    pub fn new(alloc: Global) -> Siblings
        ensures { (accesses : Accesses) → Keeps accesses 0 result }
    {
        Siblings {
            alloc,
            cells: RangeMap::new(alloc),
            members: Members::new(alloc),
        }
    }

    /// Adds the child with this number, and answers the edges to it, their cells as pieces over the globals of the layout. Its
    /// accesses are joined: each cell once, in rising order. Each range of them costs a search in what is kept, and so does each
    /// range and each piece of an edge. Want of memory is the one error; after it no child is kept. Condition: the accesses rise.
    pub fn add(
        &mut self,
        layout: &Layout,
        number: u16,
        accesses: &[Access],
    ) -> Result<List<Edge>, AllocError>
        requires { IsRising accesses.now }
        ensures keeps { OnOk result ((all : Accesses) → Keeps all number self.old → HasAccesses all number accesses.now →
            Keeps all (number + 1) self.new) }
        ensures edges { IfOk result (λ edges. (items : Items Item) → layout.now ≡ grids_from items 0 → (all : Accesses) →
            Keeps all number self.old → HasAccesses all number accesses.now → AreEdges items all number edges) }
        ensures let_go { OnErr result ((all : Accesses) → Keeps all 0 self.new) }
    {
        match self.enter_child(layout, number, accesses) {
            Ok(edges) => Ok(edges),
            Err(full) => {
                *self = Siblings::new(self.alloc);
                Err(full)
            }
        }
    }

    /// The same, but after want of memory the child may be kept at some of its cells and not at others.
    fn enter_child(
        &mut self,
        layout: &Layout,
        number: u16,
        accesses: &[Access],
    ) -> Result<List<Edge>, AllocError>
        requires { IsRising accesses.now }
        ensures keeps { OnOk result ((all : Accesses) → Keeps all number self.old → HasAccesses all number accesses.now →
            Keeps all (number + 1) self.new) }
        ensures edges { IfOk result (λ edges. (items : Items Item) → layout.now ≡ grids_from items 0 → (all : Accesses) →
            Keeps all number self.old → HasAccesses all number accesses.now → AreEdges items all number edges) }
    {
        let mut parts = Vec::new(self.alloc);
        self.enter_all(number, accesses, &mut parts)?;
        edges_of(self.alloc, layout, parts)
    }

    /// Enters the child with this number, which has these accesses.
    fn enter_all(
        &mut self,
        number: u16,
        accesses: &[Access],
        parts: &mut Vec<Part>,
    ) -> Result<(), AllocError>
        requires rising { IsRising accesses.now }
        requires none { parts.old.items ≡ [] }
        ensures { OnOk result (AreEntered number accesses.now self.old self.new parts.new.items) }
    {
        for access in accesses {
            self.enter(number, *access, parts)?;
        }
        Ok(())
    }

    /// Enters it at the cells of one access.
    fn enter(
        &mut self,
        number: u16,
        access: Access,
        parts: &mut Vec<Part>,
    ) -> Result<(), AllocError>
        ensures { OnOk result (Enters number access.mode access.strong access.range.lo access.range.hi self.old self.new
            parts.old.items parts.new.items) }
    {
        let mut from = access.range.lo;
        while from < access.range.hi {
            let (groups, to) = self.cells.run_from(from, access.range.hi);
            let range = Range { lo: from, hi: to };
            self.enter_run(number, access.mode, access.strong, range, groups, parts)?;
            from = to;
        }
        Ok(())
    }

    /// Enters it at the cells of a range of which the same is kept.
    fn enter_run(
        &mut self,
        number: u16,
        mode: Mode,
        strong: bool,
        range: Range,
        groups: Option<Groups>,
        parts: &mut Vec<Part>,
    ) -> Result<(), AllocError>
        requires { (c : ℕ) → range.lo ≤ c → c < range.hi → value_at self.old.cells.pieces c ≡ groups }
        ensures { OnOk result (Enters number mode strong range.lo range.hi self.old self.new parts.old.items
            parts.new.items) }
    {
        let spot = self.spot(groups, mode);
        self.members.tell(spot.before, range, strong, parts)?;
        let now = self.members.add(number, mode, strong, spot.own)?;
        let before = kept_behind(mode, spot.before);
        self.keep(range, Groups { now, before })
    }

    /// Where an access of this mode comes to stand at the end of a list.
    fn spot(&self, groups: Option<Groups>, mode: Mode) -> Spot
        ensures { result ≡ spot_in self.now.members groups mode }
    {
        let Some(groups) = groups else {
            return Spot {
                before: None,
                own: None,
            };
        };
        match self.members.at(Some(groups.now)) {
            None => Spot {
                before: None,
                own: None,
            },
            Some(newest) => {
                if go_together(newest.mode, mode) {
                    Spot {
                        before: groups.before,
                        own: Some(groups.now),
                    }
                } else {
                    Spot {
                        before: Some(groups.now),
                        own: None,
                    }
                }
            }
        }
    }

    /// Keeps this of each cell of a range.
    fn keep(&mut self, range: Range, groups: Groups) -> Result<(), AllocError>
        ensures cells { OnOk result (Assigns range.lo range.hi (Some groups) self.old.cells.pieces self.new.cells.pieces) }
        ensures members { self.new.members ≡ self.old.members }
    {
        self.cells.assign(range, groups)?;
        self.cells.join_at(range.lo);
        self.cells.join_at(range.hi);
        Ok(())
    }
}
