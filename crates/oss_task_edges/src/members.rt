//! The members of groups, in lists that share their ends.

ghost use Rattle.std.specs.Prelude.{◌≡◌, ◌≤◌, ◌++◌, [], List as Items, length, map, slice_get, IfOk, OnOk, Some};
ghost use Rattle.oss_task_edges.specs.declared.members.Member.{Member as Kept};
ghost use Rattle.oss_task_edges.specs.Members.{AreBehind, IsChain, height, member_at, part_of};

use crate::part::Part;
use oss_syntax::{Mode, Range};
use std::alloc::{AllocError, Global};
use std::marker::Model;

/// A child in a group, how it has the cell, and the place of the one that came into the group before it.
#[derive(Clone, Copy, PartialEq, Eq)]
pub(crate) struct Member {
    pub(crate) child: u16,
    pub(crate) mode: Mode,
    pub(crate) strong: bool,
    pub(crate) older: Option<usize>,
}

/// The members of all groups. Each stands behind those that came into its group before it.
#[derive(Drop)]
pub(crate) struct Members {
    items: Vec<Member>,
}

impl Model for Members {
    ghost use Rattle.std.specs.Prelude.{List as Items};
    ghost use Rattle.oss_task_edges.specs.declared.members.Member.{Member as Kept};
    ghost use Rattle.oss_task_edges.specs.Members.{AreBehind};

    ghost Value = { Items Kept };

    ghost view = { λ m. m.items.items };

    ghost invariant = { λ m. AreBehind 0 m.items.items };
}

/// That a new child stands on this member for the cells of this range, which it has by a strong access or a weak one.
fn part_of(member: Member, range: Range, strong: bool) -> Part
    ensures { result ≡ part_of range strong member }
{
    Part {
        from: member.child,
        range,
        strong: member.strong && strong,
    }
}

impl Members {
    /// No member. It takes no memory.
    pub(crate) fn new(alloc: Global) -> Members
        ensures { result ≡ [] }
    {
        Members {
            items: Vec::new(alloc),
        }
    }

    /// The member at a place, if there is one.
    pub(crate) fn at(&self, place: Option<usize>) -> Option<Member>
        ensures found { result ≡ member_at self.now place }
        ensures behind { AreBehind 0 self.now }
    {
        match place {
            Some(at) => self.items.get(at).copied(),
            None => None,
        }
    }

    /// The place of a member that comes into the group of which this is the newest one so far, or begins a group. The one that
    /// was made last is taken again if it is the same, so that cells that become alike are one piece.
    pub(crate) fn add(
        &mut self,
        child: u16,
        mode: Mode,
        strong: bool,
        older: Option<usize>,
    ) -> Result<usize, AllocError>
        ensures there { IfOk result (λ at. height older ≤ length self.old → slice_get self.new at ≡
            Some (record { child = child; mode = mode; strong = strong; older = older })) }
        ensures more { OnOk result ((more : Items Kept) × (self.new ≡ self.old ++ more)) }
    {
        let wanted = Member {
            child,
            mode,
            strong,
            older: self.known(older),
        };
        match self.items.last() {
            Some(last) => {
                if *last == wanted {
                    return Ok(self.items.len() - 1);
                }
            }
            None => {}
        }
        let at = self.items.len();
        self.items.push(wanted)?;
        Ok(at)
    }

    /// The place, if there is a member.
    fn known(&self, place: Option<usize>) -> Option<usize>
        ensures within { height result ≤ length self.now }
        ensures same { height place ≤ length self.now → result ≡ place }
    {
        match place {
            Some(at) => { if at < self.items.len() { place } else { None } }
            None => None,
        }
    }

    /// Adds a part for each member of the group of which the newest one stands here: a new child stands on it for the cells
    /// of this range, which it has by a strong access or a weak one.
    pub(crate) fn tell(
        &self,
        newest: Option<usize>,
        range: Range,
        strong: bool,
        parts: &mut Vec<Part>,
    ) -> Result<(), AllocError>
        ensures { OnOk result ((group : Items Kept) → IsChain self.now newest group →
            parts.new.items ≡ parts.old.items ++ map (part_of range strong) group) }
    {
        let mut place = newest;
        'group: while let Some(member) = self.at(place) {
            parts.push(part_of(member, range, strong))?;
            place = member.older;
        }
        Ok(())
    }
}
