//! What an instruction takes and leaves, and where it leads.
ghost use Rattle.std.specs.Prelude.{◌≡◌, ◌≤◌};
ghost use Rattle.oss_code.specs.Shapes.{takes, leaves, leads, enters, operands_of, part_operands, indices_in};

use crate::instr::{Indices, Instr, PartForm, SectionForm};

/// A way from an instruction to another of the same function.
#[derive(Clone, Copy)]
pub enum Way {
    /// To the next instruction, but so many further on.
    Ahead(u32),
    /// So many instructions back, counted from itself.
    Back(u32),
}

/// The ways from an instruction.
#[derive(Clone, Copy)]
pub enum Ways {
    /// It leads nowhere in the same function.
    End,
    /// It goes on here.
    One(Way),
    /// It goes on at one of these two.
    Two(Way, Way),
}

/// What an instruction enters beside the ways that it leads: there a stack of values begins anew.
#[derive(Clone, Copy)]
pub enum Entry {
    /// Nothing.
    Nothing,
    /// The function with this number, or the creation of that task function.
    Function(u32),
    /// The body of a task, which begins so many instructions behind the next one.
    Task(u32),
}

impl Instr {
    /// How many values the instruction takes from the stack of its function.
    pub fn takes(&self) -> usize
        ensures { result ≡ takes self.now }
    {
        match self {
            Instr::Row(_)
            | Instr::Load
            | Instr::Prefix(_)
            | Instr::Truth
            | Instr::Convert(_)
            | Instr::SetLocal(_, _)
            | Instr::Bind(_)
            | Instr::Drop
            | Instr::SkipUnless(_)
            | Instr::Return
            | Instr::When
            | Instr::Final
            | Instr::Priority => 1,
            Instr::Element(_)
            | Instr::Move(_)
            | Instr::Apply(_)
            | Instr::Store(_)
            | Instr::Fold(_)
            | Instr::Under
            | Instr::Swap
            | Instr::Turns(_) => 2,
            Instr::Call { arguments, .. }
            | Instr::Spawn { arguments, .. }
            | Instr::Print { arguments, .. } => *arguments as usize,
            Instr::Section(_, form, _) => operands(*form),
            Instr::Turn(_, indices) => index_count(*indices),
            _ => 0,
        }
    }

    /// How many values it leaves there when it goes on: a `Call` or a `Spawn` when the function that it calls
    /// has returned.
    pub fn leaves(&self) -> usize
        ensures value { result ≡ leaves self.now }
        ensures small { result ≤ 3 }
    {
        match self {
            Instr::Push(_)
            | Instr::Nothing
            | Instr::Local(_)
            | Instr::Address(_)
            | Instr::Row(_)
            | Instr::Element(_)
            | Instr::Move(_)
            | Instr::Load
            | Instr::Prefix(_)
            | Instr::Apply(_)
            | Instr::Truth
            | Instr::Convert(_)
            | Instr::Call { .. }
            | Instr::Spawn { .. } => 1,
            Instr::Swap => 2,
            Instr::Under => 3,
            _ => 0,
        }
    }

    /// Where it may lead in the same function.
    pub fn leads(&self) -> Ways
        ensures { result ≡ leads self.now }
    {
        match self {
            Instr::Skip(passed) => Ways::One(Way::Ahead(*passed)),
            Instr::SkipUnless(passed) | Instr::Turns(passed) => {
                Ways::Two(Way::Ahead(0), Way::Ahead(*passed))
            }
            Instr::Again(passed) => Ways::One(Way::Back(*passed)),
            Instr::NextTurn(passed) => Ways::Two(Way::Ahead(0), Way::Back(*passed)),
            Instr::Return => Ways::End,
            _ => Ways::One(Way::Ahead(0)),
        }
    }

    /// What it enters beside.
    pub fn enters(&self) -> Entry
        ensures { result ≡ enters self.now }
    {
        match self {
            Instr::Call { function, .. } | Instr::Spawn { function, .. } => Entry::Function(
                *function,
            ),
            Instr::Create(passed) => Entry::Task(*passed),
            _ => Entry::Nothing,
        }
    }
}

/// How many numbers a section has beside its base.
fn operands(form: SectionForm) -> usize
    ensures { result ≡ operands_of form }
{
    match form {
        SectionForm::Whole => 0,
        SectionForm::Deref => 0,
        SectionForm::Shape => 1,
        SectionForm::Line(part) => part_count(part),
        SectionForm::Grid(rows, columns) => part_count(rows) + part_count(columns),
    }
}

/// How many numbers a part of one dimension has.
fn part_count(part: PartForm) -> usize
    ensures value { result ≡ part_operands part }
    ensures small { result ≤ 2 }
{
    match part {
        PartForm::Element => 1,
        PartForm::Length => 2,
        PartForm::Span { lower, upper } => usize::from(lower) + usize::from(upper),
    }
}

/// How many indices each turn has.
fn index_count(indices: Indices) -> usize
    ensures { result ≡ indices_in indices }
{
    match indices {
        Indices::One => 1,
        Indices::Two => 2,
    }
}
