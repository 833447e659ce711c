//! The instructions that the bodies of tasks run.
use oss_grammar::Piece;
use oss_meaning::Declared;
use oss_syntax::{BinOp, Kind, List, NumKind, Op, UnOp};
use std::mem::size_of;

/// One instruction. It works on the stack of values of its function and on the locals of it, and goes on with
/// the next instruction where nothing else is said. A jump tells how many instructions it passes. All jumps go
/// forward but two: `Again`, which asks for a tick first, and `NextTurn`, of which a multidependency makes a
/// bounded number. `takes`, `leaves`, `leads` and `enters` tell of each instruction what they say. An
/// instruction takes at most 64 bytes.
#[derive(Drop)]
pub enum Instr {
    /// Leaves this number.
    Push(u64),
    /// Leaves a pointer that points nowhere.
    Nothing,
    /// Leaves the value of the local at this place.
    Local(u32),
    /// Leaves the pointer to the first cell of the global with this number.
    Address(u32),
    /// Takes the index of a row, and leaves the pointer to the first cell of that row of the global with this number.
    Row(u32),
    /// Takes the index of a row and that of a column, and leaves the pointer to that cell of the global with
    /// this number.
    Element(u32),
    /// Takes a pointer and a number, and leaves the pointer moved by it.
    Move(Direction),
    /// Takes a pointer, loads the cell to which it points, and leaves the number found.
    Load,
    /// Takes a number, and leaves what the operator makes of it.
    Prefix(UnOp),
    /// Takes two numbers, and leaves what the operator makes of them.
    Apply(Operator),
    /// Takes a number, and leaves 1 where it is not 0.
    Truth,
    /// Takes a value, and leaves what a variable of this type keeps of it.
    Convert(Kind),
    /// Takes a pointer and a number, and stores what a cell of this type keeps of it.
    Store(NumKind),
    /// Takes a pointer and a number, and folds it into the cell.
    Fold(Op),
    /// Takes a value, of which the local at this place keeps what its type can.
    SetLocal(u32, Kind),
    /// Takes a value, of which a new local of this type keeps what it can.
    Bind(Kind),
    /// Drops the locals behind the first so many.
    Keep(u32),
    /// Takes a value, and nothing is made of it.
    Drop,
    /// Leaves a copy of the value below the topmost one.
    Under,
    /// Changes the places of the two topmost values.
    Swap,
    /// Passes so many instructions.
    Skip(u32),
    /// Takes a number, and passes so many instructions where it is 0.
    SkipUnless(u32),
    /// Asks for a tick, and goes back so many instructions, counted from itself.
    Again(u32),
    /// Asks for a tick.
    Tick,
    /// Takes so many arguments, the first one lowest, asks for a tick, and calls the function with this number.
    /// Its value is left when it returns.
    Call { function: u32, arguments: u32 },
    /// Takes a value, and gives it to the caller, which goes on behind its `Call` or `Spawn`; without a caller
    /// the body ends.
    Return,
    /// Takes so many numbers, the first one lowest, and prints the pieces of a string with them.
    Print { pieces: List<Piece>, arguments: u32 },
    /// Waits for all tasks that the body created.
    Wait,
    /// The tests with which a creation begins.
    Begin,
    /// Takes the numbers of a section, the first one lowest, and adds its cells to those that the directive declares.
    Section(SectionBase, SectionForm, Declared),
    /// Takes the first value of the variable of a multidependency and the number of its turns. The variable
    /// becomes the last local. Without a turn it passes so many instructions, to the `EndTurns`.
    Turns(u32),
    /// Takes the indices of a turn, the first one lowest, and adds the cells that they name to those of the
    /// multidependency.
    Turn(SectionBase, Indices),
    /// Adds 1 to the variable, and goes back so many instructions, counted from itself, as long as there is a
    /// turn left.
    NextTurn(u32),
    /// Drops the variable, and adds the cells of all turns to those that the directive declares.
    EndTurns(Declared),
    /// Takes the value of the clause `if`.
    When,
    /// Takes the value of the clause `final`.
    Final,
    /// The clause `wait`.
    Late,
    /// Takes the value of the clause `priority`.
    Priority,
    /// Creates a task with what the clauses gave and a copy of the locals. Its body begins so many instructions
    /// behind the next one.
    Create(u32),
    /// Takes so many arguments, the first one lowest, and goes to the creation of the task function with this
    /// number, with no tick. They are the locals there, and the line of each of its faults is that of this
    /// instruction. A value is left when it returns.
    Spawn { function: u32, arguments: u32 },
    /// Waits for what the children declared of the cells that the directive declares.
    WaitOn,
    /// Releases the cells that the directive declares.
    Release,
}

// As many instructions as a text asks for are in memory at once.
const _: () = prove!(size_of::<Instr>() <= 64);

/// Which way a pointer moves (C11 6.5.6p8).
#[derive(Clone, Copy)]
pub enum Direction {
    /// By so many elements on.
    Forth,
    /// By so many elements back.
    Back,
}

/// A binary operator on two numbers, and which of them are unsigned (C11 6.3.1.8).
#[derive(Clone, Copy)]
pub struct Operator {
    /// What is done with the numbers.
    pub op: BinOp,
    /// The lower of the two numbers is unsigned; else it is signed.
    pub left_unsigned: bool,
    /// The topmost number is unsigned; else it is signed.
    pub right_unsigned: bool,
}

/// What a section is over.
#[derive(Clone, Copy)]
pub enum SectionBase {
    /// The global with this number.
    Global(u32),
    /// The pointer in the local at this place.
    Pointer(u32),
    /// Nothing: no cells.
    Nothing,
}

/// How a section names cells of its base (OmpSs-2, array sections), its numbers being on the stack.
#[derive(Clone, Copy)]
pub enum SectionForm {
    /// All of a global.
    Whole,
    /// The element to which a pointer points.
    Deref,
    /// So many elements from there on.
    Shape,
    /// One part of the elements, or of the rows of an array of two dimensions.
    Line(PartForm),
    /// A part of the rows and a part of the columns.
    Grid(PartForm, PartForm),
}

/// How a section names a part of one dimension.
#[derive(Clone, Copy)]
pub enum PartForm {
    /// `[e]`, with one number.
    Element,
    /// `[l;n]`, with two.
    Length,
    /// `[l:u]`, with a number for each end that is written.
    Span {
        /// The first end is written.
        lower: bool,
        /// The last one is.
        upper: bool,
    },
}

/// How many indices each turn of a multidependency has.
#[derive(Clone, Copy)]
pub enum Indices {
    /// That of an element of an array of one dimension, or of a row of one of two.
    One,
    /// Those of an element of an array of two dimensions: that of its row, and that of its column.
    Two,
}
