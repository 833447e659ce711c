//! The names of cells and pieces, over the globals of one program.

ghost use Rattle.std.specs.Prelude.{◌≡◌, ◌≤◌, ◌++◌, length, IfOk, OnOk};
ghost use Rattle.oss_pieces.specs.Names.{cell_name, joined_pieces, pieces_text};

use oss_pieces::{Globals, Piece, add_cell_name_among, add_pieces_among};
use oss_syntax::Program;
use std::alloc::{AllocError, Global};
use std::marker::Model;

/// So many pieces are told at most.
pub(crate) const MOST_PIECES: usize = 8;

/// The globals of a program in a table, so that a cell or a piece does not cost all of them: contracts see the items of the
/// program.
pub(crate) struct Names<'p> {
    globals: Globals<'p>,
}

// By hand, so that who lets one go calls this, and does not take it apart at each exit.
impl<'p> Drop for Names<'p> {
    fn drop(self) {
        let Names { globals } = self;
        drop(globals);
    }
}

impl<'p> Model for Names<'p> {
    ghost use Rattle.std.specs.Prelude.{List};
    ghost use Rattle.std.specs.Coded.{coded_list};
    ghost use Rattle.oss_syntax.specs.declared.tree.program.Item.{Item};
    ghost use Rattle.oss_syntax.specs.contracts.tree.program.Item as item;

    ghost Value = { List Item };

    ghost coded = { coded_list item.the_row.coded };

    ghost view = { λ n. n.globals };
}

impl<'p> Names<'p> {
    /// The names of this program. Out of memory is the one error.
    pub(crate) fn of(alloc: Global, program: &'p Program) -> Result<Names<'p>, AllocError>
        ensures { IfOk result (λ names. names ≡ program.now.items) }
    {
        let globals = Globals::of(alloc, program.items.as_slice())?;
        Ok(Names { globals })
    }

    /// Adds the name of a cell.
    pub(crate) fn add_cell(
        &self,
        alloc: Global,
        cell: u32,
        text: &mut Vec<u8>,
    ) -> Result<(), AllocError>
        ensures { OnOk result (text.new.items ≡ text.old.items ++ cell_name self.now cell) }
    {
        add_cell_name_among(alloc, &self.globals, cell, text)
    }

    /// Adds the first pieces, and how many cells the others have.
    pub(crate) fn add_pieces(
        &self,
        alloc: Global,
        pieces: &[Piece],
        text: &mut Vec<u8>,
    ) -> Result<(), AllocError>
        ensures { OnOk result (text.new.items ≡ text.old.items ++ pieces_text self.now 8 pieces.now) }
    {
        add_pieces_among(alloc, &self.globals, pieces, MOST_PIECES, text)
    }

    /// Adds pieces, which are few enough that all are told.
    pub(crate) fn add_few(
        &self,
        alloc: Global,
        pieces: &[Piece],
        text: &mut Vec<u8>,
    ) -> Result<(), AllocError>
        requires { length pieces.now ≤ 8 }
        ensures { OnOk result (text.new.items ≡ text.old.items ++ joined_pieces self.now pieces.now) }
    {
        self.add_pieces(alloc, pieces, text)
    }
}
