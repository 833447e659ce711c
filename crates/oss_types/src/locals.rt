//! The locals in scope.
ghost use Rattle.std.specs.Prelude.{◌≡◌, ◌∷◌, ◌++◌, ◌≤◌, List, [], length, take, IfOk, OnErr, OnOk};
ghost use Rattle.std.specs.Str.{bytes_eq};
ghost use Rattle.oss_syntax.specs.declared.tree.program.Item.{Item};
ghost use Rattle.oss_grammar.specs.Scopes.{hidden_local, local_kind, is_local_again};
ghost use Rattle.oss_grammar.specs.StaticRules.{declare_all};
ghost use Rattle.oss_types.specs.Tables.{TellsKinds, kind_at};

use crate::table::NameTable;
use oss_syntax::{Kind, Local, NumKind};
use std::alloc::{AllocError, Global};
use std::marker::Model;

/// A local in scope: one of a text, or a hidden one of a task loop, which no text can name. Contracts see the local.
#[derive(Drop)]
struct Visible<'p> {
    local: Option<&'p Local>,
}

impl<'p> Model for Visible<'p> {
    ghost use Rattle.oss_syntax.specs.declared.tree.program.Local.{Local};
    ghost use Rattle.oss_syntax.specs.contracts.tree.program.Local as tree;
    ghost use Rattle.oss_types.specs.Tables.{local_of};

    ghost Value = { Local };

    ghost coded = { tree.the_row.coded };

    ghost view = { λ v. local_of v.local };
}

impl<'p> Visible<'p> {
    /// A local of a text.
    fn of(local: &'p Local) -> Visible<'p>
        ensures { result ≡ local.now }
    {
        Visible { local: Some(local) }
    }

    /// A local that a task loop has beside its variable. It takes a place as any other, but no text finds it.
    fn hidden() -> Visible<'p>
        ensures { result ≡ hidden_local }
    {
        Visible { local: None }
    }

    /// Whether the local has this name. A hidden one is named `$`, as no name of a text is.
    fn is_named(&self, name: &[u8]) -> bool
        ensures { result ≡ bytes_eq self.now.name name.now }
    {
        match self.local {
            Some(local) => local.name.as_slice() == name,
            None => b"$".as_slice() == name,
        }
    }

    /// The type of the local. A hidden one is a signed number of 64 bits.
    fn kind(&self) -> Kind
        ensures { result ≡ self.now.kind }
    {
        match self.local {
            Some(local) => local.kind,
            None => Kind::Num(NumKind::Long),
        }
    }
}

/// The locals in scope: contracts see their list, the last one declared at the end. Where they may be many they
/// have a table of their names.
pub struct Locals<'p> {
    locals: Vec<Visible<'p>>,
    names: Option<NameTable<'p>>,
}

// By hand, so that who lets one go calls this, and does not take it apart at each exit.
impl<'p> Drop for Locals<'p> {
    fn drop(self) {
        let Locals { locals, names } = self;
        drop(locals);
        drop(names);
    }
}

impl<'p> Model for Locals<'p> {
    ghost use Rattle.std.specs.Prelude.{IfSome, List};
    ghost use Rattle.oss_syntax.specs.declared.tree.program.Local.{Local};
    ghost use Rattle.std.specs.Coded.{coded_list};
    ghost use Rattle.oss_syntax.specs.contracts.tree.program.Local as local;

    ghost Value = { List Local };

    ghost coded = { coded_list local.the_row.coded };

    ghost use Rattle.oss_types.specs.Tables.{TellsKinds};

    ghost view = { λ l. l.locals.items };

    ghost invariant = { λ l. IfSome l.names (λ names. TellsKinds names l.locals.items) };
}

impl<'p> Locals<'p> {
    /// No locals, which takes no memory.
    pub fn none(alloc: Global) -> Locals<'p>
        ensures { result ≡ [] }
    {
        Locals {
            locals: Vec::new(alloc),
            names: None,
        }
    }

    /// The parameters of a function as they are in scope in its pragma, however many there are: of two of one
    /// name the first counts. Want of memory is the one error.
    pub fn parameters(alloc: Global, params: &'p [Local]) -> Result<Locals<'p>, AllocError>
        ensures { IfOk result (λ locals. (all : List Item) → locals ≡ (declare_all all 0 params.now []).locals) }
    {
        let mut names = NameTable::new(alloc);
        let mut locals = Locals::none(alloc);
        for param in params {
            if names.place(param.name.as_slice()).is_none() {
                names.add(param.name.as_slice())?;
                locals.add(param)?;
            }
        }
        Ok(locals.with_names(names))
    }

    /// The same locals with a table of their names.
    fn with_names(self, names: NameTable<'p>) -> Locals<'p>
        requires { TellsKinds names self }
        ensures { result ≡ self.entry }
    {
        let Locals { locals, names: _ } = self;
        Locals {
            locals,
            names: Some(names),
        }
    }

    /// How many locals there are.
    pub fn len(&self) -> usize
        ensures { result ≡ length self.now }
    {
        self.locals.len()
    }

    /// The type of the local that this name stands for; `None` where no local has it.
    pub fn kind(&self, name: &[u8]) -> Option<Kind>
        ensures { result ≡ local_kind self.now name.now }
    {
        match &self.names {
            Some(names) => kind_of_place(self.locals.as_slice(), names.place(name)),
            None => kind_among(self.locals.as_slice(), name),
        }
    }

    /// The type of the local that this name stands for where the first `count` locals alone are in scope.
    pub fn kind_outside(&self, count: usize, name: &[u8]) -> Option<Kind>
        ensures { result ≡ local_kind (take count self.now) name.now }
    {
        let locals = self.locals.as_slice();
        if locals.len() < count {
            return kind_among(locals, name);
        }
        let (outer, _) = locals.split_at(count);
        kind_among(outer, name)
    }

    /// Whether the innermost scope, whose locals begin at `start`, has a local of this name.
    pub fn has_since(&self, start: usize, name: &[u8]) -> bool
        ensures { result ≡ is_local_again start self.now name.now }
    {
        is_among(self.locals.as_slice(), start, name)
    }

    /// Adds a local. Where memory is wanting they stay.
    pub fn add(&mut self, local: &'p Local) -> Result<(), AllocError>
        ensures added { OnOk result (self.new ≡ self.old ++ local.now ∷ []) }
        ensures stays { OnErr result (self.new ≡ self.old) }
    {
        self.names = None;
        self.locals.push(Visible::of(local))?;
        Ok(())
    }

    /// Adds a local that no text can name. Where memory is wanting they stay.
    pub fn add_hidden(&mut self) -> Result<(), AllocError>
        ensures added { OnOk result (self.new ≡ self.old ++ hidden_local ∷ []) }
        ensures stays { OnErr result (self.new ≡ self.old) }
    {
        self.names = None;
        self.locals.push(Visible::hidden())?;
        Ok(())
    }

    /// Leaves a scope: the first `count` locals stay.
    pub fn leave(&mut self, count: usize)
        ensures { self.new ≡ take count self.old }
    {
        self.names = None;
        self.locals.truncate(count);
    }
}

/// The type of the last local of this name: it hides those before it.
fn kind_among(locals: &[Visible<'_>], name: &[u8]) -> Option<Kind>
    ensures { result ≡ local_kind locals.now name.now }
{
    let mut found = None;
    for local in locals {
        if local.is_named(name) {
            found = Some(local.kind());
        }
    }
    found
}

/// The type of the local at a place that a table has told.
fn kind_of_place(locals: &[Visible<'_>], place: Option<usize>) -> Option<Kind>
    ensures { result ≡ kind_at locals.now place }
{
    match place {
        Some(place) => match locals.get(place) {
            Some(local) => Some(local.kind()),
            None => None,
        },
        None => None,
    }
}

/// Whether a name is declared already in the scope that begins at `start`. In a scope around it the name may stand.
fn is_among(locals: &[Visible<'_>], start: usize, name: &[u8]) -> bool
    ensures { result ≡ is_local_again start locals.now name.now }
{
    if locals.len() < start {
        return false;
    }
    let (_, inner) = locals.split_at(start);
    for local in inner {
        if local.is_named(name) {
            return true;
        }
    }
    false
}
