//! Tables of names.
ghost use Rattle.std.specs.Prelude.{◌≡◌, ◌∷◌, ◌++◌, ◌<◌, ℕ, List, [], length, IfSome, OnErr, OnOk};
ghost use Rattle.oss_types.specs.Tables.{HasFirstPlaces, place_among};

use indexmap::IndexMap;
use std::alloc::{AllocError, Global};
use std::marker::Model;

/// Names, each with its first place among them: contracts see their list, in which a name may stand more than once.
pub struct NameTable<'p> {
    names: Vec<&'p [u8]>,
    places: IndexMap<&'p [u8], usize>,
}

// By hand, so that who lets one go calls this, and does not take it apart at each exit.
impl<'p> Drop for NameTable<'p> {
    fn drop(self) {
        let NameTable { names, places } = self;
        drop(names);
        drop(places);
    }
}

impl<'p> Model for NameTable<'p> {
    ghost use Rattle.std.specs.Prelude.{ℕ, List, map};
    ghost use Rattle.oss_types.specs.Tables.{HasFirstPlaces};

    ghost Value = { List (List ℕ) };

    ghost view = { λ t. map (λ name. name.now) t.names.items };

    ghost invariant = { λ t. HasFirstPlaces t.places (map (λ name. name.now) t.names.items) };
}

impl<'p> NameTable<'p> {
    /// No names, which takes no memory.
    pub fn new(alloc: Global) -> NameTable<'p>
        ensures { result ≡ [] }
    {
        NameTable {
            names: Vec::new(alloc),
            places: IndexMap::new(alloc),
        }
    }

    /// Adds a name behind the others. Where memory is wanting the table stays.
    pub fn add(&mut self, name: &'p [u8]) -> Result<(), AllocError>
        ensures added { OnOk result (self.new ≡ self.old ++ name.now ∷ []) }
        ensures stays { OnErr result (self.new ≡ self.old) }
    {
        let place = self.names.len();
        self.names.reserve(1)?;
        note(&mut self.places, name, place)?;
        self.names.push(name)?;
        Ok(())
    }

    /// The place of the first of the names that is this one; `None` where none is.
    pub fn place(&self, name: &[u8]) -> Option<usize>
        ensures first { result ≡ place_among self.now name.now }
        ensures within { IfSome result (λ place. place < length self.now) }
    {
        self.places.get(name).copied()
    }
}

/// Notes the place of a name, which is the number of the names before it. The first place of a name stays, and
/// so does all where memory is wanting.
fn note<'p>(
    places: &mut IndexMap<&'p [u8], usize>,
    name: &'p [u8],
    place: usize,
) -> Result<(), AllocError>
    ensures noted { OnOk result ((names : List (List ℕ)) → HasFirstPlaces places.old names →
        length names ≡ place → HasFirstPlaces places.new (names ++ name.now ∷ [])) }
    ensures stays { OnErr result ((names : List (List ℕ)) → HasFirstPlaces places.old names →
        HasFirstPlaces places.new names) }
{
    if !places.contains_key(name) {
        places.insert(name, place)?;
    }
    Ok(())
}
