//! What is found of an expression. Of the rules that it breaks only the first in the text counts, and of those
//! that one token breaks the first in the order of the rules.
ghost use Rattle.std.specs.Prelude.{◌≡◌, Option};
ghost use Rattle.oss_grammar.specs.Broken.{broken, first, rank, insert, where_so};
ghost use Rattle.oss_grammar.specs.Kinds.{Findings, all_of, allows, number_kind, value_kind, same_number, refused_here, placed, wanted_by, number_findings};
ghost use Rattle.oss_grammar.specs.Scopes.{or_else};
ghost use Rattle.oss_types.specs.Seen.{seen, earlier as earlier_of};

use oss_grammar::{Object, ValueKind, Wanted};
use oss_syntax::{Kind, NumKind, Refused, RefusedKind};

/// What the checker keeps of an expression: the line of its first token, the first rule that is broken at that
/// token and the first one behind it, its kind, and what it designates.
#[derive(Clone, Copy)]
pub struct Finding {
    pub line: u32,
    pub at_first: Option<Refused>,
    pub behind: Option<Refused>,
    pub kind: ValueKind,
    pub object: Object,
}

/// A rule of this kind is broken by a token on this line.
pub fn refused(kind: RefusedKind, line: u32) -> Refused
    ensures { result ≡ broken kind line }
{
    Refused {
        kind,
        line,
        token: 0,
    }
}

/// A rule of this kind on this line, where it is broken.
pub fn refused_if(is_broken: bool, kind: RefusedKind, line: u32) -> Option<Refused>
    ensures { result ≡ first (where_so is_broken kind line) }
{
    if is_broken {
        Some(refused(kind, line))
    } else {
        None
    }
}

/// The place of a rule among those that one token breaks.
fn place_in_table(kind: RefusedKind) -> u8
    ensures { result ≡ rank kind }
{
    match kind {
        RefusedKind::DuplicateName => 0,
        RefusedKind::UnknownName => 1,
        RefusedKind::WrongKind => 2,
        RefusedKind::WrongCount => 3,
        RefusedKind::BadJump => 4,
        RefusedKind::TooLarge => 5,
        RefusedKind::NoMain => 6,
        _ => 7,
    }
}

/// The earlier of two rules that one token breaks.
fn earlier(new: Refused, old: Option<Refused>) -> Option<Refused>
    ensures { result ≡ earlier_of new old }
{
    match old {
        None => Some(new),
        Some(old) => {
            if place_in_table(new.kind) < place_in_table(old.kind) {
                Some(new)
            } else {
                Some(old)
            }
        }
    }
}

/// The first broken rule of one part of the text and of the part behind it.
pub fn before(one: Option<Refused>, other: Option<Refused>) -> Option<Refused>
    ensures { result ≡ or_else one other }
{
    match one {
        Some(broken) => Some(broken),
        None => other,
    }
}

/// The first rule that an expression breaks.
#[tactic(auto, using(crate::proofs::Firsts::firsts))]
pub fn first_of(found: Finding) -> Option<Refused>
    ensures { (f : Findings) → found ≡ seen f → result ≡ first (all_of f) }
{
    before(found.at_first, found.behind)
}

/// The kind of a number of this type.
pub fn kind_of_number(kind: NumKind) -> ValueKind
    ensures { result ≡ number_kind kind }
{
    match kind {
        NumKind::Int => ValueKind::Signed,
        NumKind::Long => ValueKind::Signed,
        NumKind::Ulong => ValueKind::Unsigned,
    }
}

/// The kind of a variable's value.
pub fn kind_of(kind: Kind) -> ValueKind
    ensures { result ≡ value_kind kind }
{
    match kind {
        Kind::Num(number) => kind_of_number(number),
        Kind::Pointer(number) => ValueKind::Pointer(number),
        Kind::Nothing => ValueKind::Nothing,
    }
}

/// The values that a variable of this type takes.
pub fn taken_by(kind: Kind) -> Wanted
    ensures { result ≡ wanted_by kind }
{
    match kind {
        Kind::Num(_) => Wanted::Number,
        Kind::Pointer(number) => Wanted::PointerTo(number),
        Kind::Nothing => Wanted::Anything,
    }
}

/// Whether two types of numbers are one. A pointer to one is no pointer to another, even where both have 64 bits.
fn are_same(one: NumKind, other: NumKind) -> bool
    ensures { result ≡ same_number one other }
{
    match (one, other) {
        (NumKind::Int, NumKind::Int) => true,
        (NumKind::Long, NumKind::Long) => true,
        (NumKind::Ulong, NumKind::Ulong) => true,
        _ => false,
    }
}

/// Whether a value of this kind may stand at such a place.
fn may_stand(wanted: Wanted, kind: ValueKind) -> bool
    ensures { result ≡ allows wanted kind }
{
    match (wanted, kind) {
        (_, ValueKind::Unknown) => true,
        (Wanted::Number, ValueKind::Signed) => true,
        (Wanted::Number, ValueKind::Unsigned) => true,
        (Wanted::Pointer, ValueKind::Pointer(_)) => true,
        (Wanted::NumberOrPointer, ValueKind::Signed) => true,
        (Wanted::NumberOrPointer, ValueKind::Unsigned) => true,
        (Wanted::NumberOrPointer, ValueKind::Pointer(_)) => true,
        (Wanted::Indexed, ValueKind::Pointer(_)) => true,
        (Wanted::Indexed, ValueKind::Rows(_)) => true,
        (Wanted::PointerTo(one), ValueKind::Pointer(other)) => are_same(one, other),
        (Wanted::Anything, ValueKind::Rows(_)) => false,
        (Wanted::Anything, _) => true,
        _ => false,
    }
}

/// An expression whose first token breaks the rule on kinds.
#[tactic(auto, using(crate::proofs::Firsts::firsts))]
pub fn wrong(found: Finding) -> Finding
    ensures { (f : Findings) → found ≡ seen f → result ≡ seen (refused_here f) }
{
    Finding {
        line: found.line,
        at_first: earlier(refused(RefusedKind::WrongKind, found.line), found.at_first),
        behind: found.behind,
        kind: ValueKind::Unknown,
        object: found.object,
    }
}

/// An expression at a place.
#[tactic(auto, using(crate::proofs::Firsts::firsts))]
pub fn at_place(wanted: Wanted, found: Finding) -> Finding
    ensures { (f : Findings) → found ≡ seen f → result ≡ seen (placed wanted f) }
{
    if may_stand(wanted, found.kind) {
        found
    } else {
        wrong(found)
    }
}

/// A number.
pub(crate) fn number(unsigned: bool, line: u32) -> Finding
    ensures { result ≡ seen (number_findings unsigned line) }
{
    let kind = if unsigned {
        ValueKind::Unsigned
    } else {
        ValueKind::Signed
    };
    Finding {
        line,
        at_first: None,
        behind: None,
        kind,
        object: Object::ValueOnly,
    }
}
