//! Whether parts are a code.
ghost use Rattle.std.specs.Prelude.{◌<◌, ◌≤◌, ◌+◌, ◌-◌, ◌↔◌, ℕ, All, IsTrue, length, slice_get};
ghost use Rattle.oss_code.specs.Soundness.{AreWays, IsAtDepth, IsEntry, IsFunction, IsGreatest, IsSound, IsSoundAt, IsSoundPlace, IsWay};

use crate::code::CodeParts;
use crate::instr::Instr;
use crate::ways::{Entry, Way, Ways};

/// Whether parts are a code. It goes over the instructions once.
pub(crate) fn is_sound(parts: &CodeParts) -> bool
    ensures { IsTrue result ↔ IsSound parts.now }
{
    if parts.lines.len() != parts.instrs.len() {
        return false;
    }
    if parts.depths.len() != parts.instrs.len() {
        return false;
    }
    if !is_at_depth(parts, 0, 0) {
        return false;
    }
    if !are_functions_sound(parts) {
        return false;
    }
    are_places_sound(parts)
}

/// Whether each function begins with an empty stack.
fn are_functions_sound(parts: &CodeParts) -> bool
    ensures { IsTrue result ↔ All (λ entry. IsAtDepth parts.now entry 0) parts.now.functions }
{
    parts
        .functions
        .as_slice()
        .iter()
        .all(|entry| is_at_depth(parts, *entry as usize, 0))
}

/// Whether each instruction is sound.
fn are_places_sound(parts: &CodeParts) -> bool
    ensures { IsTrue result ↔ ((at : ℕ) → IsSoundPlace parts.now at) }
{
    for at in 0..parts.instrs.len() {
        if !is_place_sound(parts, at) {
            return false;
        }
    }
    true
}

/// Whether the instruction at a place is sound.
fn is_place_sound(parts: &CodeParts, at: usize) -> bool
    ensures { IsTrue result ↔ IsSoundPlace parts.now at }
{
    match parts.instrs.get(at) {
        None => true,
        Some(instr) => match parts.depths.get(at) {
            None => true,
            Some(depth) => is_sound_at(parts, at, *depth, instr),
        },
    }
}

/// Whether an instruction is sound with so many values before it.
fn is_sound_at(parts: &CodeParts, at: usize, depth: u32, instr: &Instr) -> bool
    ensures { IsTrue result ↔ IsSoundAt parts.now at depth instr.now }
{
    let depth = depth as usize;
    let taken = instr.takes();
    if depth < taken {
        return false;
    }
    if !are_ways(parts, at, depth - taken + instr.leaves(), instr.leads()) {
        return false;
    }
    is_entry(parts, at, instr.enters())
}

/// Whether all ways from a place lead to so many values.
fn are_ways(parts: &CodeParts, at: usize, depth: usize, ways: Ways) -> bool
    ensures { IsTrue result ↔ AreWays parts.now at depth ways }
{
    match ways {
        Ways::End => true,
        Ways::One(way) => is_way(parts, at, depth, way),
        Ways::Two(one, other) => {
            is_way(parts, at, depth, one) && is_way(parts, at, depth, other)
        }
    }
}

/// Whether a way from a place leads to so many values.
fn is_way(parts: &CodeParts, at: usize, depth: usize, way: Way) -> bool
    ensures { IsTrue result ↔ IsWay parts.now at depth way }
{
    match way {
        Way::Ahead(passed) => is_ahead(parts, at, passed, depth),
        Way::Back(passed) => is_back(parts, at, passed, depth),
    }
}

/// Whether what is entered from a place is there, and begins with an empty stack.
fn is_entry(parts: &CodeParts, at: usize, entry: Entry) -> bool
    ensures { IsTrue result ↔ IsEntry parts.now at entry }
{
    match entry {
        Entry::Nothing => true,
        Entry::Function(number) => is_function(parts, number),
        Entry::Task(passed) => is_ahead(parts, at, passed, 0),
    }
}

/// Whether there is a function with this number, and it begins with an empty stack.
fn is_function(parts: &CodeParts, number: u32) -> bool
    ensures { IsTrue result ↔ IsFunction parts.now (slice_get parts.now.functions number) }
{
    match parts.functions.get(number as usize) {
        None => false,
        Some(entry) => is_at_depth(parts, *entry as usize, 0),
    }
}

/// Whether there is an instruction at a place, and so many values before it.
fn is_at_depth(parts: &CodeParts, at: usize, depth: usize) -> bool
    ensures { IsTrue result ↔ IsAtDepth parts.now at depth }
{
    match parts.depths.get(at) {
        None => false,
        Some(stated) => *stated as usize == depth,
    }
}

/// Whether there is an instruction so many behind the next one, and so many values before it.
fn is_ahead(parts: &CodeParts, at: usize, passed: u32, depth: usize) -> bool
    ensures { IsTrue result ↔ IsAtDepth parts.now (at + 1 + passed) depth }
{
    let _count = parts.depths.len();
    match at.checked_add(1 + passed as usize) {
        None => false,
        Some(to) => is_at_depth(parts, to, depth),
    }
}

/// Whether there is an instruction so many back, and so many values before it.
fn is_back(parts: &CodeParts, at: usize, passed: u32, depth: usize) -> bool
    ensures { IsTrue result ↔ ((passed ≤ at) × IsAtDepth parts.now (at - passed) depth) }
{
    match at.checked_sub(passed as usize) {
        None => false,
        Some(from) => is_at_depth(parts, from, depth),
    }
}

/// The greatest of some depths.
pub(crate) fn greatest(depths: &[u32]) -> u32
    requires { 0 < length depths.now }
    ensures { IsGreatest result depths.now }
{
    match depths.iter().copied().max() {
        None => 0,
        Some(depth) => depth,
    }
}
