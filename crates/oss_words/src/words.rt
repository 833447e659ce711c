//! How entries are packed into words of 64 bits, so that one atomic step sets flags and a link together.

ghost use Rattle.oss_words.specs.Sums.{num};
ghost use Rattle.oss_words.specs.Bits.{is_bit, state_at, state_word, info_at, info_word, mode_at, op_at, mode_number, op_number};
ghost use Rattle.oss_words.specs.Bits.{FitsWord, FitsInfo, FlagsAreBits, StatesAreRead, StateWordsAreRead, InfosAreRead, InfoWordsAreRead};
ghost use Rattle.std.specs.Prelude.{◌≡◌, ◌<◌, ◌≤◌, ◌*◌};

use crate::{EntryInfo, EntryState};
use oss_syntax::{Mode, Op};

/// One more than the greatest number of an entry or a task that fits into its place in a word.
const NUMBERS: u64 = 16_777_216;

/// The weight of the lower of the two numbers in a word.
const LOWER: u64 = 65_536;

/// The weight of the upper of the two numbers in a word.
const UPPER: u64 = 1_099_511_627_776;

/// Whether the bit of this weight is set.
fn bit(word: u64, weight: u64) -> bool
    requires { 0 < weight }
    ensures { result ≡ is_bit word weight }
{
    word / weight % 2 == 1
}

/// What a flag adds to a word.
fn weigh(flag: bool, weight: u64) -> u64
    ensures value { result ≡ weight * num flag }
    ensures small { result ≤ weight }
{
    if flag { weight } else { 0 }
}

/// The state word taken apart.
pub fn state_of(word: u64) -> EntryState
    ensures { result ≡ state_at word }
{
    EntryState {
        reads: bit(word, 1),
        folds: bit(word, 2),
        writes: bit(word, 4),
        given: bit(word, 8),
        done: bit(word, 16),
        clear: bit(word, 32),
        linked: bit(word, 64),
        headed: bit(word, 128),
        left: bit(word, 256),
        next_folds: bit(word, 512),
        next_same: bit(word, 1024),
        child_folds: bit(word, 2048),
        child_same: bit(word, 4096),
        next: (word / LOWER % NUMBERS) as u32,
        child: (word / UPPER % NUMBERS) as u32,
    }
}

/// The state as a word. Bits 0 to 12 are `reads`, `folds`, `writes`, `given`, `done`, `clear`, `linked`,
/// `headed`, `left`, `next_folds`, `next_same`, `child_folds` and `child_same`; from bit 16 on stands the next
/// link, and from 40 on the child link.
pub fn word_of_state(state: &EntryState) -> u64
    requires { FitsWord state.now }
    ensures { result ≡ state_word state.now }
{
    let access = weigh(state.reads, 1) + weigh(state.folds, 2) + weigh(state.writes, 4);
    let ends = weigh(state.given, 8) + weigh(state.done, 16) + weigh(state.clear, 32);
    let links = weigh(state.linked, 64) + weigh(state.headed, 128) + weigh(state.left, 256);
    let next = weigh(state.next_folds, 512) + weigh(state.next_same, 1024);
    let child = weigh(state.child_folds, 2048) + weigh(state.child_same, 4096);
    access + ends + links + next + child + LOWER * state.next as u64 + UPPER * state.child as u64
}

/// The operator of this number.
fn op_of(number: u64) -> Op
    ensures { result ≡ op_at number }
{
    match number {
        0 => Op::Add,
        1 => Op::And,
        2 => Op::Or,
        _ => Op::Xor,
    }
}

/// The number of an operator, at most 3.
fn number_of_op(op: Op) -> u64
    ensures value { result ≡ op_number op }
    ensures small { result ≤ 3 }
{
    match op {
        Op::Add => 0,
        Op::And => 1,
        Op::Or => 2,
        Op::Xor => 3,
    }
}

/// The mode of these numbers.
fn mode_of(number: u64, op: u64) -> Mode
    ensures { result ≡ mode_at number op }
{
    match number {
        1 => Mode::Write,
        2 => Mode::Fold(op_of(op)),
        _ => Mode::Read,
    }
}

/// The number of a mode with its operator, at most 14.
fn number_of_mode(mode: Mode) -> u64
    ensures value { result ≡ mode_number mode }
    ensures small { result ≤ 14 }
{
    match mode {
        Mode::Read => 0,
        Mode::Write => 1,
        Mode::Fold(op) => 2 + 4 * number_of_op(op),
    }
}

/// The info word taken apart.
pub fn info_of(word: u64) -> EntryInfo
    ensures { result ≡ info_at word }
{
    EntryInfo {
        mode: mode_of(word % 4, word / 4 % 4),
        strong: bit(word, 16),
        depth: (word / 256 % 128) as u8,
        parent: (word / LOWER % NUMBERS) as u32,
        task: (word / UPPER % NUMBERS) as u32,
    }
}

/// The info as a word: bits 0 and 1 are the mode (0 a read, 1 a write, 2 a reduction), 2 and 3 the operator (0
/// `+`, 1 `&`, 2 `|`, 3 `^`), 4 is strong, 8 to 14 the depth; from bit 16 on stands the parent, and from 40 on
/// the task.
pub fn word_of_info(info: &EntryInfo) -> u64
    requires { FitsInfo info.now }
    ensures { result ≡ info_word info.now }
{
    let low = number_of_mode(info.mode) + weigh(info.strong, 16) + 256 * info.depth as u64;
    low + LOWER * info.parent as u64 + UPPER * info.task as u64
}

/// A state that was put together is what is taken apart again.
pub fn states_are_read()
    ensures { StatesAreRead }
{}

/// A state word that was taken apart is what is put together again.
pub fn state_words_are_read()
    ensures { StateWordsAreRead }
{}

/// The info that was put together is what is taken apart again.
pub fn infos_are_read()
    ensures { InfosAreRead }
{}

/// An info word that was taken apart is what is put together again.
pub fn info_words_are_read()
    ensures { InfoWordsAreRead }
{}

/// A delivery sets one bit of the state word, and nothing else changes.
pub fn flags_are_bits()
    ensures { FlagsAreBits }
{}
