//! What the words of the command line ask for.

ghost use Rattle.std.specs.Prelude.{◌≡◌, ◌≤◌, map, option_map, Some, IfOk, IfSome};
ghost use Rattle.std.specs.String.{string_bytes};
ghost use Rattle.oss_command.specs.Commands.{IsFit, IsAsked, IsAskedBy, asked_by, audit_asked, check_asked, explain_asked, file_and_fuel_in, file_of, graph_asked, meant, missing_asked, replay_asked, run_asked, runs_by_workers, soak_asked, soak_of, span_asked, trace_asked};
ghost use Rattle.oss_command.specs.Commands.Command.{soak};

use crate::operands::{
    are_fuel_words, are_listed, are_operands, are_soak_words, are_trace_words, the_operand,
    the_two_operands,
};
use crate::options::{Options, read_fuel, read_options};
use crate::soak::Soak;
use oss_sched::number_within;
use thiserror::Error;

/// A schedule and the program that it is replayed on, by the names of their files.
#[derive(Clone, Copy)]
pub struct Replay<'w> {
    /// The file with the program.
    pub file: &'w str,
    /// The file with the schedule.
    pub schedule: &'w str,
    /// `--fuel=`, the ticks that a task may do, 1 to 1,000,000,000; 1,000,000 where nothing is said.
    pub fuel: u32,
}

/// What the words ask for. It borrows the names of files from them.
#[derive(Clone, Copy)]
pub enum Command<'w> {
    /// To run the program in a file, with these options.
    Run(&'w str, Options),
    /// To tell whether a file is a program.
    Check(&'w str),
    /// To tell the trace of the run by waves of the program in a file. Of the options only the fuel and the
    /// dependency system may be said.
    Trace(&'w str, Options),
    /// To replay a schedule on the program in a file.
    Replay(Replay<'w>),
    /// To run a generated program.
    Soak(Soak),
    /// To tell which cells the tasks of the program in a file name and never touch, where a task may do so many
    /// ticks, 1 to 1,000,000,000; 1,000,000 where nothing is said.
    Audit(&'w str, u32),
    /// To tell how parallel the program in a file can be at best, where a task may do so many ticks, 1 to
    /// 1,000,000,000; 1,000,000 where nothing is said.
    Span(&'w str, u32),
    /// To explain the fault of the program in a file, where a task may do so many ticks, 1 to 1,000,000,000;
    /// 1,000,000 where nothing is said.
    Explain(&'w str, u32),
    /// To tell the graph of the tasks of the program in a file, where a task may do so many ticks, 1 to 1,000,000,000;
    /// 1,000,000 where nothing is said.
    Graph(&'w str, u32),
    /// To tell all that the clauses of the program in a file lack, where a task may do so many ticks, 1 to 1,000,000,000;
    /// 1,000,000 where nothing is said.
    Missing(&'w str, u32),
}

/// Why words are refused.
#[derive(Clone, Copy, Debug, Error)]
pub enum WordsRefused {
    /// They are no command with its operands and options.
    #[error("the words are no command with its operands and options")]
    Usage,
}

/// Reads the words behind the program's name: a command, and its operands and options. `Usage` exactly where
/// they are something else. It takes no memory.
pub fn read_words(words: &[String]) -> Result<Command<'_>, WordsRefused>
    ensures asked { IsAsked (map string_bytes words.now) result }
    ensures fit { IfOk result (λ told. IsFit (meant told)) }
{
    match words {
        [] => Err(WordsRefused::Usage),
        [command, rest @ ..] => command_on(command.as_str(), rest),
    }
}

/// What a command asks for with the words behind it.
fn command_on<'w>(command: &str, rest: &'w [String]) -> Result<Command<'w>, WordsRefused>
    ensures asked { IsAskedBy (asked_by command.now (map string_bytes rest.now)) result }
    ensures fit { IfOk result (λ told. IsFit (meant told)) }
{
    if command == "run" {
        return run_on(rest);
    }
    if command == "check" {
        return check_on(rest);
    }
    if command == "trace" {
        return trace_on(rest);
    }
    if command == "replay" {
        return replay_on(rest);
    }
    if command == "soak" {
        return soak_on(rest);
    }
    if command == "span" {
        return span_on(rest);
    }
    if command == "audit" {
        return audit_on(rest);
    }
    if command == "explain" {
        return explain_on(rest);
    }
    if command == "graph" {
        return graph_on(rest);
    }
    if command == "missing" {
        return missing_on(rest);
    }
    Err(WordsRefused::Usage)
}

/// What `run` asks for with the words behind it.
fn run_on(rest: &[String]) -> Result<Command<'_>, WordsRefused>
    ensures asked { IsAskedBy (run_asked (map string_bytes rest.now)) result }
    ensures fit { IfOk result (λ told. IsFit (meant told)) }
{
    if !are_listed(rest) {
        return Err(WordsRefused::Usage);
    }
    let Some(file) = the_operand(rest) else {
        return Err(WordsRefused::Usage);
    };
    match read_options(rest) {
        Some(options) => Ok(Command::Run(file, options)),
        None => Err(WordsRefused::Usage),
    }
}

/// What `check` asks for with the words behind it.
fn check_on(rest: &[String]) -> Result<Command<'_>, WordsRefused>
    ensures asked { IsAskedBy (check_asked (map string_bytes rest.now)) result }
    ensures fit { IfOk result (λ told. IsFit (meant told)) }
{
    if !are_operands(rest) {
        return Err(WordsRefused::Usage);
    }
    match rest {
        [file] => Ok(Command::Check(file.as_str())),
        [] => Err(WordsRefused::Usage),
        [_, _, ..] => Err(WordsRefused::Usage),
    }
}

/// What `trace` asks for with the words behind it.
fn trace_on(rest: &[String]) -> Result<Command<'_>, WordsRefused>
    ensures asked { IsAskedBy (trace_asked (map string_bytes rest.now)) result }
    ensures fit { IfOk result (λ told. IsFit (meant told)) }
{
    if !are_trace_words(rest) {
        return Err(WordsRefused::Usage);
    }
    let Some(file) = the_operand(rest) else {
        return Err(WordsRefused::Usage);
    };
    match read_options(rest) {
        Some(options) => Ok(Command::Trace(file, options)),
        None => Err(WordsRefused::Usage),
    }
}

/// What `replay` asks for with the words behind it.
fn replay_on(rest: &[String]) -> Result<Command<'_>, WordsRefused>
    ensures asked { IsAskedBy (replay_asked (map string_bytes rest.now)) result }
    ensures fit { IfOk result (λ told. IsFit (meant told)) }
{
    if !are_fuel_words(rest) {
        return Err(WordsRefused::Usage);
    }
    let Some((file, schedule)) = the_two_operands(rest) else {
        return Err(WordsRefused::Usage);
    };
    match read_fuel(rest) {
        Some(fuel) => Ok(Command::Replay(Replay {
            file,
            schedule,
            fuel,
        })),
        None => Err(WordsRefused::Usage),
    }
}

/// What `soak` asks for with the words behind it.
fn soak_on(rest: &[String]) -> Result<Command<'_>, WordsRefused>
    ensures asked { IsAskedBy (soak_asked (map string_bytes rest.now)) result }
    ensures fit { IfOk result (λ told. IsFit (meant told)) }
{
    if !are_soak_words(rest) {
        return Err(WordsRefused::Usage);
    }
    let Some((number, size)) = the_two_operands(rest) else {
        return Err(WordsRefused::Usage);
    };
    match soak_by(number.as_bytes(), size.as_bytes(), read_options(rest)) {
        Some(asked) => Ok(Command::Soak(asked)),
        None => Err(WordsRefused::Usage),
    }
}

/// What `span` asks for with the words behind it.
fn span_on(rest: &[String]) -> Result<Command<'_>, WordsRefused>
    ensures asked { IsAskedBy (span_asked (map string_bytes rest.now)) result }
    ensures fit { IfOk result (λ told. IsFit (meant told)) }
{
    match file_and_fuel(rest) {
        Some((file, fuel)) => Ok(Command::Span(file, fuel)),
        None => Err(WordsRefused::Usage),
    }
}

/// What `audit` asks for with the words behind it.
fn audit_on(rest: &[String]) -> Result<Command<'_>, WordsRefused>
    ensures asked { IsAskedBy (audit_asked (map string_bytes rest.now)) result }
    ensures fit { IfOk result (λ told. IsFit (meant told)) }
{
    match file_and_fuel(rest) {
        Some((file, fuel)) => Ok(Command::Audit(file, fuel)),
        None => Err(WordsRefused::Usage),
    }
}

/// What `explain` asks for with the words behind it.
fn explain_on(rest: &[String]) -> Result<Command<'_>, WordsRefused>
    ensures asked { IsAskedBy (explain_asked (map string_bytes rest.now)) result }
    ensures fit { IfOk result (λ told. IsFit (meant told)) }
{
    match file_and_fuel(rest) {
        Some((file, fuel)) => Ok(Command::Explain(file, fuel)),
        None => Err(WordsRefused::Usage),
    }
}

/// What `graph` asks for with the words behind it.
fn graph_on(rest: &[String]) -> Result<Command<'_>, WordsRefused>
    ensures asked { IsAskedBy (graph_asked (map string_bytes rest.now)) result }
    ensures fit { IfOk result (λ told. IsFit (meant told)) }
{
    match file_and_fuel(rest) {
        Some((file, fuel)) => Ok(Command::Graph(file, fuel)),
        None => Err(WordsRefused::Usage),
    }
}

/// What `missing` asks for with the words behind it.
fn missing_on(rest: &[String]) -> Result<Command<'_>, WordsRefused>
    ensures asked { IsAskedBy (missing_asked (map string_bytes rest.now)) result }
    ensures fit { IfOk result (λ told. IsFit (meant told)) }
{
    match file_and_fuel(rest) {
        Some((file, fuel)) => Ok(Command::Missing(file, fuel)),
        None => Err(WordsRefused::Usage),
    }
}

/// The file and the fuel that `audit`, `span`, `explain`, `graph` and `missing` take from the words behind them; none where the words
/// are something else.
fn file_and_fuel(rest: &[String]) -> Option<(&str, u32)>
    ensures { option_map (λ asked. (asked.0.now, asked.1)) result ≡ file_and_fuel_in (map string_bytes rest.now) }
{
    if !are_fuel_words(rest) {
        return None;
    }
    let file = the_operand(rest)?;
    let fuel = read_fuel(rest)?;
    Some((file, fuel))
}

/// The soak that two words and options ask for.
fn soak_by(number: &[u8], size: &[u8], options: Option<Options>) -> Option<Soak>
    ensures asked { option_map (λ asked. soak asked.number asked.size asked.options) result ≡
        soak_of (Some (number.now, size.now)) options }
    ensures options { IfSome result (λ asked. options ≡ Some asked.options) }
{
    let number = number_within(0, 18_446_744_073_709_551_615, number)?;
    let size = number_within(1, 9000, size)?;
    let options = options?;
    Some(Soak {
        number,
        size: size as u32,
        options,
    })
}

impl<'w> Command<'w> {
    /// The name of the file with the program, where the program stands in one.
    pub fn file(self) -> Option<&'w str>
        ensures { option_map (λ file. file.now) result ≡ file_of (meant self.entry) }
    {
        match self {
            Command::Run(file, _) => Some(file),
            Command::Check(file) => Some(file),
            Command::Trace(file, _) => Some(file),
            Command::Replay(asked) => Some(asked.file),
            Command::Soak(_) => None,
            Command::Audit(file, _) => Some(file),
            Command::Span(file, _) => Some(file),
            Command::Explain(file, _) => Some(file),
            Command::Graph(file, _) => Some(file),
            Command::Missing(file, _) => Some(file),
        }
    }

    /// Whether it runs a program by workers.
    pub fn is_by_workers(self) -> bool
        ensures { result ≡ runs_by_workers (meant self.entry) }
    {
        match self {
            Command::Run(_, options) => options.mode.is_by_workers(),
            Command::Soak(asked) => asked.options.mode.is_by_workers(),
            Command::Check(_) => false,
            Command::Trace(_, _) => false,
            Command::Replay(_) => false,
            Command::Audit(_, _) => false,
            Command::Span(_, _) => false,
            Command::Explain(_, _) => false,
            Command::Graph(_, _) => false,
            Command::Missing(_, _) => false,
        }
    }
}
