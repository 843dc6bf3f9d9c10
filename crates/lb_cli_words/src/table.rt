//! The table of commands, as words are read by it.
ghost use Rattle.std.specs.Prelude.{◌≡◌, ◌∷◌, [], IfSome, IsSome, option_map};
ghost use Rattle.lb_cli_words.specs.Given.{given_of};
ghost use Rattle.lb_cli_words.specs.Words.{asks_help_after, asks_help_with, files_with, flagged, in_turn, texts};
ghost use Rattle.lb_cli_words.specs.Table.{asks_help, asks_help_behind, asks_help_beside, check_asks_help, flag_and_file, reader_of, row_behind, row_in, row_of};
ghost use Rattle.lb_cli_words.specs.Table.{check_row, commands_row, format_row, sheet_row, plan_row, replay_row, run_row, verify_row, version_row};
ghost use Rattle.lb_cli_words.specs.declared.own_option.OwnOption.TheVariants.{File};

use crate::Job;
use crate::operands::{
    asks_help_within, four_operands, is_end, one_operand, three_operands, two_operands,
};
use crate::own_option::{Given, OwnOption, read_flag};
use crate::run_options::RunOptions;
use crate::word::is_help;

/// The job whose row the words are.
pub(crate) fn job_of<'a>(words: &'a [&'a str]) -> Option<Job<'a>>
    ensures { option_map row_of result ≡ row_in (texts words.now) }
{
    let (_, words) = words.split_first()?;
    let (command, words) = words.split_first()?;
    job_behind(command, words)
}

fn job_behind<'a>(command: &str, words: &'a [&'a str]) -> Option<Job<'a>>
    ensures { option_map row_of result ≡ row_behind command.now (texts words.now) }
{
    match command {
        "verify" => verify(words),
        "plan" => plan(words),
        "format" => format(words),
        "sheet" => sheet(words),
        "commands" => move_lines(words),
        "check" => check(words),
        "replay" => replay(words),
        "run" => run(words),
        "--version" => version(words),
        _ => None,
    }
}

fn verify<'a>(words: &'a [&'a str]) -> Option<Job<'a>>
    ensures { option_map row_of result ≡ verify_row (texts words.now) }
{
    if let Some(file) = one_operand(words) {
        return Some(Job::Verify { file });
    }
    let (sheet, plan) = OwnOption::Sheet.files_with(words)?;
    let sheet = sheet?;
    Some(Job::VerifyForSheet { sheet, plan })
}

fn plan<'a>(words: &'a [&'a str]) -> Option<Job<'a>>
    ensures { option_map row_of result ≡ plan_row (texts words.now) }
{
    if let Some(file) = one_operand(words) {
        return Some(Job::Plan { file });
    }
    let (_, file) = OwnOption::Table.files_with(words)?;
    Some(Job::PlanTable { file })
}

fn format<'a>(words: &'a [&'a str]) -> Option<Job<'a>>
    ensures { option_map row_of result ≡ format_row (texts words.now) }
{
    let file = one_operand(words)?;
    Some(Job::Format { file })
}

fn sheet<'a>(words: &'a [&'a str]) -> Option<Job<'a>>
    ensures { option_map row_of result ≡ sheet_row (texts words.now) }
{
    let (target, state, dump) = three_operands(words)?;
    Some(Job::Sheet {
        target,
        state,
        dump,
    })
}

fn move_lines<'a>(words: &'a [&'a str]) -> Option<Job<'a>>
    ensures { option_map row_of result ≡ commands_row (texts words.now) }
{
    let (backend, state, dump, plan) = four_operands(words)?;
    Some(Job::Commands {
        backend,
        state,
        dump,
        plan,
    })
}

fn check<'a>(words: &'a [&'a str]) -> Option<Job<'a>>
    ensures { option_map row_of result ≡ check_row (texts words.now) }
{
    if let Some(file) = only_file(words) {
        return Some(Job::Check { file });
    }
    if let Some(file) = file_beside("--all", words) {
        return Some(Job::CheckAll { file });
    }
    let file = file_beside("--haproxy", words)?;
    Some(Job::CheckHaproxy { file })
}

/// The value of `-f`, where nothing else is in the words.
fn only_file<'a>(words: &'a [&'a str]) -> Option<&'a str>
    ensures { option_map (λ file. file.now ∷ []) result ≡ files_with (reader_of File) 0 (texts words.now) }
{
    let given = OwnOption::File.read(words)?;
    let file = given.value?;
    is_end(given.rest).then_some(file)
}

/// The value of `-f`, where the flag of this name is next to it, and nothing else is in the words.
fn file_beside<'a>(name: &str, words: &'a [&'a str]) -> Option<&'a str>
    ensures { option_map (λ file. file.now ∷ []) result ≡ files_with (flag_and_file name.now) 0 (texts words.now) }
{
    let given = flag_and_file(name, words)?;
    let file = given.value?;
    is_end(given.rest).then_some(file)
}

/// The flag and `-f` at the front of the words, in either order.
fn flag_and_file<'a>(name: &str, words: &'a [&'a str]) -> Option<Given<'a>>
    ensures read { given_of result ≡ flag_and_file name.now (texts words.now) }
    ensures valued { IfSome result (λ given. IsSome given.value) }
{
    if let Some(given) = flag_before_file(name, words) {
        return Some(given);
    }
    file_before_flag(name, words)
}

fn flag_before_file<'a>(name: &str, words: &'a [&'a str]) -> Option<Given<'a>>
    ensures read { given_of result ≡ in_turn (flagged name.now) (reader_of File) (texts words.now) }
    ensures valued { IfSome result (λ given. IsSome given.value) }
{
    let flag = read_flag(name, words)?;
    OwnOption::File.read(flag.rest)
}

fn file_before_flag<'a>(name: &str, words: &'a [&'a str]) -> Option<Given<'a>>
    ensures read { given_of result ≡ in_turn (reader_of File) (flagged name.now) (texts words.now) }
    ensures valued { IfSome result (λ given. IsSome given.value) }
{
    let file = OwnOption::File.read(words)?;
    let flag = read_flag(name, file.rest)?;
    Some(Given {
        value: file.value,
        rest: flag.rest,
    })
}

fn replay<'a>(words: &'a [&'a str]) -> Option<Job<'a>>
    ensures { option_map row_of result ≡ replay_row (texts words.now) }
{
    let (config, script) = two_operands(words)?;
    Some(Job::Replay { config, script })
}

fn run<'a>(words: &'a [&'a str]) -> Option<Job<'a>>
    ensures { option_map row_of result ≡ run_row (texts words.now) }
{
    let given = RunOptions::read(words);
    if is_end(given.rest) {
        given.job()
    } else {
        None
    }
}

fn version<'a>(words: &[&str]) -> Option<Job<'a>>
    ensures { option_map row_of result ≡ version_row (texts words.now) }
{
    words.is_empty().then_some(Job::Version)
}

/// Whether the words ask for help, on the program or on a command.
pub(crate) fn asks_help(words: &[&str]) -> bool
    ensures { result ≡ asks_help (texts words.now) }
{
    match words {
        [_, command, others @ ..] => is_help(command) || asks_help_behind(command, others),
        _ => false,
    }
}

fn asks_help_behind(command: &str, words: &[&str]) -> bool
    ensures { result ≡ asks_help_behind command.now (texts words.now) }
{
    match command {
        "verify" => asks_help_within(1, words) || OwnOption::Sheet.asks_help(words),
        "plan" => asks_help_within(1, words) || OwnOption::Table.asks_help(words),
        "format" => asks_help_within(1, words),
        "sheet" => asks_help_within(3, words),
        "commands" => asks_help_within(4, words),
        "check" => check_asks_help(words),
        "replay" => asks_help_within(2, words),
        "run" => asks_help_within(0, RunOptions::read(words).rest),
        _ => false,
    }
}

/// Whether help is asked for after none, one or two of the options of `check`.
fn check_asks_help(words: &[&str]) -> bool
    ensures { result ≡ check_asks_help (texts words.now) }
{
    asks_help_within(0, words)
        || asks_help_after_file(words)
        || asks_help_beside("--all", words)
        || asks_help_beside("--haproxy", words)
}

/// Whether help is asked for after `-f`.
fn asks_help_after_file(words: &[&str]) -> bool
    ensures { result ≡ asks_help_with (reader_of File) 0 (texts words.now) }
{
    asks_help_after(OwnOption::File.read(words))
}

/// Whether help is asked for after the flag of this name, alone or with `-f`.
fn asks_help_beside(name: &str, words: &[&str]) -> bool
    ensures { result ≡ asks_help_beside name.now (texts words.now) }
{
    asks_help_after(read_flag(name, words)) || asks_help_after(flag_and_file(name, words))
}

/// Whether help is asked for after options, if they were read.
fn asks_help_after(given: Option<Given<'_>>) -> bool
    ensures { result ≡ asks_help_after 0 (given_of given.entry) }
{
    match given {
        Some(given) => asks_help_within(0, given.rest),
        None => false,
    }
}
