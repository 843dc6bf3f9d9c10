//! The commands with their help, as `clap` prints it.
ghost use Rattle.std.specs.Prelude.{◌≡◌, Some, IfOk, IsOkAnd, codes, false};
ghost use Rattle.clap.specs.Words.{app_of, new_app, new_rule, rule_of, with_rule, with_subcommand};
ghost use Rattle.clap.specs.declared.builder.command.Command.TheViews.{out-Command as fields_of};
ghost use Rattle.lb_cli_words.specs.Clap.{check_app, commands_app, format_app, move_lines_app, plain_app, plan_app, program_app, replay_app, run_app, sheet_app, verify_app};
ghost use Rattle.lb_cli_words.specs.Clap.{file_option_rule, flag_rule, named_rule, operand_rule};

use clap::{Arg, ArgAction, Command};
use std::alloc::{AllocError, Global};

/// What the file STATE is.
const STATE: &str = "File that holds HAProxy's answer to `show servers state BACKEND`";

/// What the file DUMP is.
const DUMP: &str = "File that holds HAProxy's answer to `show table` for the backend's table";

/// The program with its commands.
pub(crate) fn commands<'a>(alloc: Global) -> Result<Command<'a>, AllocError>
    ensures { IfOk result (λ c. app_of c ≡ commands_app) }
{
    let commands = with_command(program(alloc)?, verify(alloc))?;
    let commands = with_command(commands, plan(alloc))?;
    let commands = with_command(commands, format(alloc))?;
    let commands = with_command(commands, sheet(alloc))?;
    let commands = with_command(commands, move_lines(alloc))?;
    let commands = with_command(commands, check(alloc))?;
    let commands = with_command(commands, replay(alloc))?;
    with_command(commands, run(alloc))
}

/// The program with one command more, where that was made.
fn with_command<'a>(
    program: Command<'a>,
    command: Result<Command<'a>, AllocError>,
) -> Result<Command<'a>, AllocError>
    requires { IfOk command (λ c. (fields_of c).has_globals ≡ false) }
    ensures { IfOk result (λ whole. IsOkAnd command.entry (λ c. app_of whole ≡ with_subcommand (app_of program.entry) (app_of c).top)) }
{
    program.subcommand(command?)
}

/// The program without commands.
fn program<'a>(alloc: Global) -> Result<Command<'a>, AllocError>
    ensures app { IfOk result (λ c. app_of c ≡ program_app) }
    ensures local { IfOk result (λ c. (fields_of c).has_globals ≡ false) }
{
    let version = flag(
        alloc,
        "version",
        "Print the program's version, and what it is proved with",
    );
    plain(alloc).arg(version)
}

/// The program without its option and its commands.
fn plain<'a>(alloc: Global) -> Command<'a>
    ensures app { app_of result ≡ plain_app }
    ensures local { (fields_of result).has_globals ≡ false }
{
    Command::new(alloc, "stickylb")
        .about(
            "Balances load with stick tables, plans the moves of their pins, checks plans, and reads configurations",
        )
        .arg_required_else_help(true)
        .subcommand_required(true)
        .disable_help_subcommand(true)
}

fn verify<'a>(alloc: Global) -> Result<Command<'a>, AllocError>
    ensures app { IfOk result (λ c. app_of c ≡ verify_app) }
    ensures local { IfOk result (λ c. (fields_of c).has_globals ≡ false) }
{
    let verify = command(
        alloc,
        "verify",
        "Check that a plan keeps to a sheet, its own or a given one, and that no plan is better",
        "Prints `best pins N unplaced U moved M` with status 0, or the fault, as `53 NotShown`, with status 1.",
    );
    let sheet = named_option(
        alloc,
        "sheet",
        "SHEET",
        "File that holds the sheet to judge the plan by",
    );
    let file = operand(alloc, "file", "FILE", "File that holds the plan's text");
    with_arguments(verify, sheet, file)
}

fn plan<'a>(alloc: Global) -> Result<Command<'a>, AllocError>
    ensures app { IfOk result (λ c. app_of c ≡ plan_app) }
    ensures local { IfOk result (λ c. (fields_of c).has_globals ≡ false) }
{
    let plan = command(
        alloc,
        "plan",
        "Plan the moves of a sheet's pins, as few and as cheap as can be",
        "Prints the plan's text with status 0, or the sheet's fault, as `41 TooLarge`, with status 1.",
    );
    let table = flag(
        alloc,
        "table",
        "Print the moves and the servers as tables for a reader, and not the plan's text",
    );
    let file = operand(alloc, "file", "FILE", "File that holds the sheet's text");
    with_arguments(plan, table, file)
}

fn format<'a>(alloc: Global) -> Result<Command<'a>, AllocError>
    ensures app { IfOk result (λ c. app_of c ≡ format_app) }
    ensures local { IfOk result (λ c. (fields_of c).has_globals ≡ false) }
{
    let format = command(
        alloc,
        "format",
        "Print the one text of the sheet that a text with comments, and lines in any order, means",
        "Prints the sheet's text with status 0, or the fault of the text, as `40 BadLine 3`, with status 1.",
    );
    let file = operand(alloc, "file", "FILE", "File that holds the text");
    format.arg(file)
}

fn sheet<'a>(alloc: Global) -> Result<Command<'a>, AllocError>
    ensures app { IfOk result (λ c. app_of c ≡ sheet_app) }
    ensures local { IfOk result (λ c. (fields_of c).has_globals ≡ false) }
{
    let sheet = command(
        alloc,
        "sheet",
        "Make a sheet of what a stick table of HAProxy holds, to empty a server",
        "Prints the sheet's text with status 0, or why there is none with status 1.",
    );
    let target = operand(alloc, "target", "BACKEND/SERVER", "The server to empty");
    let state = operand(alloc, "state", "STATE", STATE);
    let dump = operand(alloc, "dump", "DUMP", DUMP);
    with_arguments(sheet.arg(target)?, state, dump)
}

fn move_lines<'a>(alloc: Global) -> Result<Command<'a>, AllocError>
    ensures app { IfOk result (λ c. app_of c ≡ move_lines_app) }
    ensures local { IfOk result (λ c. (fields_of c).has_globals ≡ false) }
{
    let commands = command(
        alloc,
        "commands",
        "Make commands for HAProxy that move the clients of its stick table by a plan",
        "Prints a line for each client that moves, `clear table ..;set table ..`, with status 0, or why there are none \
         with status 1.",
    );
    let backend = operand(alloc, "backend", "BACKEND", "The backend");
    let state = operand(alloc, "state", "STATE", STATE);
    let dump = operand(alloc, "dump", "DUMP", DUMP);
    let plan = operand(alloc, "plan", "PLAN", "File that holds the plan's text");
    with_arguments(with_arguments(commands, backend, state)?, dump, plan)
}

fn check<'a>(alloc: Global) -> Result<Command<'a>, AllocError>
    ensures app { IfOk result (λ c. app_of c ≡ check_app) }
    ensures local { IfOk result (λ c. (fields_of c).has_globals ≡ false) }
{
    let check = command(
        alloc,
        "check",
        "Check a configuration",
        "Prints what is ignored, as `line 3: log ignored`, and then `configuration is valid` with status 0; or the \
         first fault, as `line 2: 22 UnknownWord`, with status 1.",
    );
    let all = flag(
        alloc,
        "all",
        "Report all faults, at most 100, and then their number, as `2 faults`",
    );
    let haproxy = flag(
        alloc,
        "haproxy",
        "The same, and say of each line that is taken what else it means to HAProxy",
    );
    with_arguments(check.arg(config_option(alloc))?, all, haproxy)
}

fn replay<'a>(alloc: Global) -> Result<Command<'a>, AllocError>
    ensures app { IfOk result (λ c. app_of c ≡ replay_app) }
    ensures local { IfOk result (λ c. (fields_of c).has_globals ≡ false) }
{
    let replay = command(
        alloc,
        "replay",
        "Replay a script of requests, checks, commands and plans at a backend",
        "Prints the answer to each line of the script, as `served a made`, with status 0; or the configuration's \
         fault, with status 1. A bad line of the script ends it, with status 1.",
    );
    let config = operand(
        alloc,
        "config",
        "CONFIG",
        "File that holds a configuration of which one backend has servers",
    );
    let script = operand(alloc, "script", "SCRIPT", "File that holds the script");
    with_arguments(replay, config, script)
}

fn run<'a>(alloc: Global) -> Result<Command<'a>, AllocError>
    ensures app { IfOk result (λ c. app_of c ≡ run_app) }
    ensures local { IfOk result (λ c. (fields_of c).has_globals ≡ false) }
{
    let run = command(
        alloc,
        "run",
        "Balance the load of a configuration, until the command `stop` comes over its socket",
        "Prints `closed BACKEND events N rising yes` for each backend at the end, with status 0; or the \
         configuration's first fault, as `line 2: 22 UnknownWord`, or the address that can't be bound, with status 1.",
    );
    let pins = named_option(
        alloc,
        "pins",
        "PINS",
        "File that keeps the pins over a restart: read at the start, written at the end and in between",
    );
    let every = named_option(
        alloc,
        "pins-every",
        "TIME",
        "How often that file is written in between, as `10s`, which it is without this; 0 for never",
    );
    with_arguments(run.arg(config_option(alloc))?, pins, every)
}

/// A command without arguments: what it is for, and what it `prints`.
fn command<'a>(alloc: Global, name: &'a str, about: &'a str, prints: &'a str) -> Command<'a>
    ensures app { app_of result ≡ new_app name.now }
    ensures local { (fields_of result).has_globals ≡ false }
{
    Command::new(alloc, name).about(about).after_help(prints)
}

/// The command with these two arguments, in their order.
fn with_arguments<'a>(
    command: Command<'a>,
    first: Arg<'a>,
    second: Arg<'a>,
) -> Result<Command<'a>, AllocError>
    requires command { (fields_of command).has_globals ≡ false }
    requires first { first.global ≡ false }
    requires second { second.global ≡ false }
    ensures app { IfOk result (λ c. app_of c ≡ with_rule (with_rule (app_of command.entry) (rule_of first.entry)) (rule_of second.entry)) }
    ensures local { IfOk result (λ c. (fields_of c).has_globals ≡ false) }
{
    command.arg(first)?.arg(second)
}

/// An argument in its place that names a file.
fn operand<'a>(alloc: Global, name: &'a str, value: &'a str, help: &'a str) -> Arg<'a>
    ensures rule { rule_of result ≡ operand_rule name.now }
    ensures local { result.global ≡ false }
{
    Arg::new(alloc, name)
        .value_name(value)
        .help(help)
        .required(true)
}

/// An option without a value.
fn flag<'a>(alloc: Global, name: &'a str, help: &'a str) -> Arg<'a>
    ensures rule { rule_of result ≡ flag_rule name.now }
    ensures local { result.global ≡ false }
{
    long(alloc, name, help).action(ArgAction::SetTrue)
}

/// An argument with a long name.
fn long<'a>(alloc: Global, name: &'a str, help: &'a str) -> Arg<'a>
    ensures rule { rule_of result ≡ record (new_rule name.now) { long = Some name.now } }
    ensures local { result.global ≡ false }
{
    Arg::new(alloc, name).help(help).long(name)
}

/// An option with a long name and a value.
fn named_option<'a>(alloc: Global, name: &'a str, value: &'a str, help: &'a str) -> Arg<'a>
    ensures rule { rule_of result ≡ named_rule name.now }
    ensures local { result.global ≡ false }
{
    Arg::new(alloc, name)
        .value_name(value)
        .help(help)
        .long(name)
}

/// The option `-f`, which names a configuration's file.
fn config_option<'a>(alloc: Global) -> Arg<'a>
    ensures rule { rule_of result ≡ file_option_rule }
    ensures local { result.global ≡ false }
{
    Arg::new(alloc, "file")
        .short('f')
        .value_name("FILE")
        .help("File that holds the configuration")
        .required(true)
}
