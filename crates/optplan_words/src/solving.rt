//! The commands that solve a task, with their operands, options and help.

ghost use Rattle.std.specs.Prelude.{◌≡◌, IfOk};
ghost use Rattle.optplan_words.specs.Commands as spec;
ghost use Rattle.optplan_words.specs.Commands.{IsCommand, AddsRules};

use crate::arguments::{explain, file, flag, option, option_or, with_arg};
use clap::Command;
use std::alloc::{AllocError, Global};

const SOLVE_ABOUT: &str = "Finds a cheapest plan, or that there is none";

const SOLVE_LONG: &str = "Finds a cheapest plan, or that there is none.

Reads a domain and a problem in PDDL 2.1 level 1 with types, negative preconditions and action costs, and prints:

  the plan                    one (name arguments) a step, and a line with its cost (status 0)
  unsolvable                  there is no plan (status 4)
  limit N                     --limit, --time, --memory or --steps ended the search: no plan costs less than N;
                              the cheapest plan found so far follows, if there is one (status 5)

The states are divided among workers, each in a thread of its own, so the plan may differ from run to run; its cost does
not. With --simulate one thread does the workers' steps in a random order from the seed, and always finds the same plan.
--time counts from when the files are read, but ends only the search: what comes before and after it may take longer.
--memory limits the states and messages of a multi-threaded search, divided equally among the workers; tables and the
certificate are not counted. --progress prints lines such as

  optplan: 3 s, 1200000 expanded, 900000 kept, least open f 12, best cost inf

about once a second, with --simulate once in 100000 steps: the numbers of expanded and of stored states, the least f-value
of an open state, and the least cost of a plan so far.

Threads search in stages (--tables staged): first with small tables, which take little time, then again with larger ones
if that search goes on for long; the last search has no end. With --tables goal there is one search, with tables of at most
--table abstract states that grow from the variables of the goal. --limit counts within each search.

Before they search, threads leave out what no goal needs (--reduce on): values that no goal and no action on the way to one
asks for, variables whose values then make no difference, and actions that change nothing or cost more than another with the
same effects. Plans, costs and certificates are those of the whole task. With --reduce off the whole task is searched.

Among open states of the least f-value (the cost to reach the state plus its heuristic value), --ties deep expands one with
the greatest cost to reach it, --ties shallow one with the least, and --ties fresh one that was never expanded, as deep
does, and only then those that have been reached more cheaply since they were expanded. fresh is the default of threads: if
many states have the f-value of a cheapest plan it needs fewer expansions than shallow, and if actions cost nothing it does
not expand states again and again, as deep does. With --simulate the default is shallow.

With the metric minimize (total-cost) an action costs the sum of its increases of the total cost, without it each action
costs 1. The command check checks the certificate that --cert writes. A text that cannot be read is refused with one line
on standard error, and so is a task that is too large (status 1). With --explain lines follow that show the line of the
fault, and say what is wrong there.";

const SOLVE_SAS_ABOUT: &str =
    "Finds a cheapest plan of a finite-domain task, or that there is none";

const SOLVE_SAS_LONG: &str = "Finds a cheapest plan of a finite-domain task, or that there is none.

Reads a finite-domain task as Fast Downward's translator writes it (output.sas, version 3, without axioms and conditional
effects), and prints:

  the plan                    one (operator) a step, and a line with its cost (status 0)
  unsolvable                  there is no plan (status 4)
  limit N                     --limit, --time, --memory or --steps ended the search: no plan costs less than N;
                              the cheapest plan found so far follows, if there is one (status 5)

The states are divided among workers, each in a thread of its own, so the plan may differ from run to run; its cost does
not. With --simulate one thread does the workers' steps in a random order from the seed, and always finds the same plan.
--time counts from when the files are read, but ends only the search: what comes before and after it may take longer.
--memory limits the states and messages of a multi-threaded search, divided equally among the workers; tables and the
certificate are not counted. --progress prints lines such as

  optplan: 3 s, 1200000 expanded, 900000 kept, least open f 12, best cost inf

about once a second, with --simulate once in 100000 steps: the numbers of expanded and of stored states, the least f-value
of an open state, and the least cost of a plan so far.

Threads search in stages (--tables staged): first with small tables, which take little time, then again with larger ones
if that search goes on for long; the last search has no end. With --tables goal there is one search, with tables of at most
--table abstract states that grow from the variables of the goal. --limit counts within each search.

Before they search, threads leave out what no goal needs (--reduce on): values that no goal and no action on the way to one
asks for, variables whose values then make no difference, and actions that change nothing or cost more than another with the
same effects. Plans, costs and certificates are those of the whole task. With --reduce off the whole task is searched.

Among open states of the least f-value (the cost to reach the state plus its heuristic value), --ties deep expands one with
the greatest cost to reach it, --ties shallow one with the least, and --ties fresh one that was never expanded, as deep
does, and only then those that have been reached more cheaply since they were expanded. fresh is the default of threads: if
many states have the f-value of a cheapest plan it needs fewer expansions than shallow, and if actions cost nothing it does
not expand states again and again, as deep does. With --simulate the default is shallow.

The command check-sas checks the certificate that --cert writes. A text that cannot be read is refused with one line on
standard error, and so is a task that is too large (status 1). With --explain lines follow that show the line of the
fault, and say what is wrong there.";

/// Adds the options that limit the search.
fn with_ending_options<'a>(alloc: Global, command: Command<'a>) -> Result<Command<'a>, AllocError>
    ensures { IfOk result (AddsRules command.entry spec.ending_options) }
{
    let limit = option(alloc, "limit", "N", "Expands at most N states per worker");
    let time = option(
        alloc,
        "time",
        "SECONDS",
        "Ends a multi-threaded search after SECONDS seconds, as at a limit",
    );
    let memory = option(
        alloc,
        "memory",
        "MIB",
        "Ends a multi-threaded search once its states and messages take MIB MiB, as at a limit",
    );
    let steps = option_or(
        alloc,
        "steps",
        "N",
        "1000000",
        "Does at most N steps with --simulate",
    );
    let command = with_arg(command, limit)?;
    let command = with_arg(command, time)?;
    let command = with_arg(command, memory)?;
    with_arg(command, steps)
}

/// Adds the options of who searches: the schedule, the workers and their links.
fn with_schedule_options<'a>(alloc: Global, command: Command<'a>) -> Result<Command<'a>, AllocError>
    ensures { IfOk result (AddsRules command.entry spec.schedule_options) }
{
    let simulate = option(
        alloc,
        "simulate",
        "SEED",
        "Searches in one thread, in a random order of steps from this seed",
    );
    let workers = option_or(
        alloc,
        "workers",
        "N",
        "4",
        "Searches with N workers, each in a thread of its own, 1 to 64",
    );
    let ring = option_or(
        alloc,
        "ring",
        "N",
        "64",
        "Capacity of the ring of messages from one worker to another, 1 to 65536; without effect with --simulate",
    );
    let command = with_arg(command, simulate)?;
    let command = with_arg(command, workers)?;
    with_arg(command, ring)
}

/// Adds the options of what is searched, and how: tables, tie-breaking and the reduction.
fn with_search_options<'a>(alloc: Global, command: Command<'a>) -> Result<Command<'a>, AllocError>
    ensures { IfOk result (AddsRules command.entry spec.search_options) }
{
    let tables = option(
        alloc,
        "tables",
        "CHOICE",
        "Tables of the heuristic: staged (the default) or goal (the default with --table or --simulate)",
    );
    let table = option(
        alloc,
        "table",
        "N",
        "Greatest number of abstract states of a table with --tables goal, 1 to 16777216 [default: 100000]",
    );
    let ties = option(
        alloc,
        "ties",
        "ORDER",
        "Tie-breaking among states of equal f-value: fresh (the default), shallow (the default with --simulate) or deep",
    );
    let reduce = option(
        alloc,
        "reduce",
        "CHOICE",
        "Leaves out what no goal needs: on (the default) or off (the default with --simulate)",
    );
    let command = with_arg(command, tables)?;
    let command = with_arg(command, table)?;
    let command = with_arg(command, ties)?;
    with_arg(command, reduce)
}

/// Adds the options for output besides the answer.
fn with_output_options<'a>(alloc: Global, command: Command<'a>) -> Result<Command<'a>, AllocError>
    ensures { IfOk result (AddsRules command.entry spec.output_options) }
{
    let progress = flag(
        alloc,
        "progress",
        "Reports the search's progress on standard error, about once a second",
    );
    let plan = option(
        alloc,
        "plan",
        "FILE",
        "Writes the plan to this file as well",
    );
    let cert = option(
        alloc,
        "cert",
        "FILE",
        "Writes a certificate of the answer to this file",
    );
    let command = with_arg(command, progress)?;
    let command = with_arg(command, plan)?;
    let command = with_arg(command, cert)?;
    with_arg(command, explain(alloc))
}

/// Adds the options of the commands that solve a task.
fn with_options<'a>(alloc: Global, command: Command<'a>) -> Result<Command<'a>, AllocError>
    ensures { IfOk result (AddsRules command.entry spec.options) }
{
    let command = with_schedule_options(alloc, command)?;
    let command = with_search_options(alloc, command)?;
    let command = with_ending_options(alloc, command)?;
    with_output_options(alloc, command)
}

/// Returns the command that solves a planning task, under this name.
pub fn solve_command<'a>(alloc: Global, name: &'a str) -> Result<Command<'a>, AllocError>
    ensures { IfOk result (IsCommand (spec.solve name.entry.now)) }
{
    let command = Command::new(alloc, name)
        .about(SOLVE_ABOUT)
        .long_about(SOLVE_LONG);
    let command = with_arg(command, file(alloc, "DOMAIN", "The domain's file"))?;
    let command = with_arg(command, file(alloc, "PROBLEM", "The problem's file"))?;
    with_options(alloc, command)
}

/// Returns the command that solves a finite-domain task, under this name.
pub fn solve_sas_command<'a>(alloc: Global, name: &'a str) -> Result<Command<'a>, AllocError>
    ensures { IfOk result (IsCommand (spec.solve_sas name.entry.now)) }
{
    let command = Command::new(alloc, name)
        .about(SOLVE_SAS_ABOUT)
        .long_about(SOLVE_SAS_LONG);
    let command = with_arg(command, file(alloc, "SAS", "The task's file"))?;
    with_options(alloc, command)
}
