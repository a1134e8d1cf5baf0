//! The words of the command line.

ghost use Rattle.std.specs.Prelude.{◌<◌, ◌≤◌, IfOk};
ghost use Rattle.meet.specs.Tasks.{IsWithin};

use clap::{Arg, ArgAction, ArgMatches, Command, Error, value_parser};
use meet_draw::{LEAST_WIDTH, MOST_WIDTH, Style, USUAL_WIDTH, Width};
use meet_drive::{MOST_EACH, MOST_GIVERS};
use pool_run::{MOST_CALLERS, MOST_JOBS, MOST_WORKERS};
use std::alloc::{AllocError, Global};

/// The version. The command that built the program reports which toolchain proved it.
const VERSION: &str = "0.1.0";

/// The end of the help text.
const REST_OF_HELP: &str = "\
A script is a queue and then calls, one per line, by the seat that makes them. A trace is the log of their steps.
  printf 'fair\\n0 put 5\\n1 take\\n0 follow\\n' | meet run
If a record of a trace is illegal, explain prints the records that were legal there, and the requests that waited. If a
line of a trace or a script can't be read, it prints the fault, and what can stand there. Draw prints a trace as a
picture, with a row per record and a column per seat. Sum counts records, tickets by fate, and the longest waits.

Queues: fair, unfair, transfer
Verbs: put N, offer N, take, poll, follow, cancel, expire, interrupt SEAT, drain N, size, room, peek, checkpoint;
       of a transfer queue also transfer N, try N, consumers

The command drive is a demo run: threads pass items through a fair queue, which is then closed and checked. It prints
the number of items that were taken, their sum, the number of matched pairs, and the last line of a script.
  meet drive 4 100

A pool's script has the pool's parameters, and then calls of callers and workers:
  printf 'pool core 1 maximum 1 callers 1 keep 60000 unbounded policy abort\\n0 execute 7\\n1 ready\\n' | meet pool run

Verbs of a pool: execute N, ready, follow, finish N, idle, leave, failed, shutdown, now, counters, checkpoint

The command pool drive is a demo run: threads execute jobs at a pool of workers. It prints the number of jobs, the sum
of what they returned, the number of jobs done by the log, and the last line of a script.
  meet pool drive 4 100 2

A concurrent history has a line per call: seat, begin, @ with a time by which the call was seen to wait, end (- if it
never ended), the call, and what it returned. If it is linearizable, judge prints a legal history of it, as a trace.
  printf 'calls 1 fair\\n0 10 @14 25 put 5 done\\n1 12 20 take got 5\\n' | meet judge

Exit status:
  0  success
  1  the trace is illegal, the traces aren't one history, or the concurrent history isn't linearizable
  2  a bad command line, or a request for help or the version
  3  a line that can't be read
  4  an allocation failed, a search reached its limit, or a demo run or a pool was refused
  5  a read or a write failed";

/// What the program does with the text on standard input.
#[derive(Clone, Copy, PartialEq, Eq, Debug)]
pub enum Task {
    /// Reads a script, and prints its replies.
    Run,
    /// Reads a script, and prints the trace of its records.
    Trace,
    /// Reads a trace, and prints whether it is legal.
    Check,
    /// Reads a trace, and prints it without the tickets that were interrupted or withdrawn.
    Erase,
    /// Reads a chain of traces, and prints whether it is one legal history.
    Chain,
    /// Reads a trace, and prints whether it is legal, and what would have been legal.
    Explain,
    /// Reads a trace, and prints a picture of it, with these signs and rows of this width.
    Draw(Style, Width),
    /// Reads a trace, and prints its sums.
    Sum,
    /// Reads a concurrent history, and prints the trace of a legal history that explains it.
    Judge,
    /// Reads a pool's script, and prints its replies.
    PoolRun,
    /// Reads a pool's script, and prints the trace of its records.
    PoolTrace,
    /// Reads a pool's trace, and prints whether it is legal.
    PoolCheck,
}

/// What a command line asks for.
#[derive(Clone, Copy, PartialEq, Eq, Debug)]
pub enum Wanted {
    /// A task with a text.
    Text(Task),
    /// A demo run: the number of producers, 1 to 64, and of items per producer, 1 to 1,000.
    Drive(u64, u64),
    /// A demo run of a pool: the number of callers, 1 to 64, of jobs per caller, 1 to 1,000, and of workers, 1 to 64.
    PoolDrive(u64, u64, u64),
}

/// The argument for a number of a demo run, from 1 to `most`.
fn number<'a>(alloc: Global, name: &'a str, most: u64, help: &'a str) -> Arg<'a>
    requires { most ≤ 1000 }
{
    Arg::new(alloc, name)
        .required(true)
        .help(help)
        .value_parser(value_parser!(u64).range(1..=most as i64))
}

/// Returns the given number of a demo run. The parser checked that it is from 1 to `most`.
fn given(asked: &ArgMatches<'_>, name: &str, most: u64) -> u64
    requires { 0 < most }
    ensures from { 0 < result }
    ensures to { result ≤ most }
{
    asked.get_one::<u64>(name).unwrap_or(1).clamp(1, most)
}

/// The flag `--trace`.
fn trace_flag<'a>(alloc: Global) -> Arg<'a> {
    Arg::new(alloc, "trace")
        .long("trace")
        .help("Prints the script's records as a trace, instead of its replies")
        .action(ArgAction::SetTrue)
}

/// The command `run`.
fn run_command<'a>(alloc: Global) -> Result<Command<'a>, AllocError> {
    Command::new(alloc, "run")
        .about("Runs the script on standard input (the default)")
        .override_usage("meet run [--trace] < SCRIPT")
        .arg(trace_flag(alloc))
}

/// The command `check`.
fn check_command<'a>(alloc: Global) -> Result<Command<'a>, AllocError> {
    let erase = Arg::new(alloc, "erase")
        .long("erase")
        .help("Prints the trace without the tickets that were interrupted or withdrawn")
        .action(ArgAction::SetTrue);
    Command::new(alloc, "check")
        .about("Checks the trace on standard input")
        .override_usage("meet check [--erase] < TRACE")
        .arg(erase)
}

/// The command `chain`.
fn chain_command<'a>(alloc: Global) -> Command<'a> {
    Command::new(alloc, "chain")
        .about("Checks the traces on standard input, one after another, as one history")
        .override_usage("cat TRACE.. | meet chain")
}

/// The command `explain`.
fn explain_command<'a>(alloc: Global) -> Command<'a> {
    Command::new(alloc, "explain")
        .about("Explains why the trace on standard input is illegal, and which records were legal")
        .override_usage("meet explain < TRACE")
}

/// The command `draw`.
fn draw_command<'a>(alloc: Global) -> Result<Command<'a>, AllocError> {
    let unicode = Arg::new(alloc, "unicode")
        .long("unicode")
        .help("Draws with signs of Unicode, instead of plain ones")
        .action(ArgAction::SetTrue);
    let width = Arg::new(alloc, "width")
        .long("width")
        .value_name("COLUMNS")
        .help("The most columns of a row: 20 to 1000, by default 100")
        .value_parser(value_parser!(u64).range(LEAST_WIDTH as i64..=MOST_WIDTH as i64));
    Command::new(alloc, "draw")
        .about("Draws the trace on standard input: a row per record, a column per seat")
        .override_usage("meet draw [--unicode] [--width COLUMNS] < TRACE")
        .arg(unicode)?
        .arg(width)
}

/// The command `sum`.
fn sum_command<'a>(alloc: Global) -> Command<'a> {
    Command::new(alloc, "sum")
        .about("Sums up the trace on standard input: records, tickets, the longest queue and waits")
        .override_usage("meet sum < TRACE")
}

/// The command `judge`.
fn judge_command<'a>(alloc: Global) -> Command<'a> {
    Command::new(alloc, "judge")
        .about("Checks whether the concurrent history on standard input is linearizable")
        .override_usage("meet judge < CALLS")
}

/// The command `drive`.
fn drive_command<'a>(alloc: Global) -> Result<Command<'a>, AllocError> {
    let givers = number(
        alloc,
        "N",
        MOST_GIVERS,
        "The number of producers, and of consumers: 1 to 64",
    );
    let each = number(
        alloc,
        "M",
        MOST_EACH,
        "The number of items of each: 1 to 1000",
    );
    Command::new(alloc, "drive")
        .about("Runs N producers and N consumers at a fair queue, M items each")
        .override_usage("meet drive N M")
        .arg(givers)?
        .arg(each)
}

/// The command `pool run`.
fn pool_run_command<'a>(alloc: Global) -> Result<Command<'a>, AllocError> {
    Command::new(alloc, "run")
        .about("Runs the pool's script on standard input")
        .override_usage("meet pool run [--trace] < SCRIPT")
        .arg(trace_flag(alloc))
}

/// The command `pool check`.
fn pool_check_command<'a>(alloc: Global) -> Command<'a> {
    Command::new(alloc, "check")
        .about("Checks the pool's trace on standard input")
        .override_usage("meet pool check < TRACE")
}

/// The command `pool drive`.
fn pool_drive_command<'a>(alloc: Global) -> Result<Command<'a>, AllocError> {
    let callers = number(
        alloc,
        "N",
        MOST_CALLERS,
        "The number of callers, each a thread: 1 to 64",
    );
    let each = number(
        alloc,
        "M",
        MOST_JOBS,
        "The number of jobs of each caller: 1 to 1000",
    );
    let workers = number(
        alloc,
        "W",
        MOST_WORKERS,
        "The number of workers, each a thread: 1 to 64",
    );
    Command::new(alloc, "drive")
        .about("Runs N callers, M jobs each, at a pool of W workers")
        .override_usage("meet pool drive N M W")
        .arg(callers)?
        .arg(each)?
        .arg(workers)
}

/// The command `pool`.
fn pool_command<'a>(alloc: Global) -> Result<Command<'a>, AllocError> {
    Command::new(alloc, "pool")
        .about("Does the same for a pool of workers, by words of its own")
        .override_usage("meet pool <COMMAND> < TEXT")
        .subcommand_required(true)
        .subcommand(pool_run_command(alloc)?)?
        .subcommand(pool_check_command(alloc))?
        .subcommand(pool_drive_command(alloc)?)
}

/// The program's command, without its subcommands.
fn bare_command<'a>(alloc: Global) -> Command<'a> {
    Command::new(alloc, "meet")
        .version(VERSION)
        .about("Runs calls at the rendezvous queues of java.util.concurrent, and checks their logs")
        .override_usage("meet [COMMAND] < TEXT")
        .after_help(REST_OF_HELP)
}

/// The program's command.
fn command<'a>(alloc: Global) -> Result<Command<'a>, AllocError> {
    bare_command(alloc)
        .subcommand(run_command(alloc)?)?
        .subcommand(check_command(alloc)?)?
        .subcommand(chain_command(alloc))?
        .subcommand(explain_command(alloc))?
        .subcommand(draw_command(alloc)?)?
        .subcommand(sum_command(alloc))?
        .subcommand(judge_command(alloc))?
        .subcommand(drive_command(alloc)?)?
        .subcommand(pool_command(alloc)?)
}

/// Returns the task that the words after `draw` name.
fn drawn_by(asked: &ArgMatches<'_>) -> Task {
    let style = if asked.get_flag("unicode") {
        Style::Unicode
    } else {
        Style::Plain
    };
    let columns = asked.get_one::<u64>("width").unwrap_or(USUAL_WIDTH);
    // The parser let no other number through.
    Task::Draw(style, Width::new(columns).unwrap_or(Width::usual()))
}

/// Returns what the words after `pool` name.
fn pool_wanted_by(asked: &ArgMatches<'_>) -> Wanted
    ensures { IsWithin result }
{
    match asked.subcommand() {
        Some((name, _)) if name == "check" => Wanted::Text(Task::PoolCheck),
        Some((name, asked)) if name == "drive" => Wanted::PoolDrive(
            given(asked, "N", MOST_CALLERS),
            given(asked, "M", MOST_JOBS),
            given(asked, "W", MOST_WORKERS),
        ),
        Some((_, asked)) if asked.get_flag("trace") => Wanted::Text(Task::PoolTrace),
        Some(_) => Wanted::Text(Task::PoolRun),
        None => Wanted::Text(Task::PoolRun),
    }
}

/// Returns what these words name.
fn wanted_by(matches: &ArgMatches<'_>) -> Wanted
    ensures { IsWithin result }
{
    match matches.subcommand() {
        None => Wanted::Text(Task::Run),
        Some((name, asked)) if name == "check" && asked.get_flag("erase") => {
            Wanted::Text(Task::Erase)
        }
        Some((name, _)) if name == "check" => Wanted::Text(Task::Check),
        Some((name, _)) if name == "chain" => Wanted::Text(Task::Chain),
        Some((name, _)) if name == "explain" => Wanted::Text(Task::Explain),
        Some((name, asked)) if name == "draw" => Wanted::Text(drawn_by(asked)),
        Some((name, _)) if name == "sum" => Wanted::Text(Task::Sum),
        Some((name, _)) if name == "judge" => Wanted::Text(Task::Judge),
        Some((name, asked)) if name == "pool" => pool_wanted_by(asked),
        Some((name, asked)) if name == "drive" => {
            Wanted::Drive(given(asked, "N", MOST_GIVERS), given(asked, "M", MOST_EACH))
        }
        Some((_, asked)) if asked.get_flag("trace") => Wanted::Text(Task::Trace),
        Some(_) => Wanted::Text(Task::Run),
    }
}

/// Parses the words of a command line, the program's name first: none, `run`, `run --trace`, `check`, `check --erase`,
/// `chain`, `explain`, `draw`, with `--unicode` and `--width COLUMNS` or without, `sum`, `judge`, `drive N M`, or after
/// `pool` `run`, `run --trace`, `check` or `drive N M W`.
///
/// # Errors
/// The text to print, for a bad command line and for a request for help or the version.
pub fn wanted_of(alloc: Global, words: &[String]) -> Result<Wanted, Error>
    ensures { IfOk result IsWithin }
{
    let matches = command(alloc)?.try_get_matches_from(words)?;
    Ok(wanted_by(&matches))
}
