//! Reads a command line.
ghost use Rattle.std.specs.Prelude.{◌≡◌, ◌++◌, IfOk, OnOk, codes, false, length, map, string_bytes};
ghost use Rattle.clap.specs.Words.{Kinds, HasKind, app_of, rule_of, rows_of, found_of, new_app, with_rule};
ghost use Rattle.clap.specs.declared.builder.command.Command.TheViews.{out-Command};
ghost use Rattle.command_line.specs.Line.{line, line_of_file, line_with_known, line_with_play, line_with_each, file, json, class_file, known_files, class_files, known_option, dynamic, release, release_of, IsFault, ToldBy, Asks, is_true, form_in, profile_in, command_named, task_named, words_for, files_in, task_files};

use crate::line::{LineFault, Request, Task};
use answers::{Command, Form};
use clap::builder::ValueParser;
use clap::{Arg, ArgAction, ArgMatches, Command as Parser};
use classfile::Profile;
use std::alloc::{AllocError, Global};

/// The part of the help that explains the status that the program ends with.
const STATUSES: &str =
    "Status 0: all well. 1: something is refused. 2: a wrong line, a file that cannot be read, no memory, or output that cannot be written.

docs/REFUSALS.md explains each number that is printed, and docs/classck.1 is the man page.";

/// The product's version, and the toolchain that proved it.
const VERSION: &str = "0.9, proved with logic dac8208d650f15bf (rattle-kit-13b, rattle-kit-13f)";

/// The end of the help on `check`.
const CHECK_EXAMPLE: &str = "Example:
  $ classck check Hello.class
  ok
  $ head -c 400 Hello.class > cut.class; classck check cut.class
  refused 2 at 400

It is `refused NUMBER`, and then the place of the fault: a byte of the file, or an entry of the constant pool, the class, a field or a
method, counted as in the class file. docs/REFUSALS.md explains the numbers 2 to 30.";

/// The end of the help on `show`.
const SHOW_EXAMPLE: &str = "Example:
  $ classck show Hello.class
  class Hello major 52 minor 0 flags 0021
  super java/lang/Object
  method 0001 <init> ()V
    stack 1 locals 1
    0 aload_0
    1 invokespecial #1
    4 return

A file that is refused is told as by `check`. Code that cannot be read is `code refused NUMBER at OFFSET`: docs/REFUSALS.md explains the
numbers 31 to 35.";

/// The end of the help on `verify`.
const VERIFY_EXAMPLE: &str = "Example:
  $ classck verify Sums.class java.lang.Object.class
  method <init> ()V verified
  method mean (II)I verified

Each method is `verified`, has `no code`, or is `refused NUMBER at OFFSET`, the offset counting bytes of its code. Behind 77 stands
`missing NAME`: give the file of that class as well; examples/judge does so by itself. A method with invokedynamic is refused 60 but with
--dynamic. docs/REFUSALS.md explains the numbers 40 to 90.";

/// The end of the help on `explain`.
const EXPLAIN_EXAMPLE: &str = "Example:
  $ classck explain Bad.class java.lang.Object.class
  method mean (II)I refused 62 at 2
    62 WrongOperand: an operand is of another type than the instruction takes
    stack 2 locals 2
    2 ladd
    locals int, int
    stack int, int
    operand 2 of 2: expected long, found int

Each method that is refused has its line as by `verify`, a line that says what its number means, and of its code, as by `show`, the sizes
and the instruction at the offset; then the types in the local variables and on the stack before it, what is wrong with them (61 to 63, 68,
69 and 73) or which comparison asks for the missing class (77), and the entry at fault of the exception table (72, 73, 75 and 77) or of the
stack map (78). Behind 78 and 79 the fault is explained too. Where the files themselves are refused, the line of `verify` is followed by what its number means, and by the part of the file at fault.";

/// The end of the help on `play`.
const PLAY_EXAMPLE: &str = "Example:
  $ classck play Sums.class java.lang.Object.class
  play verified

The hierarchy is these classes, so give each class above one of them as well, up to java/lang/Object. The first class that is at fault is
told: `class NUMBER refused NUMBER`, classes counting from 1, or `class NUMBER method NAME DESCRIPTOR refused NUMBER at OFFSET` as by
`verify`. docs/REFUSALS.md explains the numbers 40 to 84.";

/// The end of the help on `verify-each`.
const EACH_EXAMPLE: &str = "Example:
  $ classck verify-each A.class B.class --known java.lang.Object.class
  file 1 A
  method <init> ()V verified
  file 2
  class refused 2 at 400

Behind `file NUMBER CLASS` stand the lines that `verify` prints of the class, where all classes of the line are known; of two of one name the
first counts. A class that is refused is left out. So is a class below it, or below a class that is not given: it is refused 80, and
`verify` of it alone says why. docs/REFUSALS.md explains the numbers.";

/// The end of the help on `serve`.
const SERVE_EXAMPLE: &str = "Example:
  $ printf 'f\\0\\0\\0\\0' | classck serve --known java.lang.Object.class | od -An -tx1
  00 00 00 00 00

A message is a letter, four bytes with a length, the highest first, and so many bytes, of a class file: k makes the class known, v is answered
as by `verify` beside the known classes of other names that stand with it, d is as v and makes the class known, in place of one of its name, if
nothing is refused, x is answered as by `explain`, and f forgets all. A reply is a byte with the status, four with a length, and the text. The
status is 0 where the input ends after a message.";

/// `--release N`
fn release<'a>(alloc: Global) -> Arg<'a>
    ensures rule { rule_of result ≡ release }
    ensures local { result.global ≡ false }
{
    Arg::new(alloc, "N")
        .long("release")
        .value_parser(ValueParser::unsigned(7, 27))
        .help(
            "Takes classes of the versions that Java SE N reads, 7 to 27, and judges invokedynamic",
        )
}

/// The file of a command that takes one.
fn file<'a>(alloc: Global) -> Arg<'a>
    ensures rule { rule_of result ≡ file }
    ensures local { result.global ≡ false }
{
    Arg::new(alloc, "FILE")
        .required(true)
        .help("The path of a class file")
}

/// A command that takes one file: `NAME --release N FILE`.
fn one_file<'a>(alloc: Global, name: &'a str) -> Result<Parser<'a>, AllocError>
    ensures app { IfOk result (λ c. app_of c ≡ with_rule (with_rule (new_app name.now) file) release) }
    ensures local { IfOk result (λ c. (out-Command c).has_globals ≡ false) }
{
    Parser::new(alloc, name)
        .arg(file(alloc))?
        .arg(release(alloc))
}

/// `--json`
fn json<'a>(alloc: Global) -> Arg<'a>
    ensures rule { rule_of result ≡ json }
    ensures local { result.global ≡ false }
{
    Arg::new(alloc, "json")
        .long("json")
        .action(ArgAction::SetTrue)
        .help("Prints objects of JSON, each on a line of its own")
}

/// `check --release N --json FILE`
fn check<'a>(alloc: Global) -> Result<Parser<'a>, AllocError>
    ensures app { IfOk result (λ c. app_of c
        ≡ with_rule (with_rule (with_rule (new_app (codes "check")) file) release) json) }
    ensures local { IfOk result (λ c. (out-Command c).has_globals ≡ false) }
{
    let command = one_file(alloc, "check")?.arg(json(alloc))?;
    Ok(
        command
            .about("Prints `ok`, or `refused` with the number of the first fault and its place")
            .after_help(CHECK_EXAMPLE),
    )
}

/// `show --release N FILE`
fn show<'a>(alloc: Global) -> Result<Parser<'a>, AllocError>
    ensures app { IfOk result (λ c. app_of c ≡ with_rule (with_rule (new_app (codes "show")) file) release) }
    ensures local { IfOk result (λ c. (out-Command c).has_globals ≡ false) }
{
    let command = one_file(alloc, "show")?;
    Ok(
        command
            .about("Prints what a class file holds, and of each method with code its instructions")
            .after_help(SHOW_EXAMPLE),
    )
}

/// The file of the class that is verified.
fn class_file<'a>(alloc: Global) -> Arg<'a>
    ensures rule { rule_of result ≡ class_file }
    ensures local { result.global ≡ false }
{
    Arg::new(alloc, "CLASS")
        .required(true)
        .help("The path of the file of the class that is verified")
}

/// Any number of files of known classes.
fn known_files<'a>(alloc: Global) -> Arg<'a>
    ensures rule { rule_of result ≡ known_files }
    ensures local { result.global ≡ false }
{
    Arg::new(alloc, "KNOWN").num_args(0..).help(
        "The paths of the files of the classes that it may refer to, java/lang/Object among them",
    )
}

/// `--dynamic`
fn dynamic<'a>(alloc: Global) -> Arg<'a>
    ensures rule { rule_of result ≡ dynamic }
    ensures local { result.global ≡ false }
{
    Arg::new(alloc, "dynamic")
        .long("dynamic")
        .action(ArgAction::SetTrue)
        .help("Judges invokedynamic and dynamic constants as well, which are refused 60 otherwise")
}

/// A command that judges classes, and takes `--dynamic` and `--release N`.
fn judging<'a>(alloc: Global, command: Parser<'a>) -> Result<Parser<'a>, AllocError>
    requires { (out-Command command).has_globals ≡ false }
    ensures app { IfOk result (λ c. app_of c ≡ with_rule (with_rule (app_of command.entry) dynamic) release) }
    ensures local { IfOk result (λ c. (out-Command c).has_globals ≡ false) }
{
    command.arg(dynamic(alloc))?.arg(release(alloc))
}

/// A command of this name that takes the file of a class and those of known ones.
fn class_and_known<'a>(alloc: Global, name: &'a str) -> Result<Parser<'a>, AllocError>
    ensures app { IfOk result (λ c. app_of c ≡ with_rule (with_rule (new_app name.now) class_file) known_files) }
    ensures local { IfOk result (λ c. (out-Command c).has_globals ≡ false) }
{
    Parser::new(alloc, name)
        .arg(class_file(alloc))?
        .arg(known_files(alloc))
}

/// `verify --dynamic --release N --json CLASS KNOWN...`
fn verify<'a>(alloc: Global) -> Result<Parser<'a>, AllocError>
    ensures app { IfOk result (λ c. app_of c
        ≡ with_rule (with_rule (with_rule (with_rule
        (with_rule (new_app (codes "verify")) class_file) known_files) dynamic) release) json) }
    ensures local { IfOk result (λ c. (out-Command c).has_globals ≡ false) }
{
    let command = judging(alloc, class_and_known(alloc, "verify")?)?.arg(json(alloc))?;
    Ok(
        command
            .about("Prints the verdict on each method of a class")
            .after_help(VERIFY_EXAMPLE),
    )
}

/// `explain --dynamic --release N --json CLASS KNOWN...`
fn explain<'a>(alloc: Global) -> Result<Parser<'a>, AllocError>
    ensures app { IfOk result (λ c. app_of c
        ≡ with_rule (with_rule (with_rule (with_rule
        (with_rule (new_app (codes "explain")) class_file) known_files) dynamic) release) json) }
    ensures local { IfOk result (λ c. (out-Command c).has_globals ≡ false) }
{
    let command = judging(alloc, class_and_known(alloc, "explain")?)?.arg(json(alloc))?;
    Ok(
        command
            .about("Prints each method of a class that is refused, and why")
            .after_help(EXPLAIN_EXAMPLE),
    )
}

/// The files of classes in play, one at least.
fn class_files<'a>(alloc: Global) -> Arg<'a>
    ensures rule { rule_of result ≡ class_files }
    ensures local { result.global ≡ false }
{
    Arg::new(alloc, "CLASS")
        .required(true)
        .num_args(1..)
        .help("The paths of the files of the classes")
}

/// A command that takes the files of classes.
fn all_classes<'a>(alloc: Global) -> Result<Parser<'a>, AllocError>
    ensures app { IfOk result (λ c. app_of c ≡ with_rule (new_app (codes "play")) class_files) }
    ensures local { IfOk result (λ c. (out-Command c).has_globals ≡ false) }
{
    Parser::new(alloc, "play").arg(class_files(alloc))
}

/// `play --dynamic --release N --json CLASS...`
fn play<'a>(alloc: Global) -> Result<Parser<'a>, AllocError>
    ensures app { IfOk result (λ c. app_of c
        ≡ with_rule (with_rule (with_rule (with_rule (new_app (codes "play")) class_files) dynamic) release) json) }
    ensures local { IfOk result (λ c. (out-Command c).has_globals ≡ false) }
{
    let command = judging(alloc, all_classes(alloc)?)?.arg(json(alloc))?;
    Ok(
        command
            .about("Prints whether all methods of classes that run together are verified")
            .after_help(PLAY_EXAMPLE),
    )
}

/// Any number of files of classes, after `--known`.
fn known_option<'a>(alloc: Global) -> Arg<'a>
    ensures rule { rule_of result ≡ known_option }
    ensures local { result.global ≡ false }
{
    Arg::new(alloc, "KNOWN")
        .long("known")
        .action(ArgAction::Append)
        .num_args(1..)
        .help(
            "The paths of the files of other classes that they may refer to, java/lang/Object among them",
        )
}

/// A command that takes the files of classes and, after `--known`, those of others.
fn classes_and_known<'a>(alloc: Global) -> Result<Parser<'a>, AllocError>
    ensures app { IfOk result (λ c. app_of c
        ≡ with_rule (with_rule (new_app (codes "verify-each")) class_files) known_option) }
    ensures local { IfOk result (λ c. (out-Command c).has_globals ≡ false) }
{
    Parser::new(alloc, "verify-each")
        .arg(class_files(alloc))?
        .arg(known_option(alloc))
}

/// `verify-each --dynamic --release N --json CLASS... --known KNOWN...`
fn verify_each<'a>(alloc: Global) -> Result<Parser<'a>, AllocError>
    ensures app { IfOk result (λ c. app_of c
        ≡ with_rule (with_rule (with_rule (with_rule
        (with_rule (new_app (codes "verify-each")) class_files) known_option) dynamic) release) json) }
    ensures local { IfOk result (λ c. (out-Command c).has_globals ≡ false) }
{
    let command = judging(alloc, classes_and_known(alloc)?)?.arg(json(alloc))?;
    Ok(
        command
            .about("Prints the verdict on each method of each of many classes")
            .after_help(EACH_EXAMPLE),
    )
}

/// A command that takes, after `--known`, the files of known classes.
fn only_known<'a>(alloc: Global) -> Result<Parser<'a>, AllocError>
    ensures app { IfOk result (λ c. app_of c ≡ with_rule (new_app (codes "serve")) known_option) }
    ensures local { IfOk result (λ c. (out-Command c).has_globals ≡ false) }
{
    Parser::new(alloc, "serve").arg(known_option(alloc))
}

/// `serve --dynamic --release N --json --known KNOWN...`
fn serve<'a>(alloc: Global) -> Result<Parser<'a>, AllocError>
    ensures app { IfOk result (λ c. app_of c
        ≡ with_rule (with_rule (with_rule (with_rule (new_app (codes "serve")) known_option) dynamic) release) json) }
    ensures local { IfOk result (λ c. (out-Command c).has_globals ≡ false) }
{
    let command = judging(alloc, only_known(alloc)?)?.arg(json(alloc))?;
    Ok(
        command
            .about("Answers messages on standard input, one after the other")
            .after_help(SERVE_EXAMPLE),
    )
}

/// The command lines of one file.
fn commands_of_files<'a>(alloc: Global) -> Result<Parser<'a>, AllocError>
    ensures { IfOk result (λ c. app_of c ≡ line_of_file) }
{
    Parser::new(alloc, "classck")
        .about("Verifies Java class files by type checking")
        .version(VERSION)
        .after_help(STATUSES)
        .subcommand_required(true)
        .subcommand(check(alloc)?)?
        .subcommand(show(alloc)?)
}

/// The command lines of one file, and those of a class and known ones.
fn with_known<'a>(alloc: Global) -> Result<Parser<'a>, AllocError>
    ensures { IfOk result (λ c. app_of c ≡ line_with_known) }
{
    commands_of_files(alloc)?
        .subcommand(verify(alloc)?)?
        .subcommand(explain(alloc)?)
}

/// These command lines, and that of classes in play.
fn with_play<'a>(alloc: Global) -> Result<Parser<'a>, AllocError>
    ensures { IfOk result (λ c. app_of c ≡ line_with_play) }
{
    with_known(alloc)?.subcommand(play(alloc)?)
}

/// These command lines, and that of many classes.
fn with_each<'a>(alloc: Global) -> Result<Parser<'a>, AllocError>
    ensures { IfOk result (λ c. app_of c ≡ line_with_each) }
{
    with_play(alloc)?.subcommand(verify_each(alloc)?)
}

/// The command lines that the program knows.
fn parser<'a>(alloc: Global) -> Result<Parser<'a>, AllocError>
    ensures { IfOk result (λ c. app_of c ≡ line) }
{
    with_each(alloc)?.subcommand(serve(alloc)?)
}

/// Adds copies of the words.
fn add_owned(alloc: Global, words: &[&str], files: &mut Vec<String>) -> Result<(), AllocError>
    ensures { OnOk result (map string_bytes files.new.items ≡ map string_bytes files.old.items
        ++ map (λ w. w.now) words.now) }
{
    for word in words {
        files.push(String::from_str(alloc, word)?)?;
    }
    Ok(())
}

/// Adds the words for the argument of this name.
#[tactic(auto, using(crate::proofs::Rows::raw_rows))]
fn add_words(
    alloc: Global,
    found: &ArgMatches<'_>,
    name: &str,
    files: &mut Vec<String>,
) -> Result<(), AllocError>
    ensures { OnOk result (map string_bytes files.new.items ≡ map string_bytes files.old.items
        ++ words_for name.now (rows_of (found_of found.now))) }
{
    match found.get_strs(name) {
        Some(words) => add_owned(alloc, words, files),
        None => Ok(()),
    }
}

/// The files that the words after a command name.
fn files(alloc: Global, command: Command, found: &ArgMatches<'_>) -> Result<Vec<String>, AllocError>
    ensures { IfOk result (λ v. map string_bytes v.items ≡ files_in command (rows_of (found_of found.now))) }
{
    let mut files = Vec::new(alloc);
    match command {
        Command::Check(_, _) | Command::Show(_) => add_words(alloc, found, "FILE", &mut files)?,
        Command::Verify(..) | Command::Explain(..) | Command::VerifyEach { .. } => {
            add_words(alloc, found, "CLASS", &mut files)?;
            add_words(alloc, found, "KNOWN", &mut files)?;
        }
        Command::Play(..) => add_words(alloc, found, "CLASS", &mut files)?,
    }
    Ok(files)
}

/// The files of a task.
fn task_files(alloc: Global, task: Task, found: &ArgMatches<'_>) -> Result<Vec<String>, AllocError>
    ensures { IfOk result (λ v. map string_bytes v.items ≡ task_files task (rows_of (found_of found.now))) }
{
    match task {
        Task::Answer(command) => files(alloc, command, found),
        Task::Serve { .. } => {
            let mut files = Vec::new(alloc);
            add_words(alloc, found, "KNOWN", &mut files)?;
            Ok(files)
        }
    }
}

/// Whether these are the words of a flag that is set: the one word `true`, as `clap` has it.
fn is_true(words: &[&str]) -> bool
    ensures { result ≡ is_true (map (λ w. w.now) words.now) }
{
    match words {
        [word] => *word == "true",
        _ => false,
    }
}

/// Whether the flag of this name is set.
#[tactic(auto, using(crate::proofs::Rows::raw_rows))]
fn is_set(found: &ArgMatches<'_>, name: &str) -> bool
    ensures { result ≡ is_true (words_for name.now (rows_of (found_of found.now))) }
{
    match found.get_strs(name) {
        Some(words) => is_true(words),
        None => false,
    }
}

/// The form that the words after a command ask for.
fn form(found: &ArgMatches<'_>) -> Form
    ensures { result ≡ form_in (rows_of (found_of found.now)) }
{
    if is_set(found, "json") {
        Form::Json
    } else {
        Form::Plain
    }
}

/// The number that follows `--release`.
fn release_of(words: &[&str]) -> Option<u8>
    ensures { result ≡ release_of (map (λ w. w.now) words.now) }
{
    match words {
        [word] => word.parse().ok(),
        _ => None,
    }
}

/// The release that is named.
#[tactic(auto, using(crate::proofs::Rows::raw_rows))]
fn release_in(found: &ArgMatches<'_>) -> Option<u8>
    ensures { result ≡ release_of (words_for (codes "N") (rows_of (found_of found.now))) }
{
    release_of(found.get_strs("N")?)
}

/// The profile that the words after a command name.
fn profile(found: &ArgMatches<'_>) -> Profile
    ensures { result ≡ profile_in (rows_of (found_of found.now)) }
{
    if let Some(number) = release_in(found) {
        Profile::Release(number)
    } else if is_set(found, "dynamic") {
        Profile::Dynamic
    } else {
        Profile::Default
    }
}

/// How many words there are for the argument of this name.
fn count_words(found: &ArgMatches<'_>, name: &str) -> usize
    ensures { result ≡ length (words_for name.now (rows_of (found_of found.now))) }
{
    match found.get_strs(name) {
        Some(words) => words.len(),
        None => 0,
    }
}

/// The command of this name, with the form, the profile and the classes that the words after it ask for.
fn command_named(name: &str, found: &ArgMatches<'_>) -> Command
    ensures { result ≡ command_named name.now (rows_of (found_of found.now)) }
{
    if name == "show" {
        Command::Show(profile(found))
    } else if name == "verify" {
        Command::Verify(form(found), profile(found))
    } else if name == "explain" {
        Command::Explain(form(found), profile(found))
    } else if name == "play" {
        Command::Play(form(found), profile(found))
    } else if name == "verify-each" {
        Command::VerifyEach {
            form: form(found),
            profile: profile(found),
            classes: count_words(found, "CLASS"),
        }
    } else {
        Command::Check(form(found), profile(found))
    }
}

/// The task of this name, with what the words after it ask for.
fn task_named(name: &str, found: &ArgMatches<'_>) -> Task
    ensures { result ≡ task_named name.now (rows_of (found_of found.now)) }
{
    if name == "serve" {
        Task::Serve {
            form: form(found),
            profile: profile(found),
        }
    } else {
        Task::Answer(command_named(name, found))
    }
}

/// Why a line makes no request, by an error of `clap`.
fn line_fault(error: clap::Error) -> LineFault
    ensures kind { (kinds : Kinds) → HasKind kinds error → IsFault kinds result }
    ensures told { ToldBy error result }
{
    if matches!(error.kind(), clap::error::ErrorKind::OutOfMemory) {
        LineFault::OutOfMemory
    } else {
        LineFault::NoRequest(error)
    }
}

/// The request that the words make, of which the first is the program's own name.
pub fn request(alloc: Global, words: &[&str]) -> Result<Request, LineFault>
    ensures { Asks (map (λ w. w.now) words.now) result }
{
    let parser = parser(alloc)?;
    let matches = match parser.try_get_matches_from(words) {
        Ok(matches) => matches,
        Err(error) => return Err(line_fault(error)),
    };
    match matches.subcommand() {
        Some((name, found)) => {
            let task = task_named(name, found);
            Ok(Request {
                task,
                files: task_files(alloc, task, found)?,
            })
        }
        None => unreachable!(),
    }
}
