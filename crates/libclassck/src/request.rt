//! Requests: a command, and what goes with it.
ghost use Rattle.std.specs.Prelude.{◌↔◌, IsTrue, IfSome, IfNone};
ghost use Rattle.answers.specs.declared.command.Command.{Command};
ghost use Rattle.answers.specs.declared.command.Form.{Form as FormFact};
ghost use Rattle.classfile.specs.declared.profile.Profile.{Profile as ProfileFact};
ghost use Rattle.libclassck.specs.Requests.{Asks, HaveOptions, Names, MayJudge};

use answers::{Command, Form};
use classfile::Profile;

/// A command, and what goes with it.
#[repr(C)]
#[derive(Clone, Copy)]
pub struct Request {
    /// The command: 1 `check`, 2 `show`, 3 `verify`, 4 `explain`, 5 `play`, 6 `verify-each`.
    pub command: u32,
    /// The sum of the options that are given, of those that the command has: 1 `--json`; and 2 `--dynamic`, or 256 times
    /// N for `--release N`.
    pub options: u32,
    /// How many files are to be judged, from the first on: 1 for `check`, `show`, `verify` and `explain`, all for
    /// `play`. The others are known classes.
    pub classes: usize,
    /// Any number. The answer does not depend on it. Where it is not known to whoever makes the files, these cannot be
    /// made to slow the look-up of names.
    pub seed: u64,
}

/// The form and the profile that a sum of options stands for.
fn options_of(options: u32) -> Option<(Form, Profile)>
    ensures some { IfSome result (λ x. HaveOptions options x.0 x.1) }
    ensures none { IfNone result ((form : FormFact) (profile : ProfileFact) → HaveOptions options form profile → ⊥) }
{
    let form = if options % 2 == 1 {
        Form::Json
    } else {
        Form::Plain
    };
    match (options / 2 % 128, options / 256) {
        (0, 0) => Some((form, Profile::Default)),
        (1, 0) => Some((form, Profile::Dynamic)),
        (0, number) if 7 <= number && number <= 27 => Some((form, Profile::Release(number as u8))),
        _ => None,
    }
}

/// The command of this number with these options, if there is one.
fn named(request: &Request, form: Form, profile: Profile) -> Option<Command>
    requires { HaveOptions request.now.options form profile }
    ensures some { IfSome result (λ command. Names request.now command) }
    ensures none { IfNone result ((command : Command) → Names request.now command → ⊥) }
{
    match (request.command, form, profile) {
        (1, form, Profile::Default | Profile::Release(_)) => Some(Command::Check(form, profile)),
        (2, Form::Plain, Profile::Default | Profile::Release(_)) => Some(Command::Show(profile)),
        (3, form, profile) => Some(Command::Verify(form, profile)),
        (4, form, profile) => Some(Command::Explain(form, profile)),
        (5, form, profile) => Some(Command::Play(form, profile)),
        (6, form, profile) => Some(Command::VerifyEach {
            form,
            profile,
            classes: request.classes,
        }),
        _ => None,
    }
}

/// Whether a command may judge so many files of so many.
fn may_judge(command: Command, classes: usize, count: usize) -> bool
    ensures { IsTrue result ↔ MayJudge command classes count }
{
    match command {
        Command::Check(_, _) | Command::Show(_) => classes == 1 && count == 1,
        Command::Verify(_, _) | Command::Explain(_, _) => classes == 1 && 1 <= count,
        Command::Play(..) => classes == count && 1 <= count,
        Command::VerifyEach { .. } => 1 <= classes && classes <= count,
    }
}

/// The command that is asked for about so many files, if there is one.
pub fn command_of(request: &Request, count: usize) -> Option<Command>
    ensures some { IfSome result (λ command. Asks request.now count command) }
    ensures none { IfNone result ((command : Command) → Asks request.now count command → ⊥) }
{
    let (form, profile) = options_of(request.options)?;
    let command = named(request, form, profile)?;
    if may_judge(command, request.classes, count) {
        Some(command)
    } else {
        None
    }
}
