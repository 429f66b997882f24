//! One message: its reply, and the classes that are known then.
ghost use Rattle.std.specs.Prelude.{◌≡◌, List, [], IfOk};
ghost use Rattle.hierarchy.specs.Summary.{fact_of};
ghost use Rattle.verify.specs.Each.{with_class};
ghost use Rattle.answers.specs.Files.{input_view};
ghost use Rattle.serving.specs.KnownClasses.{KnownClass};
ghost use Rattle.serving.specs.Steps.{Introduces, Judges, Defines, JudgesAndDefines, StepsBy};
ghost use Rattle.serving.specs.Messages.{reply_view};
ghost use Rattle.serving.specs.private.Stepping.{Knows, Leads};

use crate::file::read_file;
use crate::known::{KnownFault, admitted, kept, known_summary};
use crate::lines::{KnownLine, RefusedLine, TwiceLine};
use crate::message::{Kind, Message};
use crate::reply::Reply;
use crate::setting::Setting;
use answers::{AnswerFault, Manner, answer_beside};
use bumpalo::Bump;
use classfile::{CutShort, Profile};
use hierarchy::Summary;
use printing::{Print, WriteFailed};
use std::alloc::{AllocError, Global};
use std::hash::BuildHasher;
use verify::{FileFault, KnownSummaries};

/// A reply, and the classes that are known then.
#[derive(Drop)]
pub struct Outcome<'a> {
    pub reply: Reply,
    pub known: KnownSummaries<'a>,
}

/// The reply of this status whose text is this line.
fn line_reply<T: Print>(alloc: Global, status: u8, line: &T) -> Result<Reply, AllocError>
    ensures { IfOk result (λ r. reply_view r ≡ record { status = status; text = T.text line.now }) }
{
    let mut text = Vec::new(alloc);
    match line.put(&mut text) {
        Ok(()) => Ok(Reply { status, text }),
        Err(WriteFailed) => Err(AllocError),
    }
}

/// One class more is known: its summary is kept in the arena.
pub fn with_kept<'a>(
    alloc: Global,
    bump: &'a Bump,
    known: KnownSummaries<'a>,
    class: &Summary<'_>,
) -> Result<KnownSummaries<'a>, AllocError>
    ensures { IfOk result (λ k. k ≡ with_class known.entry (fact_of class.now)) }
{
    let class = kept(alloc, bump, class)?;
    known.with(class)
}

/// The answer to `k`.
fn introduce<'a>(
    alloc: Global,
    bump: &'a Bump,
    setting: Setting,
    known: KnownSummaries<'a>,
    read: &Result<Vec<u8>, CutShort>,
) -> Result<Outcome<'a>, AllocError>
    ensures { (ks : List KnownClass) → Knows setting.profile ks known.entry
        → IfOk result (Leads setting.profile (Introduces setting ks (input_view read.now))) }
{
    let form = setting.form;
    match admitted(alloc, setting.profile, &known, read) {
        Ok(class) => {
            let (name, superclass) = (class.name, class.superclass);
            let line = KnownLine {
                form,
                name,
                superclass,
            };
            let reply = line_reply(alloc, 0, &line)?;
            let known = with_kept(alloc, bump, known, &class)?;
            Ok(Outcome { reply, known })
        }
        Err(KnownFault::Refused(fault)) => {
            let reply = line_reply(alloc, 1, &RefusedLine { form, fault })?;
            Ok(Outcome { reply, known })
        }
        Err(KnownFault::Twice) => {
            let reply = line_reply(alloc, 1, &TwiceLine(form))?;
            Ok(Outcome { reply, known })
        }
        Err(KnownFault::OutOfMemory) => Err(AllocError),
    }
}

/// The text and the status of `verify` or `explain` about the class in a file and the known classes of other names that
/// stand where it is in front of them.
fn judge<S: BuildHasher + Drop>(
    alloc: Global,
    manner: Manner,
    profile: Profile,
    known: &KnownSummaries<'_>,
    read: &Result<Vec<u8>, CutShort>,
    hasher: S,
) -> Result<Reply, AllocError>
    ensures { (ks : List KnownClass) → Knows profile ks known.now
        → IfOk result (λ r. Judges manner profile ks (input_view read.now) (reply_view r)) }
{
    let mut text = Vec::new(alloc);
    match answer_beside(alloc, manner, profile, read, known, hasher, &mut text) {
        Ok(status) => Ok(Reply { status, text }),
        Err(AnswerFault::OutOfMemory | AnswerFault::WriteFailed) => Err(AllocError),
    }
}

/// The classes that are known once the class in a file is defined.
fn defined<'a>(
    alloc: Global,
    bump: &'a Bump,
    profile: Profile,
    known: KnownSummaries<'a>,
    read: &Result<Vec<u8>, CutShort>,
) -> Result<KnownSummaries<'a>, AllocError>
    ensures { (ks : List KnownClass) → Knows profile ks known.entry
        → IfOk result (λ k. (new : List KnownClass) × Defines profile ks (input_view read.now) new
        × Knows profile new k) }
{
    match known_summary(alloc, profile, read) {
        Ok(class) => {
            let others = known.without(alloc, class.name)?;
            with_kept(alloc, bump, others, &class)
        }
        Err(FileFault::OutOfMemory) => Err(AllocError),
        Err(_) => Ok(known),
    }
}

/// The answer to `d`.
fn define<'a, S: BuildHasher + Drop>(
    alloc: Global,
    bump: &'a Bump,
    setting: Setting,
    known: KnownSummaries<'a>,
    read: &Result<Vec<u8>, CutShort>,
    hasher: S,
) -> Result<Outcome<'a>, AllocError>
    ensures { (ks : List KnownClass) → Knows setting.profile ks known.entry
        → IfOk result (Leads setting.profile (JudgesAndDefines setting ks (input_view read.now))) }
{
    let profile = setting.profile;
    let manner = Manner::Told(setting.form);
    let known = known.settled(alloc)?;
    let reply = judge(alloc, manner, profile, &known, read, hasher)?;
    if reply.status != 0 {
        return Ok(Outcome { reply, known });
    }
    let known = defined(alloc, bump, profile, known, read)?;
    Ok(Outcome { reply, known })
}

/// The answer to `v` or to `x`.
fn verdicts<'a, S: BuildHasher + Drop>(
    alloc: Global,
    manner: Manner,
    profile: Profile,
    known: KnownSummaries<'a>,
    read: &Result<Vec<u8>, CutShort>,
    hasher: S,
) -> Result<Outcome<'a>, AllocError>
    ensures { (ks : List KnownClass) → Knows profile ks known.entry
        → IfOk result (Leads profile (λ reply new. Judges manner profile ks (input_view read.now) reply × (new ≡ ks))) }
{
    let known = known.settled(alloc)?;
    let reply = judge(alloc, manner, profile, &known, read, hasher)?;
    Ok(Outcome { reply, known })
}

/// Forgets all known classes.
fn forget<'a>(alloc: Global) -> Outcome<'a>
    ensures reply { reply_view result.reply ≡ record { status = 0; text = [] } }
    ensures none { result.known ≡ [] }
{
    let reply = Reply {
        status: 0,
        text: Vec::new(alloc),
    };
    let known = KnownSummaries::new(alloc);
    Outcome { reply, known }
}

/// The reply to a message, and the classes that are known then. The only refusal: memory ran out.
pub fn answer<'a, S: BuildHasher + Drop>(
    alloc: Global,
    bump: &'a Bump,
    setting: Setting,
    known: KnownSummaries<'a>,
    message: &Message,
    hasher: S,
) -> Result<Outcome<'a>, AllocError>
    ensures { (ks : List KnownClass) → Knows setting.profile ks known.entry
        → IfOk result (Leads setting.profile (StepsBy setting message.now.kind message.now.bytes.items ks)) }
{
    let Setting { form, profile } = setting;
    match message.kind {
        Kind::Forget => Ok(forget(alloc)),
        Kind::Known => {
            let read = read_file(alloc, &message.bytes)?;
            introduce(alloc, bump, setting, known, &read)
        }
        Kind::Define => {
            let read = read_file(alloc, &message.bytes)?;
            define(alloc, bump, setting, known, &read, hasher)
        }
        Kind::Verify => {
            let read = read_file(alloc, &message.bytes)?;
            verdicts(alloc, Manner::Told(form), profile, known, &read, hasher)
        }
        Kind::Explain => {
            let read = read_file(alloc, &message.bytes)?;
            let manner = Manner::Explained(form);
            verdicts(alloc, manner, profile, known, &read, hasher)
        }
    }
}
