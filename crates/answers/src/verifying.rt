//! The commands `verify` and `explain`: the verdicts on the methods of a class.
ghost use Rattle.std.specs.Prelude.{◌≡◌, Err, IfOk, IfErr, length};
ghost use Rattle.classfile.specs.Values.{Class};
ghost use Rattle.classfile.specs.Views.{class_view};
ghost use Rattle.classfile.specs.declared.profile.Profile.{Profile as ProfileFact};
ghost use Rattle.verify.specs.Files.{IsDecoded, IsFormed};
ghost use Rattle.verify.specs.Among.{ReportsAmong};
ghost use Rattle.answers.specs.Files.{file_view, files_view, read_view, reads_of, refusal_status, CountsKnown};
ghost use Rattle.answers.specs.Answers.{Answered};
ghost use Rattle.answers.specs.Verdicts.{VerifySays, class_object, class_refusal, known_object, known_refusal, file_object, final_told, IsExplained, IsExplainedObject, IsTold, report_status, explained};
ghost use Rattle.answers.specs.declared.fault.AnswerFault.TheVariants.{OutOfMemory};
ghost use Rattle.answers.specs.Explanations.{explanations};
ghost use Rattle.answers.specs.declared.manner.Manner.TheVariants as manners;

use crate::command::Form;
use crate::explaining::Explanations;
use crate::fault::AnswerFault;
use crate::manner::Manner;
use crate::reads::{InputFile, InputFiles, file_reads};
use crate::refusal::Refusal;
use crate::refusing::{FinalTold, HierarchyTold};
use crate::sentences::{FileSentence, FileSentenceFields};
use crate::telling::tell;
use crate::verdicts::{ClassRefusal, FileObject, FinalRefusal, KnownRefusal, ReportText};
use classfile::{ClassFile, Profile, decode_under, fault_part, one_class};
use printing::{
    AttributeFields, AttributeLine, END, FilePartFields, FilePartLines, PartFields, PartLines,
    Print, Then, Word,
};
use std::alloc::Global;
use std::hash::BuildHasher;
use std::io::Write;
use verify::{
    AmongFault, Explained, FileFault, FinalRule, class_file, explain_among_under,
    verify_among_under,
};

/// The class file in a file; 1 where memory runs out. The file is known to be a class file.
fn file_class<'a>(alloc: Global, file: InputFile<'a>) -> Result<ClassFile<'a>, AnswerFault>
    ensures class { IfOk result (λ c. IsDecoded (read_view file.entry) (class_view c)) }
    ensures memory { IfErr result (λ e. e ≡ OutOfMemory) }
{
    match file.read {
        Ok(bytes) => match decode_under(alloc, file.versions, bytes) {
            Ok(class) => Ok(class),
            Err(_) => Err(AnswerFault::OutOfMemory),
        },
        Err(_) => Err(AnswerFault::OutOfMemory),
    }
}

/// Writes the line of a file that is refused, and explains the refusal.
fn explain_file<T: Print + Copy, W: Write>(
    alloc: Global,
    line: T,
    file: InputFile<'_>,
    fault: FileFault,
    out: &mut W,
) -> Result<u8, AnswerFault>
    ensures { Answered (λ t s. IsExplained (file_view file.entry) fault (T.text line) t × (s ≡ refusal_status fault))
        (W.contents out.old) (W.contents out.new) result }
{
    let versions = file.versions;
    let sentence = FileSentence { fault, versions };
    match fault {
        FileFault::Malformed { rule, place } => match file_class(alloc, file) {
            Ok(class) => {
                let class = &class;
                let attribute = AttributeLine { class, rule, place };
                let part = Then(PartLines { class, place }, attribute);
                tell(&Then(line, Then(sentence, part)), 1, out)
            }
            Err(fault) => Err(fault),
        },
        FileFault::Unread(why) | FileFault::NoClass(why) => {
            let part = FilePartLines(fault_part(file.held(), why));
            let text = Then(line, Then(sentence, part));
            tell(&text, Refusal(fault).status(), out)
        }
        FileFault::OutOfMemory => tell(&Then(line, Then(sentence, Word(""))), 1, out),
    }
}

/// Writes the object of a file that is refused, and explains the refusal.
fn explain_object<W: Write>(
    alloc: Global,
    position: Option<usize>,
    file: InputFile<'_>,
    fault: FileFault,
    out: &mut W,
) -> Result<u8, AnswerFault>
    ensures { Answered (λ t s. IsExplainedObject (file_view file.entry) fault (file_object position fault) t
        × (s ≡ refusal_status fault)) (W.contents out.old) (W.contents out.new) result }
{
    let versions = file.versions;
    match fault {
        FileFault::Malformed { rule, place } => match file_class(alloc, file) {
            Ok(class) => {
                let behind = AttributeFields {
                    class: &class,
                    rule,
                    place,
                    behind: END,
                };
                let part = PartFields {
                    class: &class,
                    place,
                    behind,
                };
                let behind = FileSentenceFields(FileSentence { fault, versions }, part);
                let text = FileObject {
                    position,
                    fault,
                    behind,
                };
                tell(&text, 1, out)
            }
            Err(fault) => Err(fault),
        },
        FileFault::Unread(why) | FileFault::NoClass(why) => {
            let part = FilePartFields(fault_part(file.held(), why), END);
            let behind = FileSentenceFields(FileSentence { fault, versions }, part);
            let text = FileObject {
                position,
                fault,
                behind,
            };
            tell(&text, Refusal(fault).status(), out)
        }
        FileFault::OutOfMemory => {
            let behind = FileSentenceFields(FileSentence { fault, versions }, END);
            let text = FileObject {
                position,
                fault,
                behind,
            };
            tell(&text, 1, out)
        }
    }
}

/// Writes why the class that is to be verified is refused.
pub fn refuse_class<W: Write>(
    alloc: Global,
    manner: Manner,
    file: InputFile<'_>,
    fault: FileFault,
    out: &mut W,
) -> Result<u8, AnswerFault>
    ensures { Answered (λ t s. IsTold manner (file_view file.entry) fault (λ form. class_refusal form fault)
        (class_object fault) t × (s ≡ refusal_status fault)) (W.contents out.old) (W.contents out.new) result }
{
    let refusal = Refusal(fault);
    match manner {
        Manner::Told(form) => tell(&ClassRefusal { form, refusal }, refusal.status(), out),
        Manner::Explained(form) => match form {
            Form::Plain => explain_file(alloc, ClassRefusal { form, refusal }, file, fault, out),
            Form::Json => explain_object(alloc, None, file, fault, out),
        },
    }
}

/// Writes why the known class of this number is refused.
fn refuse_known<W: Write>(
    alloc: Global,
    manner: Manner,
    number: usize,
    file: InputFile<'_>,
    fault: FileFault,
    out: &mut W,
) -> Result<u8, AnswerFault>
    ensures { Answered (λ t s. IsTold manner (file_view file.entry) fault (λ form. known_refusal form number fault)
        (known_object number fault) t × (s ≡ refusal_status fault)) (W.contents out.old) (W.contents out.new) result }
{
    let refusal = Refusal(fault);
    match manner {
        Manner::Told(form) => {
            let line = KnownRefusal {
                form,
                number,
                refusal,
            };
            tell(&line, refusal.status(), out)
        }
        Manner::Explained(form) => match form {
            Form::Plain => {
                let line = KnownRefusal {
                    form,
                    number,
                    refusal,
                };
                explain_file(alloc, line, file, fault, out)
            }
            Form::Json => explain_object(alloc, Some(number), file, fault, out),
        },
    }
}

/// Writes which rule on final classes and methods the class in a file breaks.
pub fn refuse_final<W: Write>(
    alloc: Global,
    manner: Manner,
    file: InputFile<'_>,
    rule: FinalRule,
    out: &mut W,
) -> Result<u8, AnswerFault>
    ensures { (c : Class) → IsFormed (read_view file.entry) c
        → Answered (λ t s. (t ≡ final_told manner c rule) × (s ≡ 1)) (W.contents out.old) (W.contents out.new)
        result }
{
    one_class();
    if let Manner::Told(form) = manner {
        return tell(&FinalRefusal { form, rule }, 1, out);
    }
    match class_file(alloc, file.as_read()) {
        Ok(class) => {
            let class = &class;
            let text = FinalTold {
                manner,
                class,
                rule,
            };
            tell(&text, 1, out)
        }
        // The file is a well-formed class, so only memory can have run out.
        Err(_) => Err(AnswerFault::OutOfMemory),
    }
}

/// Writes why there are no verdicts on the class in the first file, or which known file is refused.
fn refuse<W: Write>(
    alloc: Global,
    manner: Manner,
    file: InputFile<'_>,
    known: InputFiles<'_>,
    fault: AmongFault<'_>,
    out: &mut W,
) -> Result<u8, AnswerFault>
    requires { CountsKnown fault (length known.reads.now) }
    ensures { (profile : ProfileFact)
        → ReportsAmong profile (read_view file.entry) (reads_of (files_view known.entry)) (Err fault.entry)
        → Answered (VerifySays manner profile (file_view file.entry) (files_view known.entry)) (W.contents out.old)
        (W.contents out.new) result }
{
    match fault {
        AmongFault::OutOfMemory => Err(AnswerFault::OutOfMemory),
        AmongFault::Refused(fault) => refuse_class(alloc, manner, file, fault, out),
        AmongFault::KnownRefused { number, fault } => {
            let file = known.file(number - 1);
            refuse_known(alloc, manner, number, file, fault, out)
        }
        AmongFault::NoHierarchy(fault) => tell(&HierarchyTold { manner, fault }, 1, out),
        AmongFault::Final(rule) => refuse_final(alloc, manner, file, rule, out),
    }
}

/// Writes the explanations of the methods of a class, by its file.
pub fn explain<'a, W: Write>(
    alloc: Global,
    form: Form,
    file: InputFile<'a>,
    found: &Explained<'a>,
    out: &mut W,
) -> Result<u8, AnswerFault>
    ensures { (c : Class) → IsFormed (read_view file.entry) c → let rs = found.now.report.methods.items in
        Answered (λ t s. (t ≡ explanations (explained form c.constant_pool) c.methods rs found.now.frames.items)
        × (s ≡ report_status rs)) (W.contents out.old) (W.contents out.new) result }
{
    one_class();
    match class_file(alloc, file.as_read()) {
        Ok(class) => {
            let methods = &found.report.methods;
            let explanations = Explanations {
                form,
                pool: &class.constant_pool,
                members: &class.methods,
                methods,
                frames: &found.frames,
            };
            tell(&explanations, ReportText { form, methods }.status(), out)
        }
        // The file is a well-formed class, so only memory can have run out.
        Err(_) => Err(AnswerFault::OutOfMemory),
    }
}

/// Answers `verify` in a form, by a profile: about the class in a file, among the known classes in the others.
fn tell_verdicts<'a, S: BuildHasher + Drop, W: Write>(
    alloc: Global,
    form: Form,
    profile: Profile,
    file: InputFile<'a>,
    known: InputFiles<'a>,
    hasher: S,
    out: &mut W,
) -> Result<u8, AnswerFault>
    ensures { Answered (VerifySays (manners.Told form) profile (file_view file.entry) (files_view known.entry))
        (W.contents out.old) (W.contents out.new) result }
{
    let files = match file_reads(alloc, known) {
        Ok(files) => files,
        Err(fault) => return Err(fault),
    };
    match verify_among_under(alloc, profile, file.as_read(), &files, hasher) {
        Ok(found) => {
            let methods = &found.methods;
            let text = ReportText { form, methods };
            tell(&text, text.status(), out)
        }
        Err(fault) => refuse(alloc, Manner::Told(form), file, known, fault, out),
    }
}

/// Answers `explain`, as [`tell_verdicts`] answers `verify`.
fn explain_verdicts<'a, S: BuildHasher + Drop, W: Write>(
    alloc: Global,
    form: Form,
    profile: Profile,
    file: InputFile<'a>,
    known: InputFiles<'a>,
    hasher: S,
    out: &mut W,
) -> Result<u8, AnswerFault>
    ensures { Answered (VerifySays (manners.Explained form) profile (file_view file.entry) (files_view known.entry))
        (W.contents out.old) (W.contents out.new) result }
{
    let files = match file_reads(alloc, known) {
        Ok(files) => files,
        Err(fault) => return Err(fault),
    };
    match explain_among_under(alloc, profile, file.as_read(), &files, hasher) {
        Ok(found) => explain(alloc, form, file, &found, out),
        Err(fault) => refuse(alloc, Manner::Explained(form), file, known, fault, out),
    }
}

/// Answers `verify` or `explain`, by a profile: about the class in a file, among the known classes in the others.
pub fn verify<'a, S: BuildHasher + Drop, W: Write>(
    alloc: Global,
    manner: Manner,
    profile: Profile,
    file: InputFile<'a>,
    known: InputFiles<'a>,
    hasher: S,
    out: &mut W,
) -> Result<u8, AnswerFault>
    ensures { Answered (VerifySays manner profile (file_view file.entry) (files_view known.entry)) (W.contents out.old)
        (W.contents out.new) result }
{
    match manner {
        Manner::Told(form) => tell_verdicts(alloc, form, profile, file, known, hasher, out),
        Manner::Explained(form) => {
            explain_verdicts(alloc, form, profile, file, known, hasher, out)
        }
    }
}
