//! The verdicts on the methods of a class.
ghost use Rattle.std.specs.Prelude.{◌≡◌, ◌<◌, length, IfOk, IfErr};
ghost use Rattle.classfile.specs.CodeMethods.{judged_class};
ghost use Rattle.classfile.specs.Views.{class_view};
ghost use Rattle.classfile.specs.declared.profile.Profile.TheVariants.{Default};
ghost use Rattle.hierarchy.specs.Rules.{IsHierarchy};
ghost use Rattle.verify.specs.declared.verdict.VerifyFault.TheVariants.{OutOfMemory};
ghost use Rattle.verify.specs.Listed.{IsListed};
ghost use Rattle.verify.specs.private.pass.ClassTypes.{AreClassTypes};
ghost use Rattle.verify.specs.Reports.{IsReported, IsReport, Reports, ReportsBytes};

use crate::explanation::{Explained, explain_listed};
use crate::final_rules::{FinalRule, final_rule};
use crate::listing::has_summary;
use crate::method::verify_listed;
use crate::pass::ClassTypes;
use crate::verdict::{Verdict, VerifyFault};
use classfile::{FormFault, FormRule, Formed, Place, Profile, decode_under, form_check};
use hierarchy::{Classes, summary_of};
use layout::ReadFault;
use method_frames::MethodFrames;
use names::Text;
use rules::ClassConstants;
use std::alloc::{AllocError, Global};
use thiserror::Error;
use type_numbers::TypeNumbers;

/// A method and the verdict on it.
#[derive(Clone, Copy, Debug)]
pub struct MethodVerdict<'a> {
    /// Its name.
    pub name: Text<'a>,
    /// Its descriptor.
    pub descriptor: Text<'a>,
    /// The verdict on it.
    pub verdict: Verdict<'a>,
}

/// The verdicts on the methods of a class.
#[derive(Debug, Drop)]
pub struct Report<'a> {
    /// The verdict on each method, in the order of the file.
    pub methods: Vec<MethodVerdict<'a>>,
}

/// Why there are no verdicts on the methods of a class.
#[derive(Clone, Copy, Debug, Error)]
pub enum ClassFault {
    /// 1: memory ran out.
    #[error("refused 1")]
    OutOfMemory,
    /// The bytes are no class file: 2, 3, 7, 10 to 14 or 16.
    #[error(transparent)]
    NoClass(ReadFault),
    /// The class file is not well formed: 20 to 30.
    #[error("refused {}", rule.number())]
    Malformed { rule: FormRule, place: Place },
    /// 80: the hierarchy has no class with exactly the summary of this one.
    #[error("refused 80")]
    NotInHierarchy,
    /// 81 or 85: the class breaks a rule on final classes and methods.
    #[error("refused {}", .0.number())]
    Final(FinalRule),
}

impl From<AllocError> for ClassFault {
    ghost use Rattle.verify.specs.declared.report.ClassFault.TheVariants.{OutOfMemory};

    ghost from_gives = { λ _ e. e ≡ OutOfMemory };

    fn from(_error: AllocError) -> ClassFault {
        ClassFault::OutOfMemory
    }
}

/// The verdict on the method of this number; the types and the constants are those of the class.
pub fn report_on<'a, C: Classes>(
    alloc: Global,
    formed: &Formed<'_, 'a>,
    number: usize,
    types: &ClassTypes,
    constants: &mut ClassConstants<'_, '_, 'a, C>,
    frames: &mut MethodFrames<'_, '_, 'a, C>,
) -> Result<MethodVerdict<'a>, VerifyFault>
    requires constants { constants.old.members
        ≡ record { class = formed.now.class.now; classes = frames.old.types.classes } }
    requires types { AreClassTypes frames.old.types (class_view formed.now.class.now) types.now }
    requires number { number < length formed.now.class.now.methods.items }
    requires hierarchy { IsHierarchy frames.old.types.classes }
    requires listed { IsListed frames.old.types.classes (class_view formed.now.class.now) }
    ensures same { constants.new.members ≡ constants.old.members }
    ensures types { frames.new.types ≡ frames.old.types }
    ensures found { IfOk result (IsReported frames.old.types.classes (judged_class formed.now) number) }
    ensures memory { IfErr result (λ e. e ≡ OutOfMemory) }
{
    let class = formed.class();
    let member = &class.methods[number];
    let pool = &class.constant_pool;
    let name = pool.text(member.name).unwrap();
    let descriptor = pool.text(member.descriptor).unwrap();
    match verify_listed(alloc, formed, number, types, constants, frames) {
        Ok(verdict) => Ok(MethodVerdict {
            name,
            descriptor,
            verdict,
        }),
        Err(fault) => Err(fault),
    }
}

/// The verdicts on the methods of a class that the hierarchy has as it is.
pub fn report_listed<'a, C: Classes>(
    alloc: Global,
    formed: &Formed<'_, 'a>,
    numbers: &mut TypeNumbers<'_, 'a, C>,
) -> Result<Report<'a>, VerifyFault>
    requires hierarchy { IsHierarchy numbers.old.classes }
    requires listed { IsListed numbers.old.classes (class_view formed.now.class.now) }
    ensures same { numbers.new.classes ≡ numbers.old.classes }
    ensures found { IfOk result (λ r. IsReport numbers.old.classes (judged_class formed.now) r.methods.items) }
    ensures memory { IfErr result (λ e. e ≡ OutOfMemory) }
{
    match explain_listed(alloc, formed, false, numbers) {
        Ok(Explained { report, .. }) => Ok(report),
        Err(fault) => Err(fault),
    }
}

/// The verdicts on the methods of a class in the hierarchy of these numbers, as [`verify_methods`] gives them. The
/// numbers may have served other classes and may serve more: they keep the places of the classes that were looked up.
pub fn verify_by_numbers<'a, C: Classes>(
    alloc: Global,
    formed: &Formed<'_, 'a>,
    numbers: &mut TypeNumbers<'_, 'a, C>,
) -> Result<Report<'a>, ClassFault>
    ensures same { numbers.new.classes ≡ numbers.old.classes }
    ensures reported { Reports numbers.old.classes (judged_class formed.now) result }
{
    let classes = numbers.classes();
    let summary = summary_of(alloc, formed)?;
    if !has_summary(alloc, &summary, classes)? {
        return Err(ClassFault::NotInHierarchy);
    }
    if let Some(rule) = final_rule(alloc, &summary, classes)? {
        return Err(ClassFault::Final(rule));
    }
    match report_listed(alloc, formed, numbers) {
        Ok(report) => Ok(report),
        Err(_) => Err(ClassFault::OutOfMemory),
    }
}

/// The verdicts on the methods of a class that is well formed, by its profile (see [`Formed::under`]), in a hierarchy
/// and in the order of the file (JVMS 4.10.1), each as [`verify_method`](crate::verify_method) answers it. 80 where the
/// hierarchy does not have this class as it is, which is looked up once; otherwise 81 where the superclass is final
/// there, or 85 where a method overrides a final one; or 1, where memory ran out.
pub fn verify_methods<'a, C: Classes>(
    alloc: Global,
    formed: &Formed<'_, 'a>,
    classes: &C,
) -> Result<Report<'a>, ClassFault>
    ensures { Reports (C.content classes.now) (judged_class formed.now) result }
{
    let mut numbers = TypeNumbers::new(alloc, classes);
    verify_by_numbers(alloc, formed, &mut numbers)
}

/// The verdicts on the methods of the class in these bytes, in a hierarchy (JVMS 4.10.1). The first of these refusals
/// that holds is returned: that of [`classfile::decode`], that of [`form_check`], 80, 81, or 85; or 1, where memory ran
/// out.
pub fn verify_class<'a, C: Classes>(
    alloc: Global,
    bytes: &'a [u8],
    classes: &C,
) -> Result<Report<'a>, ClassFault>
    ensures { ReportsBytes Default (C.content classes.now) bytes.now result }
{
    verify_class_under(alloc, bytes, Profile::Default, classes)
}

/// The verdicts on the methods of the class in these bytes, by a profile, as [`verify_class`] gives them.
pub fn verify_class_under<'a, C: Classes>(
    alloc: Global,
    bytes: &'a [u8],
    profile: Profile,
    classes: &C,
) -> Result<Report<'a>, ClassFault>
    ensures { ReportsBytes profile (C.content classes.now) bytes.now result }
{
    let class = match decode_under(alloc, profile.judged_versions(), bytes) {
        Ok(class) => class,
        Err(ReadFault::OutOfMemory) => return Err(ClassFault::OutOfMemory),
        Err(fault) => return Err(ClassFault::NoClass(fault)),
    };
    match form_check(alloc, &class) {
        Ok(formed) => verify_methods(alloc, &formed.under(profile), classes),
        Err(FormFault::OutOfMemory) => Err(ClassFault::OutOfMemory),
        Err(FormFault::Broken { rule, place }) => Err(ClassFault::Malformed { rule, place }),
    }
}
