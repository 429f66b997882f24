//! The summary of a class file.
ghost use Rattle.std.specs.Prelude.{◌≡◌, ◌++◌, List, map, option_map, IfOk, OnOk};
ghost use Rattle.classfile.specs.Views.{class_view, member_view};
ghost use Rattle.hierarchy.specs.Class.{MemberFact};
ghost use Rattle.hierarchy.specs.ClassSummary.{class_name_of, superclass_name, overriding_by, overriding_of, member_summary, member_summaries, summary_of};
ghost use Rattle.hierarchy.specs.Summary.{fact_of};
ghost use Rattle.hierarchy.specs.Texts.{AreTexts, kept_texts};
ghost use Rattle.hierarchy.specs.private.Summarising.{AreSummarised, Summarises};

use crate::summary::{Kind, MemberPlaces, MemberSummary, Overriding, Summary};
use crate::texts::Texts;
use classfile::flags::{FINAL, INTERFACE, PRIVATE, PROTECTED, PUBLIC, STATIC, has};
use classfile::{Formed, Member};
use pool::Pool;
use std::alloc::{AllocError, Global};

fn class_name_of<'a>(pool: &Pool<'a>, index: u16) -> &'a [u8]
    ensures { result.now ≡ class_name_of pool.now index }
{
    match pool.class_name(index) {
        Ok(name) => name.bytes(),
        Err(_) => &[],
    }
}

fn superclass_name<'a>(pool: &Pool<'a>, index: u16) -> Option<&'a [u8]>
    ensures { option_map (λ n. n.now) result ≡ superclass_name pool.now index }
{
    if index == 0 {
        None
    } else {
        Some(class_name_of(pool, index))
    }
}

/// The part of a method with these flags in overriding.
fn overriding_by(flags: u16) -> Overriding
    ensures { result ≡ overriding_by flags }
{
    if has(flags, STATIC) || has(flags, PRIVATE) {
        Overriding::Apart
    } else if has(flags, FINAL) {
        if has(flags, PUBLIC) || has(flags, PROTECTED) {
            Overriding::Final
        } else {
            Overriding::FinalInPackage
        }
    } else {
        Overriding::Open
    }
}

/// Whether the class of members was read by a release, and their kind.
#[derive(Clone, Copy)]
struct Origin {
    // Whether their class was read by a release.
    release: bool,
    kind: Kind,
}

impl Origin {
    /// The part of a member with these flags in overriding.
    fn overriding(self, flags: u16) -> Overriding
        ensures { result ≡ overriding_of self.release self.kind flags }
    {
        match (self.release, self.kind) {
            (false, _) | (true, Kind::Field) => Overriding::Apart,
            (true, Kind::Method) => overriding_by(flags),
        }
    }
}

fn member_summary<'a>(
    pool: &Pool<'a>,
    texts: &mut Texts<'a>,
    origin: Origin,
    member: &Member<'_>,
) -> Result<MemberSummary, AllocError>
    requires { AreTexts pool.now texts.old }
    ensures { IfOk result (Summarises pool.now texts.old texts.new
        (member_summary origin.release pool.now origin.kind (member_view member.now))) }
{
    let name = texts.place(pool, member.name)?;
    let descriptor = texts.place(pool, member.descriptor)?;
    Ok(MemberSummary {
        places: MemberPlaces {
            kind: origin.kind,
            name,
            descriptor,
        },
        is_static: has(member.access_flags, STATIC),
        is_protected: has(member.access_flags, PROTECTED),
        overriding: origin.overriding(member.access_flags),
    })
}

fn summarise<'a>(
    pool: &Pool<'a>,
    texts: &mut Texts<'a>,
    origin: Origin,
    members: &[Member<'_>],
    out: &mut Vec<MemberSummary>,
) -> Result<(), AllocError>
    requires { AreTexts pool.now texts.old }
    ensures good { OnOk result (AreTexts pool.now texts.new) }
    ensures summaries { OnOk result ((facts : List MemberFact)
        → AreSummarised (kept_texts texts.old) out.old.items facts
        → AreSummarised (kept_texts texts.new) out.new.items
        (facts ++ member_summaries origin.release pool.now origin.kind (map member_view members.now))) }
{
    for member in members {
        out.push(member_summary(pool, texts, origin, member)?)?;
    }
    Ok(())
}

/// The name of a class.
pub fn name_of<'a>(formed: &Formed<'_, 'a>) -> &'a [u8]
    ensures { result.now ≡ (summary_of (class_view formed.now.class.now)).name }
{
    let class = formed.class();
    class_name_of(&class.constant_pool, class.this_class)
}

/// The summary of a class: its name, that of its superclass, whether it is an interface and final, and its fields and
/// then its methods in the order of the file (JVMS 4.1, 4.5, 4.6). Of a class that was read by a release, and of no
/// other, it says which methods are final. All texts are parts of the bytes of the class. It fails only if memory runs
/// out.
pub fn summary_of<'a>(alloc: Global, formed: &Formed<'_, 'a>) -> Result<Summary<'a>, AllocError>
    ensures { IfOk result (λ s. fact_of s ≡ summary_of (class_view formed.now.class.now)) }
{
    let class = formed.class();
    let pool = &class.constant_pool;
    let count = class.fields.len() + class.methods.len();
    let mut texts = Texts::with_room(alloc, count.saturating_mul(2))?;
    let mut members = Vec::with_capacity(alloc, count)?;
    let release = class.release;
    let fields = Origin {
        release,
        kind: Kind::Field,
    };
    let methods = Origin {
        release,
        kind: Kind::Method,
    };
    summarise(pool, &mut texts, fields, &class.fields, &mut members)?;
    summarise(pool, &mut texts, methods, &class.methods, &mut members)?;
    Ok(Summary {
        name: name_of(formed),
        superclass: superclass_name(pool, class.super_class),
        interface: has(class.access_flags, INTERFACE),
        is_final: has(class.access_flags, FINAL),
        texts: texts.list,
        members,
    })
}
