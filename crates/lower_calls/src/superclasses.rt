use crate::making::{hasher, object, setting, summary};
use classfile::{ClassFile, decode, form_check};
use format_calls::making::K;
use hierarchy::{
    Answer, Chains, Classes, HierarchyFault, Kind, MemberSummary, Overriding, Summary, laws,
    name_of, summary_of, twice_as_far,
};
use names::OBJECT;
use std::alloc::Global;
use std::test::*;

#[test]
fn laws_are_called() {
    laws::keeps_subclasses();
    laws::extends_itself();
    laws::chains_are_steps();
    laws::has_one_depth();
    laws::is_below_by_depth();
    laws::has_one_subclass_answer();
    laws::rules_make_hierarchies();
    laws::faults_break_rules();
    laws::one_hierarchy_fault();
    laws::summary_has_texts();
    laws::nearest_is_computed();
}

fn finds<C: Classes>(classes: &C) -> bool {
    classes.find(b"A").is_some()
        && classes.find(b"B").is_none()
        && matches!(classes.is_interface(b"I"), Some(true))
        && classes.is_interface(b"B").is_none()
}

fn compares<C: Classes>(classes: &C) -> bool {
    matches!(classes.is_subclass(b"C", OBJECT), Answer::Yes)
        && matches!(classes.is_subclass(b"A", b"C"), Answer::No)
        && matches!(classes.is_subclass(b"B", b"B"), Answer::Yes)
        && matches!(classes.is_subclass(b"B", b"A"), Answer::Missing(name) if name == b"B".as_slice())
}

fn is_hierarchy(alloc: Global) -> bool {
    let list = setting(alloc);
    match Chains::new(alloc, &list, hasher()) {
        Ok(classes) => finds(&classes) && compares(&classes),
        Err(_) => false,
    }
}

#[test]
fn answers(rt: HostRuntime) {
    assert!(rt; is_hierarchy(rt.alloc()));
    assert!(rt; matches!(Answer::yes_if(true), Answer::Yes));
    assert!(rt; matches!(Answer::yes_if(false), Answer::No));
}

/// Whether a table that leads one step on leads two steps on then; or memory ran out.
fn leads_twice_as_far(alloc: Global) -> bool {
    match twice_as_far(alloc, &[Some(1), Some(2), None, Some(0)]) {
        Ok(table) => table.as_slice() == [Some(2), None, None, Some(1)].as_slice(),
        Err(_) => false,
    }
}

#[test]
fn steps_are_doubled(rt: HostRuntime) {
    assert!(rt; leads_twice_as_far(rt.alloc()));
}

/// Why a list is refused, or none.
fn refusal<'a>(alloc: Global, classes: &[Summary<'a>]) -> Option<HierarchyFault<'a>> {
    Chains::new(alloc, classes, hasher()).err()
}

/// Whether an interface below another class than `java/lang/Object`, which is not a class file, is refused for that.
fn is_refused(alloc: Global) -> bool {
    let list = [
        object(alloc),
        summary(alloc, b"A", Some(OBJECT), false),
        summary(alloc, b"I", Some(b"A"), true),
    ];
    let expected = HierarchyFault::InterfaceSuper { name: b"I" };
    refusal(alloc, &list) == Some(expected) && expected.number() == 46
}

/// No program shows a list without classes, or that.
#[test]
fn refusals(rt: HostRuntime) {
    assert!(rt; matches!(refusal(rt.alloc(), &[]), Some(HierarchyFault::NoObject)));
    assert!(rt; is_refused(rt.alloc()));
}

/// A list of some classes is refused 1 where memory runs out, and taken otherwise.
#[test]
fn want_of_memory(rt: HostRuntime) {
    let list = setting(rt.alloc());
    assert!(rt;
        matches!(
            refusal(rt.alloc(), &list),
            None | Some(HierarchyFault::OutOfMemory)
        )
    );
}

/// Whether the text at a place is this one.
fn is_text(texts: &[&[u8]], place: usize, text: &[u8]) -> bool {
    place < texts.len() && texts[place] == text
}

fn is_member_of_k(texts: &[&[u8]], member: MemberSummary) -> bool {
    is_text(texts, member.places.name, b"f")
        && is_text(texts, member.places.descriptor, b"()V")
        && matches!(member.places.kind, Kind::Method)
        && member.is_static
        && !member.is_protected
        && matches!(member.overriding, Overriding::Apart)
}

fn is_summary_of_k(summary: &Summary<'_>) -> bool {
    summary.name == b"K".as_slice()
        && matches!(summary.superclass, Some(name) if name == OBJECT)
        && !summary.interface
        && !summary.is_final
        && matches!(summary.members.as_slice(), [member] if is_member_of_k(&summary.texts, *member))
}

/// Whether the summary of the class file is that of K, or none where memory runs out.
fn is_summary_or<'a>(alloc: Global, class: &ClassFile<'a>, or_none: bool) -> bool {
    match form_check(alloc, class) {
        Ok(formed) => match summary_of(alloc, &formed) {
            Ok(summary) => is_summary_of_k(&summary) && name_of(&formed) == summary.name,
            Err(_) => or_none,
        },
        Err(fault) => or_none && fault.number() == 1,
    }
}

/// Whether the summary of the class file K is right, or none where memory runs out.
fn has_summary_or(alloc: Global, or_none: bool) -> bool {
    match decode(alloc, &K) {
        Ok(class) => is_summary_or(alloc, &class, or_none),
        Err(_) => or_none,
    }
}

#[test]
fn a_summary(rt: HostRuntime) {
    assert!(rt; has_summary_or(rt.alloc(), false));
}

/// Where memory runs out there is no summary, and otherwise the whole one.
#[test]
fn memory_runs_out_for_a_summary(rt: HostRuntime) {
    assert!(rt; has_summary_or(rt.alloc(), true));
}
