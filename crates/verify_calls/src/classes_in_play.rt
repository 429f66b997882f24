//! Reports on classes in play that no program shows.
use classfile::{ClassFile, Formed, decode, form_check};
use format_calls::making::K;
use hierarchy::{Rows, summary_of};
use lower_calls::making::{hasher, object};
use std::alloc::Global;
use std::test::*;
use verify::{
    PlayFault, PlayRule, class_run_breadth, heap_run_breadth, playable_methods_are_safe,
    verified_is_playable, verified_is_playable_with_heap, verify_play,
};

#[test]
fn theorem_and_law_are_called() {
    verified_is_playable();
    verified_is_playable_with_heap();
    class_run_breadth();
    heap_run_breadth();
    playable_methods_are_safe();
}

/// How many reports there are on these classes, where there is `java/lang/Object`, and the class if it is known.
fn reports_on(
    alloc: Global,
    play: &[Formed<'_, '_>],
    class: &Formed<'_, '_>,
    is_known: bool,
) -> Result<usize, PlayFault> {
    let Ok(own) = summary_of(alloc, class) else {
        return Err(PlayFault::OutOfMemory);
    };
    let list = [object(alloc), own];
    let many = if is_known { 2 } else { 1 };
    let Ok(classes) = Rows::new(alloc, &list[..many], hasher()) else {
        return Err(PlayFault::OutOfMemory);
    };
    match verify_play(alloc, play, &classes) {
        Ok(reports) => Ok(reports.len()),
        Err(fault) => Err(fault),
    }
}

/// The reports on a class in play so many times, at most twice.
fn reports_on_class(
    alloc: Global,
    class: &ClassFile<'_>,
    times: usize,
    is_known: bool,
) -> Result<usize, PlayFault> {
    let Ok(first) = form_check(alloc, class) else {
        return Err(PlayFault::OutOfMemory);
    };
    let Ok(one) = form_check(alloc, class) else {
        return Err(PlayFault::OutOfMemory);
    };
    let Ok(another) = form_check(alloc, class) else {
        return Err(PlayFault::OutOfMemory);
    };
    let play = [one, another];
    reports_on(alloc, &play[..times.min(2)], &first, is_known)
}

/// The reports on the class that these bytes are, in play so many times.
fn reports(alloc: Global, bytes: &[u8], times: usize, is_known: bool) -> Result<usize, PlayFault> {
    match decode(alloc, bytes) {
        Ok(class) => reports_on_class(alloc, &class, times, is_known),
        Err(_) => Err(PlayFault::OutOfMemory),
    }
}

#[test]
fn classes_in_play(rt: HostRuntime) {
    let alloc = rt.alloc();
    assert!(rt; reports(alloc, &K, 0, true) == Ok(0));
    assert!(rt; reports(alloc, &K, 1, true) == Ok(1));
    let mut broken = K;
    broken[90] = 0;
    let refused = PlayFault::NotAllVerified {
        class: 0,
        method: 0,
    };
    assert!(rt; reports(alloc, &broken, 1, true) == Err(refused));
    assert!(rt; refused.number() == 84);
    let twice = PlayFault::Broken {
        class: 1,
        rule: PlayRule::ClassInPlayTwice,
    };
    assert!(rt; reports(alloc, &K, 2, true) == Err(twice));
    assert!(rt; twice.number() == 83);
    let unlisted = PlayFault::Broken {
        class: 0,
        rule: PlayRule::NotInHierarchy,
    };
    assert!(rt; reports(alloc, &K, 1, false) == Err(unlisted));
    assert!(rt; unlisted.number() == 80);
    assert!(rt; PlayFault::OutOfMemory.number() == 1);
}

/// Where memory runs out there are no reports, and otherwise all.
#[test]
fn memory_runs_out_for_classes_in_play(rt: HostRuntime) {
    assert!(rt;
        matches!(
            reports(rt.alloc(), &K, 1, true),
            Ok(1) | Err(PlayFault::OutOfMemory)
        )
    );
}
