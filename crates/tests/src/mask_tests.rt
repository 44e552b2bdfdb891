//! Sets of processors, by calls and as lists.
use crate::same::{same, same_at};
use crate::stated::set_of;
use affinity_mask::{MaskFault, ProcSet};
use std::alloc::Global;
use std::process::Abort;

/// Whether every call that reads a set answers as for these processors, which ascend.
fn has_just(set: &ProcSet, members: &[u8]) -> bool {
    (0..64).all(|p| set.has(p) == members.contains(&p))
        && set.count() as usize == members.len()
        && set.is_empty() == members.is_empty()
        && set.least() == members.first().copied()
}

/// The set has just these processors.
fn expect_just(rt: &impl Abort, set: ProcSet, members: &[u8]) {
    assert!(rt; has_just(&set, members), "{members:?}");
}

/// Sets that one call makes.
fn sets_of_one_call(rt: &impl Abort) {
    expect_just(rt, ProcSet::empty(), &[]);
    expect_just(rt, ProcSet::one(5), &[5]);
    expect_just(rt, ProcSet::first(0), &[]);
    expect_just(rt, ProcSet::first(4), &[0, 1, 2, 3]);
}

/// Sets with a processor more, or without one.
fn one_more_or_less(rt: &impl Abort, spread: ProcSet) {
    expect_just(rt, spread, &[0, 17, 63]);
    expect_just(rt, spread.with(17), &[0, 17, 63]);
    expect_just(rt, spread.without(17), &[0, 63]);
    expect_just(rt, spread.without(18), &[0, 17, 63]);
}

/// What two sets have together, and one of them alone.
fn two_together(rt: &impl Abort, spread: ProcSet, low: ProcSet) {
    expect_just(rt, low.both(&spread), &[0]);
    expect_just(rt, low.either_of(&spread), &[0, 1, 2, 3, 17, 63]);
    expect_just(rt, low.minus(&spread), &[1, 2, 3]);
    expect_just(rt, spread.minus(&low), &[17, 63]);
}

/// The last processors of the first ones.
fn last_two(rt: &impl Abort) {
    let (all, others) = (ProcSet::first(64), ProcSet::first(62));
    expect_just(rt, all.minus(&others), &[62, 63]);
    let (all, others) = (ProcSet::first(63), ProcSet::first(61));
    expect_just(rt, all.minus(&others), &[61, 62]);
}

#[test]
fn sets_by_calls(rt: HostRuntime) {
    let spread = ProcSet::one(63).with(0).with(17);
    sets_of_one_call(&rt);
    one_more_or_less(&rt, spread);
    two_together(&rt, spread, ProcSet::first(4));
    last_two(&rt);
}

/// Two lists, and whether the set of the first is within that of the second.
static WITHIN: [(&str, &str, bool); 6] = [
    ("-", "0-3", true),
    ("3", "0-3", true),
    ("0-3", "0-3", true),
    ("0-3", "3", false),
    ("63", "0-62", false),
    ("63", "0-63", true),
];

#[test]
fn sets_within_sets(rt: HostRuntime) {
    for (inner, outer, want) in &WITHIN {
        let is_within = set_of(&rt, inner).within(&set_of(&rt, outer));
        same_at(&rt, is_within, *want, &(inner, outer));
    }
}

/// Texts, and why each is no processor list.
static FAULTS: [(&str, MaskFault); 33] = [
    ("", MaskFault::Empty),
    ("3-1", MaskFault::Backward { place: 0 }),
    ("64", MaskFault::Large { place: 0 }),
    ("0,,1", MaskFault::BadItem { place: 2 }),
    ("0-1-2", MaskFault::BadItem { place: 0 }),
    ("1,70-65", MaskFault::Backward { place: 2 }),
    (",", MaskFault::BadItem { place: 0 }),
    ("1,", MaskFault::BadItem { place: 2 }),
    (",1", MaskFault::BadItem { place: 0 }),
    ("0-3,8,", MaskFault::BadItem { place: 6 }),
    ("-", MaskFault::BadItem { place: 0 }),
    ("1-", MaskFault::BadItem { place: 0 }),
    ("-1", MaskFault::BadItem { place: 0 }),
    ("5--6", MaskFault::BadItem { place: 0 }),
    ("+5", MaskFault::BadItem { place: 0 }),
    (" 5", MaskFault::BadItem { place: 0 }),
    ("5 ", MaskFault::BadItem { place: 0 }),
    ("0x5", MaskFault::BadItem { place: 0 }),
    ("1;2", MaskFault::BadItem { place: 0 }),
    ("7,a", MaskFault::BadItem { place: 2 }),
    ("12-13,14-", MaskFault::BadItem { place: 6 }),
    ("64,3-1", MaskFault::Large { place: 0 }),
    ("3-1,64", MaskFault::Backward { place: 0 }),
    ("5,3-1,x", MaskFault::Backward { place: 2 }),
    ("0-64", MaskFault::Large { place: 0 }),
    ("64-64", MaskFault::Large { place: 0 }),
    ("63-64", MaskFault::Large { place: 0 }),
    ("10,11,12-164", MaskFault::Large { place: 6 }),
    ("99999999999999999999-1", MaskFault::Backward { place: 0 }),
    ("1-99999999999999999999", MaskFault::Large { place: 0 }),
    (
        "99999999999999999999999-99999999999999999999998",
        MaskFault::Backward { place: 0 },
    ),
    (
        "99999999999999999999998-99999999999999999999999",
        MaskFault::Large { place: 0 },
    ),
    (
        "0000000000000000000002-1,18446744073709551616",
        MaskFault::Backward { place: 0 },
    ),
];

#[test]
fn texts_of_no_list(rt: HostRuntime) {
    for (text, fault) in &FAULTS {
        same_at(&rt, ProcSet::read_list(text.as_bytes()), Err(*fault), text);
    }
}

/// The list of the set is appended to this text, which is this one then, and read back.
fn expect_list(rt: &impl Abort, alloc: Global, before: &[u8], set: ProcSet, list: &[u8]) {
    let mut text = Vec::from_slice(alloc, before).expect(rt, "memory");
    assert!(rt; set.write_list(&mut text).is_ok());
    let written = text.get(before.len()..).unwrap_or(b"");
    same(rt, written, list);
    assert!(rt; set.is_list(list) && !set.is_list(b"0,0"));
}

#[test]
fn lists_are_appended(rt: HostRuntime) {
    expect_list(&rt, rt.alloc(), b"mask ", ProcSet::empty(), b"");
    let set = ProcSet::first(64).without(9);
    expect_list(&rt, rt.alloc(), b"mask ", set, b"0-8,10-63");
}
