//! What no clause says: that an index can be had and grows, and what stands where a growth is refused.
use number_index::*;
use std::alloc::Global;
use std::process::Abort;
use std::test::Fail;
use tatp_rows::{Number, Refusal};

/// The number of this value.
fn number(value: u64) -> Result<Number, Fail> {
    Ok(Number::try_new(value).ok().ok_or("the number is in range")?)
}

/// Adds the pairs (10 * s_id, s_id) of so many subscribers: refused memory, at the second try, with the index as
/// before.
fn add_all(rt: &impl Abort, index: &mut NumberIndex, count: u32) -> Result<(), Fail> {
    for s_id in 0..count {
        let own = number(u64::from(s_id).wrapping_mul(10))?;
        if index.add(own, s_id) == Err(Refusal::Memory) {
            expect_all_pairs(rt, index, u64::from(s_id));
            assert_eq!(rt; index.find(own), None);
            assert_eq!(rt; index.add(own, s_id), Ok(()));
        }
    }
    Ok(())
}

/// Asserts that an index has the pairs of so many subscribers and no others.
fn expect_all_pairs(rt: &impl Abort, index: &NumberIndex, count: u64) {
    assert_eq!(rt; (index.len(), end_of_pages(index, 0)), (count, Some(count)));
}

/// Gives a number's subscriber another one, in an index of so many such pairs: refused memory, at the second try, with
/// the index as before.
fn rename(rt: &impl Abort, index: &mut NumberIndex, from: Number, to: Number, count: u64) {
    let mut renamed = index.rename(from, to);
    if renamed == Err(Refusal::Memory) {
        expect_all_pairs(rt, index, count);
        renamed = index.rename(from, to);
    }
    assert_eq!(rt; renamed, Ok(()));
}

/// Asserts what 608 such pairs answer, and that the number of one is changed.
fn expect_pairs(rt: &impl Abort, index: &mut NumberIndex) -> Result<(), Fail> {
    let (ten, twenty, free) = (number(10)?, number(20)?, number(999_999_999_999_999)?);
    assert_eq!(rt; index.len(), 608);
    assert_eq!(rt; index.find(twenty), Some(2));
    assert_eq!(rt; index.find(free), None);
    assert_eq!(rt; index.first_from(11), Some((twenty, 2)));
    assert_eq!(rt; index.first_from(6_071), None);
    assert_eq!(rt; index.add(twenty, 7), Err(Refusal::NumberTaken));
    assert_eq!(rt; index.rename(free, ten), Err(Refusal::NoNumber));
    assert_eq!(rt; index.rename(ten, twenty), Err(Refusal::NumberTaken));
    assert_eq!(rt; index.rename(ten, ten), Ok(()));
    assert_eq!(rt; index.find(ten), Some(1));
    rename(rt, index, ten, free, 608);
    assert_eq!(rt; index.find(ten), None);
    assert_eq!(rt; index.find(free), Some(1));
    assert_eq!(rt; index.first_from(10), Some((twenty, 2)));
    assert_eq!(rt; index.remove(free), Some(1));
    assert_eq!(rt; index.remove(free), None);
    assert_eq!(rt; index.len(), 607);
    Ok(())
}

/// A size that nothing else asks for: where `refuse_memory.sh` refuses all memory, it does so from a piece of it on.
const SIGNAL: usize = 7_654_321;

/// Whether all memory is refused from here on. One refused piece alone doesn't tell.
fn is_all_refused(alloc: Global) -> bool {
    Vec::<u8>::with_capacity(alloc, SIGNAL).is_err()
        && Vec::<u8>::with_capacity(alloc, SIGNAL).is_err()
}

/// Asserts that the pairs of such an index are taken out again, from the third on.
fn expect_removed(rt: &impl Abort, index: &mut NumberIndex) -> Result<(), Fail> {
    let mut are_right = true;
    for s_id in 2..608u32 {
        let own = number(u64::from(s_id).wrapping_mul(10))?;
        are_right &= index.find(own) == Some(s_id) && index.remove(own) == Some(s_id);
    }
    assert_eq!(rt; (are_right, index.len()), (true, 1));
    Ok(())
}

/// Asserts that a pair which wants nodes is put into an index of 32 unless all memory is refused.
fn expect_added(rt: &impl Abort, full: &mut NumberIndex, is_refused: bool) -> Result<(), Fail> {
    let more = number(320)?;
    if is_refused {
        assert_eq!(rt; full.add(more, 32), Err(Refusal::Memory));
        assert_eq!(rt; full.rename(number(310)?, more), Err(Refusal::Memory));
        expect_all_pairs(rt, full, 32);
    } else {
        add_all(rt, full, 33)?;
        expect_all_pairs(rt, full, 33);
    }
    Ok(())
}

/// Asserts all this of an index, and of one of 32 pairs.
fn expect_numbers(
    rt: &impl Abort,
    alloc: Global,
    index: &mut NumberIndex,
    full: &mut NumberIndex,
) -> Result<(), Fail> {
    add_all(rt, full, 32)?;
    add_all(rt, index, 608)?;
    expect_pairs(rt, index)?;
    let is_refused = is_all_refused(alloc);
    expect_removed(rt, index)?;
    expect_added(rt, full, is_refused)
}

// Also run with each allocation refused in turn, and with all refused once the pairs stand (`refuse_memory.sh`): the
// pairs split leaves under a root, a root grows to height 2, and the last leaf is full, so that the new number splits
// it.
#[test]
fn numbers_each_and_all_refused_2(rt: HostRuntime) -> Result<(), Fail> {
    let mut index = NumberIndex::new(rt.alloc()).expect(&rt, "an index");
    let mut full = NumberIndex::new(rt.alloc()).expect(&rt, "an index");
    expect_numbers(&rt, rt.alloc(), &mut index, &mut full)
}

/// Numbers that pages are asked from: of pairs, between two, of the last one of 32 and of 608, behind these, and behind
/// all.
const STARTS: [u64; 12] = [
    0,
    1,
    10,
    155,
    310,
    311,
    320,
    325,
    6_069,
    6_070,
    6_071,
    u64::MAX,
];

/// Whether a page has the pairs (10 * s_id, s_id) of subscribers that follow one another.
fn has_pairs_from(page: &Page, first: u64) -> bool {
    let mut wanted = first;
    for (number, s_id) in page.iter() {
        if u64::from(*s_id) != wanted || *number != wanted.wrapping_mul(10) {
            return false;
        }
        wanted = wanted.wrapping_add(1);
    }
    true
}

/// The subscriber behind the last one whom pages from a number on show, each page from behind the one before, until one
/// is empty. None where they aren't the pairs of one subscriber after another, or don't end.
fn end_of_pages(index: &NumberIndex, number: u64) -> Option<u64> {
    let mut page = Page::new();
    let mut from = number;
    let mut next = number.div_ceil(10);
    for _ in 0..=index.len() {
        index.page_from(from, &mut page);
        let Some(last) = page.last() else {
            return Some(next);
        };
        from = last.0.wrapping_add(1);
        if !has_pairs_from(&page, next) {
            return None;
        }
        next = next.wrapping_add(page.len() as u64);
    }
    None
}

/// Asserts that pages show all of so many such pairs, from whichever number on.
fn expect_pages(rt: &impl Abort, index: &NumberIndex, count: u64) {
    assert_eq!(rt; index.len(), count);
    for number in STARTS {
        let end = count.max(number.div_ceil(10));
        assert_eq!(rt; end_of_pages(index, number), Some(end), "from {number}");
    }
}

/// Asserts the same of an index of so many pairs.
fn expect_pages_of(rt: &(impl Abort + AllocGlobal), count: u32) -> Result<(), Fail> {
    let mut index = NumberIndex::new(rt.alloc())?;
    let added = add_all(rt, &mut index, count);
    expect_pages(rt, &index, u64::from(count));
    added
}

// No pair, one page, one that is full, two, and pages of leaves under two levels.
#[test]
fn pages(rt: HostRuntime) -> Result<(), Fail> {
    for count in [0, 1, 32, 33, 608] {
        expect_pages_of(&rt, count)?;
    }
    Ok(())
}
