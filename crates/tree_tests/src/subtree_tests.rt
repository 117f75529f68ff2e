//! What no clause says: that insertions succeed and what each call answers then, for values of several sizes, and what
//! stands where a growth is refused.
ghost use Rattle.std.specs.Prelude.{◌+◌, ◌%◌, ◌^◌, ◌<◌, ◌≤◌, length};
ghost use Rattle.mr_node.specs.Rows.{key_limit};

use arrayvec::ArrayVec;
use mr_node::Revise;
use mr_subtree::*;
use std::alloc::Global;
use std::process::Abort;
use tatp_rows::Refusal;

// A value of some size that tells the number of which it was made.
trait Told {
    fn of(number: u32) -> Self;

    fn number(&self) -> u32;
}

impl Told for u32 {
    fn of(number: u32) -> u32 {
        number
    }

    fn number(&self) -> u32 {
        *self
    }
}

impl Told for u64 {
    fn of(number: u32) -> u64 {
        u64::from(number)
    }

    fn number(&self) -> u32 {
        (*self % 4_294_967_296) as u32
    }
}

impl Told for [u64; 3] {
    fn of(number: u32) -> [u64; 3] {
        [7, u64::from(number), 9]
    }

    fn number(&self) -> u32 {
        (self[1] % 4_294_967_296) as u32
    }
}

// A value that is neither Copy nor Clone.
#[derive(Default, Drop)]
struct Token(u32);

impl Told for Token {
    fn of(number: u32) -> Token {
        Token(number)
    }

    fn number(&self) -> u32 {
        self.0
    }
}

// What an insertion answers, with the number of the value that comes back.
fn added<V: Told + Drop + Default>(
    tree: &mut SubTree<V>,
    key: u64,
    number: u32,
) -> Option<(Refusal, u32)>
    requires { key < key_limit }
{
    match tree.insert(key, V::of(number)) {
        Ok(()) => None,
        Err(back) => Some((back.why, back.item.number())),
    }
}

// What a replacement answers, in numbers.
fn replaced<V: Told + Drop + Default>(
    tree: &mut SubTree<V>,
    key: u64,
    number: u32,
) -> Result<u32, u32> {
    match tree.replace(key, V::of(number)) {
        Ok(old) => Ok(old.number()),
        Err(value) => Err(value.number()),
    }
}

// What a removal answers, in numbers.
fn removed<V: Told + Drop + Default>(tree: &mut SubTree<V>, key: u64) -> Option<u32> {
    let value = tree.remove(key)?;
    Some(value.number())
}

// What a look at a key answers, in numbers.
fn found<V: Told>(tree: &SubTree<V>, key: u64) -> Option<u32> {
    let value = tree.get(key)?;
    Some(value.number())
}

// The key of the first row from a key on, and its value's number.
fn first<V: Told>(tree: &SubTree<V>, from: u64) -> Option<(u64, u32)> {
    let (key, value) = tree.first_from(from)?;
    Some((key, value.number()))
}

// The sum of all keys and numbers.
fn sum_of<V: Told>(tree: &SubTree<V>) -> u64 {
    tree.fold(
        0u64,
        &|sum, key, value| sum
            .wrapping_add(key)
            .wrapping_add(u64::from(value.number())),
    )
}

// The same sum, by a walk.
fn walked_sum<V: Told>(tree: &SubTree<V>) -> u64 {
    let mut sum = 0u64;
    tree.walk(
        &mut sum,
        &|sum, key, value| *sum = sum
            .wrapping_add(key)
            .wrapping_add(u64::from(value.number())),
    );
    sum
}

// Each call once, on a tree without rows.
fn call_each(rt: &impl Abort, tree: &mut SubTree<Token>) {
    let insertions = [added(tree, 7, 1), added(tree, 7, 2)];
    let got = found(tree, 7);
    let replacements = [replaced(tree, 7, 3), replaced(tree, 8, 4)];
    let sums = (sum_of(tree), walked_sum(tree));
    let seen = (first(tree, 6), sums, tree.len(), tree.height());
    let gone = (removed(tree, 7), tree.len());
    assert_eq!(rt;
        ((insertions, got, replacements), seen, gone),
        (
            ([None, Some((Refusal::Exists, 2))], Some(1), [Ok(1), Err(4)]),
            (Some((7, 3)), (10, 10), 1, 0),
            (Some(3), 0)
        )
    );
}

#[test]
fn answers(rt: HostRuntime) {
    let mut tree = SubTree::new(rt.alloc()).expect(&rt, "a tree");
    call_each(&rt, &mut tree);
}

// Puts a row in whose key is the number of rows; where memory was refused, at the second try, with all as before.
fn put(rt: &impl Abort, tree: &mut SubTree<u64>, number: u32)
    requires { number < 940 }
{
    let key = u64::from(number);
    let before = (tree.height(), walked_sum(tree));
    let back = added(tree, key, number);
    if back.is_some() {
        assert_eq!(rt;
            (back, tree.len(), found(tree, key)),
            (Some((Refusal::Memory, number)), key, None)
        );
        assert_eq!(rt; (tree.height(), walked_sum(tree)), before);
        assert!(rt; added(tree, key, number).is_none());
    }
}

// Leaves give and are halved under a root, and the root rises from height 0 to 1 and from 1 to 2. Each leaf is left
// with 29 rows, so the root has 32 children at 30 * 29 + 33 rows, and rises at the next row whose leaf is full, the
// 919th.
fn grow(rt: &impl Abort, tree: &mut SubTree<u64>) {
    for number in 0..918u32 {
        put(rt, tree, number);
    }
    assert_eq!(rt; tree.height(), 1);
    for number in 918..940u32 {
        put(rt, tree, number);
    }
    assert_eq!(rt;
        [sum_of(tree), tree.len(), tree.height()],
        [882_660, 940, 2]
    );
}

// Nodes become one again, and the root falls from height 2 to 0.
fn fall(rt: &impl Abort, tree: &mut SubTree<u64>) {
    let mut gone = true;
    for back in 0..940u32 {
        let number = 939 - back;
        gone &= removed(tree, u64::from(number)) == Some(number);
    }
    assert_eq!(rt; (gone, tree.len(), tree.height()), (true, 0, 0));
}

// A size that nothing else asks for: where `refuse_memory.sh` refuses all memory, it does so from a piece of it on.
const SIGNAL: usize = 7_654_321;

// Whether all memory is refused from here on. One refused piece alone doesn't tell.
fn is_all_refused(alloc: Global) -> bool {
    Vec::<u8>::with_capacity(alloc, SIGNAL).is_err()
        && Vec::<u8>::with_capacity(alloc, SIGNAL).is_err()
}

// Rows are replaced and removed; a row that wants nodes goes into a full root unless all memory is refused.
fn change_without_memory(rt: &impl Abort, tree: &mut SubTree<u64>, full: &mut SubTree<u64>) {
    let is_refused = is_all_refused(full.alloc());
    let mut replaced_all = true;
    for number in 0..940u32 {
        replaced_all &= replaced(tree, u64::from(number), number) == Ok(number);
    }
    assert_eq!(rt; (replaced_all, replaced(tree, 940, 7)), (true, Err(7)));
    fall(rt, tree);
    if is_refused {
        assert_eq!(rt; added(full, 32, 32), Some((Refusal::Memory, 32)));
    } else {
        put(rt, full, 32);
    }
}

// Also run with each allocation refused in turn, and with all refused once the trees stand (`refuse_memory.sh`).
#[test]
fn rows_each_and_all_refused_1(rt: HostRuntime) {
    let mut tree = SubTree::new(rt.alloc()).expect(&rt, "a tree");
    let mut full = SubTree::new(rt.alloc()).expect(&rt, "a tree");
    grow(&rt, &mut tree);
    for number in 0..32u32 {
        put(&rt, &mut full, number);
    }
    change_without_memory(&rt, &mut tree, &mut full);
}

// Rows at both ends of the keys, and between them.
fn fill_ends(rt: &impl Abort, tree: &mut SubTree<u64>, last: u64)
    requires { last < key_limit }
{
    let mut done = added(tree, 0, 1).is_none() && added(tree, last, 2).is_none();
    for number in 1..100u32 {
        done &= added(tree, u64::from(number) * 1000, number).is_none();
    }
    assert!(rt; done);
}

// Keys at both ends, and looks for keys that no row may have.
fn reach_ends(rt: &impl Abort, tree: &mut SubTree<u64>) {
    let last = u64::MAX - 2;
    fill_ends(rt, tree, last);
    let got = [
        found(tree, 0),
        found(tree, last),
        found(tree, last + 1),
        found(tree, u64::MAX),
    ];
    let firsts = [
        first(tree, 99_001),
        first(tree, last + 1),
        first(tree, u64::MAX),
    ];
    let missed = replaced(tree, u64::MAX, 3);
    let gone = [
        removed(tree, u64::MAX),
        removed(tree, last),
        removed(tree, 0),
    ];
    assert_eq!(rt;
        ((got, firsts), (missed, gone), (tree.len(), first(tree, 0))),
        (
            (
                [Some(1), Some(2), None, None],
                [Some((last, 2)), None, None]
            ),
            (Err(3), [None, Some(2), Some(1)]),
            (99, Some((1000, 1)))
        )
    );
}

#[test]
fn ends(rt: HostRuntime) {
    let mut tree = SubTree::new(rt.alloc()).expect(&rt, "a tree");
    reach_ends(&rt, &mut tree);
}

// How far the keys of a drawn tree stand apart: 2,000 of them reach over the greater part of all keys.
const APART: u64 = 9_000_000_000_000_000;

// A number drawn by a turn (splitmix).
fn drawn(turn: u64) -> u64 {
    let start = turn.wrapping_mul(0x9E3779B97F4A7C15);
    let first = (start ^ (start >> 30)).wrapping_mul(0xBF58476D1CE4E5B9);
    let second = (first ^ (first >> 27)).wrapping_mul(0x94D049BB133111EB);
    second ^ (second >> 31)
}

// An insertion into a tree where the plain table has this number, and what the table has then.
fn insert<V: Told + Drop + Default>(
    rt: &impl Abort,
    tree: &mut SubTree<V>,
    key: u64,
    was: u32,
    number: u32,
) -> u32
    requires { key < key_limit }
{
    let back = added(tree, key, number);
    if was > 0 {
        assert!(rt; back == Some((Refusal::Exists, number)));
        was
    } else {
        assert!(rt; back.is_none());
        number
    }
}

// The same of a replacement.
fn replace<V: Told + Drop + Default>(
    rt: &impl Abort,
    tree: &mut SubTree<V>,
    key: u64,
    was: u32,
    number: u32,
) -> u32 {
    let (answer, now) = if was > 0 {
        (Ok(was), number)
    } else {
        (Err(number), 0)
    };
    assert!(rt; replaced(tree, key, number) == answer);
    now
}

// One drawn change of a tree and of a plain table of numbers, where 0 is none: they have to answer alike.
fn change<V: Told + Drop + Default>(
    rt: &impl Abort,
    tree: &mut SubTree<V>,
    table: &mut [u32; 2000],
    turn: u64,
) {
    let word = drawn(turn);
    let place = (word % 2000) as usize;
    let key = (place as u64) * APART;
    let number = 1 + (word >> 40) as u32;
    let was = table[place];
    let insertions = if turn % 8_000 < 4_000 { 6 } else { 2 };
    let kind = (word >> 20) % 8;
    table[place] = if kind < insertions {
        insert(rt, tree, key, was, number)
    } else if kind == 6 {
        replace(rt, tree, key, was, number)
    } else {
        assert!(rt; removed(tree, key).unwrap_or(0) == was);
        0
    };
}

// The rows of a tree are those of the table: each by its key, and the first from each key on.
fn compare<V: Told + Drop>(rt: &impl Abort, tree: &SubTree<V>, table: &[u32; 2000]) {
    let mut count = 0u64;
    let mut wanted = None;
    let mut same = true;
    for back in 0..2000usize {
        let place = 1999 - back;
        let key = (place as u64) * APART;
        if table[place] > 0 {
            wanted = Some((key, table[place]));
            count = count.wrapping_add(1);
        }
        same &= found(tree, key).unwrap_or(0) == table[place];
        same &= first(tree, key) == wanted;
    }
    assert_eq!(rt; (same, tree.len()), (true, count));
}

fn change_all<V: Told + Drop + Default>(rt: &impl Abort, tree: &mut SubTree<V>) {
    let mut table = [0; 2000];
    for turn in 0..20_000u64 {
        change(rt, tree, &mut table, turn);
    }
    compare(rt, tree, &table);
}

#[test]
fn drawn_changes(rt: HostRuntime) {
    let mut tree = SubTree::<u32>::new(rt.alloc()).expect(&rt, "a tree");
    change_all(&rt, &mut tree);
}

#[test]
fn drawn_changes_of_wide_values(rt: HostRuntime) {
    let mut tree = SubTree::<[u64; 3]>::new(rt.alloc()).expect(&rt, "a tree");
    change_all(&rt, &mut tree);
}

// Puts the keys 1 to 10,000 in, each a step behind the one before it round a circle of 10,007, which is a prime.
fn put_round(rt: &impl Abort, tree: &mut SubTree<u32>, step: u64)
    requires { step < 10_007 }
{
    let mut done = true;
    for turn in 1..10_007u64 {
        let key = turn * step % 10_007;
        if key <= 10_000 {
            done &= added(tree, key, key as u32).is_none();
        }
    }
    assert!(rt; done);
}

// The rows of a tree are these keys in order; from 16 to 32 of a node's 32 places are used, so the height is 2.
fn compare_round(rt: &impl Abort, tree: &SubTree<u32>) {
    let mut same = true;
    for key in 1..10_001u64 {
        same &= first(tree, key) == Some((key, key as u32));
    }
    assert_eq!(rt;
        (
            same,
            first(tree, 0),
            first(tree, 10_001),
            tree.len(),
            tree.height()
        ),
        (true, Some((1, 1)), None, 10_000, 2)
    );
}

#[test]
fn many_keys_in_two_orders(rt: HostRuntime) {
    for step in [1u64, 6_180] {
        let mut tree = SubTree::new(rt.alloc()).expect(&rt, "a tree");
        put_round(&rt, &mut tree, step);
        compare_round(&rt, &tree);
    }
}

// Puts the keys 1 to `last` in, upwards or downwards, and tells whether each went in.
fn put_keys(tree: &mut SubTree<u32>, last: u32, down: bool) -> bool {
    let mut done = true;
    for turn in 0..last {
        let key = if down { last - turn } else { turn + 1 };
        done &= added(tree, u64::from(key), key).is_none();
    }
    done
}

// 32 keys stand in a leaf. One more makes a root of two leaves, which are one again without two of the keys.
fn compare_heights(rt: &impl Abort, tree: &mut SubTree<u32>) {
    let leaf = (put_keys(tree, 32, false), tree.height());
    let grown = (added(tree, 33, 33), tree.height());
    let gone = (removed(tree, 5), removed(tree, 6), tree.height());
    assert_eq!(rt;
        (leaf, grown, gone),
        ((true, 0), (None, 1), (Some(5), Some(6), 0))
    );
}

#[test]
fn heights(rt: HostRuntime) {
    let mut tree = SubTree::new(rt.alloc()).expect(&rt, "a tree");
    compare_heights(&rt, &mut tree);
}

// 1,025 keys are one more than two levels hold.
#[test]
fn heights_of_two_orders(rt: HostRuntime) {
    for down in [false, true] {
        let mut tree = SubTree::new(rt.alloc()).expect(&rt, "a tree");
        let done = put_keys(&mut tree, 1025, down);
        assert_eq!(rt; (done, tree.len(), tree.height()), (true, 1025, 2));
    }
}

// What a look at keys side by side answers.
fn many(tree: &SubTree<u32>, keys: &[u64]) -> ArrayVec<Option<u32>, 16>
    requires { length keys.now ≤ 16 }
{
    let mut found = ArrayVec::new();
    tree.copy_many(keys, &mut found);
    found
}

// Keys that are there and keys that aren't, at both ends and between, in a tree of height 2; and no keys.
#[test]
fn looks_side_by_side(rt: HostRuntime) {
    let mut tree = SubTree::new(rt.alloc()).expect(&rt, "a tree");
    let done = put_keys(&mut tree, 1025, false);
    let found = many(&tree, &[1025, 0, 1, 500, 1026, u64::MAX]);
    let wanted = [Some(1025), None, Some(1), Some(500), None, None];
    let same = found.as_slice() == wanted.as_slice();
    let empty = many(&tree, &[]);
    assert_eq!(rt; (done, same, empty.len()), (true, true, 0));
}

// Trees that are looked into by guess: the first key, how far the keys are apart as a power of two, what a key is drawn
// from behind its place, and how many of eight rows go again.
const TREES: [(u64, u32, u64, u64); 6] = [
    (0, 0, 1, 0),
    (0, 0, 1, 3),
    (65_536, 16, 1, 0),
    (65_536, 16, 1, 5),
    (18_446_744_073_709_549_614, 0, 1, 2),
    (77, 52, 4_503_599_627_370_496, 2),
];

// The key with this number in such a tree.
fn key_in(tree: &(u64, u32, u64, u64), number: u32) -> u64
    ensures { result < key_limit }
{
    let turn = u64::from(number);
    let place = tree.0.wrapping_add(turn.wrapping_shl(tree.1));
    let behind = drawn(turn).checked_rem(tree.2).unwrap_or(0);
    place.wrapping_add(behind).min(u64::MAX - 2)
}

// Such a tree of 2,000 rows in rising order, of which drawn ones go again.
fn drill(tree: &mut SubTree<u32>, kind: &(u64, u32, u64, u64)) -> bool {
    let mut done = true;
    for number in 0..2000u32 {
        done &= added(tree, key_in(kind, number), number).is_none();
    }
    for number in 0..2000u32 {
        if drawn(u64::from(number)) % 8 < kind.3 {
            done &= removed(tree, key_in(kind, number)) == Some(number);
        }
    }
    done
}

// What a look by guess answers, in numbers.
fn guessed(tree: &SubTree<u32>, key: u64, shift: u32) -> Option<u32> {
    let value = tree.get_by_guess(key, shift)?;
    Some(value.number())
}

// Whether looks at a key by guesses answer as the one without.
fn is_alike(tree: &SubTree<u32>, key: u64) -> bool {
    let plain = found(tree, key);
    [0, 16, 52, 64]
        .iter()
        .all(|shift| guessed(tree, key, *shift) == plain)
}

// How many rows are there by the keys of such a tree; None where looks at a key or beside it aren't alike.
fn count_alike(tree: &SubTree<u32>, kind: &(u64, u32, u64, u64)) -> Option<u64> {
    let mut count = 0u64;
    for number in 0..2000u32 {
        let key = key_in(kind, number);
        if !is_alike(tree, key.wrapping_sub(1))
            || !is_alike(tree, key)
            || !is_alike(tree, key + 1)
        {
            return None;
        }
        count = count.wrapping_add(u64::from(found(tree, key).is_some()));
    }
    Some(count)
}

// Adds to a value.
#[derive(Drop)]
struct Raise {
    by: u32,
}

impl Revise<u32> for Raise {
    ghost revised = { λ raise value. (value + raise.by) % 2 ^ 32 };

    ghost spent = { λ raise value. raise };

    fn revise(&mut self, value: &mut u32) {
        *value = value.wrapping_add(self.by);
    }
}

// Raises each value of such a tree by guess, and tells how many there were.
fn raise_all(tree: &mut SubTree<u32>, kind: &(u64, u32, u64, u64)) -> u64 {
    let mut count = 0u64;
    for number in 0..2000u32 {
        let mut raise = Raise { by: 1 };
        let is_raised = tree.revise_by_guess(key_in(kind, number), kind.1, &mut raise);
        count = count.wrapping_add(u64::from(is_raised));
    }
    count
}

// Looks and changes by guess do what those without do, in dense trees, in sparse ones, with holes, and at both ends.
fn compare_guesses(rt: &impl Abort, tree: &mut SubTree<u32>, kind: &(u64, u32, u64, u64)) {
    let done = drill(tree, kind);
    let (rows, sum) = (tree.len(), sum_of(tree));
    let ends = is_alike(tree, 0) && is_alike(tree, u64::MAX - 1) && is_alike(tree, u64::MAX);
    let counts = (
        count_alike(tree, kind),
        raise_all(tree, kind),
        sum_of(tree).wrapping_sub(sum),
    );
    assert_eq!(rt;
        (done, ends, counts),
        (true, true, (Some(rows), rows, rows))
    );
}

#[test]
fn guesses(rt: HostRuntime) {
    for kind in &TREES {
        let mut tree = SubTree::new(rt.alloc()).expect(&rt, "a tree");
        compare_guesses(&rt, &mut tree, kind);
    }
}
