//! The rows of a tree of groups, page by page, and at several keys at once.
ghost use Rattle.std.specs.Prelude.{◌≡◌, ◌+◌, ◌*◌, ◌≤◌, ◌++◌, [], length, map, None, IfSome};
ghost use Rattle.std.specs.List.{AllByRecursion};
ghost use Rattle.tatp_rows.specs.Spans.{keys_from};
ghost use Rattle.mr_node.specs.Pages.{IsPage};
ghost use Rattle.mr_node.specs.Rows.{key_of_pair, value_at};
ghost use Rattle.group_tree.specs.Groups.{AreGroups, AreGroupsAt, base_of, rows_of};

use crate::group::{Group, Row};
use crate::tree::GroupTree;
use arrayvec::ArrayVec;
use mr_subtree::SubTree;

/// Returns the keys of the groups to which keys belong.
fn bases<R: Row, G: Group<R>>(keys: &[u64]) -> ArrayVec<u64, 16>
    requires { length keys.now ≤ 16 }
    ensures { result.items ≡ map (base_of G.span) keys.now }
{
    let mut bases = ArrayVec::new();
    for place in 0..keys.len() {
        bases.push(G::base(keys[place]));
    }
    bases
}

/// Returns the row at a key of the key's group, or `None` if there is no group, or no row in it.
fn find_in<R: Row, G: Group<R>>(group: &Option<G>, key: u64) -> Option<R>
    requires { IfSome group.now (λ group. G.Holds (base_of G.span key) group) }
    ensures none { group.now ≡ None → result ≡ None }
    ensures some { IfSome group.now (λ group. result ≡ value_at key (G.listed (base_of G.span key) group)) }
{
    match group {
        Some(group) => group.find(key),
        None => None,
    }
}

/// Appends the rows of a group that lies at a key, from another key on, to a page that has room for four.
fn push_from<R: Row, G: Group<R>>(
    group: &G,
    base: u64,
    key: u64,
    page: &mut ArrayVec<(u64, R), 132>,
)
    requires rules { G.Holds base group.now }
    requires room { length page.old.items ≤ 128 }
    ensures { page.new.items ≡ page.old.items ++ keys_from key_of_pair key (G.listed base group.now) }
{
    for place in 0..4_u8 {
        if let Some(pair) = group.row_in(base, place) {
            if key <= pair.0 {
                page.push(pair);
            }
        }
    }
}

/// Appends the rows of groups to a page that has room for four of each.
fn push_groups<R: Row, G: Group<R>>(page: &mut ArrayVec<(u64, R), 132>, groups: &[(u64, G)])
    requires room { length page.old.items + 4 * length groups.now ≤ 132 }
    requires groups { AllByRecursion (λ p. G.Holds p.0 p.1) groups.now }
    ensures { page.new.items ≡ page.old.items ++ rows_of G.listed groups.now }
{
    for place in 0..groups.len() {
        let pair = &groups[place];
        push_from(&pair.1, pair.0, 0, page);
    }
}

/// Puts the rows of a key's group, from the key on, into an empty page. It returns a key; the groups from it on hold
/// the rows that follow.
fn start_page<R: Row, G: Group<R>>(
    groups: &SubTree<G>,
    key: u64,
    page: &mut ArrayVec<(u64, R), 132>,
) -> u64
    requires groups { AreGroups G.listed G.Holds groups.now.rows }
    requires empty { page.old.items ≡ [] }
    ensures few { length page.new.items ≤ 4 }
    ensures front { keys_from key_of_pair key (rows_of G.listed groups.now.rows) ≡ page.new.items ++ rows_of G.listed (keys_from key_of_pair result groups.now.rows) }
{
    let base = G::base(key);
    let Some(group) = groups.get(base) else {
        return key;
    };
    push_from(group, base, key, page);
    key + 1
}

impl<R: Row, G: Group<R>> GroupTree<R, G> {
    /// Puts the next rows, from a key on, into an empty page: those of the key's group, and those of as many groups
    /// behind it as one leaf has. It puts at least one if there is one. `groups` is an empty list that the call works
    /// with.
    pub fn page_from(
        &self,
        key: u64,
        groups: &mut ArrayVec<(u64, G), 32>,
        page: &mut ArrayVec<(u64, R), 132>,
    )
        requires groups { groups.old.items ≡ [] }
        requires page { page.old.items ≡ [] }
        ensures { IsPage key self.now.rows page.new.items }
    {
        let from = start_page(&self.groups, key, page);
        self.groups.page_from(from, groups);
        push_groups(page, groups.as_slice());
    }

    /// Puts the groups to which up to 16 keys belong into an empty list, one for each key in the order of the keys. A
    /// group has all rows whose keys lie in its span, and where there are none, it is `None` or has no rows. The keys
    /// are looked up with overlapping memory accesses.
    pub fn copy_groups(&self, keys: &[u64], found: &mut ArrayVec<Option<G>, 16>)
        requires few { length keys.now ≤ 16 }
        requires empty { found.old.items ≡ [] }
        ensures { AreGroupsAt G.span G.listed self.now.rows keys.now found.new.items }
    {
        self.groups.copy_many(bases::<R, G>(keys).as_slice(), found);
    }

    /// Puts the rows at up to 16 keys into an empty list, one for each key in the order of the keys, with `None` for a
    /// key that isn't there. The keys are looked up with overlapping memory accesses. `groups` is an empty list that
    /// the call works with.
    pub fn copy_many(
        &self,
        keys: &[u64],
        groups: &mut ArrayVec<Option<G>, 16>,
        found: &mut ArrayVec<Option<R>, 16>,
    )
        requires few { length keys.now ≤ 16 }
        requires groups { groups.old.items ≡ [] }
        requires empty { found.old.items ≡ [] }
        ensures { found.new.items ≡ map (λ key. value_at key self.now.rows) keys.now }
    {
        self.groups
            .copy_many(bases::<R, G>(keys).as_slice(), groups);
        for place in 0..keys.len() {
            found.push(find_in(&groups.as_slice()[place], keys[place]));
        }
    }
}
