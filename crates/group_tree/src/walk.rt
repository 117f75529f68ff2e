//! A walk over all rows of a tree of groups.
ghost use Rattle.mr_node.specs.Folds.{WalksRows};

use crate::group::{Group, Row};
use crate::tree::GroupTree;

/// Hands each row of a group that lies at a key, in the order of keys, to a closure, together with what the closure
/// writes to. If the group can't lie at that key, any rows may be handed over.
fn walk_places<R: Row, G: Group<R>, A, F: Fn(&mut A, u64, &R)>(
    group: &G,
    base: u64,
    so_far: &mut A,
    f: &F,
)
    requires { F.IsAlwaysCallable f.now }
    ensures { G.Holds base group.now → WalksRows (λ a k r b. F.post f.now a k r tt b) so_far.old (G.listed base group.now) so_far.new }
{
    for place in 0..4_u8 {
        if let Some(pair) = group.row_in(base, place) {
            f(so_far, pair.0, &pair.1);
        }
    }
}

impl<R: Row, G: Group<R>> GroupTree<R, G> {
    /// Hands each row, in the order of keys, to a closure, together with what the closure writes to.
    pub fn walk<A, F: Fn(&mut A, u64, &R)>(&self, so_far: &mut A, f: &F)
        requires { F.IsAlwaysCallable f.now }
        ensures { WalksRows (λ a k r b. F.post f.now a k r tt b) so_far.old self.now.rows so_far.new }
    {
        let walk_group = |so_far: &mut A, base: u64, group: &G|
            requires { F.IsAlwaysCallable f.now }
            ensures { G.Holds base group.now → WalksRows (λ a k r b. F.post f.entry.now a k r tt b) so_far.old (G.listed base group.now) so_far.new }
        { walk_places(group, base, so_far, f) };
        self.groups.walk(so_far, &walk_group);
    }
}
