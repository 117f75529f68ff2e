//! The changes of a value where it lies.
ghost use Rattle.std.specs.Prelude.{◌≡◌};

use std::mem;

/// A change of a value in place. In contracts, `revised` is the value that it makes of one, and `spent` is the change
/// after that.
pub trait Revise<V> {
    ghost revised: { Self → V → V };

    ghost spent: { Self → V → Self };

    /// Revises the value where it lies.
    fn revise(&mut self, value: &mut V)
        ensures value { value.new ≡ revised self.old value.old }
        ensures spent { self.new ≡ spent self.old value.old };
}

/// The change that puts a value in the place of another one, and keeps that one.
#[derive(Drop)]
pub(crate) struct Swap<V> {
    pub(crate) value: V,
}

impl<V: Drop> Revise<V> for Swap<V> {
    ghost revised = { λ swap old. swap.value };

    ghost spent = { λ swap old. record { value = old } };

    fn revise(&mut self, value: &mut V) {
        mem::swap(&mut self.value, value)
    }
}
