//! A list that only proofs read.
ghost use Rattle.std.specs.Prelude.{◌≡◌, ◌-◌, List, [], ◌∷◌, ◌++◌, length, take};
ghost use Rattle.std.specs.Borrow.{ftrue};

use std::fmt;
use std::marker::{Model, PhantomData};

/// Items in order, which only proofs read.
///
/// It takes no memory, and its methods do nothing when they run. A type that has one need not hold the items,
/// but only what they leave behind.
#[derive(Drop)]
pub struct Trace<T> {
    of: PhantomData<T>,
    pub ghost items: { List T },
}

impl<T> Model for Trace<T> {
    ghost also_owns = { λ _. ftrue };
}

impl<T> fmt::Debug for Trace<T> {
    fn fmt<W: fmt::Write>(&self, f: &mut fmt::Formatter<W>) -> fmt::Result {
        f.write_str("Trace")
    }
}

impl<T> Trace<T> {
    /// Items that the caller's proof picks, as `ghost-picked`, from what it knows of the two values.
    pub fn picked<A, B>(_first: &A, _second: &B) -> Trace<T>
        ghost items: { List T }
        ensures { result.items ≡ items }
    {
        Trace { of: PhantomData }
    }

    /// No items.
    pub fn new() -> Trace<T>
        ensures { result.items ≡ [] }
    {
        Trace::picked(&(), &())
    }

    /// These items, and behind them one more.
    pub fn then(&self, item: &T) -> Trace<T>
        ensures { result.items ≡ self.now.items ++ item.now ∷ [] }
    {
        Trace::picked(self, item)
    }

    /// These items, and behind them others.
    pub fn then_all(&self, items: &[T]) -> Trace<T>
        ensures { result.items ≡ self.now.items ++ items.now }
    {
        Trace::picked(self, &items)
    }

    /// These items without the last one.
    pub fn before(&self) -> Trace<T>
        ensures { result.items ≡ take (length self.now.items - 1) self.now.items }
    {
        Trace::picked(self, &())
    }
}
