// Keys, in the order of their `Ord`.
ghost use Rattle.std.specs.Prelude.{◌≡◌};
ghost use Rattle.std.specs.declared.cmp.Ordering.TheVariants.{Equal};
ghost use Rattle.store.specs.Orders.{below, Succeeds};

pub trait Key: Copy + Ord {
    // The least key above this one, or none above the greatest.
    fn successor(&self) -> Option<Self>
        ensures { Succeeds (below Self.cmp) self.now result };

    // keys that rank equal are one key
    ghost one: { (a b : Self) → Self.cmp a b ≡ Equal → a ≡ b };
}
