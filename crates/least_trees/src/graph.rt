//! Graphs of steps.

ghost use Rattle.std.specs.Prelude.{◌≡◌, ◌+◌, ◌^◌, ◌<◌, ◌↔◌, ℕ, IsTrue, slice_get};
ghost use Rattle.tree_costs.specs.declared.cost.Cost.{Cost};
ghost use Rattle.tree_costs.specs.declared.cost.Cost.TheVariants.{Fin, Inf};
ghost use Rattle.tree_costs.specs.Costs.{sum as cost_sum};
ghost use Rattle.least_trees.specs.Plans.{Plan, IsPlan};
ghost use Rattle.least_trees.specs.Rules.{IsLess};

/// A value that stands for a cost. Only a graph turns values into others.
pub trait Worth: Copy {
    ghost cost: { Self → Cost };
}

/// A graph: elements with weights, and states of each, of which state 0 is the start, some accept, and steps lead from one
/// to another on an element. No call changes what it stands for; looks and sums are counted.
pub trait StepGraph {
    type Value: Worth;

    ghost plan: { Self → Plan };

    ghost looks: { Self → ℕ };

    ghost sums: { Self → ℕ };

    /// How many elements there are.
    fn count(&self) -> usize
        ensures { result ≡ (plan self.now).count };

    /// How many states an element has.
    fn states(&self, e: usize) -> u32
        requires { e < (plan self.now).count }
        ensures { result ≡ (plan self.now).states e };

    /// Whether a state accepts.
    fn accepts(&self, e: usize, state: u32) -> bool
        requires element { e < (plan self.now).count }
        requires state { state < (plan self.now).states e }
        ensures { result ≡ (plan self.now).numbers.accepts e state };

    /// The k-th step of a state, counted from 0: the element that it is on, or None where its name is no element, and the
    /// state that it leads to. None exactly where the state has no such step. It counts as one look.
    fn look(&mut self, e: usize, state: u32, k: usize) -> Option<(Option<usize>, u32)>
        requires element { e < (plan self.old).count }
        requires state { state < (plan self.old).states e }
        requires room { looks self.old < 2 ^ 63 }
        ensures step { result ≡ slice_get ((plan self.old).numbers.steps e state) k }
        ensures same { plan self.new ≡ plan self.old }
        ensures looks { looks self.new ≡ looks self.old + 1 }
        ensures sums { sums self.new ≡ sums self.old };

    /// What an element weighs.
    fn weight(&self, e: usize) -> Self::Value
        requires { e < (plan self.now).count }
        ensures { Self.Value.cost result ≡ Fin ((plan self.now).numbers.weight e) };

    /// The value of 0.
    fn zero(&self) -> Self::Value
        ensures { Self.Value.cost result ≡ Fin 0 };

    /// The value of no number at all.
    fn inf(&self) -> Self::Value
        ensures { Self.Value.cost result ≡ Inf };

    /// The sum of two values, cut at one above the cap. It counts as one sum.
    fn sum(&mut self, left: Self::Value, right: Self::Value) -> Self::Value
        requires room { sums self.old < 2 ^ 63 }
        ensures value { Self.Value.cost result ≡ cost_sum (plan self.old).numbers.cap (Self.Value.cost left) (Self.Value.cost right) }
        ensures same { plan self.new ≡ plan self.old }
        ensures looks { looks self.new ≡ looks self.old }
        ensures sums { sums self.new ≡ sums self.old + 1 };

    /// Whether the one value stands for less than the other.
    fn less(&self, left: Self::Value, right: Self::Value) -> bool
        ensures { IsTrue result ↔ IsLess (Self.Value.cost left) (Self.Value.cost right) };

    ghost formed: { (graph : Self) → IsPlan (plan graph) };
}
