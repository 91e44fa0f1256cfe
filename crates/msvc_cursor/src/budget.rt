//! Node budgets: a limit on nodes with the number of nodes made so far, or no limit.

ghost use Rattle.std.specs.Prelude.{◌≡◌, ◌+◌, ◌≤◌, IsTrue, nat_lt, not, true, ℕ};

/// A limit on nodes, with the number of nodes made so far. A number of nodes has the same type. Without a limit nothing
/// is counted, and the type has no size.
pub trait NodeBudget: Copy {
    /// What one node adds to the count: 0 without a limit, else 1.
    ghost weight: { ℕ };

    /// The count so far.
    ghost used: { Self → ℕ };

    /// The greatest count allowed.
    ghost max: { Self → ℕ };

    /// Returns the number of nodes that stands for one node.
    fn one() -> Self
        ensures { used result ≡ weight };

    /// Counts one node, or returns false if the limit is reached.
    fn count_node(&mut self) -> bool
        ensures allowed { result ≡ not (nat_lt (max self.old) (used self.old + weight)) }
        ensures used { IsTrue result → used self.new ≡ used self.old + weight }
        ensures max { IsTrue result → max self.new ≡ max self.old }
        ensures counts { (IsTrue result → ⊥) → nat_lt 0 weight ≡ true };

    /// Counts `nodes` nodes, or returns false if they exceed the limit.
    fn count_nodes(&mut self, nodes: Self) -> bool
        ensures allowed { result ≡ not (nat_lt (max self.old) (used self.old + used nodes)) }
        ensures used { IsTrue result → used self.new ≡ used self.old + used nodes }
        ensures max { IsTrue result → max self.new ≡ max self.old }
        ensures counts { (IsTrue result → ⊥) → nat_lt 0 weight ≡ true };

    /// Returns how many nodes were counted since `before`.
    fn since(self, before: Self) -> Self
        requires { used before ≤ used self }
        ensures { used self ≡ used before + used result };
}

/// No limit.
#[derive(Clone, Copy)]
pub struct Unlimited;

impl NodeBudget for Unlimited {
    ghost weight = { 0 };

    ghost used = { λ l. 0 };

    ghost max = { λ l. 0 };

    fn one() -> Unlimited {
        Unlimited
    }

    fn count_node(&mut self) -> bool {
        true
    }

    fn count_nodes(&mut self, nodes: Unlimited) -> bool {
        true
    }

    fn since(self, before: Unlimited) -> Unlimited {
        Unlimited
    }
}

/// A limit of `max` nodes.
#[derive(Clone, Copy)]
pub struct NodeLimit {
    pub used: usize,
    pub max: usize,
}

impl NodeBudget for NodeLimit {
    ghost weight = { 1 };

    ghost used = { λ l. l.used };

    ghost max = { λ l. l.max };

    fn one() -> NodeLimit {
        NodeLimit { used: 1, max: 1 }
    }

    fn count_node(&mut self) -> bool {
        if self.used >= self.max {
            return false;
        }
        self.used += 1;
        true
    }

    fn count_nodes(&mut self, nodes: NodeLimit) -> bool {
        if self.used > self.max || nodes.used > self.max - self.used {
            return false;
        }
        self.used += nodes.used;
        true
    }

    fn since(self, before: NodeLimit) -> NodeLimit {
        NodeLimit {
            used: self.used - before.used,
            max: self.max,
        }
    }
}
