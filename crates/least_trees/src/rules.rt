//! Rules over numbered spots.

ghost use Rattle.std.specs.Prelude.{◌≡◌, length};
ghost use Rattle.least_trees.specs.Rules.{InRange, applies};

/// A rule: the target costs at most what both parts do together.
#[derive(Clone, Copy)]
pub(crate) struct Rule {
    pub target: u32,
    pub left: u32,
    pub right: u32,
}

/// A part of a rule.
#[derive(Clone, Copy)]
pub(crate) enum Part {
    Left,
    Right,
}

/// Whether both parts are settled, x is one of them, and the target is not settled.
pub(crate) fn rule_applies(rule: Rule, done: &[bool], x: usize) -> bool
    requires { InRange (length done.now) rule }
    ensures { result ≡ applies done.now x rule }
{
    let (left, right) = (rule.left as usize, rule.right as usize);
    (left == x || right == x) && done[left] && done[right] && !done[rule.target as usize]
}
