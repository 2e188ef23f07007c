// The names of goals.

/// A goal of the state: `n.m` is the m-th goal that step n made, and `0.m` the m-th of the query.
#[derive(Clone, Copy, Drop, Debug, PartialEq, Eq, PartialOrd, Ord, Hash)]
pub struct GoalName {
    pub step: u32,
    pub place: u32,
}
