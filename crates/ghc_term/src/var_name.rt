// The names of variables.

/// The number that no step has. The variables that a step makes have it in its effect under any number.
pub const NO_STEP: u32 = 4_294_967_295;

/// A variable: `_n_m` is the m-th variable that step n made, and `_0_m` the m-th of the query.
#[derive(Clone, Copy, Drop, Debug, PartialEq, Eq, PartialOrd, Ord, Hash)]
pub struct VarName {
    pub step: u32,
    pub place: u32,
}
