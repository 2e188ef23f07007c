// A round of workers, each with a deque from which the others steal.
pub(crate) mod budget;
pub(crate) mod draining;
pub(crate) mod gathering;
pub(crate) mod hand;
pub(crate) mod looking;
pub(crate) mod opening;
pub(crate) mod permits;
pub(crate) mod round;
pub(crate) mod rule;
pub(crate) mod starting;
pub(crate) mod threads;
pub(crate) mod victim;
pub(crate) mod worker;
pub(crate) mod working;
