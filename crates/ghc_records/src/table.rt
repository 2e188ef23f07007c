// Tables of steps: the slots in which records stand, and indexes of who made, used and bound what.
pub(crate) mod binders;
pub(crate) mod makers;
pub(crate) mod number_set;
pub(crate) mod rising;
pub(crate) mod slots;
pub(crate) mod strays;
pub(crate) mod use_index;
pub(crate) mod users;
