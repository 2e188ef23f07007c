// What a save tells of a core, and a core that comes back from it.
pub(crate) mod asked_again;
pub(crate) mod load;
pub(crate) mod resume;
pub(crate) mod saving;
pub(crate) mod taken_again;
pub(crate) mod told;
