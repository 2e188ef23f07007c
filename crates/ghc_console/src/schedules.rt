// Schedules: what a line says, what is replied, and how all of it is played.
pub(crate) mod line;
pub(crate) mod play;
pub(crate) mod reply;
