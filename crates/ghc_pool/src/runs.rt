// Runs of a core, alone or by several workers.
pub(crate) mod alone;
pub(crate) mod drain;
pub(crate) mod meet;
pub(crate) mod pause;
pub(crate) mod question;
pub(crate) mod round_of_run;
pub(crate) mod run;
pub(crate) mod stretches;
pub(crate) mod survey;
