// What a command line asks for.
use ghc_pool::Workers;

/// What the command line asks for.
#[derive(Clone, Copy)]
pub struct Options<'a> {
    /// The name of the program's file.
    pub file: &'a str,
    /// The text of the query.
    pub query: &'a str,
    /// The name of the file of the history from which the session starts, if one is named.
    pub load: Option<&'a str>,
    /// The name of the file of the schedule that is played in place of a session, if one is named.
    pub schedule: Option<&'a str>,
}

/// How many workers the command line asks for.
#[derive(Clone, Copy, Drop)]
pub enum WorkersOption {
    /// So many.
    Number(Workers),
    /// One, or as many as the machine has processors where a predicate of the program has many clauses.
    Auto,
}

/// What the command line gives: the options, and how many workers make a run of the session, which is one if nothing is said of them.
#[derive(Drop)]
pub struct Given<'a> {
    pub options: Options<'a>,
    pub workers: WorkersOption,
}
