// What a session reads from and writes to, and its lines.
pub(crate) mod call_counts;
pub(crate) mod device;
pub(crate) mod line_buffer;
pub(crate) mod lines;
pub(crate) mod made_line;
pub(crate) mod reading;
pub(crate) mod script;
pub(crate) mod writing;
