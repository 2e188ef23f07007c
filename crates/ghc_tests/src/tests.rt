// What no clause says and no row shows: great sizes, failing devices, calls that no command reaches, threads.
mod building;
mod calls;
mod cores;
mod faces;
mod matching;
mod runs;
mod schedules;
mod session;
mod settling;
mod terms;
mod unifying;
mod worlds;
