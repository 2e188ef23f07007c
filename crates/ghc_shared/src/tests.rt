// What no clause says: that calls of several threads succeed where memory is left, and that readers share the lock.
mod passes;
mod readers;
mod unifications;
