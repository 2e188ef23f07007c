// When a worker rests, and when it looks for no name any more.
use std::sync::Wait;
use std::sync::atomic::{AtomicU64, Ordering};
use std::time::Duration;

// For how long a worker that finds no name rests at most before it looks again.
const MICROSECONDS: u64 = 50;

// A worker begins, and is counted among those at work.
pub fn begin_work(at_work: &AtomicU64) {
    at_work.fetch_add(1, Ordering::SeqCst);
}

// A worker ends, and is not counted any more; those that rest look whether others are.
pub fn end_work(at_work: &AtomicU64) {
    at_work.fetch_sub(1, Ordering::SeqCst);
    at_work.wake_all();
}

// Rests, where others are at work, and says whether they are. Who rests is not counted among those at work, and has no name in hand
// and none in its deque: so where nobody is counted, no name is left.
pub fn rest<R: Wait>(rt: &R, at_work: &AtomicU64) -> bool {
    let others = at_work.fetch_sub(1, Ordering::SeqCst).wrapping_sub(1);
    if others > 0 {
        let longest = Duration::from_micros(MICROSECONDS);
        at_work.park_timeout(rt, (others & 0xffff_ffff) as u32, longest);
    }
    let others = at_work.load(Ordering::SeqCst);
    at_work.fetch_add(1, Ordering::SeqCst);
    others > 0
}
