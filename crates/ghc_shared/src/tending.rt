// Work on many jobs in several threads.
ghost use Rattle.std.specs.Prelude.{◌≡◌, ℕ, ◌<◌, length, slice_index_or, All};

use std::thread;
use std::thread::Threads;

/// What threads share, and what each of them does to its job, which stays where it is.
pub trait Tender<J> {
    /// Which jobs may be given.
    ghost can: { Self → J → Type 0 };

    /// What a job may become.
    ghost does: { Self → J → J → Type 0 };

    /// Does the job.
    fn tend(&self, job: &mut J)
        requires { can self.now job.old }
        ensures { does self.now job.old job.new };
}

/// Does each job in its place, in as many threads at most. It takes no memory for the jobs, so that none is lost: where no thread
/// can be made, they are done one after another.
pub fn tend_all<J: Send, W: Tender<J> + Sync, R: Threads + Sync>(
    rt: &R,
    tender: &W,
    jobs: &mut [J],
    threads: usize,
)
    requires threads { 0 < threads }
    requires jobs { All (λ job. W.can tender.now job) jobs.old }
    ensures len { length jobs.new ≡ length jobs.old }
    ensures each { (i : ℕ) (d : J) → i < length jobs.old → W.does tender.now (slice_index_or jobs.old i d) (slice_index_or jobs.new i d) }
{
    thread::for_each_mut(
        rt,
        jobs,
        threads,
        &|_at: usize, job: &mut J|
            requires { W.can tender.now job.now }
            ensures { W.does tender.entry.now job.entry.now job.exit.now }
        { tender.tend(job) },
    );
}
