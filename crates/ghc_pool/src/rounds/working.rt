// What a worker does in a round.
ghost use Rattle.std.specs.Prelude.{◌≡◌, ◌≤◌, ◌+◌, ◌*◌, ◌<◌, ℕ, [], ◌∷◌, min, true, false, None, IfSome};
ghost use Rattle.std.specs.Vec.{vec_len};
ghost use Rattle.crossbeam_deque.specs.Handles.{worker_view};
ghost use Rattle.ghc_pool.specs.inner.Fair.{most_permits};
ghost use Rattle.ghc_pool.specs.inner.Workers.{work_of, IsAble, HasRoomToAnswer, Keeps, KeepsRoom, IsOfferedOrStopped, submits};
ghost use Rattle.ghc_pool.specs.inner.Stops.{IsWell};
ghost use Rattle.ghc_pool.specs.inner.Opened.{Works, HasGone, HasWorked};
ghost use Rattle.ghc_pool.specs.inner.Turns.{CanDecide, names_in};

use crate::craft::{Craft, Decided};
use crate::rounds::budget::{Budget, Limited};
use crate::rounds::hand::{InHand, hold, is_full, make_attempts};
use crate::rounds::looking::{begin_work, end_work, rest};
use crate::rounds::worker::{Found, Worker};
use ghc_fire::Proposal;
use ghc_shared::Tender;
use ghc_term::{Fault, GoalName};
use std::alloc::Global;
use std::hint::spin_loop;
use std::sync::atomic::{AtomicBool, AtomicU64, Ordering};
use std::sync::ledger::Share;
use std::sync::{Mutex, MutexGuard, Wait};

// A worker, with its number, its pass, its share of the budget, and how many of its permits it has not used.
#[derive(Drop)]
pub struct Job<P, L: Limited> {
    pub number: usize,
    pub worker: Worker,
    pub pass: P,
    pub share: Share<L>,
    pub spare: u64,
}

impl Worker {
    // Offers the goals that a step made, as far as there is memory.
    fn offer_made(&mut self, step: u32, made: u32)
        requires able { IsAble self.old }
        ensures keeps { Keeps [] [] self.old self.new }
        ensures room { KeepsRoom self.old self.new }
        ensures got { (worker_view self.new.owner).got ≡ (worker_view self.old.owner).got }
        ensures taken { self.new.taken ≡ self.old.taken }
        ensures stop { IsOfferedOrStopped self.old self.new }
    {
        for index in 0..made {
            let place = index + 1;
            if !self.offer(GoalName { step, place }) {
                return;
            }
        }
    }

    // Offers the goals that a step woke, as far as there is memory.
    fn offer_woken(&mut self, woken: &[GoalName])
        requires able { IsAble self.old }
        ensures keeps { Keeps [] [] self.old self.new }
        ensures room { KeepsRoom self.old self.new }
        ensures got { (worker_view self.new.owner).got ≡ (worker_view self.old.owner).got }
        ensures taken { self.new.taken ≡ self.old.taken }
        ensures stop { IsOfferedOrStopped self.old self.new }
    {
        for name in woken {
            if !self.offer(*name) {
                return;
            }
        }
    }

    // Offers the goals that a step made, and then those that it woke, as far as there is memory. Where no step was taken it has the
    // number 0, and nothing is offered.
    fn offer_of_step(&mut self, step: u32, made: u32, woken: &[GoalName])
        requires able { IsAble self.old }
        ensures keeps { Keeps [] [] self.old self.new }
        ensures room { KeepsRoom self.old self.new }
        ensures got { (worker_view self.new.owner).got ≡ (worker_view self.old.owner).got }
        ensures taken { self.new.taken ≡ self.old.taken }
        ensures stop { IsOfferedOrStopped self.old self.new }
    {
        self.offer_made(step, made);
        if step == 0 || self.stop.is_some() {
            return;
        }
        self.offer_woken(woken);
    }

    // The name that is in hand, for which an attempt was made or none, is decided, and the goals that its step makes are offered, and
    // those that it wakes.
    pub fn handle<P, C: Craft<P>>(
        &mut self,
        craft: &C,
        number: usize,
        pass: &mut P,
        spare: &mut u64,
        name: GoalName,
        attempt: Option<Result<Proposal, Fault>>,
    )
        requires able { IsAble self.old }
        requires room { HasRoomToAnswer 1 self.old }
        requires attempt { IfSome attempt (λ a. C.attempts craft.now name a) }
        requires permit { C.takes craft.now ≡ true → 0 < spare.old }
        requires well { IsWell (C.fed craft.now) (C.asks craft.now) (work_of self.old) }
        ensures keeps { Keeps (name ∷ []) [] self.old self.new }
        ensures room { KeepsRoom self.old self.new }
        ensures answered { (n : ℕ) → HasRoomToAnswer (n + 1) self.old → HasRoomToAnswer n self.new }
        ensures got { (worker_view self.new.owner).got ≡ (worker_view self.old.owner).got }
        ensures well { IsWell (C.fed craft.now) (C.asks craft.now) (work_of self.new) }
        ensures tells { (start : P) → C.tells craft.now start self.old.taken.items pass.old → C.tells craft.now start self.new.taken.items pass.new }
        ensures fewer { (spare.new ≤ spare.old) × (spare.old ≤ spare.new + 1) }
        ensures spent { spare.new + submits self.new.taken.items ≡ spare.old + submits self.old.taken.items }
    {
        let Decided {
            answer,
            stop,
            step,
            made,
            woken,
        } = craft.decide(number, pass, name, attempt);
        *spare -= answer.submits();
        self.answer(name, answer, stop);
        if self.stop.is_some() {
            return;
        }
        self.offer_of_step(step, made, &woken);
    }
}

// Whether a name may be taken: where steps are taken, a permit is needed that is not used. Several are asked for at once, so that
// workers seldom meet at the budget.
fn is_permitted<P, C: Craft<P>, L: Limited, R: Wait>(
    rt: &R,
    craft: &C,
    budget: &Mutex<Budget<L>>,
    share: &mut Share<L>,
    spare: &mut u64,
) -> bool
    requires { share.old.parts ≡ 1 }
    ensures part { share.new.parts ≡ 1 }
    ensures one { result ≡ true → C.takes craft.now ≡ true → 0 < spare.new }
    ensures more { spare.old ≤ spare.new }
    ensures few { spare.old ≤ most_permits → spare.new ≤ most_permits }
    ensures counted { share.new.amount + spare.old ≡ share.old.amount + spare.new }
{
    if !craft.takes_steps() || *spare > 0 {
        return true;
    }
    *spare = budget.lock(rt).permits(share);
    if *spare == 0 {
        return false;
    }
    true
}

// What the workers share. A worker that has a reason to stop sets `halted`, and each looks at it before it takes a name; `at_work`
// counts those that have a name or look for one; who has the door takes names, and decides them.
#[derive(Drop)]
pub struct Crew<'a, C, L: Limited, R: Wait> {
    pub rt: &'a R,
    pub alloc: Global,
    pub craft: &'a C,
    pub budget: &'a Mutex<Budget<L>>,
    pub halted: &'a AtomicBool,
    pub at_work: &'a AtomicU64,
    pub door: &'a Mutex<()>,
}

// What a worker does after its turn, where it has no name in hand.
#[derive(Clone, Copy, Drop)]
pub enum Next {
    // It takes names again.
    Again,
    // It rests, since it found no name.
    Rest,
    // It ends.
    End,
}

// Whether the worker has stopped, which it tells the others, or finds that another has.
fn has_ended(halted: &AtomicBool, worker: &Worker) -> bool
    ensures { result ≡ false → worker.now.stop ≡ None }
{
    if worker.stop.is_some() {
        halted.store(true, Ordering::SeqCst);
        return true;
    }
    halted.load(Ordering::SeqCst)
}

// Takes so many names at most. Each is decided, or comes into the hand, where an attempt at it is to be made apart. It ends where the
// worker stops, finds that another has stopped, or gets no permit where steps are taken.
fn take_names<P, C: Craft<P>, L: Limited, R: Wait>(
    crew: &Crew<'_, C, L, R>,
    job: &mut Job<P, L>,
    hand: &mut Vec<InHand>,
    most: u32,
) -> Next
    requires works { Works (C.fed crew.now.craft.now) (C.asks crew.now.craft.now) job.old }
    requires can { CanDecide (C.excerpts crew.now.craft.now) (C.attempts crew.now.craft.now) (C.takes crew.now.craft.now) hand.old.items job.old }
    ensures gone { HasGone (C.fed crew.now.craft.now) (C.asks crew.now.craft.now) (C.tells crew.now.craft.now) (names_in hand.old.items) (names_in hand.new.items) job.old job.new }
    ensures can { CanDecide (C.excerpts crew.now.craft.now) (C.attempts crew.now.craft.now) (C.takes crew.now.craft.now) hand.new.items job.new }
{
    let Job {
        number,
        worker,
        pass,
        share,
        spare,
    } = job;
    for _ in 0..most {
        if has_ended(crew.halted, worker) {
            return Next::End;
        }
        if !is_permitted(crew.rt, crew.craft, crew.budget, share, spare) {
            return Next::End;
        }
        if is_full(crew.craft, hand, *spare) {
            return Next::Again;
        }
        match worker.take(hand.len()) {
            Found::Name(name) => {
                if !hold(crew.craft, hand, name) {
                    worker.handle(crew.craft, *number, pass, spare, name, None);
                }
            }
            Found::Again => return Next::Again,
            Found::Nothing => return Next::Rest,
        }
    }
    Next::Again
}

// Decides the names in hand.
fn decide_hand<P, C: Craft<P>, L: Limited, R: Wait>(
    crew: &Crew<'_, C, L, R>,
    job: &mut Job<P, L>,
    hand: &mut Vec<InHand>,
)
    requires works { Works (C.fed crew.now.craft.now) (C.asks crew.now.craft.now) job.old }
    requires can { CanDecide (C.excerpts crew.now.craft.now) (C.attempts crew.now.craft.now) (C.takes crew.now.craft.now) hand.old.items job.old }
    ensures gone { HasGone (C.fed crew.now.craft.now) (C.asks crew.now.craft.now) (C.tells crew.now.craft.now) (names_in hand.old.items) (names_in hand.new.items) job.old job.new }
    ensures can { CanDecide (C.excerpts crew.now.craft.now) (C.attempts crew.now.craft.now) (C.takes crew.now.craft.now) hand.new.items job.new }
    ensures empty { hand.new.items ≡ [] }
{
    let Job {
        number,
        worker,
        pass,
        share: _,
        spare,
    } = job;
    while let Some(held) = hand.pop() {
        let name = held.name;
        worker.handle(crew.craft, *number, pass, spare, name, held.attempted());
    }
}

// Decides the names in hand, and then takes names.
fn take_turn<P, C: Craft<P>, L: Limited, R: Wait>(
    crew: &Crew<'_, C, L, R>,
    job: &mut Job<P, L>,
    hand: &mut Vec<InHand>,
    most: u32,
) -> Next
    requires works { Works (C.fed crew.now.craft.now) (C.asks crew.now.craft.now) job.old }
    requires can { CanDecide (C.excerpts crew.now.craft.now) (C.attempts crew.now.craft.now) (C.takes crew.now.craft.now) hand.old.items job.old }
    ensures gone { HasGone (C.fed crew.now.craft.now) (C.asks crew.now.craft.now) (C.tells crew.now.craft.now) (names_in hand.old.items) (names_in hand.new.items) job.old job.new }
    ensures can { CanDecide (C.excerpts crew.now.craft.now) (C.attempts crew.now.craft.now) (C.takes crew.now.craft.now) hand.new.items job.new }
{
    decide_hand(crew, job, hand);
    take_names(crew, job, hand, most)
}

// How often a worker looks at the door before it sleeps there: for about as long as a turn takes.
const LOOKS: u32 = 500;

// How many pauses it makes between two looks. Each look takes the door's line of memory from who has the turn.
const PAUSES: u32 = 16;

// Pauses between two looks.
fn pause() {
    for _ in 0..PAUSES {
        spin_loop();
    }
}

// Waits for its turn.
fn wait_for_turn<'a, R: Wait>(rt: &R, door: &'a Mutex<()>) -> MutexGuard<'a, ()> {
    for _ in 0..LOOKS {
        if let Some(turn) = door.try_lock() {
            return turn;
        }
        pause();
    }
    door.lock(rt)
}

// Takes a turn, for which it waits at the door where workers take names in turns.
fn take_turn_at_door<P, C: Craft<P>, L: Limited, R: Wait>(
    crew: &Crew<'_, C, L, R>,
    job: &mut Job<P, L>,
    hand: &mut Vec<InHand>,
    most: u32,
) -> Next
    requires works { Works (C.fed crew.now.craft.now) (C.asks crew.now.craft.now) job.old }
    requires can { CanDecide (C.excerpts crew.now.craft.now) (C.attempts crew.now.craft.now) (C.takes crew.now.craft.now) hand.old.items job.old }
    ensures gone { HasGone (C.fed crew.now.craft.now) (C.asks crew.now.craft.now) (C.tells crew.now.craft.now) (names_in hand.old.items) (names_in hand.new.items) job.old job.new }
    ensures can { CanDecide (C.excerpts crew.now.craft.now) (C.attempts crew.now.craft.now) (C.takes crew.now.craft.now) hand.new.items job.new }
{
    if !crew.craft.takes_turns() {
        return take_turn(crew, job, hand, 1);
    }
    let _turn = wait_for_turn(crew.rt, crew.door);
    take_turn(crew, job, hand, most)
}

// As many names as are taken in a turn at most.
const MOST: u32 = 32;

// How much memory a worker takes at once, in pieces that an allocator maps together.
const PIECES: usize = 32;

const PIECE: usize = 100_000;

// Takes memory and gives it back at once. An allocator makes the memory of a thread writable page by page, by a call of the system each,
// for which other threads wait; what is writable stays so. Where memory is refused, less of it is.
fn make_writable(alloc: Global) {
    let mut pieces = Vec::new(alloc);
    for _ in 0..PIECES {
        let Ok(piece) = Vec::<u8>::with_capacity(alloc, PIECE) else {
            return;
        };
        if pieces.push(piece).is_err() {
            return;
        }
    }
}

// How many names are taken at most in the turn after one of so many. The first turns are short, so that a small program is shown in
// other orders, too; with long ones, workers seldom meet at the door. Where turns become the longest the run is long, and memory is made
// writable for it.
fn longer(alloc: Global, most: u32) -> u32
    ensures { result ≡ min (most * 2) MOST }
{
    if most >= MOST {
        return MOST;
    }
    let longer = (most * 2).min(MOST);
    if longer == MOST {
        make_writable(alloc);
    }
    longer
}

// Works, turn after turn, until one is the last, or there is no name while nobody is at work who could offer one. Attempts are made
// between two turns, while others have theirs.
fn work<P, C: Craft<P>, L: Limited, R: Wait>(crew: &Crew<'_, C, L, R>, job: &mut Job<P, L>)
    requires { Works (C.fed crew.now.craft.now) (C.asks crew.now.craft.now) job.old }
    ensures { HasWorked (C.fed crew.now.craft.now) (C.asks crew.now.craft.now) (C.tells crew.now.craft.now) job.old job.new }
{
    let mut hand = Vec::new(crew.alloc);
    let mut most = 1;
    for _ in crew.rt.forever() {
        let next = take_turn_at_door(crew, job, &mut hand, most);
        make_attempts(crew.craft, &mut hand);
        if hand.is_empty() {
            match next {
                Next::Again => {}
                Next::Rest => {
                    if !rest(crew.rt, crew.at_work) {
                        return;
                    }
                }
                Next::End => return,
            }
        }
        most = longer(crew.alloc, most);
    }
    unreachable!()
}

impl<P, C: Craft<P>, L: Limited, R: Wait> Tender<Job<P, L>> for Crew<'_, C, L, R> {
    ghost use Rattle.ghc_pool.specs.inner.Opened.{Works, HasWorked};

    ghost can = { λ crew job. Works (C.fed crew.craft.now) (C.asks crew.craft.now) job };

    ghost does = { λ crew old new. HasWorked (C.fed crew.craft.now) (C.asks crew.craft.now) (C.tells crew.craft.now) old new };

    fn tend(&self, job: &mut Job<P, L>) {
        begin_work(self.at_work);
        work(self, job);
        end_work(self.at_work);
    }
}
