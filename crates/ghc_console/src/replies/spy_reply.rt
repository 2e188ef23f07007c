// The replies to the commands that say which predicates are spied, each written into a text that is empty before.
ghost use Rattle.std.specs.Prelude.{◌≡◌, ◌↔◌, ◌++◌, [], codes, IsTrue, OnErr, OnOk, string_bytes};
ghost use Rattle.std.specs.FinSet as set;
ghost use Rattle.ghc_trace.specs.Spies.{predicate};
ghost use Rattle.ghc_console.specs.Replies.{RepliesToSpy, lined};
ghost use Rattle.ghc_console.specs.SessionState.{AddsSpy, HasClauseFor, predicate_text};

use crate::replies::refused;
use ghc_core::Core;
use ghc_flat::Program;
use ghc_term::{Fault, Name};
use ghc_trace::SpySet;
use std::alloc::{AllocError, Global};

// Whether the program has a clause of this name and arity: two look-ups.
fn is_defined(program: &Program, name: &Name, arity: u32) -> bool
    ensures { IsTrue result ↔ HasClauseFor program.now name.now arity }
{
    !program.clauses_for(name, arity as usize).is_empty()
}

// The line of the predicate after a front.
fn tell(
    alloc: Global,
    front: &str,
    name: &Name,
    arity: u32,
    reply: &mut String,
) -> Result<(), AllocError>
    requires { string_bytes reply.old ≡ [] }
    ensures { OnOk result (string_bytes reply.new ≡ lined (front.now ++ predicate_text name.now arity)) }
{
    let line = format!(in alloc; "{front}{name}/{arity}\n")?;
    reply.push_str(line.as_str())
}

/// Adds the predicate to those that are spied, and tells so; or the refusal where the program has no clause for it, which changes
/// nothing. An error says that memory was refused, and leaves the spies as they were. It costs three look-ups, and the text.
#[inline(never)]
pub fn spy(
    alloc: Global,
    core: &Core,
    spies: &mut SpySet,
    name: &Name,
    arity: u32,
    reply: &mut String,
) -> Result<(), AllocError>
    requires { string_bytes reply.old ≡ [] }
    ensures text { OnOk result (RepliesToSpy core.now.world.opening.program name.now arity (string_bytes reply.new)) }
    ensures spies { OnOk result (AddsSpy core.now.world.opening.program name.now arity spies.old spies.new) }
    ensures err { OnErr result (spies.new ≡ spies.old) }
{
    if !is_defined(core.program(), name, arity) {
        let name = name.share()?;
        return refused(&Fault::Undefined { name, arity }, reply);
    }
    tell(alloc, "spying ", name, arity, reply)?;
    spies.add(name, arity)
}

/// Takes the predicate out of those that are spied, if it is one of them, and tells that it is not spied. An error says that memory
/// was refused, and leaves the spies as they were. It costs one look-up, and the text.
#[inline(never)]
pub fn unspy(
    alloc: Global,
    spies: &mut SpySet,
    name: &Name,
    arity: u32,
    reply: &mut String,
) -> Result<(), AllocError>
    requires { string_bytes reply.old ≡ [] }
    ensures text { OnOk result (string_bytes reply.new ≡ lined (codes "not spying " ++ predicate_text name.now arity)) }
    ensures spies { OnOk result (spies.new ≡ set.remove spies.old (predicate name.now arity)) }
    ensures err { OnErr result (spies.new ≡ spies.old) }
{
    tell(alloc, "not spying ", name, arity, reply)?;
    spies.remove(name, arity as usize);
    Ok(())
}
