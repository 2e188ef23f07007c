// Why something is refused, with the number and the text of each refusal.
ghost use Rattle.std.specs.Prelude.{◌≡◌, ◌++◌, IfOk, is_ok, if◌then◌else◌, string_bytes};

use crate::limit::Limit;
use crate::name::Name;
use std::alloc::{AllocError, AllocFailed, Global};
use std::error::Error;
use std::fmt;

/// A refusal. Its number and its text are part of the product; the message of `Display` is not.
#[derive(Debug, Drop, PartialEq, Eq)]
pub enum Fault {
    /// A growth found no memory.
    Memory,
    /// A text is not of its grammar; both count from 1, the column in bytes.
    Syntax { line: u32, column: u32 },
    /// A guard is no predefined test on the head's variables.
    NotFlat { clause: u32 },
    /// A variable stands twice in a head.
    Repeated { clause: u32, variable: Name },
    /// A call of a predicate that has no clause.
    Undefined { name: Name, arity: u32 },
    /// Something is too large.
    Limit(Limit),
    /// No goal has this name.
    NoGoal,
    /// The clause is not one of the goal's predicate.
    NoClause,
    /// The goal waits for a binding.
    Waits,
    /// No clause can ever be selected for the goal.
    NoMatch,
    /// Two terms can not be made equal.
    Clash,
    /// A variable would stand in its own value.
    Cycle,
    /// An expression has no value.
    Arithmetic,
    /// No open stream has this number.
    NoStream,
    /// The tail of a stream was bound by a goal.
    TailBound,
    /// The step is not in the record.
    NotKept,
    /// Another kept step depends on the step.
    HasConsequence { step: u32 },
    /// The step is not on the shelf.
    NotShelved,
    /// The step would now have another effect.
    Changed,
    /// A proposal does not fit the state any more.
    Stale,
    /// An order of the steps is not lawful. The two are the first step that is not kept or stands
    /// twice, given twice; or the first kept step that is missing, and 0; or the first two steps of
    /// which the earlier in the order depends directly on the later.
    NotLawful { earlier: u32, later: u32 },
    /// No further step can be kept or numbered.
    Full,
    /// No variable has this name.
    NoVariable,
    /// A line of a history is wrong, counted from 1.
    History { line: u32 },
    /// The line is no command.
    Command,
    /// A device failed.
    Device,
}

impl Fault {
    ghost use Rattle.ghc_term.specs.Fault.{fault_number, fault_text};

    /// The number of the refusal, from 1 to 26.
    pub fn number(&self) -> u32
        ensures { result ≡ fault_number self.now }
    {
        match self {
            Fault::Memory => 1,
            Fault::Syntax { .. } => 2,
            Fault::NotFlat { .. } => 3,
            Fault::Repeated { .. } => 4,
            Fault::Undefined { .. } => 5,
            Fault::Limit(_) => 6,
            Fault::NoGoal => 7,
            Fault::NoClause => 8,
            Fault::Waits => 9,
            Fault::NoMatch => 10,
            Fault::Clash => 11,
            Fault::Cycle => 12,
            Fault::Arithmetic => 13,
            Fault::NoStream => 14,
            Fault::TailBound => 15,
            Fault::NotKept => 16,
            Fault::HasConsequence { .. } => 17,
            Fault::NotShelved => 18,
            Fault::Changed => 19,
            Fault::Stale => 20,
            Fault::NotLawful { .. } => 21,
            Fault::Full => 22,
            Fault::NoVariable => 23,
            Fault::History { .. } => 24,
            Fault::Command => 25,
            Fault::Device => 26,
        }
    }

    /// The text of the refusal.
    pub fn text(&self, alloc: Global) -> Result<String, AllocError>
        ensures { IfOk result (λ text. string_bytes text ≡ fault_text self.now) }
    {
        match self {
            Fault::Memory => String::from_str(alloc, "F1 no memory"),
            Fault::Syntax { line, column } => format!(in alloc; "F2 syntax at {line}:{column}"),
            Fault::NotFlat { clause } => format!(in alloc; "F3 not flat in clause {clause}"),
            Fault::Repeated { clause, variable } => {
                format!(in alloc; "F4 variable {variable} repeated in the head of clause {clause}")
            }
            Fault::Undefined { name, arity } => format!(in alloc; "F5 undefined {name}/{arity}"),
            Fault::Limit(limit) => format!(in alloc; "F6 limit: {}", limit.word()),
            Fault::NoGoal => String::from_str(alloc, "F7 no goal"),
            Fault::NoClause => String::from_str(alloc, "F8 no such clause for the goal"),
            Fault::Waits => String::from_str(alloc, "F9 waits"),
            Fault::NoMatch => String::from_str(alloc, "F10 no clause matches"),
            Fault::Clash => String::from_str(alloc, "F11 clash"),
            Fault::Cycle => String::from_str(alloc, "F12 cycle"),
            Fault::Arithmetic => String::from_str(alloc, "F13 arithmetic"),
            Fault::NoStream => String::from_str(alloc, "F14 no open stream"),
            Fault::TailBound => String::from_str(alloc, "F15 tail is bound"),
            Fault::NotKept => String::from_str(alloc, "F16 not a kept step"),
            Fault::HasConsequence { step } => format!(in alloc; "F17 step {step} depends on it"),
            Fault::NotShelved => String::from_str(alloc, "F18 not on the shelf"),
            Fault::Changed => String::from_str(alloc, "F19 changed"),
            Fault::Stale => String::from_str(alloc, "F20 stale"),
            Fault::NotLawful { earlier, later } => {
                format!(in alloc; "F21 not lawful: {earlier} {later}")
            }
            Fault::Full => String::from_str(alloc, "F22 full"),
            Fault::NoVariable => String::from_str(alloc, "F23 no variable"),
            Fault::History { line } => format!(in alloc; "F24 history line {line}"),
            Fault::Command => String::from_str(alloc, "F25 command"),
            Fault::Device => String::from_str(alloc, "F26 device"),
        }
    }

    /// Writes the text of the refusal at the end of `out`, which stays as it was where memory is refused.
    pub fn push_text(&self, out: &mut String) -> Result<(), AllocError>
        ensures { string_bytes out.new ≡ (if is_ok result then string_bytes out.old ++ fault_text self.now else string_bytes out.old) }
    {
        let text = self.text(*out.allocator())?;
        out.push_str(text.as_str())?;
        Ok(())
    }
}

impl fmt::Display for Fault {
    fn fmt<W: fmt::Write>(&self, f: &mut fmt::Formatter<W>) -> fmt::Result {
        write!(f, "F{}", self.number())
    }
}

impl Error for Fault {}

impl From<AllocError> for Fault {
    ghost use Rattle.ghc_term.specs.declared.fault.Fault.{Fault};

    ghost from_gives = { λ _ fault. fault ≡ Fault.Memory };

    fn from(_error: AllocError) -> Fault {
        Fault::Memory
    }
}

impl<T: Drop> From<AllocFailed<T>> for Fault {
    ghost use Rattle.ghc_term.specs.declared.fault.Fault.{Fault};

    ghost from_gives = { λ _ fault. fault ≡ Fault.Memory };

    fn from(_error: AllocFailed<T>) -> Fault {
        Fault::Memory
    }
}
