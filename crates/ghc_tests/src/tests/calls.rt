// Calls that neither a command of the console nor an event of a world makes: where memory is left they answer, and answer this.
use crate::tests::building::{query, variable};
use crate::tests::cores::{are_taken, core_of};
use ghc_core::{Command, Core};
use ghc_fire::Ask;
use ghc_reader::{read_ask, read_ground_term};
use ghc_records::{Record, push_record};
use ghc_term::{Fault, GoalName, VarName, print};
use ghc_trace::{Binder, Port, ports, push_ports, who};
use std::alloc::Global;
use std::test::Fail;

// Whether these are the numbers of the kept steps, in recorded order.
fn keeps(alloc: Global, core: &Core, wanted: &[u32]) -> bool {
    match core.kept_numbers(alloc) {
        Ok(numbers) => numbers.as_slice() == wanted,
        Err(_) => false,
    }
}

// Rolls the step of this number back, and says whether it goes with these steps.
fn is_rolled(alloc: Global, core: &mut Core, number: u32, wanted: &[u32]) -> bool {
    match core.rollback(alloc, number) {
        Ok(numbers) => numbers.as_slice() == wanted,
        Err(_) => false,
    }
}

// Whether the first variable of the query is printed so.
fn prints(alloc: Global, core: &Core, wanted: &str) -> bool {
    match print(alloc, &variable(1), core.store()) {
        Ok(text) => text.as_str() == wanted,
        Err(_) => false,
    }
}

// Whether the record is written so.
fn is_record(alloc: Global, record: &Record, wanted: &str) -> bool {
    let mut out = String::new(alloc);
    match push_record(record, &mut out) {
        Ok(()) => out.as_str() == wanted,
        Err(_) => false,
    }
}

// Whether this record is kept.
fn is_kept(alloc: Global, core: &Core, number: u32, wanted: &str) -> bool {
    match core.records().get(number) {
        Some(record) => is_record(alloc, record, wanted),
        None => false,
    }
}

// Whether the command would add this record.
fn is_foreseen(alloc: Global, core: &Core, command: &Command, wanted: &str) -> bool {
    match core.foresee(alloc, command) {
        Ok(record) => is_record(alloc, &record, wanted),
        Err(_) => false,
    }
}

// Whether the first stream would take the input by this record.
fn is_input_foreseen(alloc: Global, core: &Core, text: &str, wanted: &str) -> bool {
    match read_ground_term(alloc, text.as_bytes()) {
        Ok(input) => is_foreseen(alloc, core, &Command::Input(1, input), wanted),
        Err(_) => false,
    }
}

// Gives the first stream the input, and says whether that is the step of this number.
fn is_given(alloc: Global, core: &mut Core, text: &str, number: u32) -> bool {
    match read_ground_term(alloc, text.as_bytes()) {
        Ok(input) => matches!(core.input(alloc, 1, &input), Ok(taken) if taken == number),
        Err(_) => false,
    }
}

const SUM: &str = "
sum([],A,R) :- true | R = A.
sum([X|S],A,R) :- true | B := A + X, sum(S,B,R).
";

const FIRST: &str = "1 0.1 in 5 reads - binds _0_1=[5|_1_1] makes 1.1";

const END: &str = "3 2.1 end reads - binds _2_1=[] makes -";

// Gives the first stream two inputs, of which the first is foreseen, which takes nothing. It has two lines, as none of a session has.
fn is_fed(alloc: Global, core: &mut Core) -> bool {
    is_input_foreseen(alloc, core, "5", FIRST)
        && keeps(alloc, core, &[])
        && is_given(alloc, core, " % five\n 5 ", 1)
        && is_kept(alloc, core, 1, FIRST)
        && is_given(alloc, core, "7", 2)
}

// Closes the first stream, which is foreseen.
fn is_closed(alloc: Global, core: &mut Core) -> bool {
    is_foreseen(alloc, core, &Command::Close(1), END)
        && matches!(core.close(alloc, 1), Ok(3))
        && is_kept(alloc, core, 3, END)
        && keeps(alloc, core, &[1, 2, 3])
        && prints(alloc, core, "[5,7]")
}

// The step of the sum that takes the first input.
const SUMMED: &[(GoalName, u32)] = &[(GoalName { step: 0, place: 2 }, 4)];

// Rolls the first input back, with all that came of it, and takes it again, and then what the sum did with it.
fn is_redone(alloc: Global, core: &mut Core) -> bool {
    is_rolled(alloc, core, 1, &[1, 2, 3, 4])
        && keeps(alloc, core, &[])
        && core.redo(alloc, 1).is_ok()
        && core.redo(alloc, 4).is_ok()
        && keeps(alloc, core, &[1, 4])
        && prints(alloc, core, "[5|_1_1]")
}

const PORTS: &str = "REDU 4 0.2 by 2
CALL 4.1 _4_1 := 0 + 5
CALL 4.2 sum(_1_1,_4_1,_0_2)
";

// Whether the ports are written so.
fn are_written(alloc: Global, ports: &[Port], wanted: &str) -> bool {
    let mut out = String::new(alloc);
    match push_ports(ports, &mut out) {
        Ok(()) => out.as_str() == wanted,
        Err(_) => false,
    }
}

// Whether these are the ports of the step.
fn has_ports(alloc: Global, core: &Core, number: u32, wanted: &str) -> bool {
    let Some(taken) = core.records().get(number) else {
        return false;
    };
    match ports(alloc, taken) {
        Ok(ports) => are_written(alloc, ports.as_slice(), wanted),
        Err(_) => false,
    }
}

#[test]
fn a_stream_is_fed_and_rolled_back(rt: HostRuntime) -> Result<(), Fail> {
    let alloc = rt.alloc();
    let mut core = core_of(alloc, SUM, "instream(S), sum(S,0,R)").ok_or("a core")?;
    assert!(rt; is_fed(alloc, &mut core));
    assert!(rt; is_closed(alloc, &mut core));
    assert!(rt; are_taken(alloc, &mut core, SUMMED));
    assert!(rt; is_redone(alloc, &mut core));
    assert!(rt; has_ports(alloc, &core, 4, PORTS));
    Ok(())
}

const ASKED: &str = "1 - ask _0_1 = [], _0_2 = _1_1 reads - binds - makes 1.1,1.2";

// Asks for these goals, which is foreseen, and says whether that is the step of this number, with this record.
fn is_asked(alloc: Global, core: &mut Core, text: &str, number: u32, wanted: &str) -> bool {
    let Ok(written) = read_ask(alloc, text.as_bytes(), core.query().variables()) else {
        return false;
    };
    let Ok(ask) = Ask::of_written(alloc, written) else {
        return false;
    };
    let Ok(same) = ask.share() else {
        return false;
    };
    is_foreseen(alloc, core, &Command::Ask(same), wanted)
        && matches!(core.ask(alloc, &ask), Ok(taken) if taken == number)
        && is_kept(alloc, core, number, wanted)
}

// Whether the chronicle of the core tells one entry, the step 1, after an opening without steps.
fn tells_one_entry(alloc: Global, core: &Core) -> bool {
    match core.chronicle(alloc, Vec::new(alloc)) {
        Ok(told) => told.opening().steps().is_empty()
            && told.entries().len() == 1
            && told.next() == 2,
        Err(_) => false,
    }
}

#[test]
fn goals_are_asked_for(rt: HostRuntime) -> Result<(), Fail> {
    let alloc = rt.alloc();
    let mut core = core_of(alloc, SUM, "sum(S,A,R)").ok_or("a core")?;
    assert!(rt; is_asked(alloc, &mut core, "S = [], A = X", 1, ASKED));
    assert!(rt; keeps(alloc, &core, &[1]));
    assert!(rt; tells_one_entry(alloc, &core));
    Ok(())
}

// The goals of `X = Y, X = 3, Z = 1`, each with the number of its step.
const ALIASED: &[(GoalName, u32)] = &[
    (GoalName { step: 0, place: 1 }, 1),
    (GoalName { step: 0, place: 2 }, 2),
    (GoalName { step: 0, place: 3 }, 3),
];

// What bound the variables of the chain of X then.
const BOUND: &[Binder] = &[
    Binder {
        variable: VarName { step: 0, place: 1 },
        step: 1,
    },
    Binder {
        variable: VarName { step: 0, place: 2 },
        step: 2,
    },
];

// Whether these steps bound the variables of the chain of X.
fn are_binders(alloc: Global, core: &Core, wanted: &[Binder]) -> bool {
    match who(alloc, core, query(1)) {
        Ok(binders) => binders.as_slice() == wanted,
        Err(_) => false,
    }
}

// Puts the record into a lawful order, and not into one in which step 2 stands before step 1, whose binding it read.
fn is_arranged(alloc: Global, core: &mut Core) -> bool {
    core.arrange(alloc, &[3, 1, 2]).is_ok()
        && keeps(alloc, core, &[3, 1, 2])
        && matches!(
            core.arrange(alloc, &[2, 1, 3]),
            Err(Fault::NotLawful { .. })
        )
        && keeps(alloc, core, &[3, 1, 2])
}

// The second goal, taken again where the first one is not: it binds X, and Y no more.
const AGAIN: &[(GoalName, u32)] = &[(GoalName { step: 0, place: 2 }, 4)];

// Whether step 1 is not redone then, as it would bind Y in place of X.
fn is_changed(alloc: Global, core: &mut Core) -> bool {
    is_rolled(alloc, core, 1, &[1, 2])
        && are_taken(alloc, core, AGAIN)
        && matches!(core.redo(alloc, 1), Err(Fault::Changed))
}

#[test]
fn a_record_is_arranged(rt: HostRuntime) -> Result<(), Fail> {
    let alloc = rt.alloc();
    let mut core = core_of(alloc, "", "X = Y, X = 3, Z = 1").ok_or("a core")?;
    assert!(rt; are_taken(alloc, &mut core, ALIASED));
    assert!(rt; are_binders(alloc, &core, BOUND));
    assert!(rt; is_arranged(alloc, &mut core));
    assert!(rt; is_changed(alloc, &mut core));
    Ok(())
}
