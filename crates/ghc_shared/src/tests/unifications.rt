// A core of a hundred unifications.
use ghc_core::Core;
use ghc_flat::check;
use ghc_reader::{read_program, read_query};
use ghc_term::{GoalName, push_number};
use std::alloc::{AllocError, Global};

// The goal `0.place`.
pub(crate) fn goal(place: u32) -> GoalName {
    GoalName { step: 0, place }
}

// The query `X1 = 1, X2 = 2, ..` of a hundred goals.
fn query(alloc: Global) -> Result<String, AllocError> {
    let mut text = String::new(alloc);
    text.push_str("X1 = 1")?;
    for number in 2..101 {
        text.push_str(", X")?;
        push_number(number, &mut text)?;
        text.push_str(" = ")?;
        push_number(number, &mut text)?;
    }
    Ok(text)
}

// The core of that query under no clauses.
pub(crate) fn hundred(alloc: Global) -> Option<Core> {
    let Ok(text) = query(alloc) else {
        return None;
    };
    let Ok(query) = read_query(alloc, text.as_bytes()) else {
        return None;
    };
    let Ok(source) = read_program(alloc, b"") else {
        return None;
    };
    let Ok(program) = check(alloc, source, &query) else {
        return None;
    };
    Core::new(alloc, program, query).ok()
}
