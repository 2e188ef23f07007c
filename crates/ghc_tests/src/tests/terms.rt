// Great terms, the bounds of input terms, and goals that no command prints today.
use crate::tests::building::{atom, long_atom, nested, ones, over, query, variable};
use ghc_term::{
    Expr, Fault, Goal, Ground, Limit, Operator, Store, Term, print, print_goal, print_goal_written,
    print_written,
};
use std::alloc::{AllocError, Global};
use std::test::Fail;

const MANY: u32 = 100_000;

// Whether the term is `[1,1,..|_0_2]`, compared with one that is built once more.
fn is_built_again(alloc: Global, term: &Term) -> Result<bool, AllocError> {
    let again = ones(alloc, MANY, variable(2))?;
    term.same(alloc, &again)
}

// How many bytes the term has as it is written.
fn written_len(alloc: Global, term: &Term) -> Result<usize, AllocError> {
    let text = print_written(alloc, term)?;
    Ok(text.len())
}

// How many bytes such a list has.
fn list_len(alloc: Global) -> Result<usize, AllocError> {
    let list = ones(alloc, MANY, variable(2))?;
    if is_built_again(alloc, &list)? {
        written_len(alloc, &list)
    } else {
        Ok(0)
    }
}

// How many bytes a term of so many levels has.
fn deep_len(alloc: Global) -> Result<usize, AllocError> {
    let deep = nested(alloc, Term::integer(1), MANY, 1)?;
    written_len(alloc, &deep)
}

#[test]
fn great_terms_take_no_stack(rt: HostRuntime) -> Result<(), Fail> {
    assert!(rt; list_len(rt.alloc())? == 200_006);
    assert!(rt; deep_len(rt.alloc())? == 300_001);
    Ok(())
}

// Binds `_0_place`, which must be unbound.
fn bind(store: &mut Store, place: u32, value: Term) -> Result<(), AllocError> {
    let x = query(place);
    if store.get(x).is_some() {
        return Err(AllocError);
    }
    match store.bind(x, value) {
        Ok(()) => Ok(()),
        Err(_) => Err(AllocError),
    }
}

// The store in which each of the variables from `_0_1` on is the next one, and the last is `[1,1,..|_0_0]`.
fn aliases(alloc: Global) -> Result<Store, AllocError> {
    let mut store = Store::new(alloc);
    for place in 1..MANY {
        bind(&mut store, place, variable(place + 1))?;
    }
    let list = ones(alloc, MANY, variable(0))?;
    bind(&mut store, MANY, list)?;
    Ok(store)
}

// How many variables the chain of the term has, whether it reaches `_0_0`, and how many bytes are printed of it.
fn seen(alloc: Global, store: &Store, term: &Term) -> Result<(usize, bool, usize), Fault> {
    let passed = store.chain(alloc, term)?.len();
    let reached = store.reaches(term, query(0))?;
    let text = print(alloc, term, store)?;
    Ok((passed, reached, text.len()))
}

// The same of `_0_1` in that store.
fn seen_in_aliases(alloc: Global) -> Result<(usize, bool, usize), Fault> {
    let store = aliases(alloc)?;
    seen(alloc, &store, &variable(1))
}

#[test]
fn a_long_chain_is_followed(rt: HostRuntime) {
    assert!(rt; matches!(seen_in_aliases(rt.alloc()), Ok((100_000, true, 200_006))));
}

// `1 + 1 + ..` with half a million operators.
fn sum(alloc: Global) -> Result<Expr, AllocError> {
    let mut sum = Expr::leaf(Term::integer(1));
    for _ in 0..500_000 {
        sum = Expr::operation(alloc, Operator::Add, sum, Expr::leaf(Term::integer(1)))?;
    }
    Ok(sum)
}

// Whether the expression is that sum, compared with one that is built once more.
fn is_sum(alloc: Global, expression: &Expr) -> Result<bool, AllocError> {
    let again = sum(alloc)?;
    expression.same(alloc, &again)
}

// How many bytes the goal has as it is written.
fn written_goal_len(alloc: Global, goal: &Goal) -> Result<usize, AllocError> {
    let text = print_goal_written(alloc, goal)?;
    Ok(text.len())
}

// How many bytes the assignment of that sum to `_0_1` has.
fn sum_len(alloc: Global) -> Result<usize, AllocError> {
    let sum = sum(alloc)?;
    if !is_sum(alloc, &sum)? {
        return Ok(0);
    }
    written_goal_len(alloc, &Goal::assign(variable(1), sum))
}

#[test]
fn half_a_million_operators_take_no_stack(rt: HostRuntime) -> Result<(), Fail> {
    assert!(rt; sum_len(rt.alloc())? == 3_000_007);
    Ok(())
}

fn is_accepted(alloc: Global, term: Term) -> Result<bool, AllocError> {
    Ok(Ground::of(alloc, term)?.is_some())
}

// Whether the name over so many times 1, or without arguments, is an input term.
fn is_name_accepted(alloc: Global, name: &str, count: usize) -> Result<bool, AllocError> {
    let term = over(alloc, name, &Term::integer(1), count)?;
    is_accepted(alloc, term)
}

const NAMES: &[(&str, usize, bool)] = &[
    ("a", 0, true),
    ("z", 0, true),
    ("aZ_09", 0, true),
    ("mode", 0, true),
    ("mo", 0, true),
    ("[]", 0, true),
    ("", 0, false),
    ("mod", 0, false),
    ("A", 0, false),
    ("_a", 0, false),
    ("0", 0, false),
    ("a-b", 0, false),
    ("a b", 0, false),
    ("a@", 0, false),
    ("a[", 0, false),
    ("a`", 0, false),
    ("a{", 0, false),
    ("[", 0, false),
    (".", 0, false),
    ("f", 1, true),
    ("f", 255, true),
    ("f", 256, false),
    (".", 1, false),
    (".", 2, true),
    (".", 3, false),
    ("[]", 1, false),
    ("mod", 2, false),
];

#[test]
fn names_of_input_terms(rt: HostRuntime) -> Result<(), Fail> {
    for (name, count, wanted) in NAMES {
        assert!(rt;
            is_name_accepted(rt.alloc(), name, *count)? == *wanted,
            "{name}/{count}"
        );
    }
    Ok(())
}

// Whether a list of so many cells, with `[]` after them, is an input term within so many structures.
fn is_list_accepted(alloc: Global, cells: u32, levels: u32) -> Result<bool, AllocError> {
    let list = ones(alloc, cells, atom(alloc, "[]")?)?;
    let term = nested(alloc, list, levels, 1)?;
    is_accepted(alloc, term)
}

// Whether the term is an input term within so many structures of so many times the one within.
fn is_nest_accepted(
    alloc: Global,
    term: Term,
    levels: u32,
    count: usize,
) -> Result<bool, AllocError> {
    let term = nested(alloc, term, levels, count)?;
    is_accepted(alloc, term)
}

// Cells and levels: 4,999 cells have 9,999 nodes, and a structure one more; a list opens a bracket of its own.
const LISTS: &[(u32, u32, bool)] = &[
    (4_999, 1, true),
    (4_999, 2, false),
    (5_000, 0, false),
    (100_000, 0, false),
    (1, 63, true),
    (1, 64, false),
];

// Levels, and how many parts each has: the last term unfolds to more nodes than any walk could meet.
const NESTS: &[(u32, usize, bool)] = &[
    (64, 1, true),
    (65, 1, false),
    (100_000, 1, false),
    (200, 2, false),
];

#[test]
fn sizes_of_input_terms(rt: HostRuntime) -> Result<(), Fail> {
    for (cells, levels, wanted) in LISTS {
        assert!(rt;
            is_list_accepted(rt.alloc(), *cells, *levels)? == *wanted,
            "{cells} {levels}"
        );
    }
    for (levels, count, wanted) in NESTS {
        let accepted = is_nest_accepted(rt.alloc(), Term::integer(1), *levels, *count)?;
        assert!(rt; accepted == *wanted, "{levels} {count}");
    }
    Ok(())
}

#[test]
fn texts_of_input_terms(rt: HostRuntime) -> Result<(), Fail> {
    assert!(rt; is_accepted(rt.alloc(), long_atom(rt.alloc(), 1_048_576)?)?);
    assert!(rt; !is_accepted(rt.alloc(), long_atom(rt.alloc(), 1_048_577)?)?);
    assert!(rt; !is_accepted(rt.alloc(), variable(1))?);
    assert!(rt; !is_nest_accepted(rt.alloc(), variable(1), 1, 1)?);
    Ok(())
}

// How many bytes are printed of the goal, none where it is refused for its length.
fn printed_goal_len(alloc: Global, goal: &Goal) -> Result<usize, Fault> {
    match print_goal(alloc, goal, &Store::new(alloc)) {
        Ok(text) => Ok(text.len()),
        Err(Fault::Limit(Limit::Print)) => Ok(0),
        Err(fault) => Err(fault),
    }
}

// The same of `a..a = 1`, whose atom has so many bytes.
fn long_goal_len(alloc: Global, bytes: usize) -> Result<usize, Fault> {
    let atom = long_atom(alloc, bytes)?;
    printed_goal_len(alloc, &Goal::unify(atom, Term::integer(1)))
}

// Whether a stream goal is printed so.
fn is_stream_printed(alloc: Global, wanted: &str) -> bool {
    match print_goal(alloc, &Goal::stream(12, query(1)), &Store::new(alloc)) {
        Ok(text) => text.as_str() == wanted,
        Err(_) => false,
    }
}

#[test]
fn goals_are_printed(rt: HostRuntime) {
    assert!(rt; is_stream_printed(rt.alloc(), "instream 12 _0_1"));
    assert!(rt; matches!(long_goal_len(rt.alloc(), 1_048_572), Ok(1_048_576)));
    assert!(rt; matches!(long_goal_len(rt.alloc(), 1_048_573), Ok(0)));
}
