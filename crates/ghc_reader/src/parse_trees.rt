// From the bytes of a text to its parse tree: the tests that a text has to pass, one after the other.
ghost use Rattle.std.specs.Prelude.{true, false, Bool, List, ℕ, ◌≡◌, ◌⊎◌, ◌+◌, ◌<◌, length, IfOk, IfErr};
ghost use Rattle.ghc_reader.specs.inner.Views.{view, goal_views, clause_views};
ghost use Rattle.ghc_reader.specs.declared.lexer.value.Reserved.TheVariants.{Allowed, Refused};
ghost use Rattle.ghc_term.specs.Limit.{text_limit};
ghost use Rattle.ghc_reader.specs.Limits.{of_query};
ghost use Rattle.ghc_reader.specs.Viable.{IfSyntax};
ghost use Rattle.ghc_reader.specs.ClauseLines.{AreClauseLines};
ghost use Rattle.ghc_reader.specs.Tests.{a_program, a_query, asked, an_ask, a_body, a_term, IsShallow, IsRead, IsFaultAt, IsTokenRefusal, IsRefusal};

pub(crate) mod laws;

use crate::clause_lines::{ClauseLines, lines_of};
use crate::depth::{MOST_OPEN_IN_BODY, is_deeper_than, is_too_deep};
use crate::input_parser::parse_term;
use crate::lexer::value::Reserved;
use crate::lexer::{Lexed, all_tokens, tokens};
use crate::limits::levels::{MOST_LEVELS, most_levels};
use crate::limits::{program_limit, query_limit, term_limit};
use crate::parse_error::ParseError;
use crate::parser::{parse_program, parse_query};
use crate::place::Place;
use crate::reserved::{misplaced_in_body, misplaced_in_program, misplaced_in_query};
use crate::source::{SourceClause, SourceGoal, SourceTerm};
use ghc_term::{Fault, Limit};
use std::alloc::Global;

// The tokens of a text that is not too long, has no bad byte and is not nested too deep.
fn shallow_tokens(alloc: Global, text: &[u8], reserved: Reserved) -> Result<Lexed, Fault>
    ensures found { IfOk result (λ lexed. IsShallow reserved true text.now lexed.tokens.items lexed.places.items) }
    ensures paired { IfOk result (λ lexed. length lexed.places.items ≡ length lexed.tokens.items + 1) }
    ensures fault { IfErr result (λ fault. (fault ≡ Fault.Memory) ⊎ IsTokenRefusal reserved true text.now fault) }
    ensures too_long { text_limit < length text.now → result ≡ Err (Fault.Limit Limit.Text) }
{
    let lexed = tokens(alloc, text, reserved)?;
    if is_too_deep(&lexed.tokens) {
        return Err(Fault::Limit(Limit::Depth));
    }
    Ok(lexed)
}

// The tokens of a text of any length that has no bad byte.
fn body_tokens(alloc: Global, text: &[u8]) -> Result<Lexed, Fault>
    ensures found { IfOk result (λ lexed. IsShallow Allowed false text.now lexed.tokens.items lexed.places.items) }
    ensures paired { IfOk result (λ lexed. length lexed.places.items ≡ length lexed.tokens.items + 1) }
    ensures fault { IfErr result (λ fault. (fault ≡ Fault.Memory) ⊎ IsTokenRefusal Allowed false text.now fault) }
{
    all_tokens(alloc, text, Reserved::Allowed)
}

// The refusal of the token with `front` tokens in front of it, or of the end of the text.
fn fault_at(places: &[Place], front: usize) -> Fault
    requires { front < length places.now }
    ensures { IsFaultAt places.now front result }
{
    places[front].fault()
}

// The refusal where a parse stopped.
fn fault_of(error: ParseError, places: &[Place]) -> Fault
    requires { IfSyntax error (λ front. front < length places.now) }
    ensures memory { error ≡ ParseError.Memory → result ≡ Fault.Memory }
    ensures syntax { IfSyntax error (λ front. IsFaultAt places.now front result) }
{
    match error {
        ParseError::Memory => Fault::Memory,
        ParseError::Syntax(front) => fault_at(places, front),
    }
}

/// The clauses that the text of a program says. Else its refusal: the first of the tests of a text that it does not pass
/// says which and where; or `Memory`. Time and memory grow with the text.
pub(crate) fn parsed_program(alloc: Global, text: &[u8]) -> Result<Vec<SourceClause>, Fault>
    ensures found { IfOk result (λ clauses. IsRead a_program text.now (clause_views clauses.items)) }
    ensures fault { IfErr result (λ fault. (fault ≡ Fault.Memory) ⊎ IsRefusal a_program text.now fault) }
    ensures too_long { text_limit < length text.now → result ≡ Err (Fault.Limit Limit.Text) }
{
    let lexed = shallow_tokens(alloc, text, Reserved::Refused)?;
    program_clauses(alloc, &lexed)
}

/// The lines at which the clauses of the text of a program begin, or its refusal, as `parsed_program`.
pub(crate) fn parsed_lines(alloc: Global, text: &[u8]) -> Result<ClauseLines, Fault>
    ensures found { IfOk result (AreClauseLines text.now) }
    ensures fault { IfErr result (λ fault. (fault ≡ Fault.Memory) ⊎ IsRefusal a_program text.now fault) }
{
    let lexed = shallow_tokens(alloc, text, Reserved::Refused)?;
    let clauses = program_clauses(alloc, &lexed)?;
    Ok(lines_of(alloc, &clauses, &lexed)?)
}

// The clauses that the tokens of the text of a program say.
fn program_clauses(alloc: Global, lexed: &Lexed) -> Result<Vec<SourceClause>, Fault>
    requires { length lexed.now.places.items ≡ length lexed.now.tokens.items + 1 }
    ensures found { (text : List ℕ) → IsShallow Refused true text lexed.now.tokens.items lexed.now.places.items
        → IfOk result (λ clauses. IsRead a_program text (clause_views clauses.items)) }
    ensures fault { (text : List ℕ) → IsShallow Refused true text lexed.now.tokens.items lexed.now.places.items
        → IfErr result (λ fault. (fault ≡ Fault.Memory) ⊎ IsRefusal a_program text fault) }
{
    let clauses = match parse_program(alloc, &lexed.tokens) {
        Ok(clauses) => clauses,
        Err(error) => return Err(fault_of(error, &lexed.places)),
    };
    if let Some(left) = misplaced_in_program(&clauses) {
        return Err(fault_at(&lexed.places, lexed.tokens.len() - left));
    }
    if let Some(limit) = program_limit(alloc, &clauses)? {
        return Err(Fault::Limit(limit));
    }
    Ok(clauses)
}

/// The goals that the text of a query says, or its refusal, as `parsed_program`.
pub(crate) fn parsed_query(alloc: Global, text: &[u8]) -> Result<Vec<SourceGoal>, Fault>
    ensures found { IfOk result (λ goals. IsRead a_query text.now (goal_views goals.items)) }
    ensures fault { IfErr result (λ fault. (fault ≡ Fault.Memory) ⊎ IsRefusal a_query text.now fault) }
    ensures too_long { text_limit < length text.now → result ≡ Err (Fault.Limit Limit.Text) }
{
    let lexed = shallow_tokens(alloc, text, Reserved::Refused)?;
    let goals = match parse_query(alloc, &lexed.tokens) {
        Ok(goals) => goals,
        Err(error) => return Err(fault_of(error, &lexed.places)),
    };
    if let Some(left) = misplaced_in_query(&goals) {
        return Err(fault_at(&lexed.places, lexed.tokens.len() - left));
    }
    if let Some(limit) = query_limit(alloc, &goals)? {
        return Err(Fault::Limit(limit));
    }
    Ok(goals)
}

/// The goals that the text of what is asked for says, or its refusal, as `parsed_program`. Reserved variables may stand in it. Last
/// it is tested how deep operators stand inside one another.
pub(crate) fn parsed_ask(alloc: Global, text: &[u8]) -> Result<Vec<SourceGoal>, Fault>
    ensures found { IfOk result (λ goals. IsRead an_ask text.now (goal_views goals.items)) }
    ensures fault { IfErr result (λ fault. (fault ≡ Fault.Memory) ⊎ IsRefusal an_ask text.now fault) }
    ensures too_long { text_limit < length text.now → result ≡ Err (Fault.Limit Limit.Text) }
{
    let lexed = shallow_tokens(alloc, text, Reserved::Allowed)?;
    let goals = asked_goals(alloc, &lexed)?;
    if most_levels(&goals) > MOST_LEVELS {
        return Err(Fault::Limit(Limit::Depth));
    }
    Ok(goals)
}

/// The goals that a text of any length asks for, as a history has it, or its refusal, as `parsed_ask`. `Memory` also where more than
/// `MOST_OPEN_IN_BODY` brackets are open at one place, as the stack may not hold what the parser calls.
pub(crate) fn parsed_body(alloc: Global, text: &[u8]) -> Result<Vec<SourceGoal>, Fault>
    ensures found { IfOk result (λ goals. IsRead a_body text.now (goal_views goals.items)) }
    ensures fault { IfErr result (λ fault. (fault ≡ Fault.Memory) ⊎ IsRefusal a_body text.now fault) }
{
    let lexed = body_tokens(alloc, text)?;
    if is_deeper_than(MOST_OPEN_IN_BODY, &lexed.tokens) {
        return Err(Fault::Memory);
    }
    asked_goals(alloc, &lexed)
}

// The goals that the tokens of a text ask for, whether or not its length and its depth were tested.
fn asked_goals(alloc: Global, lexed: &Lexed) -> Result<Vec<SourceGoal>, Fault>
    requires { length lexed.now.places.items ≡ length lexed.now.tokens.items + 1 }
    ensures found { (measured : Bool) (text : List ℕ) → IsShallow Allowed measured text lexed.now.tokens.items lexed.now.places.items
        → IfOk result (λ goals. IsRead (asked measured of_query) text (goal_views goals.items)) }
    ensures fault { (measured : Bool) (text : List ℕ) → IsShallow Allowed measured text lexed.now.tokens.items lexed.now.places.items
        → IfErr result (λ fault. (fault ≡ Fault.Memory) ⊎ IsRefusal (asked measured of_query) text fault) }
{
    let goals = match parse_query(alloc, &lexed.tokens) {
        Ok(goals) => goals,
        Err(error) => return Err(fault_of(error, &lexed.places)),
    };
    if let Some(left) = misplaced_in_body(&goals) {
        return Err(fault_at(&lexed.places, lexed.tokens.len() - left));
    }
    if let Some(limit) = query_limit(alloc, &goals)? {
        return Err(Fault::Limit(limit));
    }
    Ok(goals)
}

/// The input term that the text says, or its refusal, as `parsed_program`.
pub(crate) fn parsed_term(alloc: Global, text: &[u8]) -> Result<SourceTerm, Fault>
    ensures found { IfOk result (λ term. IsRead a_term text.now (view term)) }
    ensures fault { IfErr result (λ fault. (fault ≡ Fault.Memory) ⊎ IsRefusal a_term text.now fault) }
    ensures too_long { text_limit < length text.now → result ≡ Err (Fault.Limit Limit.Text) }
{
    let lexed = shallow_tokens(alloc, text, Reserved::Refused)?;
    let term = match parse_term(alloc, &lexed.tokens) {
        Ok(term) => term,
        Err(error) => return Err(fault_of(error, &lexed.places)),
    };
    if let Some(limit) = term_limit(&term) {
        return Err(Fault::Limit(limit));
    }
    Ok(term)
}
