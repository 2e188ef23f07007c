// From the tokens of a whole text to its tree.
ghost use Rattle.std.specs.Prelude.{◌≡◌, [], IfOk, IfErr, MatchResult};
ghost use Rattle.ghc_reader.specs.Grammar.{Program, Query, program, query};
ghost use Rattle.ghc_reader.specs.Derived.{clauses_of, query_of};
ghost use Rattle.ghc_reader.specs.inner.Views.{goal_views, clause_views};
ghost use Rattle.ghc_reader.specs.inner.Parts.{EndsProgram, EndsQuery, Fault};
ghost use Rattle.ghc_reader.specs.Viable.{FaultAt, IfSyntax};

use crate::clause_parser::clause;
use crate::front::eat;
use crate::goal_parser::body;
use crate::parse_error::ParseError;
use crate::source::{SourceClause, SourceGoal};
use crate::token::{Mark, Token};
use std::alloc::Global;

/// The clauses that the tokens are, all of the tokens. Where they aren't the tokens of a program, `Syntax` has the
/// number of tokens in front of the first one with which they begin no program. Time and memory grow with the number
/// of tokens.
pub fn parse_program(alloc: Global, tokens: &[Token]) -> Result<Vec<SourceClause>, ParseError>
    ensures found { IfOk result (λ clauses. (p : Program) × (tokens.now ≡ program p []) × (clauses_of p [] ≡ clause_views clauses.items)) }
    ensures only { (p : Program) → tokens.now ≡ program p [] → MatchResult result (λ clauses. clauses_of p [] ≡ clause_views clauses.items) (λ e. e ≡ ParseError.Memory) }
    ensures fault { IfErr result (λ e. IfSyntax e (λ n. FaultAt Program program tokens.now n)) }
{
    match clauses(alloc, tokens) {
        Ok(clauses) => Ok(clauses),
        Err(ParseError::Memory) => Err(ParseError::Memory),
        Err(ParseError::Syntax(left)) => Err(ParseError::Syntax(tokens.len() - left)),
    }
}

fn clauses(alloc: Global, tokens: &[Token]) -> Result<Vec<SourceClause>, ParseError>
    ensures found { IfOk result (λ clauses. (p : Program) × (tokens.now ≡ program p []) × (clauses_of p [] ≡ clause_views clauses.items)) }
    ensures fault { IfErr result (λ e. IfSyntax e (λ left. Fault Program program EndsProgram tokens.now left)) }
{
    let mut clauses = Vec::new(alloc);
    let mut rest = tokens;
    while !rest.is_empty() {
        let (next, behind) = clause(alloc, rest)?;
        clauses.push(next)?;
        rest = behind;
    }
    Ok(clauses)
}

/// The goals that the tokens are, all of the tokens. Where they aren't the tokens of a query, `Syntax` has the
/// number of tokens in front of the first one with which they begin no query. Time and memory grow with the number
/// of tokens.
pub fn parse_query(alloc: Global, tokens: &[Token]) -> Result<Vec<SourceGoal>, ParseError>
    ensures found { IfOk result (λ goals. (q : Query) × (tokens.now ≡ query q []) × (query_of q [] ≡ goal_views goals.items)) }
    ensures only { (q : Query) → tokens.now ≡ query q [] → MatchResult result (λ goals. query_of q [] ≡ goal_views goals.items) (λ e. e ≡ ParseError.Memory) }
    ensures fault { IfErr result (λ e. IfSyntax e (λ n. FaultAt Query query tokens.now n)) }
{
    match goals(alloc, tokens) {
        Ok(goals) => Ok(goals),
        Err(ParseError::Memory) => Err(ParseError::Memory),
        Err(ParseError::Syntax(left)) => Err(ParseError::Syntax(tokens.len() - left)),
    }
}

fn goals(alloc: Global, tokens: &[Token]) -> Result<Vec<SourceGoal>, ParseError>
    ensures found { IfOk result (λ goals. (q : Query) × (tokens.now ≡ query q []) × (query_of q [] ≡ goal_views goals.items)) }
    ensures fault { IfErr result (λ e. IfSyntax e (λ left. Fault Query query EndsQuery tokens.now left)) }
{
    let (goals, rest) = body(alloc, tokens)?;
    if rest.is_empty() {
        return Ok(goals);
    }
    match eat(Mark::Stop, rest) {
        None => Err(ParseError::Syntax(rest.len())),
        Some(after) => {
            if after.is_empty() {
                Ok(goals)
            } else {
                Err(ParseError::Syntax(after.len()))
            }
        }
    }
}
