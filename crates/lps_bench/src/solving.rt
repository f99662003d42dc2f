//! Answers by the clauses and facts of a text.
ghost use Rattle.std.specs.Prelude.{◌≡◌, IsTrue, IfOk, IfSome};
ghost use Rattle.std.specs.List.{list_all};
ghost use Rattle.lps_model.specs.Formed.{is_formed};
ghost use Rattle.lps_derivation.specs.Ground.{is_ground};
ghost use Rattle.lps_facts.specs.Facts.{members};
ghost use Rattle.lps_bench.specs.Goals.{HasGoal, IsGoal};

use lps_accept::accept;
use lps_facts::Facts;
use lps_formed::read_texts_are_formed;
use lps_model::{Accepted, JudgeError};
use lps_reader::{ReadError, read_text};
use lps_solve::{Program, above_conds, answers, are_ground};
use lps_terms::{Atom, Body, Cond, Statement, Text, Values};
use lps_unify::Bindings;
use std::alloc::{AllocError, Global};

/// The answers to the conditions of the last clause without arguments of a text, over its initial facts; none where it is no
/// accepted text with such a clause, or has a number that is out of range.
pub fn answers_of_last(alloc: Global, bytes: &[u8]) -> Result<Option<Vec<Values>>, AllocError> {
    let Some(text) = accepted_text(alloc, bytes)? else {
        return Ok(None);
    };
    let program = Box::new(alloc, Program::new(alloc, text)?)?;
    let facts = facts_of(alloc, program.text().text())?;
    answers_in(alloc, &program, &facts)
}

/// Reads bytes as a text, which is then well-formed.
fn formed_text(alloc: Global, bytes: &[u8]) -> Result<Text, ReadError>
    ensures { IfOk result (λ text. IsTrue (is_formed text)) }
{
    read_texts_are_formed();
    read_text(alloc, bytes)
}

/// The bytes as an accepted text, where they are one.
fn accepted_text(alloc: Global, bytes: &[u8]) -> Result<Option<Accepted>, AllocError> {
    match formed_text(alloc, bytes) {
        Ok(text) => match accept(alloc, text) {
            Ok(accepted) => Ok(Some(accepted)),
            Err(JudgeError::NoMemory) => Err(AllocError),
            Err(JudgeError::Refused(_)) => Ok(None),
        },
        Err(ReadError::NoMemory) => Err(AllocError),
        Err(ReadError::Refused(_)) => Ok(None),
    }
}

/// The initial facts of a text.
fn facts_of(alloc: Global, text: &Text) -> Result<Facts, AllocError> {
    let mut facts = Facts::new(alloc);
    for statement in text.statements.as_slice() {
        if let Body::Initially(atoms) = &statement.body {
            for atom in atoms.as_slice() {
                facts.insert(atom)?;
            }
        }
    }
    Ok(facts)
}

/// The conditions of the last clause of a text whose head has no arguments.
fn last_conditions(text: &Text) -> Option<&[Cond]>
    ensures { IfSome result (λ conds. HasGoal text.now.statements conds.now) }
{
    for statement in text.statements.as_slice().iter().rev() {
        if let Some(conds) = goal_of(statement) {
            return Some(conds);
        }
    }
    None
}

/// The conditions of a statement that is a clause whose head has no arguments.
fn goal_of(statement: &Statement) -> Option<&[Cond]>
    ensures { IfSome result (λ conds. IsGoal statement.now conds.now) }
{
    match &statement.body {
        Body::Clause { head, conds } if head.args.is_empty() => Some(conds.as_slice()),
        _ => None,
    }
}

/// Whether all of these facts are ground.
fn are_ground_facts(facts: &[Atom]) -> bool
    ensures { result ≡ list_all (λ fact. list_all is_ground fact.args) facts.now }
{
    facts.iter().all(|fact| are_ground(fact.args.as_slice()))
}

/// Whether all facts are ground.
fn are_all_ground(alloc: Global, facts: &Facts) -> Result<bool, AllocError>
    ensures { IfOk result (λ all. all ≡ list_all (λ fact. list_all is_ground fact.args) (members facts.now)) }
{
    let sorted = facts.sorted(alloc)?;
    Ok(are_ground_facts(sorted.as_slice()))
}

/// The answers to the conditions of the last clause without arguments over facts, where these are ground.
fn answers_in(
    alloc: Global,
    program: &Program,
    facts: &Facts,
) -> Result<Option<Vec<Values>>, AllocError> {
    program.lawful();
    let Some(conds) = last_conditions(program.text().text()) else {
        return Ok(None);
    };
    let Some(variables) = fitting(above_conds(conds)) else {
        return Ok(None);
    };
    if !are_all_ground(alloc, facts)? {
        return Ok(None);
    }
    let mut bindings = Bindings::new(alloc, variables)?;
    let found = answers(alloc, program, facts, conds, &mut bindings)?;
    Ok(Some(found))
}

/// A number of variables, where it is in range.
fn fitting(variables: u64) -> Option<u32>
    ensures { IfSome result (λ fitting. fitting ≡ variables) }
{
    u32::try_from(variables).ok()
}
