ghost use Rattle.std.specs.Prelude.{◌≡◌, ◌∷◌, [], codes, IfOk, OnOk};
ghost use Rattle.lps_model.specs.Known.{are_known, is_known, learnt, unknown_among, with_var, written};

use lps_terms::Name;
use std::alloc::{AllocError, Global};

/// Whether the variable is among the known ones.
pub fn is_known(known: &[u32], variable: u32) -> bool
    ensures { result ≡ is_known known.now variable }
{
    known.contains(&variable)
}

/// Whether all of these variables are among the known ones.
pub fn are_known(known: &[u32], variables: &[u32]) -> bool
    ensures { result ≡ are_known known.now variables.now }
{
    variables.iter().all(|variable| is_known(known, *variable))
}

fn learn_one(known: &mut Vec<u32>, variable: u32) -> Result<(), AllocError>
    ensures { OnOk result (known.new.items ≡ with_var known.old.items variable) }
{
    if is_known(known.as_slice(), variable) {
        return Ok(());
    }
    known.push(variable)?;
    Ok(())
}

/// Adds these variables to the known ones, each once.
pub fn learn(known: &mut Vec<u32>, variables: &[u32]) -> Result<(), AllocError>
    ensures { OnOk result (known.new.items ≡ learnt known.old.items variables.now) }
{
    for variable in variables {
        learn_one(known, *variable)?;
    }
    Ok(())
}

/// The written name of a variable or a time; `_` for one that has none.
fn written_name(alloc: Global, names: &[Name], variable: u32) -> Result<Name, AllocError>
    ensures { IfOk result (λ name. name ≡ written names.now variable) }
{
    match names.get(variable as usize) {
        Some(name) => name.copy(alloc),
        None => blank_name(alloc),
    }
}

fn blank_name(alloc: Global) -> Result<Name, AllocError>
    ensures { IfOk result (λ name. name ≡ codes "_") }
{
    let name = Name::new(alloc, b"_")?;
    Ok(name.unwrap())
}

/// The written name of the first one of these variables that is not known.
pub fn unknown_among(
    alloc: Global,
    names: &[Name],
    known: &[u32],
    variables: &[u32],
) -> Result<Option<Name>, AllocError>
    ensures { IfOk result (λ unknown. unknown ≡ unknown_among names.now known.now variables.now) }
{
    for variable in variables {
        if !is_known(known, *variable) {
            let name = written_name(alloc, names, *variable)?;
            return Ok(Some(name));
        }
    }
    Ok(None)
}
