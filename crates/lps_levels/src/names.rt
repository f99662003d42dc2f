ghost use Rattle.std.specs.Prelude.{◌≡◌, ◌++◌, ◌∷◌, [], List, IfOk, OnOk};
ghost use Rattle.lps_terms.specs.declared.decl.Decl.{Decl as Declared};
ghost use Rattle.lps_model.specs.Calls.{is_called as is_called_of};
ghost use Rattle.lps_model.specs.Program.{declarations, declared_in};
ghost use Rattle.lps_levels.specs.Names.{AreCalledAmong, AreCalledNames};

use crate::name_set::Names;
use lps_model::Kinds;
use lps_terms::{Body, Decl, Kind, Text};
use std::alloc::{AllocError, Global};

/// The timeless, derived and macro names of a text.
pub fn called_names(alloc: Global, text: &Text, kinds: &Kinds) -> Result<Names, AllocError>
    requires { kinds.now ≡ declarations text.now }
    ensures { IfOk result (AreCalledNames kinds.now) }
{
    let mut names = Names::new(alloc);
    for statement in text.statements.as_slice() {
        add_declared(alloc, &mut names, kinds, &statement.body)?;
    }
    Ok(names)
}

fn add_declared(
    alloc: Global,
    names: &mut Names,
    kinds: &Kinds,
    body: &Body,
) -> Result<(), AllocError>
    ensures { (seen : List Declared) → AreCalledAmong kinds.now seen names.old → OnOk result (AreCalledAmong kinds.now (seen ++ declared_in body.now) names.new) }
{
    if let Body::Declare(decls) = body {
        for decl in decls.as_slice() {
            add_called(alloc, names, kinds, decl)?;
        }
    }
    Ok(())
}

fn add_called(
    alloc: Global,
    names: &mut Names,
    kinds: &Kinds,
    decl: &Decl,
) -> Result<(), AllocError>
    ensures { (seen : List Declared) → AreCalledAmong kinds.now seen names.old → OnOk result (AreCalledAmong kinds.now (seen ++ decl.now ∷ []) names.new) }
{
    if is_called(kinds.kind(&decl.name)) {
        names.insert(alloc, &decl.name)?;
    }
    Ok(())
}

fn is_called(kind: Option<Kind>) -> bool
    ensures { result ≡ is_called_of kind }
{
    match kind {
        Some(Kind::Timeless | Kind::Derived | Kind::Macro) => true,
        _ => false,
    }
}
