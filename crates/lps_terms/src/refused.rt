ghost use Rattle.std.specs.Prelude.{Some};
ghost use Rattle.lps_terms.specs.Printed.{separated};

use crate::name::Name;
use sqlite_items::Items;
use std::fmt;
use thiserror::Error;

/// Why a text that was read is not accepted. A line is that of a statement's first token.
#[derive(Debug, Drop, Error)]
pub enum Refused {
    /// A predicate has no declaration.
    #[error("text line {line}: undeclared {name}")]
    Undeclared { line: u32, name: Name },
    /// A predicate is declared a second time.
    #[error("text line {line}: declared twice {name}")]
    DeclaredTwice { line: u32, name: Name },
    /// A predicate stands with more or fewer arguments than were declared.
    #[error("text line {line}: wrong arity {name}")]
    WrongArity { line: u32, name: Name },
    /// A predicate stands where its kind has no place.
    #[error("text line {line}: wrong kind {name}")]
    WrongKind { line: u32, name: Name },
    /// A fact of the start holds a variable.
    #[error("text line {line}: not ground")]
    NotGround { line: u32 },
    /// A denial has no event.
    #[error("text line {line}: no event")]
    NoEvent { line: u32 },
    /// The times of a sequence or a denial are not in order.
    #[error("text line {line}: out of order")]
    OutOfOrder { line: u32 },
    /// An event and an action stand in one group.
    #[error("text line {line}: mixed group")]
    MixedGroup { line: u32 },
    /// The times of a macro clause's head are not those of its first and last step.
    #[error("text line {line}: bad head times")]
    BadHeadTimes { line: u32 },
    /// An item needs the value of a variable that nothing before it gives.
    #[error("text line {line}: unknown {var}")]
    Unknown { line: u32, var: Name },
    /// The predicates call one another in a cycle that has no end or goes through `not`.
    #[error("unlevelled {}", Listed(.cycle))]
    Unlevelled { cycle: Items<Name> },
}

/// Names with a comma and a space between each two.
#[derive(Clone, Copy)]
struct Listed<'a>(&'a Items<Name>);

impl fmt::Display for Listed<'_> {
    ghost output = { λ listed. Some (separated listed.0.now) };

    fn fmt<W: fmt::Write>(&self, f: &mut fmt::Formatter<W>) -> fmt::Result {
        let Some((first, rest)) = self.0.as_slice().split_first() else {
            return Ok(());
        };
        write!(f, "{first}")?;
        for name in rest {
            write!(f, ", {name}")?;
        }
        Ok(())
    }
}
