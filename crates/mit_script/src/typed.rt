//! Scripts that are accepted, with the types of their variables.
ghost use Rattle.std.specs.Prelude.{◌≡◌, Ok};
ghost use denote.Struct.Props.{props};
ghost use Rattle.mit_script.specs.Accepted.{checked};
ghost use Rattle.mit_script.specs.Trees.{IsFormed};
ghost use Rattle.mit_script.specs.FormedOnce.{formed_once};

use crate::lists::VarTypes;
use crate::tree::Script;
use mit_ops::VarType;

/// Why a statement is refused. Where several hold, the first one here is the answer.
#[derive(Clone, Copy, Debug, PartialEq, Eq)]
pub enum CheckCode {
    /// An argument, a bag or a captured name, is not assigned on every path before it.
    Unassigned,
    /// A captured name is no scalar.
    NotScalar,
    /// The operator captures more than `MAX_CAPTURES` scalars.
    TooLarge,
    /// The operator names or gives more than `MAX_COLUMNS` columns.
    TooManyColumns,
    /// The operator has no type, a condition is no truth value, or a variable is assigned another type than first.
    WrongType,
}

/// A script that is accepted, and the types of its variables.
#[derive(Debug, Drop)]
pub struct Typed {
    pub script: Script,
    /// The type of each variable by its number. One that no statement assigns is no scalar and has no columns.
    pub types: VarTypes,
    ghost formed: { IsFormed script } by { Prim.hlevel (props, formed_once) },
    ghost accepted: { checked script ≡ Ok types },
}

impl Typed {
    /// A script and the types with which it is accepted.
    pub fn of(script: Script, types: VarTypes) -> Typed
        requires formed { IsFormed script }
        requires accepted { checked script ≡ Ok types }
        ensures script { result.script ≡ script }
        ensures types { result.types ≡ types }
    {
        Typed { script, types }
    }

    /// The script.
    pub fn script(&self) -> &Script
        ensures value { result.now ≡ self.now.script }
        ensures formed { IsFormed result.now }
    {
        &self.script
    }

    /// The types of its variables.
    pub fn types(&self) -> &[VarType]
        ensures value { result.now ≡ self.now.types }
        ensures accepted { checked self.now.script ≡ Ok result.now }
    {
        self.types.as_slice()
    }
}
