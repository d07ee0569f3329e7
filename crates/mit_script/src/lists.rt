//! Lists inside scripts: each is made from a `Vec` without taking memory.
ghost use Rattle.std.specs.Prelude.{◌≡◌, ◌≤◌, length};
ghost use Rattle.mit_lex.specs.declared.limits.TheConstants.{MAX_WORD};

use mit_ops::VarType;
use mit_rows::Text;
use std::marker::Model;

/// The name of a variable: a text of 1 to 64 bytes, which contracts see as its bytes.
#[derive(Debug, Drop)]
pub struct Name {
    text: Text,
}

impl Model for Name {
    ghost use Rattle.std.specs.Prelude.{List, ℕ, ◌≤◌, length};
    ghost use Rattle.mit_lex.specs.declared.limits.TheConstants.{MAX_WORD};

    ghost Value = { List ℕ };

    ghost view = { λ n. n.text };

    ghost invariant = { λ n. (1 ≤ length n.text) × (length n.text ≤ MAX_WORD) };
}

impl Name {
    /// A name of this text.
    pub fn from_text(text: Text) -> Name
        requires some { 1 ≤ length text }
        requires short { length text ≤ MAX_WORD }
        ensures { result ≡ text }
    {
        Name { text }
    }

    /// Its bytes.
    pub fn bytes(&self) -> &[u8]
        ensures value { result.now ≡ self.now }
        ensures some { 1 ≤ length self.now }
        ensures short { length self.now ≤ MAX_WORD }
    {
        self.text.bytes()
    }

    /// It as text.
    pub fn as_str(&self) -> &str
        ensures { result.now ≡ self.now }
    {
        self.text.as_str()
    }
}

/// The names of a script's variables, which contracts see as their list.
#[derive(Debug, Drop)]
pub struct Names {
    names: Vec<Name>,
}

impl Model for Names {
    ghost use Rattle.std.specs.Prelude.{List, ℕ};

    ghost Value = { List (List ℕ) };

    ghost view = { λ n. n.names.items };
}

impl Names {
    /// A list of these names.
    pub fn from_vec(names: Vec<Name>) -> Names
        ensures { result ≡ names.items }
    {
        Names { names }
    }

    /// The names.
    pub fn as_slice(&self) -> &[Name]
        ensures { result.now ≡ self.now }
    {
        &self.names
    }
}

/// The arguments of a statement's operator, by the numbers of the variables, in a list that contracts see as it is: the
/// bags, and then the captured scalars in the order in which they appear first.
#[derive(Debug, Drop)]
pub struct Args {
    variables: Vec<u32>,
}

impl Model for Args {
    ghost use Rattle.std.specs.Prelude.{List, ℕ};

    ghost Value = { List ℕ };

    ghost view = { λ a. a.variables.items };
}

impl Args {
    /// A list of these variables.
    pub fn from_vec(variables: Vec<u32>) -> Args
        ensures { result ≡ variables.items }
    {
        Args { variables }
    }

    /// The variables.
    pub fn as_slice(&self) -> &[u32]
        ensures { result.now ≡ self.now }
    {
        &self.variables
    }
}

/// The types of a script's variables by their numbers, which contracts see as their list.
#[derive(Debug, Drop)]
pub struct VarTypes {
    types: Vec<VarType>,
}

impl Model for VarTypes {
    ghost use Rattle.std.specs.Prelude.{List};
    ghost use Rattle.mit_ops.specs.declared.types.VarType.{VarType as OneType};

    ghost Value = { List OneType };

    ghost view = { λ t. t.types.items };
}

impl VarTypes {
    /// A list of these types.
    pub fn from_vec(types: Vec<VarType>) -> VarTypes
        ensures { result ≡ types.items }
    {
        VarTypes { types }
    }

    /// The types.
    pub fn as_slice(&self) -> &[VarType]
        ensures { result.now ≡ self.now }
    {
        &self.types
    }
}
