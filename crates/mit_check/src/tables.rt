//! What is known of the variables at a place in the text.
ghost use Rattle.std.specs.Prelude.{◌≡◌, IfOk, map, flat_map};
ghost use Rattle.std.specs.List.{list_all};
ghost use Rattle.mit_ops.specs.Results.{AreBags, IsBagType};
ghost use Rattle.mit_script.specs.Accepted as spec;
ghost use Rattle.mit_check.specs.Trails.{known_in};

use crate::trail::is_assigned;
use mit_ops::{ColTypes, VarType};
use mit_rows::ColType;
use mit_script::Name;
use std::alloc::{AllocError, Global};
use std::marker::Model;

/// A type that an operator gives.
#[derive(Drop)]
pub(crate) struct Kept {
    is: VarType,
}

impl Model for Kept {
    ghost use Rattle.mit_ops.specs.declared.types.VarType.{VarType as OneType};
    ghost use Rattle.mit_ops.specs.Results.{IsBagType};

    ghost Value = { OneType };

    ghost view = { λ k. k.is };

    ghost invariant = { λ k. IsBagType k.is };
}

impl Kept {
    /// This type.
    pub(crate) fn of(is: VarType) -> Kept
        requires { IsBagType is }
        ensures { result ≡ is }
    {
        Kept { is }
    }

    /// The type.
    pub(crate) fn get(&self) -> &VarType
        ensures value { result.now ≡ self.now }
        ensures wide { IsBagType self.now }
    {
        &self.is
    }
}

/// What is known of each variable, by its number.
#[derive(Drop)]
pub(crate) struct Tables {
    /// Whether it is assigned on every path to here.
    pub(crate) assigned: Vec<bool>,
    /// Those that became assigned, in this order, but for those that were taken back.
    pub(crate) trail: Vec<u32>,
    /// The type of its first assignment in the text up to here.
    pub(crate) types: Vec<Option<Kept>>,
    /// How many statements stand before.
    pub(crate) before: u32,
}

impl Tables {
    /// What is known before the first statement.
    pub(crate) fn new(alloc: Global, names: &[Name]) -> Result<Tables, AllocError>
        ensures { IfOk result (λ tables. known_in tables ≡ spec.at_start names.now) }
    {
        let mut assigned = Vec::with_capacity(alloc, names.len())?;
        let mut types = Vec::with_capacity(alloc, names.len())?;
        for _name in names {
            assigned.push(false)?;
            types.push(None)?;
        }
        Ok(Tables {
            assigned,
            trail: Vec::new(alloc),
            types,
            before: 0,
        })
    }

    /// Whether these variables are assigned.
    pub(crate) fn are_assigned(&self, variables: &[u32]) -> bool
        ensures { result ≡ list_all (spec.is_assigned self.now.assigned.items) variables.now }
    {
        for variable in variables {
            if !is_assigned(&self.assigned, *variable) {
                return false;
            }
        }
        true
    }

    /// Whether the type of a variable is a scalar.
    fn is_scalar(&self, variable: u32) -> bool
        ensures { result ≡ (spec.type_of (known_in self.now) variable).scalar }
    {
        match self.types.get(variable as usize) {
            Some(Some(kept)) => kept.get().scalar,
            _ => false,
        }
    }

    /// Whether these variables are scalars.
    pub(crate) fn are_scalars(&self, variables: &[u32]) -> bool
        ensures { result ≡ list_all
            (λ variable. (spec.type_of (known_in self.now) variable).scalar) variables.now }
    {
        for variable in variables {
            if !self.is_scalar(*variable) {
                return false;
            }
        }
        true
    }

    /// The columns of a variable.
    fn columns(&self, variable: u32) -> &[ColType]
        ensures value { result.now ≡ (spec.type_of (known_in self.now) variable).cols }
        ensures wide { IsBagType (spec.type_of (known_in self.now) variable) }
    {
        match self.types.get(variable as usize) {
            Some(Some(kept)) => kept.get().cols.as_slice(),
            _ => &[],
        }
    }

    /// The type of a variable.
    fn type_of(&self, alloc: Global, variable: u32) -> Result<VarType, AllocError>
        ensures value { IfOk result (λ type. type ≡ spec.type_of (known_in self.now) variable) }
        ensures wide { IfOk result IsBagType }
    {
        Ok(VarType {
            scalar: self.is_scalar(variable),
            cols: ColTypes::from_vec(Vec::from_slice(alloc, self.columns(variable))?),
        })
    }

    /// The types of bags.
    pub(crate) fn bags(&self, alloc: Global, variables: &[u32]) -> Result<Vec<VarType>, AllocError>
        ensures value { IfOk result (λ bags. bags.items
            ≡ map (spec.type_of (known_in self.now)) variables.now) }
        ensures wide { IfOk result (λ bags. AreBags bags.items) }
    {
        let mut bags = Vec::with_capacity(alloc, variables.len())?;
        for variable in variables {
            bags.push(self.type_of(alloc, *variable)?)?;
        }
        Ok(bags)
    }

    /// The columns of captured scalars, one after another.
    pub(crate) fn captures(
        &self,
        alloc: Global,
        variables: &[u32],
    ) -> Result<Vec<ColType>, AllocError>
        ensures { IfOk result (λ captures. captures.items
            ≡ flat_map (λ variable. (spec.type_of (known_in self.now) variable).cols) variables.now) }
    {
        let mut captures = Vec::with_capacity(alloc, variables.len())?;
        for variable in variables {
            captures.extend_from_slice(self.columns(*variable))?;
        }
        Ok(captures)
    }

    /// Whether a type is that of the first assignment to a variable, where there was one.
    pub(crate) fn is_kept(&self, variable: u32, is: &VarType) -> bool
        ensures { result ≡ spec.is_kept (spec.first_type (known_in self.now) variable) is.now }
    {
        match self.types.get(variable as usize) {
            Some(Some(first)) => same_type(first.get(), is),
            _ => true,
        }
    }

    /// The types of all variables.
    pub(crate) fn all_types(&self, alloc: Global) -> Result<Vec<VarType>, AllocError>
        ensures { IfOk result (λ types. types.items ≡ map spec.type_or_unset (known_in self.now).types) }
    {
        let mut types = Vec::with_capacity(alloc, self.types.len())?;
        for kept in &self.types {
            types.push(given(alloc, kept)?)?;
        }
        Ok(types)
    }
}

/// Whether two types have the same columns and are both scalars or both not.
fn same_type(first: &VarType, is: &VarType) -> bool
    ensures { result ≡ spec.is_kept (Some first.now) is.now }
{
    first.scalar == is.scalar && first.cols.as_slice() == is.cols.as_slice()
}

/// The type of a variable that no statement assigns.
fn unset(alloc: Global) -> VarType
    ensures { result ≡ spec.unset }
{
    VarType {
        scalar: false,
        cols: ColTypes::from_vec(Vec::new(alloc)),
    }
}

/// The type that is kept, or that of a variable that no statement assigns.
fn given(alloc: Global, kept: &Option<Kept>) -> Result<VarType, AllocError>
    ensures { IfOk result (λ type. type ≡ spec.type_or_unset kept.now) }
{
    match kept {
        Some(kept) => kept.get().copy(alloc),
        None => Ok(unset(alloc)),
    }
}
