//! The types of the fields of a struct.
ghost use Rattle.std.specs.Prelude.{◌≡◌, ◌++◌, ◌∷◌, [], map, IfOk, OnErr};
ghost use Rattle.api_types.specs.Adds.{AddsAll, AddsFirst};
ghost use Rattle.api_types.specs.Kinds.{definitions_behind, kept, kind_desc, skipped};
ghost use Rattle.api_types.specs.Kinds.{KindsFitOne, KindsReach};
ghost use Rattle.api_types.specs.Options.{option_tree};
ghost use Rattle.api_types.specs.StructTypes.{fields_with};

use crate::api_type::ApiType;
use crate::struct_head::FieldHead;
use schema_values::List;
use std::alloc::{AllocError, Global};
use typed_values::{AddError, DescTable, Field, Tree};

/// The types of some fields: a pair of the first and the others, which end with `()`. An option that is left
/// out where it is none stands in `Skipped`.
pub trait FieldTypes: Sized + Drop {
    ghost use Rattle.std.specs.Prelude.{List};
    ghost use Rattle.descriptors.specs.declared.tree.Tree.{Tree as Value};
    ghost use Rattle.api_types.specs.Kinds.{Kind};

    /// The types, in order.
    ghost kinds_of: { List Kind };

    /// The trees of values, in order.
    ghost trees_of: { Self → List Value };

    /// The fields with these heads.
    fn fields(alloc: Global, heads: &[FieldHead]) -> Result<List<Field>, AllocError>
        ensures { IfOk result (λ fields. fields ≡ fields_with (map kind_desc kinds_of) heads.now) };

    /// Adds the definitions of the types, in order: all of them or, at an error, the first of them, some or
    /// none. The first clash is told.
    fn add_definitions(alloc: Global, table: &mut DescTable) -> Result<(), AddError>
        ensures adds { AddsAll result table.old (definitions_behind kinds_of) table.new }
        ensures err { OnErr result (AddsFirst table.old (definitions_behind kinds_of) table.new) };

    /// Does nothing. It shows that each descriptor reaches its type's definitions and no other.
    fn reach()
        ensures { KindsReach kinds_of };

    /// The values of trees that fit.
    fn from_trees(alloc: Global, trees: &[Tree]) -> Result<Self, AllocError>
        requires { KindsFitOne kinds_of trees.now }
        ensures { IfOk result (λ values. trees_of values ≡ trees.now) };
}

/// An option that is left out where it is none.
#[derive(Drop)]
pub struct Skipped<T> {
    /// The option.
    pub value: Option<T>,
}

impl FieldTypes for () {
    ghost kinds_of = { [] };

    ghost trees_of = { λ values. [] };

    fn fields(alloc: Global, _heads: &[FieldHead]) -> Result<List<Field>, AllocError> {
        Ok(List::new(alloc))
    }

    fn add_definitions(_alloc: Global, _table: &mut DescTable) -> Result<(), AddError> {
        Ok(())
    }

    fn reach() {}

    fn from_trees(_alloc: Global, _trees: &[Tree]) -> Result<(), AllocError> {
        Ok(())
    }
}

impl<A: ApiType, R: FieldTypes> FieldTypes for (A, R) {
    ghost kinds_of = { kept A.definitions_of A.desc_of ∷ R.kinds_of };

    ghost trees_of = { λ values. A.tree_of values.0 ∷ R.trees_of values.1 };

    fn fields(alloc: Global, heads: &[FieldHead]) -> Result<List<Field>, AllocError> {
        fields_of::<A, R>(alloc, heads)
    }

    fn add_definitions(alloc: Global, table: &mut DescTable) -> Result<(), AddError> {
        add_both::<A, R>(alloc, table)
    }

    fn reach() {
        A::reach();
        R::reach();
    }

    fn from_trees(alloc: Global, trees: &[Tree]) -> Result<(A, R), AllocError> {
        match trees.split_first() {
            Some((first, others)) => {
                let value = A::from_tree(alloc, first)?;
                Ok((value, R::from_trees(alloc, others)?))
            }
            None => unreachable!(),
        }
    }
}

impl<A: ApiType, R: FieldTypes> FieldTypes for (Skipped<A>, R) {
    ghost kinds_of = { skipped A.definitions_of A.desc_of ∷ R.kinds_of };

    ghost trees_of = { λ values. option_tree A.tree_of values.0.value ∷ R.trees_of values.1 };

    fn fields(alloc: Global, heads: &[FieldHead]) -> Result<List<Field>, AllocError> {
        fields_of::<A, R>(alloc, heads)
    }

    fn add_definitions(alloc: Global, table: &mut DescTable) -> Result<(), AddError> {
        add_both::<A, R>(alloc, table)
    }

    fn reach() {
        A::reach();
        R::reach();
    }

    fn from_trees(alloc: Global, trees: &[Tree]) -> Result<(Skipped<A>, R), AllocError> {
        match trees.split_first() {
            Some((first, others)) => {
                let value = <Option<A>>::from_tree(alloc, first)?;
                Ok((Skipped { value }, R::from_trees(alloc, others)?))
            }
            None => unreachable!(),
        }
    }
}

// The field of one type, and then those of the others.
fn fields_of<A: ApiType, R: FieldTypes>(
    alloc: Global,
    heads: &[FieldHead],
) -> Result<List<Field>, AllocError>
    ensures { IfOk result (λ fields. fields ≡ fields_with (A.desc_of ∷ map kind_desc R.kinds_of) heads.now) }
{
    match heads.split_first() {
        Some((head, others)) => {
            let fields = R::fields(alloc, others)?;
            field_before(head.field(alloc, A::descriptor(alloc)?)?, fields)
        }
        None => Ok(List::new(alloc)),
    }
}

fn field_before(field: Field, others: List<Field>) -> Result<List<Field>, AllocError>
    ensures { IfOk result (λ fields. fields ≡ field ∷ others) }
{
    let mut fields = others.into_vec();
    fields.insert(0, field)?;
    Ok(List::from_vec(fields))
}

// Adds the definitions of one type, and then those of the others.
fn add_both<A: ApiType, R: FieldTypes>(alloc: Global, table: &mut DescTable) -> Result<(), AddError>
    ensures adds { AddsAll result table.old (A.definitions_of ++ definitions_behind R.kinds_of) table.new }
    ensures err { OnErr result
        (AddsFirst table.old (A.definitions_of ++ definitions_behind R.kinds_of) table.new) }
{
    A::add_definitions(alloc, table)?;
    R::add_definitions(alloc, table)?;
    Ok(())
}
