//! Structs, described by their fields.
ghost use Rattle.std.specs.Prelude.{◌≡◌, IfOk, IsTrue, OnErr, map};
ghost use Rattle.schema_values.specs.Ascii.{all_ascii};
ghost use Rattle.descriptors.specs.declared.tree.Tree.TheVariants as trees;
ghost use Rattle.api_types.specs.Adds.{AddsAll};
ghost use Rattle.api_types.specs.Heads.{skips};
ghost use Rattle.api_types.specs.Kinds.{is_left_out, KindsFitEach, KindsFitOne};
ghost use Rattle.api_types.specs.StructTypes.{own_definitions, struct_definition, struct_definitions};
ghost use Rattle.api_types.specs.StructTypes.{struct_desc, struct_with};
ghost use Rattle.api_types.specs.Types.{FitsOne};

use crate::additions::add_all;
use crate::api_type::ApiType;
use crate::fields::FieldTypes;
use crate::struct_head::StructHead;
use schema_values::{List, Text};
use std::alloc::{AllocError, Global};
use typed_values::{AddError, Definition, Desc, DescTable, Tree};

/// A struct that a document describes field by field: defined under its name, or in place.
pub trait ApiStruct: Sized + Drop {
    /// The types of the fields, in order.
    type Fields: FieldTypes;

    ghost use Rattle.std.specs.Prelude.{ℕ, List, Bool, false};
    ghost use Rattle.api_types.specs.declared.struct_head.StructHead.{StructHead as Head};

    /// The name of the struct.
    ghost struct_name: { List ℕ };

    /// Whether it stands in place, without a definition of its own. Where this is not given, it has one.
    ghost is_in_place: { Bool } = { false };

    /// What a document says of it and of its fields.
    ghost head_of: { Head };

    /// The fields of a value.
    ghost fields_of: { Self → Self.Fields };

    /// The name of the struct, in ASCII. There is a head for each field, and exactly those fields that are
    /// left out where they are none are `Skipped`.
    fn name() -> &'static str
        ensures ascii { IsTrue (all_ascii result.now) }
        ensures name { result.now ≡ struct_name }
        ensures matched { map skips head_of.fields ≡ map is_left_out Self.Fields.kinds_of };

    /// Whether it stands in place.
    fn in_place() -> bool
        ensures { result ≡ is_in_place };

    /// What a document says of it and of its fields.
    fn head(alloc: Global) -> Result<StructHead, AllocError>
        ensures { IfOk result (λ head. head ≡ head_of) };

    /// The trees of the fields.
    fn trees(&self, alloc: Global) -> Result<List<Tree>, AllocError>
        ensures { IfOk result (λ trees. trees ≡ Self.Fields.trees_of (fields_of self.now)) };

    /// Does nothing. It shows that the tree of each field fits.
    fn each_fits(&self)
        ensures { KindsFitEach Self.Fields.kinds_of (Self.Fields.trees_of (fields_of self.now)) };

    /// The value of some fields.
    fn from_fields(fields: Self::Fields) -> Self
        ensures { fields_of result ≡ fields };
}

impl<S: ApiStruct> ApiType for S {
    ghost name_of = { S.struct_name };

    ghost desc_of = { struct_desc S.is_in_place S.struct_name S.head_of S.Fields.kinds_of };

    ghost definitions_of = { struct_definitions S.is_in_place S.struct_name S.head_of S.Fields.kinds_of };

    ghost tree_of = { λ value. trees.Fields (S.Fields.trees_of (S.fields_of value)) };

    fn type_name(alloc: Global) -> Result<Text, AllocError> {
        Text::from_ascii(alloc, S::name())
    }

    fn descriptor(alloc: Global) -> Result<Desc, AllocError> {
        if S::in_place() {
            own_desc::<S>(alloc, S::head(alloc)?)
        } else {
            Ok(Desc::Ref(Text::from_ascii(alloc, S::name())?))
        }
    }

    fn reach() {
        let _ = S::name();
        <S::Fields as FieldTypes>::reach();
    }

    fn add_definitions(alloc: Global, table: &mut DescTable) -> Result<(), AddError> {
        add_struct::<S>(alloc, table)
    }

    fn to_tree(&self, alloc: Global) -> Result<Tree, AllocError> {
        Ok(Tree::Fields(self.trees(alloc)?))
    }

    fn fits(&self) {
        let _ = S::name();
        self.each_fits();
    }

    fn from_tree(alloc: Global, tree: &Tree) -> Result<S, AllocError> {
        let fields = <S::Fields as FieldTypes>::from_trees(alloc, trees_in::<S>(tree))?;
        Ok(S::from_fields(fields))
    }
}

fn trees_in<S: ApiStruct>(tree: &Tree) -> &[Tree]
    requires { FitsOne (struct_definitions S.is_in_place S.struct_name S.head_of S.Fields.kinds_of)
        (struct_desc S.is_in_place S.struct_name S.head_of S.Fields.kinds_of) tree.now }
    ensures is { tree.now ≡ trees.Fields result.now }
    ensures fit { KindsFitOne S.Fields.kinds_of result.now }
{
    let _ = S::name();
    match tree {
        Tree::Fields(trees) => trees.as_slice(),
        _ => unreachable!(),
    }
}

// The descriptor of the struct itself, by its head.
fn own_desc<S: ApiStruct>(alloc: Global, head: StructHead) -> Result<Desc, AllocError>
    ensures { IfOk result (λ desc. desc ≡ struct_with head S.Fields.kinds_of) }
{
    let fields = <S::Fields as FieldTypes>::fields(alloc, head.fields.as_slice())?;
    Ok(Desc::Struct {
        fields,
        deny_unknown: head.deny_unknown,
    })
}

// Adds the definitions behind the struct to a copy of the table, which takes its place where none clashes.
fn add_struct<S: ApiStruct>(alloc: Global, table: &mut DescTable) -> Result<(), AddError>
    ensures adds { AddsAll result table.old
        (struct_definitions S.is_in_place S.struct_name S.head_of S.Fields.kinds_of) table.new }
    ensures err { OnErr result (table.new ≡ table.old) }
{
    let mut all = table.copy(alloc)?;
    <S::Fields as FieldTypes>::add_definitions(alloc, &mut all)?;
    add_own::<S>(alloc, &mut all)?;
    *table = all;
    Ok(())
}

// Adds the definition of the struct itself, if it has one.
fn add_own<S: ApiStruct>(alloc: Global, table: &mut DescTable) -> Result<(), AddError>
    ensures { AddsAll result table.old
        (own_definitions S.is_in_place S.struct_name S.head_of S.Fields.kinds_of) table.new }
{
    if S::in_place() {
        return Ok(());
    }
    add_all(alloc, table, &[definition_of::<S>(alloc)?])?;
    Ok(())
}

/// The definition of a struct, which its table has unless it stands in place.
pub fn definition_of<S: ApiStruct>(alloc: Global) -> Result<Definition, AllocError>
    ensures { IfOk result (λ made. made ≡ struct_definition S.struct_name S.head_of S.Fields.kinds_of) }
{
    let name = Text::from_ascii(alloc, S::name())?;
    let StructHead {
        description,
        deny_unknown,
        fields,
    } = S::head(alloc)?;
    let fields = <S::Fields as FieldTypes>::fields(alloc, fields.as_slice())?;
    Ok(Definition {
        name,
        description,
        desc: Desc::Struct {
            fields,
            deny_unknown,
        },
    })
}
