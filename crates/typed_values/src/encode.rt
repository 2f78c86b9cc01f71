ghost use Rattle.std.specs.Prelude.{◌≡◌, ◌∷◌, ◌++◌, [], IfOk, IsOkAnd, OnOk};
ghost use Rattle.schema_values.specs.Member.{member};
ghost use Rattle.schema_values.specs.Sound.{IsSound};
ghost use Rattle.descriptors.specs.declared.tree.Tree.{Tree, out-Tree};
ghost use Rattle.typed_values.specs.Checks.{TablePasses, DescPasses};
ghost use Rattle.typed_values.specs.Denotes.{JsonDenotes};
ghost use Rattle.typed_values.specs.Encoding as meant;
ghost use Rattle.typed_values.specs.Encoding.{json_of_tree, written_under};
ghost use Rattle.typed_values.specs.Fits.{Fits, field_desc};
ghost use Rattle.typed_values.specs.Parts.{IsPart};
ghost use Rattle.typed_values.specs.Reached.{ReachesNoUntagged};
ghost use Rattle.typed_values.specs.Rows.{AreParts, AreFieldsOf};

use crate::scope::Scope;
use descriptors::{Desc, DescTable, Field, Named, Presence, Tree};
use schema_values::{Json, List, Member, Text};
use std::alloc::{AllocError, Global};

/// The JSON of a tree of a descriptor, which denotes that very tree where no untagged union is reached.
/// Fields stand in the order in which they are declared, and the members of a map in that of its keys.
pub fn encode_json(
    alloc: Global,
    table: &DescTable,
    desc: &Desc,
    tree: &Tree,
) -> Result<Json, AllocError>
    requires table { TablePasses table.now }
    requires desc { DescPasses table.now desc.now }
    requires fits { Fits table.now desc.now tree.now }
    ensures json { IfOk result (λ json. json ≡ json_of_tree table.now desc.now tree.now) }
    ensures sound { IfOk result (λ json. IsSound json) }
    ensures denotes { IfOk result (λ json. (read : Tree) × JsonDenotes table.now desc.now json read) }
    ensures again { ReachesNoUntagged table.now desc.now
        → IfOk result (λ json. JsonDenotes table.now desc.now json tree.now) }
{
    written(alloc, table, desc, tree)
}

/// The same of any tree and any descriptor, where the table passes the check.
pub(crate) fn written(
    alloc: Global,
    table: &DescTable,
    desc: &Desc,
    tree: &Tree,
) -> Result<Json, AllocError>
    requires { TablePasses table.now }
    ensures { IfOk result (λ json. json ≡ json_of_tree table.now desc.now tree.now) }
{
    Scope::new(table, desc).encode_at(alloc, desc, tree)
}

fn encode_scalar(alloc: Global, tree: &Tree) -> Result<Json, AllocError>
    ensures { IfOk result (λ json. json ≡ meant.scalar_written (out-Tree tree.now)) }
{
    match tree {
        Tree::Bool(truth) => Ok(Json::Bool(*truth)),
        Tree::Int(number) => Ok(Json::Int(*number)),
        Tree::Text(text) => Ok(Json::Text(text.copy(alloc)?)),
        _ => Ok(Json::Null),
    }
}

fn encode_whole(alloc: Global, tree: &Tree) -> Result<Json, AllocError>
    ensures { IfOk result (λ json. json ≡ meant.whole_written (out-Tree tree.now)) }
{
    match tree {
        Tree::Any(json) => json.copy(alloc),
        _ => Ok(Json::Null),
    }
}

fn encode_name(alloc: Global, names: &[Named], tree: &Tree) -> Result<Json, AllocError>
    ensures { IfOk result (λ json. json ≡ meant.listed_written names.now (out-Tree tree.now)) }
{
    match tree {
        Tree::Variant(place, _) => match names.get(*place as usize) {
            Some(named) => Ok(Json::Text(named.name.copy(alloc)?)),
            None => Ok(Json::Null),
        },
        _ => Ok(Json::Null),
    }
}

fn is_left_out(presence: &Presence, tree: &Tree) -> bool
    ensures { result ≡ meant.is_left_out presence.now (meant.is_none_level (out-Tree tree.now)) }
{
    match presence {
        Presence::Required | Presence::Nullable | Presence::Default(_) => false,
        Presence::Skipped => is_none(tree),
    }
}

fn is_none(tree: &Tree) -> bool
    ensures { result ≡ meant.is_none_level (out-Tree tree.now) }
{
    match tree {
        Tree::None => true,
        _ => false,
    }
}

/// Puts an item behind others, where it is written.
fn push_item(items: &mut List<Json>, item: Result<Json, AllocError>) -> Result<(), AllocError>
    ensures { OnOk result (IsOkAnd item (λ item. items.new ≡ items.old ++ item ∷ [])) }
{
    items.push(item?)
}

/// Puts a member behind others, where its value is written.
fn push_member(
    alloc: Global,
    members: &mut List<Member>,
    name: &Text,
    value: Result<Json, AllocError>,
) -> Result<(), AllocError>
    ensures { OnOk result (IsOkAnd value (λ value.
        members.new ≡ members.old ++ member name.now value ∷ [])) }
{
    let value = value?;
    let name = name.copy(alloc)?;
    members.push(Member { name, value })
}

// A tree that fits has the form that its descriptor asks for. Any other is written as null.
impl Scope<'_> {
    #[cycle(encode)]
    pub(crate) fn encode_at(
        &self,
        alloc: Global,
        desc: &Desc,
        tree: &Tree,
    ) -> Result<Json, AllocError>
        requires { IsPart self.now.table.now self.now.whole.now desc.now }
        ensures { IfOk result
            (λ json. json ≡ written_under self.now.table.now self.now.whole.now tree.now desc.now) }
    {
        match desc {
            Desc::Any => encode_whole(alloc, tree),
            Desc::Never | Desc::Null => Ok(Json::Null),
            Desc::Bool | Desc::Char | Desc::Int { .. } | Desc::Text { .. } => {
                encode_scalar(alloc, tree)
            }
            Desc::Enumeration { names } => encode_name(alloc, names.as_slice(), tree),
            Desc::Option(inner) => self.encode_option(alloc, inner.get(), tree),
            Desc::List { item, .. } => self.encode_list(alloc, item.get(), tree),
            Desc::Map(value) => self.encode_map(alloc, value.get(), tree),
            Desc::Struct { fields, .. } => self.encode_struct(alloc, fields.as_slice(), tree),
            Desc::External { variants } => self.encode_external(alloc, variants.as_slice(), tree),
            Desc::Tagged { tag, variants } => {
                self.encode_tagged(alloc, tag, variants.as_slice(), tree)
            }
            Desc::Untagged { alternatives } => {
                self.encode_choice(alloc, alternatives.as_slice(), tree)
            }
            Desc::Ref(name) => match self.table.find(name) {
                Some(definition) => self.encode_at(alloc, definition, tree),
                None => Ok(Json::Null),
            },
        }
    }

    #[cycle(encode)]
    fn encode_option(&self, alloc: Global, inner: &Desc, tree: &Tree) -> Result<Json, AllocError>
        requires { IsPart self.now.table.now self.now.whole.now inner.now }
        ensures { IfOk result (λ json. json ≡ meant.option_written
            (λ t. written_under self.now.table.now self.now.whole.now t inner.now) (out-Tree tree.now)) }
    {
        match tree {
            Tree::Some(tree) => self.encode_at(alloc, inner, tree.get()),
            _ => Ok(Json::Null),
        }
    }

    #[cycle(encode)]
    fn encode_list(&self, alloc: Global, item: &Desc, tree: &Tree) -> Result<Json, AllocError>
        requires { IsPart self.now.table.now self.now.whole.now item.now }
        ensures { IfOk result (λ json. json ≡ meant.items_written
            (λ t. written_under self.now.table.now self.now.whole.now t item.now) (out-Tree tree.now)) }
    {
        let Tree::List(trees) = tree else {
            return Ok(Json::Null);
        };
        let mut items = List::new(alloc);
        for tree in trees.as_slice() {
            push_item(&mut items, self.encode_at(alloc, item, tree))?;
        }
        Ok(Json::List(items))
    }

    #[cycle(encode)]
    fn encode_map(&self, alloc: Global, value: &Desc, tree: &Tree) -> Result<Json, AllocError>
        requires { IsPart self.now.table.now self.now.whole.now value.now }
        ensures { IfOk result (λ json. json ≡ meant.entries_written
            (λ t. written_under self.now.table.now self.now.whole.now t value.now) (out-Tree tree.now)) }
    {
        let Tree::Map(pairs) = tree else {
            return Ok(Json::Null);
        };
        let mut members = List::new(alloc);
        for pair in pairs.as_slice() {
            let value = self.encode_at(alloc, value, &pair.value);
            push_member(alloc, &mut members, &pair.key, value)?;
        }
        Ok(Json::Object(members))
    }

    #[cycle(encode)]
    fn encode_struct(
        &self,
        alloc: Global,
        fields: &[Field],
        tree: &Tree,
    ) -> Result<Json, AllocError>
        requires { AreFieldsOf self.now.table.now self.now.whole.now fields.now }
        ensures { IfOk result (λ json. json ≡ meant.parts_written (λ t. meant.is_none_level (out-Tree t))
            (written_under self.now.table.now self.now.whole.now) fields.now (out-Tree tree.now)) }
    {
        match tree {
            Tree::Fields(trees) => {
                let members = List::new(alloc);
                Ok(Json::Object(self.encode_fields(alloc, members, fields, trees.as_slice())?))
            }
            _ => Ok(Json::Null),
        }
    }

    /// The members of some fields, behind those that are given.
    #[cycle(encode)]
    pub(crate) fn encode_fields(
        &self,
        alloc: Global,
        mut members: List<Member>,
        fields: &[Field],
        trees: &[Tree],
    ) -> Result<List<Member>, AllocError>
        requires { AreFieldsOf self.now.table.now self.now.whole.now fields.now }
        ensures { IfOk result (λ all. all ≡ members ++ meant.members_written
            (λ t. meant.is_none_level (out-Tree t))
            (written_under self.now.table.now self.now.whole.now) fields.now trees.now) }
    {
        for (field, tree) in fields.iter().zip(trees) {
            if !is_left_out(&field.presence, tree) {
                let value = self.encode_field(alloc, field, tree);
                push_member(alloc, &mut members, &field.name, value)?;
            }
        }
        Ok(members)
    }

    #[cycle(encode)]
    fn encode_field(&self, alloc: Global, field: &Field, tree: &Tree) -> Result<Json, AllocError>
        requires { IsPart self.now.table.now self.now.whole.now field.now.desc }
        ensures { IfOk result (λ json. json ≡ written_under self.now.table.now self.now.whole.now tree.now
            (field_desc field.now)) }
    {
        match &field.presence {
            Presence::Required | Presence::Nullable | Presence::Default(_) => {
                self.encode_at(alloc, &field.desc, tree)
            }
            Presence::Skipped => self.encode_option(alloc, &field.desc, tree),
        }
    }

    #[cycle(encode)]
    fn encode_choice(
        &self,
        alloc: Global,
        alternatives: &[Desc],
        tree: &Tree,
    ) -> Result<Json, AllocError>
        requires { AreParts self.now.table.now self.now.whole.now alternatives.now }
        ensures { IfOk result (λ json. json ≡ meant.choice_written
            (written_under self.now.table.now self.now.whole.now) alternatives.now (out-Tree tree.now)) }
    {
        match tree {
            Tree::Variant(place, tree) => match alternatives.get(*place as usize) {
                Some(alternative) => self.encode_at(alloc, alternative, tree.get()),
                None => Ok(Json::Null),
            },
            _ => Ok(Json::Null),
        }
    }
}
