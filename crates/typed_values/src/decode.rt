ghost use Rattle.std.specs.Prelude.{◌≡◌, ◌≤◌, ◌<◌, ◌^◌, length, IfOk, IfErr, MatchOption};
ghost use Rattle.std.specs.Option.{option_copied};
ghost use Rattle.schema_values.specs.Sound.{IsSound};
ghost use Rattle.schema_values.specs.declared.json_value.Json.{out-Json};
ghost use Rattle.typed_values.specs.declared.fault.Place.TheVariants.{Item, Name};
ghost use Rattle.descriptors.specs.declared.tree.Tree.{Tree};
ghost use Rattle.typed_values.specs.Answer.{Tells, Pushes, IfFault, IsFaultOf};
ghost use Rattle.typed_values.specs.Checks.{TablePasses, DescPasses};
ghost use Rattle.typed_values.specs.Denotes as denotes;
ghost use Rattle.typed_values.specs.Denotes.{JsonDenotes, Told, told, below, as_pair, as_tree};
ghost use Rattle.typed_values.specs.Denotes.{first_told, if_absent, if_present, optional, or_else};
ghost use Rattle.typed_values.specs.Fits.{Fits};
ghost use Rattle.typed_values.specs.Parts.{IsPart};
ghost use Rattle.typed_values.specs.Rows.{told_entry, told_field, told_fields};
ghost use Rattle.typed_values.specs.Rows.{list_row, map_row, struct_row, AreFieldsOf, AreParts};

use crate::bounds::is_length_within;
use crate::fault::{DecodeError, FaultKind, Place, Stop};
use crate::members::Members;
use crate::scalars::{
    decode_any, decode_bool, decode_char, decode_int, decode_name, decode_null, decode_text,
};
use crate::scope::Decoder;
use crate::wrapped::{in_some, some, variant};
use descriptors::{Desc, DescTable, Field, Pair, Presence, Tree};
use schema_values::{Json, List, Member, Text, in_order};
use std::alloc::Global;

/// Decodes a value under a descriptor: the tree that it denotes, or the fault that is told first.
pub fn decode_json(
    alloc: Global,
    table: &DescTable,
    desc: &Desc,
    json: &Json,
) -> Result<Tree, DecodeError>
    requires table { TablePasses table.now }
    requires desc { DescPasses table.now desc.now }
    ensures denotes { IfOk result (λ tree. JsonDenotes table.now desc.now json.now tree) }
    ensures fits { IsSound json.now → IfOk result (λ tree. Fits table.now desc.now tree) }
    ensures fault { IfErr result (λ error. IfFault error
        (IsFaultOf (told table.now desc.now json.now desc.now))) }
    ensures refused { IfErr result (λ error. IfFault error
        (λ fault. (tree : Tree) → JsonDenotes table.now desc.now json.now tree → ⊥)) }
{
    match Decoder::new(table, desc).decode_at(alloc, desc, json) {
        Ok(tree) => Ok(tree),
        Err(stop) => Err(stop.into_error(alloc)),
    }
}

/// A value under its key, or the fault below the key.
fn pair(key: Text, answer: Result<Tree, Stop>) -> Result<Pair, Stop>
    ensures { (told : Told) → Tells answer told → Tells result (as_pair key (below (Name key) told)) }
{
    match answer {
        Ok(value) => Ok(Pair { key, value }),
        Err(stop) => Err(stop.below(Place::Name(key))),
    }
}

/// The answer of an item, whose fault stands below its place.
fn item_at(place: usize, answer: Result<Tree, Stop>) -> Result<Tree, Stop>
    ensures { (told : Told) → Tells answer told → Tells result (below (Item place) told) }
{
    match answer {
        Ok(tree) => Ok(tree),
        Err(stop) => Err(stop.below(Place::Item(place))),
    }
}

/// Puts what is told of a part behind the others, unless it is a fault.
fn push<T: Drop>(parts: &mut List<T>, answer: Result<T, Stop>) -> Result<(), Stop>
    ensures { Pushes answer result parts.old parts.new }
{
    parts.push(answer?)?;
    Ok(())
}

/// What a field that is there gives.
fn present(alloc: Global, field: &Field, answer: Result<Tree, Stop>) -> Result<Tree, Stop>
    ensures { (told : Told) → Tells answer told
        → Tells result (if_present field.now.presence (below (Name field.now.name) told)) }
{
    match answer {
        Ok(tree) => match &field.presence {
            Presence::Required | Presence::Nullable | Presence::Default(_) => Ok(tree),
            Presence::Skipped => some(alloc, tree),
        },
        Err(stop) => Err(stop.below_name(alloc, &field.name)),
    }
}

/// What an absent field gives.
fn absent(alloc: Global, field: &Field) -> Result<Tree, Stop>
    ensures { Tells result (if_absent field.now.presence field.now.name) }
{
    match &field.presence {
        Presence::Required => Err(Stop::missing(alloc, &field.name)),
        Presence::Nullable | Presence::Skipped => Ok(Tree::None),
        Presence::Default(tree) => Ok(tree.copy(alloc)?),
    }
}

/// The answer, unless it is a tree and a name is denied.
fn unless_denied(
    alloc: Global,
    denied: Option<&Text>,
    answer: Result<Tree, Stop>,
) -> Result<Tree, Stop>
    ensures { (told : Told) → Tells answer told
        → Tells result (denotes.unless_denied (option_copied denied.entry) told) }
{
    match (denied, answer) {
        (Some(name), Ok(_)) => Err(Stop::unknown(alloc, name)),
        (_, answer) => answer,
    }
}

/// What the alternative at a place settles: nothing where it does not take the value.
fn settled(alloc: Global, place: usize, answer: Result<Tree, Stop>) -> Option<Result<Tree, Stop>>
    requires { place < 2 ^ 32 }
    ensures { (told rest : Told) → Tells answer told → MatchOption result
        (or_else place told rest ≡ rest) (λ settled. Tells settled (or_else place told rest)) }
{
    match answer {
        Ok(tree) => Some(variant(alloc, place, tree)),
        Err(Stop::Misfit(_misfit)) => None,
        Err(Stop::OutOfMemory) => Some(Err(Stop::OutOfMemory)),
    }
}

impl Decoder<'_> {
    /// Decodes a value under a descriptor that stands in the table or in the whole descriptor.
    #[cycle(decode)]
    pub(crate) fn decode_at(&self, alloc: Global, desc: &Desc, json: &Json) -> Result<Tree, Stop>
        requires { IsPart self.now.table.now self.now.whole.now desc.now }
        ensures { Tells result (told self.now.table.now self.now.whole.now json.now desc.now) }
    {
        match desc {
            Desc::Any => decode_any(alloc, json),
            Desc::Never => Err(Stop::refused(alloc, FaultKind::WrongKind)),
            Desc::Null => decode_null(alloc, json),
            Desc::Bool => decode_bool(alloc, json),
            Desc::Char => decode_char(alloc, json),
            Desc::Int { kind, min, max } => decode_int(alloc, *kind, *min, *max, json),
            Desc::Text { min, max, .. } => decode_text(alloc, *min, *max, json),
            Desc::Enumeration { names } => decode_name(alloc, names.as_slice(), json),
            Desc::Option(inner) => self.decode_option(alloc, inner.get(), json),
            Desc::List { item, min, max } => self.decode_list(alloc, item.get(), *min, *max, json),
            Desc::Map(value) => self.decode_map(alloc, value.get(), json),
            Desc::Struct {
                fields,
                deny_unknown,
            } => self.decode_struct(alloc, fields.as_slice(), *deny_unknown, json),
            Desc::External { variants } => self.decode_external(alloc, variants.as_slice(), json),
            Desc::Tagged { tag, variants } => {
                self.decode_tagged(alloc, tag, variants.as_slice(), json)
            }
            Desc::Untagged { alternatives } => self.decode_untagged(
                alloc,
                alternatives.as_slice(),
                json,
            ),
            Desc::Ref(name) => match self.table.find(name) {
                Some(definition) => self.decode_at(alloc, definition, json),
                None => Err(Stop::refused(alloc, FaultKind::WrongKind)),
            },
        }
    }

    /// Decodes what an option holds, where the value is not null.
    #[cycle(decode)]
    fn decode_option(&self, alloc: Global, inner: &Desc, json: &Json) -> Result<Tree, Stop>
        requires { IsPart self.now.table.now self.now.whole.now inner.now }
        ensures { Tells result (optional (out-Json json.now)
            (told self.now.table.now self.now.whole.now json.now inner.now)) }
    {
        match json {
            Json::Null => Ok(Tree::None),
            _ => in_some(alloc, self.decode_at(alloc, inner, json)),
        }
    }

    /// Decodes each item of a list, where there are as many as the bounds allow.
    #[cycle(decode)]
    fn decode_list(
        &self,
        alloc: Global,
        item: &Desc,
        min: Option<u32>,
        max: Option<u32>,
        json: &Json,
    ) -> Result<Tree, Stop>
        requires { IsPart self.now.table.now self.now.whole.now item.now }
        ensures { Tells result
            (list_row self.now.table.now self.now.whole.now item.now min max (out-Json json.now)) }
    {
        let Json::List(list) = json else {
            return Err(Stop::refused(alloc, FaultKind::WrongKind));
        };
        let items = list.as_slice();
        if !is_length_within(min, max, items.len()) {
            return Err(Stop::refused(alloc, FaultKind::BadLength));
        }
        let mut trees = List::new(alloc);
        for (i, json) in items.iter().enumerate() {
            push(&mut trees, item_at(i, self.decode_at(alloc, item, json)))?;
        }
        Ok(Tree::List(trees))
    }

    /// Decodes the value of each member of a map, in the order of names.
    #[cycle(decode)]
    fn decode_map(&self, alloc: Global, value: &Desc, json: &Json) -> Result<Tree, Stop>
        requires { IsPart self.now.table.now self.now.whole.now value.now }
        ensures { Tells result
            (map_row self.now.table.now self.now.whole.now value.now (out-Json json.now)) }
    {
        let Json::Object(object) = json else {
            return Err(Stop::refused(alloc, FaultKind::WrongKind));
        };
        let members = object.as_slice();
        let ordered = in_order(alloc, members)?;
        let mut pairs = List::new(alloc);
        for member in ordered.iter() {
            push(&mut pairs, self.decode_entry(alloc, value, member))?;
        }
        Ok(Tree::Map(pairs))
    }

    /// Decodes the value of a member of a map, under its name.
    #[cycle(decode)]
    fn decode_entry(&self, alloc: Global, value: &Desc, member: &Member) -> Result<Pair, Stop>
        requires { IsPart self.now.table.now self.now.whole.now value.now }
        ensures { Tells result
            (told_entry self.now.table.now self.now.whole.now value.now member.now) }
    {
        let key = member.name.copy(alloc)?;
        pair(key, self.decode_at(alloc, value, &member.value))
    }

    /// Decodes the fields of a struct, and then looks for unknown names where they are denied.
    #[cycle(decode)]
    fn decode_struct(
        &self,
        alloc: Global,
        fields: &[Field],
        deny_unknown: bool,
        json: &Json,
    ) -> Result<Tree, Stop>
        requires { AreFieldsOf self.now.table.now self.now.whole.now fields.now }
        ensures { Tells result (struct_row self.now.table.now self.now.whole.now fields.now deny_unknown
            (out-Json json.now)) }
    {
        let Json::Object(members) = json else {
            return Err(Stop::refused(alloc, FaultKind::WrongKind));
        };
        let members = Members::new(alloc, members.as_slice())?;
        let denied = members.denied_name(alloc, deny_unknown, fields)?;
        unless_denied(alloc, denied, self.decode_fields(alloc, fields, &members))
    }

    /// Decodes each field in order.
    #[cycle(decode)]
    pub(crate) fn decode_fields(
        &self,
        alloc: Global,
        fields: &[Field],
        members: &Members,
    ) -> Result<Tree, Stop>
        requires { AreFieldsOf self.now.table.now self.now.whole.now fields.now }
        ensures { Tells result (as_tree Tree.Fields
            (told_fields self.now.table.now self.now.whole.now members.now.items.now fields.now)) }
    {
        let mut trees = List::with_capacity(alloc, fields.len())?;
        for field in fields {
            push(&mut trees, self.decode_field(alloc, field, members))?;
        }
        Ok(Tree::Fields(trees))
    }

    /// Decodes a field by its presence.
    #[cycle(decode)]
    fn decode_field(&self, alloc: Global, field: &Field, members: &Members) -> Result<Tree, Stop>
        requires { IsPart self.now.table.now self.now.whole.now field.now.desc }
        ensures { Tells result
            (told_field self.now.table.now self.now.whole.now members.now.items.now field.now) }
    {
        match members.value_named(&field.name) {
            Some(json) => present(alloc, field, self.decode_at(alloc, &field.desc, json)),
            None => absent(alloc, field),
        }
    }

    /// Decodes under the first alternative that takes the value.
    #[cycle(decode)]
    fn decode_untagged(
        &self,
        alloc: Global,
        alternatives: &[Desc],
        json: &Json,
    ) -> Result<Tree, Stop>
        requires parts { AreParts self.now.table.now self.now.whole.now alternatives.now }
        requires few { length alternatives.now ≤ 4294967296 }
        ensures { Tells result
            (first_told 0 (told self.now.table.now self.now.whole.now json.now) alternatives.now) }
    {
        for (i, alternative) in alternatives.iter().enumerate() {
            if let Some(answer) = settled(alloc, i, self.decode_at(alloc, alternative, json)) {
                return answer;
            }
        }
        Err(Stop::refused(alloc, FaultKind::NoAlternative))
    }
}
