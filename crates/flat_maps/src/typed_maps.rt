//! Values of Rust types from maps of texts, and back.
ghost use Rattle.std.specs.Prelude.{◌≡◌, IfErr, IfOk, List, Ok, Some};
ghost use Rattle.schema_values.specs.declared.variables.VariableValue.TheVariants.{String};
ghost use Rattle.descriptors.specs.declared.tree.Tree.{Tree};
ghost use Rattle.typed_values.specs.Checks.{TablePasses, DescPasses};
ghost use Rattle.typed_values.specs.Fits.{Fits};
ghost use Rattle.flat_maps.specs.FaultWords.{flat_refusal};
ghost use Rattle.flat_maps.specs.FieldTexts.{HoldsTexts};
ghost use Rattle.flat_maps.specs.Flat.{FlatDenotes};
ghost use Rattle.flat_maps.specs.Given.{lowered};
ghost use Rattle.flat_maps.specs.MapErrors.{IfRefused};
ghost use Rattle.flat_maps.specs.Maps.{map_values};
ghost use Rattle.flat_maps.specs.TextMaps.{TextEntry, map_written};
ghost use Rattle.flat_maps.specs.TextStructs.{IsTextStruct};
ghost use Rattle.flat_maps.specs.TypedMaps.{HasOwnTable, own_table};

use crate::fault_words::told;
use crate::given::LookUp;
use crate::lowered::Lowered;
use crate::map_error::MapError;
use crate::maps::{MapValue, tree_of_names};
use crate::text_maps::to_map_tree;
use api_types::ApiType;
use descriptors::{AddError, Desc, DescTable, Tree};
use schema_values::Text;
use std::alloc::Global;
use std::collections::BTreeMap;
use typed_values::Stop;

/// The value that a map of texts denotes, as the variables of a path (OpenAPI 3.0.3, Parameter
/// Object): a struct that takes unknown names. Names that are no field's have no effect. Where it
/// denotes none, the first fault is told, in the order of the fields.
pub fn from_map<T: ApiType, Z: MapValue>(
    alloc: Global,
    map: &BTreeMap<Text, Z>,
) -> Result<T, MapError>
    requires { HasOwnTable T.definitions_of T.desc_of }
    ensures value { IfOk result (λ value. FlatDenotes (own_table T.definitions_of) T.desc_of
        (map_values Z.given map.now) (T.tree_of value)) }
    ensures told { IfErr result (λ error. IfRefused error (λ text.
        flat_refusal (own_table T.definitions_of) (map_values Z.given map.now) T.desc_of
        ≡ Some text)) }
    ensures refused { IfErr result (λ error. IfRefused error (λ text. (tree : Tree)
        → FlatDenotes (own_table T.definitions_of) T.desc_of (map_values Z.given map.now) tree
        → ⊥)) }
{
    value_of(alloc, map)
}

/// The same of a map whose keys are in lower case: each field's name is compared with its ASCII
/// letters in lower case, as the names of headers are (RFC 9110, section 5.1).
pub fn from_map_insensitive<T: ApiType, Z: MapValue>(
    alloc: Global,
    map: &BTreeMap<Text, Z>,
) -> Result<T, MapError>
    requires { HasOwnTable T.definitions_of T.desc_of }
    ensures value { IfOk result (λ value. FlatDenotes (own_table T.definitions_of) T.desc_of
        (lowered (map_values Z.given map.now)) (T.tree_of value)) }
    ensures told { IfErr result (λ error. IfRefused error (λ text.
        flat_refusal (own_table T.definitions_of) (lowered (map_values Z.given map.now)) T.desc_of
        ≡ Some text)) }
    ensures refused { IfErr result (λ error. IfRefused error (λ text. (tree : Tree)
        → FlatDenotes (own_table T.definitions_of) T.desc_of (lowered (map_values Z.given map.now))
        tree
        → ⊥)) }
{
    value_of(alloc, &Lowered { names: map })
}

// The value that names denote.
fn value_of<T: ApiType, L: LookUp>(alloc: Global, names: &L) -> Result<T, MapError>
    requires { HasOwnTable T.definitions_of T.desc_of }
    ensures value { IfOk result (λ value. FlatDenotes (own_table T.definitions_of) T.desc_of
        (L.names names.now) (T.tree_of value)) }
    ensures told { IfErr result (λ error. IfRefused error (λ text.
        flat_refusal (own_table T.definitions_of) (L.names names.now) T.desc_of ≡ Some text)) }
{
    let table = own_table::<T>(alloc)?;
    let desc = T::descriptor(alloc)?;
    let tree = decode_names(alloc, &table, &desc, names)?;
    Ok(T::from_tree(alloc, &tree)?)
}

// The tree that names denote, or what is told of the first fault.
fn decode_names<L: LookUp>(
    alloc: Global,
    table: &DescTable,
    desc: &Desc,
    names: &L,
) -> Result<Tree, MapError>
    requires table { TablePasses table.now }
    requires desc { DescPasses table.now desc.now }
    ensures denotes { IfOk result (FlatDenotes table.now desc.now (L.names names.now)) }
    ensures fits { IfOk result (Fits table.now desc.now) }
    ensures told { IfErr result (λ error. IfRefused error
        (λ text. flat_refusal table.now (L.names names.now) desc.now ≡ Some text)) }
{
    match tree_of_names(alloc, table, desc, names) {
        Ok(tree) => Ok(tree),
        Err(Stop::Misfit(misfit)) => Err(told(alloc, table, desc, names, &misfit)),
        Err(Stop::OutOfMemory) => Err(MapError::OutOfMemory),
    }
}

/// The table of a type's definitions, none of which clash. Fails only for want of memory.
pub fn own_table<T: ApiType>(alloc: Global) -> Result<DescTable, MapError>
    requires { HasOwnTable T.definitions_of T.desc_of }
    ensures table { IfOk result (λ table. table ≡ own_table T.definitions_of) }
    ensures memory { IfErr result (λ error. error ≡ MapError.OutOfMemory) }
{
    let mut table = DescTable::new(alloc);
    match T::add_definitions(alloc, &mut table) {
        Ok(()) => Ok(table),
        Err(AddError::OutOfMemory) => Err(MapError::OutOfMemory),
        Err(AddError::Clash(_)) => unreachable!(),
    }
}

/// The map of texts that a value is written as, where it is a struct of texts and optional texts:
/// each text that is there stands under the name of its field, and an option that is none leaves no
/// key. Any other value is refused, by the first field that is no text.
pub fn to_map<T: ApiType>(alloc: Global, input: &T) -> Result<BTreeMap<Text, Text>, MapError>
    requires { HasOwnTable T.definitions_of T.desc_of }
    ensures written { IfOk result (λ map.
        map_written (own_table T.definitions_of) T.desc_of (T.tree_of input.now) ≡ Ok map.entries) }
    ensures texts { IfOk result (λ map. HoldsTexts (own_table T.definitions_of) T.desc_of
        (T.tree_of input.now) (map_values String map)) }
    ensures told { IfErr result (λ error. IfRefused error (λ text.
        map_written (own_table T.definitions_of) T.desc_of (T.tree_of input.now) ≡ Err text)) }
    ensures refused { IfErr result (λ error. IfRefused error (λ text. (entries : List TextEntry)
        → map_written (own_table T.definitions_of) T.desc_of (T.tree_of input.now) ≡ Ok entries
        → ⊥)) }
    ensures read_back { IsTextStruct (own_table T.definitions_of) T.desc_of → IfOk result (λ map.
        FlatDenotes (own_table T.definitions_of) T.desc_of (map_values String map)
        (T.tree_of input.now)) }
{
    input.fits();
    let table = own_table::<T>(alloc)?;
    let desc = T::descriptor(alloc)?;
    let tree = input.to_tree(alloc)?;
    to_map_tree(alloc, &table, &desc, &tree)
}
