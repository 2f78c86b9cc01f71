//! The table that a type's values need.
ghost use Rattle.std.specs.Prelude.{◌≡◌, [], IfOk, IfErr, OnOk, MatchOption};
ghost use Rattle.typed_values.specs.Causes.{AppliesToDesc, AppliesToTable};
ghost use Rattle.typed_values.specs.Checks.{DescPasses, TablePasses};
ghost use Rattle.api_types.specs.Additions.{with_all};
ghost use Rattle.api_types.specs.TypeTables.{flaw_of, HasNoTable, IsFirstFlaw};
ghost use Rattle.api_types.specs.Types.{HoldsAll, IsTableOf};

use crate::api_type::ApiType;
use schema_values::Text;
use std::alloc::{AllocError, Global};
use typed_values::{AddError, Desc, DescTable, TableError, check_desc, check_table};

/// Why a type has no table.
#[derive(Debug, Drop)]
pub enum TypeError {
    /// Two of the type's definitions differ and have this name. The first clash is told.
    Clash(Text),
    /// The first flaw of the table of the type's definitions.
    Table(Flaw),
    /// The first flaw of the type's descriptor beside that table.
    Descriptor(Flaw),
    /// There was not enough memory.
    OutOfMemory,
}

/// What is wrong with a table or a descriptor, as `TableError` tells, without a borrow.
#[derive(Debug, Drop)]
pub enum Flaw {
    /// Two fields, names or variants of one descriptor have one name.
    DoubledName,
    /// A definition's name is empty, or has another character than a component's name may have.
    BadName,
    /// A reference names no definition.
    Dangling,
    /// The first definition that leads back to itself at one value.
    Unguarded(Text),
    /// An enumeration or a choice has no members, or an external enumeration no payload.
    EmptyEnumeration,
    /// An option is over a descriptor that takes null.
    NullOfNull,
    /// A field is named as the tag.
    TagClash,
    /// A least bound is above the greatest, a bound is outside its kind, or there are too many places.
    BadRange,
    /// A field may be null without an option, is left out though it takes null, or has a default that is no
    /// value of it.
    BadPresence,
}

impl From<AllocError> for TypeError {
    ghost use Rattle.std.specs.Prelude.{◌≡◌};
    ghost use Rattle.api_types.specs.declared.type_table.TypeError.TheVariants.{OutOfMemory};

    ghost from_gives = { λ _ e. e ≡ OutOfMemory };

    fn from(_: AllocError) -> TypeError {
        TypeError::OutOfMemory
    }
}

impl From<AddError> for TypeError {
    ghost use Rattle.std.specs.Prelude.{◌≡◌};
    ghost use Rattle.api_types.specs.TypeTables.{error_of};

    ghost from_gives = { λ error e. e ≡ error_of error };

    fn from(error: AddError) -> TypeError {
        match error {
            AddError::Clash(name) => TypeError::Clash(name),
            AddError::OutOfMemory => TypeError::OutOfMemory,
        }
    }
}

impl Flaw {
    /// The flaw that an error tells.
    fn of(alloc: Global, error: TableError) -> Result<Flaw, AllocError>
        ensures { IfOk result (λ flaw. flaw ≡ flaw_of error.entry) }
    {
        match error {
            TableError::DoubledName => Ok(Flaw::DoubledName),
            TableError::BadName => Ok(Flaw::BadName),
            TableError::Dangling => Ok(Flaw::Dangling),
            TableError::Unguarded(name) => Ok(Flaw::Unguarded(Text::from_str(alloc, name)?)),
            TableError::EmptyEnumeration => Ok(Flaw::EmptyEnumeration),
            TableError::NullOfNull => Ok(Flaw::NullOfNull),
            TableError::TagClash => Ok(Flaw::TagClash),
            TableError::BadRange => Ok(Flaw::BadRange),
            TableError::BadPresence => Ok(Flaw::BadPresence),
        }
    }
}

/// The table of a type's definitions, beside which the type's values are read and written.
pub fn table_of<T: ApiType>(alloc: Global) -> Result<DescTable, TypeError>
    ensures ok { IfOk result (IsTableOf T.definitions_of T.desc_of) }
    ensures made { IfOk result (λ table. table ≡ with_all [] T.definitions_of) }
    ensures refused { IfErr result (HasNoTable T.definitions_of T.desc_of) }
{
    let mut table = DescTable::new(alloc);
    T::add_definitions(alloc, &mut table)?;
    check_type::<T>(alloc, &table)?;
    Ok(table)
}

// Checks the table of a type's definitions, and then the type's descriptor beside it.
fn check_type<T: ApiType>(alloc: Global, table: &DescTable) -> Result<(), TypeError>
    requires made { table.now ≡ with_all [] T.definitions_of }
    requires held { HoldsAll table.now T.definitions_of }
    ensures ok { OnOk result (IsTableOf T.definitions_of T.desc_of table.now) }
    ensures refused { IfErr result (HasNoTable T.definitions_of T.desc_of) }
{
    if let Some(flaw) = table_flaw(alloc, table)? {
        return Err(TypeError::Table(flaw));
    }
    match descriptor_flaw::<T>(alloc, table)? {
        Some(flaw) => Err(TypeError::Descriptor(flaw)),
        None => Ok(()),
    }
}

// The first flaw of a table, if it has one.
fn table_flaw(alloc: Global, table: &DescTable) -> Result<Option<Flaw>, AllocError>
    ensures { IfOk result (λ found. MatchOption found (TablePasses table.now)
        (IsFirstFlaw (AppliesToTable table.now))) }
{
    match check_table(table) {
        Ok(()) => Ok(None),
        Err(error) => Ok(Some(Flaw::of(alloc, error)?)),
    }
}

// The first flaw of a type's descriptor beside a table without one.
fn descriptor_flaw<T: ApiType>(alloc: Global, table: &DescTable) -> Result<Option<Flaw>, AllocError>
    requires { TablePasses table.now }
    ensures { IfOk result (λ found. MatchOption found (DescPasses table.now T.desc_of)
        (IsFirstFlaw (AppliesToDesc table.now T.desc_of))) }
{
    let desc = T::descriptor(alloc)?;
    desc_flaw(alloc, table, &desc)
}

// The first flaw of a descriptor beside a table without one.
fn desc_flaw(alloc: Global, table: &DescTable, desc: &Desc) -> Result<Option<Flaw>, AllocError>
    requires { TablePasses table.now }
    ensures { IfOk result (λ found. MatchOption found (DescPasses table.now desc.now)
        (IsFirstFlaw (AppliesToDesc table.now desc.now))) }
{
    match check_desc(table, desc) {
        Ok(()) => Ok(None),
        Err(error) => Ok(Some(Flaw::of(alloc, error)?)),
    }
}
