// The names of the responses of errors.
ghost use Rattle.std.specs.Prelude.{◌≡◌, ◌++◌, ◌∷◌, [], IfOk, OnOk, fold, length, option_map};
ghost use Rattle.std.specs.Fmt.{decimal};
ghost use Rattle.std.specs.Option.{option_copied};
ghost use Rattle.typed_values.specs.Checks.{TablePasses};
ghost use Rattle.api_documents.specs.ErrorNames.{free_from, free_name, given_names};
ghost use Rattle.api_documents.specs.ErrorNames.{is_taken, listed_error, listed_errors, name_of_error};
ghost use Rattle.api_documents.specs.ErrorNames.{same_desc, same_error, shared_by, with_error};
ghost use Rattle.api_documents.specs.Ordered.{in_text_order};

use api_declarations::Declaration;
use handler_shapes::{ApiEndpointErrorResponse, HandlerShape};
use schema_values::{List, Text};
use std::alloc::{AllocError, Global};
use std::collections::BTreeSet;
use std::marker::Model;
use typed_values::{Desc, DescTable};

/// An error, lent, under the name of its response in the document. Its descriptor is read in a table,
/// which passes its checks.
#[derive(Drop)]
pub(crate) struct NamedError<'a> {
    /// The name of the response.
    pub name: Text,
    /// The definitions that the descriptor refers to.
    pub table: &'a DescTable,
    /// The error.
    pub error: &'a ApiEndpointErrorResponse,
}

impl<'a> Model for NamedError<'a> {
    ghost use Rattle.typed_values.specs.Checks.{TablePasses};
    ghost use Rattle.api_documents.specs.Codes.{named_error_code};
    ghost use Rattle.api_documents.specs.ErrorNames.{NamedErrorValue};

    ghost Value = { NamedErrorValue };

    ghost coded = { named_error_code };

    ghost view = { λ n. record {
      name = n.name;
      table = n.table.now;
      error = n.error.now;
    } };

    ghost invariant = { λ n. TablePasses n.table.now };
}

impl NamedError<'_> {
    /// The name.
    fn name(&self) -> &Text
        ensures { result.now ≡ self.now.name }
    {
        &self.name
    }

    // Whether an error is the same.
    fn is_of(&self, error: &ApiEndpointErrorResponse) -> bool
        ensures { result ≡ same_error error.now self.now.error }
    {
        error.name == self.error.name && is_same(&error.desc, &self.error.desc)
    }
}

fn is_same(desc: &Desc, other: &Desc) -> bool
    ensures { result ≡ same_desc desc.now other.now }
{
    desc.equals(other)
}

/// The error that an operation lists: none where it has no success code.
pub(crate) fn listed_error(shape: &HandlerShape) -> Option<&ApiEndpointErrorResponse>
    ensures { option_copied result ≡ listed_error shape.now }
{
    match shape.response.success {
        Some(_) => shape.error.as_ref(),
        None => None,
    }
}

// The name of the same error, if it has one.
fn shared_name<'n>(
    error: &ApiEndpointErrorResponse,
    named: &'n [NamedError<'_>],
) -> Option<&'n Text>
    ensures { option_copied result ≡ option_map (λ n. n.name) (shared_by error.now named.now) }
{
    for other in named {
        if other.is_of(error) {
            return Some(other.name());
        }
    }
    None
}

/// The name under which an error is referred to.
pub(crate) fn name_of_error<'n>(
    error: &'n ApiEndpointErrorResponse,
    named: &'n [NamedError<'_>],
) -> &'n Text
    ensures { result.now ≡ name_of_error named.now error.now }
{
    match shared_name(error, named) {
        Some(name) => name,
        None => &error.name,
    }
}

/// Adds the error of an operation under a name that is free, unless the same is there.
pub(crate) fn add_error<'a>(
    alloc: Global,
    named: &mut List<NamedError<'a>>,
    declaration: &Declaration<'a>,
) -> Result<(), AllocError>
    requires { TablePasses declaration.now.shape.table }
    ensures { OnOk result (named.new
        ≡ fold with_error named.old (listed_errors (declaration.now ∷ []))) }
{
    let shape = declaration.shape;
    let Some(error) = listed_error(shape) else {
        return Ok(());
    };
    if shared_name(error, named.as_slice()).is_some() {
        return Ok(());
    }
    let name = free_name(alloc, named.as_slice(), &error.name)?;
    named.push(NamedError {
        name,
        table: &shape.table,
        error,
    })
}

fn is_taken(name: &Text, named: &[NamedError<'_>]) -> bool
    ensures { result ≡ is_taken (given_names named.now) name.now }
{
    for other in named {
        if *name == *other.name() {
            return true;
        }
    }
    false
}

// A name itself, or with the least number from 2 on that makes it free.
fn free_name(alloc: Global, named: &[NamedError<'_>], name: &Text) -> Result<Text, AllocError>
    ensures { IfOk result (λ free. free ≡ free_name (given_names named.now) name.now) }
{
    if is_taken(name, named) {
        let taken = names_in_order(alloc, named)?;
        let number = free_number(alloc, named, &taken, name)?;
        numbered(alloc, name, number)
    } else {
        name.copy(alloc)
    }
}

// The names that are given, for fast look-ups.
fn names_in_order(alloc: Global, named: &[NamedError<'_>]) -> Result<BTreeSet<Text>, AllocError>
    ensures { IfOk result (λ names. names.keys ≡ in_text_order (given_names named.now)) }
{
    let mut names = BTreeSet::new(alloc);
    for other in named {
        names.insert(other.name().copy(alloc)?)?;
    }
    Ok(names)
}

fn free_number(
    alloc: Global,
    named: &[NamedError<'_>],
    taken: &BTreeSet<Text>,
    name: &Text,
) -> Result<u64, AllocError>
    requires { taken.now.keys ≡ in_text_order (given_names named.now) }
    ensures { IfOk result (λ number. number
        ≡ free_from (given_names named.now) name.now 2 (length named.now)) }
{
    for tried in 0..named.len() {
        let number = tried as u64 + 2;
        if !taken.contains(&numbered(alloc, name, number)?) {
            return Ok(number);
        }
    }
    Ok(named.len() as u64 + 2)
}

fn numbered(alloc: Global, name: &Text, number: u64) -> Result<Text, AllocError>
    ensures { IfOk result (λ made. made ≡ name.now ++ decimal number) }
{
    let mut made = name.copy(alloc)?;
    made.push_number(alloc, i128::from(number))?;
    Ok(made)
}
