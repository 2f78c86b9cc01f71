ghost use Rattle.std.specs.Prelude.{◌≡◌, ◌↔◌, IsTrue, IfSome, length, map};
ghost use Rattle.descriptors.specs.declared.tree.Tree.{out-Tree};
ghost use Rattle.typed_values.specs.Checks.{TablePasses, DescPasses};
ghost use Rattle.typed_values.specs.Fits as meant;
ghost use Rattle.typed_values.specs.Fits.{Fits, fits_under, field_desc, payload_of, struct_of};
ghost use Rattle.typed_values.specs.Guarded.{IsGuarded};
ghost use Rattle.typed_values.specs.Parts.{IsPart};
ghost use Rattle.typed_values.specs.Rows.{AreParts, AreFieldsOf, ArePayloadsOf, AreVariantsOf};

use crate::bounds::{character_count, is_length_within, is_number_of};
use crate::scope::Scope;
use descriptors::{
    Desc, DescTable, Field, IntKind, Named, Pair, Presence, TaggedVariant, Tree, Variant,
};

/// Whether a tree is a value of a descriptor.
pub fn fits(table: &DescTable, desc: &Desc, tree: &Tree) -> bool
    requires table { TablePasses table.now }
    requires desc { DescPasses table.now desc.now }
    ensures { IsTrue result ↔ Fits table.now desc.now tree.now }
{
    is_value(table, desc, tree)
}

/// The same in any guarded table, so that a check may ask it.
pub(crate) fn is_value(table: &DescTable, desc: &Desc, tree: &Tree) -> bool
    requires { IsGuarded table.now }
    ensures { IsTrue result ↔ Fits table.now desc.now tree.now }
{
    Scope::new(table, desc).fits_at(desc, tree)
}

fn whole_fits(tree: &Tree) -> bool
    ensures { result ≡ meant.whole_fits (out-Tree tree.now) }
{
    match tree {
        Tree::Any(json) => json.sound(),
        _ => false,
    }
}

fn nought_fits(tree: &Tree) -> bool
    ensures { result ≡ meant.nought_fits (out-Tree tree.now) }
{
    matches!(tree, Tree::Unit)
}

fn character_fits(tree: &Tree) -> bool
    ensures { result ≡ meant.character_fits (out-Tree tree.now) }
{
    match tree {
        Tree::Text(text) => character_count(text) == 1,
        _ => false,
    }
}

fn truth_fits(tree: &Tree) -> bool
    ensures { result ≡ meant.truth_fits (out-Tree tree.now) }
{
    matches!(tree, Tree::Bool(_))
}

fn number_fits(kind: IntKind, min: Option<i128>, max: Option<i128>, tree: &Tree) -> bool
    ensures { result ≡ meant.number_fits kind min max (out-Tree tree.now) }
{
    match tree {
        Tree::Int(number) => is_number_of(kind, min, max, *number),
        _ => false,
    }
}

fn words_fit(min: Option<u32>, max: Option<u32>, tree: &Tree) -> bool
    ensures { result ≡ meant.words_fit min max (out-Tree tree.now) }
{
    match tree {
        Tree::Text(text) => is_length_within(min, max, character_count(text)),
        _ => false,
    }
}

fn keys_ascend(pairs: &[Pair]) -> bool
    ensures { result ≡ meant.are_ascending (map meant.key_of pairs.now) }
{
    for index in 1..pairs.len() {
        if pairs[index - 1].key >= pairs[index].key {
            return false;
        }
    }
    true
}

impl Scope<'_> {
    #[cycle(fits)]
    fn fits_at(&self, desc: &Desc, tree: &Tree) -> bool
        requires { IsPart self.now.table.now self.now.whole.now desc.now }
        ensures { result ≡ fits_under self.now.table.now self.now.whole.now tree.now desc.now }
    {
        match desc {
            Desc::Any => whole_fits(tree),
            Desc::Never => false,
            Desc::Null => nought_fits(tree),
            Desc::Bool => truth_fits(tree),
            Desc::Char => character_fits(tree),
            Desc::Int { kind, min, max } => number_fits(*kind, *min, *max, tree),
            Desc::Text { min, max, .. } => words_fit(*min, *max, tree),
            Desc::Enumeration { names } => self.name_fits(names.as_slice(), tree),
            Desc::Option(inner) => self.option_fits(inner.get(), tree),
            Desc::List { item, min, max } => self.items_fit(item.get(), *min, *max, tree),
            Desc::Map(value) => self.entries_fit(value.get(), tree),
            Desc::Struct { fields, .. } => self.fields_fit(fields.as_slice(), tree),
            Desc::External { variants } => self.external_fits(variants.as_slice(), tree),
            Desc::Tagged { variants, .. } => self.tagged_fits(variants.as_slice(), tree),
            Desc::Untagged { alternatives } => self.choice_fits(alternatives.as_slice(), tree),
            Desc::Ref(name) => match self.table.find(name) {
                Some(definition) => self.fits_at(definition, tree),
                None => false,
            },
        }
    }

    fn name_fits(&self, names: &[Named], tree: &Tree) -> bool
        ensures { result ≡ meant.name_fits
            (λ t. fits_under self.now.table.now self.now.whole.now t Desc.Null) names.now
            (out-Tree tree.now) }
    {
        match tree {
            Tree::Variant(place, tree) => (*place as usize) < names.len()
                && nought_fits(tree.get()),
            _ => false,
        }
    }

    #[cycle(fits)]
    fn option_fits(&self, inner: &Desc, tree: &Tree) -> bool
        requires { IsPart self.now.table.now self.now.whole.now inner.now }
        ensures { result ≡ meant.option_fits
            (λ t. fits_under self.now.table.now self.now.whole.now t inner.now) (out-Tree tree.now) }
    {
        match tree {
            Tree::None => true,
            Tree::Some(tree) => self.fits_at(inner, tree.get()),
            _ => false,
        }
    }

    #[cycle(fits)]
    fn items_fit(&self, item: &Desc, min: Option<u32>, max: Option<u32>, tree: &Tree) -> bool
        requires { IsPart self.now.table.now self.now.whole.now item.now }
        ensures { result ≡ meant.items_fit
            (λ t. fits_under self.now.table.now self.now.whole.now t item.now) min max (out-Tree tree.now) }
    {
        match tree {
            Tree::List(trees) => {
                is_length_within(min, max, trees.len()) && self.each_fits(item, trees.as_slice())
            }
            _ => false,
        }
    }

    #[cycle(fits)]
    fn each_fits(&self, item: &Desc, trees: &[Tree]) -> bool
        requires { IsPart self.now.table.now self.now.whole.now item.now }
        ensures { result ≡ meant.each_fits
            (λ t. fits_under self.now.table.now self.now.whole.now t item.now) trees.now }
    {
        for tree in trees {
            if !self.fits_at(item, tree) {
                return false;
            }
        }
        true
    }

    #[cycle(fits)]
    fn entries_fit(&self, value: &Desc, tree: &Tree) -> bool
        requires { IsPart self.now.table.now self.now.whole.now value.now }
        ensures { result ≡ meant.entries_fit
            (λ t. fits_under self.now.table.now self.now.whole.now t value.now) (out-Tree tree.now) }
    {
        match tree {
            Tree::Map(pairs) => {
                keys_ascend(pairs.as_slice()) && self.values_fit(value, pairs.as_slice())
            }
            _ => false,
        }
    }

    #[cycle(fits)]
    fn values_fit(&self, value: &Desc, pairs: &[Pair]) -> bool
        requires { IsPart self.now.table.now self.now.whole.now value.now }
        ensures { result ≡ meant.each_fits
            (λ p. fits_under self.now.table.now self.now.whole.now p.value value.now) pairs.now }
    {
        for pair in pairs {
            if !self.fits_at(value, &pair.value) {
                return false;
            }
        }
        true
    }

    #[cycle(fits)]
    fn fields_fit(&self, fields: &[Field], tree: &Tree) -> bool
        requires { AreFieldsOf self.now.table.now self.now.whole.now fields.now }
        ensures { result ≡ meant.parts_fit (fits_under self.now.table.now self.now.whole.now) fields.now
            (out-Tree tree.now) }
    {
        match tree {
            Tree::Fields(trees) => {
                fields.len() == trees.len() && self.parts_fit(fields, trees.as_slice())
            }
            _ => false,
        }
    }

    #[cycle(fits)]
    fn parts_fit(&self, fields: &[Field], trees: &[Tree]) -> bool
        requires parts { AreFieldsOf self.now.table.now self.now.whole.now fields.now }
        requires paired { length fields.now ≡ length trees.now }
        ensures { result ≡ meant.fields_fit
            (fits_under self.now.table.now self.now.whole.now) fields.now trees.now }
    {
        for (field, tree) in fields.iter().zip(trees) {
            if !self.field_fits(field, tree) {
                return false;
            }
        }
        true
    }

    #[cycle(fits)]
    fn field_fits(&self, field: &Field, tree: &Tree) -> bool
        requires { IsPart self.now.table.now self.now.whole.now field.now.desc }
        ensures { result ≡ fits_under self.now.table.now self.now.whole.now tree.now (field_desc field.now) }
    {
        match &field.presence {
            Presence::Required | Presence::Nullable | Presence::Default(_) => {
                self.fits_at(&field.desc, tree)
            }
            Presence::Skipped => self.option_fits(&field.desc, tree),
        }
    }

    #[cycle(fits)]
    fn external_fits(&self, variants: &[Variant], tree: &Tree) -> bool
        requires { ArePayloadsOf self.now.table.now self.now.whole.now variants.now }
        ensures { result ≡ meant.choice_fits (fits_under self.now.table.now self.now.whole.now)
            (map payload_of variants.now) (out-Tree tree.now) }
    {
        match tree {
            Tree::Variant(place, tree) => match variants.get(*place as usize) {
                Some(variant) => self.payload_fits(&variant.payload, tree.get()),
                None => false,
            },
            _ => false,
        }
    }

    #[cycle(fits)]
    fn payload_fits(&self, payload: &Option<Desc>, tree: &Tree) -> bool
        requires { IfSome payload.now (IsPart self.now.table.now self.now.whole.now) }
        ensures { result ≡ fits_under self.now.table.now self.now.whole.now tree.now
            (meant.payload_or_null payload.now) }
    {
        match payload {
            Some(payload) => self.fits_at(payload, tree),
            None => nought_fits(tree),
        }
    }

    #[cycle(fits)]
    fn tagged_fits(&self, variants: &[TaggedVariant], tree: &Tree) -> bool
        requires { AreVariantsOf self.now.table.now self.now.whole.now variants.now }
        ensures { result ≡ meant.choice_fits (fits_under self.now.table.now self.now.whole.now)
            (map struct_of variants.now) (out-Tree tree.now) }
    {
        match tree {
            Tree::Variant(place, tree) => match variants.get(*place as usize) {
                Some(variant) => self.fields_fit(variant.fields.as_slice(), tree.get()),
                None => false,
            },
            _ => false,
        }
    }

    #[cycle(fits)]
    fn choice_fits(&self, alternatives: &[Desc], tree: &Tree) -> bool
        requires { AreParts self.now.table.now self.now.whole.now alternatives.now }
        ensures { result ≡ meant.choice_fits
            (fits_under self.now.table.now self.now.whole.now) alternatives.now (out-Tree tree.now) }
    {
        match tree {
            Tree::Variant(place, tree) => match alternatives.get(*place as usize) {
                Some(alternative) => self.fits_at(alternative, tree.get()),
                None => false,
            },
            _ => false,
        }
    }
}
